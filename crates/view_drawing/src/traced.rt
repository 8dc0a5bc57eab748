// A whole run as a trace.

ghost use Rattle.std.specs.Prelude.{◌≡◌, ◌⊎◌, false, length};
ghost use Rattle.order_cert.specs.Kept.{place_of};
ghost use Rattle.placement.specs.Lanes.{AreHonest};
ghost use Rattle.user_rules.specs.Rules.{required_of};
ghost use Rattle.program_ends.specs.declared.ending.Ending.TheVariants.{Own};
ghost use Rattle.program_ends.specs.Endings.{out_of_memory};
ghost use Rattle.shown_run.specs.declared.ending.ViewEnd.TheVariants.{Checked, Unwritten};
ghost use Rattle.shown_run.specs.Endings.{refusing};
ghost use Rattle.shown_run.specs.Shown.{IsShown};
ghost use Rattle.view_drawing.specs.Followed.{outcome_of};

use crate::page::explanation_of;
use crate::viewing::ViewAsked;
use answer_words::{Explainer, RunFiles, note_broken};
use apex_types::{Cause, Ordered};
use csv_rows::TextSource;
use module_config::Config;
use piece_check::Piece;
use placement::Placer;
use program_ends::{Ending, Line, out_of_memory};
use report::{CheckFault, Verdict};
use run_view::{Change, LastSeen, MessageLinks};
use sarif_report::name_of_cause;
use shown_run::{FollowFault, Follower, Shown, ViewEnd, follow};
use sink::Sink;
use std::alloc::Global;
use std::fs::{File, Files};
use std::sync::Wait;
use user_rules::{Rule, RuleMemory};
use view_trace::{TraceFault, Tracer};

/// Shows a run as a trace, up to the record that decides, or to the last place that may be shown. If the input has a fault, the trace of the records
/// before it is complete too. What ends the run is a fault of the trace, unless its place is past the last one that may be shown.
pub fn show_trace<R, S: TextSource, C: TextSource, W: Sink>(
    rt: &R,
    alloc: Global,
    asked: ViewAsked,
    shown: &Shown<'_>,
    memories: &[RuleMemory],
    rules: &[Rule],
    placer: &mut Placer<S, C>,
    explainer: &mut Explainer,
    output: &mut W,
) -> Ending<ViewEnd>
where
    R: Files<File = File> + Wait,
    requires going { placer.old.ended ≡ false }
    requires first { place_of placer.old.kept ≡ 0 }
    requires cores { length placer.old.lanes ≡ shown.now.config.now.cores }
    ensures { AreHonest S.can_fail placer.new.lanes → IsShown (record { recordings = S.can_fail; certificate = C.can_fail }) shown.now.config.now (required_of memories.now rules.now) placer.old result }
{
    let config = shown.config;
    let tracer = Tracer::new(alloc, asked.axis, output);
    let mut tracing = Tracing::new(alloc, config, asked.at, tracer);
    let followed = follow(
        rt,
        alloc,
        config,
        memories,
        rules,
        placer,
        explainer,
        &mut tracing,
    );
    end_followed(rt, alloc, shown, &mut tracing, followed, explainer)
}

// Ends the trace of a run that was followed, and ends as it does.
fn end_followed<R: Files<File = File>, W: Sink>(
    rt: &R,
    alloc: Global,
    shown: &Shown<'_>,
    tracing: &mut Tracing<'_, '_, W>,
    followed: Result<Verdict, FollowFault<TraceFault>>,
    explainer: &mut Explainer,
) -> Ending<ViewEnd>
    ensures { (result ≡ Own Unwritten) ⊎ (result ≡ out_of_memory refusing) ⊎ (result ≡ Own (Checked (outcome_of followed))) }
{
    match followed {
        Ok(verdict) => {
            let outcome = Ok(verdict);
            note_broken(explainer, alloc, shown.options, shown.file, &outcome);
            end_trace(rt, alloc, shown, tracing, explainer, outcome)
        }
        Err(FollowFault::Refused(CheckFault::Memory)) => out_of_memory(),
        Err(FollowFault::Refused(fault)) => {
            end_trace(rt, alloc, shown, tracing, explainer, Err(fault))
        }
        Err(FollowFault::Stopped(fault)) => cut_off(fault),
    }
}

// Ends the trace of a run that came to this outcome, with what explains it.
fn end_trace<R: Files<File = File>, W: Sink>(
    rt: &R,
    alloc: Global,
    shown: &Shown<'_>,
    tracing: &mut Tracing<'_, '_, W>,
    explainer: &Explainer,
    outcome: Result<Verdict, CheckFault>,
) -> Ending<ViewEnd>
    ensures { (result ≡ Own Unwritten) ⊎ (result ≡ out_of_memory refusing) ⊎ (result ≡ Own (Checked outcome)) }
{
    let names = shown.names;
    let files = RunFiles { rt, alloc, names };
    let Ok(explanation) = explanation_of(alloc, &files, &outcome, explainer) else {
        return out_of_memory();
    };
    let place = tracing.place_of(&outcome);
    let ending = Ending::Own(ViewEnd::Checked(outcome));
    let line = Line::of(&ending);
    match tracing.end(place, line.text(), explanation.as_str()) {
        Ok(()) => ending,
        Err(fault) => cut_off(fault),
    }
}

// A trace that grows record by record.
#[derive(Drop)]
struct Tracing<'a, 'b, W> {
    config: &'a Config,
    // The last place that is shown, if not all are.
    last: Option<u64>,
    // The place after the records so far.
    next: u64,
    tracer: Tracer<'b, W>,
    seen: LastSeen,
    links: MessageLinks,
    changes: Vec<Change>,
}

impl<'a, 'b, W: Sink> Tracing<'a, 'b, W> {
    // A trace without an event.
    fn new(
        alloc: Global,
        config: &'a Config,
        last: Option<u64>,
        tracer: Tracer<'b, W>,
    ) -> Tracing<'a, 'b, W> {
        Tracing {
            config,
            last,
            next: 0,
            tracer,
            seen: LastSeen::new(alloc),
            links: MessageLinks::new(alloc),
            changes: Vec::new(alloc),
        }
    }

    // The place of what ends a run before its last record; none for a Yes.
    fn place_of(&self, outcome: &Result<Verdict, CheckFault>) -> Option<u64> {
        match outcome {
            Ok(Verdict::Yes { .. }) => None,
            Ok(Verdict::No { pos, .. } | Verdict::Broken { pos, .. }) => Some(pos.number()),
            Err(_) => Some(self.next),
        }
    }

    // Ends the trace, with the fault at this place if there is one: by the line of the answer, and why it is so.
    fn end(
        &mut self,
        fault: Option<u64>,
        answer: &str,
        explanation: &str,
    ) -> Result<(), TraceFault> {
        if let Some(place) = fault
            && !is_past(self.last, place)
        {
            self.tracer.add_fault(place, answer, explanation)?;
        }
        self.tracer.end()
    }
}

impl<'a, 'b, W: Sink> Follower for Tracing<'a, 'b, W> {
    type Stop = TraceFault;

    fn begin(&mut self, pieces: &[Piece]) -> Result<(), TraceFault> {
        self.seen
            .look(self.config, pieces, None, &mut self.changes)?;
        self.tracer.begin(pieces, self.changes.as_slice())?;
        Ok(())
    }

    fn meet(&mut self, _pieces: &[Piece], _ordered: &Ordered) -> Result<(), TraceFault> {
        Ok(())
    }

    fn accept(&mut self, pieces: &[Piece], ordered: &Ordered) -> Result<(), TraceFault> {
        self.next = ordered.pos.number().saturating_add(1);
        if is_past(self.last, ordered.pos.number()) {
            return Ok(());
        }
        self.changes.clear();
        self.seen
            .look(self.config, pieces, Some(ordered), &mut self.changes)?;
        let followed = self.links.follow(pieces, ordered)?;
        self.tracer
            .accept(pieces, ordered, self.changes.as_slice(), &followed)?;
        Ok(())
    }

    fn reject(&mut self, ordered: &Ordered, cause: Cause) -> Result<(), TraceFault> {
        if is_past(self.last, ordered.pos.number()) {
            return Ok(());
        }
        self.tracer.reject(ordered, name_of_cause(cause))?;
        Ok(())
    }
}

/// Whether a place is after the last one that is shown.
pub(crate) fn is_past(last: Option<u64>, place: u64) -> bool {
    match last {
        Some(last) => place > last,
        None => false,
    }
}

// The end of a run whose trace is cut off by this fault.
fn cut_off(fault: TraceFault) -> Ending<ViewEnd>
    ensures { (result ≡ Own Unwritten) ⊎ (result ≡ out_of_memory refusing) }
{
    match fault {
        TraceFault::Memory => out_of_memory(),
        TraceFault::Unwritten => Ending::Own(ViewEnd::Unwritten),
    }
}
