// The figures of a run.

ghost use Rattle.std.specs.Prelude.{◌≡◌, ◌⊎◌, false, length};
ghost use Rattle.order_cert.specs.Kept.{place_of};
ghost use Rattle.placement.specs.Lanes.{AreHonest};
ghost use Rattle.user_rules.specs.Rules.{required_of};
ghost use Rattle.program_ends.specs.declared.ending.Ending.TheVariants.{Own};
ghost use Rattle.program_ends.specs.Endings.{out_of_memory};
ghost use Rattle.shown_run.specs.declared.ending.ViewEnd.TheVariants.{Checked, Unwritten};
ghost use Rattle.shown_run.specs.Endings.{refusing};
ghost use Rattle.shown_run.specs.Shown.{IsShown};
ghost use Rattle.view_drawing.specs.Followed.{outcome_of};

use crate::traced::is_past;
use crate::viewing::{Format, ViewAsked};
use answer_words::{Explainer, note_broken};
use apex_types::{Cause, Ordered};
use csv_rows::TextSource;
use module_config::Config;
use numbers_text::{NumbersFault, write_json, write_text};
use piece_check::Piece;
use placement::Placer;
use program_ends::{Ending, out_of_memory};
use report::{CheckFault, Verdict};
use run_numbers::Numbers;
use shown_run::{FollowFault, Follower, Shown, ViewEnd, follow};
use sink::Sink;
use std::alloc::{AllocError, Global};
use std::sync::Wait;
use user_rules::{Rule, RuleMemory};

/// Shows the figures of a run, up to the record before the one that is rejected, or to the last place that may be counted. If the input has a
/// fault, the figures are those of the records before it.
pub fn show_numbers<R: Wait, S: TextSource, C: TextSource, W: Sink>(
    rt: &R,
    alloc: Global,
    asked: ViewAsked,
    shown: &Shown<'_>,
    memories: &[RuleMemory],
    rules: &[Rule],
    placer: &mut Placer<S, C>,
    explainer: &mut Explainer,
    output: &mut W,
) -> Ending<ViewEnd>
    requires going { placer.old.ended ≡ false }
    requires first { place_of placer.old.kept ≡ 0 }
    requires cores { length placer.old.lanes ≡ shown.now.config.now.cores }
    ensures { AreHonest S.can_fail placer.new.lanes → IsShown (record { recordings = S.can_fail; certificate = C.can_fail }) shown.now.config.now (required_of memories.now rules.now) placer.old result }
{
    let mut counting = Counting {
        config: shown.config,
        last: asked.at,
        numbers: Numbers::new(alloc),
    };
    let followed = follow(
        rt,
        alloc,
        shown.config,
        memories,
        rules,
        placer,
        explainer,
        &mut counting,
    );
    end_numbers(
        alloc,
        asked.format,
        shown,
        &counting.numbers,
        followed,
        explainer,
        output,
    )
}

// Writes the figures of a run that was followed so far, and ends as it does.
fn end_numbers<W: Sink>(
    alloc: Global,
    format: Format,
    shown: &Shown<'_>,
    numbers: &Numbers,
    followed: Result<Verdict, FollowFault<AllocError>>,
    explainer: &mut Explainer,
    output: &mut W,
) -> Ending<ViewEnd>
    ensures { (result ≡ Own Unwritten) ⊎ (result ≡ out_of_memory refusing) ⊎ (result ≡ Own (Checked (outcome_of followed))) }
{
    match followed {
        Ok(verdict) => {
            let outcome = Ok(verdict);
            note_broken(explainer, alloc, shown.options, shown.file, &outcome);
            write_figures(alloc, format, shown.config, numbers, outcome, output)
        }
        Err(FollowFault::Refused(CheckFault::Memory)) => out_of_memory(),
        Err(FollowFault::Refused(fault)) => {
            write_figures(alloc, format, shown.config, numbers, Err(fault), output)
        }
        Err(FollowFault::Stopped(_)) => out_of_memory(),
    }
}

// Writes the figures of a run that came to this outcome.
fn write_figures<W: Sink>(
    alloc: Global,
    format: Format,
    config: &Config,
    numbers: &Numbers,
    outcome: Result<Verdict, CheckFault>,
    output: &mut W,
) -> Ending<ViewEnd>
    ensures { (result ≡ Own Unwritten) ⊎ (result ≡ out_of_memory refusing) ⊎ (result ≡ Own (Checked outcome)) }
{
    let cores = config.cores();
    let written = match format {
        Format::Json => write_json(alloc, cores, numbers, output),
        Format::Html | Format::Svg | Format::Trace | Format::Summary => {
            write_text(alloc, cores, numbers, output)
        }
    };
    match written {
        Ok(()) => Ending::Own(ViewEnd::Checked(outcome)),
        Err(NumbersFault::Memory) => out_of_memory(),
        Err(NumbersFault::Unwritten) => Ending::Own(ViewEnd::Unwritten),
    }
}

// The figures of a run, record by record.
#[derive(Drop)]
struct Counting<'a> {
    config: &'a Config,
    // The last place that is counted, if not all are.
    last: Option<u64>,
    numbers: Numbers,
}

impl<'a> Follower for Counting<'a> {
    type Stop = AllocError;

    fn begin(&mut self, _pieces: &[Piece]) -> Result<(), AllocError> {
        Ok(())
    }

    fn meet(&mut self, pieces: &[Piece], ordered: &Ordered) -> Result<(), AllocError> {
        if is_past(self.last, ordered.pos.number()) {
            return Ok(());
        }
        self.numbers.meet(self.config, pieces, ordered)
    }

    fn accept(&mut self, pieces: &[Piece], ordered: &Ordered) -> Result<(), AllocError> {
        if is_past(self.last, ordered.pos.number()) {
            return Ok(());
        }
        self.numbers.accept(pieces, ordered)
    }

    fn reject(&mut self, _ordered: &Ordered, _cause: Cause) -> Result<(), AllocError> {
        Ok(())
    }
}
