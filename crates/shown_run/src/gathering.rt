// What is kept of a run for a picture, while the run is judged.

ghost use Rattle.std.specs.Prelude.{◌≡◌, ◌≤◌, ◌-◌, ◌++◌, [], List, IfOk, None, OnOk, false, length, min, true};
ghost use Rattle.apex_machine.specs.Configuration.{Configuration};
ghost use Rattle.apex_machine.specs.Runs.{ArePlaced, AreOfCores};
ghost use Rattle.piece_check.specs.Parts.{Holding};
ghost use Rattle.placement.specs.Lanes.{AreHonest};
ghost use Rattle.shown_run.specs.Kept.{IsBegun, IsKept, most_of};
ghost use Rattle.shown_run.specs.Stretches.{
  GoesOn,
  HaveTaken,
  IsGathered,
  IsGatheredOfSome,
  IsWhole,
  KeepsSame,
  NoneIsAfter,
  accepted_by,
  asked_of,
  up_to,
  with_accepted,
};

use crate::recent::Recent;
use crate::round::Round;
use crate::span::Span;
use crate::stretch::{Asked, Rejected, Stretch};
use crate::walk::Walk;
use apex_types::{Cause, Ordered, Place};
use csv_rows::TextSource;
use module_config::Config;
use placement::{Filled, Placer};
use report::Verdict;
use std::alloc::{AllocError, Global};
use std::collections::VecDeque;
use std::sync::Wait;

/// The most records that are shown after the last one that is judged.
const MOST_AFTER: usize = 20;

/// What is kept of a run while it is judged.
#[derive(Drop)]
pub struct Gathering {
    pub asked: Asked,
    /// The records that were accepted last: those of the picture, and some before them.
    pub recent: Recent,
    rejected: Option<Rejected>,
    is_broken: bool,
    after: Vec<Ordered>,
    /// Whether the records of the picture have ended. A few of those after them are shown as not judged.
    pub has_ended: bool,
}

impl Gathering {
    /// What is kept before the first record.
    ///
    /// `AllocError` if memory is refused.
    pub fn start(alloc: Global, config: &Config, asked: Asked) -> Result<Gathering, AllocError>
        ensures goes_on { IfOk result (GoesOn config.now []) }
        ensures asked { IfOk result (λ gathering. gathering.asked ≡ asked) }
    {
        let Ok(recent) = Recent::start(alloc, config, asked.span) else {
            return Err(AllocError);
        };
        Ok(Gathering {
            asked,
            recent,
            rejected: None,
            is_broken: false,
            after: Vec::new(alloc),
            has_ended: false,
        })
    }

    /// Adds a round, in which this verdict decides, if there is one. These pieces have taken it, if none does.
    ///
    /// `AllocError` if memory is refused; what is kept must then be given up.
    pub fn add(
        &mut self,
        alloc: Global,
        walk: &Walk,
        round: Round,
        verdict: &Option<Verdict>,
    ) -> Result<(), AllocError>
        requires begun { self.old.has_ended ≡ false → IsBegun self.old.recent }
        requires few { length round.records.items ≤ most_of self.old.recent }
        ensures gathered { OnOk result ((configuration : Configuration) (taken : List Ordered) → GoesOn configuration taken self.old → round.first ≡ length taken → ArePlaced (length taken) round.records.items → AreOfCores configuration.cores round.records.items → HaveTaken configuration taken round.records.items verdict.now walk.now → IsGathered configuration (with_accepted taken round.records.items verdict.now) self.new) }
        ensures goes_on { OnOk result ((configuration : Configuration) (taken : List Ordered) → GoesOn configuration taken self.old → round.first ≡ length taken → ArePlaced (length taken) round.records.items → AreOfCores configuration.cores round.records.items → HaveTaken configuration taken round.records.items verdict.now walk.now → verdict.now ≡ None → round.end ≡ None → GoesOn configuration (taken ++ round.records.items) self.new) }
        ensures asked { OnOk result (self.new.asked ≡ self.old.asked) }
    {
        if self.has_ended {
            return self.show_after(VecDeque::from(round.records));
        }
        let asked = self.asked.count_of(round.first, round.records.len());
        if verdict.is_none() && round.end.is_none() && round.records.len() == asked {
            self.recent.keep_round(alloc, round.records, walk)?;
            return Ok(());
        }
        self.add_last(round, verdict, asked)
    }

    // Adds the round in which the picture ends, so many of whose records are not after the last place that is asked for. Those of them that
    // are accepted are kept; the others are shown as not judged.
    fn add_last(
        &mut self,
        round: Round,
        verdict: &Option<Verdict>,
        asked: usize,
    ) -> Result<(), AllocError>
        requires begun { IsBegun self.old.recent }
        requires few { length round.records.items ≤ most_of self.old.recent }
        requires asked { asked ≡ asked_of self.old.asked.at round.first (length round.records.items) }
        ensures ended { OnOk result (self.new.has_ended ≡ true) }
        ensures gathered { OnOk result ((configuration : Configuration) (taken : List Ordered) (pieces : List Holding) → IsGathered configuration taken self.old → NoneIsAfter self.old.asked.at (length taken) → round.first ≡ length taken → ArePlaced (length taken) round.records.items → AreOfCores configuration.cores round.records.items → HaveTaken configuration taken round.records.items verdict.now pieces → IsGathered configuration (with_accepted taken round.records.items verdict.now) self.new) }
        ensures asked { OnOk result (self.new.asked ≡ self.old.asked) }
    {
        let Round { first, records, .. } = round;
        let accepted = accepted_by(first, records.len(), verdict);
        let kept = accepted.min(asked);
        let Ok(mut left) = self.recent.keep_last(records, kept) else {
            return Err(AllocError);
        };
        self.has_ended = true;
        self.decide(first, &mut left, verdict, asked);
        self.show_after(left)
    }

    // Adds what decides, if it is not after the last place that is asked for: a broken rule, or the first of the records that are left, which
    // is rejected.
    fn decide(
        &mut self,
        first: u64,
        left: &mut VecDeque<Ordered>,
        verdict: &Option<Verdict>,
        asked: usize,
    )
        ensures same { KeepsSame self.old self.new }
        ensures ended { self.new.has_ended ≡ self.old.has_ended }
    {
        match verdict {
            Some(Verdict::Broken { pos, .. }) => self.is_broken = index_of(*pos, first) < asked,
            Some(Verdict::No { pos, cause, .. }) => {
                if index_of(*pos, first) < asked {
                    self.reject(left.pop_front(), *cause);
                }
            }
            Some(Verdict::Yes { .. }) | None => {}
        }
    }

    // Adds a rejected record, if there is one.
    fn reject(&mut self, ordered: Option<Ordered>, cause: Cause)
        ensures same { KeepsSame self.old self.new }
        ensures ended { self.new.has_ended ≡ self.old.has_ended }
    {
        if let Some(ordered) = ordered {
            self.rejected = Some(Rejected { ordered, cause });
        }
    }

    // Adds records that are shown as not judged, as far as there is room for them.
    fn show_after(&mut self, left: VecDeque<Ordered>) -> Result<(), AllocError>
        ensures same { KeepsSame self.old self.new }
        ensures ended { self.new.has_ended ≡ self.old.has_ended }
    {
        'records: for ordered in left {
            if self.after.len() < MOST_AFTER && self.after.push(ordered).is_err() {
                return Err(AllocError);
            }
        }
        Ok(())
    }

    /// Adds the next records, which are shown as not judged. If the input ends or has a fault, there are fewer.
    ///
    /// `AllocError` if memory is refused.
    pub fn add_after<R: Wait, S: TextSource, C: TextSource>(
        &mut self,
        rt: &R,
        alloc: Global,
        placer: &mut Placer<S, C>,
    ) -> Result<(), AllocError>
        requires { placer.old.ended ≡ false }
        ensures same { KeepsSame self.old self.new }
        ensures honest { AreHonest S.can_fail placer.new.lanes → AreHonest S.can_fail placer.old.lanes }
    {
        let mut records = Vec::new(alloc);
        let most = MOST_AFTER.saturating_sub(self.after.len());
        match placer.fill(rt, &mut records, most) {
            Filled::Memory => Err(AllocError),
            Filled::Full | Filled::Ended(_) => self.show_after(VecDeque::from(records)),
        }
    }

    /// The stretch that is asked for.
    ///
    /// `AllocError` if memory is refused.
    pub fn end(self, config: &Config) -> Result<Stretch, AllocError>
        requires { IsGatheredOfSome config.now self }
        ensures kept { IfOk result (λ stretch. (taken : List Ordered) → IsGathered config.now taken self → IsKept config.now (up_to self.asked.at taken) stretch.before stretch.kept.items) }
        ensures whole { IfOk result (IsWhole config.now) }
    {
        let Gathering {
            asked,
            recent,
            rejected,
            is_broken,
            after,
            has_ended: _,
        } = self;
        let Ok(mut span) = recent.into_span() else {
            return Err(AllocError);
        };
        let Ok(()) = span.shorten(config, asked.span) else {
            return Err(AllocError);
        };
        let Span { before, records } = span;
        Ok(Stretch {
            before,
            kept: records,
            rejected,
            is_broken,
            after,
        })
    }
}

// Which of the records from this place on is at a place, counted from 0.
fn index_of(pos: Place, first: u64) -> usize
    ensures { result ≡ pos - first }
{
    pos.number().saturating_sub(first) as usize
}

// How many of so many records, the first of which is at this place, are accepted if this verdict decides among them.
fn accepted_by(first: u64, count: usize, verdict: &Option<Verdict>) -> usize
    ensures { min result count ≡ min (accepted_by first count verdict.now) count }
{
    match verdict {
        Some(Verdict::No { pos, .. }) => index_of(*pos, first),
        Some(Verdict::Broken { pos, .. }) => index_of(*pos, first).saturating_add(1),
        Some(Verdict::Yes { .. }) | None => count,
    }
}
