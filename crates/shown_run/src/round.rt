// A round of records, as the input gives it.

ghost use Rattle.std.specs.Prelude.{◌≡◌, ◌≤◌, ◌+◌, IfOk, None, false, length};
ghost use Rattle.order_cert.specs.Kept.{place_of};
ghost use Rattle.apex_machine.specs.Runs.{ArePlaced, AreOfCores};
ghost use Rattle.placement.specs.Lanes.{AreHonest, IsFilled};
ghost use Rattle.shown_run.specs.Judged.{answer_after, filled_of};

use apex_types::Ordered;
use csv_rows::TextSource;
use placement::{Filled, InputFault, Placer};
use report::{CheckFault, Verdict};
use std::alloc::{AllocError, Global};
use std::sync::Wait;

/// Records that follow one another.
#[derive(Drop)]
pub struct Round {
    /// The place of the first record.
    pub first: u64,
    /// The place after the last record.
    pub next: u64,
    pub records: Vec<Ordered>,
    /// How the input ends after the records, if it does: without a fault or with this one.
    pub end: Option<Result<(), InputFault>>,
}

impl Round {
    /// The answer of a run whose last records these are, if this verdict decides among them or the input ends after them; None if the run
    /// goes on.
    pub fn answer(&self, verdict: &Option<Verdict>) -> Option<Result<Verdict, CheckFault>>
        ensures { result ≡ answer_after self.now.next self.now.end verdict.now }
    {
        match (verdict, &self.end) {
            (Some(verdict), _) => Some(Ok(*verdict)),
            (None, Some(Ok(()))) => Some(Ok(Verdict::Yes { records: self.next })),
            (None, Some(Err(fault))) => Some(Err(CheckFault::Input(*fault))),
            (None, None) => None,
        }
    }
}

/// The next records, the first of which is at this place; at most so many.
///
/// `AllocError` if memory is refused.
pub fn next_round<R: Wait, S: TextSource, C: TextSource>(
    rt: &R,
    alloc: Global,
    placer: &mut Placer<S, C>,
    first: u64,
    most: usize,
) -> Result<Round, AllocError>
    requires going { placer.old.ended ≡ false }
    requires first { place_of placer.old.kept ≡ first }
    ensures first { IfOk result (λ round. round.first ≡ first) }
    ensures next { IfOk result (λ round. round.next ≡ first + length round.records.items) }
    ensures filled { IfOk result (λ round. AreHonest S.can_fail placer.new.lanes → IsFilled (record { recordings = S.can_fail; certificate = C.can_fail }) placer.old round.records.items (filled_of round.end) placer.new) }
    ensures honest { AreHonest S.can_fail placer.new.lanes → AreHonest S.can_fail placer.old.lanes }
    ensures placed { IfOk result (λ round. ArePlaced first round.records.items) }
    ensures cores { IfOk result (λ round. AreOfCores (length placer.old.lanes) round.records.items) }
    ensures few { IfOk result (λ round. length round.records.items ≤ most) }
    ensures going { IfOk result (λ round. round.end ≡ None → placer.new.ended ≡ false) }
    ensures place { IfOk result (λ round. round.end ≡ None → place_of placer.new.kept ≡ round.next) }
    ensures lanes { length placer.new.lanes ≡ length placer.old.lanes }
{
    let mut records = Vec::new(alloc);
    let end = match placer.fill(rt, &mut records, most) {
        Filled::Full => None,
        Filled::Ended(end) => Some(end),
        Filled::Memory => return Err(AllocError),
    };
    let Some(next) = first.checked_add(records.len() as u64) else {
        return Err(AllocError);
    };
    Ok(Round {
        first,
        next,
        records,
        end,
    })
}
