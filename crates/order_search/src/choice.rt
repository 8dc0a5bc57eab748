// Which record is taken next.

ghost use Rattle.std.specs.Prelude.{◌≡◌, ◌<◌, ◌⊎◌, Some, OnOk, IfOk};
ghost use Rattle.order_search.specs.Choices.{IsWithin};

use crate::placed::Placed;
use crate::tip::{Answer, Tip};
use crate::tree::Tree;
use std::alloc::AllocError;

/// What is to be done next.
#[derive(Clone, Copy, Debug, PartialEq, Eq)]
pub enum Choice {
    /// This core's next record is taken, and no record of another core sees that.
    Free(usize),
    /// This core's next record is taken, and records of other cores see that.
    Shared(usize),
    /// No core has a record left.
    AtEnd,
    /// No core's next record can be taken.
    Blocked,
}

// A record that can be taken, and that records of other cores see.
#[derive(Clone, Copy, Debug)]
struct Candidate {
    is_tick: bool,
    time: u64,
    core: usize,
}

impl Candidate {
    // Whether it is taken rather than another: other records before ticks, then the one whose core's time is less.
    fn goes_before(self, other: Candidate) -> bool {
        if self.is_tick != other.is_tick {
            return other.is_tick;
        }
        self.time < other.time
    }
}

/// Which core's next record is taken. One that no other core sees is taken at once, that of the last core first.
pub fn choose<T: Tip>(tip: &mut T, placed: &Placed, tree: &Tree) -> Result<Choice, AllocError>
    ensures undecided { OnOk result (T.undecided tip.new ≡ T.undecided tip.old) }
    ensures decided { OnOk result (T.decided tip.new ≡ T.decided tip.old) }
    ensures input { OnOk result (T.input tip.new ≡ T.input tip.old) }
    ensures within { IfOk result (IsWithin placed.now.most) }
{
    let cores = placed.most;
    let last = placed.last_core();
    if last < cores && is_free(tip, last, placed, tree)? {
        return Ok(Choice::Free(last));
    }
    let mut best: Option<Candidate> = None;
    let mut at_end = true;
    for core in 0..cores {
        if tree.holds(placed, core) {
            at_end = false;
            continue;
        }
        match tip.judge(core)? {
            Answer::Ended => {}
            Answer::Refused => at_end = false,
            Answer::Free => return Ok(Choice::Free(core)),
            Answer::Shared { is_tick, time } => {
                at_end = false;
                best = Some(better(
                    best,
                    Candidate {
                        is_tick,
                        time,
                        core,
                    },
                ));
            }
        }
    }
    match best {
        Some(candidate) => Ok(Choice::Shared(candidate.core)),
        None if at_end => Ok(Choice::AtEnd),
        None => Ok(Choice::Blocked),
    }
}

// Whether a core's next record can be taken, and no other core sees that.
fn is_free<T: Tip>(
    tip: &mut T,
    core: usize,
    placed: &Placed,
    tree: &Tree,
) -> Result<bool, AllocError>
    ensures undecided { OnOk result (T.undecided tip.new ≡ T.undecided tip.old) }
    ensures decided { OnOk result (T.decided tip.new ≡ T.decided tip.old) }
    ensures input { OnOk result (T.input tip.new ≡ T.input tip.old) }
{
    if tree.holds(placed, core) {
        return Ok(false);
    }
    Ok(tip.judge(core)? == Answer::Free)
}

// The one of two that is taken.
fn better(best: Option<Candidate>, next: Candidate) -> Candidate
    ensures { (result ≡ next) ⊎ (Some result ≡ best) }
{
    match best {
        Some(found) if !next.goes_before(found) => found,
        _ => next,
    }
}
