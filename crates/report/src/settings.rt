// How a check is carried out.

ghost use Rattle.std.specs.Prelude.{◌≡◌};
ghost use Rattle.report.specs.Outcome.{argument_fault_of, range_fault_of};

use crate::fault::ArgumentFault::{self, NoDepth, NoWorkers, TooDeep, TooManyWorkers};
use apex_types::limits::{GREATEST_DEPTH, MOST_WORKERS};

/// How a check is carried out. The answer is the same for all settings that are not refused.
#[derive(Clone, Copy, Debug, PartialEq, Eq)]
pub struct Settings {
    /// The number of workers that judge the pieces of a round, from 1 to `MOST_WORKERS`. Each of several has a thread of its own; a single
    /// one uses the caller's.
    pub workers: usize,
    /// The most records of a core that wait in its channel until they are judged, from 1 to `GREATEST_DEPTH`.
    pub depth: usize,
}

impl Settings {
    /// What is wrong with the settings, if anything is: with the workers first, then with the depth.
    pub fn fault(&self) -> Option<ArgumentFault>
        ensures { result ≡ argument_fault_of self.now }
    {
        let workers = range_fault(self.workers, MOST_WORKERS, NoWorkers, TooManyWorkers);
        let depth = range_fault(self.depth, GREATEST_DEPTH, NoDepth, TooDeep);
        workers.or(depth)
    }
}

// What is wrong with a number that must be from 1 to this maximum, if anything is.
fn range_fault(
    number: usize,
    most: usize,
    none: ArgumentFault,
    too_many: ArgumentFault,
) -> Option<ArgumentFault>
    ensures { result ≡ range_fault_of most none too_many number }
{
    match number {
        0 => Some(none),
        _ if number > most => Some(too_many),
        _ => None,
    }
}
