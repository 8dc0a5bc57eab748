// The order of the processes that wait.

ghost use Rattle.std.specs.Prelude.{◌≡◌};
ghost use Rattle.wait_set.specs.Ranks.{rank_of};

use apex_machine::Entry;
use apex_types::{Discipline, Place};
use std::cmp::Reverse;

/// The rank of an entry in its set: of two entries, the one with the smaller rank comes first.
#[derive(Clone, Copy, Debug, PartialEq, Eq, PartialOrd, Ord)]
pub(crate) struct Rank {
    /// The priority, the greater first; 0 for all entries of a set that is first in, first out.
    pub(crate) urgency: Reverse<u8>,
    pub(crate) place: Place,
}

impl Rank {
    /// The rank of an entry under this discipline.
    pub(crate) fn new(discipline: Discipline, entry: &Entry) -> Rank
        ensures { result ≡ rank_of discipline entry.now }
    {
        let urgency = match discipline {
            Discipline::Fifo => 0,
            Discipline::Priority => entry.priority,
        };
        Rank {
            urgency: Reverse(urgency),
            place: entry.place,
        }
    }
}
