// The stretch of a run that a picture shows.

ghost use Rattle.std.specs.Prelude.{◌≡◌};
ghost use Rattle.shown_run.specs.Stretches.{asked_of};

use crate::walk::Walk;
use apex_types::{Cause, Ordered};
use std::collections::VecDeque;

/// Which stretch is asked for.
#[derive(Clone, Copy, Debug)]
pub struct Asked {
    /// The last place that the picture may show with its states.
    pub at: Option<u64>,
    /// How many records before its end it shows.
    pub span: usize,
}

impl Asked {
    /// How many of so many records, the first of which is at this place, are not after the last place that may be shown.
    pub(crate) fn count_of(&self, first: u64, count: usize) -> usize
        ensures { result ≡ asked_of self.now.at first count }
    {
        let Some(at) = self.at else {
            return count;
        };
        match at.checked_sub(first) {
            Some(more) => count.min((more as usize).saturating_add(1)),
            None => 0,
        }
    }
}

/// A stretch of a run: the last records that were accepted, the pieces as they were before the first of them, the record that was
/// rejected, and the records after it.
#[derive(Drop)]
pub struct Stretch {
    pub before: Walk,
    pub kept: VecDeque<Ordered>,
    pub rejected: Option<Rejected>,
    /// Whether the view of the last kept record breaks a rule.
    pub is_broken: bool,
    pub after: Vec<Ordered>,
}

/// A record that was rejected, and why.
#[derive(Drop)]
pub struct Rejected {
    pub ordered: Ordered,
    pub cause: Cause,
}
