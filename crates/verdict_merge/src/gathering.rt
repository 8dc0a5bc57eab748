// What the pieces found in a round, gathered piece by piece.

ghost use Rattle.std.specs.Prelude.{◌≡◌, ◌≤◌, ◌-◌, IfSome, None, length};
ghost use Rattle.verdict_merge.specs.Findings.{IsLeastWith};
ghost use Rattle.verdict_merge.specs.Views.{breach_before, count_before, earlier};

use crate::breach::{Breach, breach_before, earlier};
use crate::finding::{Refused, least_with};
use crate::outcome::PieceOutcome;
use apex_types::Ordered;

/// The least refusal so far, and the breach of the earliest record so far.
#[derive(Clone, Copy, Debug)]
pub struct Gathering {
    pub found: Option<Refused>,
    pub breach: Option<Breach>,
}

impl Gathering {
    /// Nothing yet.
    pub fn new() -> Gathering
        ensures found { result.found ≡ None }
        ensures breach { result.breach ≡ None }
    {
        Gathering {
            found: None,
            breach: None,
        }
    }

    /// Adds the outcome of the next piece.
    pub fn take_in(&mut self, outcome: &PieceOutcome)
        ensures found { IsLeastWith self.old.found outcome.now.found self.new.found }
        ensures breach { self.new.breach ≡ earlier self.old.breach outcome.now.breach }
    {
        self.breach = earlier(self.breach, outcome.breach);
        self.found = least_with(self.found, outcome.found);
    }

    /// The breach of the earliest record, if that record comes before the rejected one. `first` is the place of the first record.
    pub fn breach_in(&self, first: u64, records: &[Ordered]) -> Option<Breach>
        requires { IfSome self.now.found (λ refused. (first ≤ refused.pos) × (refused.pos - first ≤ length records.now)) }
        ensures { result ≡ breach_before (count_before first records.now self.now.found) self.now.breach }
    {
        breach_before(self.breach, records_before(first, records, &self.found))
    }
}

// How many records, counted from this place on, come before the rejected one.
pub(crate) fn records_before(first: u64, records: &[Ordered], found: &Option<Refused>) -> usize
    requires { IfSome found.now (λ refused. (first ≤ refused.pos) × (refused.pos - first ≤ length records.now)) }
    ensures { result ≡ count_before first records.now found.now }
{
    match found {
        None => records.len(),
        Some(refused) => (refused.pos.number() - first) as usize,
    }
}
