// What decides against a recording: a piece that rejects a record, or a view that breaks a rule; and the first of these findings.

ghost use Rattle.std.specs.Prelude.{◌≡◌, ◌↔◌, IsTrue};
ghost use Rattle.verdict_merge.specs.Findings.{ComesBefore, IsLeast, IsLeastWith, IsLesser, Precedes, refusal_of};

use apex_types::{Cause, Place};
use piece_check::PieceFault;

/// A piece rejects the record at a place.
#[derive(Clone, Copy, Debug, PartialEq, Eq)]
pub struct Refused {
    pub pos: Place,
    /// The number of the piece: 0 is the module; the partitions follow, and then the channels, each in ascending order.
    pub piece: usize,
    pub cause: Cause,
}

/// What decides against a recording at a place.
#[derive(Clone, Copy, Debug, PartialEq, Eq)]
pub enum Finding {
    /// A piece rejects the record.
    Piece(Refused),
    /// The view of the record breaks the rule of this number.
    Rule { pos: Place, rule: usize },
}

// The refusal that the piece of this number reports; a lack of memory is no refusal.
pub(crate) fn refused_by(fault: PieceFault, piece: usize) -> Option<Refused>
    ensures { result ≡ refusal_of fault piece }
{
    match fault {
        PieceFault::Rejected { pos, cause } => Some(Refused { pos, piece, cause }),
        PieceFault::Memory => None,
    }
}

// Whether the first is at a lower place, or at the same place with a lower-numbered piece.
fn precedes(first: &Refused, second: &Refused) -> bool
    ensures { IsTrue result ↔ Precedes first.now second.now }
{
    first.pos.number() < second.pos.number()
        || (first.pos.number() == second.pos.number() && first.piece < second.piece)
}

// The lesser of the least refusal so far and the next one, if there is a next one.
pub(crate) fn least_with(least: Option<Refused>, found: Option<Refused>) -> Option<Refused>
    ensures { IsLeastWith least found result }
{
    match (least, found) {
        (Some(least), Some(next)) => Some(if precedes(&next, &least) { next } else { least }),
        (least, None) => least,
        (None, next) => next,
    }
}

// Whether a finding comes before another: it is at a lower place, or at the same place, where pieces come first, by number, and then
// rules, by number.
fn comes_before(first: &Finding, second: &Finding) -> bool
    ensures { IsTrue result ↔ ComesBefore first.now second.now }
{
    match (first, second) {
        (Finding::Piece(one), Finding::Piece(other)) => precedes(one, other),
        (Finding::Piece(one), Finding::Rule { pos, .. }) => one.pos.number() <= pos.number(),
        (Finding::Rule { pos, .. }, Finding::Piece(other)) => pos.number() < other.pos.number(),
        (
            Finding::Rule { pos, rule },
            Finding::Rule {
                pos: place,
                rule: number,
            },
        ) => { pos.number() < place.number() || (pos.number() == place.number() && rule < number) }
    }
}

// The first of the first finding so far and the next one.
fn first_of(first: Option<Finding>, next: Finding) -> Finding
    ensures { IsLesser ComesBefore first next result }
{
    let Some(found) = first else {
        return next;
    };
    let first = comes_before(&next, &found);
    if first { next } else { found }
}

/// The first of the findings, which no other comes before, or None if there are none. Takes no memory.
///
/// A finding at a lower place comes first. At one place, pieces come first, by number, and then rules, by number.
pub fn merge(findings: &[Finding]) -> Option<Finding>
    ensures { IsLeast ComesBefore findings.now result }
{
    let mut first = None;
    for finding in findings {
        first = Some(first_of(first, *finding));
    }
    first
}
