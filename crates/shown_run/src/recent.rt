// The records that were taken last, and the pieces as they were before them.

ghost use Rattle.std.specs.Prelude.{◌≤◌, length};

use crate::span::Span;

/// The records of the last rounds, in two spans, each of which has at most so many of them. Each round becomes a span; then another one
/// begins with a copy of the pieces, and the span before the round is given up. So nearly all records are judged once, and those that are
/// too many at the end are judged twice.
#[derive(Drop)]
pub struct Recent {
    pub most: usize,
    pub earlier: Span,
    pub later: Span,
    pub ghost few_earlier: { length earlier.records.items ≤ most },
    pub ghost few_later: { length later.records.items ≤ most },
}
