// Views that break a rule, and the first of them.

ghost use Rattle.std.specs.Prelude.{◌≡◌};
ghost use Rattle.verdict_merge.specs.Views.{breach_before, earlier};

use apex_types::View;

/// The view of a record, with the record's index in its round.
#[derive(Clone, Copy, Debug, PartialEq, Eq)]
pub struct Seen {
    pub index: usize,
    pub view: View,
}

/// A view that breaks a rule, and the first rule that it breaks, counted from 0.
#[derive(Clone, Copy, Debug, PartialEq, Eq)]
pub struct Breach {
    pub seen: Seen,
    pub rule: usize,
}

// The breach of the earlier record of two.
pub(crate) fn earlier(one: Option<Breach>, other: Option<Breach>) -> Option<Breach>
    ensures { result ≡ earlier one other }
{
    let (Some(first), Some(second)) = (one, other) else {
        return if one.is_some() { one } else { other };
    };
    if second.seen.index < first.seen.index {
        other
    } else {
        one
    }
}

// The breach, if its record is among this many of the first records.
pub(crate) fn breach_before(breach: Option<Breach>, count: usize) -> Option<Breach>
    ensures { result ≡ breach_before count breach }
{
    let one = breach?;
    if one.seen.index < count {
        Some(one)
    } else {
        None
    }
}
