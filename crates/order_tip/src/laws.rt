// The law on proposals, the contract of a function without code.

ghost use Rattle.order_tip.specs.Outcome.{ProposalIsTheOutcome};

/// What is proposed is what a check answers to the certificate that was written, under the same rules: the first rule that is broken at its
/// place; else Yes of all records where an order was found, and No at the place that is reported where none was.
pub fn proposal_is_the_outcome()
    ensures { ProposalIsTheOutcome }
{}
