// The laws of refusals of the input, contracts of functions without code.

ghost use Rattle.placement.specs.Refusal.{FirstFaultIsRefused, RefusedAtTheFirstFault};

/// A refusal of the input is at the least place whose row of the certificate has a fault, or with whose pair the pairs are no prefix of
/// a lawful order, or whose record is absent or has a fault. After the last row, the least core with an item left decides.
pub fn refused_at_the_first_fault()
    ensures { RefusedAtTheFirstFault }
{}

/// If the pairs before a place begin a lawful order and have their records, and there is such a fault at that place, the input is
/// refused with it: only one fault of an input is its first.
pub fn first_fault_is_refused()
    ensures { FirstFaultIsRefused }
{}
