// The law of rows, the contract of a function without code.

ghost use Rattle.order_cert.specs.Row.{FaultsAreOfRows};

/// A row that is not a pair has a fault of its text: neither the failure of a source nor a lack of memory.
pub fn faults_are_of_rows()
    ensures { FaultsAreOfRows }
{}
