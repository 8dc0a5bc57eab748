// The laws of rows. Each is the contract of a function without code.

ghost use Rattle.record_read.specs.GrammarLaws.{FaultsAreOfRows, FirstFaultsDecide, OneRecordOfARow, RowsAreTheGrammar};

/// A row is read as a record exactly if the grammar says that it is the record's row.
pub fn rows_are_the_grammar()
    ensures { RowsAreTheGrammar }
{}

/// A row is the row of at most one record.
pub fn one_record_of_a_row()
    ensures { OneRecordOfARow }
{}

/// A row that is not a record has a fault that the text of a row can have: neither the failure of a source nor a lack of memory.
pub fn faults_are_of_rows()
    ensures { FaultsAreOfRows }
{}

/// A row that is not a record is refused with the fault of its first faulty field from left to right, and with no other.
pub fn first_faults_decide()
    ensures { FirstFaultsDecide }
{}
