// A fault of a row, with the field that has it.

ghost use Rattle.std.specs.Prelude.{◌≡◌};
ghost use Rattle.record_read.specs.Steps.{misread_at, no_field};

use crate::column::Column;
use crate::fault::RowFault;

/// Why a row is not a record, with the column of the field that has the fault.
///
/// There is no column if no one field has the fault: the row has too many or too few fields, the recording has too many rows, or memory was
/// refused. A field with the fault FieldNotForKind is filled but must be empty, or is empty but must be filled.
#[derive(Clone, Copy, Debug, PartialEq, Eq)]
pub struct Misread {
    pub fault: RowFault,
    pub column: Option<Column>,
}

impl Misread {
    /// A fault of the field of a column.
    pub fn at(column: Column, fault: RowFault) -> Misread
        ensures { result ≡ misread_at column fault }
    {
        Misread {
            fault,
            column: Some(column),
        }
    }

    /// A fault that no one field has.
    pub fn of_no_field(fault: RowFault) -> Misread
        ensures { result ≡ no_field fault }
    {
        Misread {
            fault,
            column: None,
        }
    }
}
