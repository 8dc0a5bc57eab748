// The rows of errors.

ghost use Rattle.std.specs.Prelude.{◌≡◌, IfErr};
ghost use Rattle.record_read.specs.Row.{error_in};
ghost use Rattle.record_read.specs.Steps.{IsOfRow};

use crate::call::read_who;
use crate::column::Column;
use crate::field::expect_empty_between;
use crate::misread::Misread;
use crate::named::{read_error_code, read_restart};
use apex_types::ErrorReport;
use csv_rows::RowFields;

/// The error that a row reports. Takes no memory.
#[tactic(auto, unfolding(crate::specs::Row::error_in))]
pub fn read_error(fields: &RowFields) -> Result<ErrorReport, Misread>
    ensures value { result ≡ error_in fields.now }
    ensures own { IfErr result (λ misread. IsOfRow misread.fault) }
{
    let who = read_who(fields)?;
    expect_empty_between(fields, Column::Service, Column::Priority)?;
    let restarts = read_restart(fields)?;
    expect_empty_between(fields, Column::Value, Column::ThirdValue)?;
    let error = read_error_code(fields)?;
    Ok(ErrorReport {
        who,
        error,
        restarts,
    })
}
