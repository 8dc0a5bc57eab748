// The rows of returns.

ghost use Rattle.std.specs.Prelude.{◌≡◌, IfOk, IfErr, Ok};
ghost use Rattle.record_read.specs.Memory.{ReturnNeeds};
ghost use Rattle.record_read.specs.Row.{return_in};
ghost use Rattle.record_read.specs.Steps.{RefusesAt};

use crate::call::read_who;
use crate::column::Column;
use crate::fault::RowFault;
use crate::field::{expect_empty, expect_empty_between, optional_signed, text};
use crate::misread::Misread;
use crate::named::{read_code, read_service};
use crate::payload::{copy_message, read_data};
use apex_types::{Format, Return};
use csv_rows::RowFields;
use std::alloc::Global;

/// The return that these fields are in a recording of this format. The whole row is judged before memory is taken.
#[tactic(auto, unfolding(crate::specs::Row::return_in))]
pub fn read_return(alloc: Global, format: Format, fields: &RowFields) -> Result<Return, Misread>
    ensures value { IfOk result (λ ret. return_in format fields.now ≡ Ok ret) }
    ensures refused { IfErr result (λ misread. RefusesAt ReturnNeeds misread (return_in format fields.now)) }
{
    let who = read_who(fields)?;
    let service = read_service(format, fields)?;
    expect_empty_between(fields, Column::FirstNumber, Column::Priority)?;
    let code = read_code(fields)?;
    let val = optional_signed(fields, Column::Value)?;
    let data = read_data(fields)?;
    expect_empty_between(fields, Column::Channel, Column::Woken)?;
    let val2 = optional_signed(fields, Column::SecondValue)?;
    let val3 = optional_signed(fields, Column::ThirdValue)?;
    expect_empty(Column::Error, text(fields, Column::Error))?;
    let Ok(bytes) = copy_message(alloc, data) else {
        return Err(Misread::of_no_field(RowFault::Memory));
    };
    Ok(Return {
        who,
        service,
        code,
        val,
        val2,
        val3,
        bytes,
    })
}
