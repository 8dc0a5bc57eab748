// The rows of dispatches and ticks.

ghost use Rattle.std.specs.Prelude.{◌≡◌, IfOk, IfErr, Ok, Some};
ghost use Rattle.record_read.specs.Field.{read_at};
ghost use Rattle.record_read.specs.Memory.{TickNeeds};
ghost use Rattle.record_read.specs.Row.{dispatch_in, proc_of, tick_in};
ghost use Rattle.record_read.specs.Steps.{IsOfRow, RefusesAt};

use crate::column::Column;
use crate::fault::RowFault;
use crate::field::{expect_empty, expect_empty_between, optional_number, required_number, text};
use crate::misread::Misread;
use crate::woken::{copy_woken, read_list};
use apex_types::limits::{GREATEST_NUMBER, GREATEST_PARTITION};
use apex_types::{PartId, ProcId, Who, Woken};
use csv_rows::RowFields;
use std::alloc::Global;

/// The process that a dispatch names, or none if the core is idle.
#[tactic(auto, unfolding(crate::specs::Row::dispatch_in))]
pub fn read_dispatch(fields: &RowFields) -> Result<Option<Who>, Misread>
    ensures value { result ≡ dispatch_in fields.now }
    ensures own { IfErr result (λ misread. IsOfRow misread.fault) }
{
    let part = match optional_number(fields, Column::Partition, GREATEST_PARTITION as u64)? {
        Some(number) => Some(number as u8),
        None => None,
    };
    let who = read_proc(fields, part)?;
    expect_empty_between(fields, Column::Service, Column::Error)?;
    Ok(who)
}

// The process of a dispatch: given together with its partition, or not at all.
#[tactic(auto, unfolding(crate::specs::Row::proc_of))]
fn read_proc(fields: &RowFields, part: Option<u8>) -> Result<Option<Who>, Misread>
    ensures value { result ≡ read_at (proc_of part) fields.now Column.Process }
    ensures own { IfErr result (λ misread. IsOfRow misread.fault) }
{
    let Some(part) = part else {
        expect_empty(Column::Process, text(fields, Column::Process))?;
        return Ok(None);
    };
    read_proc_of(fields, part)
}

// The process of a dispatch whose partition is this one.
#[tactic(auto, unfolding(crate::specs::Row::proc_of))]
fn read_proc_of(fields: &RowFields, part: u8) -> Result<Option<Who>, Misread>
    ensures value { result ≡ read_at (proc_of (Some part)) fields.now Column.Process }
    ensures own { IfErr result (λ misread. IsOfRow misread.fault) }
{
    let proc = required_number(fields, Column::Process, GREATEST_NUMBER as u64)?;
    Ok(Some(Who {
        part: PartId::new(part),
        proc: ProcId::new(proc as u32),
    }))
}

/// The processes whose waits a tick ends. The whole row is judged before memory is taken.
#[tactic(auto, unfolding(crate::specs::Row::tick_in))]
pub fn read_tick(alloc: Global, fields: &RowFields) -> Result<Woken, Misread>
    ensures value { IfOk result (λ woken. tick_in fields.now ≡ Ok woken) }
    ensures refused { IfErr result (λ misread. RefusesAt TickNeeds misread (tick_in fields.now)) }
{
    expect_empty_between(fields, Column::Partition, Column::Channel)?;
    let list = read_list(fields)?;
    expect_empty_between(fields, Column::SecondValue, Column::Error)?;
    match copy_woken(alloc, list) {
        Ok(woken) => Ok(woken),
        Err(_) => Err(Misread::of_no_field(RowFault::Memory)),
    }
}
