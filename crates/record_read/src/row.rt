// The record that a row is.

ghost use Rattle.std.specs.Prelude.{◌≡◌, ◌<◌, None, OnOk, IfOk, IfErr, Ok, Err};
ghost use Rattle.apex_types.specs.declared.limits.TheConstants.{MOST_RECORDS};
ghost use Rattle.record_read.specs.FirstFault.{IsMisread};
ghost use Rattle.record_read.specs.Memory.{NeedsMemory};
ghost use Rattle.record_read.specs.Row.{record_of, row_in};
ghost use Rattle.record_read.specs.Steps.{IsOfRow, Refuses, RefusesAt};

use crate::call::read_call;
use crate::column::Column;
use crate::crossing::{read_arrival, read_departure};
use crate::dispatch::{read_dispatch, read_tick};
use crate::error::read_error;
use crate::fault::RowFault;
use crate::field::required_number;
use crate::kind::Kind;
use crate::misread::Misread;
use crate::named::read_kind;
use crate::ret::read_return;
use apex_types::limits::MOST_RECORDS;
use apex_types::{Body, Format, Record};
use csv_rows::RowFields;
use std::alloc::Global;

/// The record that the row of this number, counted from 0, is in a recording of this format; or its first fault, with the column of the
/// first faulty field from left to right.
///
/// Memory only if the row is sound. Too many rows in the recording, a wrong number of fields and a lack of memory have no column.
#[tactic(auto, using(crate::proofs::FirstFaults::record_read, crate::proofs::FirstFaults::record_refused, crate::proofs::FirstFaults::misread_first, crate::proofs::FirstFaults::memory_nowhere))]
pub fn read_record_explained(
    alloc: Global,
    format: Format,
    next: u32,
    fields: &RowFields,
) -> Result<Record, Misread>
    ensures value { IfOk result (λ made. record_of format next fields.now ≡ Ok made) }
    ensures refused { IfErr result (λ misread. Refuses NeedsMemory misread.fault (record_of format next fields.now)) }
    ensures column { IfErr result (λ misread. IsOfRow misread.fault → IsMisread format next fields.now misread) }
    ensures none { IfErr result (λ misread. misread.fault ≡ RowFault.Memory → misread.column ≡ None) }
    ensures bound { OnOk result (next < MOST_RECORDS) }
{
    read_record(alloc, format, next, fields)
}

// The same, from the reader's steps.
#[inline(always)]
#[tactic(auto, unfolding(crate::specs::Row::row_in, crate::specs::Row::body_in))]
fn read_record(
    alloc: Global,
    format: Format,
    next: u32,
    fields: &RowFields,
) -> Result<Record, Misread>
    ensures value { IfOk result (λ made. row_in format next fields.now ≡ Ok made) }
    ensures refused { IfErr result (λ misread. RefusesAt NeedsMemory misread (row_in format next fields.now)) }
    ensures bound { OnOk result (next < MOST_RECORDS) }
{
    if next == MOST_RECORDS {
        return Err(Misread::of_no_field(RowFault::TooMany));
    }
    if fields.len() != format.field_count() {
        return Err(Misread::of_no_field(RowFault::FieldCount));
    }
    let seq = required_number(fields, Column::Sequence, MOST_RECORDS as u64 - 1)?;
    if seq != next as u64 {
        return Err(Misread::at(Column::Sequence, RowFault::SeqGap));
    }
    let body = match read_kind(format, fields)? {
        Kind::Call => Body::Call(read_call(alloc, format, fields)?),
        Kind::Ret => Body::Ret(read_return(alloc, format, fields)?),
        Kind::Disp => Body::Disp(read_dispatch(fields)?),
        Kind::Tick => Body::Tick(read_tick(alloc, fields)?),
        Kind::Arrive => Body::Arrive(read_arrival(alloc, fields)?),
        Kind::Depart => Body::Depart(read_departure(alloc, fields)?),
        Kind::Error => Body::Error(read_error(fields)?),
    };
    Ok(Record { seq: next, body })
}
