// The rows of messages that pass an end outside the module.

ghost use Rattle.std.specs.Prelude.{◌≡◌, ◌≢◌, ◌⊎◌, [], IfOk, IfErr, OnErr, Ok, Err};
ghost use Rattle.apex_types.specs.declared.limits.TheConstants.{GREATEST_CHANNEL};
ghost use Rattle.record_read.specs.Field.{number, read_at};
ghost use Rattle.record_read.specs.Memory.{CrossingNeeds};
ghost use Rattle.record_read.specs.Payload.{IsHex, hex_bytes};
ghost use Rattle.record_read.specs.Row.{arrival_in, departure_in};
ghost use Rattle.record_read.specs.Steps.{IsOfRow, RefusesAt};
ghost use Rattle.record_read.specs.Woken.{IsList, processes_in};

use crate::column::Column;
use crate::fault::RowFault;
use crate::field::{expect_empty_between, required_number};
use crate::misread::Misread;
use crate::payload::{copy_message, read_required_message};
use crate::woken::{copy_woken, read_list};
use apex_types::limits::GREATEST_CHANNEL;
use apex_types::{ChanId, Crossing};
use csv_rows::RowFields;
use std::alloc::{AllocError, Global};

// A message and a list of processes as the row has them.
#[derive(Clone, Copy)]
struct CrossingText<'a> {
    chan: ChanId,
    digits: &'a [u8],
    list: &'a [u8],
}

/// The message that arrives from outside. The whole row is judged before memory is taken.
#[tactic(auto, unfolding(crate::specs::Row::arrival_in))]
pub fn read_arrival(alloc: Global, fields: &RowFields) -> Result<Crossing, Misread>
    ensures value { IfOk result (λ crossing. arrival_in fields.now ≡ Ok crossing) }
    ensures refused { IfErr result (λ misread. RefusesAt CrossingNeeds misread (arrival_in fields.now)) }
{
    expect_empty_between(fields, Column::Partition, Column::Name)?;
    let digits = read_required_message(fields, Column::Message)?;
    expect_empty_between(fields, Column::Priority, Column::Data)?;
    let chan = read_channel(fields)?;
    let list = read_list(fields)?;
    expect_empty_between(fields, Column::SecondValue, Column::Error)?;
    make_crossing(alloc, CrossingText { chan, digits, list }).map_err(|_| Misread::of_no_field(
        RowFault::Memory,
    ))
}

/// The message that departs to the outside. The whole row is judged before memory is taken.
#[tactic(auto, unfolding(crate::specs::Row::departure_in))]
pub fn read_departure(alloc: Global, fields: &RowFields) -> Result<Crossing, Misread>
    ensures value { IfOk result (λ crossing. departure_in fields.now ≡ Ok crossing) }
    ensures refused { IfErr result (λ misread. RefusesAt CrossingNeeds misread (departure_in fields.now)) }
{
    expect_empty_between(fields, Column::Partition, Column::Value)?;
    let digits = read_required_message(fields, Column::Data)?;
    let chan = read_channel(fields)?;
    let list = read_list(fields)?;
    expect_empty_between(fields, Column::SecondValue, Column::Error)?;
    make_crossing(alloc, CrossingText { chan, digits, list }).map_err(|_| Misread::of_no_field(
        RowFault::Memory,
    ))
}

// The channel that a message passes, which must be given.
fn read_channel(fields: &RowFields) -> Result<ChanId, Misread>
    ensures value { result ≡ read_at (number GREATEST_CHANNEL) fields.now Column.Channel }
    ensures own { IfErr result (λ misread. IsOfRow misread.fault) }
{
    let number = required_number(fields, Column::Channel, GREATEST_CHANNEL as u64)?;
    Ok(ChanId::new(number as u16))
}

// What a judged row records.
fn make_crossing(alloc: Global, given: CrossingText<'_>) -> Result<Crossing, AllocError>
    requires digits { IsHex given.digits.now }
    requires list { IsList given.list.now }
    ensures value { IfOk result (λ crossing. crossing ≡ record { chan = given.entry.chan; message = hex_bytes given.entry.digits.now; woken = processes_in given.entry.list.now }) }
    ensures memory { OnErr result ((hex_bytes given.entry.digits.now ≢ []) ⊎ (processes_in given.entry.list.now ≢ [])) }
{
    let message = copy_message(alloc, given.digits)?;
    let woken = copy_woken(alloc, given.list)?;
    Ok(Crossing {
        chan: given.chan,
        message,
        woken,
    })
}
