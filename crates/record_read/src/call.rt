// The rows of calls.

ghost use Rattle.std.specs.Prelude.{◌≡◌, ◌≢◌, ◌⊎◌, [], IfOk, IfErr, OnOk, OnErr, Ok, Err};
ghost use Rattle.apex_types.specs.declared.limits.TheConstants.{GREATEST_CHANNEL};
ghost use Rattle.record_read.specs.Field.{maybe_number, read_at, text_at};
ghost use Rattle.record_read.specs.Memory.{CallNeeds};
ghost use Rattle.record_read.specs.Payload.{IsHex, hex_bytes};
ghost use Rattle.record_read.specs.Row.{call_in, claim_in, who_in};
ghost use Rattle.record_read.specs.Steps.{IsOfRow, RefusesAt};
ghost use Rattle.record_read.specs.Woken.{IsList, processes_in};

use crate::column::Column;
use crate::fault::RowFault;
use crate::field::{expect_empty, optional_number, optional_signed, required_number, text};
use crate::misread::Misread;
use crate::named::read_out;
use crate::payload::{copy_message, read_data};
use crate::request::{judge_request, make_request};
use crate::woken::{copy_woken, read_list};
use apex_types::limits::{
    GREATEST_CHANNEL, GREATEST_NUMBER, GREATEST_PARTITION, GREATEST_PRIORITY,
};
use apex_types::{Call, ChanId, Claim, Format, Out, PartId, ProcId, Who};
use csv_rows::RowFields;
use std::alloc::{AllocError, Global};

// What a call claims, apart from its message and its list of processes.
#[derive(Clone, Copy)]
struct PlainClaim {
    prio: u8,
    out: Out,
    val: Option<i64>,
    val2: Option<i64>,
    val3: Option<i64>,
    chan: Option<ChanId>,
}

/// The call that these fields are in a recording of this format. The whole row is judged before memory is taken.
#[tactic(auto, unfolding(crate::specs::Row::call_in))]
pub fn read_call(alloc: Global, format: Format, fields: &RowFields) -> Result<Call, Misread>
    ensures value { IfOk result (λ call. call_in format fields.now ≡ Ok call) }
    ensures refused { IfErr result (λ misread. RefusesAt CallNeeds misread (call_in format fields.now)) }
{
    let who = read_who(fields)?;
    let request = judge_request(format, fields)?;
    let claim = judge_claim(fields)?;
    let Ok(request) = make_request(alloc, request) else {
        return Err(Misread::of_no_field(RowFault::Memory));
    };
    let Ok(claim) = make_claim(alloc, claim, fields) else {
        return Err(Misread::of_no_field(RowFault::Memory));
    };
    Ok(Call {
        who,
        request,
        claim,
    })
}

/// The process of a call or a return.
#[tactic(auto, unfolding(crate::specs::Row::who_in))]
pub fn read_who(fields: &RowFields) -> Result<Who, Misread>
    ensures value { result ≡ who_in fields.now }
    ensures own { IfErr result (λ misread. IsOfRow misread.fault) }
{
    let part = required_number(fields, Column::Partition, GREATEST_PARTITION as u64)?;
    let proc = required_number(fields, Column::Process, GREATEST_NUMBER as u64)?;
    Ok(Who {
        part: PartId::new(part as u8),
        proc: ProcId::new(proc as u32),
    })
}

// Judges what a call claims.
#[tactic(auto, unfolding(crate::specs::Row::claim_in))]
fn judge_claim(fields: &RowFields) -> Result<PlainClaim, Misread>
    ensures value { IfOk result (λ plain. claim_in fields.now ≡ Ok (record { prio = plain.prio; out = plain.out; val = plain.val; val2 = plain.val2; val3 = plain.val3; bytes = hex_bytes (text_at fields.now Column.Data); chan = plain.chan; woken = processes_in (text_at fields.now Column.Woken) })) }
    ensures hex { OnOk result (IsHex (text_at fields.now Column.Data)) }
    ensures list { OnOk result (IsList (text_at fields.now Column.Woken)) }
    ensures refused { IfErr result (λ misread. claim_in fields.now ≡ Err misread) }
    ensures own { IfErr result (λ misread. IsOfRow misread.fault) }
{
    let prio = required_number(fields, Column::Priority, GREATEST_PRIORITY as u64)?;
    let out = read_out(fields)?;
    let val = optional_signed(fields, Column::Value)?;
    read_data(fields)?;
    let chan = read_channel(fields)?;
    read_list(fields)?;
    let val2 = optional_signed(fields, Column::SecondValue)?;
    let val3 = optional_signed(fields, Column::ThirdValue)?;
    expect_empty(Column::Error, text(fields, Column::Error))?;
    Ok(PlainClaim {
        prio: prio as u8,
        out,
        val,
        val2,
        val3,
        chan,
    })
}

// The claim of a row that was judged. Memory can be refused only if it has a message or a list of processes.
fn make_claim(alloc: Global, plain: PlainClaim, fields: &RowFields) -> Result<Claim, AllocError>
    requires digits { IsHex (text_at fields.now Column.Data) }
    requires list { IsList (text_at fields.now Column.Woken) }
    ensures value { IfOk result (λ claim. claim ≡ record { prio = plain.prio; out = plain.out; val = plain.val; val2 = plain.val2; val3 = plain.val3; bytes = hex_bytes (text_at fields.now Column.Data); chan = plain.chan; woken = processes_in (text_at fields.now Column.Woken) }) }
    ensures memory { OnErr result ((hex_bytes (text_at fields.now Column.Data) ≢ []) ⊎ (processes_in (text_at fields.now Column.Woken) ≢ [])) }
{
    let bytes = copy_message(alloc, text(fields, Column::Data))?;
    let woken = copy_woken(alloc, text(fields, Column::Woken))?;
    Ok(Claim {
        prio: plain.prio,
        out: plain.out,
        val: plain.val,
        val2: plain.val2,
        val3: plain.val3,
        bytes,
        chan: plain.chan,
        woken,
    })
}

// The channel that a call names, if it names one.
fn read_channel(fields: &RowFields) -> Result<Option<ChanId>, Misread>
    ensures value { result ≡ read_at (maybe_number GREATEST_CHANNEL) fields.now Column.Channel }
    ensures own { IfErr result (λ misread. IsOfRow misread.fault) }
{
    match optional_number(fields, Column::Channel, GREATEST_CHANNEL as u64)? {
        Some(number) => Ok(Some(ChanId::new(number as u16))),
        None => Ok(None),
    }
}
