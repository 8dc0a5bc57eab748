// Names, and messages in hexadecimal.

ghost use Rattle.std.specs.Prelude.{◌≡◌, ◌≢◌, [], true, IfOk, IfErr, OnOk, OnErr, Ok, Err, is_ok, length};
ghost use Rattle.std.specs.List.{list_all};
ghost use Rattle.hex.specs.Hex.{decode_of, is_hex_digit};
ghost use Rattle.record_read.specs.Field.{read_at, text_at};
ghost use Rattle.record_read.specs.Payload.{IsHex, from_hex, goes_with as goes_with_of, hex_bytes, is_printable, maybe_message, message_in, message_of, name_in, name_of, required_message};
ghost use Rattle.record_read.specs.Steps.{IsOfRow, located};

use crate::column::Column;
use crate::fault::RowFault;
use crate::field::{expect_empty, text};
use crate::misread::Misread;
use apex_types::limits::{LONGEST_MESSAGE, LONGEST_NAME};
use apex_types::{Message, Name};
use csv_rows::RowFields;
use std::alloc::{AllocError, Global};

/// The bytes of the name of a call, which must be given if the service takes one, and otherwise must not.
#[tactic(auto, unfolding(crate::specs::Payload::name_in))]
pub fn read_name(fields: &RowFields, taken: bool) -> Result<&[u8], Misread>
    ensures value { IfOk result (λ name. read_at (name_in taken) fields.now Column.Name ≡ Ok name.now) }
    ensures taken { IfOk result (λ name. name.now ≢ [] → taken ≡ true) }
    ensures refused { IfErr result (λ misread. read_at (name_in taken) fields.now Column.Name ≡ Err misread) }
    ensures own { IfErr result (λ misread. IsOfRow misread.fault) }
{
    let text = text(fields, Column::Name);
    if !taken {
        expect_empty(Column::Name, text)?;
        return Ok(b"");
    }
    match text {
        [] => Err(Misread::at(Column::Name, RowFault::FieldNotForKind)),
        _ => judge_name(text),
    }
}

// Judges the text of a name.
#[tactic(auto, unfolding(crate::specs::Payload::name_of))]
fn judge_name(text: &[u8]) -> Result<&[u8], Misread>
    ensures value { IfOk result (λ name. name_of text.now ≡ Ok name.now) }
    ensures refused { IfErr result (λ misread. located Column.Name (name_of text.now) ≡ Err misread) }
    ensures own { IfErr result (λ misread. IsOfRow misread.fault) }
{
    if text.len() > LONGEST_NAME || !all_printable(text) {
        return Err(Misread::at(Column::Name, RowFault::BadName));
    }
    Ok(text)
}

/// The name of these bytes. Memory can be refused only if there are any.
pub fn copy_name(alloc: Global, text: &[u8]) -> Result<Name, AllocError>
    ensures value { IfOk result (λ name. name ≡ text.now) }
    ensures memory { OnErr result (text.now ≢ []) }
{
    match text {
        [] => Ok(Name::empty(alloc)),
        _ => Ok(Name::new(text.to_vec(alloc)?)),
    }
}

// Whether all bytes are printable ASCII.
fn all_printable(text: &[u8]) -> bool
    ensures { result ≡ list_all is_printable text.now }
{
    text.iter().all(|byte| 0x20 <= *byte && *byte <= 0x7E)
}

/// The digits of the message that a call or a return gives, which may be left out.
pub fn read_data(fields: &RowFields) -> Result<&[u8], Misread>
    ensures text { IfOk result (λ digits. digits.now ≡ text_at fields.now Column.Data) }
    ensures value { OnOk result (read_at maybe_message fields.now Column.Data ≡ Ok (hex_bytes (text_at fields.now Column.Data))) }
    ensures hex { OnOk result (IsHex (text_at fields.now Column.Data)) }
    ensures refused { IfErr result (λ misread. read_at maybe_message fields.now Column.Data ≡ Err misread) }
    ensures own { IfErr result (λ misread. IsOfRow misread.fault) }
{
    let text = text(fields, Column::Data);
    judge_digits(Column::Data, text)?;
    Ok(text)
}

/// The digits of the message in a column that must be given.
#[tactic(auto, unfolding(crate::specs::Payload::required_message))]
pub fn read_required_message(fields: &RowFields, column: Column) -> Result<&[u8], Misread>
    ensures text { IfOk result (λ digits. digits.now ≡ text_at fields.now column) }
    ensures value { OnOk result (read_at required_message fields.now column ≡ Ok (hex_bytes (text_at fields.now column))) }
    ensures hex { OnOk result (IsHex (text_at fields.now column)) }
    ensures refused { IfErr result (λ misread. read_at required_message fields.now column ≡ Err misread) }
    ensures own { IfErr result (λ misread. IsOfRow misread.fault) }
{
    let text = text(fields, column);
    if text.is_empty() {
        return Err(Misread::at(column, RowFault::FieldNotForKind));
    }
    judge_digits(column, text)?;
    Ok(text)
}

// Judges the digits of a message that may be as long as any.
#[tactic(auto, unfolding(crate::specs::Payload::maybe_message))]
fn judge_digits(column: Column, text: &[u8]) -> Result<(), Misread>
    ensures value { OnOk result (maybe_message text.now ≡ Ok (hex_bytes text.now)) }
    ensures hex { OnOk result (IsHex text.now) }
    ensures refused { IfErr result (λ misread. located column (maybe_message text.now) ≡ Err misread) }
    ensures own { IfErr result (λ misread. IsOfRow misread.fault) }
{
    if count_bytes(column, text)? > LONGEST_MESSAGE {
        return Err(Misread::at(column, RowFault::BadLength));
    }
    Ok(())
}

/// The digits of the message of a call. If the service takes a message, it is as long as its length argument says; otherwise it must not be
/// given.
#[tactic(auto, unfolding(crate::specs::Payload::message_in, hex::specs::Hex::decode_pairs))]
pub fn read_message(fields: &RowFields, taken: bool, len: i64) -> Result<&[u8], Misread>
    ensures value { IfOk result (λ digits. read_at (message_in taken len) fields.now Column.Message ≡ Ok (hex_bytes digits.now)) }
    ensures hex { IfOk result (λ digits. IsHex digits.now) }
    ensures taken { IfOk result (λ digits. hex_bytes digits.now ≢ [] → taken ≡ true) }
    ensures refused { IfErr result (λ misread. read_at (message_in taken len) fields.now Column.Message ≡ Err misread) }
    ensures own { IfErr result (λ misread. IsOfRow misread.fault) }
{
    let text = text(fields, Column::Message);
    if !taken {
        expect_empty(Column::Message, text)?;
        return Ok(b"");
    }
    judge_message(text, len)?;
    Ok(text)
}

// Judges the text of a message that goes with this length argument.
#[tactic(auto, unfolding(crate::specs::Payload::message_of))]
fn judge_message(text: &[u8], len: i64) -> Result<(), Misread>
    ensures value { OnOk result (message_of len text.now ≡ Ok (hex_bytes text.now)) }
    ensures hex { OnOk result (IsHex text.now) }
    ensures refused { IfErr result (λ misread. located Column.Message (message_of len text.now) ≡ Err misread) }
    ensures own { IfErr result (λ misread. IsOfRow misread.fault) }
{
    let count = count_bytes(Column::Message, text)?;
    if !goes_with(len, count) {
        return Err(Misread::at(Column::Message, RowFault::BadLength));
    }
    Ok(())
}

/// The message of these hexadecimal digits. Memory can be refused only if there are any.
#[tactic(auto, using(crate::proofs::Hexadecimal::hex_filled), unfolding(hex::specs::Hex::decode_pairs))]
pub fn copy_message(alloc: Global, digits: &[u8]) -> Result<Message, AllocError>
    requires { IsHex digits.now }
    ensures value { IfOk result (λ message. message ≡ hex_bytes digits.now) }
    ensures memory { OnErr result (hex_bytes digits.now ≢ []) }
{
    match digits {
        [] => Ok(Message::empty(alloc)),
        _ => Ok(Message::new(decode(alloc, digits)?)),
    }
}

// The bytes of a text in hexadecimal, which was judged: there is no other fault than a lack of memory.
fn decode(alloc: Global, digits: &[u8]) -> Result<Vec<u8>, AllocError>
    ensures { IfOk result (λ bytes. bytes.items ≡ hex_bytes digits.now) }
{
    match hex::decode(alloc, digits) {
        Ok(bytes) => Ok(bytes),
        Err(_) => Err(AllocError),
    }
}

// Whether this many bytes go with this length argument.
fn goes_with(len: i64, count: usize) -> bool
    ensures { result ≡ goes_with_of len count }
{
    if len >= 1 && len <= LONGEST_MESSAGE as i64 {
        count as u64 == len as u64
    } else {
        count == 0
    }
}

// How many bytes the text of a column holds in hexadecimal.
#[tactic(auto, using(crate::proofs::Hexadecimal::hex_text, crate::proofs::Hexadecimal::hex_value, crate::proofs::Hexadecimal::hex_none, crate::proofs::Hexadecimal::hex_count))]
fn count_bytes(column: Column, text: &[u8]) -> Result<usize, Misread>
    ensures value { OnOk result (from_hex (decode_of text.now) ≡ Ok (hex_bytes text.now)) }
    ensures hex { OnOk result (IsHex text.now) }
    ensures count { IfOk result (λ count. length (hex_bytes text.now) ≡ count) }
    ensures refused { IfErr result (λ misread. located column (from_hex (decode_of text.now)) ≡ Err misread) }
    ensures own { IfErr result (λ misread. IsOfRow misread.fault) }
{
    if !is_hexadecimal(text) {
        return Err(Misread::at(column, RowFault::BadHex));
    }
    Ok(text.len() / 2)
}

// Whether a text is hexadecimal, two digits of either case for each byte.
#[tactic(auto, using(crate::proofs::Hexadecimal::odd_is_none, crate::proofs::Hexadecimal::even_is))]
fn is_hexadecimal(text: &[u8]) -> bool
    ensures { result ≡ is_ok (decode_of text.now) }
{
    if text.len() % 2 == 1 {
        return false;
    }
    all_digits(text)
}

// Whether all bytes are hexadecimal digits, of either case.
fn all_digits(text: &[u8]) -> bool
    ensures { result ≡ list_all is_hex_digit text.now }
{
    text.iter().all(|byte| matches!(*byte, b'0'..=b'9' | b'A'..=b'F' | b'a'..=b'f'))
}
