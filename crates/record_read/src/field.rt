// Fields of a row: filled or empty, and numbers.

ghost use Rattle.std.specs.Prelude.{◌≡◌, ◌≤◌, IfOk, IfErr, IfSome, Some};
ghost use Rattle.record_read.specs.Column.{place_of};
ghost use Rattle.record_read.specs.Field.{all_empty, argument, bytes_at, empty, empty_between, filled, maybe_argument, maybe_number, maybe_signed, number, read_at, signed, text_at};
ghost use Rattle.record_read.specs.Steps.{IsOfRow, located};

use crate::column::{Column, EVERY_COLUMN};
use crate::fault::RowFault;
use crate::misread::Misread;
use apex_types::{Format, Presence};
use csv_rows::{RowFields, read_decimal, read_signed};

/// The text of a column; empty if the row ends before it.
#[inline(always)]
pub fn text(fields: &RowFields, column: Column) -> &[u8]
    ensures { result.now ≡ text_at fields.now column }
{
    bytes(fields, column.place())
}

// The bytes of the field at this place.
#[inline(always)]
fn bytes(fields: &RowFields, place: usize) -> &[u8]
    ensures { result.now ≡ bytes_at fields.now place }
{
    fields.get(place).unwrap_or(b"")
}

/// Requires that the fields from one column to another are empty.
pub fn expect_empty_between(fields: &RowFields, first: Column, last: Column) -> Result<(), Misread>
    requires { place_of first ≤ place_of last }
    ensures value { result ≡ empty_between fields.now first last }
    ensures own { IfErr result (λ misread. IsOfRow misread.fault) }
{
    expect_all_empty(fields, &EVERY_COLUMN[first.place()..last.place() + 1])
}

// Requires that the fields of these columns are empty.
#[tactic(auto, unfolding(crate::specs::Field::all_empty))]
fn expect_all_empty(fields: &RowFields, columns: &[Column]) -> Result<(), Misread>
    ensures value { result ≡ all_empty fields.now columns.now }
    ensures own { IfErr result (λ misread. IsOfRow misread.fault) }
{
    for column in columns {
        expect_empty(*column, text(fields, *column))?;
    }
    Ok(())
}

/// Requires that the text of a column is empty.
pub fn expect_empty(column: Column, text: &[u8]) -> Result<(), Misread>
    ensures value { result ≡ located column (empty text.now) }
    ensures own { IfErr result (λ misread. IsOfRow misread.fault) }
{
    match text {
        [] => Ok(()),
        _ => Err(Misread::at(column, RowFault::FieldNotForKind)),
    }
}

/// What was found in the text of a column, which must be filled, or else this fault.
#[inline(always)]
#[tactic(auto, unfolding(crate::specs::Field::filled))]
pub fn required<T: Copy>(
    column: Column,
    text: &[u8],
    found: Option<T>,
    bad: RowFault,
) -> Result<T, Misread>
    requires { IsOfRow bad }
    ensures value { result ≡ located column (filled bad found text.now) }
    ensures found { IfOk result (λ value. found ≡ Some value) }
    ensures own { IfErr result (λ misread. IsOfRow misread.fault) }
{
    match text {
        [] => Err(Misread::at(column, RowFault::FieldNotForKind)),
        _ => found.ok_or(Misread::at(column, bad)),
    }
}

/// The number from 0 to `max` in a field that must be filled.
#[inline(always)]
pub fn required_number(fields: &RowFields, column: Column, max: u64) -> Result<u64, Misread>
    ensures value { result ≡ read_at (number max) fields.now column }
    ensures bound { IfOk result (λ n. n ≤ max) }
    ensures own { IfErr result (λ misread. IsOfRow misread.fault) }
{
    number_of(column, text(fields, column), max)
}

/// The number from 0 to `max` in a field, if it is filled.
#[tactic(auto, unfolding(crate::specs::Field::maybe_number, crate::specs::Field::maybe))]
pub fn optional_number(fields: &RowFields, column: Column, max: u64) -> Result<Option<u64>, Misread>
    ensures value { result ≡ read_at (maybe_number max) fields.now column }
    ensures bound { IfOk result (λ found. IfSome found (λ n. n ≤ max)) }
    ensures own { IfErr result (λ misread. IsOfRow misread.fault) }
{
    let text = text(fields, column);
    match text {
        [] => Ok(None),
        _ => Ok(Some(number_of(column, text, max)?)),
    }
}

// The number from 0 to `max` in the text of a column, which must be filled.
#[inline(always)]
#[tactic(auto, unfolding(crate::specs::Field::number))]
fn number_of(column: Column, text: &[u8], max: u64) -> Result<u64, Misread>
    ensures value { result ≡ located column (number max text.now) }
    ensures bound { IfOk result (λ n. n ≤ max) }
    ensures own { IfErr result (λ misread. IsOfRow misread.fault) }
{
    required(column, text, read_decimal(text, max), RowFault::BadNumber)
}

/// The signed number in a field, if it is filled.
#[inline(always)]
#[tactic(auto, unfolding(crate::specs::Field::maybe_signed, crate::specs::Field::maybe))]
pub fn optional_signed(fields: &RowFields, column: Column) -> Result<Option<i64>, Misread>
    ensures value { result ≡ read_at maybe_signed fields.now column }
    ensures own { IfErr result (λ misread. IsOfRow misread.fault) }
{
    let text = text(fields, column);
    match text {
        [] => Ok(None),
        _ => Ok(Some(signed_of(column, text)?)),
    }
}

/// The argument in a field of a row of this format: filled if the service takes it, and else empty, which means 0. An argument that may be
/// left out, and always is before format 3, is then -1.
#[tactic(auto, unfolding(crate::specs::Field::argument))]
pub fn read_argument(
    format: Format,
    fields: &RowFields,
    column: Column,
    presence: Presence,
) -> Result<i64, Misread>
    ensures value { result ≡ read_at (argument format presence) fields.now column }
    ensures own { IfErr result (λ misread. IsOfRow misread.fault) }
{
    match presence {
        Presence::Required => signed_of(column, text(fields, column)),
        Presence::Absent => {
            expect_empty(column, text(fields, column))?;
            Ok(0)
        }
        Presence::Optional => read_optional_argument(format, fields, column),
    }
}

// The argument in a field that may be left out.
#[tactic(auto, unfolding(crate::specs::Field::maybe_argument))]
fn read_optional_argument(
    format: Format,
    fields: &RowFields,
    column: Column,
) -> Result<i64, Misread>
    ensures value { result ≡ read_at (maybe_argument format) fields.now column }
    ensures own { IfErr result (λ misread. IsOfRow misread.fault) }
{
    match format {
        Format::Three => read_signed_or_none(fields, column),
        Format::One | Format::Two => {
            expect_empty(column, text(fields, column))?;
            Ok(-1)
        }
    }
}

// The argument in a field of a row of format 3 that may be left out.
#[tactic(auto, unfolding(crate::specs::Field::maybe_argument))]
fn read_signed_or_none(fields: &RowFields, column: Column) -> Result<i64, Misread>
    ensures value { result ≡ read_at (maybe_argument Format.Three) fields.now column }
    ensures own { IfErr result (λ misread. IsOfRow misread.fault) }
{
    Ok(optional_signed(fields, column)?.unwrap_or(-1))
}

// The signed number in the text of a column, which must be filled.
#[inline(always)]
#[tactic(auto, unfolding(crate::specs::Field::signed))]
fn signed_of(column: Column, text: &[u8]) -> Result<i64, Misread>
    ensures value { result ≡ located column (signed text.now) }
    ensures own { IfErr result (λ misread. IsOfRow misread.fault) }
{
    required(column, text, read_signed(text), RowFault::BadNumber)
}
