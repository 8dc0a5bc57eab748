// The values under the keys of a table, each judged by itself.

ghost use Rattle.std.specs.Prelude.{◌≡◌, ◌≤◌, IfOk, length, option_map, true};
ghost use Rattle.std.specs.List.{list_all};
ghost use Rattle.toml.specs.Data.{get_member};
ghost use Rattle.toml.specs.View.{view, table_view, items_view};
ghost use Rattle.apex_types.specs.declared.limits.TheConstants.{GREATEST_SPAN, LONGEST_NAME};
ghost use Rattle.module_config.specs.Keys.{Reads, required, text_in, natural_at, integer_at, ticks_at, text_at, name_at, discipline_at, error_policy_at, outside_at, is_name, is_printable, is_of, all_items, list_of, some_at, table_at, table_in, tables_at};
ghost use Rattle.module_config.specs.Walk.{objects_at};

use crate::fault::ConfigFault;
use apex_machine::{Direction, ErrorPolicy};
use apex_types::Discipline;
use apex_types::limits::{GREATEST_SPAN, LONGEST_NAME, MOST_OBJECTS};
use arrayvec::ArrayVec;
use toml::{Table, Value};

/// The value under a key, if the key is there.
pub(crate) fn member<'a>(table: &'a Table, key: &str) -> Option<&'a Value>
    ensures { option_map (λ value. view value.now) result ≡ get_member key.now (table_view table.now) }
{
    table.get(key)
}

// The value under a required key.
fn required<'a>(table: &'a Table, key: &str) -> Result<&'a Value, ConfigFault>
    ensures { Reads (λ value. view value.now) result (required (get_member key.now (table_view table.now))) }
{
    member(table, key).ok_or(ConfigFault::Missing)
}

/// The number under a required key, which must not be negative.
pub(crate) fn natural(table: &Table, key: &str) -> Result<u64, ConfigFault>
    ensures { result ≡ natural_at (get_member key.now (table_view table.now)) }
{
    let Some(number) = required(table, key)?.as_integer() else {
        return Err(ConfigFault::WrongType);
    };
    if number < 0 {
        return Err(ConfigFault::OutOfRange);
    }
    Ok(number as u64)
}

/// The number under a required key, which must be from `least` to `most`.
pub(crate) fn integer(table: &Table, key: &str, least: u64, most: u64) -> Result<u64, ConfigFault>
    ensures value { result ≡ integer_at least most (get_member key.now (table_view table.now)) }
    ensures least { IfOk result (λ number. least ≤ number) }
    ensures most { IfOk result (λ number. number ≤ most) }
{
    let number = natural(table, key)?;
    if number < least || number > most {
        return Err(ConfigFault::OutOfRange);
    }
    Ok(number)
}

/// The number of ticks under a required key, which must be from 1 to 4,294,967,295.
pub(crate) fn ticks(table: &Table, key: &str) -> Result<u64, ConfigFault>
    ensures value { result ≡ ticks_at (get_member key.now (table_view table.now)) }
    ensures least { IfOk result (λ number. 1 ≤ number) }
    ensures most { IfOk result (λ number. number ≤ GREATEST_SPAN) }
{
    integer(table, key, 1, GREATEST_SPAN as u64)
}

/// How many objects of a kind a partition may create, by the number under a key.
pub(crate) fn objects(table: &Table, key: &str) -> Result<u32, ConfigFault>
    ensures { result ≡ objects_at (get_member key.now (table_view table.now)) }
{
    let number = integer(table, key, 0, MOST_OBJECTS as u64)?;
    Ok(number as u32)
}

// The string that a value is.
fn text_in<'a>(value: &'a Value) -> Result<&'a str, ConfigFault>
    ensures { Reads (λ text. text.now) result (text_in (view value.now)) }
{
    match value.as_str() {
        Some(text) => Ok(text),
        None => Err(ConfigFault::WrongType),
    }
}

// The string under a required key.
fn text<'a>(table: &'a Table, key: &str) -> Result<&'a str, ConfigFault>
    ensures { Reads (λ text. text.now) result (text_at (get_member key.now (table_view table.now))) }
{
    text_in(required(table, key)?)
}

/// The name under a required key, which must have 1 to 32 bytes, all printable ASCII.
pub(crate) fn name(table: &Table, key: &str) -> Result<ArrayVec<u8, LONGEST_NAME>, ConfigFault>
    ensures { Reads (λ name. name.items) result (name_at (get_member key.now (table_view table.now))) }
{
    let bytes = text(table, key)?.as_bytes();
    if !is_name(bytes) {
        return Err(ConfigFault::OutOfRange);
    }
    Ok(short_bytes(bytes))
}

// Whether a text has 1 to 32 bytes, all printable ASCII.
fn is_name(bytes: &[u8]) -> bool
    ensures value { result ≡ is_name bytes.now }
    ensures most { result ≡ true → length bytes.now ≤ LONGEST_NAME }
{
    !bytes.is_empty() && bytes.len() <= LONGEST_NAME && are_printable(bytes)
}

// Whether each byte is printable ASCII.
fn are_printable(bytes: &[u8]) -> bool
    ensures { result ≡ list_all is_printable bytes.now }
{
    bytes.iter().all(|byte| 0x20 <= *byte && *byte <= 0x7E)
}

/// A copy of at most 32 bytes.
pub(crate) fn short_bytes(bytes: &[u8]) -> ArrayVec<u8, LONGEST_NAME>
    requires { length bytes.now ≤ LONGEST_NAME }
    ensures { result.items ≡ bytes.now }
{
    let mut copy = ArrayVec::new();
    for byte in bytes {
        copy.push(*byte);
    }
    copy
}

/// The discipline under a required key, which must be "FIFO" or "PRIORITY".
pub(crate) fn discipline(table: &Table, key: &str) -> Result<Discipline, ConfigFault>
    ensures { result ≡ discipline_at (get_member key.now (table_view table.now)) }
{
    let name = text(table, key)?;
    if name == "FIFO" {
        return Ok(Discipline::Fifo);
    }
    if name == "PRIORITY" {
        return Ok(Discipline::Priority);
    }
    Err(ConfigFault::OutOfRange)
}

/// The end of a channel that is outside the module, by the value under a key: "SOURCE" or "DESTINATION"; none if the key is missing.
pub(crate) fn outside(table: &Table, key: &str) -> Result<Option<Direction>, ConfigFault>
    ensures { result ≡ outside_at (get_member key.now (table_view table.now)) }
{
    let Some(value) = member(table, key) else {
        return Ok(None);
    };
    let name = text_in(value)?;
    if name == "SOURCE" {
        return Ok(Some(Direction::Source));
    }
    if name == "DESTINATION" {
        return Ok(Some(Direction::Destination));
    }
    Err(ConfigFault::OutOfRange)
}

/// What is done about an error that no handler takes, by the value under a key: "IGNORE", which also holds if the key is missing, "IDLE",
/// "COLD_START" or "WARM_START".
pub(crate) fn error_policy(table: &Table, key: &str) -> Result<ErrorPolicy, ConfigFault>
    ensures { result ≡ error_policy_at (get_member key.now (table_view table.now)) }
{
    let Some(value) = member(table, key) else {
        return Ok(ErrorPolicy::Ignore);
    };
    let name = text_in(value)?;
    if name == "IGNORE" {
        return Ok(ErrorPolicy::Ignore);
    }
    if name == "IDLE" {
        return Ok(ErrorPolicy::Idle);
    }
    if name == "COLD_START" {
        return Ok(ErrorPolicy::ColdStart);
    }
    if name == "WARM_START" {
        return Ok(ErrorPolicy::WarmStart);
    }
    Err(ConfigFault::OutOfRange)
}

/// The table that a value is.
pub(crate) fn table<'a>(value: &'a Value) -> Result<&'a Table, ConfigFault>
    ensures { Reads (λ keys. table_view keys.now) result (table_in (view value.now)) }
{
    value.as_table().ok_or(ConfigFault::WrongType)
}

/// The table under a required key.
pub(crate) fn table_under<'a>(keys: &'a Table, key: &str) -> Result<&'a Table, ConfigFault>
    ensures { Reads (λ found. table_view found.now) result (table_at (get_member key.now (table_view keys.now))) }
{
    table(required(keys, key)?)
}

/// The type of the items of a list.
#[derive(Clone, Copy)]
pub(crate) enum ItemType {
    Integer,
    Table,
}

/// The items of a list, each of this type.
pub(crate) fn list<'a>(value: &'a Value, item_type: ItemType) -> Result<&'a [Value], ConfigFault>
    ensures { Reads (λ items. items_view items.now) result (list_of (is_of item_type) (view value.now)) }
{
    let Some(array) = value.as_array() else {
        return Err(ConfigFault::WrongType);
    };
    let items = array.as_slice();
    if !are_of(item_type, items) {
        return Err(ConfigFault::WrongType);
    }
    Ok(items)
}

/// The items of the list under a required key: at least one, each of this type.
pub(crate) fn some_items<'a>(
    table: &'a Table,
    key: &str,
    item_type: ItemType,
) -> Result<&'a [Value], ConfigFault>
    ensures value { Reads (λ items. items_view items.now) result (some_at item_type (get_member key.now (table_view table.now))) }
    ensures some { IfOk result (λ items. 1 ≤ length items.now) }
{
    let items = list(required(table, key)?, item_type)?;
    if items.is_empty() {
        return Err(ConfigFault::OutOfRange);
    }
    Ok(items)
}

/// The items of the list of tables under a key; there are none if the key is missing.
pub(crate) fn tables_under<'a>(table: &'a Table, key: &str) -> Result<&'a [Value], ConfigFault>
    ensures { Reads (λ items. items_view items.now) result (tables_at (get_member key.now (table_view table.now))) }
{
    match member(table, key) {
        Some(value) => list(value, ItemType::Table),
        None => Ok(&[]),
    }
}

// Whether each item is of this type.
fn are_of(item_type: ItemType, items: &[Value]) -> bool
    ensures { result ≡ all_items (is_of item_type) (items_view items.now) }
{
    each_is_of(item_type, items)
}

fn each_is_of(item_type: ItemType, items: &[Value]) -> bool
    ensures { result ≡ list_all (λ value. is_of item_type (view value)) items.now }
{
    items.iter().all(|value| is_of(item_type, value))
}

// Whether a value is of this type.
fn is_of(item_type: ItemType, value: &Value) -> bool
    ensures { result ≡ is_of item_type (view value.now) }
{
    match item_type {
        ItemType::Integer => value.as_integer().is_some(),
        ItemType::Table => value.as_table().is_some(),
    }
}
