// The two sides of a comparison: a field or a memory, and what it is compared with.

ghost use Rattle.std.specs.Prelude.{◌≡◌, option_map};
ghost use Rattle.toml.specs.View.{view, table_view, items_view};
ghost use Rattle.asked_rules.specs.Sides.{is_named, memory_named, number_under, other_side_in, side_in, side_under, taken_field, text_under};

use crate::fault::RuleFault;
use crate::field::{find_field, number_named, read_field};
use crate::keys::{member, no_more, required, text};
use crate::refusal::{RuleKey, RuleRefusal};
use apex_types::Field;
use toml::{Table, Value};
use user_rules::Quantity;

/// A side of a comparison, and the field in which names mean numbers for it, if there is one.
#[derive(Clone, Copy)]
pub(crate) struct Side {
    pub quantity: Quantity,
    pub names: Option<Field>,
}

/// The field or the memory that a table names. The memories above are those of these tables.
pub(crate) fn read_side(above: &[Value], keys: &Table) -> Result<Side, RuleRefusal>
    ensures { result ≡ side_under (items_view above.now) (table_view keys.now) }
{
    if let Some(value) = member(keys, "memory") {
        return read_memory(above, value);
    }
    let field = read_field(required(keys, "field", RuleKey::Field)?, RuleKey::Field)?;
    Ok(Side {
        quantity: Quantity::Field(field),
        names: Some(field),
    })
}

// The memory whose name a value is.
fn read_memory(above: &[Value], value: &Value) -> Result<Side, RuleRefusal>
    ensures { result ≡ side_in (items_view above.now) (view value.now) }
{
    let name = text(value, RuleKey::Memory)?;
    match find_memory(above, name) {
        Some(side) => Ok(side),
        None => Err(RuleRefusal::at(RuleKey::Memory, RuleFault::UnknownMemory)),
    }
}

/// The memory of this name, among those of these tables.
pub(crate) fn find_memory(above: &[Value], name: &str) -> Option<Side>
    ensures { result ≡ memory_named (items_view above.now) name.now }
{
    for (number, value) in above.iter().enumerate() {
        if is_named(value, name) {
            return Some(Side {
                quantity: Quantity::Memory(number),
                names: taken_field(value),
            });
        }
    }
    None
}

// Whether a value is a table with this name.
fn is_named(value: &Value, name: &str) -> bool
    ensures { result ≡ is_named name.now (view value.now) }
{
    match text_under(value, "name") {
        Some(text) => text == name,
        None => false,
    }
}

// The field that the memory of a table takes, if it takes one.
fn taken_field(value: &Value) -> Option<Field>
    ensures { result ≡ taken_field (view value.now) }
{
    find_field(text_under(value, "take")?)
}

// The text under a key of a value, if the value is a table with such a text.
fn text_under<'a>(value: &'a Value, key: &str) -> Option<&'a str>
    ensures { option_map (λ text. text.now) result ≡ text_under key.now (view value.now) }
{
    let keys = value.as_table()?;
    member(keys, key)?.as_str()
}

/// What a side is compared with: an integer, the number that a name means for the side, or the field or the memory that a table names.
pub(crate) fn read_other_side(
    above: &[Value],
    side: Side,
    value: &Value,
) -> Result<Quantity, RuleRefusal>
    ensures { result ≡ other_side_in (items_view above.now) side (view value.now) }
{
    if let Some(number) = value.as_integer() {
        return Ok(Quantity::Number(number));
    }
    if let Some(keys) = value.as_table() {
        no_more(keys, 1)?;
        return Ok(read_side(above, keys)?.quantity);
    }
    let name = text(value, RuleKey::Number)?;
    match number_under(side, name) {
        Some(number) => Ok(Quantity::Number(number)),
        None => Err(RuleRefusal::at(RuleKey::Number, RuleFault::UnknownName)),
    }
}

// The number that a name means for a side.
fn number_under(side: Side, name: &str) -> Option<i64>
    ensures { result ≡ number_under side name.now }
{
    number_named(side.names?, name.as_bytes())
}
