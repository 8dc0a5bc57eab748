// The values under the keys of a table, each judged by itself.

ghost use Rattle.std.specs.Prelude.{◌≡◌, ◌≤◌, option_map};
ghost use Rattle.std.specs.List.{list_all};
ghost use Rattle.toml.specs.Data.{get_member};
ghost use Rattle.toml.specs.View.{view, table_view, items_view};
ghost use Rattle.record_read.specs.Payload.{is_printable};
ghost use Rattle.asked_rules.specs.Keys.{Reads, given, is_name, list_in, member_count, name_in, no_more, required, text_in};

use crate::fault::RuleFault;
use crate::refusal::{RuleKey, RuleRefusal};
use apex_types::limits::LONGEST_RULE_NAME;
use toml::{Table, Value};

/// The value under a key, if the key is there.
pub(crate) fn member<'a>(table: &'a Table, key: &str) -> Option<&'a Value>
    ensures { option_map (λ value. view value.now) result ≡ get_member key.now (table_view table.now) }
{
    table.get(key)
}

/// 1 if the key is there, else 0.
pub(crate) fn given(table: &Table, key: &str) -> usize
    ensures value { result ≡ given (get_member key.now (table_view table.now)) }
    ensures few { result ≤ 1 }
{
    match member(table, key) {
        Some(_) => 1,
        None => 0,
    }
}

/// The value under the key of this text, which must be there.
pub(crate) fn required<'a>(
    table: &'a Table,
    text: &str,
    key: RuleKey,
) -> Result<&'a Value, RuleRefusal>
    ensures { Reads (λ value. view value.now) result (required key (get_member text.now (table_view table.now))) }
{
    match member(table, text) {
        Some(value) => Ok(value),
        None => Err(RuleRefusal::at(key, RuleFault::Missing)),
    }
}

/// Refuses a table with more keys than this.
#[tactic(auto, using(crate::proofs::Counts::keys_counted))]
pub(crate) fn no_more(table: &Table, count: usize) -> Result<(), RuleRefusal>
    ensures { result ≡ no_more count (table_view table.now) }
{
    if table.len() > count {
        return Err(RuleRefusal::nowhere(RuleFault::UnknownKey));
    }
    Ok(())
}

/// The text that the value under a key is.
pub(crate) fn text<'a>(value: &'a Value, key: RuleKey) -> Result<&'a str, RuleRefusal>
    ensures { Reads (λ text. text.now) result (text_in key (view value.now)) }
{
    match value.as_str() {
        Some(text) => Ok(text),
        None => Err(RuleRefusal::at(key, RuleFault::WrongType)),
    }
}

/// The items of the list that a value is.
pub(crate) fn list<'a>(value: &'a Value) -> Result<&'a [Value], RuleRefusal>
    ensures { Reads (λ items. items_view items.now) result (list_in (view value.now)) }
{
    match value.as_array() {
        Some(array) => Ok(array.as_slice()),
        None => Err(RuleRefusal::nowhere(RuleFault::WrongType)),
    }
}

/// The name that a value is: 1 to 64 bytes, all printable ASCII.
pub(crate) fn name<'a>(value: &'a Value) -> Result<&'a str, RuleRefusal>
    ensures { Reads (λ name. name.now) result (name_in (view value.now)) }
{
    let name = text(value, RuleKey::Name)?;
    if !is_name(name.as_bytes()) {
        return Err(RuleRefusal::at(RuleKey::Name, RuleFault::BadName));
    }
    Ok(name)
}

// Whether a text has 1 to 64 bytes, all printable ASCII.
fn is_name(bytes: &[u8]) -> bool
    ensures { result ≡ is_name bytes.now }
{
    !bytes.is_empty() && bytes.len() <= LONGEST_RULE_NAME && are_printable(bytes)
}

// Whether each byte is printable ASCII.
fn are_printable(bytes: &[u8]) -> bool
    ensures { result ≡ list_all is_printable bytes.now }
{
    bytes.iter().all(|byte| 0x20 <= *byte && *byte <= 0x7E)
}
