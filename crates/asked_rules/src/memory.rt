// Memories, as tables describe them.

ghost use Rattle.std.specs.Prelude.{◌≡◌, IfSome, Some, codes, option_map, string_bytes};
ghost use Rattle.toml.specs.Data.{get_member};
ghost use Rattle.toml.specs.View.{view, table_view, items_view};
ghost use Rattle.user_rules.specs.declared.memory.Counted.{Counted};
ghost use Rattle.user_rules.specs.Meets.{meets};
ghost use Rattle.asked_rules.specs.Keys.{Builds, Reads};
ghost use Rattle.asked_rules.specs.Memories.{allowed, counted_in, keeps_under, last_in, memory_in, memory_under, new_name_in, optional_in, per_in, per_named, said_keeps, said_memory};

use crate::fault::RuleFault;
use crate::field::read_field;
use crate::keys::{given, member, name, no_more, required, text};
use crate::refusal::{RuleKey, RuleRefusal};
use crate::relation::read_relation;
use crate::side::find_memory;
use apex_types::limits::MOST_LEVELS;
use std::alloc::Global;
use toml::{Table, Value};
use user_rules::{Counted, Keeps, Per, Relation, RuleMemory};

/// The memory that a value describes; none if memory ran out. Its relations may name the memories of these tables above it.
pub(crate) fn read_memory(
    alloc: Global,
    above: &[Value],
    value: &Value,
) -> Result<Option<RuleMemory>, RuleRefusal>
    ensures { Builds said_memory result (memory_in (items_view above.now) (view value.now)) }
{
    match value.as_table() {
        Some(keys) => memory_under(alloc, above, keys),
        None => Err(RuleRefusal::nowhere(RuleFault::WrongType)),
    }
}

// The memory that a table describes.
fn memory_under(
    alloc: Global,
    above: &[Value],
    keys: &Table,
) -> Result<Option<RuleMemory>, RuleRefusal>
    ensures { Builds said_memory result (memory_under (items_view above.now) (table_view keys.now)) }
{
    let most = allowed(keys);
    no_more(keys, most)?;
    let value = required(keys, "name", RuleKey::Name)?;
    let name = new_name(above, value)?;
    let keeps = keeps_under(alloc, above, keys)?;
    let per = per_under(keys)?;
    Ok(named(alloc, name, keeps, per))
}

// How many keys a memory may have.
fn allowed(keys: &Table) -> usize
    ensures { result ≡ allowed (table_view keys.now) }
{
    let per = given(keys, "per");
    if member(keys, "since").is_some() {
        return 2 + per;
    }
    if member(keys, "count").is_some() {
        return 2 + given(keys, "back") + given(keys, "reset") + per;
    }
    2 + given(keys, "take") + per
}

// The name of a memory, which no memory above has.
fn new_name<'a>(above: &[Value], value: &'a Value) -> Result<&'a str, RuleRefusal>
    ensures { Reads (λ name. name.now) result (new_name_in (items_view above.now) (view value.now)) }
{
    let name = name(value)?;
    match find_memory(above, name) {
        None => Ok(name),
        Some(_) => Err(RuleRefusal::at(RuleKey::Name, RuleFault::SameName)),
    }
}

// What the memory of a table keeps; none if memory ran out.
fn keeps_under(alloc: Global, above: &[Value], keys: &Table) -> Result<Option<Keeps>, RuleRefusal>
    ensures { Builds said_keeps result (keeps_under (items_view above.now) (table_view keys.now)) }
{
    if let Some(value) = member(keys, "since") {
        let relation = read_relation(alloc, above, value, MOST_LEVELS as u8)?;
        return Ok(relation.map(Keeps::Since));
    }
    if let Some(value) = member(keys, "count") {
        return counted(alloc, above, value, keys);
    }
    if let Some(value) = member(keys, "last") {
        return last(alloc, above, value, keys);
    }
    Err(RuleRefusal::at(RuleKey::Keeps, RuleFault::Missing))
}

// A count of the views that meet the relation that a value describes.
fn counted(
    alloc: Global,
    above: &[Value],
    value: &Value,
    keys: &Table,
) -> Result<Option<Keeps>, RuleRefusal>
    ensures { Builds said_keeps result (counted_in (items_view above.now) (table_view keys.now) (view value.now)) }
{
    let relation = read_relation(alloc, above, value, MOST_LEVELS as u8)?;
    let counts_back = member(keys, "back");
    let back = optional(alloc, above, counts_back)?;
    let resets = member(keys, "reset");
    let reset = optional(alloc, above, resets)?;
    Ok(put_together(relation, back, reset))
}

// A count of relations that were all built.
fn put_together(
    relation: Option<Relation>,
    back: Option<Option<Relation>>,
    reset: Option<Option<Relation>>,
) -> Option<Keeps>
    ensures { IfSome result (λ keeps. (counted : Counted) × (keeps ≡ Keeps.Count counted) × (relation ≡ Some counted.relation) × (back ≡ Some counted.back) × (reset ≡ Some counted.reset)) }
{
    let relation = relation?;
    let back = back?;
    let reset = reset?;
    Some(Keeps::Count(Counted {
        relation,
        back,
        reset,
    }))
}

// The relation that a value describes, if there is a value; none at all if memory ran out.
fn optional(
    alloc: Global,
    above: &[Value],
    value: Option<&Value>,
) -> Result<Option<Option<Relation>>, RuleRefusal>
    ensures { Builds (option_map meets) result (optional_in (items_view above.now) (option_map (λ value. view value.now) value.entry)) }
{
    match value {
        None => Ok(Some(None)),
        Some(value) => {
            let relation = read_relation(alloc, above, value, MOST_LEVELS as u8)?;
            Ok(relation.map(Some))
        }
    }
}

// A field of the last view that meets the relation that a value describes.
fn last(
    alloc: Global,
    above: &[Value],
    value: &Value,
    keys: &Table,
) -> Result<Option<Keeps>, RuleRefusal>
    ensures { Builds said_keeps result (last_in (items_view above.now) (table_view keys.now) (view value.now)) }
{
    let relation = read_relation(alloc, above, value, MOST_LEVELS as u8)?;
    let taken = required(keys, "take", RuleKey::Take)?;
    let field = read_field(taken, RuleKey::Take)?;
    match relation {
        Some(relation) => Ok(Some(Keeps::Last(relation, field))),
        None => Ok(None),
    }
}

// For whom the memory of a table keeps a value each.
fn per_under(keys: &Table) -> Result<Per, RuleRefusal>
    ensures { result ≡ per_in (get_member (codes "per") (table_view keys.now)) }
{
    let Some(value) = member(keys, "per") else {
        return Ok(Per::Module);
    };
    match find_per(text(value, RuleKey::Per)?) {
        Some(per) => Ok(per),
        None => Err(RuleRefusal::at(RuleKey::Per, RuleFault::UnknownHolder)),
    }
}

// For whom a memory keeps a value each, by its name.
fn find_per(name: &str) -> Option<Per>
    ensures { result ≡ per_named name.now }
{
    match name {
        "module" => Some(Per::Module),
        "core" => Some(Per::Core),
        "partition" => Some(Per::Partition),
        "process" => Some(Per::Process),
        _ => None,
    }
}

// A memory with its name.
fn named(alloc: Global, name: &str, keeps: Option<Keeps>, per: Per) -> Option<RuleMemory>
    ensures { IfSome result (λ memory. (string_bytes memory.name ≡ name.now) × (keeps ≡ Some memory.keeps) × (memory.per ≡ per)) }
{
    let keeps = keeps?;
    match String::from_str(alloc, name) {
        Ok(name) => Some(RuleMemory { name, keeps, per }),
        Err(_) => None,
    }
}
