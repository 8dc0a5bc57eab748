// The memories and the rules of a text.

ghost use Rattle.std.specs.Prelude.{◌≡◌, ◌↔◌, ◌<◌, Err, IfErr, IfOk, Some, codes, length, map};
ghost use Rattle.toml.specs.Data.{get_member};
ghost use Rattle.toml.specs.Errors.{IsMemory};
ghost use Rattle.toml.specs.View.{table_view, items_view};
ghost use Rattle.apex_types.specs.declared.limits.TheConstants.{LONGEST_RULES_FILE};
ghost use Rattle.asked_rules.specs.declared.fault.RulesFault.TheVariants.{File, Memory};
ghost use Rattle.asked_rules.specs.declared.fault.RuleFault.TheVariants.{NotToml, TooMany};
ghost use Rattle.asked_rules.specs.Keys.{Builds, Gives, Reads};
ghost use Rattle.asked_rules.specs.Memories.{said_memory};
ghost use Rattle.asked_rules.specs.Reading.{GivesPlaced, IsAdded, keyless, listed_under, memories_from, memories_listed, of_file, rules_from, rules_of, rules_under, said, said_file, walk_of};

use crate::fault::{RuleFault, RulesFault};
use crate::keys::{given, list, member, no_more, required};
use crate::memory::read_memory;
use crate::refusal::{RuleKey, RuleRefusal, RulesRefusal};
use crate::rule::NamedRule;
use crate::rules_file::RulesFile;
use apex_types::limits::{LONGEST_RULES_FILE, MOST_RULES};
use std::alloc::Global;
use toml::de::Error;
use toml::{Table, Value};
use user_rules::{MOST_MEMORIES, RuleMemory};

/// Reads the memories and the rules that a TOML text gives, in its order.
///
/// Every fault but `Memory` is the first in the text: `TooMany` for a text above 1,048,576 bytes, then `NotToml`, then the lists of rules
/// and of memories, then each memory in turn, then each rule. Once the text is a table, each of them is judged however little memory there
/// is.
pub fn read(alloc: Global, text: &[u8]) -> Result<RulesFile, RulesFault>
    ensures value { Gives Memory said_file result (rules_of text.now) }
    ensures too_long { LONGEST_RULES_FILE < length text.now → result ≡ Err (File TooMany) }
{
    match read_explained(alloc, text) {
        Ok(file) => Ok(file),
        Err(refusal) => Err(refusal.fault),
    }
}

/// Reads the memories and the rules that a text gives, as `read` does. A refusal has the key at which the walk over the text stops.
///
/// The fault of the refusal is that of `read`, and so is the number of the memory or the rule that has it.
pub fn read_explained(alloc: Global, text: &[u8]) -> Result<RulesFile, RulesRefusal>
    ensures value { GivesPlaced said_file result (walk_of text.now) }
    ensures too_long { LONGEST_RULES_FILE < length text.now → result ≡ Err (keyless (File TooMany)) }
{
    if text.len() > LONGEST_RULES_FILE {
        return Err(RulesRefusal::keyless(RulesFault::File(RuleFault::TooMany)));
    }
    match toml::table_from_slice(alloc, text) {
        Ok(keys) => rules_under(alloc, &keys),
        Err(fault) => Err(RulesRefusal::keyless(text_fault(&fault))),
    }
}

// Why a text is not a table.
fn text_fault(fault: &Error) -> RulesFault
    ensures memory { (result ≡ Memory) ↔ IsMemory fault.now }
    ensures not_toml { (result ≡ File NotToml) ↔ (¬ IsMemory fault.now) }
{
    if fault.is_memory() {
        RulesFault::Memory
    } else {
        RulesFault::File(RuleFault::NotToml)
    }
}

// The memories and the rules of a table. If memory runs out over the memories, the rules are judged all the same.
fn rules_under(alloc: Global, keys: &Table) -> Result<RulesFile, RulesRefusal>
    ensures value { GivesPlaced said_file result (rules_under (table_view keys.now)) }
    ensures refused { IfErr (rules_under (table_view keys.now)) (λ refusal. result ≡ Err refusal) }
{
    let listed = listed_under(keys);
    let items = of_file(listed)?;
    let remembered = memories_listed(keys);
    let above = of_file(remembered)?;
    let memories = memories_from(alloc, above)?;
    let rules = rules_from(alloc, above, items)?;
    put_together(memories, rules)
}

// The file of memories and rules that were all built.
fn put_together(
    memories: Option<Vec<RuleMemory>>,
    rules: Option<Vec<NamedRule>>,
) -> Result<RulesFile, RulesRefusal>
    ensures built { IfOk result (λ file. (memories ≡ Some file.memories) × (rules ≡ Some file.rules)) }
    ensures memory { IfErr result (λ refusal. refusal.fault ≡ Memory) }
{
    match (memories, rules) {
        (Some(memories), Some(rules)) => Ok(RulesFile { memories, rules }),
        _ => Err(RulesRefusal::keyless(RulesFault::Memory)),
    }
}

// A list of the file, or the refusal outside the memories and the rules.
fn of_file<'a>(items: Result<&'a [Value], RuleRefusal>) -> Result<&'a [Value], RulesRefusal>
    ensures { result ≡ of_file items.entry }
{
    match items {
        Ok(items) => Ok(items),
        Err(refusal) => Err(RulesRefusal {
            fault: RulesFault::File(refusal.fault),
            key: refusal.key,
        }),
    }
}

// The list of rules of a table.
#[tactic(auto, using(crate::proofs::Counts::items_counted))]
fn listed_under<'a>(keys: &'a Table) -> Result<&'a [Value], RuleRefusal>
    ensures { Reads (λ items. items_view items.now) result (listed_under (table_view keys.now)) }
{
    no_more(keys, 1 + given(keys, "memory"))?;
    let items = list(required(keys, "rule", RuleKey::Rule)?)?;
    if items.len() > MOST_RULES {
        return Err(RuleRefusal::nowhere(RuleFault::TooMany));
    }
    Ok(items)
}

// The list of memories of a table.
#[tactic(auto, using(crate::proofs::Counts::items_counted))]
fn memories_listed<'a>(keys: &'a Table) -> Result<&'a [Value], RuleRefusal>
    ensures { Reads (λ items. items_view items.now) result (memories_listed (get_member (codes "memory") (table_view keys.now))) }
{
    let Some(value) = member(keys, "memory") else {
        return Ok(&[]);
    };
    let items = list(value)?;
    if items.len() > MOST_MEMORIES {
        return Err(RuleRefusal::nowhere(RuleFault::TooMany));
    }
    Ok(items)
}

// The memories that the items of a list describe; none if memory ran out, and even then each is judged.
fn memories_from(alloc: Global, items: &[Value]) -> Result<Option<Vec<RuleMemory>>, RulesRefusal>
    ensures { Builds (λ memories. map said_memory memories.items) result (memories_from (items_view items.now)) }
{
    let mut memories = Some(Vec::new(alloc));
    for (number, item) in items.iter().enumerate() {
        match read_memory(alloc, &items[..number], item) {
            Ok(memory) => memories = added(memories, memory),
            Err(refusal) => {
                return Err(RulesRefusal {
                    fault: RulesFault::RuleMemory {
                        memory: number,
                        fault: refusal.fault,
                    },
                    key: refusal.key,
                });
            }
        }
    }
    Ok(memories)
}

// The rules that the items of a list describe, which may name these memories; none if memory ran out, and even then each is judged.
fn rules_from(
    alloc: Global,
    memories: &[Value],
    items: &[Value],
) -> Result<Option<Vec<NamedRule>>, RulesRefusal>
    ensures value { Builds (λ rules. map said rules.items) result (rules_from (items_view memories.now) (items_view items.now)) }
    ensures refused { IfErr (rules_from (items_view memories.now) (items_view items.now)) (λ refusal. result ≡ Err refusal) }
{
    let mut rules = Some(Vec::new(alloc));
    for (number, item) in items.iter().enumerate() {
        match NamedRule::read(alloc, memories, item) {
            Ok(rule) => rules = added(rules, rule),
            Err(refusal) => {
                return Err(RulesRefusal {
                    fault: RulesFault::Rule {
                        rule: number,
                        fault: refusal.fault,
                    },
                    key: refusal.key,
                });
            }
        }
    }
    Ok(rules)
}

// A list followed by one more; none if memory ran out.
fn added<A: Drop>(list: Option<Vec<A>>, one: Option<A>) -> Option<Vec<A>>
    ensures { IsAdded list one result }
{
    let mut list = list?;
    match list.push(one?) {
        Ok(()) => Some(list),
        Err(_) => None,
    }
}
