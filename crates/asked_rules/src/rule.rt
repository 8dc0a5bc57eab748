// A rule with its name.

ghost use Rattle.std.specs.Prelude.{◌≡◌, IfSome, Some, string_bytes};
ghost use Rattle.toml.specs.View.{view, table_view, items_view};
ghost use Rattle.asked_rules.specs.Keys.{Builds};
ghost use Rattle.asked_rules.specs.Reading.{rule_in, rule_under, said};

use crate::fault::RuleFault;
use crate::keys::{name, no_more, required};
use crate::refusal::{RuleKey, RuleRefusal};
use crate::relation::read_relation;
use apex_types::limits::MOST_LEVELS;
use std::alloc::Global;
use toml::{Table, Value};
use user_rules::Relation;

/// A rule with its name, of 1 to 64 bytes of printable ASCII, and the relation that must hold for each view.
#[derive(Debug, Drop)]
pub struct NamedRule {
    pub name: String,
    pub relation: Relation,
}

impl NamedRule {
    /// The rule that a value describes; none if memory ran out. It may name the memories of these tables.
    pub(crate) fn read(
        alloc: Global,
        memories: &[Value],
        value: &Value,
    ) -> Result<Option<NamedRule>, RuleRefusal>
        ensures { Builds said result (rule_in (items_view memories.now) (view value.now)) }
    {
        match value.as_table() {
            Some(keys) => NamedRule::from_table(alloc, memories, keys),
            None => Err(RuleRefusal::nowhere(RuleFault::WrongType)),
        }
    }

    // The rule that a table describes.
    fn from_table(
        alloc: Global,
        memories: &[Value],
        keys: &Table,
    ) -> Result<Option<NamedRule>, RuleRefusal>
        ensures { Builds said result (rule_under (items_view memories.now) (table_view keys.now)) }
    {
        no_more(keys, 2)?;
        let name = name(required(keys, "name", RuleKey::Name)?)?;
        let holds = required(keys, "holds", RuleKey::Holds)?;
        let relation = read_relation(alloc, memories, holds, MOST_LEVELS as u8)?;
        Ok(named(alloc, name, relation))
    }
}

// A relation with a name.
fn named(alloc: Global, name: &str, relation: Option<Relation>) -> Option<NamedRule>
    ensures { IfSome result (λ rule. (string_bytes rule.name ≡ name.now) × (relation ≡ Some rule.relation)) }
{
    let relation = relation?;
    match String::from_str(alloc, name) {
        Ok(name) => Some(NamedRule { name, relation }),
        Err(_) => None,
    }
}
