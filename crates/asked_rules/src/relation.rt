// Relations, as tables describe them.

ghost use Rattle.std.specs.Prelude.{◌≡◌, ◌≤◌, IfSome, Some, codes, length};
ghost use Rattle.toml.specs.Data.{get_member};
ghost use Rattle.toml.specs.View.{view, table_view, items_view};
ghost use Rattle.apex_types.specs.declared.limits.TheConstants.{MOST_RELATIONS};
ghost use Rattle.user_rules.specs.Meets.{meets};
ghost use Rattle.asked_rules.specs.Keys.{Builds, Reads};
ghost use Rattle.asked_rules.specs.Joins.{IsJoined, joins};
ghost use Rattle.asked_rules.specs.Relations.{compared, comparison_under, joined, joined_in, negated_in, relation_in, relation_under};

use crate::fault::RuleFault;
use crate::keys::{list, member, no_more};
use crate::refusal::{RuleKey, RuleRefusal};
use crate::side::{Side, read_other_side, read_side};
use apex_types::limits::MOST_RELATIONS;
use std::alloc::Global;
use toml::{Table, Value};
use user_rules::Relation;

/// How relations are combined.
#[derive(Clone, Copy)]
enum Join {
    And,
    Or,
}

/// The relation that a value describes, with at most this many levels. It may name the memories of these tables.
///
/// There is none if memory ran out; even then the whole value has been judged.
#[cycle(relation)]
#[tactic(auto, unfolding(crate::specs::Relations::relation_in))]
pub(crate) fn read_relation(
    alloc: Global,
    above: &[Value],
    value: &Value,
    levels: u8,
) -> Result<Option<Relation>, RuleRefusal>
    ensures { Builds meets result (relation_in (items_view above.now) levels (view value.now)) }
{
    if levels == 0 {
        return Err(RuleRefusal::nowhere(RuleFault::TooDeep));
    }
    match value.as_table() {
        Some(keys) => relation_under(alloc, above, keys, levels - 1),
        None => Err(RuleRefusal::nowhere(RuleFault::WrongType)),
    }
}

// The relation that a table describes, with at most this many levels below it.
#[cycle(relation)]
fn relation_under(
    alloc: Global,
    above: &[Value],
    keys: &Table,
    levels: u8,
) -> Result<Option<Relation>, RuleRefusal>
    ensures { Builds meets result (relation_under (items_view above.now) (relation_in (items_view above.now) levels) (table_view keys.now)) }
{
    if let Some(value) = member(keys, "not") {
        no_more(keys, 1)?;
        return negated(alloc, above, value, levels);
    }
    if let Some(value) = member(keys, "and") {
        no_more(keys, 1)?;
        return joined_in(alloc, above, value, Join::And, levels);
    }
    if let Some(value) = member(keys, "or") {
        no_more(keys, 1)?;
        return joined_in(alloc, above, value, Join::Or, levels);
    }
    Ok(Some(comparison(above, keys)?))
}

// The relation that holds exactly if the one that a value describes does not.
#[cycle(relation)]
fn negated(
    alloc: Global,
    above: &[Value],
    value: &Value,
    levels: u8,
) -> Result<Option<Relation>, RuleRefusal>
    ensures { Builds meets result (negated_in (relation_in (items_view above.now) levels) (view value.now)) }
{
    let relation = read_relation(alloc, above, value, levels)?;
    match boxed(alloc, relation) {
        Some(relation) => Ok(Some(Relation::Not(relation))),
        None => Ok(None),
    }
}

// The relations of a list of 1 to 64, combined.
#[cycle(relation)]
#[tactic(auto, using(crate::proofs::Counts::items_counted))]
fn joined_in(
    alloc: Global,
    above: &[Value],
    value: &Value,
    join: Join,
    levels: u8,
) -> Result<Option<Relation>, RuleRefusal>
    ensures { Builds meets result (joined_in (joins join) (relation_in (items_view above.now) levels) (view value.now)) }
{
    let items = list(value)?;
    if items.len() > MOST_RELATIONS {
        return Err(RuleRefusal::nowhere(RuleFault::TooMany));
    }
    joined(alloc, above, items, join, levels)
}

// These relations, combined one after the other.
#[cycle(relation)]
fn joined(
    alloc: Global,
    above: &[Value],
    items: &[Value],
    join: Join,
    levels: u8,
) -> Result<Option<Relation>, RuleRefusal>
    requires { length items.now ≤ MOST_RELATIONS }
    ensures { Builds meets result (joined (joins join) (relation_in (items_view above.now) levels) (items_view items.now)) }
{
    let Some((item, rest)) = items.split_first() else {
        return Err(RuleRefusal::nowhere(RuleFault::Empty));
    };
    let first = read_relation(alloc, above, item, levels)?;
    if rest.is_empty() {
        return Ok(first);
    }
    let others = joined(alloc, above, rest, join, levels)?;
    Ok(put_together(alloc, join, first, others))
}

// Two relations combined.
fn put_together(
    alloc: Global,
    join: Join,
    first: Option<Relation>,
    others: Option<Relation>,
) -> Option<Relation>
    ensures { IsJoined join first others result }
{
    let first = boxed(alloc, first)?;
    let others = boxed(alloc, others)?;
    Some(match join {
        Join::And => Relation::And(first, others),
        Join::Or => Relation::Or(first, others),
    })
}

// A relation in a box of its own.
fn boxed(alloc: Global, relation: Option<Relation>) -> Option<Box<Relation>>
    ensures { IfSome result (λ boxed. relation ≡ Some boxed.value) }
{
    match Box::new(alloc, relation?) {
        Ok(boxed) => Some(boxed),
        Err(_) => None,
    }
}

// The comparison that a table describes.
fn comparison(above: &[Value], keys: &Table) -> Result<Relation, RuleRefusal>
    ensures { Reads meets result (comparison_under (items_view above.now) (table_view keys.now)) }
{
    no_more(keys, 2)?;
    let side = read_side(above, keys)?;
    compared(above, side, keys)
}

// A side compared with what is under the first of `less`, `equal` and `greater` that is there.
fn compared(above: &[Value], side: Side, keys: &Table) -> Result<Relation, RuleRefusal>
    ensures { Reads meets result (compared (items_view above.now) side (get_member (codes "less") (table_view keys.now)) (get_member (codes "equal") (table_view keys.now)) (get_member (codes "greater") (table_view keys.now))) }
{
    if let Some(value) = member(keys, "less") {
        let other = read_other_side(above, side, value)?;
        return Ok(Relation::Less(side.quantity, other));
    }
    if let Some(value) = member(keys, "equal") {
        let other = read_other_side(above, side, value)?;
        return Ok(Relation::Equal(side.quantity, other));
    }
    if let Some(value) = member(keys, "greater") {
        let other = read_other_side(above, side, value)?;
        return Ok(Relation::Greater(side.quantity, other));
    }
    Err(RuleRefusal::at(RuleKey::Number, RuleFault::Missing))
}
