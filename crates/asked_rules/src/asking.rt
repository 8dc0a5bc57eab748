// The relations that are asked for, and what a rules file has.

ghost use Rattle.std.specs.Prelude.{IfOk, map, option_map};
ghost use Rattle.asked_rules.specs.Reading.{GivesPlaced, said, said_file};
ghost use Rattle.asked_rules.specs.Asked.{HoldInTurn, SayBoth, walk_given};

use crate::option::{RuleOption, relations_of};
use crate::refusal::RulesRefusal;
use crate::rule::NamedRule;
use crate::rules_file::RulesFile;
use std::alloc::{AllocError, Global};
use user_rules::Relation;

/// The memories and the rules of a rules file, in its order; none if there is no file.
///
/// # Errors
///
/// The refusal has the key at which the walk over the text stops, or is that of memory.
pub fn read_rules(alloc: Global, text: Option<&[u8]>) -> Result<RulesFile, RulesRefusal>
    ensures { GivesPlaced said_file result (walk_given (option_map (λ text. text.now) text.entry)) }
{
    match text {
        Some(text) => crate::text::read_explained(alloc, text),
        None => Ok(RulesFile {
            memories: Vec::new(alloc),
            rules: Vec::new(alloc),
        }),
    }
}

/// The relations that options request, followed by those of rules.
///
/// # Errors
///
/// `AllocError` if memory is refused.
pub fn all_relations(
    alloc: Global,
    options: &[RuleOption],
    rules: &[NamedRule],
) -> Result<Vec<Relation>, AllocError>
    ensures { IfOk result (λ relations. SayBoth options.now (map said rules.now) relations.items) }
{
    let mut relations = relations_of(alloc, options)?;
    let mut those_after = relations_in(alloc, rules)?;
    relations.append(&mut those_after)?;
    Ok(relations)
}

// The relations of rules, in their order.
fn relations_in(alloc: Global, rules: &[NamedRule]) -> Result<Vec<Relation>, AllocError>
    ensures { IfOk result (λ relations. HoldInTurn (map said rules.now) relations.items) }
{
    let mut relations = Vec::new(alloc);
    for rule in rules {
        relations.push(rule.relation.clone()?)?;
    }
    Ok(relations)
}
