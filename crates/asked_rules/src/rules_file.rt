// What a rules file has.

use crate::rule::NamedRule;
use user_rules::RuleMemory;

/// The memories and the rules of a rules file, each in their order.
#[derive(Debug, Drop)]
pub struct RulesFile {
    pub memories: Vec<RuleMemory>,
    pub rules: Vec<NamedRule>,
}
