// Refusals with the key at which the walk over a text stops.

ghost use Rattle.std.specs.Prelude.{◌≡◌};
ghost use Rattle.asked_rules.specs.Keys.{at, nowhere};
ghost use Rattle.asked_rules.specs.Reading.{keyless};

use crate::fault::{RuleFault, RulesFault};
use std::fmt;

/// A key of a rules file.
#[derive(Clone, Copy, Debug, PartialEq, Eq)]
pub enum RuleKey {
    Rule,
    Name,
    Holds,
    Field,
    /// That of `less`, `equal` and `greater` which a comparison has.
    Number,
    /// The list of memories, or the memory that is compared.
    Memory,
    /// That of `since`, `count` and `last` which a memory has.
    Keeps,
    Take,
    Per,
}

/// The key in quotes, as it is written in a rules file.
impl fmt::Display for RuleKey {
    fn fmt<W: fmt::Write>(&self, f: &mut fmt::Formatter<W>) -> fmt::Result {
        match self {
            RuleKey::Rule => write!(f, "'rule'"),
            RuleKey::Name => write!(f, "'name'"),
            RuleKey::Holds => write!(f, "'holds'"),
            RuleKey::Field => write!(f, "'field'"),
            RuleKey::Number => write!(f, "'less', 'equal' or 'greater'"),
            RuleKey::Memory => write!(f, "'memory'"),
            RuleKey::Keeps => write!(f, "'since', 'count' or 'last'"),
            RuleKey::Take => write!(f, "'take'"),
            RuleKey::Per => write!(f, "'per'"),
        }
    }
}

/// Why a memory, a rule, or the text outside them, is refused, and at which key.
#[derive(Clone, Copy, Debug, Drop)]
pub(crate) struct RuleRefusal {
    pub(crate) fault: RuleFault,
    pub(crate) key: Option<RuleKey>,
}

impl RuleRefusal {
    /// A refusal at this key.
    pub(crate) fn at(key: RuleKey, fault: RuleFault) -> RuleRefusal
        ensures { result ≡ at key fault }
    {
        RuleRefusal {
            fault,
            key: Some(key),
        }
    }

    /// A refusal at no key.
    pub(crate) fn nowhere(fault: RuleFault) -> RuleRefusal
        ensures { result ≡ nowhere fault }
    {
        RuleRefusal { fault, key: None }
    }
}

/// Why the rules of a text could not be read, and at which key.
///
/// `key` is the key at which the walk over the text stops: the key that is missing, or the key among `name`, `field`, `memory`, `less`,
/// `equal`, `greater`, `take` and `per` whose value is refused. It is None for every other fault.
#[derive(Clone, Copy, Debug, Drop, PartialEq, Eq)]
pub struct RulesRefusal {
    pub fault: RulesFault,
    pub key: Option<RuleKey>,
}

impl RulesRefusal {
    /// A refusal at no key.
    pub(crate) fn keyless(fault: RulesFault) -> RulesRefusal
        ensures { result ≡ keyless fault }
    {
        RulesRefusal { fault, key: None }
    }
}

/// The refusal in words. A memory or a rule is shown by its number, counted from 0, and by which `[[memory]]` or `[[rule]]` of the file it
/// is, counted from 1.
impl fmt::Display for RulesRefusal {
    fn fmt<W: fmt::Write>(&self, f: &mut fmt::Formatter<W>) -> fmt::Result {
        match self.fault {
            RulesFault::File(fault) => write_fault(f, fault, self.key),
            RulesFault::RuleMemory { memory, fault } => {
                let nth = memory.saturating_add(1);
                write!(f, "memory {memory} ([[memory]] {nth} of the file): ")?;
                write_fault(f, fault, self.key)
            }
            RulesFault::Rule { rule, fault } => {
                let nth = rule.saturating_add(1);
                write!(f, "rule {rule} ([[rule]] {nth} of the file): ")?;
                write_fault(f, fault, self.key)
            }
            RulesFault::Memory => write!(f, "{}", self.fault),
        }
    }
}

// Writes a fault with the key that has it.
fn write_fault<W: fmt::Write>(
    f: &mut fmt::Formatter<W>,
    fault: RuleFault,
    key: Option<RuleKey>,
) -> fmt::Result {
    match (fault, key) {
        (RuleFault::Missing, Some(key)) => write!(f, "the key {key} is missing"),
        (fault, Some(key)) => write!(f, "the key {key}: {fault}"),
        (fault, None) => write!(f, "{fault}"),
    }
}
