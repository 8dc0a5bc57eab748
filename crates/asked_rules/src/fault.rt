// Why a text has no rules.

use thiserror::Error;

/// Why a rule, or a rules file, is refused.
#[derive(Clone, Copy, Debug, Drop, PartialEq, Eq, Error)]
pub enum RuleFault {
    /// The text is not UTF-8 or not TOML.
    #[error("the text is not TOML")]
    NotToml,
    /// There is more of something than is accepted: bytes of text, memories, rules, or relations in one list.
    #[error("a limit is exceeded")]
    TooMany,
    /// A table has a key that does not belong there.
    #[error("a table has a key that is not allowed there")]
    UnknownKey,
    /// A required key is missing.
    #[error("a key is missing")]
    Missing,
    /// The value of a key has the wrong type.
    #[error("a value has the wrong type")]
    WrongType,
    /// The name of a memory or a rule is empty, too long or not printable.
    #[error("a name is empty, too long or not printable")]
    BadName,
    /// No field has this name.
    #[error("no field has this name")]
    UnknownField,
    /// A name means no number in its field.
    #[error("a name is not a value of its field")]
    UnknownName,
    /// No memory above has this name.
    #[error("no memory above has this name")]
    UnknownMemory,
    /// An earlier memory has the same name.
    #[error("an earlier memory has this name")]
    SameName,
    /// A memory keeps values neither for the module nor for each core, partition or process.
    #[error("the value is none of 'module', 'core', 'partition' and 'process'")]
    UnknownHolder,
    /// A list of relations has none.
    #[error("a list of relations is empty")]
    Empty,
    /// A relation has too many levels.
    #[error("a relation is nested too deeply")]
    TooDeep,
}

/// Why the rules of a text could not be read: a fault of the text, or of the memory or the rule of this number, counted from 0.
#[derive(Clone, Copy, Debug, Drop, PartialEq, Eq, Error)]
pub enum RulesFault {
    /// A fault outside the memories and the rules.
    #[error("{0}")]
    File(RuleFault),
    /// A fault of the memory of this number.
    #[error("memory {memory}: {fault}")]
    RuleMemory { memory: usize, fault: RuleFault },
    /// A fault of the rule of this number.
    #[error("rule {rule}: {fault}")]
    Rule { rule: usize, fault: RuleFault },
    /// Memory ran out.
    #[error("out of memory")]
    Memory,
}
