//! The rules that a user asks for: those of the options of a command line, followed by those of a rules file.
//!
//! Promises: the rules of a file are those that its text says, or the refusal is the one at which the walk over the text stops. The
//! relations say what the options request in their order, and then what the rules of the file say in theirs. A rule's number is its place
//! in this list.
//!
//! # The rules of options
//!
//! The rules that a command line asks for by options of their own, `--max-elapsed` and `--forbid`.
//!
//! Promises: the values of the options are read exactly if their texts are such values. The given options are in the order in which
//! their rules are numbered. Exactly the views that keep to an option meet its relation.
//!
//! `RuleOptions` holds the values that the texts give, `in_order` numbers them, and `relations_of` makes their relations. Each option is
//! defined by the views that keep to it. The names of services are those of `record_read`. The program and `case_runner` share this crate.
//!
//! ```text
//! let given = RuleOptions::read(Some(b"4"), Some(b"SIGNAL_SEMAPHORE"));
//! let options = given.ok_or(Usage)?.in_order(alloc)?;    // rule 0 is `--max-elapsed 4`, rule 1 `--forbid SIGNAL_SEMAPHORE`
//! let relations = relations_of(alloc, &options)?;        // for a check of recordings
//! ```
//!
//! # The rules of a file
//!
//! Named memories and named rules over the views of records, read from a TOML text.
//!
//! Promises: apart from a lack of memory, the memories and the rules are exactly those that the text gives, in its order, each with its
//! name and relations that hold for exactly the views for which the text says so; or the refusal is the first of the text. A relation names
//! only memories above it. No text exhausts the stack: a relation has at most 16 levels, and a list of relations has at most 64 of them.
//!
//! A definition states what a text says: the name of each memory and of each rule, what is kept, and the views that are meant (`rules_of`).
//! `read_explained` gives a refusal the key at which the walk over the text stops (`walk_of`). Contracts see a relation of code as the
//! views that meet it. If memory runs out, the walk goes on without building, so a refusal does not depend on memory. Kinds, services and
//! outcomes are found by the names that `record_read` knows. The program reads the file of `--rules` with this crate.
#![tactic(auto)]

mod asking;
mod fault;
mod field;
mod given;
mod keys;
mod memory;
mod option;
mod refusal;
mod relation;
mod rule;
mod rules_file;
mod side;
mod text;

pub use asking::{all_relations, read_rules};
pub use fault::{RuleFault, RulesFault};
pub use field::FIELD_NAMES;
pub use given::RuleOptions;
pub use option::{RuleOption, relations_of};
pub use refusal::{RuleKey, RulesRefusal};
pub use rule::NamedRule;
pub use rules_file::RulesFile;
pub use text::{read, read_explained};
