//! How things are put into words, for the person who reads an answer: texts that grow up to a bound, the names of what a module has,
//! records and requests, the place in the specification of a service's rule, and the name that a misspelt word probably means.
//!
//! Promises only that its functions end and take no memory except for their texts. A text has at most about 16 KiB. If memory is refused,
//! or the text is too long, nothing more is added; whether memory was refused is kept (`Words::lacks_memory`).
//!
//! `Words` is such a text. The crate depends on the plain types and the definitions alone. It decides nothing: the check has its answer
//! before words are made, and no clause speaks of them. Its functions have no contracts, and are proved only to end and to meet no fault.
//!
//! # What the programs say of themselves
//!
//! What the programs say of themselves: their options, their short help, why a command line is refused, and where their documents are.
//!
//! Promises only that its functions end and take no memory except for their texts. It decides nothing: a program's own parser decides
//! whether the words of its command line are accepted. If they are refused, they are read again here, by a table of the program's options
//! (`ProgramOption`), to find out why. If memory is refused, less is said.
//!
//! The functions have no contracts, and are proved only to end and to meet no fault.
#![tactic(auto)]

mod command_line;
mod complaint;
mod documents;
mod naming;
mod options;
mod program;
mod refused;
mod request;
mod rules;
mod said;
mod short_help;
mod spelling;
mod words;

pub use documents::Documents;
pub use naming::{
    Ascii, Bytes, Count, Found, Numbered, Occupant, Set, ThereAre, code_name, kind_name, out_name,
};
pub use options::{Bounds, Need, ProgramOption, Takes};
pub use program::Program;
pub use refused::{Refusal, tell_usage};
pub use rules::{answer_rule, conditions_rule};
pub use said::{tell_further, tell_message, tell_processes, tell_record, tell_value};
pub use short_help::{HelpText, help};
pub use spelling::nearest;
pub use words::{Look, Part, Shown, Words};
