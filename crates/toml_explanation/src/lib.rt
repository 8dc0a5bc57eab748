//! What is said of the TOML texts of a user: a configuration and a rules file in words, for the person who wrote them.
//!
//! # Configurations
//!
//! A configuration in words, for the person who wrote it: why it is refused, which of its keys are unknown, and what may be a mistake although
//! it is accepted.
//!
//! Promises only that its functions end and take no memory except for their texts: it decides nothing.
//!
//! It reads the text again. The key at which the configuration is refused is the one that `Config::read_explained` reports. `Written` is the
//! configuration as its text has it: the values of its keys, and their lines. Faults of the whole are in `whole.rt`, unknown keys in
//! `unknown_keys.rt`, likely mistakes in `warnings.rt`, and a wrong number of recordings in `recording_count.rt`.
//!
//! The check has its answer before words are made, and no clause speaks of them. The functions have no contracts, and are proved only to
//! end and to meet no fault.
//!
//! # Rules files
//!
//! A refused rules file in words, for the person who wrote it: the rule and its line, what was found and what was expected.
//!
//! Promises only that its functions end and take no memory except for their texts: it decides nothing.
//!
//! It reads the text again. `culprit_of` walks over it in the order of the reader, and finds what the reader refuses (`refused_rules.rt`);
//! `tell_rules` puts it into words (`rules.rt`).
//!
//! The program has its answer before words are made, and no clause speaks of them. The functions have no contracts, and are proved only to
//! end and to meet no fault.
//!
//! # Lines
//!
//! The lines on which a TOML text has its keys, its tables and its faults, for words that show a person where something is.
//!
//! Promises only that its functions end. A line that is found is that of the key or the table; what the text writes in a way that is not
//! followed here has no line. It decides nothing, and no clause speaks of it.
//!
//! The reader of TOML keeps no lines. So `Located` walks over the text once more, piece by piece (`toml_pieces.rt`): over headers, keys with
//! their values, and the items of lists. The text must be one that has been read as TOML.
#![tactic(auto)]

mod configuration;
mod key_lines;
mod recording_count;
mod refused_rules;
mod rules;
mod toml_pieces;
mod unknown_keys;
mod warnings;
mod whole;
mod written;

pub use configuration::tell_configuration;
pub use key_lines::{Items, Located, Position, say_line};
pub use recording_count::tell_recording_count;
pub use rules::{RefusedRules, tell_rules};
pub use unknown_keys::tell_unknown_keys;
pub use warnings::tell_warnings;
