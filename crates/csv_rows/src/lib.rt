//! The rows of a text of comma-separated values, one at a time, and the canonical decimals that their fields hold.
//!
//! Promises: each row given is the next of those that `csv` reads from the text. No row is skipped, and the end is reported only after the
//! last one. A number is read exactly if the field is its one canonical decimal.
//!
//! A plain line, which has no quote and no carriage return, is split at its commas here. The first other line and everything after it are
//! left to `csv`.
//!
//! The carriage return that ends a line does not count. `Ahead`, `cut_front` and `RowFields` split a plain line, whose end and whose commas
//! are found in one pass over its bytes, and `Text` leaves the rest to `csv`. That the split of a plain line is what `csv` reads of it is
//! proved over the definition of `csv` itself (`proofs/Plain.antt`). The law of a stream of rows is proved here once, for recordings and
//! certificates.
//!
//! `CsvRows::place` counts the bytes that the rows so far have taken. No clause speaks of it, because none of `csv` does.
#![tactic(auto)]

mod ahead;
mod cut;
mod decimal;
mod fields;
mod front;
mod numbered;
mod source_reader;
mod stream;
mod text;
mod text_source;
mod watched;

pub use decimal::{read_decimal, read_signed};
pub use fields::RowFields;
pub use stream::{CsvRows, StreamFault};
pub use text_source::TextSource;
pub use watched::Watched;
