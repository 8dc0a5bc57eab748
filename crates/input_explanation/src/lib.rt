//! A refused row in words, for the person who reads it: of a recording, of the certificate, or an order; what was found, what was expected,
//! and what a file looks like that was named in place of another.
//!
//! Promises only that its functions end and take no memory except for their texts: it decides nothing.
//!
//! It reads the text again to find the row. Rows that are whole plain lines are passed by their line ends (`lines.rt`). From the first that
//! is not, or the one before the row that is looked for, rows are found by the reader that read them (`CsvRows`), while a second walk over
//! the text counts the lines. The faulty field of a row is the one that `read_record_explained` reports.
//!
//! The check has its answer before words are made, and no clause speaks of them. The functions have no contracts, and are proved only to
//! end and to meet no fault.
#![tactic(auto)]

mod foreign;
mod found_row;
mod likeness;
mod lines;
mod refusals;
mod rows;

pub use foreign::{Compression, Foreign, LONGEST_SIGNATURE, tell_foreign};
pub use found_row::{FoundRow, TwoReaders, find_lines, find_row, find_rows};
pub use refusals::{tell_certificate, tell_order};
pub use rows::{Row, tell_row_fault};
