//! The records of a core's recording, read row by row.
//!
//! Promises: the n-th answer of a source is the record that the n-th row of the text is by the row grammar, or the first fault of that row
//! from left to right. The end is reported only after the last row. The grammar is a relation between rows and records (`IsRow`), by the
//! recording's format, which its first row gives; a row is read as a record exactly if the relation holds. A row that is not a record is
//! refused with the fault of its first faulty field (`IsFirstFault`), and `read_record_explained` also reports that field (`IsMisread`).
//!
//! The crate has the formats of recordings, the grammar of a row, the reader's steps with all their faults, and the source, which keeps the
//! format and returns one record for each call. A step that finds a fault reports it with the column of the faulty field (`Misread`). The
//! source drops the column, and `read_record_explained` returns it for the explanation.
#![tactic(auto)]

mod call;
mod column;
mod crossing;
mod dispatch;
mod error;
mod fault;
mod field;
mod format;
mod kind;
mod laws;
mod misread;
mod named;
mod payload;
mod quiet;
mod request;
mod ret;
mod row;
mod source;
mod woken;

pub use column::{COLUMNS, Column};
pub use fault::RowFault;
pub use field::text;
pub use format::format_by;
pub use kind::Kind;
pub use laws::{
    faults_are_of_rows, first_faults_decide, one_record_of_a_row, rows_are_the_grammar,
};
pub use misread::Misread;
pub use named::{find_kind, find_out, find_service};
pub use row::read_record_explained;
pub use source::RowSource;
