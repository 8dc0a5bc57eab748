//! How a run of `apexcheck` ends: its text, its exit status, and what is written of it to files.
//!
//! # The end
//!
//! Promises: the text and the exit status of an end are those that the definitions give it. A Yes for fewer records than are required is
//! refused. After the outcome come the last records before the place of a No, if they are requested, and otherwise nothing. The end of a run
//! over rows alone is the number of records, or the lines of their faults. If the text could not be written, the status says so.
//!
//! `CheckEnd` has the ends that only `apexcheck` has. `conclude` writes the text of an end, and returns the status. A lack of memory is an end
//! like that of a check, and takes no memory.
//!
//! # What is written to files
//!
//! Promises: the name that `SourceRoot` gives a file is the part of its absolute name below the folder from which files are named, or the
//! whole name if it is not below (`FileNames.antt`).
//!
//! `write_log` writes the end of a run over files as a SARIF log, which has these names, and `write_answer` as JSON. Both show what explains
//! the end (`Explained`), and read the files of the run again. They decide nothing: no clause says that a log or an answer is that of the
//! check.
#![tactic(auto)]

mod ending;
mod explained;
mod fingerprint;
mod json;
mod last_records;
mod result_rule;
mod rows;
mod rows_text;
mod sarif;
mod sentences;
mod site;
mod source_root;
mod whole_file;

pub use ending::{CheckEnd, VERSION, conclude, end_of_check};
pub use explained::Explained;
pub use json::write_answer;
pub use sarif::write_log;
