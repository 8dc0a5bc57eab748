//! What the command line of `apexcheck` requests.
//!
//! Promises: no word requests the stored run, `--version` alone the version, `--rows` the rows of the recordings that the other words name,
//! and other words a run over files, for which each file, option and setting is what the parser of command lines finds in the words. Words
//! are refused only if the parser does not take them, if a file that a run needs is not named, if an option has a value that it cannot
//! have, or if no recording follows `--rows`.
//!
//! The options are a definition (`CommandLine.antt`), and so is what they request (`Words.antt`). Workers and depth are passed on as they
//! are given; the check refuses what is out of range.
#![tactic(auto)]

mod settings;
mod usage;
mod words;

pub use settings::USUAL_DEPTH;
pub use usage::{Asked, FilesAsked};
pub use words::request_of;
