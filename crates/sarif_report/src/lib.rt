//! The outcome of a check as a SARIF 2.1.0 log, for tools that show results next to the files that they concern.
//!
//! Promises: the text of a log is JSON in the layout of `serde_json`, and a line feed. The tokens of the JSON are those of one value, each
//! once and in order, so each text of the finding is one string, with its characters escaped as JSON escapes them. A file is referred to by
//! its name, in which each byte but letters, digits and five marks is escaped, from the root of the run unless the name is absolute. The log
//! of a run with a finding has it as its one result, with the rule and the place of the result; another log has none.
//!
//! No clause says that a finding is that of the check, nor from where a file is named. The crate has the JSON of a log, the references of
//! files, and what each cause demands. It knows no check: `check_result` passes it a `Finding` with the rule, the message and the place, and
//! the records before that (`sarif.rt`), names the files from their root (`source_root.rt`), and writes the log. The check has its answer
//! before. The log decides nothing.
#![tactic(auto)]

mod cause;
mod finding;
mod log;
mod uri;

pub use cause::{help_of_cause, name_of_cause};
pub use finding::{Earlier, Finding, Location, LoggedRun, ResultRule};
pub use log::log_text;
