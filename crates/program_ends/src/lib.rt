//! How a run of a program ends: its text and its exit status; and how far it has come until then.
//!
//! Promises: an end has the text and the exit status that the definitions give it. A text that is reported as written went out whole; if it
//! is not, its first bytes went out and no others, and the sink failed. A lack of memory is an end like that of a check, and takes no
//! memory.
//!
//! An `Ending` is what kept the run from what was requested, which is the same for all programs, or an end of the program's own (`OwnEnd`):
//! an answer, for example, or its version. A program gives the exit status and the text of its own ends, and says by which of them it
//! refuses an input. `Line` is the text of an end as one line. A `ProgressLine` shows a person on a terminal how far a run has come; it
//! decides nothing.
#![tactic(auto)]

mod ending;
mod line;
mod progress;
mod refused;
mod text;

pub use ending::{Ending, OwnEnd, UNWRITTEN, status_of};
pub use line::Line;
pub use progress::ProgressLine;
pub use refused::{UsageFault, out_of_memory, refused_rules, refused_words};
pub use text::write_text;
