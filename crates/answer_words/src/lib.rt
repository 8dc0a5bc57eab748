//! What standard error says of a run: why the answer is not Yes, in words, with the file and the line that they are about; which recordings
//! have no record; and what else a person needs to know of it (`notices.rt`). It is also where the files of a run are found by their names
//! (`folder.rt`), with what is noted if one cannot be opened (`opening.rt`).
//!
//! Promises three things beside that its functions end. The name of a core's file is the one that the command line gives. Of a
//! configuration or a rules file, the bytes that are read configure the same as the whole file, and give the same rules. What is opened in
//! a folder (`Folder`) is the file of the name that is asked for, and a file is reported as refused only if the folder refuses it. The words
//! decide nothing. If memory is refused there are fewer words, and they report that.
#![tactic(auto)]

mod broken;
mod explainer;
mod files;
mod folder;
mod names;
mod notices;
mod opening;
mod reason;
mod recordings;
mod terminal;

pub use broken::note_broken;
pub use explainer::Explainer;
pub use files::{open, open_text};
pub use folder::{Folder, SystemFiles};
pub use names::InputNames;
pub use notices::{
    words_of_awaited, words_of_stored_run, words_of_unwritten_answer, words_of_unwritten_log,
    words_of_unwritten_output,
};
pub use opening::{OpenFault, open_rules, reported};
pub use reason::{Reason, RunFiles, name_of_core};
pub use terminal::Terminal;
