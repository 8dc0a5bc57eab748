//! The figures of a run as text and as JSON.
//!
//! Promises: safety alone. No clause says which figures are written, or in which words. Nothing here decides anything.
//!
//! Both list the cores with their windows, the processes with their services, the objects and the channels, each in the order of their
//! numbers. Of a channel only those that a record uses are listed, and of a process only the services that it calls.
#![tactic(auto)]

mod fault;
mod json_text;
mod object;
mod process_text;
mod subjects;
mod text;
mod thing_text;

pub use fault::NumbersFault;
pub use json_text::write_json;
pub use text::{text_of, write_text};
