//! Where a report's text goes, piece by piece, although each piece may fail; and markup that a program writes.
//!
//! # Sinks
//!
//! Promises: a text that is reported as written went out whole and met no failure. If it is not, its first bytes went out and no others,
//! and the sink failed at least once more. A program's writer is such a sink.
//!
//! The bytes of a program's writer are those that the writer reports. A write that a signal interrupts is tried again.
//!
//! # Markup
//!
//! Markup that a program writes: its own, and texts, which are escaped.
//!
//! Promises: all markup is the program's own markup and escaped texts, one after another. In markup, each `<` begins a tag whose name is one
//! of a few that the program uses, whatever the texts are. What a sink receives is such markup; if it fails, it has the first bytes of it.
//! If memory is refused, nothing more is added, and nothing of that markup is sent.
#![tactic(auto)]

mod count;
mod escape;
mod laws;
mod markup;
mod output;
mod writer;
mod written;

pub use count::FailureCount;
pub use laws::{escaped_has_no_delimiter, tags_are_own};
pub use markup::{Markup, SendFault};
pub use output::{Sink, SinkFault};
pub use writer::WriterSink;
pub use written::{WriteFault, put_all, put_parts};
