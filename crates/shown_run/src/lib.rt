//! A run that is judged while it is shown: round by round for a picture, record by record for a trace.
//!
//! Promises: the answer of `gather` and of `follow` is that of a check of what is ahead of the placer, under the same memories and rules.
//! What `gather` keeps for a picture are the last records that were accepted, with the pieces that the run has reached before the first of
//! them. `follow` shows a follower each record that is accepted, in order, with the pieces that have taken it. Memory that is refused ends
//! both.
//!
//! # The pieces in between
//!
//! The pieces of a module, which take one record after another, so that they can be looked at in between, or a round of them at once.
//!
//! Each piece that a record touches judges it. The first piece that rejects it, in the order of their numbers, is the one that a check
//! reports. `Rounds` sorts a round out, so that each piece takes only the records that touch it, as in a check. `Recent` keeps the records
//! of the last rounds, with a copy of the pieces from before them, so that they can be taken again.
//!
//! # The files
//!
//! The files of a run that is shown: they are opened, judged by a check, and shown by a viewer.
//!
//! Promises: each file is opened in its role. A run over files ends as the rules file and a check of the opened texts make it end, under the
//! memories of the file and relations that say what the options request and then what the rules of the file say; or one of the files that
//! are named is refused, or the output could not be written, or memory was refused. A viewer decides nothing of that: its end is the answer
//! of the check.
#![tactic(auto)]

mod ending;
mod fault;
mod files;
mod following;
mod gathered;
mod gathering;
mod keeping;
mod recent;
mod round;
mod rounds;
mod run;
mod shown;
mod span;
mod stretch;
mod viewer;
mod walk;
mod witness;

pub use ending::ViewEnd;
pub use fault::FollowFault;
pub use files::{FilesAsked, show_files};
pub use following::{Follower, follow};
pub use gathered::gather;
pub use recent::Recent;
pub use rounds::{Rounds, Taken};
pub use span::Span;
pub use stretch::{Asked, Rejected, Stretch};
pub use viewer::{Shown, Viewer};
pub use walk::{Refusal, Walk, WalkFault};
