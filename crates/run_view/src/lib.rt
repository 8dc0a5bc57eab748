//! What a run does, record by record, for a picture of it: who has each core, which state each process is in, what each object and each
//! channel holds, and who waits there.
//!
//! Promises: what is reported of a core, a process, an object or a channel is what its piece holds, as far as a picture shows it. A look
//! reports every difference between what was seen of the pieces before and what is seen of them now, and nothing else. No clause says which
//! record sent a message. Nothing here judges: the pieces accept or reject a record.
#![tactic(auto)]

mod among;
mod change;
mod cores;
mod last_seen;
mod lawful;
mod message_links;
mod process;
mod seen_core;
mod seen_object;
mod seen_process;
mod thing;
mod waiter;

pub use change::Change;
pub use cores::{CoreView, core_view};
pub use last_seen::LastSeen;
pub use lawful::{Lawful, lawful_of};
pub use message_links::{Followed, MessageLinks, Received, Sent};
pub use process::{ProcessState, ProcessView, process_view};
pub use thing::{Contents, ThingKey, ThingView, channel_view, thing_view, view_of};
pub use waiter::{Waiter, waiters_of};
