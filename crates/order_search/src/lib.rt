//! A search for one order of the records of several cores. It knows no service and no rule: it asks the machine at its tip (`Tip`)
//! what a core's next record is like.
//!
//! Promises: it proposes, one after another, the records that the machine took and never gave back; each try counts, it tries at most so many
//! records for each record placed, and it says that the effort is used only if as many were tried. It does not promise to find an order, or
//! that an order is whole if it says so.
//!
//! # The pieces at the tip
//!
//! The pieces of a module at the tip of a search for an order, and what a search asks of them.
//!
//! A search takes records and takes them back, so the machine here can be copied, and checkpoints keep copies of it. `Thing` is what a
//! record touches, and what the pieces look at when one rejects it.
//!
//! Promises: its functions end. What they say decides how often an order is found, and nothing else.
#![tactic(auto)]

mod blaming;
mod budget;
mod checkpoints;
mod choice;
mod end;
mod held;
mod longest;
mod pieces;
mod placed;
mod reach;
mod rivals;
mod search;
mod swap;
mod things;
mod tip;
mod tip_piece;
mod tip_state;
mod touches;
mod tree;

pub use blaming::blame;
pub use budget::Effort;
pub use checkpoints::{Checkpoint, Checkpoints};
pub use end::{End, Step};
pub use pieces::{Pieces, Rejection};
pub use reach::{Reach, is_free, is_tick, reaches, touched};
pub use rivals::rivals_of;
pub use search::{Limits, Search};
pub use things::Thing;
pub use tip::{Answer, Rivals, Tip};
pub use tip_state::TipState;
