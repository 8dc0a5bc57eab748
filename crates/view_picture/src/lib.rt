//! A stretch of a run as a picture: the records in columns, and what happens to each core, partition, process and object in lanes of bars,
//! marks and arrows.
//!
//! Promises that its functions end, and that a picture counts its records. If memory is refused, a function returns `AllocError`; it never
//! shortens or omits a text instead. Nothing here judges, and nothing says how a picture is written.
//!
//! # What a picture says
//!
//! What a picture says: the subjects of its lanes, their labels, the labels and words of records, and the looks and texts of bars.
//!
//! Promises that its functions end. If memory is refused, a function returns `AllocError`; it never shortens or omits a text instead.
//! Nothing here judges, and nothing says where in a picture a text is.
#![tactic(auto)]

mod arrow;
mod bars;
mod changes;
mod column;
mod labels;
mod lane;
mod lane_key;
mod look;
mod marks;
mod picture;
mod process_bars;
mod role;
mod saying;
mod thing_bars;
mod touched;

pub use arrow::{Arrow, ArrowEnd, ArrowKind};
pub use bars::{Bar, Bars};
pub use column::{Column, Source, Status};
pub use labels::{
    ShortOccupant, add_words, label_of, label_of_lane, process_name, quoted, words_of,
};
pub use lane::{Lane, Mark, MarkKind};
pub use lane_key::LaneKey;
pub use look::Look;
pub use picture::{Added, Picture};
pub use process_bars::{
    Hold, mode_saying, occupant_saying, process_saying, verb_of, window_saying,
};
pub use saying::Saying;
pub use thing_bars::{KeyName, thing_saying};
