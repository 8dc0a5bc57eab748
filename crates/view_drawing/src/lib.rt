//! A run as it is shown: a stretch of it as a picture, the whole run as a trace, or its figures.
//!
//! Promises: the end is the answer of a check of what is ahead of the placer, or that the output could not be written, or that memory was
//! refused. No clause says what a picture or a trace shows, or which figures are written; what is shown decides nothing.
#![tactic(auto)]

mod counted;
mod page;
mod picture_witness;
mod traced;
mod viewing;

pub use view_trace::Axis;
pub use viewing::{Format, ViewAsked};
