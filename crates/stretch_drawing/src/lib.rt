//! A stretch of a run as a picture, with the rows of its records and the figures of those that were accepted.
//!
//! Promises safety alone: no clause of `draw_stretch` says what it draws. Inside, the records that were accepted are drawn in their order,
//! each from the pieces that the run has reached before it, by the contracts of the functions that it calls; tests compare what is shown.
#![tactic(auto)]

mod drawing;
mod rows;

pub use drawing::{Drawn, draw_stretch};
