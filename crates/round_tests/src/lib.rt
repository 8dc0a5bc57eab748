//! What no clause says about a round and its parts: that workers claim pieces at the same time, what a board of workers gives back, which
//! views break rules, and what a piece shows of a refusal.
//!
//! The tests promise nothing. They are not in the crates that they test, so that those are proved once. The tests of whole checks are in
//! `crate_tests`.
//!
//! The tests go by public calls.
//!
//! # The runs
//!
//! The runs that tests of several crates read: their configurations, recordings and certificates, with the records at their places; a
//! gate at which claims of workers wait for one another; and rules by their relations.
//!
//! Promises: the records of recordings are at their places and of their cores, and a configuration has the cores that are asked for.
#![tactic(auto)]

#[cfg(test)]
mod evidence;
mod gates;
mod records;
#[cfg(test)]
mod relations;
mod ruled;
mod texts;
#[cfg(test)]
mod workers;

pub use gates::{Meeting, reaches};
pub use records::{config_of, records_of};
pub use texts::{
    BOTH, CONFIG, MISSED, MODULE, ORDER, RECEIVER, RECORDING, SENDER, asking, in_turn,
};
