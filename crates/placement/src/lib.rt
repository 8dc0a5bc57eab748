//! The records of all cores at their places, in the order that a certificate proposes, one by one or a round at a time.
//!
//! Promises:
//!
//! - The records, and how the input ends after them, are what the certificate and the recordings say. A reader that fails ends its own
//!   text early, and nothing else.
//! - A fault that ends the input is its first: everything before its place is good.
//! - Each recording is read by a thread of its own, so this is known once the threads are joined. Each call promises it on the condition
//!   that the answers for every core are honest, and `close` promises that they are.
//!
//! `Placer` takes the next pair from the certificate and its place from the keeper, has the intake put the next record of that core into
//! the round, and fills it so. What is left of a core's recording is its items without those that were answered, one for each record
//! (`left_after_all`); after a fault nothing is known of it.
//!
//! An intake promises only at its end that its answers are those of the recordings. Therefore `next_into` and `fill` say what they returned on
//! one condition: that all answers so far are honest (`AreHonest`). On that condition they also say that all answers before the call were
//! honest. `close` joins the threads, and promises that the condition holds. So a caller that closes a placer knows what each call
//! returned. A fault of the input (`InputFault`) is kept apart from a refusal of memory (`PlacingFault`), which says nothing about the
//! input.
#![tactic(auto)]

mod fault;
mod laws;
mod placer;

pub use fault::{InputFault, PlacingFault};
pub use laws::{first_fault_is_refused, refused_at_the_first_fault};
pub use placer::{Filled, Placer};
