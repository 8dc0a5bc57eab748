//! What no clause says about single parts: which rows texts have, which rules options and rules files request, and what happens to waiting
//! sets, to a semaphore and to an event, both in ample memory and if memory is refused.
//!
//! Promises nothing: the crate contains only tests.
//!
//! The tests go by public calls. `crate_tests` lists the other crates that have tests.
//!
//! # The search
//!
//! What no clause says of a search: that it finds an order, which one, and how it ends where there is none. The machine is a toy:
//! one queue, into which cores put numbers, and from which they take them.
//!
//! Promises nothing; the crate is tests alone.
#![tactic(auto)]

#[cfg(test)]
mod options_of_rules;
#[cfg(test)]
mod orders;
#[cfg(test)]
mod queuing;
#[cfg(test)]
mod rows;
#[cfg(test)]
mod texts_of_rules;
#[cfg(test)]
mod toy;
#[cfg(test)]
mod waiting;
