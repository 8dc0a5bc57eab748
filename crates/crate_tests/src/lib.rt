//! What no clause says about whole checks: what happens if readers and writers fail in mid-stream, that workers and readers work at the
//! same time, what a check leaves of the last records, and the verdict at once.
//!
//! Promises nothing: the crate contains only tests. The tests are not in the crates that they test, so that those are proved once. The
//! tests of rounds, of the intake and of single parts are in crates of their own; whole recordings are the data of `case_runner`.
//!
//! The tests go by public calls. No crate has tests but this one, `part_tests`, `intake_tests` and `round_tests`.
#![tactic(auto)]

#[cfg(test)]
mod memory;
#[cfg(test)]
mod readers;
#[cfg(test)]
mod threads;
#[cfg(test)]
mod verdicts;
#[cfg(test)]
mod writers;
