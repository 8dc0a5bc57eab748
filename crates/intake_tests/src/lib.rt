//! What no clause says about the intake of recordings: that several cores are read at the same time, how far each reads ahead of what is
//! answered, that a failed read comes after the rows before it, and where records are placed in ample memory; the faulty fields of rows,
//! with the record of a sound one; and what is found in recordings alone.
//!
//! Promises nothing: the crate contains only tests.
//!
//! The tests go by public calls. `crate_tests` lists the other crates that have tests.
#![tactic(auto)]

#[cfg(test)]
mod alone;
#[cfg(test)]
mod intake_readers;
#[cfg(test)]
mod intakes;
#[cfg(test)]
mod misreads;
#[cfg(test)]
mod placing;
