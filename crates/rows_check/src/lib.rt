//! The rows of recordings alone, without a configuration and a certificate.
//!
//! Promises: what is found in a recording is the number of the sound records with which it begins, and the fault of the row after them, or
//! no fault if no row is left. Rows and faults are those by which a check reads the recording, so a recording without a fault here has none
//! in any check.
#![tactic(auto)]

mod found;

pub use found::{RowsFound, find_in, find_in_each, record_count};
