//! The order certificate, row by row, and the keeper of the order that it proposes.
//!
//! Promises: the n-th answer of a source is the n-th row of the certificate's text, or why it is not a pair. A keeper takes a pair exactly
//! if the pairs so far and this one begin a lawful order, and returns its place. At the end it says whether the pairs are a lawful order of
//! recordings of the given lengths.
//!
//! The keeper says of each pair whether it may come next. It holds no recording: the lengths are given to it at the end.
#![tactic(auto)]

mod fault;
mod keeper;
mod laws;
mod pair;
mod source;

pub use fault::{CertFault, OrderFault};
pub use keeper::Keeper;
pub use laws::faults_are_of_rows;
pub use source::CertSource;
