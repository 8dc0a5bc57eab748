//! An order of the records of several cores, put together record by record, and judged as it grows.
//!
//! Promises: the rows that it writes are a prefix of a lawful order, and list the first records of each core, whatever it answers; where it
//! answers a proposal, they list every record of every core. Where an order was found, the records in it are a run of the configured
//! machine from the cold state. Where none was found, the records before the place that is reported are such a run, and the machine has no
//! step that takes the record put there. Rules decide nothing of the order; the first that is broken is reported with its place. `check`
//! answers the same to these recordings with this certificate under the same memories and rules: the broken rule, or else Yes or No.
//!
//! A guide says which core's record is put next. Nothing of this rests on what it says: up to the first record that is refused, each is
//! judged by the pieces before its row is written. What follows is written unjudged, so that the certificate lists every record.
#![tactic(auto)]

mod base;
mod guide;
mod lane;
mod lanes;
mod proposal;
mod propose;
mod rows;
mod run;

pub use guide::Guide;
pub use lanes::Lanes;
pub use proposal::{BrokenRule, Proposal, ProposalFault};
pub use propose::propose_by;
