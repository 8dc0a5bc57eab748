//! Recordings of a configured module that a seed decides, each with the line that a check of it must print.
//!
//! Promises: what is made is judged by the check. The line is the report of the answer that a check of exactly these texts has under no
//! rules, whatever its settings: Yes for as many records as were asked for, so that they are a run of the configured machine; or, if a
//! cause was asked for, No for this cause. The recordings are in the format that was asked for. What has another answer is not given out,
//! nor is a No at another place than that of the record that was spoilt. No proof rests on how a record is chosen.
#![tactic(auto)]

mod checking;
mod fault;
mod formats;
mod kept;
mod laws;
mod made;

pub use fault::MakeFault;
pub use laws::made_is_the_outcome;
pub use made::{MadeRun, make};
pub use recording_walk::WalkPlan;
