//! The state of one partition: its mode, its processes, and its objects and ports of each kind under their numbers.
//!
//! Promises: contracts see a state as the partition of the definitions. A call, a return and a tick make of it what the definitions make of
//! it. What a call claims is judged once, against what its service gives, and the call is carried out if the two agree. If a call is
//! refused, or memory is refused to it, nothing has changed. The number of a name and the status of an object are reported as the
//! definitions give them, and change nothing. What a call through a channel claims is judged elsewhere, and its processes change here.
//!
//! - `serve` carries out a call for which no error condition holds. It reserves the memory that the call needs, then the object judges the
//!   claim and changes, and then the processes change. `judge` judges the claim of any call that `serve` takes, and changes nothing.
//! - `note` changes the processes for a call that leaves all objects as they are: a call for which a condition holds, or one that goes
//!   through a channel. A read marks its port. `channel_of` says which channel a request goes to.
//! - `number_of` and `status_of` say what is reported of a name and of an object or a port, by its kind (`telling.rt`); `statuses.rt` says
//!   what is reported of processes and of the partition. They judge a call that only reports, and such a call changes its caller alone.
//! - A call or an error that restarts the partition (`restart_of`, `tell`) leaves it as it starts, and takes no memory. An error that the
//!   handler takes is listed, and its process is faulted (`errors.rt`).
//! - `tick` takes each named process out of the one waiting set that its wait names, and ends its wait.
//!
//! Nothing that comes before a call's outcome is judged here. The caller must ensure that the calling process runs, and that the partition
//! is sound and bounded (`IsClear`).
#![tactic(auto)]

mod answers;
mod creating;
mod creations;
mod errors;
mod inquiries;
mod leaving;
mod objects;
mod owners;
mod port_calls;
mod restarting;
mod serving;
mod state;
mod statuses;

pub use restarting::{is_restart, restart_of};
pub use state::PartitionState;
