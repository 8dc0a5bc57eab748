//! The waiting sets of a partition's objects, and what all objects share.
//!
//! Promises: contracts see a waiting set as its discipline and its entries in the order of their places. No process has two entries in it,
//! and its first is the one that the definitions choose. The cost of entering, of leaving and of finding the first is logarithmic in the
//! size of the set. Only entering takes memory; if that is refused, the entry comes back whole and nothing has changed. An operation on an
//! object is accepted exactly if the claim is what the operation gives its caller; else the cause is that of the first demand that fails,
//! and nothing has changed. The error conditions that hold are judged before that, and `Conditions` keeps them in order.
//!
//! - A `WaitSet` keeps its entries by place, by process and by rank. In the order by process, the entries of one partition are together, so
//!   a partition leaves at a logarithmic cost for each of its own processes (`leave_all`).
//! - The operations of an `ApexObject` are the requests for it. `apply` judges what a call claims against what the operation gives, and
//!   carries the operation out if the two agree. The ghost member `needs` says what an operation requires of its caller and of the object;
//!   only ACQUIRE_MUTEX requires something.
//! - An accepted operation gives an `Effect`: whether its caller waits, and who owns the object before and after (`Owners`). The ghost
//!   member `owners` fixes these owners; only a mutex has an owner.
//! - `Given` is what an operation gives its caller: the outcome, up to three values, the message, and whose waits end (`Ended`: one
//!   process's, or those of all or of the first in a set). It judges a claim, and the explanation prints it. Services of processes and services that report a status have
//!   one too. `judge_value` judges the claim of a creation, which may give any new number; `judge_outcome` judges a claim that must give
//!   nothing beside its outcome.
//! - `Conditions` serves ports, pieces and the explanation.
//!
//! # Queues of messages
//!
//! Queues of messages, with senders and receivers that wait: what buffers and queuing channels have in common.
//!
//! Promises: contracts see a queue as its capacity, its messages, and its two waiting sets, each with a discipline of its own. The queue
//! answers what a send, a receive and a clear give their callers, and what a message from or to the outside gives. Carried out by a claim
//! that is that answer, they leave the queue that the definitions' rule leaves, including both waiting sets. If memory is refused, nothing
//! has changed. Memory for the places of the messages is taken once, when the queue is made. A message is copied once, when the queue holds
//! it or its sender waits with it; the message of a sender that moves up is not copied again.
//!
//! Each of them is judged against what the rule gives, and carried out if the two agree.
//!
//! A queue requires neither a partition nor a name:
//!
//! ```text
//! let mut queue = MessageQueue::new(alloc, 1, Discipline::Fifo, Discipline::Priority)?;
//!
//! // Process 1 fills the one place that there is, and process 2 waits.
//! queue.answer_to_send(-1).judge(&done)?;
//! queue.send(first, &message, -1, &done)?;
//! queue.answer_to_send(-1).judge(&waits)?;
//! queue.send(second, &other, -1, &waits)?;
//!
//! // A receive gives the oldest message, and wakes process 2, whose message moves up.
//! queue.answer_to_receive(0).judge(&gives_message);     // Err(Cause::Woken)
//! queue.answer_to_receive(0).judge(&gives_message_and_wakes_second)?;
//! queue.receive(third, 0, &gives_message_and_wakes_second)?;
//! ```
#![tactic(auto)]

mod conditions;
mod ended;
mod given;
mod laws;
mod named;
mod object;
mod queue;
mod rank;
mod set;
mod value;

pub use conditions::Conditions;
pub use ended::Ended;
pub use given::{Given, has_no_values, judge_outcome, judge_value};
pub use laws::{enters_last, rising_is_list_of_waiters};
pub use object::{Actor, ApexObject, Effect, Named, ObjFault, Owners};
pub use queue::MessageQueue;
pub use set::{Refused, WaitSet};
pub use value::GivenValue;
