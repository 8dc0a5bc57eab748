//! The pieces that judge a recording side by side: the module, each partition, and each channel.
//!
//! Promises:
//!
//! - A piece starts with its part of the cold state. Its step accepts a record exactly if all its demands on the record hold, and its part
//!   is then the part after the record. Otherwise the step reports the cause of the first demand that fails, and nothing is changed.
//! - A step takes memory only at a call, an arrival, a departure and an error. After memory was refused, every later step reports it.
//! - Before a step, the piece that judges the record gives the view of it that a user's relation sees, and no other piece does.
//! - After a refusal, the evidence of the demand that fails is what the definitions give there.
//! - For the records of a round, `Touched` lists for each piece exactly the records that touch it.
//!
//! The number of a piece gives its subject (`subject_of`), and the subject gives the records that touch the piece. The module's piece holds
//! the clocks. A partition's piece holds the clocks and a `PartitionState`. It judges windows, deadlines, the choice, what is due, the ticks
//! and the errors. For a call of its own process it judges what comes before the outcome, with the error conditions and the profile; if a
//! condition holds, it also judges the outcome. If none holds, the state judges the outcome of a call through no channel; for a call through
//! a channel, the piece judges what the partition can see. A channel's piece holds the times and a `Channel`, which judges the outcome of the
//! calls through it. A process leaves the channel when a tick, a STOP or a restart ends its wait.
//!
//! A step requires that the part is one that records of smaller places have left (`HoldsBefore`), and that what was given for a channel
//! is what the configuration says of it (`IsOf`). It leaves both true. Before its step a piece may pass a record by (`Piece::pass_by`):
//! a channel passes by a tick that ends no wait, because it demands nothing of that tick. `Piece::judge` returns what `Piece::step`
//! would, changes and copies nothing and takes no memory; both go by the same functions. The module's step is the judgement, and then
//! the change. One function judges all of an own call but what its service gives (`judge_before_service`). That claim is judged by the
//! object's `answer`: for a judgement in `PartitionState::judge`, and in a step where the object changes.
//!
//! A piece shows what it holds (`Piece::seen`). `Piece::evidence` has a variant for each kind of demand, such as the choice and the
//! occupant, the pending outcome, or what the call gives. It is worked out from the piece as the refusal left it, so a record that is
//! accepted costs nothing. `misnamed_at_tick`, `may_wake`, `misnamed_by` and `is_ready` say of one process what a list of processes rests
//! on (`misnaming.rt`).
//!
//! A partition gives views of its own calls and returns, the module of all other records, and a channel of nothing. A view takes no
//! memory; it is requested only if rules are given. `Touched` is made anew for each round, in one pass, and its lists keep their memory. A
//! call goes to the module, its caller's partition, the partitions that it names and the channel that it claims. An arrival and a departure
//! go to the module, the partitions that they name and their channel. A return and an error go to the module and their partition, and a
//! dispatch goes to the module and all partitions. A tick goes to all, so its index is kept once for all pieces, and a piece goes over the
//! ticks and its own list as one (`Indices`). For a STOP that is done, and for a call or an error that restarts a partition, all pieces are
//! looked at, because such a record may touch channels that it does not name.
//!
//! `Windows` looks up the window of each record's core once for all pieces that judge the record (`Piece::step_at`). A piece takes such a
//! window only if it is of the core and of the core's present time, and looks it up otherwise. So which windows are there changes no answer.
#![tactic(auto)]

mod arguments;
mod channel_piece;
mod conditions;
mod evidence;
mod fault;
mod held;
mod lists;
mod misnaming;
mod module_piece;
mod names;
mod outcome;
mod partition_piece;
mod piece;
mod profile;
mod seen;
mod subject;
mod touched;
mod views;
mod waking;
mod windows;

pub use evidence::Evidence;
pub use fault::PieceFault;
pub use misnaming::{Misnaming, is_ready, misnamed_by};
pub use piece::Piece;
pub use seen::Seen;
pub use subject::{Subject, count, subject_of, touches};
pub use touched::{Indices, Touched};
pub use windows::{WindowAt, Windows};
