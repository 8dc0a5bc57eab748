//! The recordings of all cores, each read by a thread of its own, in parallel with the use of its records.
//!
//! Promises:
//!
//! - The answers for a core are the answers of a source of its recording, one after another. None is skipped, repeated or given for
//!   another core, and the end is reported only after the last record. This is known once the threads are joined, so `close` promises
//!   it. Before that, each call promises what it adds to the answers of which core.
//! - The thread itself reports the end: an empty channel is never taken for it. A failed read is reported only for a reader that can
//!   fail, and never because the intake is closed.
//!
//! Not promised: that every thread makes progress. A reader that blocks in its own read holds up `next_of`, `next_into` and `close`. A record is
//! sent with its batch, once the batch is full or the recording ends.
//!
//! A thread reads rows by `RowSource`, gathers them in batches (as many rows as the depth, at most 256) and sends them through a bounded
//! channel. The last batch carries the end or the fault. The room of a used batch goes back through a second channel, and the thread fills
//! it again (`room.rt`). The channel's rule is that what was sent is what was received, followed by what the channel holds. `next_of` gives
//! row by row out of the batch at hand, and waits if none is left; `next_into` moves each record into the caller's list at once.
//!
//! Before each row the thread looks at a stop flag. So does each read of the reader (`Stoppable`), which fails if the flag says to stop,
//! and remembers that it gave up. So an endless row or an endless run of empty lines blocks nobody, and nothing that a stopped thread has
//! read is sent. A send waits for room in the channel, and returns if nobody receives any more.
//!
//! `close` sets the flags, gives up the receiving ends and joins the threads. Each join says that the thread sent answers of a source of
//! its reader, so what was answered for each core is a beginning of them. An `Intake` can be given up only by `close`: it is not `Drop`.
#![tactic(auto)]

mod batch;
mod channel;
mod cut;
mod fault;
mod feed;
mod hand;
mod intake;
mod lane;
mod room;
mod rule;
mod stoppable;

pub use fault::IntakeFault;
pub use intake::Intake;
