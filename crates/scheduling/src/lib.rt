//! How the processes of a partition and the cores of a module are scheduled: what a record sets in processes and clocks, and which process a
//! core is to run.
//!
//! # The processes of a partition
//!
//! The processes of one partition and its mode: what a record sets in them, and which process its core is to run.
//!
//! Promises: contracts see a table as its partition's mode and its processes in the order of their creation, whatever objects and ports the
//! partition has. Each change is the one that the definitions make to every process at once, made in place in the few processes that it
//! touches. The choice is the ready process that no other goes before. If memory is refused, nothing has changed.
//!
//! A table says what a call, a return and a tick set in its processes, who is ready, who falls due, and which of them is the choice. It
//! rejects no record.
//!
//! Beside the processes, the table keeps the ranks of the ready ones, the due times of the waiting ones and the deadlines, each in order
//! (`sorted.rt`, `order.rt`). So the choice takes one look, and so does the question whether a deadline is missed; and a tick costs no more
//! than the processes that it names. In each order the keys of one core are together, and a guess of where they are is kept. A search looks
//! there first, and finds the same whatever the guess is (`guess.rt`).
//!
//! The memory that a call needs is reserved first, as a `Prepared` (`prepare`): for the outcome that becomes due to the caller, and for a
//! message for each process that the call names. After that, `call` takes memory only at CREATE_PROCESS. A mutex's change of owner is
//! passed to the table as a `Transfer`, the change of who is faulted as a `FaultChange`.
//!
//! A process is looked up under its number (`proc`), under the number that a caller gives (`created`, `created_number`), or as the
//! definitions read that number, with 0 for a number below 0 (`numbered`, `waits_for_mutex`).
//!
//! # The cores
//!
//! The clocks of the cores, and the rule by which a core is given to a process.
//!
//! Promises: a clock's times are those that its ticks made, and its occupants those that its dispatches named. A tick is refused exactly if
//! its core would be further ahead of another than the skew allows. The choice of a partition is the ready process that no other goes
//! before, and only in its own windows. Callers that need only times keep `Times`. Nothing here takes memory.
//!
//! The crate has the times, the occupants and the skew of the cores, and the times alone, for channels. It finds the window that a core is
//! in from a guess, which every fourth tick of the core renews. It gives the choice of a core at its present time, and says whether the
//! occupant is that choice.
#![tactic(auto)]

mod caller;
mod clock;
mod deadline;
mod dispatch;
mod fault;
mod guess;
mod message;
mod moment;
mod number;
mod order;
mod peer;
mod prepared;
mod process;
mod sorted;
mod table;
mod times;
mod transfer;
mod wait;
mod waiting;

pub use caller::is_done;
pub use clock::{Clock, Skew};
pub use dispatch::{choice, owns_window, settled};
pub use fault::FaultChange;
pub use message::message_of;
pub use moment::Moment;
pub use prepared::Prepared;
pub use table::ProcTable;
pub use times::Times;
pub use transfer::Transfer;
