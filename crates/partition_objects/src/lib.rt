//! The objects of a partition: buffers, blackboards, semaphores, events and mutexes, and the objects of one kind under their numbers; and
//! the lock of a partition.
//!
//! Promises: contracts see an object as that of the definitions, with its name and its waiting sets. An operation on it is accepted exactly
//! if the claim is what the definitions' rule gives its caller, and leaves the object that the rule leaves; else nothing has changed.
//! Contracts see a table as the list of its objects with their numbers, in the order of their creation. An object is found under the number
//! that a caller gives, and its number by its name. An operation, a mark and a leave change the one object of their number and no other. A
//! creation is judged by the numbers that are free, and what is created comes after the others under the number that is claimed. If an
//! operation or a creation is refused, nothing has changed.
//!
//! - An operation takes memory only for a caller that waits, and for a message that a blackboard shows or a buffer holds. A buffer takes the
//!   memory for the places of its messages once, when it is made. It copies a message once, when it holds the message or its sender waits
//!   with it; the message of a sender that moves up is not copied again.
//! - An acquisition of a mutex requires that its count is not above the place of the call, so that the count can rise by one. `acquire`,
//!   `release` and `reset` carry out what has been judged; their contracts also say how far the count rises, and when memory is needed.
//! - The lock of a partition is an object without a number and a name, and with the discipline PRIORITY. Locking requires that an owner's
//!   level is not the greatest. `stop` passes the lock on when its owner is stopped.
//! - What an object reports of itself is a `Status` (`status`). A caller that is killed leaves by `leave`.
//! - In a table, `judge_creation` judges a creation, and `add` adds what it creates. A mark (`Marked`) is what a call that was judged
//!   elsewhere leaves at its object. A pass over the objects finds the one that has a given name (`number_named`). `keeps_numbers` states
//!   what holds of every table: its numbers fit 32 bits.
//!
//! An object knows no partition. A semaphore alone can judge a recording of a single lock:
//!
//! ```text
//! let mut lock = Semaphore::new(alloc, name, 1, 1, Discipline::Fifo);
//! let wait = SemaphoreOperation::Wait { time_out: -1 };
//! let signal = SemaphoreOperation::Signal;
//!
//! // Process 1 takes the one that there is, and process 2 waits.
//! lock.apply(first, &wait, &done)?;            // Effect { waits: false, .. }
//! lock.apply(second, &wait, &waits)?;          // Effect { waits: true, .. }
//!
//! // A signal that wakes nobody is not what the rule gives: process 2 waits first.
//! lock.apply(first, &signal, &done);           // Err(ObjFault::Unlawful(Cause::Woken))
//! lock.apply(first, &signal, &wakes_second)?;  // Effect { waits: false, .. }
//! ```
//!
//! Whether an error condition holds for a call is judged before its operation is applied.
//!
//! # Ports
//!
//! The ports of one kind of a partition, under their numbers.
//!
//! Promises: contracts see a table as the list of its ports with their numbers, in the order of their creation. A creation is carried out
//! exactly if its claim is what a creation gives, and the port then comes after the others under the claimed number; else nothing has
//! changed. Before a call through a port, exactly the error conditions that hold for the port are reported, or, if none holds, the channel
//! of the call. A port records whether the last read at it gave a valid message, and its status reports that.
//!
//! Contracts see a port as that of the definitions: its name, the greatest size of its messages, its direction, its channel, and whether
//! the last read at it gave a valid message (`note_read`), which is the status of a sampling port. `create` adds a port with the settings
//! that it is given, so a table knows no configuration. `guard_source` and `guard_destination` return what comes before a call: the error
//! conditions or the channel.
//!
//! A table requires no partition and no channel. It alone can judge the ports in a recording of one partition:
//!
//! ```text
//! let mut ports = PortTable::new(alloc);
//! let speed = PortSettings { size: 8, direction: Direction::Source, channel: ChanId::new(3) };
//!
//! // The creation claims NO_ERROR and number 1, which no port has.
//! ports.create(alloc, &name, speed, &number_1)?;
//! // A second one claims the same number.
//! ports.create(alloc, &other, speed, &number_1);  // Err(ObjFault::Unlawful(Cause::Val))
//!
//! // A message of 8 bytes may be written, and goes to channel 3; one of 9 bytes is too long, and nothing is read from a source.
//! ports.guard_source(1, 8);      // Guard::Chan(3)
//! ports.guard_source(1, 9);      // Guard::Errors: INVALID_CONFIG
//! ports.guard_destination(1);    // Guard::Errors: INVALID_MODE
//! ```
//!
//! Whether a port may be created, by its name, the partition's mode and the configuration, is judged before. What a channel gives a call,
//! the channel judges.
#![tactic(auto)]

mod blackboard;
mod buffer;
mod creation;
mod event;
mod guard;
mod lock;
mod marked;
mod mutex;
mod port;
mod port_table;
mod semaphore;
mod table;

pub use blackboard::Blackboard;
pub use buffer::Buffer;
pub use creation::copy_of;
pub use event::Event;
pub use guard::Guard;
pub use lock::PreemptionLock;
pub use marked::Marked;
pub use mutex::Mutex653;
pub use port::{Port, PortSettings};
pub use port_table::PortTable;
pub use semaphore::Semaphore;
pub use table::ObjectTable;
