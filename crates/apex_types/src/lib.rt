//! The plain types of a recording: numbers, codes, services and their arguments, records, causes, and views of records.
//!
//! Promises: a number reads back as it was made; a request is that of its service and its arguments' values; contracts see a text, a
//! message and a list of processes as lists; a place is below the number of records that sixteen cores can record.
//!
//! The crate has the numbers of cores, partitions, processes, channels and places; names, messages and lists of processes; codes, services,
//! requests, records and causes; the shape of each operation that may let its caller wait; views of records with their fields, and the
//! numbers that a view uses for services, codes and outcomes.
//! Contracts see a number type as its number.
#![tactic(auto)]

mod cause;
mod code;
mod discipline;
mod error;
mod format;
mod laws;
pub mod limits;
mod number;
mod object_kind;
mod operation;
mod record;
mod request;
mod service;
mod shape;
mod text;
mod view;

pub use cause::Cause;
pub use code::Code;
pub use discipline::Discipline;
pub use error::ErrorCode;
pub use format::Format;
pub use laws::direction_and_discipline_are_one_number;
pub use number::{ChanId, CoreId, PartId, Place, ProcId};
pub use object_kind::{KindServices, NamedKind, ObjectKind};
pub use operation::{
    BlackboardOperation, BufferOperation, CallerOperation, EventOperation, HealthOperation,
    LockOperation, MutexOperation, NewObject, ObjectOperation, ProcessOperation, QueuingOperation,
    SamplingOperation, SemaphoreOperation,
};
pub use record::{
    Body, Call, Claim, Crossing, ErrorReport, Ordered, Out, Pair, Record, Return, Who, Woken,
};
pub use request::{ArgumentValues, Request};
pub use service::{Arguments, Numbers, Presence, SERVICES, Service, ServiceRow};
pub use shape::{AllowedWait, End, Shape};
pub use text::{Message, Name};
pub use view::{Field, View};
