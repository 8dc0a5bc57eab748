//! A run as events of the Chrome trace format, one after another: slices for states, occupants and messages that stay, instants for records
//! and for the fault that ends a run, flows for waits that end and for messages, async events for waits, and counters for objects, channels
//! and priorities.
//!
//! Promises: what the sink receives is the JSON of events, each once and in order, between the beginning and the end of a trace. An event is
//! an object of the format with its members in a fixed order, and its text is the one that `serde_json` writes: in each string, a quotation
//! mark, a backslash and a control character are escaped. Its time is its place, or on the axis of times the time that it has there, and then
//! its arguments have the place. If an addition fails, the sink has the first bytes of what was due. A record that is accepted or rejected
//! has exactly one instant, at its place, and a fault one at its own, with its line and its explanation. A trace holds fewer than 256 events
//! at a time; the sink has the others.
//!
//! On the axis of times, an event is not before the last one of its track, and later than the time of its core only for that or for a flow.
//! No clause says which slices, flows, waits and counters a record gets, or what they say. The trace decides nothing.
#![tactic(auto)]

mod axis;
mod boards;
mod counters;
mod ends;
mod escapes;
mod event;
mod events;
mod fault;
mod flows;
mod known;
mod object_text;
mod said;
mod showing;
mod stamps;
mod states;
mod timeline;
mod tracer;
mod tracks;

pub use axis::Axis;
pub use events::MOST_HELD;
pub use fault::TraceFault;
pub use tracer::Tracer;
