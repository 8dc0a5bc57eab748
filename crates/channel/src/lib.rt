//! Channels between partitions, and the calls through them, as in the definitions.
//!
//! Promises: contracts see a channel as its number, the settings with which it was made, and the channel of the definitions. A call through
//! it is accepted exactly if it meets what the definitions demand of it there, and leaves the channel that they give. Else nothing has
//! changed, and the cause is that of the first demand that fails. All this holds for any configuration that gives the channel of this
//! number these settings. A message is copied once, when the channel keeps it. Memory can be lacking only for that copy or for the entry of
//! a caller that waits; an arrival may lack it, a departure never does. Leaving takes no memory.
//!
//! A sampling channel has the message that was last written; a queuing channel is a queue of messages between two partitions. An end of
//! either may be outside the module: `arrive` and `depart` judge a message that passes it, and carry it out (`outside.rt`).
//!
//! `apply` also judges whether the caller already waits there and whether the service is of the channel's kind. It requires the places of
//! those who wait to be below the place of the call (`AllBelow`), and its result holds for each configuration in which `IsConfigured` holds.
//! `release`, `leave` and `leave_all` take processes out of both its sets, as ticks, stops and restarts do.
//!
//! A channel knows no port. Of partitions, it knows only the two numbers at the ends of a queue, because the status of a queuing port
//! reports how many wait at the caller's end (`queuing.rt`).
//!
//! The caller's partition has judged before whether a call goes through this channel, and whether its caller may make it. A channel
//! requires no partition. It alone can judge the calls through a single channel:
//!
//! ```text
//! // Channel 4 of partition 0 to partition 1 holds one message. Those who wait to receive go by priority.
//! let settings = QueuingSettings {
//!     size: 8,
//!     capacity: 1,
//!     sending: Discipline::Fifo,
//!     receiving: Discipline::Priority,
//!     source: Some(PartId::new(0)),
//!     destination: Some(PartId::new(1)),
//! };
//! let mut channel = Channel::queuing(alloc, ChanId::new(4), settings)?;
//!
//! // Process 1 of partition 0 fills the one place that there is, and process 2 waits. The places of their calls rise.
//! channel.apply(Place::new(10), 3, &send_is_done)?;
//! channel.apply(Place::new(11), 3, &send_waits)?;
//!
//! // A receive of partition 1 that wakes nobody is not what the channel gives: the message of process 2 moves up.
//! channel.apply(Place::new(12), 3, &receive);       // Err(ObjFault::Unlawful(Cause::Woken))
//! channel.apply(Place::new(12), 3, &receive_wakes_second)?;
//!
//! // A tick that ends a wait takes the process out of the channel.
//! channel.release(&woken);
//! ```
#![tactic(auto)]

mod channel;
mod outside;
mod queuing;
mod sampling;
mod settings;

pub use channel::Channel;
pub use sampling::Stamped;
pub use settings::{QueuingSettings, SamplingSettings};
