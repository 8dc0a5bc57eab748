// How channels are configured.

use apex_types::{Discipline, PartId};

/// How a sampling channel is configured.
#[derive(Clone, Copy, Debug, PartialEq, Eq)]
pub struct SamplingSettings {
    /// The greatest size of its message, in bytes.
    pub size: u16,
    /// For how many ticks a message is valid.
    pub refresh: u64,
    /// Whether its source is outside the module.
    pub from_outside: bool,
}

/// How a queuing channel is configured.
#[derive(Clone, Copy, Debug, PartialEq, Eq)]
pub struct QueuingSettings {
    /// The greatest size of its messages, in bytes.
    pub size: u16,
    /// The most messages that it holds.
    pub capacity: u16,
    /// How processes wait to send.
    pub sending: Discipline,
    /// How processes wait to receive.
    pub receiving: Discipline,
    /// The partition at its source; None if that is outside the module.
    pub source: Option<PartId>,
    /// The partition at its destination; None if that is outside the module.
    pub destination: Option<PartId>,
}
