// What is configured of ports and of channels, as their users see it.

use apex_machine::Direction;
use apex_types::{ChanId, Discipline, PartId};

/// What is configured of a sampling port: its channel, the greatest size of its messages in bytes, its direction, and the
/// channel's refresh period in ticks.
#[derive(Clone, Copy, Debug, PartialEq, Eq)]
pub struct SamplingPort {
    pub channel: ChanId,
    pub size: u16,
    pub direction: Direction,
    pub refresh: u64,
}

/// What is configured of a queuing port: its channel, the greatest size of its messages in bytes, how many messages the channel holds, its
/// direction, and the discipline of the processes that wait at it.
#[derive(Clone, Copy, Debug, PartialEq, Eq)]
pub struct QueuingPort {
    pub channel: ChanId,
    pub size: u16,
    pub capacity: u16,
    pub direction: Direction,
    pub discipline: Discipline,
}

/// What is configured of a channel, by its kind.
#[derive(Clone, Copy, Debug, PartialEq, Eq)]
pub enum ChannelKind {
    /// The greatest size of its message in bytes, for how many ticks a message is valid, and whether its source is outside.
    Sampling {
        size: u16,
        refresh: u64,
        from_outside: bool,
    },
    /// The greatest size of its messages in bytes, how many it holds, the disciplines of the processes that wait to send and to receive, and
    /// the partitions at its two ends; None for an end that is outside.
    Queuing {
        size: u16,
        capacity: u16,
        sending: Discipline,
        receiving: Discipline,
        source: Option<PartId>,
        destination: Option<PartId>,
    },
}
