// The arrows between lanes.

use crate::lane_key::LaneKey;

/// What an arrow shows.
#[derive(Clone, Copy, Debug, PartialEq, Eq)]
pub enum ArrowKind {
    /// A record ends the wait of a process.
    Wake,
    /// A message goes from its sender to its receiver.
    Message,
}

/// An end of an arrow: a lane at a column. None if the column is before the picture.
#[derive(Clone, Copy, Debug)]
pub struct ArrowEnd {
    pub column: Option<usize>,
    pub place: u64,
    pub lane: LaneKey,
}

/// An arrow from one lane to another.
#[derive(Clone, Copy, Debug)]
pub struct Arrow {
    pub kind: ArrowKind,
    pub from: ArrowEnd,
    pub to: ArrowEnd,
}
