// What a piece holds.

use partition_state::PartitionState;
use piece_check::{Piece, Seen};
use scheduling::Clock;

/// The state of the partition, if the piece is a partition's.
pub fn partition_of(piece: &Piece) -> Option<&PartitionState> {
    match piece.seen() {
        Seen::Partition { state, .. } => Some(state),
        Seen::Module { .. } | Seen::Channel { .. } => None,
    }
}

/// The times and occupants of the cores, if the piece knows the occupants: that of a channel does not.
pub fn clock_of(piece: &Piece) -> Option<&Clock> {
    match piece.seen() {
        Seen::Module { clock } => Some(clock),
        Seen::Partition { clock, .. } => Some(clock),
        Seen::Channel { .. } => None,
    }
}
