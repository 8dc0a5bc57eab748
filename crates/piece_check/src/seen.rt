// What callers see of a piece.

ghost use Rattle.std.specs.Prelude.{◌≡◌};
ghost use Rattle.piece_check.specs.Parts.{holder};
ghost use Rattle.piece_check.specs.Seen.{IsSeen};
ghost use Rattle.piece_check.specs.Subjects.{piece_of};

use crate::held::Held;
use crate::piece::Piece;
use crate::subject::Subject;
use apex_types::PartId;
use channel::Channel;
use partition_state::PartitionState;
use scheduling::{Clock, Times};

/// What a piece holds, for reading.
#[derive(Clone, Copy)]
pub enum Seen<'a> {
    /// The module: the times and occupants of the cores.
    Module {
        clock: &'a Clock,
    },
    /// A partition: its number, the times and occupants of the cores as it knows them, and its state.
    Partition {
        number: PartId,
        clock: &'a Clock,
        state: &'a PartitionState,
    },
    /// A channel: the times of the cores as it knows them, and the channel.
    Channel {
        times: &'a Times,
        channel: &'a Channel,
    },
}

impl Piece {
    /// The subject of the piece.
    pub fn subject(&self) -> Subject
        ensures { piece_of result ≡ holder self.now.part }
    {
        match &self.held {
            Held::Module(_) => Subject::Module,
            Held::Partition(piece) => Subject::Partition(piece.number),
            Held::Channel(piece) => Subject::Channel(piece.channel.number()),
        }
    }

    /// What the piece holds.
    pub fn seen(&self) -> Seen<'_>
        ensures { IsSeen self.now.part result }
    {
        match &self.held {
            Held::Module(piece) => Seen::Module {
                clock: &piece.clock,
            },
            Held::Partition(piece) => Seen::Partition {
                number: piece.number,
                clock: &piece.clock,
                state: &piece.state,
            },
            Held::Channel(piece) => Seen::Channel {
                times: &piece.times,
                channel: &piece.channel,
            },
        }
    }
}
