// The machine at the end of the records so far.

use crate::walk_fault::WalkFault;
use apex_types::limits::PLACE_COUNT;
use apex_types::{Cause, ChanId, CoreId, Ordered, PartId, Place, Who};
use module_config::Config;
use order_search::Pieces;
use partition_state::PartitionState;
use piece_check::{Piece, Seen, count};
use std::alloc::Global;

/// A core: its time in ticks, the process to which the last dispatch gave it, and the partition whose window it is in.
#[derive(Clone, Copy, Debug, PartialEq, Eq)]
pub struct CoreNow {
    pub time: u64,
    pub occupant: Option<Who>,
    pub owner: Option<PartId>,
}

/// A partition: its piece, and the state that the piece holds.
#[derive(Clone, Copy)]
pub struct PartitionNow<'a> {
    pub piece: &'a Piece,
    pub state: &'a PartitionState,
}

/// All pieces of a module, as the records so far have left them.
#[derive(Drop)]
pub struct Machine<'a> {
    config: &'a Config,
    pieces: Pieces<'a>,
    next: Option<Place>,
}

impl<'a> Machine<'a> {
    /// The machine before its first record.
    ///
    /// `Memory` if it is refused.
    pub fn start(alloc: Global, config: &'a Config) -> Result<Machine<'a>, WalkFault> {
        Ok(Machine {
            config,
            pieces: Pieces::start(alloc, config)?,
            next: Some(Place::new(0)),
        })
    }

    /// The configuration of the module.
    pub fn config(&self) -> &'a Config {
        self.config
    }

    /// The place of the next record, if the machine takes one.
    pub fn next(&self) -> Option<Place> {
        self.next
    }

    /// How many pieces there are.
    pub fn piece_count(&self) -> usize {
        count(self.config)
    }

    /// The piece of this number.
    pub fn piece(&self, number: usize) -> Option<&Piece> {
        self.pieces.get(number)
    }

    /// A core as it is now.
    pub fn core(&self, core: CoreId) -> CoreNow {
        if let Some(module) = self.piece(0) {
            if let Seen::Module { clock } = module.seen() {
                return CoreNow {
                    time: clock.now(core),
                    occupant: clock.on(core),
                    owner: clock.window_now(self.config, core),
                };
            }
        }
        CoreNow {
            time: 0,
            occupant: None,
            owner: None,
        }
    }

    /// The partition of this number, if it is configured.
    pub fn partition(&self, wanted: PartId) -> Option<PartitionNow<'_>> {
        for index in 0..self.piece_count() {
            let piece = self.piece(index)?;
            if let Seen::Partition { number, state, .. } = piece.seen() {
                if number == wanted {
                    return Some(PartitionNow { piece, state });
                }
            }
        }
        None
    }

    /// The piece of the channel of this number, if it is configured.
    pub fn channel(&self, wanted: ChanId) -> Option<&Piece> {
        for index in 0..self.piece_count() {
            let piece = self.piece(index)?;
            if let Seen::Channel { channel, .. } = piece.seen() {
                if channel.number() == wanted {
                    return Some(piece);
                }
            }
        }
        None
    }

    /// The cause for which the first piece that rejects a record does so, or None if each piece that the record touches accepts it. Nothing
    /// changes.
    pub fn rejection(&self, ordered: &Ordered) -> Option<Cause> {
        let rejection = self.pieces.rejection(ordered)?;
        Some(rejection.cause)
    }

    /// Takes a record at the next place, which no piece rejects.
    ///
    /// `Memory` if it was refused to a piece, and `Stuck` if a piece rejects the record.
    pub fn take(&mut self, ordered: &Ordered) -> Result<(), WalkFault> {
        if !self.pieces.take(ordered)? {
            return Err(WalkFault::Stuck);
        }
        self.next = place_after(ordered.pos);
        Ok(())
    }
}

// The place after another one, if there is one.
fn place_after(place: Place) -> Option<Place> {
    let next = place.number() + 1;
    if next < PLACE_COUNT {
        Some(Place::new(next))
    } else {
        None
    }
}
