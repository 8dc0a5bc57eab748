// A piece at the tip of a search.

ghost use Rattle.std.specs.Prelude.{◌<◌, length};
ghost use Rattle.apex_machine.specs.Pieces.{pieces};

use apex_types::{Cause, Ordered};
use module_config::Config;
use piece_check::{Piece, PieceFault, Subject, subject_of};
use std::alloc::{AllocError, Global};
use std::marker::Model;

/// A piece at the tip of a search. It has taken records before a place, and takes none before it any more.
#[derive(Drop)]
pub struct TipPiece<'a> {
    config: &'a Config,
    subject: Subject,
    piece: Piece,
    place: u64,
}

impl<'a> Model for TipPiece<'a> {
    ghost use Rattle.piece_check.specs.Parts.{HoldsBefore, Holding, IsOf};

    ghost Value = { Holding };

    ghost view = { λ tip. tip.piece };

    ghost invariant = { λ tip. IsOf tip.config.now tip.piece × HoldsBefore tip.place tip.piece.part };
}

impl<'a> TipPiece<'a> {
    /// The piece of this number before the first record.
    pub fn start(
        alloc: Global,
        config: &'a Config,
        number: usize,
    ) -> Result<TipPiece<'a>, AllocError>
        requires { number < length (pieces config.now) }
    {
        Ok(TipPiece {
            config,
            subject: subject_of(config, number),
            piece: Piece::start(alloc, config, number)?,
            place: 0,
        })
    }

    /// A copy of it.
    #[tactic(auto, using(crate::proofs::TipPieces::copy_is_of, crate::proofs::TipPieces::copy_holds_before))]
    pub fn copy(&self) -> Result<TipPiece<'a>, AllocError> {
        Ok(TipPiece {
            config: self.config,
            subject: self.subject,
            piece: self.piece.clone()?,
            place: self.place,
        })
    }

    /// The piece itself.
    pub fn piece(&self) -> &Piece {
        &self.piece
    }

    /// Why the piece rejects a record, if it does. A piece that was refused memory rejects none.
    #[tactic(auto, using(piece_check::proofs::Parting::HoldsBefore_later))]
    pub fn rejection(&self, ordered: &Ordered) -> Option<Cause> {
        if ordered.pos.number() < self.place || !self.subject.is_touched(self.config, ordered) {
            return None;
        }
        match self.piece.judge(self.config, ordered) {
            Err(PieceFault::Rejected { cause, .. }) => Some(cause),
            Err(PieceFault::Memory) | Ok(()) => None,
        }
    }

    /// Takes a record, unless the piece rejects it: then nothing is changed, and the answer is false.
    #[tactic(auto, using(piece_check::proofs::Parting::HoldsBefore_later, crate::proofs::TipPieces::same_is_of, crate::proofs::TipPieces::same_holds_before))]
    pub fn take(&mut self, ordered: &Ordered) -> Result<bool, AllocError> {
        let place = ordered.pos.number();
        if place < self.place
            || ordered.core.number() >= self.config.cores()
            || !self.subject.is_touched(self.config, ordered)
        {
            return Ok(true);
        }
        match self.piece.step(self.config, ordered) {
            Ok(()) => {
                self.place = place + 1;
                Ok(true)
            }
            Err(PieceFault::Rejected { .. }) => Ok(false),
            Err(PieceFault::Memory) => Err(AllocError),
        }
    }
}
