// All pieces of a module, at the tip of a search.

use crate::tip_piece::TipPiece;
use apex_types::{Cause, Ordered};
use module_config::Config;
use piece_check::{Piece, count};
use std::alloc::{AllocError, Global};

/// A piece rejects a record for a cause.
#[derive(Clone, Copy, Debug, PartialEq, Eq)]
pub struct Rejection {
    /// The number of the piece.
    pub piece: usize,
    pub cause: Cause,
}

/// All pieces of a module, in order of number.
#[derive(Drop)]
pub struct Pieces<'a> {
    list: Vec<TipPiece<'a>>,
}

impl<'a> Pieces<'a> {
    /// The pieces before the first record.
    pub fn start(alloc: Global, config: &'a Config) -> Result<Pieces<'a>, AllocError> {
        let mut list = Vec::new(alloc);
        for number in 0..count(config) {
            list.push(TipPiece::start(alloc, config, number)?)?;
        }
        Ok(Pieces { list })
    }

    /// A copy of them.
    pub fn copy(&self, alloc: Global) -> Result<Pieces<'a>, AllocError> {
        let mut list = Vec::with_capacity(alloc, self.list.len())?;
        for piece in self.list.iter() {
            list.push(piece.copy()?)?;
        }
        Ok(Pieces { list })
    }

    /// The piece of this number.
    pub fn get(&self, number: usize) -> Option<&Piece> {
        Some(self.list.get(number)?.piece())
    }

    /// The first piece that rejects a record, if one does.
    pub fn rejection(&self, ordered: &Ordered) -> Option<Rejection> {
        for (number, piece) in self.list.iter().enumerate() {
            if let Some(cause) = piece.rejection(ordered) {
                return Some(Rejection {
                    piece: number,
                    cause,
                });
            }
        }
        None
    }

    /// Takes a record. The answer is false if a piece rejects it: some pieces have taken it then, and others have not.
    pub fn take(&mut self, ordered: &Ordered) -> Result<bool, AllocError> {
        let pieces = self.list.iter_mut();
        for piece in pieces {
            if !piece.take(ordered)? {
                return Ok(false);
            }
        }
        Ok(true)
    }
}
