// The machine after some records.

use crate::pieces::Pieces;
use crate::reach::is_tick;
use apex_types::Ordered;
use module_config::Config;
use std::alloc::{AllocError, Global};

// How many records of a core are taken, and its time.
#[derive(Clone, Copy, Debug)]
struct CoreState {
    taken: u64,
    time: u64,
}

/// The machine after some records: its pieces, how many records of each core they have taken, and the time of each core.
#[derive(Drop)]
pub struct TipState<'a> {
    pieces: Pieces<'a>,
    cores: Vec<CoreState>,
}

impl<'a> TipState<'a> {
    /// The machine before the first record. It has so many cores.
    ///
    /// `AllocError` if memory is refused.
    pub fn start(
        alloc: Global,
        config: &'a Config,
        cores: usize,
    ) -> Result<TipState<'a>, AllocError> {
        let before = CoreState { taken: 0, time: 0 };
        Ok(TipState {
            pieces: Pieces::start(alloc, config)?,
            cores: vec![in alloc; before; cores]?,
        })
    }

    /// A copy of it.
    ///
    /// `AllocError` if memory is refused.
    pub fn copy(&self, alloc: Global) -> Result<TipState<'a>, AllocError> {
        Ok(TipState {
            pieces: self.pieces.copy(alloc)?,
            cores: self.cores.clone()?,
        })
    }

    /// The pieces.
    pub fn pieces(&self) -> &Pieces<'a> {
        &self.pieces
    }

    /// How many records of a core are taken.
    pub fn taken(&self, core: usize) -> u64 {
        self.cores.get(core).map_or(0, |state| state.taken)
    }

    /// The time of a core.
    pub fn time(&self, core: usize) -> u64 {
        self.cores.get(core).map_or(0, |state| state.time)
    }

    /// Takes the next record of a core. The answer is false if a piece rejects it: some pieces have taken it then, and others have not.
    ///
    /// `AllocError` if memory is refused.
    pub fn take(&mut self, core: usize, ordered: &Ordered) -> Result<bool, AllocError> {
        if !self.pieces.take(ordered)? {
            return Ok(false);
        }
        let ticks = u64::from(is_tick(&ordered.rec.body));
        if let Some(state) = self.cores.get_mut(core) {
            state.taken = state.taken.saturating_add(1);
            state.time = state.time.saturating_add(ticks);
        }
        Ok(true)
    }
}
