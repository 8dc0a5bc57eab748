// The recordings of all cores.

ghost use Rattle.std.specs.Prelude.{◌≡◌, ◌<◌, IfOk, OnOk, length, map, option_map};
ghost use Rattle.record_read.specs.Row.{records_of};
ghost use Rattle.order_run.specs.Left.{IsTaken};

use crate::lane::Lane;
use apex_types::{CoreId, Ordered, Place, Record};
use csv_rows::TextSource;
use placement::{InputFault, PlacingFault};
use record_read::RowFault;
use std::alloc::{AllocError, Global};
use std::marker::Model;

/// The recordings of all cores, of which records are read ahead. Contracts see what each has left, where its bytes are known.
#[derive(Drop)]
pub struct Lanes<R: TextSource> {
    lanes: Vec<Lane<R>>,
}

impl<R: TextSource> Model for Lanes<R> {
    ghost use Rattle.order_run.specs.Left.{Lefts};

    ghost Value = { Lefts };

    ghost view = { λ lanes. lanes.lanes.items };
}

impl<R: TextSource + Drop> Lanes<R> {
    /// The recordings whose texts these sources give, core 0 first.
    ///
    /// AllocError where memory is refused.
    pub fn open(alloc: Global, sources: Vec<R>) -> Result<Lanes<R>, AllocError>
        ensures { IfOk result (λ lanes. lanes ≡ map (λ source. option_map records_of (R.remaining source)) sources.items) }
    {
        let mut lanes = Vec::new(alloc);
        let mut core = 0u8;
        for source in sources {
            lanes.push(Lane::new(alloc, CoreId::new(core), source))?;
            core = core.saturating_add(1);
        }
        Ok(Lanes { lanes })
    }
}

impl<R: TextSource> Lanes<R> {
    /// How many cores there are.
    pub fn count(&self) -> usize
        ensures { result ≡ length self.now }
    {
        self.lanes.len()
    }

    /// Reads on until the record of this index is ahead of a core. The answer is false where the core's recording ends before.
    pub fn reach(&mut self, core: usize, index: usize) -> Result<bool, PlacingFault>
        requires { core < length self.old }
        ensures { OnOk result (self.new ≡ self.old) }
    {
        match self.lanes[core].reach(index) {
            Ok(is_ahead) => Ok(is_ahead),
            Err(fault) => Err(self.refusal(core, fault)),
        }
    }

    /// The record of this index that is ahead of a core.
    pub fn get(&self, core: usize, index: usize) -> Option<&Ordered> {
        self.lanes.get(core)?.get(index)
    }

    /// Sets the place of the record of this index that is ahead of a core.
    pub fn set_place(&mut self, core: usize, index: usize, pos: Place)
        requires { core < length self.old }
        ensures { self.new ≡ self.old }
    {
        self.lanes[core].set_place(index, pos);
    }

    /// Takes the next record of a core, or None where its recording has ended.
    pub fn take(&mut self, core: usize) -> Result<Option<Record>, PlacingFault>
        requires { core < length self.old }
        ensures { IfOk result (λ made. IsTaken core self.old made self.new) }
    {
        match self.lanes[core].take() {
            Ok(made) => Ok(made),
            Err(fault) => Err(self.refusal(core, fault)),
        }
    }

    // The fault of a core's recording, after the records that were read.
    fn refusal(&self, core: usize, fault: RowFault) -> PlacingFault {
        if fault == RowFault::Memory {
            return PlacingFault::Memory;
        }
        PlacingFault::Input(InputFault::Row {
            core: u32::try_from(core).unwrap_or(u32::MAX),
            seq: self.lanes.get(core).map_or(0, |lane| lane.count()),
            fault,
        })
    }
}
