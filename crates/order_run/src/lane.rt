// A core's recording, of which records are read ahead.

ghost use Rattle.std.specs.Prelude.{◌≡◌, IfOk, OnOk, option_map};
ghost use Rattle.record_read.specs.Row.{records_of};
ghost use Rattle.order_run.specs.Left.{Takes};

use apex_types::{CoreId, Ordered, Place, Record};
use csv_rows::TextSource;
use record_read::{RowFault, RowSource};
use std::alloc::Global;
use std::collections::VecDeque;
use std::marker::Model;
use std::snapshot::Snapshot;

/// A core's recording, of which records are read ahead. Contracts see what it has left, where its bytes are known.
#[derive(Drop)]
pub struct Lane<R: TextSource> {
    core: CoreId,
    rows: RowSource<R>,
    // The source as it was given, which contracts alone see.
    first: Snapshot<R>,
    ahead: VecDeque<Ordered>,
    // How many records were read.
    count: u64,
}

impl<R: TextSource> Model for Lane<R> {
    ghost use Rattle.std.specs.Prelude.{◌≡◌, false, List, Option};
    ghost use Rattle.record_read.specs.Row.{Item};
    ghost use Rattle.order_run.specs.Left.{IsStillKnown, left_since};

    ghost Value = { Option (List Item) };

    ghost view = { λ lane. left_since (R.remaining lane.first.value) lane.ahead.items lane.rows.left };

    ghost invariant = { λ lane. lane.rows.stopped ≡ false → IsStillKnown (R.remaining lane.first.value) lane.rows.left };
}

impl<R: TextSource> Lane<R> {
    /// The recording of a core whose text this source gives. Takes no memory.
    #[tactic(auto, using(crate::proofs::Lefts::opened, crate::proofs::Lefts::opened_known))]
    pub fn new(alloc: Global, core: CoreId, source: R) -> Lane<R>
        ensures { result ≡ option_map records_of (R.remaining source) }
    {
        Lane {
            core,
            first: Snapshot::of(&source),
            rows: RowSource::new(alloc, source),
            ahead: VecDeque::new(alloc),
            count: 0,
        }
    }

    /// Reads on until the record of this index is ahead. The answer is false where the recording ends before.
    pub fn reach(&mut self, index: usize) -> Result<bool, RowFault>
        ensures { OnOk result (self.new ≡ self.old) }
    {
        for _ in 0..u64::MAX {
            if self.ahead.len() > index {
                return Ok(true);
            }
            if !self.read_on()? {
                return Ok(false);
            }
        }
        Err(RowFault::Memory)
    }

    // Reads one record more. The answer is false where there is none.
    fn read_on(&mut self) -> Result<bool, RowFault>
        ensures { OnOk result (self.new ≡ self.old) }
    {
        let made = self.rows.next()?;
        match made {
            Some(rec) => {
                self.count = self.count.saturating_add(1);
                let ordered = Ordered {
                    pos: Place::new(0),
                    core: self.core,
                    rec,
                };
                match self.ahead.push_back(ordered) {
                    Ok(()) => Ok(true),
                    Err(_) => Err(RowFault::Memory),
                }
            }
            None => Ok(false),
        }
    }

    /// How many records were read.
    pub fn count(&self) -> u64 {
        self.count
    }

    /// The record of this index, where it is ahead.
    pub fn get(&self, index: usize) -> Option<&Ordered> {
        self.ahead.get(index)
    }

    /// Sets the place of the record of this index, where it is ahead.
    pub fn set_place(&mut self, index: usize, pos: Place)
        ensures { self.new ≡ self.old }
    {
        if let Some(ordered) = self.ahead.get_mut(index) {
            ordered.pos = pos;
        }
    }

    /// Takes the next record, or None where the recording has ended.
    pub fn take(&mut self) -> Result<Option<Record>, RowFault>
        ensures { IfOk result (λ made. Takes self.old made self.new) }
    {
        match self.ahead.pop_front() {
            Some(ordered) => Ok(Some(ordered.rec)),
            None => {
                let made = self.rows.next()?;
                self.count = self.count.saturating_add(u64::from(made.is_some()));
                Ok(made)
            }
        }
    }
}
