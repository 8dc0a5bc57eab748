// The batch at hand.

ghost use Rattle.std.specs.Prelude.{◌≡◌, ◌≢◌, ◌<◌, ◌∷◌, [], true, false, IsSome, None, Some};
ghost use Rattle.std.specs.Vec.{vec_len, vec_capacity};
ghost use Rattle.core_intake.specs.Answered.{Answer, PutsIn};
ghost use Rattle.core_intake.specs.Batches.{answers_in};

use crate::batch::Batch;
use apex_types::{CoreId, Ordered, Place, Record};
use record_read::RowFault;
use std::alloc::Global;
use std::collections::VecDeque;
use std::marker::Model;

/// What is left of the last batch that was received.
#[derive(Drop)]
pub struct Hand {
    records: VecDeque<Record>,
    end: Option<Result<(), RowFault>>,
}

impl Model for Hand {
    ghost use Rattle.std.specs.Prelude.{List};
    ghost use Rattle.core_intake.specs.Answered.{Answer};
    ghost use Rattle.core_intake.specs.Batches.{answers_of};

    ghost Value = { List Answer };

    ghost view = { λ hand. answers_of hand.records.items hand.end };
}

impl Hand {
    /// Nothing. Takes no memory.
    pub fn empty(alloc: Global) -> Hand
        ensures { result ≡ [] }
    {
        Hand {
            records: VecDeque::new(alloc),
            end: None,
        }
    }

    /// All of a batch.
    pub fn of(batch: Batch) -> Hand
        ensures { result ≡ answers_in batch }
    {
        let Batch { records, end } = batch;
        Hand { records, end }
    }

    /// Whether an answer is left.
    pub fn has_next(&self) -> bool
        ensures some { result ≡ true → self.now ≢ [] }
        ensures none { result ≡ false → self.now ≡ [] }
    {
        !self.records.is_empty() || self.end.is_some()
    }

    /// The first answer that is left.
    #[tactic(auto, using(crate::proofs::Chains::end_left))]
    pub fn next(&mut self) -> Result<Option<Record>, RowFault>
        requires some { self.old ≢ [] }
        ensures first { self.old ≡ result ∷ self.new }
    {
        if let Some(record) = self.records.pop_front() {
            return Ok(Some(record));
        }
        take_end(&mut self.end)?;
        Ok(None)
    }

    /// The first answer that is left, as `next` gives it, but a record goes to the end of a list, which has room for it: as the record of this
    /// core at this place. Whether there was a record is the result.
    #[tactic(auto, using(crate::proofs::Chains::end_left))]
    pub fn next_into(
        &mut self,
        core: CoreId,
        place: Place,
        records: &mut Vec<Ordered>,
    ) -> Result<bool, RowFault>
        requires some { self.old ≢ [] }
        requires room { vec_len records.old < vec_capacity records.old }
        ensures puts { (answer : Answer) × (self.old ≡ answer ∷ self.new) × PutsIn core place answer records.old.items result records.new.items }
    {
        if let Some(rec) = self.records.pop_front() {
            records.push_reserved(Ordered {
                pos: place,
                core,
                rec,
            });
            return Ok(true);
        }
        take_end(&mut self.end)?;
        Ok(false)
    }

    /// The room of the batch.
    pub fn into_room(self) -> VecDeque<Record>
        ensures { self ≡ [] → result.items ≡ [] }
    {
        let Hand { records, end: _ } = self;
        records
    }
}

// Takes the end of a recording, or the fault that ended it.
fn take_end(end: &mut Option<Result<(), RowFault>>) -> Result<(), RowFault>
    requires known { IsSome end.old }
    ensures value { end.old ≡ Some result }
    ensures taken { end.new ≡ None }
{
    match end.take() {
        Some(Err(fault)) => Err(fault),
        Some(Ok(())) | None => Ok(()),
    }
}
