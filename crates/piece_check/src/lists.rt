// For each piece a list of the records that touch it, without the ticks.

ghost use Rattle.std.specs.Prelude.{◌≡◌, ◌≤◌, IfOk, OnOk, [], length};
ghost use Rattle.apex_machine.specs.Pieces.{Piece, pieces};
ghost use Rattle.piece_check.specs.Subjects.{piece_of};
ghost use Rattle.piece_check.specs.Touching.{HasList, IsEntered, IsPut, PartitionFits, ends_with, is_claimed, is_home_of, is_of_call, is_of_crossing, is_of_own, is_same_piece, is_touched_first, list_of, slot, with_last};

use crate::subject::{Subject, count, stops_some, subject_of};
use apex_types::limits::GREATEST_CHANNEL;
use apex_types::{Body, Call, ChanId, Crossing, Ordered, PartId, Who};
use module_config::Config;
use std::alloc::{AllocError, Global};
use std::marker::Model;

/// Where the lists of the partitions begin, after that of the module.
const PARTITIONS_FROM: usize = 1;

/// Where the lists of the channels begin; a partition's number has 8 bits.
const CHANNELS_FROM: usize = 257;

/// The number of lists: the last is that of the channel with the greatest number.
const SLOT_COUNT: usize = CHANNELS_FROM + GREATEST_CHANNEL as usize + 1;

/// For each piece, which records of a round touch it, without the ticks: their indices in the round, in ascending order. The lists keep
/// their memory from round to round.
#[derive(Drop)]
pub(crate) struct Lists {
    lists: Vec<Vec<usize>>,
}

impl Model for Lists {
    ghost use Rattle.std.specs.Prelude.{◌≡◌, ℕ, List, length};
    ghost use Rattle.std.specs.Global.{Vec};
    ghost use Rattle.piece_check.specs.Touching.{slot_count};

    ghost Value = { List (Vec ℕ) };

    ghost view = { λ lists. lists.lists.items };

    ghost invariant = { λ lists. length lists.lists.items ≡ slot_count };
}

impl Lists {
    /// Lists of no record.
    ///
    /// AllocError if memory is refused.
    pub(crate) fn new(alloc: Global) -> Result<Lists, AllocError>
        ensures { IfOk result (λ lists. (piece : Piece) → list_of lists piece ≡ []) }
    {
        let mut lists = Vec::new(alloc);
        'slots: for _slot in 0..SLOT_COUNT {
            lists.push(Vec::new(alloc))?;
        }
        Ok(Lists { lists })
    }

    /// The indices of the records in the list of a piece. Takes no memory.
    pub(crate) fn of(&self, subject: &Subject) -> &[usize]
        requires { HasList (piece_of subject.now) }
        ensures { result.now ≡ list_of self.now (piece_of subject.now) }
    {
        &self.lists[slot_of(subject)]
    }

    /// Forgets all records.
    pub(crate) fn clear(&mut self)
        ensures { (piece : Piece) → list_of self.new piece ≡ [] }
    {
        'slots: for slot in 0..SLOT_COUNT {
            self.lists[slot].clear();
        }
    }

    /// Adds the index of a record to the lists of the pieces that it touches; the index of a tick is added to none.
    ///
    /// AllocError if a list could not grow; nothing is then known about the lists.
    pub(crate) fn enter(
        &mut self,
        config: &Config,
        index: usize,
        ordered: &Ordered,
    ) -> Result<(), AllocError>
        ensures { OnOk result (IsEntered config.now index ordered.now (list_of self.old) (list_of self.new)) }
    {
        match &ordered.rec.body {
            Body::Call(call) => {
                if stops_some(call) {
                    self.enter_first(config, count(config), index, ordered)
                } else {
                    self.enter_call(index, call)
                }
            }
            Body::Ret(ret) => self.enter_own(index, ret.who.part),
            Body::Disp(_) => self.enter_first(config, config.partition_count() + 1, index, ordered),
            Body::Arrive(crossing) | Body::Depart(crossing) => self.enter_crossing(index, crossing),
            Body::Error(report) => {
                if report.restarts {
                    self.enter_first(config, count(config), index, ordered)
                } else {
                    self.enter_own(index, report.who.part)
                }
            }
            Body::Tick(_) => Ok(()),
        }
    }

    // Looks at this many of the first pieces, and adds the index of a record to the lists of those that it touches.
    fn enter_first(
        &mut self,
        config: &Config,
        end: usize,
        index: usize,
        ordered: &Ordered,
    ) -> Result<(), AllocError>
        requires { end ≤ length (pieces config.now) }
        ensures { OnOk result (IsPut index (is_touched_first config.now end ordered.now) (list_of self.old) (list_of self.new)) }
    {
        'pieces: for piece in 0..end {
            let subject = subject_of(config, piece);
            if subject.is_touched(config, ordered) {
                self.put(&subject, index)?;
            }
        }
        Ok(())
    }

    // A call that stops no process touches the module, its caller's partition, the partitions that it names, and the channel that it
    // claims.
    fn enter_call(&mut self, index: usize, call: &Call) -> Result<(), AllocError>
        ensures { OnOk result (IsPut index (is_of_call call.now) (list_of self.old) (list_of self.new)) }
    {
        self.put(&Subject::Module, index)?;
        self.put(&Subject::Partition(call.who.part), index)?;
        self.enter_homes(index, call.claim.woken.as_slice())?;
        self.enter_channel(index, &call.claim.chan)
    }

    // A return touches the module and its partition, and so does an error that restarts no partition.
    fn enter_own(&mut self, index: usize, part: PartId) -> Result<(), AllocError>
        ensures { OnOk result (IsPut index (is_of_own part) (list_of self.old) (list_of self.new)) }
    {
        self.put(&Subject::Module, index)?;
        self.put(&Subject::Partition(part), index)
    }

    // An arrival and a departure touch the module, the partitions that they name, and their channel.
    fn enter_crossing(&mut self, index: usize, crossing: &Crossing) -> Result<(), AllocError>
        ensures { OnOk result (IsPut index (is_of_crossing crossing.now) (list_of self.old) (list_of self.new)) }
    {
        self.put(&Subject::Module, index)?;
        self.enter_homes(index, crossing.woken.as_slice())?;
        self.put(&Subject::Channel(crossing.chan), index)
    }

    // Adds an index to the lists of the partitions of these processes.
    fn enter_homes(&mut self, index: usize, named: &[Who]) -> Result<(), AllocError>
        ensures { OnOk result (IsPut index (is_home_of named.now) (list_of self.old) (list_of self.new)) }
    {
        for who in named {
            self.put(&Subject::Partition(who.part), index)?;
        }
        Ok(())
    }

    // Adds an index to the list of the channel, if one is claimed.
    fn enter_channel(&mut self, index: usize, claimed: &Option<ChanId>) -> Result<(), AllocError>
        ensures { OnOk result (IsPut index (is_claimed claimed.now) (list_of self.old) (list_of self.new)) }
    {
        match claimed {
            Some(number) => self.put(&Subject::Channel(*number), index),
            None => Ok(()),
        }
    }

    // Adds an index to the list of a piece, if there is such a list, unless the index is in it already.
    fn put(&mut self, subject: &Subject, index: usize) -> Result<(), AllocError>
        ensures { OnOk result (IsPut index (is_same_piece (piece_of subject.now)) (list_of self.old) (list_of self.new)) }
    {
        let slot = slot_of(subject);
        if slot >= self.lists.len() {
            return Ok(());
        }
        put_last(&mut self.lists[slot], index)
    }
}

// The place of the list of a piece.
fn slot_of(subject: &Subject) -> usize
    ensures value { result ≡ slot (piece_of subject.now) }
    ensures fits { PartitionFits (piece_of subject.now) }
{
    match subject {
        Subject::Module => 0,
        Subject::Partition(number) => PARTITIONS_FROM + number.number() as usize,
        Subject::Channel(number) => CHANNELS_FROM + number.number() as usize,
    }
}

// Adds an index at the end of a list, unless the list ends with it already.
fn put_last(list: &mut Vec<usize>, index: usize) -> Result<(), AllocError>
    ensures { OnOk result (list.new.items ≡ with_last index list.old.items) }
{
    if is_last(list, index) {
        return Ok(());
    }
    list.push(index)?;
    Ok(())
}

// Whether a list ends with this index.
fn is_last(list: &[usize], index: usize) -> bool
    ensures { result ≡ ends_with index list.now }
{
    match list.last() {
        Some(last) => *last == index,
        None => false,
    }
}
