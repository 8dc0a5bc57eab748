// What memories have kept of the views so far.

ghost use Rattle.std.specs.Prelude.{◌≡◌, IfOk, OnOk};
ghost use Rattle.user_rules.specs.Meets.{with_values};
ghost use Rattle.user_rules.specs.Memories.{kept_after_view, nothing, values_at};

use crate::memory::{Per, RuleMemory};
use crate::track::Track;
use apex_types::View;
use std::alloc::{AllocError, Global};
use std::marker::Model;

/// How many holders there are of each kind; for so many, memory is reserved at the start.
#[derive(Clone, Copy, Debug, PartialEq, Eq)]
pub struct Holders {
    pub cores: usize,
    pub partitions: usize,
    /// In all partitions together.
    pub processes: usize,
}

impl Holders {
    // For how many holders a memory may keep a value.
    fn count(&self, per: Per) -> usize {
        match per {
            Per::Module => 1,
            Per::Core => self.cores,
            Per::Partition => self.partitions,
            Per::Process => self.processes,
        }
    }
}

/// What memories have kept of the views so far. The memories themselves are lent to each call.
#[derive(Debug, Drop)]
pub struct Recollection {
    tracks: Vec<Track>,
}

impl Model for Recollection {
    ghost use Rattle.std.specs.Prelude.{List};
    ghost use Rattle.user_rules.specs.declared.memory.Cell.{Cell};

    ghost Value = { List (List Cell) };

    ghost view = { λ recollection. recollection.tracks.items };
}

impl Recollection {
    /// What these memories keep before the first view. Memory is reserved for so many holders.
    pub fn start(
        alloc: Global,
        memories: &[RuleMemory],
        holders: Holders,
    ) -> Result<Recollection, AllocError>
        ensures { IfOk result (λ recollection. recollection ≡ nothing memories.now) }
    {
        let mut tracks = Vec::with_capacity(alloc, memories.len())?;
        for memory in memories {
            tracks.push(Track::with_room(alloc, holders.count(memory.per))?)?;
        }
        Ok(Recollection { tracks })
    }

    /// The values of the memories at a view, from what they have kept of the views before it. They take the place of what the list had.
    pub fn read(
        &self,
        memories: &[RuleMemory],
        view: &View,
        values: &mut Vec<i64>,
    ) -> Result<(), AllocError>
        ensures { OnOk result (values.new.items ≡ values_at memories.now self.now view.now) }
    {
        read_all(&self.tracks, memories, view, values)
    }

    /// The place of the last view that met the relation of the memory of this number, of those that this view's value is about.
    pub fn last_place(&self, memories: &[RuleMemory], number: usize, view: &View) -> Option<u64> {
        let memory = memories.get(number)?;
        self.tracks.get(number)?.last_place(memory, view)
    }

    /// The memories keep what they keep of the view at this place, with these values at it. After a refusal of memory nothing is known of
    /// what they keep.
    pub fn take_in(
        &mut self,
        memories: &[RuleMemory],
        view: &View,
        values: &[i64],
        place: u64,
    ) -> Result<(), AllocError>
        ensures { OnOk result (self.new ≡ kept_after_view memories.now self.old (with_values view.now values.now)) }
    {
        take_in_all(&mut self.tracks, memories, view, values, place)
    }
}

// The values of the memories at a view take the place of what the list had.
fn read_all(
    tracks: &[Track],
    memories: &[RuleMemory],
    view: &View,
    values: &mut Vec<i64>,
) -> Result<(), AllocError>
    ensures { OnOk result (values.new.items ≡ values_at memories.now tracks.now view.now) }
{
    values.clear();
    values.reserve(memories.len())?;
    for number in 0..memories.len() {
        if number >= tracks.len() {
            return Ok(());
        }
        values.push_reserved(tracks[number].value(&memories[number], view));
    }
    Ok(())
}

// Each memory keeps what it keeps of a view.
fn take_in_all(
    tracks: &mut Vec<Track>,
    memories: &[RuleMemory],
    view: &View,
    values: &[i64],
    place: u64,
) -> Result<(), AllocError>
    ensures { OnOk result (tracks.new.items ≡ kept_after_view memories.now tracks.old.items (with_values view.now values.now)) }
{
    for number in 0..memories.len() {
        if number >= tracks.len() {
            return Ok(());
        }
        tracks[number].take_in(&memories[number], view, values, place)?;
    }
    Ok(())
}
