// What one memory keeps for all holders.

ghost use Rattle.std.specs.Prelude.{◌≡◌, [], IfOk, OnOk};
ghost use Rattle.user_rules.specs.Meets.{meets, with_values};
ghost use Rattle.user_rules.specs.Memories.{cells_after, holder_of, mark_after, mark_at, mark_of, put, trigger_of, value_at};

use crate::memory::{Cell, Keeps, Mark, RuleMemory};
use apex_types::View;
use std::alloc::{AllocError, Global};
use std::marker::Model;

/// What a memory keeps for all holders. Numbers of processes are any that a recording gives them, so each cell has its holder. A contract
/// does not see which views met the memory's relation.
#[derive(Debug, Drop)]
pub(crate) struct Track {
    cells: Vec<Cell>,
    // The place of the last view that met the relation, for the holder of the cell with the same index. If none did, the place says nothing.
    places: Vec<u64>,
}

impl Model for Track {
    ghost use Rattle.std.specs.Prelude.{List};
    ghost use Rattle.user_rules.specs.declared.memory.Cell.{Cell};

    ghost Value = { List Cell };

    ghost view = { λ track. track.cells.items };
}

impl Track {
    /// Nothing is kept yet; memory for this many holders is reserved.
    pub fn with_room(alloc: Global, holders: usize) -> Result<Track, AllocError>
        ensures { IfOk result (λ track. track ≡ []) }
    {
        Ok(Track {
            cells: Vec::with_capacity(alloc, holders)?,
            places: Vec::with_capacity(alloc, holders)?,
        })
    }

    /// The value of the memory at a view. Takes no memory.
    pub fn value(&self, memory: &RuleMemory, view: &View) -> i64
        ensures { result ≡ value_at memory.now self.now view.now }
    {
        memory
            .keeps
            .value(mark_of(&self.cells, memory.per.holder(view)), view)
    }

    /// The place of the last view of the same holder that met the memory's relation.
    pub fn last_place(&self, memory: &RuleMemory, view: &View) -> Option<u64> {
        let holder = memory.per.holder(view)?;
        'cells: for index in 0..self.cells.len() {
            let cell = self.cells.get(index)?;
            if cell.holder == holder {
                return if cell.mark.met {
                    self.places.get(index).copied()
                } else {
                    None
                };
            }
        }
        None
    }

    /// The memory keeps what it keeps of the view at this place, with these values of the memories at it. After a refusal of memory nothing
    /// is known of what is kept.
    pub fn take_in(
        &mut self,
        memory: &RuleMemory,
        view: &View,
        values: &[i64],
        place: u64,
    ) -> Result<(), AllocError>
        ensures { OnOk result (self.new ≡ cells_after memory.now.keeps self.old (holder_of memory.now.per view.now) (with_values view.now values.now)) }
    {
        let met = memory.keeps.is_met(view, values);
        if !memory.keeps.is_changed_by(view, values, met) {
            return Ok(());
        }
        let Some(holder) = memory.per.holder(view) else {
            return Ok(());
        };
        let index = put_next(&mut self.cells, holder, &memory.keeps, view, values, met)?;
        keep_place(&mut self.places, index, met, place)
    }
}

// What is kept for the holder, if there is one.
fn mark_of(cells: &[Cell], holder: Option<usize>) -> Mark
    ensures { result ≡ mark_of cells.now holder }
{
    match holder {
        Some(holder) => mark_at(cells, holder),
        None => Mark::EMPTY,
    }
}

// What is kept for a holder.
fn mark_at(cells: &[Cell], holder: usize) -> Mark
    ensures { result ≡ mark_at cells.now holder }
{
    'cells: for index in 0..cells.len() {
        if cells[index].holder == holder {
            return cells[index].mark;
        }
    }
    Mark::EMPTY
}

// What is kept for a holder becomes what is kept after the view. Returns the index of the holder's cell.
fn put_next(
    cells: &mut Vec<Cell>,
    holder: usize,
    keeps: &Keeps,
    view: &View,
    values: &[i64],
    met: bool,
) -> Result<usize, AllocError>
    requires { met ≡ meets (trigger_of keeps.now) (with_values view.now values.now) }
    ensures { OnOk result (cells.new.items ≡ put cells.old.items holder (mark_after keeps.now (mark_at cells.old.items holder) (with_values view.now values.now))) }
{
    let count = cells.len();
    'cells: for index in 0..count {
        let cell = cells[index];
        if cell.holder == holder {
            let mark = keeps.after(cell.mark, view, values, met);
            cells[index] = Cell { holder, mark };
            return Ok(index);
        }
    }
    let mark = keeps.after(Mark::EMPTY, view, values, met);
    cells.push(Cell { holder, mark })?;
    Ok(count)
}

// Keeps the place of a view that met the relation. A place that is new is kept in any case, so that there is one for each cell.
fn keep_place(
    places: &mut Vec<u64>,
    index: usize,
    met: bool,
    place: u64,
) -> Result<(), AllocError> {
    match places.get_mut(index) {
        Some(kept) => {
            if met {
                *kept = place;
            }
            Ok(())
        }
        None => {
            places.push(place)?;
            Ok(())
        }
    }
}
