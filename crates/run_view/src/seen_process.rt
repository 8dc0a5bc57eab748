// The processes of a partition, as they were last seen.

ghost use Rattle.std.specs.Prelude.{◌≡◌, ◌↔◌, IfOk, IsTrue, OnOk, map};
ghost use Rattle.run_view.specs.Adds.{Adds, IsOfAny};
ghost use Rattle.run_view.specs.Processes.{shown_entry};
ghost use Rattle.run_view.specs.ProcessChanges.{HasNumber, IsItsChange, IsItsEnd, IsFoundInProcesses};

use crate::among::is_among;
use crate::change::{Change, add};
use crate::process::{ProcessView, process_view};
use apex_types::{PartId, ProcId, Who};
use partition_state::PartitionState;
use std::alloc::{AllocError, Global};

/// A process as it was seen, with its number.
#[derive(Clone, Copy, Debug, PartialEq, Eq)]
pub(crate) struct SeenProcess {
    pub number: ProcId,
    pub view: ProcessView,
}

// Adds the processes of a partition that are new or no longer as they were seen, and those that no longer exist. They are then seen as they
// are.
pub(crate) fn look_at_processes(
    alloc: Global,
    seen: &mut Vec<SeenProcess>,
    part: PartId,
    state: &PartitionState,
    changes: &mut Vec<Change>,
) -> Result<(), AllocError>
    ensures seen { OnOk result (seen.new.items ≡ map shown_entry state.now.table) }
    ensures changes { OnOk result (Adds (IsFoundInProcesses part seen.old.items seen.new.items) changes.old.items changes.new.items) }
{
    let now = shown_processes(alloc, state)?;
    add_changed(seen.as_slice(), now.as_slice(), part, changes)?;
    add_ended(seen.as_slice(), now.as_slice(), part, changes)?;
    *seen = now;
    Ok(())
}

// The processes of a partition as they are shown, in the order of their creation.
fn shown_processes(alloc: Global, state: &PartitionState) -> Result<Vec<SeenProcess>, AllocError>
    ensures { IfOk result (λ shown. shown.items ≡ map shown_entry state.now.table) }
{
    let table = state.processes();
    let count = table.len().saturating_add(1);
    let mut shown = Vec::new(alloc);
    for index in 0..count {
        let Some((number, process)) = table.at(index) else {
            return Ok(shown);
        };
        let view = process_view(process);
        shown.push(SeenProcess {
            number: *number,
            view,
        })?;
    }
    Ok(shown)
}

// Adds the processes that are new or no longer as they were seen.
fn add_changed(
    before: &[SeenProcess],
    now: &[SeenProcess],
    part: PartId,
    changes: &mut Vec<Change>,
) -> Result<(), AllocError>
    ensures { OnOk result (Adds (IsOfAny (IsItsChange part before.now) now.now) changes.old.items changes.new.items) }
{
    for index in 0..now.len() {
        add_if_changed(before, index, now[index], part, changes)?;
    }
    Ok(())
}

// Adds the process that now has this index, if it is new or no longer as it was seen.
fn add_if_changed(
    before: &[SeenProcess],
    index: usize,
    process: SeenProcess,
    part: PartId,
    changes: &mut Vec<Change>,
) -> Result<(), AllocError>
    ensures { OnOk result (Adds (IsItsChange part before.now process) changes.old.items changes.new.items) }
{
    if is_among(before, index, &process) {
        return Ok(());
    }
    let who = Who {
        part,
        proc: process.number,
    };
    add(changes, Change::Process(who, process.view))
}

// Adds the processes that were seen and no longer exist, the last one first.
fn add_ended(
    before: &[SeenProcess],
    now: &[SeenProcess],
    part: PartId,
    changes: &mut Vec<Change>,
) -> Result<(), AllocError>
    ensures { OnOk result (Adds (IsOfAny (IsItsEnd part now.now) before.now) changes.old.items changes.new.items) }
{
    for after in 0..before.len() {
        let index = before.len() - 1 - after;
        add_if_ended(before[index], index, now, part, changes)?;
    }
    Ok(())
}

// Adds the end of the process that had this index, if it no longer exists.
fn add_if_ended(
    process: SeenProcess,
    index: usize,
    now: &[SeenProcess],
    part: PartId,
    changes: &mut Vec<Change>,
) -> Result<(), AllocError>
    ensures { OnOk result (Adds (IsItsEnd part now.now process) changes.old.items changes.new.items) }
{
    if has_number(now, index, process.number) {
        return Ok(());
    }
    let who = Who {
        part,
        proc: process.number,
    };
    add(changes, Change::Ended(who))
}

// Whether one of these processes has this number, mostly the one at this index.
fn has_number(now: &[SeenProcess], index: usize, number: ProcId) -> bool
    ensures { IsTrue result ↔ HasNumber number now.now }
{
    if index < now.len() && now[index].number == number {
        return true;
    }
    now.iter().any(|process| process.number == number)
}
