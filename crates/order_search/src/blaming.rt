// What a record is rejected for.

use crate::held::{clock_of, partition_of};
use crate::pieces::{Pieces, Rejection};
use crate::reach::{touched_by_call, touched_by_crossing};
use crate::things::Thing;
use apex_machine::{Process, Wait};
use apex_types::{Body, Cause, CoreId, Ordered, PartId, Who, Woken};
use piece_check::{Piece, Subject};
use scheduling::ProcTable;
use std::alloc::AllocError;

/// Adds what the machine looked at when it rejected a record of a core at this time.
pub fn blame(
    pieces: &Pieces<'_>,
    ordered: &Ordered,
    time: u64,
    rejection: Rejection,
    things: &mut Vec<Thing>,
) -> Result<(), AllocError> {
    if rejection.piece == 0 || matches!(rejection.cause, Cause::Names | Cause::Window) {
        return Ok(());
    }
    let Some(piece) = pieces.get(rejection.piece) else {
        return Ok(());
    };
    match piece.subject() {
        Subject::Module => Ok(()),
        Subject::Channel(number) => {
            things.push(Thing::Channel(number))?;
            blame_use(&ordered.rec.body, things)
        }
        Subject::Partition(part) => {
            things.push(Thing::Mode(part))?;
            blame_lock(piece, part, things)?;
            blame_in_partition(piece, part, ordered, time, rejection.cause, things)
        }
    }
}

// Adds the lock of a partition, if a process owns it: it has a part in the choice and in who may wait.
fn blame_lock(piece: &Piece, part: PartId, things: &mut Vec<Thing>) -> Result<(), AllocError> {
    if partition_of(piece).is_some_and(|state| state.lock().owner().is_some()) {
        things.push(Thing::Lock(part))?;
    }
    Ok(())
}

// Adds what a partition's piece looked at.
fn blame_in_partition(
    piece: &Piece,
    part: PartId,
    ordered: &Ordered,
    time: u64,
    cause: Cause,
    things: &mut Vec<Thing>,
) -> Result<(), AllocError> {
    if cause == Cause::Choice {
        return blame_choice(piece, part, ordered, things);
    }
    if cause == Cause::Deadline {
        return blame_deadline(piece, part, ordered, time, things);
    }
    match &ordered.rec.body {
        Body::Disp(_) => Ok(()),
        Body::Ret(ret) => {
            things.push(Thing::from(ret.who))?;
            Ok(())
        }
        Body::Error(report) => {
            things.push(Thing::from(report.who))?;
            Ok(())
        }
        Body::Call(_) | Body::Arrive(_) | Body::Depart(_) => {
            blame_use(&ordered.rec.body, things)
        }
        Body::Tick(woken) => match partition_of(piece) {
            Some(state) => blame_tick(state.processes(), part, ordered.core, time, woken, things),
            None => Ok(()),
        },
    }
}

// Adds what a call is about, and its caller; of an arrival and a departure what they are about.
fn blame_use(body: &Body, things: &mut Vec<Thing>) -> Result<(), AllocError> {
    match body {
        Body::Arrive(crossing) | Body::Depart(crossing) => touched_by_crossing(crossing, things),
        Body::Call(call) => {
            things.push(Thing::from(call.who))?;
            touched_by_call(call, things)
        }
        Body::Ret(_) | Body::Disp(_) | Body::Tick(_) | Body::Error(_) => Ok(()),
    }
}

// Adds the choice, and the process that the record expects instead.
fn blame_choice(
    piece: &Piece,
    part: PartId,
    ordered: &Ordered,
    things: &mut Vec<Thing>,
) -> Result<(), AllocError> {
    if let Some(state) = partition_of(piece) {
        if let Some(who) = state.choice_on(part, ordered.core) {
            things.push(Thing::from(who))?;
        }
    }
    if let Some(who) = expected_by(piece, ordered) {
        things.push(Thing::from(who))?;
    }
    Ok(())
}

// Adds the process whose deadline is missed and not reported, or that of the error.
fn blame_deadline(
    piece: &Piece,
    part: PartId,
    ordered: &Ordered,
    time: u64,
    things: &mut Vec<Thing>,
) -> Result<(), AllocError> {
    if let Body::Error(report) = &ordered.rec.body {
        things.push(Thing::from(report.who))?;
        return Ok(());
    }
    let Some(state) = partition_of(piece) else {
        return Ok(());
    };
    if let Some((proc, _)) = state.processes().first_missed(ordered.core, time) {
        things.push(Thing::from(Who { part, proc: *proc }))?;
    }
    Ok(())
}

/// The process that a record expects to be the choice.
pub fn expected_by(piece: &Piece, ordered: &Ordered) -> Option<Who> {
    match &ordered.rec.body {
        Body::Disp(who) => *who,
        Body::Tick(_) => clock_of(piece)?.on(ordered.core),
        Body::Call(call) => Some(call.who),
        Body::Ret(ret) => Some(ret.who),
        Body::Arrive(_) | Body::Depart(_) | Body::Error(_) => None,
    }
}

// Adds each process whose wait ends at a tick and that the tick does not name, or the reverse. The time is that before the tick.
fn blame_tick(
    table: &ProcTable,
    part: PartId,
    core: CoreId,
    time: u64,
    woken: &Woken,
    things: &mut Vec<Thing>,
) -> Result<(), AllocError> {
    // The initialising process is not among those that are counted.
    for index in 0..usize::saturating_add(table.len(), 1) {
        if let Some((proc, process)) = table.at(index) {
            let who = Who { part, proc: *proc };
            let is_named = woken.as_slice().contains(&who);
            if falls_due(process, core, time.saturating_add(1)) != is_named {
                things.push(Thing::from(who))?;
            }
        }
    }
    Ok(())
}

// Whether the wait of a process ends at this time of a core.
fn falls_due(process: &Process, core: CoreId, time: u64) -> bool {
    let due = match process.wait {
        Wait::Nothing | Wait::NormalMode(_) | Wait::ForLock => None,
        Wait::FirstRelease(due)
        | Wait::Delay(due)
        | Wait::Until(due)
        | Wait::PeriodicRelease(due) => Some(due),
        Wait::Suspended(due) => due,
        Wait::At(_, due) => due,
    };
    process.alive && process.affinity == core && due.is_some_and(|due| due <= time)
}
