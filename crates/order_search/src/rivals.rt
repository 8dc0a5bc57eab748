// Two records because of whose order another is rejected.

use crate::blaming::expected_by;
use crate::held::partition_of;
use crate::pieces::{Pieces, Rejection};
use crate::tip::Rivals;
use apex_machine::Wait;
use apex_types::{Cause, Ordered, ProcId};
use piece_check::Subject;
use scheduling::ProcTable;

/// If a record is rejected because another process is the choice: the record that made that process ready, and the one that made ready
/// the process that the rejected record expects. None if that process is the choice because it owns the lock.
pub fn rivals_of(pieces: &Pieces<'_>, ordered: &Ordered, rejection: Rejection) -> Option<Rivals> {
    if rejection.cause != Cause::Choice {
        return None;
    }
    let piece = pieces.get(rejection.piece)?;
    let Subject::Partition(part) = piece.subject() else {
        return None;
    };
    let state = partition_of(piece)?;
    let table = state.processes();
    let who = state.choice_on(part, ordered.core)?;
    if state.owns_lock(who.proc) {
        return None;
    }
    let first = table.proc(who.proc)?.ready_position;
    let expected = expected_by(piece, ordered).filter(|who| who.part == part);
    let second = match expected {
        Some(who) => ready_position(table, who.proc),
        None => None,
    };
    Some(Rivals {
        first,
        second: second.filter(|second| first < *second),
    })
}

// The ready position of a process that is ready.
fn ready_position(table: &ProcTable, proc: ProcId) -> Option<u64> {
    let process = table.proc(proc)?;
    let is_ready = process.alive && !process.suspended && process.wait == Wait::Nothing;
    if is_ready {
        Some(process.ready_position)
    } else {
        None
    }
}
