// The processes that a record names, one by one: whose wait ends, and which are ready.

ghost use Rattle.std.specs.Prelude.{◌≡◌, ◌↔◌, ◌+◌, IsTrue, nat_le};
ghost use Rattle.apex_machine.specs.Choice as choice;
ghost use Rattle.apex_machine.specs.DueTimes.{due_by, falls_due};
ghost use Rattle.apex_machine.specs.State.{is_named, item_at, time_of};
ghost use Rattle.wait_set.specs.Givens.{answer_given};
ghost use Rattle.piece_check.specs.Evidence.{MayWake, misnamed, misnamed_at_tick};
ghost use Rattle.piece_check.specs.Held.{partition_part};

use crate::held::Held;
use crate::partition_piece::PartitionPiece;
use crate::piece::Piece;
use crate::waking::set_woken_by_record;
use apex_machine::{Process, Wait};
use apex_types::{Body, CoreId, ProcId, Who, Woken};
use wait_set::Given;

/// How a record names a process wrongly.
#[derive(Clone, Copy, Debug, PartialEq, Eq)]
pub enum Misnaming {
    /// The process's wait ends, and the record does not name it.
    Missing,
    /// The record names the process, and its wait does not end.
    Unexpected,
}

impl Piece {
    /// How a tick of this core that names these processes names a process of the piece's partition wrongly, if it does: the wait of each
    /// process that falls due ends. None if the piece is not a partition's.
    pub fn misnamed_at_tick(
        &self,
        core: CoreId,
        woken: &Woken,
        process: ProcId,
    ) -> Option<Misnaming>
        ensures { result ≡ misnamed_at_tick self.now.part core woken.now process }
    {
        match &self.held {
            Held::Partition(piece) => {
                let who = Who {
                    part: piece.number,
                    proc: process,
                };
                wrongly_named(
                    piece.falls_due(core, process),
                    is_named(who, woken.as_slice()),
                )
            }
            Held::Module(_) | Held::Channel(_) => None,
        }
    }

    /// Whether a record of others can end the wait of this process of the piece's partition: the process waits at the channel of the record,
    /// to receive if a message is sent or arrives, and to send if one is received or departs, or if the queue is cleared. False if the piece
    /// is not a partition's.
    pub fn may_wake(&self, body: &Body, process: ProcId) -> bool
        ensures { IsTrue result ↔ MayWake self.now.part body.now process }
    {
        match &self.held {
            Held::Partition(piece) => piece.may_wake(body, process),
            Held::Module(_) | Held::Channel(_) => false,
        }
    }
}

impl PartitionPiece {
    // Whether the wait of a process falls due at the next tick of this core.
    fn falls_due(&self, core: CoreId, process: ProcId) -> bool
        ensures { result ≡ falls_due core (time_of self.now.clock.cores core + 1) (item_at self.now.state.table process) }
    {
        let now = self.clock.now(core);
        match self.state.processes().proc(process) {
            Some(found) => found.affinity == core && is_due_after(now, found.wait),
            None => false,
        }
    }

    // Whether a record of others can end the wait of a process.
    fn may_wake(&self, body: &Body, process: ProcId) -> bool
        ensures { IsTrue result ↔ MayWake (partition_part self.now) body.now process }
    {
        let Some(wanted) = set_woken_by_record(body) else {
            return false;
        };
        let who = Who {
            part: self.number,
            proc: process,
        };
        self.state
            .processes()
            .all_wait_at(wanted, self.number, &[who])
    }
}

/// How a record that names these processes names a process wrongly, if it does, given what the call, the arrival or the departure gives.
pub fn misnamed_by(given: &Given<'_>, woken: &Woken, who: &Who) -> Option<Misnaming>
    ensures { result ≡ misnamed (is_named who.now (answer_given given.now).woken) (is_named who.now woken.now) }
{
    let named = is_named(*who, woken.as_slice());
    wrongly_named(given.woken.has(*who), named)
}

/// Whether a process is ready on a core: it is neither dormant nor suspended, it waits for nothing, and the core is its own.
pub fn is_ready(process: &Process, core: CoreId) -> bool
    ensures { result ≡ choice.is_ready core process.now }
{
    process.alive
        && !process.faulted
        && !process.suspended
        && matches!(process.wait, Wait::Nothing)
        && process.affinity == core
}

// How a record names a process wrongly, by whether its wait ends and whether the record names it.
fn wrongly_named(ends: bool, named: bool) -> Option<Misnaming>
    ensures { result ≡ misnamed ends named }
{
    match (ends, named) {
        (true, false) => Some(Misnaming::Missing),
        (false, true) => Some(Misnaming::Unexpected),
        (true, true) | (false, false) => None,
    }
}

// Whether a list names this process.
fn is_named(who: Who, named: &[Who]) -> bool
    ensures { result ≡ is_named who named.now }
{
    named.iter().any(|other| who == *other)
}

// Whether a wait is over once the core's time is one tick later than this.
fn is_due_after(now: u64, wait: Wait) -> bool
    ensures { result ≡ due_by (now + 1) wait }
{
    match wait {
        Wait::FirstRelease(due)
        | Wait::Delay(due)
        | Wait::Until(due)
        | Wait::PeriodicRelease(due) => is_reached_after(now, due),
        Wait::Suspended(Some(due)) | Wait::At(_, Some(due)) => is_reached_after(now, due),
        Wait::Nothing
        | Wait::NormalMode(_)
        | Wait::Suspended(None)
        | Wait::At(_, None)
        | Wait::ForLock => false,
    }
}

// Whether a time is reached once a core is one tick later than this.
fn is_reached_after(now: u64, due: u64) -> bool
    ensures { result ≡ nat_le due (now + 1) }
{
    if due == 0 {
        return true;
    }
    due - 1 <= now
}
