// Which processes are ready or fall due, and in which order.

ghost use Rattle.std.specs.Prelude.{◌≡◌, Some, nat_eq};
ghost use Rattle.apex_machine.specs.Choice as choice;
ghost use Rattle.apex_machine.specs.DueTimes as due_times;
ghost use Rattle.scheduling.specs.Due as due;
ghost use Rattle.scheduling.specs.Firsts as firsts;
ghost use Rattle.scheduling.specs.Orders.{IsInOrder};
ghost use Rattle.scheduling.specs.Ranks as ranks;
ghost use Rattle.scheduling.specs.Ranks.{due_before, due_laws, rank_before, rank_laws};

use crate::sorted::{Key, Sorted};
use crate::wait;
use apex_machine::Process;
use apex_types::{CoreId, PartId, ProcId, Who};

/// The key by which ready processes are ordered: the core, and on it the priority, the ready position and the number.
#[derive(Clone, Copy)]
pub struct Rank {
    position: u64,
    number: ProcId,
    core: CoreId,
    priority: u8,
}

impl Key for Rank {
    ghost before = { rank_before };

    fn goes_before(&self, other: &Rank) -> bool {
        self.core < other.core
            || self.core == other.core
                && (self.priority > other.priority
                    || self.priority == other.priority
                        && (self.position < other.position
                            || self.position == other.position && self.number < other.number))
    }

    fn core(&self) -> CoreId {
        self.core
    }

    ghost is_order = { rank_laws };
}

impl Rank {
    /// The rank of this process, if it is ready.
    pub fn of(number: ProcId, process: &Process) -> Option<Rank>
        ensures { result ≡ ranks.rank_of number process.now }
    {
        if is_ready(process) {
            Some(Rank {
                core: process.affinity,
                priority: process.current_priority,
                position: process.ready_position,
                number,
            })
        } else {
            None
        }
    }
}

/// The key by which processes whose waits end at a time are ordered: the core, and on it the due time, in ticks, and the number.
#[derive(Clone, Copy)]
pub struct DueTime {
    time: u64,
    number: ProcId,
    core: CoreId,
}

impl DueTime {
    /// The due time of this process, if its wait has one.
    pub fn of(number: ProcId, process: &Process) -> Option<DueTime>
        ensures { result ≡ ranks.due_time_of number process.now }
    {
        match wait::time_due(process.wait) {
            Some(time) => Some(DueTime {
                core: process.affinity,
                time,
                number,
            }),
            None => None,
        }
    }

    /// The deadline of this process, if it has one.
    pub fn of_deadline(number: ProcId, process: &Process) -> Option<DueTime>
        ensures { result ≡ ranks.deadline_time_of number process.now }
    {
        match process.deadline {
            Some(time) => Some(DueTime {
                core: process.affinity,
                time,
                number,
            }),
            None => None,
        }
    }
}

impl Key for DueTime {
    ghost before = { due_before };

    fn goes_before(&self, other: &DueTime) -> bool {
        self.core < other.core
            || self.core == other.core
                && (self.time < other.time || self.time == other.time && self.number < other.number)
    }

    fn core(&self) -> CoreId {
        self.core
    }

    ghost is_order = { due_laws };
}

/// The process of the first of these ranks that is of this core, if one is.
pub fn first_on(ranks: &Sorted<Rank>, core: CoreId) -> Option<ProcId>
    ensures { result ≡ firsts.first_on core ranks.now.keys }
{
    let ranks_in_order = ranks.as_slice();
    let place = ranks
        .guess(core)
        .begin()
        .passing(ranks_in_order, |rank| rank.core < core);
    match ranks_in_order.get(place) {
        Some(rank) if rank.core == core => Some(rank.number),
        _ => None,
    }
}

/// How many of these due times are of this core and not above this time, in ticks.
pub fn due_count(due_times: &Sorted<DueTime>, core: CoreId, time: u64) -> usize
    ensures { result ≡ firsts.due_count core time due_times.now.keys }
{
    let (guess, in_order) = (due_times.guess(core), due_times.as_slice());
    let earlier = guess.begin().passing(in_order, |due| due.core < core);
    let reached = guess.passing(
        in_order,
        |due| due.core < core || due.core == core && due.time <= time,
    );
    reached - earlier
}

/// Whether one of these due times is of this core and not above this time, in ticks.
pub fn is_some_reached(due_times: &Sorted<DueTime>, core: CoreId, time: u64) -> bool
    ensures { result ≡ firsts.some_reached core time due_times.now.keys }
{
    let in_order = due_times.as_slice();
    // Most partitions have no deadlines.
    if in_order.is_empty() {
        return false;
    }
    let place = due_times
        .guess(core)
        .begin()
        .passing(in_order, |due| due.core < core);
    match in_order.get(place) {
        Some(due) => due.core == core && due.time <= time,
        None => false,
    }
}

/// Whether the process is ready on its own core: it is neither dormant, faulted nor suspended, and waits for nothing.
pub fn is_ready(process: &Process) -> bool
    ensures { result ≡ ranks.is_ready_there process.now }
{
    process.alive && !process.faulted && !process.suspended && wait::is_none(process.wait)
}

/// Whether the process's wait is over once its core, which must be this one, reaches this time, in ticks.
pub fn falls_due(process: &Process, core: CoreId, time: u64) -> bool
    ensures { result ≡ due_times.falls_due core time (Some process.now) }
{
    process.affinity == core && wait::is_due(process.wait, time)
}

/// Whether this process is of this partition.
pub fn is_of(who: Who, part: PartId) -> bool
    ensures { result ≡ nat_eq who.part part }
{
    who.part == part
}

/// How many of these processes are of this partition.
pub fn count_of(part: PartId, named: &[Who]) -> usize
    ensures { result ≡ due.count_of part named.now }
{
    let mut count = 0;
    for who in named {
        if is_of(*who, part) {
            count += 1;
        }
    }
    count
}
