// The processes of a partition under their numbers.

ghost use Rattle.std.specs.Prelude.{◌≡◌, ◌≢◌, ◌<◌, ◌+◌, ◌∷◌, ◌↔◌, [], IfOk, IsTrue, MatchOption, None, length, option_map, pos, slice_get};
ghost use Rattle.std.specs.Map.Iter.{deref_pair};
ghost use Rattle.std.specs.Option.{option_copied};
ghost use Rattle.apex_types.specs.Rising.{IsRising};
ghost use Rattle.apex_machine.specs.Answer.{is_new};
ghost use Rattle.apex_machine.specs.Arguments.{natural_of};
ghost use Rattle.apex_machine.specs.Choice.{choice_in, choice_under, is_one_alive, is_one_ready};
ghost use Rattle.apex_machine.specs.declared.state.Process.{Process as ProcessValue};
ghost use Rattle.apex_machine.specs.Conditions.{is_taken};
ghost use Rattle.apex_machine.specs.Demands.{AllWaitAt};
ghost use Rattle.apex_machine.specs.Deadlines as deadlines;
ghost use Rattle.apex_machine.specs.DueTimes as due_times;
ghost use Rattle.apex_machine.specs.Names.{number_named};
ghost use Rattle.apex_machine.specs.ProcessConditions.{created_count};
ghost use Rattle.apex_machine.specs.Services.{waits_for_mutex};
ghost use Rattle.apex_machine.specs.State.{created, first_processes, is_free, item_at};
ghost use Rattle.apex_machine.specs.Waiting as waiting;
ghost use Rattle.indexmap.specs.IndexMap.{spare};
ghost use Rattle.scheduling.specs.Due.{DueAreNamed, NamedFallDue};
ghost use Rattle.scheduling.specs.Processes.{processes_in};
ghost use Rattle.std.specs.List.{find};

mod changes;
mod records;

use crate::deadline::has_missed;
use crate::number::{natural_number, process_number};
use crate::order::{
    DueTime, Rank, count_of, due_count, falls_due, first_on, is_ready, is_some_reached,
};
use crate::sorted::Sorted;
use crate::{process, wait};
use apex_machine::{Mode, Process, WaitingSet};
use apex_types::limits::GREATEST_NUMBER;
use apex_types::{CoreId, Name, PartId, Place, ProcId, Who, Woken};
use indexmap::IndexMap;
use std::alloc::{AllocError, Global};
use std::marker::Model;

/// The processes of one partition, in the order of their creation, and the partition's mode. Its promises hold for any partition that has
/// this mode and these processes. Process number 0 is the initialising process.
///
/// With them are the ranks of those that are ready, the due times of those that wait and the deadlines, each in its order, with room for one
/// of each process. So only the creation of a process takes memory for them. There is always room for the initialising process, so that a
/// restart takes none.
#[derive(Drop)]
pub struct ProcTable {
    mode: Mode,
    processes: IndexMap<ProcId, Process>,
    ready: Sorted<Rank>,
    due: Sorted<DueTime>,
    deadlines: Sorted<DueTime>,
}

impl Model for ProcTable {
    ghost use Rattle.indexmap.specs.IndexMap.{spare};
    ghost use Rattle.scheduling.specs.Kept.{IsKept};
    ghost use Rattle.scheduling.specs.Processes.{Processes, processes_in};

    ghost Value = { Processes };

    ghost view = { λ table. processes_in table.mode table.processes.entries };

    ghost invariant = { λ table. IsKept table.processes.entries (spare table.processes) table.ready table.due table.deadlines };
}

impl ProcTable {
    /// A partition as it starts cold: its initialising process alone, on its first core.
    ///
    /// AllocError if memory is refused.
    pub fn new(alloc: Global, first_core: CoreId) -> Result<ProcTable, AllocError>
        ensures { IfOk result (λ table. table ≡ processes_in Mode.ColdStart (first_processes Mode.ColdStart first_core 0)) }
    {
        let mut ready = Sorted::new(alloc);
        ready.reserve(1)?;
        let mut due = Sorted::new(alloc);
        due.reserve(1)?;
        let mut deadlines = Sorted::new(alloc);
        deadlines.reserve(1)?;
        let mut table = ProcTable {
            mode: Mode::Idle,
            processes: IndexMap::with_capacity(alloc, 1)?,
            ready,
            due,
            deadlines,
        };
        table.restart(Mode::ColdStart, first_core, Place::new(0));
        Ok(table)
    }

    /// The partition's mode.
    pub fn mode(&self) -> Mode
        ensures { result ≡ self.now.mode }
    {
        self.mode
    }

    /// The process of this number, the initialising one included, or None if there is none.
    pub fn proc(&self, number: ProcId) -> Option<&Process>
        ensures { option_copied result ≡ item_at self.now.table number }
    {
        // Numbers mostly rise by one from 0, so a process is mostly at the index of its number.
        match self.processes.get_index(number.number() as usize) {
            Some((found, process)) if *found == number => Some(process),
            _ => self.processes.get(&number),
        }
    }

    /// The created process of this number, as a caller gives it, or None if there is none: nobody created number 0.
    pub fn created(&self, number: i64) -> Option<&Process>
        ensures { option_copied result ≡ created self.now.table number }
    {
        let processes = &self.processes;
        let process = process_number(number)?;
        if number == 0 {
            return None;
        }
        processes.get(&process)
    }

    /// The number of the created process that a caller gives, or None if there is none of that number.
    pub fn created_number(&self, number: i64) -> Option<ProcId>
        ensures { MatchOption result (created self.now.table number ≡ None) (λ found. (number ≡ pos found) × (created self.now.table number ≢ None)) }
    {
        // A fact of every table, that its numbers fit 32 bits, is known when one of its fields is used.
        let _ = &self.processes;
        let process = process_number(number)?;
        self.created(number)?;
        Some(process)
    }

    /// The process of the number that a caller gives, as the definitions read it: the initialising one for a number below 0. None if there
    /// is none.
    pub fn numbered(&self, number: i64) -> Option<&Process>
        ensures { option_copied result ≡ item_at self.now.table (natural_of number) }
    {
        let processes = &self.processes;
        let process = natural_number(number)?;
        processes.get(&process)
    }

    /// Whether a process has this name.
    pub fn named(&self, name: &Name) -> bool
        ensures { result ≡ is_taken (λ (process : ProcessValue). process.name) name.now self.now.table }
    {
        self.processes
            .values()
            .any(|process| name.as_bytes() == process.name.as_bytes())
    }

    /// The number of the process that has this name, or None if none has it.
    pub fn number_named(&self, name: &Name) -> Option<ProcId>
        ensures { result ≡ number_named (λ (process : ProcessValue). process.name) name.now self.now.table }
    {
        let (number, _) = self
            .processes
            .iter()
            .find(|(_, process)| name.as_bytes() == process.name.as_bytes())?;
        Some(*number)
    }

    /// How many processes are created: all but the initialising one.
    pub fn len(&self) -> usize
        ensures { result ≡ created_count self.now.table }
    {
        self.processes.len().saturating_sub(1)
    }

    /// The process of this index in the order of creation, with its number, or None if there are no more. Index 0 is the initialising
    /// process.
    pub fn at(&self, index: usize) -> Option<(&ProcId, &Process)>
        ensures { option_map deref_pair result ≡ slice_get self.now.table index }
    {
        self.processes.get_index(index)
    }

    /// The process that this core is to run if the window is this partition's, whose lock this process owns, if one does: the owner if it is
    /// ready on the core, else the ready process that no other goes before, or None if none is ready.
    pub fn choice_on(&self, part: PartId, core: CoreId, owner: Option<ProcId>) -> Option<Who>
        ensures { result ≡ choice_under part core owner self.now.table }
    {
        match owner {
            Some(proc) if self.is_ready_on(core, proc) => Some(Who { part, proc }),
            _ => self.ready_on(part, core),
        }
    }

    /// The ready process of this core that no other goes before, or None if none is ready.
    pub fn ready_on(&self, part: PartId, core: CoreId) -> Option<Who>
        ensures { result ≡ choice_in part core self.now.table }
    {
        match first_on(&self.ready, core) {
            Some(proc) => Some(Who { part, proc }),
            None => None,
        }
    }

    /// Whether, of this partition, the list names exactly the processes of the core whose wait is over once the core reaches this time, in
    /// ticks.
    pub fn names_those_due(&self, part: PartId, core: CoreId, time: u64, woken: &Woken) -> bool
        ensures { IsTrue result ↔ due_times.NamesThoseDue part core time self.now.table woken.now }
    {
        let named = woken.as_slice();
        self.named_fall_due(part, core, time, named) && self.due_are_named(part, core, time, named)
    }

    /// Whether a process of this core has missed its deadline at this time of the core, in ticks.
    pub fn is_some_missed(&self, core: CoreId, now: u64) -> bool
        ensures { result ≡ deadlines.some_missed core now self.now.table }
    {
        is_some_reached(&self.deadlines, core, now)
    }

    /// The first process in the order of creation that runs on this core and has missed its deadline at this time of the core, in ticks, with
    /// its number, or None if there is none.
    pub fn first_missed(&self, core: CoreId, now: u64) -> Option<(&ProcId, &Process)>
        ensures { option_map deref_pair result ≡ find (λ entry. deadlines.has_missed core now entry.1) self.now.table }
    {
        self.processes
            .iter()
            .find(|(_, process)| has_missed(process, core, now))
    }

    /// Whether there is a process of this number that runs on this core and has missed its deadline at this time of the core, in ticks.
    pub fn is_missed(&self, number: ProcId, core: CoreId, now: u64) -> bool
        ensures { result ≡ deadlines.is_missed core now (item_at self.now.table number) }
    {
        match self.proc(number) {
            Some(process) => has_missed(process, core, now),
            None => false,
        }
    }

    /// Whether a claimed value is a number that a new process can take: it is from 1 to 2,147,483,647, and no process has it.
    pub fn is_new_number(&self, claimed: Option<i64>) -> bool
        ensures { result ≡ is_new (is_free self.now.table) claimed }
    {
        match claimed {
            Some(number) => {
                number > 0
                    && number <= GREATEST_NUMBER as i64
                    && self.proc(ProcId::new(number as u32)).is_none()
            }
            None => false,
        }
    }

    /// Whether each process of this partition that the list names waits in this set.
    pub fn all_wait_at(&self, wanted: WaitingSet, part: PartId, woken: &[Who]) -> bool
        ensures { IsTrue result ↔ AllWaitAt wanted part self.now.table woken.now }
    {
        woken
            .iter()
            .all(|who| who.part != part || self.waits_at(wanted, who.proc))
    }

    /// Whether the process of this number waits for a mutex; the number is read as `numbered` reads it.
    pub fn waits_for_mutex(&self, number: i64) -> bool
        ensures { result ≡ waits_for_mutex self.now.table (natural_of number) }
    {
        match self.numbered(number) {
            Some(process) => wait::is_for_mutex(process.wait),
            None => false,
        }
    }

    /// Whether the next release of this process is reached at this time, in ticks: a period after its last one, if it has a period.
    pub fn is_released(&self, now: u64, number: ProcId) -> bool
        ensures { result ≡ due_times.is_released now (item_at self.now.table number) }
    {
        match self.proc(number) {
            Some(process) => process::is_released(process, now),
            None => false,
        }
    }

    /// Whether there is a process of this number that is ready on this core.
    pub fn is_ready_on(&self, core: CoreId, number: ProcId) -> bool
        ensures { result ≡ is_one_ready core (item_at self.now.table number) }
    {
        match self.proc(number) {
            Some(process) => process.affinity == core && is_ready(process),
            None => false,
        }
    }

    /// Whether there is a process of this number that is not dormant.
    pub fn is_alive(&self, number: ProcId) -> bool
        ensures { result ≡ is_one_alive (item_at self.now.table number) }
    {
        match self.proc(number) {
            Some(process) => process.alive,
            None => false,
        }
    }

    // Whether there is a process of this number that waits in this set.
    fn waits_at(&self, wanted: WaitingSet, number: ProcId) -> bool
        ensures { result ≡ waiting.waits_at wanted (item_at self.now.table number) }
    {
        match self.proc(number) {
            Some(process) => process.alive && wait::is_in(process.wait, wanted),
            None => false,
        }
    }

    // Whether each process of this partition that the list names falls due.
    fn named_fall_due(&self, part: PartId, core: CoreId, time: u64, woken: &[Who]) -> bool
        ensures { IsTrue result ↔ NamedFallDue part core time self.now.table woken.now }
    {
        woken.iter().all(|who| who.part != part || self.is_due(who.proc, core, time))
    }

    // Whether the list names each process of this partition that falls due, if it names none twice and only processes that do: it names as
    // many as fall due.
    fn due_are_named(&self, part: PartId, core: CoreId, time: u64, woken: &[Who]) -> bool
        requires rising { IsRising woken.now }
        requires each { NamedFallDue part core time self.now.table woken.now }
        ensures { IsTrue result ↔ DueAreNamed part core time self.now.table woken.now }
    {
        // That no number occurs twice in the map is known when the map is used.
        let _ = self.processes.len();
        count_of(part, woken) == due_count(&self.due, core, time)
    }

    // Whether there is a process of this number on this core whose wait is over once the core reaches this time.
    fn is_due(&self, number: ProcId, core: CoreId, time: u64) -> bool
        ensures { result ≡ due_times.falls_due core time (item_at self.now.table number) }
    {
        match self.proc(number) {
            Some(process) => falls_due(process, core, time),
            None => false,
        }
    }
}

impl Clone for ProcTable {
    ghost is_clone = { λ table copy. copy ≡ table };

    fn clone(&self) -> Result<ProcTable, AllocError> {
        Ok(ProcTable {
            mode: self.mode,
            processes: copied(&self.processes)?,
            ready: self.ready.copy()?,
            due: self.due.copy()?,
            deadlines: self.deadlines.copy()?,
        })
    }
}

// The same processes, with room for the initialising process if there are none.
fn copied(processes: &IndexMap<ProcId, Process>) -> Result<IndexMap<ProcId, Process>, AllocError>
    ensures entries { IfOk result (λ copy. copy.entries ≡ processes.now.entries) }
    ensures room { IfOk result (λ copy. 0 < length copy.entries + spare copy) }
{
    let mut copy = processes.clone()?;
    if !copy.is_empty() {
        return Ok(copy);
    }
    copy.reserve(1)?;
    Ok(copy)
}
