// The changes of a table, one at a time.

ghost use Rattle.std.specs.Prelude.{◌≡◌, ◌<◌, ◌++◌, ◌∷◌, [], Some, pos, IsTrue, OnOk, OnErr};
ghost use Rattle.std.specs.Fn.{FnOnceReturnsAtMut};
ghost use Rattle.apex_types.specs.declared.limits.TheConstants.{PLACE_COUNT};
ghost use Rattle.apex_machine.specs.declared.state.Process.{Process as ProcessValue};
ghost use Rattle.apex_machine.specs.Answer.{is_new};
ghost use Rattle.apex_machine.specs.Processes.{after_normal, granted, new_process, released, restored, stopped, woken_by};
ghost use Rattle.apex_machine.specs.State.{each_item, first_processes, initialising_process, is_free, time_of};
ghost use Rattle.apex_machine.specs.After.{returned};
ghost use Rattle.apex_machine.specs.Errors.{handed_over, healed};
ghost use Rattle.scheduling.specs.Changes.{answered, deadline_taken, named, noted, only, stopped_self, waiting_for, with_each};
ghost use Rattle.scheduling.specs.Processes.{processes_in};
ghost use Rattle.scheduling.specs.Transfers.{transferred};
ghost use Rattle.scheduling.specs.Timely.{IsTimely, TimesFit};

use super::ProcTable;
use crate::moment::{self, Moment};
use crate::number::process_number;
use crate::order::{DueTime, Rank};
use crate::process;
use crate::transfer::Transfer;
use apex_machine::{CoreState, ErrorHandler, ListedError, Mode, Outcome, Process, Wait};
use apex_types::{CoreId, Message, Name, Place, ProcId};
use std::alloc::AllocError;

impl ProcTable {
    /// Adds a new process after the others: dormant, on the partition's first core; aperiodic if the period is below 0, and without deadlines
    /// if the time capacity is. The caller must ensure that no process has its number.
    ///
    /// AllocError if memory is refused; nothing has changed then.
    pub fn create(
        &mut self,
        first_core: CoreId,
        number: ProcId,
        name: &Name,
        priority: u8,
        period: i64,
        time_capacity: i64,
    ) -> Result<(), AllocError>
        requires new { IsTrue (is_new (is_free self.old.table) (Some (pos number))) }
        ensures added { OnOk result (self.new ≡ record self.old { table = self.old.table ++ (number, new_process first_core name.now (pos priority) period time_capacity) ∷ [] }) }
        ensures unchanged { OnErr result (self.new ≡ self.old) }
    {
        let alloc = *self.processes.allocator();
        let created = process::created(alloc, first_core, name, priority, period, time_capacity)?;
        let count = self.processes.len().saturating_add(1);
        self.ready.reserve(count)?;
        self.due.reserve(count)?;
        self.deadlines.reserve(count)?;
        self.processes.insert(number, created)?;
        Ok(())
    }

    /// SET_PARTITION_MODE to NORMAL at this moment: each process that waits for NORMAL enters it. The period is the partition's, in ticks.
    /// Takes no memory.
    pub fn normal(&mut self, period: u64, moment: &Moment<'_>)
        requires { IsTimely period moment.now.cores.now }
        ensures { self.new ≡ record self.old {
          mode = Mode.Normal;
          table = each_item (λ number process. after_normal moment.now.place period (time_of moment.now.cores.now process.affinity) process) self.old.table;
        } }
    {
        self.mode = Mode::Normal;
        let (place, cores) = (moment.place, moment.cores);
        for index in 0..self.processes.len() {
            if let Some((number, _)) = self.processes.get_index(index) {
                let number = *number;
                self.change(number, |process| {
                    let now = time_at(cores, process.affinity);
                    process::enter_normal(process, place, period, now);
                });
            }
        }
    }

    /// SET_PARTITION_MODE to a mode other than NORMAL, at this place: all processes vanish, with their names, waits and outcomes, and the
    /// partition has this mode. Unless that is IDLE, the initialising process is ready again, on the first core. Takes no memory.
    pub fn restart(&mut self, mode: Mode, first_core: CoreId, place: Place)
        ensures { self.new ≡ processes_in mode (first_processes mode first_core place) }
    {
        self.mode = mode;
        self.processes.clear();
        self.ready.clear();
        self.due.clear();
        self.deadlines.clear();
        if mode != Mode::Idle {
            self.begin(first_core, place);
        }
    }

    // The initialising process alone, ready from this place on, on this core. There is room for it.
    fn begin(&mut self, core: CoreId, place: Place)
        requires { self.old.table ≡ [] }
        ensures { self.new ≡ record self.old { table = (0, initialising_process core place) ∷ [] } }
    {
        let alloc = *self.processes.allocator();
        let (number, process) = (ProcId::new(0), process::initialising(alloc, core, place));
        self.ready.put_in(Rank::of(number, &process));
        match self.processes.insert(number, process) {
            Ok(_) | Err(_) => {}
        }
    }

    /// STOP_SELF of the caller, when its core's time is `now`: the caller is dormant. Takes no memory.
    pub fn stop_self(&mut self, caller: ProcId, now: u64)
        ensures { self.new ≡ with_each (only caller (stopped_self now)) self.old }
    {
        self.change(caller, |process| process::stop_self(process, now));
    }

    /// The caller waits from `now` on, its core's time. If its deadline is set, this is the new one, in ticks. Takes no memory.
    pub fn wait(&mut self, caller: ProcId, now: u64, wait: Wait, deadline: Option<Option<u64>>)
        ensures { self.new ≡ with_each (only caller (waiting_for now wait deadline)) self.old }
    {
        self.change(caller, |process| {
            process::begin_wait(process, now, wait, deadline)
        });
    }

    /// The outcome is due to the caller from `now` on, its core's time. If its ready position is renewed, it is the given place; if a
    /// release is reached, that becomes its last one; if its deadline is set, this is the new one. Times are in ticks. Takes no memory.
    pub fn answer(
        &mut self,
        caller: ProcId,
        now: u64,
        renewed: Option<Place>,
        reached: Option<u64>,
        deadline: Option<Option<u64>>,
        outcome: Outcome,
    )
        ensures { self.new ≡ with_each (only caller (answered now renewed reached deadline outcome)) self.old }
    {
        self.change(caller, |process| {
            process::set_due(process, now, renewed, reached, deadline, outcome)
        });
    }

    /// A tick ends the wait of this process, at this place. Takes no memory.
    pub fn release(&mut self, process: ProcId, place: Place)
        ensures { self.new ≡ with_each (only process (released place)) self.old }
    {
        let alloc = *self.processes.allocator();
        self.change(process, |process| process::release(process, alloc, place));
    }

    /// A call at this place, which hands over this message, ends the wait of this process. Takes no memory.
    pub fn wake(&mut self, process: ProcId, place: Place, message: Message)
        ensures { self.new ≡ with_each (only process (woken_by place message)) self.old }
    {
        self.change(process, |process| process::wake(process, place, message));
    }

    /// The outcome that was due to this process has been returned. Takes no memory.
    pub fn ret(&mut self, returner: ProcId)
        ensures { self.new ≡ with_each (returned returner) self.old }
    {
        self.change(returner, |process| process::give_back(process));
    }

    /// The missed deadline of this process has been reported: it has none now. Takes no memory.
    pub fn take_deadline(&mut self, missed: ProcId)
        ensures { self.new ≡ with_each (only missed deadline_taken) self.old }
    {
        self.change(missed, |process| process::take_deadline(process));
    }

    /// An error of this process at this place, which the handler takes: the process is faulted, and the handler, which is process 0, becomes
    /// ready. Takes no memory.
    pub fn hand_over(&mut self, failed: ProcId, place: Place, handler: ErrorHandler)
        ensures { self.new ≡ with_each (handed_over place handler failed) self.old }
    {
        let own = ProcId::new(0);
        self.change(
            own,
            |process| process::start_handler(process, place, handler),
        );
        if failed != own {
            self.change(failed, |process| process::fault(process));
        }
    }

    /// The handler has stopped itself at this place, and these errors are left: each faulted process that has none of them goes on. Takes no
    /// memory.
    pub fn heal(&mut self, place: Place, left: &[ListedError])
        ensures { self.new ≡ with_each (healed place left.now) self.old }
    {
        for index in 0..self.processes.len() {
            if let Some((number, _)) = self.processes.get_index(index) {
                let number = *number;
                self.change(
                    number,
                    |process| process::heal(process, place, number, left),
                );
            }
        }
    }

    /// STOP_SELF of the handler, which has more errors to take, when its core's time is `now`: it stays ready. Takes no memory.
    pub fn note_call(&mut self, caller: ProcId, now: u64)
        ensures { self.new ≡ with_each (only caller (noted now)) self.old }
    {
        self.change(caller, |process| process::note_call(process, now));
    }

    /// STOP of the process that a caller names by this number; if there is none, nothing changes. Takes no memory.
    pub fn stop_named(&mut self, given: i64)
        ensures { self.new ≡ with_each (named given stopped) self.old }
    {
        self.change_named(given, |process| process::stop(process));
    }

    /// This process becomes the owner of a mutex of this priority, and retains its own priority. Takes no memory.
    pub fn grant(&mut self, owner: ProcId, priority: u8)
        ensures { self.new ≡ with_each (only owner (granted priority)) self.old }
    {
        self.change(owner, |process| process::grant(process, priority));
    }

    /// This process stops being the owner of a mutex, and has its own priority again. Takes no memory.
    pub fn ungrant(&mut self, owner: ProcId)
        ensures { self.new ≡ with_each (only owner restored) self.old }
    {
        self.change(owner, |process| process::ungrant(process));
    }

    /// A mutex changes its owner: the process that stops being the owner has its own priority again, and the process that becomes the owner
    /// has the mutex's. Takes no memory.
    pub fn transfer(&mut self, transfer: Transfer)
        ensures { self.new ≡ with_each (transferred transfer) self.old }
    {
        if let Some(owner) = transfer.from {
            self.ungrant(owner);
        }
        if let Some(owner) = transfer.to {
            self.grant(owner, transfer.priority);
        }
    }

    // Changes the process that a caller names by this number in place; if there is none, nothing changes. Takes no memory.
    pub(super) fn change_named<F: FnOnce(&mut Process)>(&mut self, given: i64, change: F)
        requires { F.IsAlwaysCallable change }
        ensures { (becomes : ProcessValue → ProcessValue) → ((old new : ProcessValue) → FnOnceReturnsAtMut F.FnOnce change old tt new → new ≡ becomes old) → self.new ≡ with_each (named given becomes) self.old }
    {
        // A fact of every table, that its numbers fit 32 bits, is known when one of its fields is used.
        let _ = &self.processes;
        if let Some(number) = process_number(given) {
            self.change(number, change);
        }
    }

    // Changes the process of this number in place, if there is one. Takes no memory.
    fn change<F: FnOnce(&mut Process)>(&mut self, number: ProcId, change: F)
        requires { F.IsAlwaysCallable change }
        ensures { (becomes : ProcessValue → ProcessValue) → ((old new : ProcessValue) → FnOnceReturnsAtMut F.FnOnce change old tt new → new ≡ becomes old) → self.new ≡ with_each (only number becomes) self.old }
    {
        if let Some(process) = self.processes.get_mut(&number) {
            let (old_rank, old_due) = (Rank::of(number, process), DueTime::of(number, process));
            let old_deadline = DueTime::of_deadline(number, process);
            change(process);
            let (rank, due) = (Rank::of(number, process), DueTime::of(number, process));
            let deadline = DueTime::of_deadline(number, process);
            self.ready.replace(old_rank, rank);
            self.due.replace(old_due, due);
            self.deadlines.replace(old_deadline, deadline);
        }
    }
}

// The time of a core, in ticks, or 0 if there is no such core.
pub(super) fn time_at(cores: &[CoreState], core: CoreId) -> u64
    requires { TimesFit cores.now }
    ensures value { result ≡ time_of cores.now core }
    ensures below { result < PLACE_COUNT }
{
    moment::time_of(cores, core)
}
