// Waits that end, and the processes that leave a waiting set then: by a STOP, at a tick, by a record of others; and returns.

ghost use Rattle.std.specs.Prelude.{◌≡◌, ◌≢◌, ℕ, List, None, OnErr, OnOk};
ghost use Rattle.apex_types.specs.declared.record.Body.TheVariants.{Tick};
ghost use Rattle.apex_machine.specs.declared.state.CoreState.{CoreState};
ghost use Rattle.apex_machine.specs.declared.state.Wait.TheVariants as wait;
ghost use Rattle.apex_machine.specs.After.{partition_by, partition_woken, returned, sets_left};
ghost use Rattle.apex_machine.specs.Arguments.{natural_of};
ghost use Rattle.apex_machine.specs.Configuration.{Configuration};
ghost use Rattle.apex_machine.specs.Services.{peer};
ghost use Rattle.apex_machine.specs.State.{created, each_item, item_at};
ghost use Rattle.apex_laws.specs.PartLaws.{HasDistinctObjects, IsSoundPart};
ghost use Rattle.apex_laws.specs.PartObjects.{left_by};
ghost use Rattle.apex_laws.specs.PartSets.{left_if_there};
ghost use Rattle.partition_state.specs.Calls.{IsAtWork, with_lock_stopped};
ghost use Rattle.partition_state.specs.Leaving.{HasEntryWhereItWaits, HasEntryOnlyAt};

use crate::state::PartitionState;
use apex_machine::{Wait, WaitingSet};
use apex_types::{Call, ObjectKind, PartId, Place, ProcId, Who, Woken};
use std::alloc::AllocError;
use wait_set::ApexObject;

impl PartitionState {
    /// Takes a process out of the waiting set that this wait names, if it names one. Takes no memory.
    pub(crate) fn leave_set(&mut self, who: Who, wait: Wait)
        requires objects { HasDistinctObjects self.old }
        requires alone { HasEntryOnlyAt who wait self.old }
        ensures { self.new ≡ left_by who wait self.old }
    {
        match wait {
            Wait::At(wanted, _) => self.leave_object(who, wanted),
            Wait::ForLock => {
                self.lock.leave(who);
            }
            _ => {}
        }
    }

    // Takes a process out of this waiting set of an object.
    fn leave_object(&mut self, who: Who, wanted: WaitingSet)
        requires objects { HasDistinctObjects self.old }
        requires alone { HasEntryOnlyAt who (wait.At wanted None) self.old }
        ensures { self.new ≡ left_by who (wait.At wanted None) self.old }
    {
        match wanted.kind {
            ObjectKind::Buffer => self.buffers.leave(wanted.number, who),
            ObjectKind::Blackboard => self.blackboards.leave(wanted.number, who),
            ObjectKind::Semaphore => self.semaphores.leave(wanted.number, who),
            ObjectKind::Event => self.events.leave(wanted.number, who),
            ObjectKind::Mutex => self.mutexes.leave(wanted.number, who),
            ObjectKind::SamplingPort | ObjectKind::QueuingPort => {}
        }
    }

    // Takes a process out of the waiting set in which the table says that it waits, if there is such a process. Takes no memory.
    fn leave(&mut self, who: Who)
        requires objects { HasDistinctObjects self.old }
        requires alone { HasEntryWhereItWaits who self.old }
        ensures { self.new ≡ left_if_there who (item_at self.old.table who.proc) self.old }
    {
        if let Some(process) = self.processes.proc(who.proc) {
            let wait = process.wait;
            self.leave_set(who, wait);
        }
    }

    /// STOP of the process that a caller gives, by a claim that is what the service gives. The process leaves the waiting set in which it
    /// waits, and if it owns the lock, gives it up. Takes no memory.
    pub(crate) fn stop(&mut self, place: Place, call: &Call, process: i64)
        requires at_work { IsAtWork place self.old call.now.who }
        requires found { created self.old.table process ≢ None }
        ensures { self.new ≡ left_if_there (peer call.now.who process) (created self.old.table process) (with_lock_stopped (natural_of process) call.now.claim.woken self.old) }
    {
        if let Some(proc) = self.processes.created_number(process) {
            let target = Who {
                part: call.who.part,
                proc,
            };
            self.lock.stop(proc, call.claim.woken.as_slice());
            self.leave(target);
        }
    }

    /// The processes of this partition that a tick names leave the waiting sets in which they wait. Takes no memory.
    pub(crate) fn leave_named(&mut self, part: PartId, place: Place, woken: &Woken)
        requires sound { IsSoundPart part place self.old }
        ensures { self.new ≡ sets_left place (Tick woken.now) self.old }
    {
        let named = woken.as_slice();
        for who in named {
            if who.part == part {
                self.leave(*who);
            }
        }
    }

    /// A tick at this place that ends the waits of these processes. They leave their waiting sets, and their waits end. Those of other
    /// partitions are skipped. Takes no memory.
    pub fn tick(&mut self, part: PartId, place: Place, woken: &Woken)
        requires sound { IsSoundPart part place self.old }
        ensures { (configuration : Configuration) (cores : List CoreState) (core : ℕ) → self.new ≡ partition_by configuration cores place core part (Tick woken.now) self.old }
    {
        self.leave_named(part, place, woken);
        self.processes.tick(part, place, woken);
    }

    /// A return by this process: the outcome that was due to it is no longer due. Takes no memory.
    pub fn ret(&mut self, number: ProcId)
        ensures { self.new ≡ record self.old { table = each_item (returned number) self.old.table } }
    {
        self.processes.ret(number);
    }

    /// A record of others, at this place, that ends the waits of the processes of this partition that it names: each gets this message.
    ///
    /// AllocError if memory for the messages is refused; nothing has changed then.
    pub fn wake_named(
        &mut self,
        part: PartId,
        place: Place,
        message: &[u8],
        woken: &Woken,
    ) -> Result<(), AllocError>
        ensures ok { OnOk result (self.new ≡ partition_woken place part message.now woken.now self.old) }
        ensures unchanged { OnErr result (self.new ≡ self.old) }
    {
        self.processes.wake_named(part, place, message, woken)
    }
}
