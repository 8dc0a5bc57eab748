// What a call and a tick make of a table.

ghost use Rattle.std.specs.Prelude.{◌≡◌, ◌++◌, ◌≤◌, ℕ, Some, nat_eq, true, IfOk, OnOk, OnErr, IsTrue, length, vec_len};
ghost use Rattle.apex_machine.specs.Configuration as configured;
ghost use Rattle.apex_machine.specs.Configuration.{Configuration};
ghost use Rattle.std.specs.List.{IsDistinct};
ghost use Rattle.std.specs.Map.{keys_of};
ghost use Rattle.apex_machine.specs.declared.state.Process.{Process as ProcessValue};
ghost use Rattle.apex_machine.specs.State.{Partition, each_item, item_at, time_of};
ghost use Rattle.apex_machine.specs.Processes.{set_by, set_in};
ghost use Rattle.apex_machine.specs.Waiting.{message_of};
ghost use Rattle.apex_machine.specs.After as after;
ghost use Rattle.scheduling.specs.Changes.{named, only, with_each};
ghost use Rattle.scheduling.specs.Faults.{IsFaultChangeOf, fault_set, leaves_ready};
ghost use Rattle.apex_machine.specs.Errors.{handles_more};
ghost use Rattle.scheduling.specs.Peers.{peer_woken, stopped_by};
ghost use Rattle.scheduling.specs.HandedOver.{AreCopies};
ghost use Rattle.scheduling.specs.Prepared.{IsPreparedFor, creates_process};
ghost use Rattle.scheduling.specs.Processes.{processes_of};
ghost use Rattle.scheduling.specs.Releases.{IsNextOf};
ghost use Rattle.scheduling.specs.Settled.{settled};
ghost use Rattle.scheduling.specs.Sound.{GivesSoundly, IsSound, ReleasesSoundly, is_periodic_wait};
ghost use Rattle.scheduling.specs.Timely.{IsTimely};
ghost use Rattle.scheduling.specs.Transfers.{IsTransferOf, passed_on};

use super::ProcTable;
use super::changes::time_at;
use crate::caller::{Settling, is_done, settling_of};
use crate::fault::FaultChange;
use crate::message::messages_for;
use crate::moment::Moment;
use crate::number::claimed_number;
use crate::order::is_of;
use crate::peer::{answers_no_error, stop_of, wakes};
use crate::prepared::{Prepared, prepared_for};
use crate::process::{self, NextRelease};
use crate::transfer::Transfer;
use apex_types::{
    Call, CallerOperation, CoreId, Message, ObjectOperation, PartId, Place, ProcId,
    ProcessOperation, Request, Woken,
};
use std::alloc::AllocError;

impl ProcTable {
    /// What a call of one of the partition's processes needs memory for, reserved before the call changes anything.
    ///
    /// AllocError if memory is refused. A call that names no process and claims no message takes none.
    pub fn prepare(&self, call: &Call) -> Result<Prepared, AllocError>
        ensures { IfOk result (λ prepared. IsPreparedFor call.now prepared) }
    {
        prepared_for(*self.processes.allocator(), call)
    }

    /// A call of one of the partition's processes at this moment: what it sets in the partition, what becomes of its caller, which process
    /// it stops, and whose waits it ends. The period is the partition's, in ticks. A process that it creates runs on the first core. The
    /// transfer is what the call makes of the owners of its mutex. A call of a service other than ACQUIRE_MUTEX, RELEASE_MUTEX and
    /// RESET_MUTEX changes no owner, and its transfer is not used. `faults` is what the call makes of who is faulted.
    ///
    /// AllocError if memory for a process that it creates is refused; nothing has changed then. No other call takes memory, apart from what
    /// was prepared.
    pub fn call(
        &mut self,
        first_core: CoreId,
        period: u64,
        moment: &Moment<'_>,
        transfer: Transfer,
        faults: &FaultChange<'_>,
        prepared: Prepared,
        call: &Call,
    ) -> Result<(), AllocError>
        requires timely { IsTimely period moment.now.cores.now }
        requires sound { IsSound self.old.table call.now }
        requires prepared { IsPreparedFor call.now prepared }
        ensures ok { OnOk result ((configuration : Configuration) (partition : Partition) → configured.first_core configuration call.now.who.part ≡ first_core → configured.period_of configuration call.now.who.part ≡ period → processes_of partition ≡ self.old → (IsTrue (after.is_done call.now.claim.out) → IsTransferOf partition call.now.who.proc call.now.request transfer) → (IsTrue (after.is_done call.now.claim.out) → IsFaultChangeOf partition call.now.who.proc call.now.request faults.now) → handles_more partition call.now.who.proc call.now.request ≡ leaves_ready faults.now → self.new ≡ processes_of (after.partition_called configuration moment.now.cores.now moment.now.place moment.now.core call.now partition)) }
        ensures unchanged { OnErr result (self.new ≡ self.old) }
        ensures memory { OnErr result (IsTrue (creates_process call.now.request)) }
    {
        let Prepared { outcome, messages } = prepared;
        let now = time_at(moment.cores, moment.core);
        let next = self.next_release(call);
        let handles_more = faults.handles_more();
        let settling = settling_of(moment.place, now, next, handles_more, call, outcome);
        // Looked up before the call creates a process: a caller that does not exist may claim its own number for that process.
        let is_member = self.proc(call.who.proc).is_some();
        if is_done(call.claim.out) {
            self.carry_out(first_core, period, moment, transfer, faults, call)?;
        }
        if is_member {
            self.settle(call.who.proc, now, settling);
        }
        self.stop_peer(call);
        self.wake_peers(moment.place, call, messages);
        Ok(())
    }

    /// A record of others, at this place, that ends the waits of the processes of this partition that it names: each gets this message.
    ///
    /// AllocError if memory for the messages is refused; nothing has changed then.
    pub fn wake_named(
        &mut self,
        part: PartId,
        place: Place,
        message: &[u8],
        woken: &Woken,
    ) -> Result<(), AllocError>
        ensures ok { OnOk result (self.new ≡ with_each (λ number process. after.woken_if_named place message.now woken.now (record { part = part; proc = number }) process) self.old) }
        ensures unchanged { OnErr result (self.new ≡ self.old) }
    {
        let alloc = *self.processes.allocator();
        let woken = woken.as_slice();
        let mut messages = messages_for(alloc, message, woken.len())?;
        for who in woken {
            if is_of(*who, part) {
                if let Some(message) = messages.pop() {
                    self.wake(who.proc, place, message);
                }
            }
        }
        Ok(())
    }

    /// A tick that ends the waits of these processes, at this place; those of other partitions are skipped. Takes no memory.
    pub fn tick(&mut self, part: PartId, place: Place, woken: &Woken)
        ensures { self.new ≡ with_each (after.ticked place part woken.now) self.old }
    {
        let named = woken.as_slice();
        for who in named {
            if is_of(*who, part) {
                self.release(who.proc, place);
            }
        }
    }

    // What a call that is carried out sets in its partition, apart from the waits that it ends, the process that it stops, and what becomes
    // of its caller.
    fn carry_out(
        &mut self,
        first_core: CoreId,
        period: u64,
        moment: &Moment<'_>,
        transfer: Transfer,
        faults: &FaultChange<'_>,
        call: &Call,
    ) -> Result<(), AllocError>
        requires timely { IsTimely period moment.now.cores.now }
        requires done { after.is_done call.now.claim.out ≡ true }
        requires sound { IsSound self.old.table call.now }
        ensures ok { OnOk result ((partition : Partition) → processes_of partition ≡ self.old → IsTransferOf partition call.now.who.proc call.now.request transfer → IsFaultChangeOf partition call.now.who.proc call.now.request faults.now → self.new ≡ record self.old {
          mode = after.mode_by call.now.request self.old.mode;
          table = each_item (set_by moment.now.place period moment.now.cores.now partition call.now.who.proc call.now.request) self.old.table ++ after.created_by first_core call.now call.now.request;
        }) }
        ensures unchanged { OnErr result (self.new ≡ self.old) }
        ensures memory { OnErr result (IsTrue (creates_process call.now.request)) }
    {
        match &call.request {
            Request::CreateProcess {
                name,
                priority,
                period: own_period,
                time_capacity,
            } => {
                if let Some(number) = claimed_number(call.claim.val) {
                    let priority = *priority as u8;
                    self.create(
                        first_core,
                        number,
                        name,
                        priority,
                        *own_period,
                        *time_capacity,
                    )?;
                }
            }
            Request::Process(process, operation) => {
                self.serve_target(*process, operation, period, moment)
            }
            Request::SetPartitionMode(..) => self.normal(period, moment),
            Request::Object(_, operation) => self.pass_on(operation, transfer),
            Request::Health(_) | Request::Caller(_) => {
                self.change_faults(call.who.proc, moment.place, faults);
            }
            _ => {}
        }
        Ok(())
    }

    // What a request of this caller makes of who is faulted.
    fn change_faults(&mut self, caller: ProcId, place: Place, faults: &FaultChange<'_>)
        ensures { self.new ≡ with_each (fault_set faults.now place caller) self.old }
    {
        match faults {
            FaultChange::Unchanged => {}
            FaultChange::Raises(handler) => self.hand_over(caller, place, *handler),
            FaultChange::Ends(left) => self.heal(place, left),
        }
    }

    // An operation on a mutex changes the priorities of its owners, an operation on any other object those of no process.
    fn pass_on(&mut self, operation: &ObjectOperation, transfer: Transfer)
        ensures { self.new ≡ passed_on transfer operation.now self.old }
    {
        match operation {
            ObjectOperation::Mutex(_) => self.transfer(transfer),
            ObjectOperation::Buffer(_)
            | ObjectOperation::Blackboard(_)
            | ObjectOperation::Semaphore(_)
            | ObjectOperation::Event(_) => {}
        }
    }

    // What a service sets in the process that it names; if there is none, nothing changes. STOP sets nothing here: `stop_peer` does.
    fn serve_target(
        &mut self,
        given: i64,
        operation: &ProcessOperation,
        period: u64,
        moment: &Moment<'_>,
    )
        requires timely { IsTimely period moment.now.cores.now }
        requires sound { GivesSoundly operation.now }
        ensures { self.new ≡ with_each
            (named given (λ found. set_in moment.now.place period (time_of moment.now.cores.now found.affinity) self.old.mode operation.now found)) self.old }
    {
        let mode = self.mode;
        let (place, cores) = (moment.place, moment.cores);
        self.change_named(given, |process| {
            let now = time_at(cores, process.affinity);
            process::serve(process, operation, place, period, now, mode);
        });
    }

    // STOP of a process other than the caller.
    fn stop_peer(&mut self, call: &Call)
        ensures { self.new ≡ with_each (stopped_by call.now) self.old }
    {
        if let Some(target) = stop_of(&call.request) {
            if answers_no_error(call.claim.out) && target != call.who.proc.number() as i64 {
                self.stop_named(target);
            }
        }
    }

    // Ends the waits of the caller's peers that the call names and does not stop: each gets one of these messages.
    fn wake_peers(&mut self, place: Place, call: &Call, messages: Vec<Message>)
        requires enough { length call.now.claim.woken ≤ vec_len messages }
        requires alike { AreCopies (message_of call.now.request) messages.items }
        ensures { self.new ≡ with_each (peer_woken place call.now) self.old }
    {
        let mut messages = messages;
        let woken = call.claim.woken.as_slice();
        for who in woken {
            if wakes(call, *who) {
                if let Some(message) = messages.pop() {
                    self.wake(who.proc, place, message);
                }
            }
        }
    }

    // The next release of a caller of PERIODIC_WAIT, with the deadline that it gives; one at 0 if the call is of another service, or its
    // caller does not exist.
    fn next_release(&self, call: &Call) -> NextRelease
        requires { ReleasesSoundly self.now.table call.now.who.proc call.now.request }
        ensures value { is_periodic_wait call.now.request ≡ true → (process : ProcessValue) → item_at self.now.table call.now.who.proc ≡ Some process → IsNextOf result process }
        ensures distinct { IsDistinct nat_eq (keys_of self.now.table) }
    {
        // That no number occurs twice in the map is known when the map is used.
        let _ = self.processes.len();
        let none = NextRelease {
            time: 0,
            deadline: None,
        };
        match &call.request {
            Request::Caller(CallerOperation::PeriodicWait) => match self.proc(call.who.proc) {
                Some(process) => process::next_release(process),
                None => none,
            },
            _ => none,
        }
    }

    // What becomes of a caller.
    fn settle(&mut self, caller: ProcId, now: u64, settling: Settling)
        ensures { self.new ≡ with_each (only caller (settled now settling)) self.old }
    {
        match settling {
            Settling::Waits { wait, deadline } => self.wait(caller, now, wait, deadline),
            Settling::Stops => self.stop_self(caller, now),
            Settling::StaysReady => self.note_call(caller, now),
            Settling::Answered {
                outcome,
                renewed,
                reached,
                deadline,
            } => self.answer(caller, now, renewed, reached, deadline, outcome),
        }
    }
}
