// What a call makes of its partition.

ghost use Rattle.std.specs.Prelude.{◌≡◌, ◌≢◌, ℕ, List, None, IfErr, IfOk, OnErr, OnOk};
ghost use Rattle.apex_types.specs.declared.operation.NewObject.{NewObject};
ghost use Rattle.apex_types.specs.declared.request.Request.TheVariants as request;
ghost use Rattle.apex_machine.specs.After.{own_partition, partition_called, restart_of as restarted_by};
ghost use Rattle.apex_machine.specs.Demands.{AllHold, Judges, own_call_demands};
ghost use Rattle.apex_machine.specs.Configuration.{Configuration};
ghost use Rattle.apex_laws.specs.PartBounds.{IsBoundedPart};
ghost use Rattle.apex_laws.specs.PartLaws.{IsSoundPart};
ghost use Rattle.apex_laws.specs.PartObjects.{objects_changed};
ghost use Rattle.scheduling.specs.Timely.{TimesFit};
ghost use Rattle.scheduling.specs.Transfers.{IsTransferOf};
ghost use Rattle.wait_set.specs.Actors.{Refuses};
ghost use Rattle.partition_state.specs.Calls.{IsClear, IsJudged, IsReady, LeavesObjects, RefusesOrWants, object_demands, served, served_demands};

use crate::errors::fault_change;
use crate::objects::{caller_of, use_lock, use_object};
use crate::restarting::restart_of;
use crate::state::PartitionState;
use apex_types::{Call, CallerOperation, Cause, ObjectOperation, Place, ProcessOperation, Request};
use module_config::Config;
use scheduling::{FaultChange, Moment, Transfer};
use std::alloc::AllocError;
use wait_set::ObjFault;

impl PartitionState {
    /// A call of one of the partition's processes on which no error condition holds and that goes through no channel. What it claims is
    /// judged against what its service gives, and if the two agree, the call is carried out. A restart takes no memory.
    ///
    /// Refused, with nothing changed, if the claim is another, or if memory is refused.
    pub fn serve(
        &mut self,
        config: &Config,
        moment: &Moment<'_>,
        call: &Call,
    ) -> Result<(), ObjFault>
        requires clear { IsClear config.now moment.now.cores.now moment.now.place moment.now.core self.old call.now }
        requires times { TimesFit moment.now.cores.now }
        ensures ok { OnOk result (AllHold (served_demands config.now moment.now.cores.now moment.now.core self.old call.now)) }
        ensures after { OnOk result (self.new ≡ own_partition (restarted_by config.now call.now) config.now moment.now.cores.now moment.now.place moment.now.core call.now self.old) }
        ensures refused { IfErr result (RefusesOrWants (served_demands config.now moment.now.cores.now moment.now.core self.old call.now)) }
        ensures unchanged { OnErr result (self.new ≡ self.old) }
    {
        match restart_of(config, call) {
            Some(restart) => {
                self.judge(config, moment, call)
                    .map_err(ObjFault::Unlawful)?;
                self.restart(restart, config.first_core(call.who.part), moment.place);
                Ok(())
            }
            None => self.carry_out(config, moment, call),
        }
    }

    // The same for a call that does not restart the partition.
    #[tactic(auto, using(crate::proofs::Served::refuses_or_wants))]
    fn carry_out(
        &mut self,
        config: &Config,
        moment: &Moment<'_>,
        call: &Call,
    ) -> Result<(), ObjFault>
        requires goes_on { restarted_by config.now call.now ≡ None }
        requires clear { IsClear config.now moment.now.cores.now moment.now.place moment.now.core self.old call.now }
        requires times { TimesFit moment.now.cores.now }
        ensures ok { OnOk result (AllHold (served_demands config.now moment.now.cores.now moment.now.core self.old call.now)) }
        ensures after { OnOk result (self.new ≡ partition_called config.now moment.now.cores.now moment.now.place moment.now.core call.now self.old) }
        ensures refused { IfErr result (RefusesOrWants (served_demands config.now moment.now.cores.now moment.now.core self.old call.now)) }
        ensures unchanged { OnErr result (self.new ≡ self.old) }
    {
        config.keeps_limits();
        self.keep_numbers();
        let taker = self.taker(call.who.proc);
        let handles = self.is_handler(call.who.proc);
        let _place = moment.place.number();
        let first_core = config.first_core(call.who.part);
        let period = config.period(call.who.part);
        let Ok(prepared) = self.processes.prepare(call) else {
            return Err(ObjFault::Memory);
        };
        let transfer = self.operate(config, moment, call)?;
        let faults = fault_change(taker, handles, &self.errors, call);
        match self.processes.call(
            first_core, period, moment, transfer, &faults, prepared, call,
        ) {
            Ok(()) => Ok(()),
            Err(_) => Err(ObjFault::Memory),
        }
    }

    /// A lawful call of one of the partition's processes that changes none of its objects: an error condition refused it, or it goes
    /// through a channel. Its caller waits or has an outcome due, the processes whose waits it ends wait no longer, and the port at which
    /// it read records whether the sample is valid.
    ///
    /// AllocError if memory is refused; nothing has changed then.
    pub fn note(
        &mut self,
        config: &Config,
        moment: &Moment<'_>,
        call: &Call,
    ) -> Result<(), AllocError>
        requires sound { IsSoundPart call.now.who.part moment.now.place self.old }
        requires bounded { IsBoundedPart moment.now.place self.old }
        requires lawful { AllHold (own_call_demands config.now call.now.who.part moment.now.cores.now self.old moment.now.core call.now) }
        requires leaves { LeavesObjects call.now }
        requires times { TimesFit moment.now.cores.now }
        ensures ok { OnOk result (self.new ≡ own_partition (restarted_by config.now call.now) config.now moment.now.cores.now moment.now.place moment.now.core call.now self.old) }
        ensures unchanged { OnErr result (self.new ≡ self.old) }
    {
        config.keeps_limits();
        let _place = moment.place.number();
        let first_core = config.first_core(call.who.part);
        let period = config.period(call.who.part);
        let prepared = self.processes.prepare(call)?;
        self.processes.call(
            first_core,
            period,
            moment,
            Transfer::none(),
            &FaultChange::Unchanged,
            prepared,
            call,
        )?;
        self.note_read(call);
        Ok(())
    }

    // Judges what a call claims against what its service gives, and changes the objects, the lock and the error handler accordingly. Returns
    // what becomes of the owner of a mutex. A call through a port goes through a channel.
    #[tactic(auto, using(crate::proofs::Clear::at_work, crate::proofs::Served::accepted_ok, crate::proofs::Served::accepted_refused, crate::proofs::Served::changed_is_served, crate::proofs::Served::health_is_served))]
    fn operate(
        &mut self,
        config: &Config,
        moment: &Moment<'_>,
        call: &Call,
    ) -> Result<Transfer, ObjFault>
        requires clear { IsClear config.now moment.now.cores.now moment.now.place moment.now.core self.old call.now }
        ensures ok { OnOk result (AllHold (served_demands config.now moment.now.cores.now moment.now.core self.old call.now)) }
        ensures after { OnOk result (self.new ≡ served config.now moment.now.place call.now call.now.request self.old) }
        ensures transfer { IfOk result (λ transfer. IsTransferOf self.old call.now.who.proc call.now.request transfer) }
        ensures refused { IfErr result (Refuses (served_demands config.now moment.now.cores.now moment.now.core self.old call.now)) }
        ensures unchanged { OnErr result (self.new ≡ self.old) }
    {
        match &call.request {
            Request::Process(process, ProcessOperation::Stop) => {
                self.judge(config, moment, call)
                    .map_err(ObjFault::Unlawful)?;
                self.stop(moment.place, call, *process);
                Ok(Transfer::none())
            }
            Request::Caller(CallerOperation::StopSelf) => {
                self.judge(config, moment, call)
                    .map_err(ObjFault::Unlawful)?;
                self.lock.stop(call.who.proc, call.claim.woken.as_slice());
                Ok(Transfer::none())
            }
            Request::Preemption(operation) => {
                let caller = caller_of(moment.place, call);
                use_lock(&mut self.lock, caller, operation, &call.claim)
            }
            Request::Create(name, object) => {
                self.create(config, call.who, name, object, &call.claim)?;
                Ok(Transfer::none())
            }
            Request::Object(number, operation) => {
                self.use_one(moment.place, call, *number, operation)
            }
            Request::Health(operation) => {
                config.keeps_limits();
                self.judge(config, moment, call)
                    .map_err(ObjFault::Unlawful)?;
                let Ok(()) = self.change_errors(config, call.who.part, call.who.proc, operation)
                else {
                    return Err(ObjFault::Memory);
                };
                Ok(Transfer::none())
            }
            Request::SamplingPort(..) | Request::QueuingPort(..) => unreachable!(),
            Request::CreateProcess { .. }
            | Request::Process(..)
            | Request::Caller(..)
            | Request::SetPartitionMode(..)
            | Request::GetId(..)
            | Request::GetStatus(..) => accepted(self.judge(config, moment, call)),
        }
    }

    // Carries out an operation on the object of this number. Returns what becomes of the owner of a mutex.
    fn use_one(
        &mut self,
        place: Place,
        call: &Call,
        number: i64,
        operation: &ObjectOperation,
    ) -> Result<Transfer, ObjFault>
        requires ready { IsReady place self.old call.now }
        requires asked { call.now.request ≡ request.Object number operation.now }
        ensures ok { OnOk result (AllHold (object_demands self.old call.now.who.proc number operation.now call.now.claim)) }
        ensures after { OnOk result ((configuration : Configuration) → self.new ≡ objects_changed configuration place call.now (request.Object number operation.now) self.old) }
        ensures transfer { IfOk result (IsTransferOf self.old call.now.who.proc (request.Object number operation.now)) }
        ensures refused { IfErr result (Refuses (object_demands self.old call.now.who.proc number operation.now call.now.claim)) }
        ensures unchanged { OnErr result (self.new ≡ self.old) }
    {
        let claim = &call.claim;
        let caller = caller_of(place, call);
        match operation {
            ObjectOperation::Buffer(operation) => {
                use_object(&mut self.buffers, number, caller, operation, claim)
            }
            ObjectOperation::Blackboard(operation) => {
                use_object(&mut self.blackboards, number, caller, operation, claim)
            }
            ObjectOperation::Semaphore(operation) => {
                use_object(&mut self.semaphores, number, caller, operation, claim)
            }
            ObjectOperation::Event(operation) => {
                use_object(&mut self.events, number, caller, operation, claim)
            }
            ObjectOperation::Mutex(operation) => {
                use_object(&mut self.mutexes, number, caller, operation, claim)
            }
        }
    }
}

// The result for a call that changes no object, from the judgement of its claim: no mutex changes its owner.
fn accepted(judged: Result<(), Cause>) -> Result<Transfer, ObjFault>
    ensures { IsJudged judged result }
{
    judged.map_err(ObjFault::Unlawful)?;
    Ok(Transfer::none())
}
