// What each service gives its caller.

ghost use Rattle.std.specs.Prelude.{◌≡◌, ◌↔◌, ℕ, List, true, IfNone, IfSome, IsTrue};
ghost use Rattle.apex_types.specs.declared.record.Who.{Who as WhoValue};
ghost use Rattle.apex_types.specs.declared.request.Request.TheVariants as request;
ghost use Rattle.apex_machine.specs.declared.state.CoreState.{CoreState};
ghost use Rattle.apex_machine.specs.Answer.{HasValue, is_new};
ghost use Rattle.apex_machine.specs.Configuration.{Configuration};
ghost use Rattle.apex_machine.specs.Demands.{Judges};
ghost use Rattle.apex_machine.specs.DueTimes as due_times;
ghost use Rattle.apex_machine.specs.Names.{number_found, number_of};
ghost use Rattle.apex_machine.specs.Services as services;
ghost use Rattle.apex_machine.specs.Services.{peer};
ghost use Rattle.apex_machine.specs.State.{created, given_object, is_free, objects_of};
ghost use Rattle.wait_set.specs.Givens.{answer_given};
ghost use Rattle.partition_state.specs.Calls.{creates, served_demands};

use crate::objects::caller_of;
use crate::state::PartitionState;
use apex_machine::Wait;
use apex_types::{
    Call, CallerOperation, Cause, Name, NamedKind, ObjectKind, ObjectOperation, ProcessOperation,
    Request, Who,
};
use module_config::Config;
use partition_objects::ObjectTable;
use scheduling::Moment;
use wait_set::{Actor, ApexObject, Given, judge_value};

impl PartitionState {
    /// What a call that meets no error condition and goes through no channel gives its caller at this moment. None for a creation, which
    /// gives any number that nothing of its kind has. Takes no memory.
    pub fn answer(&self, config: &Config, moment: &Moment<'_>, call: &Call) -> Option<Given<'_>>
        ensures given { IfSome result (λ given. answer_given given ≡ services.answer_of config.now moment.now.cores.now moment.now.core call.now.who self.now call.now.request) }
        ensures none { IfNone result (creates call.now.request ≡ true) }
    {
        let caller = caller_of(moment.place, call);
        match &call.request {
            Request::CreateProcess { .. } | Request::Create(..) => None,
            Request::Process(process, operation) => {
                Some(self.answer_on(moment, call.who, *process, operation))
            }
            Request::Caller(operation) => Some(self.own_answer(moment, call.who, operation)),
            Request::SetPartitionMode(..) => Some(Given::never()),
            Request::Object(number, operation) => {
                Some(self.object_answer(*number, &caller, operation))
            }
            Request::Preemption(operation) => Some(self.lock.answer(&caller, operation)),
            Request::SamplingPort(..) | Request::QueuingPort(..) => Some(Given::done()),
            Request::Health(operation) => {
                Some(self.health_answer(config, call.who.part, call.who.proc, operation))
            }
            Request::GetId(kind, name) => Some(self.id_answer(*kind, name)),
            Request::GetStatus(kind, object) => {
                Some(Given::reporting(self.status_of(*kind, *object)))
            }
        }
    }

    /// Judges the claim of a call that meets no error condition and goes through no channel, at this moment. The claim must be what the
    /// service gives, which for a creation is a new number. Takes no memory.
    ///
    /// Refused with the cause of the first demand that fails.
    pub fn judge(&self, config: &Config, moment: &Moment<'_>, call: &Call) -> Result<(), Cause>
        ensures { Judges (served_demands config.now moment.now.cores.now moment.now.core self.now call.now) result }
    {
        match self.answer(config, moment, call) {
            Some(given) => given.judge(&call.claim),
            None => judge_value(self.is_new(&call.request, call.claim.val), &call.claim),
        }
    }

    // Whether a claimed value is a number that a creation may give. A request that creates nothing has none.
    fn is_new(&self, request: &Request, claimed: Option<i64>) -> bool
        ensures { (configuration : Configuration) (cores : List CoreState) (core : ℕ) (who : WhoValue) → creates request.now ≡ true → IsTrue result ↔ HasValue (services.answer_of configuration cores core who self.now request.now).val claimed }
    {
        match request {
            Request::CreateProcess { .. } => self.processes.is_new_number(claimed),
            Request::Create(_, object) => self.is_new_among(object.kind(), claimed),
            Request::Process(..)
            | Request::Caller(..)
            | Request::SetPartitionMode(..)
            | Request::Object(..)
            | Request::SamplingPort(..)
            | Request::QueuingPort(..)
            | Request::GetId(..)
            | Request::GetStatus(..)
            | Request::Health(_)
            | Request::Preemption(..) => false,
        }
    }

    // Whether a claimed value is a number that a new object or port of a kind may get.
    fn is_new_among(&self, kind: ObjectKind, claimed: Option<i64>) -> bool
        ensures { result ≡ is_new (is_free (objects_of self.now kind)) claimed }
    {
        match kind {
            ObjectKind::Buffer => self.buffers.is_new_number(claimed),
            ObjectKind::Blackboard => self.blackboards.is_new_number(claimed),
            ObjectKind::Semaphore => self.semaphores.is_new_number(claimed),
            ObjectKind::Event => self.events.is_new_number(claimed),
            ObjectKind::Mutex => self.mutexes.is_new_number(claimed),
            ObjectKind::SamplingPort => self.sampling_ports.is_new_number(claimed),
            ObjectKind::QueuingPort => self.queuing_ports.is_new_number(claimed),
        }
    }

    // What an operation on the object of this number gives its caller; done, if there is none.
    fn object_answer(&self, number: i64, caller: &Actor, operation: &ObjectOperation) -> Given<'_>
        ensures { (configuration : Configuration) (cores : List CoreState) (core : ℕ) → answer_given result ≡ services.answer_of configuration cores core caller.now.who self.now (request.Object number operation.now) }
    {
        match operation {
            ObjectOperation::Buffer(operation) => {
                answer_by(&self.buffers, number, caller, operation)
            }
            ObjectOperation::Blackboard(operation) => {
                answer_by(&self.blackboards, number, caller, operation)
            }
            ObjectOperation::Semaphore(operation) => {
                answer_by(&self.semaphores, number, caller, operation)
            }
            ObjectOperation::Event(operation) => {
                answer_by(&self.events, number, caller, operation)
            }
            ObjectOperation::Mutex(operation) => {
                answer_by(&self.mutexes, number, caller, operation)
            }
        }
    }

    // What GET_PROCESS_ID, GET_BUFFER_ID and its counterparts give: the number of what has this name.
    fn id_answer<'a>(&self, kind: NamedKind, name: &Name) -> Given<'a>
        ensures { answer_given result ≡ services.done_with (number_found (number_of self.now kind name.now)) }
    {
        match self.number_of(kind, name) {
            Some(number) => Given::valued(number.into()),
            None => Given::done(),
        }
    }

    // What a service that this process requests for itself gives, at this moment.
    fn own_answer<'a>(
        &self,
        moment: &Moment<'_>,
        who: Who,
        operation: &CallerOperation,
    ) -> Given<'a>
        ensures { (configuration : Configuration) → answer_given result ≡ services.answer_of configuration moment.now.cores.now moment.now.core who self.now (request.Caller operation.now) }
    {
        match operation {
            CallerOperation::StopSelf => {
                Given::never_waking(self.freed_by_stop(i64::from(who.proc.number())))
            }
            CallerOperation::TimedWait { delay: time }
            | CallerOperation::SuspendSelf { time_out: time } => Given::done_if(*time == 0),
            CallerOperation::PeriodicWait => {
                Given::done_if(self.processes.is_released(moment.time(), who.proc))
            }
            CallerOperation::GetMyId => Given::valued(who.proc.number().into()),
            CallerOperation::GetTime => Given::valued(moment.time()),
            CallerOperation::GetPartitionStatus => self.status_answer(),
            CallerOperation::Replenish { .. } => Given::done(),
        }
    }

    // What a service that names the process of this number gives, at this moment: RESUME ends the wait of a process that suspended itself, a
    // STOP of the lock's owner that of the process that gets the lock, and a status is reported.
    fn answer_on<'a>(
        &self,
        moment: &Moment<'_>,
        who: Who,
        process: i64,
        operation: &ProcessOperation,
    ) -> Given<'a>
        ensures { (configuration : Configuration) → answer_given result ≡ services.answer_of configuration moment.now.cores.now moment.now.core who self.now (request.Process process operation.now) }
    {
        match operation {
            ProcessOperation::Resume => self.resuming(who, process),
            ProcessOperation::GetStatus => self.process_answer(moment, who, process),
            ProcessOperation::GetMutexState => {
                Given::values(self.mutex_state(process), None, None)
            }
            ProcessOperation::Stop => Given::waking(self.freed_by_stop(process)),
            ProcessOperation::InitializeCoreAffinity { .. }
            | ProcessOperation::Start
            | ProcessOperation::DelayedStart { .. }
            | ProcessOperation::Suspend
            | ProcessOperation::SetPriority { .. } => Given::done(),
        }
    }

    // What RESUME of the process of this number gives a caller: it ends the wait of a process that suspended itself.
    fn resuming<'a>(&self, who: Who, process: i64) -> Given<'a>
        ensures { answer_given result ≡ services.resuming (peer who process) (created self.now.table process) }
    {
        let Some(proc) = self.processes.created_number(process) else {
            return Given::done();
        };
        match self.processes.proc(proc) {
            Some(found) if is_suspension(found.wait) => Given::waking(Some(Who {
                part: who.part,
                proc,
            })),
            _ => Given::done(),
        }
    }
}

// What an operation on the object of this number gives its caller; done, if there is none.
fn answer_by<'a, Object: ApexObject>(
    objects: &'a ObjectTable<Object>,
    number: i64,
    caller: &Actor,
    operation: &Object::Operation,
) -> Given<'a>
    ensures { answer_given result ≡ services.answer_by (given_object objects.now number) (Object.answer caller.now operation.now) }
{
    match objects.given(number) {
        Some(object) => object.answer(caller, operation),
        None => Given::done(),
    }
}

// Whether a wait is that of a process that suspended itself.
fn is_suspension(wait: Wait) -> bool
    ensures { result ≡ due_times.is_suspension wait }
{
    match wait {
        Wait::Suspended(_) => true,
        _ => false,
    }
}
