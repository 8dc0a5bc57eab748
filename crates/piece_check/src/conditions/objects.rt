// The error conditions of uses of buffers, blackboards, semaphores, events and mutexes.

ghost use Rattle.std.specs.Prelude.{◌≡◌, ◌≤◌, [], length as count_of, nat_lt, option_map, ℕ};
ghost use Rattle.std.specs.Option.{option_copied};
ghost use Rattle.apex_types.specs.declared.operation.ObjectOperation.TheVariants as on;
ghost use Rattle.apex_types.specs.declared.request.Request.TheVariants as request;
ghost use Rattle.apex_machine.specs.Configuration.{Configuration};
ghost use Rattle.apex_machine.specs.Conditions as shared;
ghost use Rattle.apex_machine.specs.Conditions.{conditions_for};
ghost use Rattle.apex_machine.specs.ObjectConditions as objects;
ghost use Rattle.apex_machine.specs.ServiceConditions.{conditions_of};
ghost use Rattle.apex_machine.specs.State as parts;
ghost use Rattle.apex_machine.specs.declared.state.Process.{Process as ProcessValue};

use super::with_wait;
use crate::arguments::{is_length, is_longer, is_time_out};
use apex_machine::{Condition, Process};
use apex_types::{
    BlackboardOperation, BufferOperation, EventOperation, MutexOperation, ObjectOperation,
    SemaphoreOperation, Who,
};
use partition_objects::{Blackboard, Buffer, Mutex653};
use partition_state::PartitionState;
use wait_set::Conditions;

/// The services of objects.
pub(super) fn object_conditions(
    state: &PartitionState,
    who: Who,
    number: i64,
    operation: &ObjectOperation,
) -> Conditions
    ensures { (configuration : Configuration) (now : ℕ) → result ≡ conditions_of configuration now who state.now (request.Object number operation.now) }
{
    match operation {
        ObjectOperation::Buffer(operation) => buffer_conditions(state, who, number, operation),
        ObjectOperation::Blackboard(operation) => {
            blackboard_conditions(state, who, number, operation)
        }
        ObjectOperation::Semaphore(operation) => {
            semaphore_conditions(state, who, number, operation)
        }
        ObjectOperation::Event(operation) => event_conditions(state, who, number, operation),
        ObjectOperation::Mutex(operation) => mutex_conditions(state, who, number, operation),
    }
}

// SEND_BUFFER and RECEIVE_BUFFER: a created buffer; to send, a message that is not empty and fits; a time-out in range; a caller that may
// wait.
fn buffer_conditions(
    state: &PartitionState,
    who: Who,
    buffer: i64,
    operation: &BufferOperation,
) -> Conditions
    ensures { (configuration : Configuration) (now : ℕ) → result ≡ conditions_of configuration now who state.now (request.Object buffer (on.Buffer operation.now)) }
{
    let found = state.buffers().given(buffer);
    match operation {
        BufferOperation::Send {
            length,
            time_out,
            ..
        } => { with_wait(message(buffer_size(found), *length), who, state, *time_out) }
        BufferOperation::Receive { time_out } => wait_for(who, state, found, *time_out),
    }
}

// DISPLAY_BLACKBOARD, READ_BLACKBOARD and CLEAR_BLACKBOARD: a created blackboard; to display, a message that is not empty and fits; to
// read, a time-out in range and a caller that may wait.
fn blackboard_conditions(
    state: &PartitionState,
    who: Who,
    blackboard: i64,
    operation: &BlackboardOperation,
) -> Conditions
    ensures { (configuration : Configuration) (now : ℕ) → result ≡ conditions_of configuration now who state.now (request.Object blackboard (on.Blackboard operation.now)) }
{
    let found = state.blackboards().given(blackboard);
    match operation {
        BlackboardOperation::Display { length, .. } => message(blackboard_size(found), *length),
        BlackboardOperation::Read { time_out } => wait_for(who, state, found, *time_out),
        BlackboardOperation::Clear => use_of(found),
    }
}

// WAIT_SEMAPHORE and SIGNAL_SEMAPHORE: a created semaphore; to wait, a time-out in range and a caller that may wait.
fn semaphore_conditions(
    state: &PartitionState,
    who: Who,
    semaphore: i64,
    operation: &SemaphoreOperation,
) -> Conditions
    ensures { (configuration : Configuration) (now : ℕ) → result ≡ conditions_of configuration now who state.now (request.Object semaphore (on.Semaphore operation.now)) }
{
    let found = state.semaphores().given(semaphore);
    match operation {
        SemaphoreOperation::Wait { time_out } => wait_for(who, state, found, *time_out),
        SemaphoreOperation::Signal => use_of(found),
    }
}

// SET_EVENT, RESET_EVENT and WAIT_EVENT: a created event; to wait, a time-out in range and a caller that may wait.
fn event_conditions(
    state: &PartitionState,
    who: Who,
    event: i64,
    operation: &EventOperation,
) -> Conditions
    ensures { (configuration : Configuration) (now : ℕ) → result ≡ conditions_of configuration now who state.now (request.Object event (on.Event operation.now)) }
{
    let found = state.events().given(event);
    match operation {
        EventOperation::Set | EventOperation::Reset => use_of(found),
        EventOperation::Wait { time_out } => wait_for(who, state, found, *time_out),
    }
}

// ACQUIRE_MUTEX, RELEASE_MUTEX and RESET_MUTEX.
fn mutex_conditions(
    state: &PartitionState,
    who: Who,
    mutex: i64,
    operation: &MutexOperation,
) -> Conditions
    ensures { (configuration : Configuration) (now : ℕ) → result ≡ conditions_of configuration now who state.now (request.Object mutex (on.Mutex operation.now)) }
{
    match operation {
        MutexOperation::Acquire { time_out } => acquire_mutex(who, state, mutex, *time_out),
        MutexOperation::Release => release_mutex(who, state.mutexes().given(mutex)),
        MutexOperation::Reset { process } => reset_mutex(state, mutex, *process),
    }
}

/// A use of an object: the object must be created.
pub(super) fn use_of<Object>(object: Option<&Object>) -> Conditions
    ensures { result ≡ conditions_for (option_copied object.entry) (λ found. []) }
{
    Conditions::none().with(object.is_none(), Condition::NotCreated)
}

// A wait for an object: a created object; a time-out in range; a caller that may wait.
fn wait_for<Object>(
    who: Who,
    state: &PartitionState,
    object: Option<&Object>,
    time_out: i64,
) -> Conditions
    ensures { result ≡ objects.object_conditions who state.now (option_copied object.entry) time_out }
{
    with_wait(use_of(object), who, state, time_out)
}

// The size of the messages of a buffer, if there is one.
fn buffer_size(buffer: Option<&Buffer>) -> Option<u16>
    ensures { result ≡ option_map (λ (found : parts.Buffer). found.size) (option_copied buffer.entry) }
{
    Some(buffer?.size())
}

// The size of the messages of a blackboard, if there is one.
fn blackboard_size(blackboard: Option<&Blackboard>) -> Option<u16>
    ensures { result ≡ option_map (λ (found : parts.Blackboard). found.size) (option_copied blackboard.entry) }
{
    Some(blackboard?.size())
}

// A message into an object of this size: the object is created, and the message is not empty and not longer than the size.
fn message(size: Option<u16>, length: i64) -> Conditions
    ensures value { result ≡ objects.message_conditions size length }
    ensures few { count_of result ≤ 2 }
{
    let of_object = match size {
        Some(greatest) => {
            Conditions::none().with(is_longer(greatest, length), Condition::LongerThanObject)
        }
        None => Conditions::none().with(true, Condition::NotCreated),
    };
    of_object.with(!is_length(length), Condition::EmptyMessage)
}

// ACQUIRE_MUTEX: a created mutex whose priority is not below the caller's current one; a time-out in range; a caller that is neither the
// initialising process nor the owner of another mutex or of the lock.
fn acquire_mutex(who: Who, state: &PartitionState, mutex: i64, time_out: i64) -> Conditions
    ensures { result ≡ objects.acquire_conditions who state.now mutex time_out }
{
    let caller = state.processes().proc(who.proc);
    let of_mutex = match state.mutexes().given(mutex) {
        Some(found) => {
            Conditions::none().with(
                runs_above(found.priority(), caller),
                Condition::AboveCeiling,
            )
        }
        None => Conditions::none().with(true, Condition::NotCreated),
    };
    of_mutex
        .with(!is_time_out(time_out), Condition::TimeOutOutOfRange)
        .with(who.proc.number() == 0, Condition::InitialisingCaller)
        .with(state.owns_another(mutex, who.proc), Condition::OwnsAnother)
        .with(state.owns_lock(who.proc), Condition::OwnsLock)
}

// RESET_MUTEX: a created mutex, and a created process, which owns it.
fn reset_mutex(state: &PartitionState, mutex: i64, process: i64) -> Conditions
    ensures { result ≡ objects.reset_conditions state.now mutex process }
{
    let found = state.mutexes().given(mutex);
    let process = state.processes().created_number(process);
    let is_another = match (found, process) {
        (Some(found), Some(process)) => !found.is_owned_by(process),
        (None, _) | (_, None) => false,
    };
    Conditions::none()
        .with(found.is_none(), Condition::NotCreated)
        .with(process.is_none(), Condition::NoSuchProcess)
        .with(is_another, Condition::ProcessNotOwner)
}

// RELEASE_MUTEX: a created mutex, which the caller owns.
fn release_mutex(who: Who, mutex: Option<&Mutex653>) -> Conditions
    ensures { result ≡ objects.release_conditions who (option_copied mutex.entry) }
{
    match mutex {
        Some(found) => {
            Conditions::none().with(!found.is_owned_by(who.proc), Condition::NotOwner)
        }
        None => Conditions::none().with(true, Condition::NotCreated),
    }
}

// Whether there is a process whose current priority is above this one.
fn runs_above(priority: u8, process: Option<&Process>) -> bool
    ensures { result ≡ shared.of_caller (λ (found : ProcessValue). nat_lt priority found.current_priority) (option_copied process.entry) }
{
    match process {
        Some(found) => priority < found.current_priority,
        None => false,
    }
}
