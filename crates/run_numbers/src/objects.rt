// What an object or the lock of a partition holds after a call.

ghost use Rattle.std.specs.Prelude.{◌≡◌, ◌++◌, OnOk};
ghost use Rattle.apex_types.specs.declared.shape.End.TheVariants.{Receivers, Senders};
ghost use Rattle.run_numbers.specs.Held.{held_of_object, joined_lock, joined_object, object_used, waiters_at};

use crate::figure::{Figure, Thing};
use crate::mutexes::object_number;
use crate::observation::{Observation, add, add_if};
use apex_types::{Call, End, LockOperation, ObjectKind, ObjectOperation, Out, PartId, Request};
use partition_state::PartitionState;
use std::alloc::AllocError;

/// Adds how many processes wait, and how many messages are held, at the object of this partition that a call uses, after the call.
pub(crate) fn observe_object(
    observed: &mut Vec<Observation>,
    part: PartId,
    state: &PartitionState,
    call: &Call,
) -> Result<(), AllocError>
    ensures { OnOk result (observed.new.items ≡ observed.old.items ++ object_used part state.now call.now) }
{
    if call.who.part != part {
        return Ok(());
    }
    match &call.request {
        Request::Object(given, operation) => {
            let Some(number) = object_number(*given) else {
                return Ok(());
            };
            observe_waiters(observed, part, state, number, operation, call.claim.out)?;
            observe_messages(observed, part, state, number, operation)
        }
        Request::Preemption(operation) => match operation {
            LockOperation::Lock => observe_lock(observed, part, state, call.claim.out),
            LockOperation::Unlock => Ok(()),
        },
        _ => Ok(()),
    }
}

// Adds how many processes wait at the end of an object where the caller of this operation waits, if it does.
fn observe_waiters(
    observed: &mut Vec<Observation>,
    part: PartId,
    state: &PartitionState,
    number: u32,
    operation: &ObjectOperation,
    out: Out,
) -> Result<(), AllocError>
    ensures { OnOk result (observed.new.items ≡ observed.old.items ++ joined_object part state.now number operation.now out) }
{
    if out != Out::Waits {
        return Ok(());
    }
    let kind = operation.kind();
    let (Some(allowed), Some(thing)) = (operation.shape().wait, Thing::of(part, kind, number))
    else {
        return Ok(());
    };
    let waiting = waiters_at(state, kind, number, allowed.end) as u64;
    add(
        observed,
        Observation::Value(Figure::Waiters(thing), waiting),
    )
}

// How many processes wait at this end of an object.
fn waiters_at(state: &PartitionState, kind: ObjectKind, number: u32, end: End) -> usize
    ensures { result ≡ waiters_at state.now kind number end }
{
    match end {
        End::Senders => senders_at(state, kind, number),
        End::Receivers => receivers_at(state, kind, number),
    }
}

// How many processes wait to send at an object: only a buffer has such ones.
fn senders_at(state: &PartitionState, kind: ObjectKind, number: u32) -> usize
    ensures { result ≡ waiters_at state.now kind number Senders }
{
    if kind != ObjectKind::Buffer {
        return 0;
    }
    match state.buffers().at(number) {
        Some(buffer) => buffer.queue().senders().len(),
        None => 0,
    }
}

// How many processes wait at an object for what another process gives.
fn receivers_at(state: &PartitionState, kind: ObjectKind, number: u32) -> usize
    ensures { result ≡ waiters_at state.now kind number Receivers }
{
    match kind {
        ObjectKind::Buffer => match state.buffers().at(number) {
            Some(buffer) => buffer.queue().receivers().len(),
            None => 0,
        },
        ObjectKind::Blackboard => match state.blackboards().at(number) {
            Some(board) => board.readers().len(),
            None => 0,
        },
        ObjectKind::Semaphore => match state.semaphores().at(number) {
            Some(semaphore) => semaphore.waiters().len(),
            None => 0,
        },
        ObjectKind::Event => match state.events().at(number) {
            Some(event) => event.waiters().len(),
            None => 0,
        },
        ObjectKind::Mutex => match state.mutexes().at(number) {
            Some(mutex) => mutex.waiters().len(),
            None => 0,
        },
        ObjectKind::SamplingPort | ObjectKind::QueuingPort => 0,
    }
}

// Adds how many messages a buffer holds, if the operation is on one.
fn observe_messages(
    observed: &mut Vec<Observation>,
    part: PartId,
    state: &PartitionState,
    number: u32,
    operation: &ObjectOperation,
) -> Result<(), AllocError>
    ensures { OnOk result (observed.new.items ≡ observed.old.items ++ held_of_object part state.now number operation.now) }
{
    let ObjectOperation::Buffer(_) = operation else {
        return Ok(());
    };
    let Some(buffer) = state.buffers().at(number) else {
        return Ok(());
    };
    let messages = buffer.queue().len() as u64;
    let thing = Thing::Buffer(part, number);
    add(
        observed,
        Observation::Value(Figure::Messages(thing), messages),
    )
}

// Adds how many processes wait for the lock, if the caller of LOCK_PREEMPTION waits.
fn observe_lock(
    observed: &mut Vec<Observation>,
    part: PartId,
    state: &PartitionState,
    out: Out,
) -> Result<(), AllocError>
    ensures { OnOk result (observed.new.items ≡ observed.old.items ++ joined_lock part state.now out) }
{
    let waiting = state.lock().waiters().len() as u64;
    let waits = out == Out::Waits;
    add_if(
        observed,
        waits,
        Observation::Value(Figure::Waiters(Thing::Lock(part)), waiting),
    )
}
