// What a call gives to the hold of a mutex.

ghost use Rattle.std.specs.Prelude.{◌≡◌, ◌++◌, OnOk};
ghost use Rattle.run_numbers.specs.Mutexes.{acquired, held, held_by, own_time, passed_on};
ghost use Rattle.partition_objects.specs.Numbers.{number_of};

use crate::figure::{Figure, Thing};
use crate::observation::{Observation, add};
use crate::waits::Moment;
use apex_types::{Call, Code, CoreId, MutexOperation, ObjectOperation, Out, ProcId, Request};
use partition_objects::Mutex653;
use std::alloc::AllocError;

/// Adds the beginning and the end of the hold of a mutex, if a call of a core is carried out that changes the owner.
pub(crate) fn observe_mutex(
    observed: &mut Vec<Observation>,
    moment: &Moment<'_>,
    core: CoreId,
    call: &Call,
) -> Result<(), AllocError>
    ensures { OnOk result (observed.new.items ≡ observed.old.items ++ held moment.now.part moment.now.clock.now.cores core moment.now.state.now call.now) }
{
    if call.claim.out != Out::Answer(Code::NoError) {
        return Ok(());
    }
    let Request::Object(given, operation) = &call.request else {
        return Ok(());
    };
    let ObjectOperation::Mutex(operation) = operation else {
        return Ok(());
    };
    let Some(number) = object_number(*given) else {
        return Ok(());
    };
    let Some(mutex) = moment.state.mutexes().at(number) else {
        return Ok(());
    };
    let hold = Figure::Hold(Thing::Mutex(moment.part, number));
    observe_operation(observed, moment, core, call, operation, &hold, mutex)
}

// Adds what an operation on this mutex gives to its hold.
fn observe_operation(
    observed: &mut Vec<Observation>,
    moment: &Moment<'_>,
    core: CoreId,
    call: &Call,
    operation: &MutexOperation,
    hold: &Figure,
    mutex: &Mutex653,
) -> Result<(), AllocError>
    ensures { OnOk result (observed.new.items ≡ observed.old.items ++ held_by hold.now moment.now.clock.now.cores core moment.now.state.now.table mutex.now call.now.claim.woken operation.now) }
{
    match operation {
        MutexOperation::Acquire { .. } => {
            observe_acquired(observed, hold, mutex, moment.clock.now(core))
        }
        MutexOperation::Release => {
            if mutex.count() > 1 {
                return Ok(());
            }
            observe_passed(observed, hold, moment, mutex, call)
        }
        MutexOperation::Reset { .. } => observe_passed(observed, hold, moment, mutex, call),
    }
}

// The object number that a caller's number gives, if it fits 32 bits.
pub(crate) fn object_number(given: i64) -> Option<u32>
    ensures { result ≡ number_of given }
{
    if given >= 0 && given <= u32::MAX as i64 {
        Some(given as u32)
    } else {
        None
    }
}

// Adds the beginning of a hold, if the mutex had no owner.
fn observe_acquired(
    observed: &mut Vec<Observation>,
    hold: &Figure,
    mutex: &Mutex653,
    now: u64,
) -> Result<(), AllocError>
    ensures { OnOk result (observed.new.items ≡ observed.old.items ++ acquired hold.now mutex.now.owner now) }
{
    match mutex.owner() {
        Some(_) => Ok(()),
        None => add(observed, Observation::Begins(*hold, now)),
    }
}

// Adds the end of a hold, and the beginning of the next one, if a process that waits gets the mutex.
fn observe_passed(
    observed: &mut Vec<Observation>,
    hold: &Figure,
    moment: &Moment<'_>,
    mutex: &Mutex653,
    call: &Call,
) -> Result<(), AllocError>
    ensures { OnOk result (observed.new.items ≡ observed.old.items ++ passed_on hold.now moment.now.clock.now.cores moment.now.state.now.table mutex.now.owner call.now.claim.woken) }
{
    if let Some(owner) = mutex.owner() {
        let time = time_of(moment, owner);
        add(observed, Observation::Ends(*hold, time))?;
    }
    match call.claim.woken.as_slice().first() {
        Some(next) => {
            let time = time_of(moment, next.proc);
            add(observed, Observation::Begins(*hold, time))
        }
        None => Ok(()),
    }
}

// The time of the core of a process.
fn time_of(moment: &Moment<'_>, number: ProcId) -> u64
    ensures { result ≡ own_time moment.now.clock.now.cores moment.now.state.now.table number }
{
    match moment.state.processes().proc(number) {
        Some(process) => moment.clock.now(process.affinity),
        None => 0,
    }
}
