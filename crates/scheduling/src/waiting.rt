// Where a call waits, and until when.

ghost use Rattle.std.specs.Prelude.{◌≡◌, ◌<◌, ℕ, ℤ, Option, Some, true};
ghost use Rattle.apex_types.specs.declared.limits.TheConstants.{PLACE_COUNT};
ghost use Rattle.apex_types.specs.declared.request.Request.TheVariants as request;
ghost use Rattle.apex_machine.specs.declared.state.Process.{Process as ProcessValue};
ghost use Rattle.apex_machine.specs.Arguments.{natural_of};
ghost use Rattle.apex_machine.specs.DueTimes as due_times;
ghost use Rattle.apex_machine.specs.Waiting as waiting;
ghost use Rattle.scheduling.specs.Sound as sound;
ghost use Rattle.scheduling.specs.Sound.{WaitsSoundly};

use apex_machine::{Wait, WaitingSet};
use apex_types::{CallerOperation, ChanId, Request};

/// What a caller waits for, if it began to wait when its core's time was `now`. `next` is its next release, in ticks, which only
/// PERIODIC_WAIT uses. A port's set is that of its channel.
pub fn wait_of(request: &Request, channel: Option<ChanId>, now: u64, next: u64) -> Wait
    requires time { now < PLACE_COUNT }
    requires sound { WaitsSoundly request.now }
    ensures { (process : ProcessValue) → (sound.is_periodic_wait request.now ≡ true → due_times.next_release process ≡ next) → result ≡ due_times.wait_of request.now channel now process }
{
    match request {
        Request::Caller(operation) => own_wait(operation, now, next),
        Request::Preemption(_) => Wait::ForLock,
        _ => match set_of(request, channel) {
            Some(set) => Wait::At(set, due_of_call(request, now)),
            None => Wait::Nothing,
        },
    }
}

// What a caller waits for after an operation that it requests for itself.
fn own_wait(operation: &CallerOperation, now: u64, next: u64) -> Wait
    requires { now < PLACE_COUNT }
    ensures { (channel : Option ℕ) (process : ProcessValue)
        → (sound.is_periodic_wait (request.Caller operation.now) ≡ true → due_times.next_release process ≡ next)
        → result ≡ due_times.wait_of (request.Caller operation.now) channel now process }
{
    match operation {
        CallerOperation::SuspendSelf { time_out } => Wait::Suspended(due_time(*time_out, now)),
        CallerOperation::TimedWait { delay } => match due_time(*delay, now) {
            Some(due) => Wait::Until(due),
            None => Wait::Nothing,
        },
        CallerOperation::PeriodicWait => Wait::PeriodicRelease(next),
        CallerOperation::StopSelf
        | CallerOperation::GetMyId
        | CallerOperation::GetTime
        | CallerOperation::GetPartitionStatus
        | CallerOperation::Replenish { .. } => Wait::Nothing,
    }
}

// The set in which a caller waits, if it waits in one; a port's set is that of its channel.
fn set_of(request: &Request, channel: Option<ChanId>) -> Option<WaitingSet>
    requires { WaitsSoundly request.now }
    ensures { result ≡ waiting.set_of request.now channel }
{
    match request {
        Request::Object(number, operation) => {
            let wait = operation.shape().wait?;
            Some(WaitingSet {
                kind: operation.kind(),
                number: object_number(*number),
                end: wait.end,
            })
        }
        Request::QueuingPort(_, operation) => {
            let wait = operation.shape().wait?;
            Some(WaitingSet::of_channel(channel?, wait.end))
        }
        _ => None,
    }
}

// The time at which a call's time-out falls due, if it begins at the time `now` and falls due at all.
fn due_of_call(request: &Request, now: u64) -> Option<u64>
    requires { now < PLACE_COUNT }
    ensures { result ≡ due_times.due_of_call (due_times.time_out_of request.now) now }
{
    due_time(time_out_of(request)?, now)
}

// The time-out of a call, if it has one.
fn time_out_of(request: &Request) -> Option<i64>
    ensures { result ≡ due_times.time_out_of request.now }
{
    match request {
        Request::Caller(CallerOperation::SuspendSelf { time_out }) => Some(*time_out),
        Request::Object(_, operation) => Some(operation.shape().wait?.time_out),
        Request::QueuingPort(_, operation) => Some(operation.shape().wait?.time_out),
        _ => None,
    }
}

// The number of an object, from the one that a caller gives.
fn object_number(given: i64) -> u32
    requires { natural_of given < 4294967296 }
    ensures { result ≡ natural_of given }
{
    if given < 0 { 0 } else { given as u32 }
}

// The time at which a time-out that begins at the time `now` falls due; one below 0 never falls due.
fn due_time(time_out: i64, now: u64) -> Option<u64>
    requires { now < PLACE_COUNT }
    ensures { result ≡ due_times.due_time time_out now }
{
    if time_out < 0 {
        None
    } else {
        Some(now + time_out as u64)
    }
}

/// Whether a request is PERIODIC_WAIT.
pub fn is_periodic_wait(request: &Request) -> bool
    ensures { result ≡ sound.is_periodic_wait request.now }
{
    matches!(request, Request::Caller(CallerOperation::PeriodicWait))
}
