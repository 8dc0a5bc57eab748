// What becomes of a caller after its call.

ghost use Rattle.std.specs.Prelude.{◌≡◌, ◌<◌, ◌&&◌, ℕ, IsTrue, true, if◌then◌else◌};
ghost use Rattle.apex_types.specs.declared.limits.TheConstants.{PLACE_COUNT};
ghost use Rattle.apex_machine.specs.declared.state.Process.{Process as ProcessValue};
ghost use Rattle.apex_machine.specs.DueTimes.{next_release};
ghost use Rattle.apex_machine.specs.Deadlines as deadlines;
ghost use Rattle.apex_machine.specs.Processes as processes;
ghost use Rattle.apex_machine.specs.Waiting.{is_no_error, is_waiting};
ghost use Rattle.apex_types.specs.declared.record.Out.TheVariants as out;
ghost use Rattle.scheduling.specs.Changes.{given_or};
ghost use Rattle.apex_machine.specs.After as after;
ghost use Rattle.scheduling.specs.Prepared.{outcome_due};
ghost use Rattle.scheduling.specs.Releases.{IsNextOf};
ghost use Rattle.scheduling.specs.Settled.{settled};
ghost use Rattle.scheduling.specs.Sound as sound;
ghost use Rattle.scheduling.specs.Sound.{WaitsSoundly};

use crate::deadline::deadline_from;
use crate::peer::answers_no_error;
use crate::process::{NextRelease, span_given};
use crate::waiting::{is_periodic_wait, wait_of};
use apex_machine::{Outcome, Wait};
use apex_types::{Call, CallerOperation, Code, Out, Place, Request};

/// What becomes of a caller after its call.
#[derive(Drop)]
pub enum Settling {
    /// It waits. If its deadline is set, this is the new one, in ticks.
    Waits {
        wait: Wait,
        deadline: Option<Option<u64>>,
    },
    /// It is dormant.
    Stops,
    /// It is the handler, and stays ready.
    StaysReady,
    /// The outcome is due to it. If its ready position is renewed, it is the given place; if a release is reached, that is its time; if its
    /// deadline is set, this is the new one. Times are in ticks.
    Answered {
        outcome: Outcome,
        renewed: Option<Place>,
        reached: Option<u64>,
        deadline: Option<Option<u64>>,
    },
}

/// Whether a call was carried out: it waits, it does not return, or it answered NO_ERROR.
pub fn is_done(out: Out) -> bool
    ensures { result ≡ after.is_done out }
{
    match out {
        Out::Waits | Out::Never | Out::Answer(Code::NoError) => true,
        Out::Answer(_) => false,
    }
}

/// What becomes of the caller of this call, at this place and at its core's time `now`. `next` is its next release, in ticks, which only
/// PERIODIC_WAIT uses. `outcome` is the one that becomes due to it, if one does. `handles_more` says that it is the handler and stays ready.
pub fn settling_of(
    place: Place,
    now: u64,
    next: NextRelease,
    handles_more: bool,
    call: &Call,
    outcome: Option<Outcome>,
) -> Settling
    requires time { now < PLACE_COUNT }
    requires waits { IsTrue (is_waiting call.now.claim.out) → WaitsSoundly call.now.request }
    requires outcome { outcome ≡ outcome_due call.now call.now.claim.out }
    ensures { (process : ProcessValue) → (sound.is_periodic_wait call.now.request ≡ true → IsNextOf next process) → settled now result process ≡ after.caller_after place now handles_more call.now process }
{
    if handles_more {
        return Settling::StaysReady;
    }
    match outcome {
        Some(outcome) => {
            let renewed = renewed_by(place, outcome.code, &call.request);
            let reached = reached_by(next.time, outcome.code, &call.request);
            let deadline = deadline_with(outcome.code, &call.request, now, next);
            Settling::Answered {
                outcome,
                renewed,
                reached,
                deadline,
            }
        }
        None => match call.claim.out {
            Out::Waits => Settling::Waits {
                wait: wait_of(&call.request, call.claim.chan, now, next.time),
                deadline: deadline_by(&call.request, now, next),
            },
            // An answer has an outcome.
            Out::Never | Out::Answer(_) => Settling::Stops,
        },
    }
}

// The new deadline of the caller after a call that an answer with this code ends at its core's time `now`, if the call sets it.
fn deadline_with(code: Code, request: &Request, now: u64, next: NextRelease) -> Option<Option<u64>>
    ensures { (process : ProcessValue) → (sound.is_periodic_wait request.now ≡ true → IsNextOf next process) → given_or result process.deadline ≡ (if is_no_error (out.Answer code) then deadlines.deadline_by request.now now process else process.deadline) }
{
    if answers_no_error(Out::Answer(code)) {
        deadline_by(request, now, next)
    } else {
        None
    }
}

// The new deadline of the caller after its call at its core's time `now`, if the call waits or answers NO_ERROR and sets it: PERIODIC_WAIT
// sets the one that the caller's next release gives, REPLENISH the one that the budget gives.
fn deadline_by(request: &Request, now: u64, next: NextRelease) -> Option<Option<u64>>
    ensures { (process : ProcessValue) → (sound.is_periodic_wait request.now ≡ true → IsNextOf next process) → given_or result process.deadline ≡ deadlines.deadline_by request.now now process }
{
    match request {
        Request::Caller(CallerOperation::PeriodicWait) => Some(next.deadline),
        Request::Caller(CallerOperation::Replenish { budget }) => {
            Some(deadline_from(now, span_given(*budget)))
        }
        _ => None,
    }
}

// The new ready position of the caller, if the call renews it.
fn renewed_by(place: Place, code: Code, request: &Request) -> Option<Place>
    ensures { (old : ℕ) → given_or result old ≡ (if processes.renews request.now && is_no_error (out.Answer code) then place else old) }
{
    if renews_with(code, request) {
        Some(place)
    } else {
        None
    }
}

// The release that the call reaches, if it reaches one. `next` is the caller's next release, in ticks.
fn reached_by(next: u64, code: Code, request: &Request) -> Option<u64>
    ensures { (process : ProcessValue) → (sound.is_periodic_wait request.now ≡ true → next_release process ≡ next) → given_or result process.last_release ≡ (if is_no_error (out.Answer code) then processes.release_taken request.now process else process.last_release) }
{
    if takes_release(code, request) {
        Some(next)
    } else {
        None
    }
}

// Whether an answer with this code renews its caller's ready position.
fn renews_with(code: Code, request: &Request) -> bool
    ensures { result ≡ processes.renews request.now && is_no_error (out.Answer code) }
{
    renews(request) && answers_no_error(Out::Answer(code))
}

// Whether an answer with this code has reached its caller's next release.
fn takes_release(code: Code, request: &Request) -> bool
    ensures { result ≡ is_no_error (out.Answer code) && sound.is_periodic_wait request.now }
{
    answers_no_error(Out::Answer(code)) && is_periodic_wait(request)
}

// Whether the request renews its caller's ready position: TIMED_WAIT with a delay of 0, and PERIODIC_WAIT.
fn renews(request: &Request) -> bool
    ensures { result ≡ processes.renews request.now }
{
    match request {
        Request::Caller(CallerOperation::TimedWait { delay }) => *delay == 0,
        Request::Caller(CallerOperation::PeriodicWait) => true,
        _ => false,
    }
}
