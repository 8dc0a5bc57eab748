// What a process waits for: when the wait is over, and what is due then.

ghost use Rattle.std.specs.Prelude.{◌≡◌, ◌<◌, ◌≤◌, ◌+◌, ◌↔◌, IsTrue};
ghost use Rattle.apex_types.specs.declared.limits.TheConstants.{GREATEST_SPAN, PLACE_COUNT};
ghost use Rattle.apex_machine.specs.Arguments.{natural_of};
ghost use Rattle.apex_machine.specs.Choice as choice;
ghost use Rattle.apex_machine.specs.Processes as processes;
ghost use Rattle.apex_machine.specs.Deadlines as deadlines;
ghost use Rattle.apex_machine.specs.DueTimes as due_times;
ghost use Rattle.apex_machine.specs.Waiting as waiting;
ghost use Rattle.scheduling.specs.Ranks as ranks;

use apex_machine::{Wait, WaitingSet};
use apex_types::{Code, ObjectKind, Service};

/// Whether a wait is for nothing.
pub fn is_none(wait: Wait) -> bool
    ensures { result ≡ choice.waits_for_nothing wait }
{
    matches!(wait, Wait::Nothing)
}

/// Whether a wait is for a mutex.
pub fn is_for_mutex(wait: Wait) -> bool
    ensures { result ≡ due_times.is_for_mutex wait }
{
    matches!(
        wait,
        Wait::At(
            WaitingSet {
                kind: ObjectKind::Mutex,
                ..
            },
            _
        )
    )
}

/// When a wait is over, in ticks of the process's core, if time ends it.
pub fn time_due(wait: Wait) -> Option<u64>
    ensures { result ≡ ranks.time_due wait }
{
    match wait {
        Wait::FirstRelease(due)
        | Wait::Delay(due)
        | Wait::Until(due)
        | Wait::PeriodicRelease(due) => Some(due),
        Wait::Suspended(due) | Wait::At(_, due) => due,
        Wait::Nothing | Wait::NormalMode(_) | Wait::ForLock => None,
    }
}

/// Whether a wait is over once the process's core reaches this time, in ticks.
pub fn is_due(wait: Wait, time: u64) -> bool
    ensures { result ≡ due_times.due_by time wait }
{
    match wait {
        Wait::FirstRelease(due)
        | Wait::Delay(due)
        | Wait::Until(due)
        | Wait::PeriodicRelease(due) => due <= time,
        Wait::Suspended(Some(due)) | Wait::At(_, Some(due)) => due <= time,
        Wait::Nothing
        | Wait::NormalMode(_)
        | Wait::Suspended(None)
        | Wait::At(_, None)
        | Wait::ForLock => false,
    }
}

/// The service whose call began a wait, if one did.
pub fn service_of(wait: Wait) -> Option<Service>
    ensures { result ≡ processes.service_of_wait wait }
{
    match wait {
        Wait::Until(_) => Some(Service::TimedWait),
        Wait::PeriodicRelease(_) => Some(Service::PeriodicWait),
        Wait::Suspended(_) => Some(Service::SuspendSelf),
        Wait::At(set, _) => set.service(),
        Wait::ForLock => Some(Service::LockPreemption),
        Wait::Nothing | Wait::NormalMode(_) | Wait::FirstRelease(_) | Wait::Delay(_) => None,
    }
}

/// The code with which a wait ends that falls due: TIMED_OUT if the process waited for something else than a time, NO_ERROR if it waited
/// for a time.
pub fn code_when_due(wait: Wait) -> Code
    ensures { result ≡ processes.code_when_due wait }
{
    match wait {
        Wait::Suspended(_) | Wait::At(..) | Wait::ForLock => Code::TimedOut,
        Wait::Nothing
        | Wait::NormalMode(_)
        | Wait::FirstRelease(_)
        | Wait::Delay(_)
        | Wait::Until(_)
        | Wait::PeriodicRelease(_) => Code::NoError,
    }
}

/// The value with which a wait ends that another process ends: the new owner of the lock has level 1.
pub fn value_when_woken(wait: Wait) -> Option<i64>
    ensures { result ≡ processes.value_when_woken wait }
{
    match wait {
        Wait::ForLock => Some(1),
        _ => None,
    }
}

/// The last release after this wait has ended: the one for which the process waited, or this one, both in ticks.
pub fn release_reached(wait: Wait, last: u64) -> u64
    ensures { result ≡ processes.release_reached wait last }
{
    match wait {
        Wait::FirstRelease(time) | Wait::PeriodicRelease(time) => time,
        Wait::Nothing
        | Wait::NormalMode(_)
        | Wait::Delay(_)
        | Wait::Until(_)
        | Wait::Suspended(_)
        | Wait::At(..)
        | Wait::ForLock => last,
    }
}

/// The time from which the time capacity of a process counts that is started in NORMAL with a delay, when its core's time is `now`: the end
/// of the delay of an aperiodic one, the first release of a periodic one, which the delay puts off. All are in ticks; a delay below 0 is as
/// none.
pub fn entry_time(partition_period: u64, now: u64, delay: i64, period: Option<u64>) -> u64
    requires least { 1 ≤ partition_period }
    requires most { partition_period ≤ GREATEST_SPAN }
    requires time { now < PLACE_COUNT }
    ensures { result ≡ deadlines.entry_time partition_period now (natural_of delay) period }
{
    let delay = natural(delay);
    match period {
        Some(_) => first_release(partition_period, now) + delay,
        None => now + delay,
    }
}

/// What a process waits for that is started in NORMAL with a delay, when its core's time is `now`: an aperiodic one that the delay is over,
/// a periodic one for its first release, a multiple of the partition's period, which the delay puts off. Periods and delays are in ticks; a
/// delay below 0 is as none.
pub fn on_entry(partition_period: u64, now: u64, delay: i64, period: Option<u64>) -> Wait
    requires least { 1 ≤ partition_period }
    requires most { partition_period ≤ GREATEST_SPAN }
    requires time { now < PLACE_COUNT }
    ensures { result ≡ due_times.entry_wait partition_period now (natural_of delay) period }
{
    let delay = natural(delay);
    match period {
        Some(_) => Wait::FirstRelease(first_release(partition_period, now) + delay),
        None => match delay {
            0 => Wait::Nothing,
            _ => Wait::Delay(now + delay),
        },
    }
}

// A number that a caller gives; 0 if it is below 0.
fn natural(given: i64) -> u64
    ensures value { result ≡ natural_of given }
    ensures bound { result < 9223372036854775808 }
{
    if given < 0 { 0 } else { given as u64 }
}

// The least multiple of the partition's period above this time, in ticks.
#[tactic(auto, using(crate::proofs::Releases::next_multiple))]
fn first_release(partition_period: u64, now: u64) -> u64
    requires least { 1 ≤ partition_period }
    requires most { partition_period ≤ GREATEST_SPAN }
    requires time { now < PLACE_COUNT }
    ensures value { result ≡ due_times.first_release partition_period now }
    ensures bound { result ≤ now + partition_period }
{
    now - now % partition_period + partition_period
}

/// Whether a process that has this wait waits in this waiting set.
pub fn is_in(wait: Wait, wanted: WaitingSet) -> bool
    ensures { result ≡ waiting.is_in wanted wait }
{
    match wait {
        Wait::At(found, _) => is_same_set(found, wanted),
        _ => false,
    }
}

fn is_same_set(one: WaitingSet, other: WaitingSet) -> bool
    ensures { result ≡ waiting.is_same_set one other }
{
    one == other
}
