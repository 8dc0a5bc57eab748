// By what a call is judged: the process or the object that it names, the lock, or the time.

use crate::held::{tell_lock, tell_object};
use crate::processes::{peer_of, tell_numbered};
use apex_machine::{Mode, Process, StartCondition};
use apex_types::{
    Call, CallerOperation, NamedKind, ObjectKind, ProcId, ProcessOperation, Request, Who,
};
use partition_state::PartitionState;
use wait_set::GivenValue;
use wording::Words;

/// Reports by what a call is judged: the process or the object that it names, the lock, or the time.
pub fn tell_basis(words: &mut Words, state: &PartitionState, now: u64, call: &Call) {
    match &call.request {
        Request::CreateProcess { .. }
        | Request::SetPartitionMode(..)
        | Request::Create(..)
        | Request::Health(_)
        // These go through a channel.
        | Request::SamplingPort(..)
        | Request::QueuingPort(..) => {}
        Request::Process(process, operation) => {
            tell_target(words, state, call.who, *process, operation);
        }
        Request::Caller(operation) => tell_own(words, state, now, call.who.proc, operation),
        Request::Object(number, operation) => {
            tell_object(words, state, operation.kind(), *number);
        }
        Request::GetId(kind, name) => {
            if let Some(number) = state.number_of(*kind, name) {
                tell_found(words, state, call.who, *kind, i64::from(number));
            }
        }
        Request::GetStatus(kind, object) => tell_object(words, state, *kind, *object),
        Request::Preemption(_) => tell_lock(words, state.lock()),
    }
}

// Reports the process, object or port that has a name.
fn tell_found(words: &mut Words, state: &PartitionState, caller: Who, kind: NamedKind, found: i64) {
    match kind {
        NamedKind::Process => {
            if let Some(peer) = peer_of(state, caller, found) {
                tell_numbered(words, state, peer);
            }
        }
        NamedKind::Object(kind) => tell_object(words, state, kind, found),
    }
}

/// Reports what already has the number that a creation claims.
pub fn tell_holder(words: &mut Words, state: &PartitionState, call: &Call) {
    let Some(number) = call.claim.val else {
        return;
    };
    match &call.request {
        Request::CreateProcess { .. } => {
            if let Some(holder) = peer_of(state, call.who, number) {
                tell_numbered(words, state, holder);
            }
        }
        Request::Create(_, object) => tell_object(words, state, object.kind(), number),
        Request::Process(..)
        | Request::Caller(_)
        | Request::SetPartitionMode(..)
        | Request::Object(..)
        | Request::SamplingPort(..)
        | Request::QueuingPort(..)
        | Request::GetId(..)
        | Request::GetStatus(..)
        | Request::Health(_)
        | Request::Preemption(_) => {}
    }
}

// Reports the process that a call names, if the answer depends on it.
fn tell_target(
    words: &mut Words,
    state: &PartitionState,
    caller: Who,
    process: i64,
    operation: &ProcessOperation,
) {
    match operation {
        ProcessOperation::Resume | ProcessOperation::GetStatus => {
            if let Some(peer) = peer_of(state, caller, process) {
                tell_numbered(words, state, peer);
            }
        }
        ProcessOperation::GetMutexState => tell_owned(words, state, process),
        ProcessOperation::Stop => {
            if state.numbered_owns_lock(process) {
                tell_lock(words, state.lock());
            }
        }
        ProcessOperation::InitializeCoreAffinity { .. }
        | ProcessOperation::Start
        | ProcessOperation::DelayedStart { .. }
        | ProcessOperation::Suspend
        | ProcessOperation::SetPriority { .. } => {}
    }
}

// Reports the mutex that a process owns, or that it owns the lock.
fn tell_owned(words: &mut Words, state: &PartitionState, process: i64) {
    if state.numbered_owns_lock(process) {
        tell_lock(words, state.lock());
        return;
    }
    match state.mutex_state(process) {
        GivenValue::Natural(mutex) => {
            let mutex = i64::try_from(mutex).unwrap_or(i64::MAX);
            tell_object(words, state, ObjectKind::Mutex, mutex);
        }
        GivenValue::BelowZero(_) => {
            words.next_line();
            words.say(format_args!("process {process} owns neither a mutex nor the lock"));
        }
    }
}

// Reports the time, the partition's mode or the lock, if the answer to the caller depends on it.
fn tell_own(
    words: &mut Words,
    state: &PartitionState,
    now: u64,
    caller: ProcId,
    operation: &CallerOperation,
) {
    match operation {
        CallerOperation::PeriodicWait => {
            if let Some(process) = state.processes().proc(caller) {
                words.next_line();
                words.say(format_args!("its last release was at {}", process.last_release));
                if let Some(period) = process.period {
                    words.say(format_args!(", its period is {period}"));
                }
                words.say(format_args!(", and the time is {now}"));
            }
        }
        CallerOperation::Replenish { .. } => {
            if let Some(process) = state.processes().proc(caller) {
                tell_next_release(words, process, now);
            }
        }
        CallerOperation::GetTime => {
            words.next_line();
            words.say(format_args!("the time of its core is {now}"));
        }
        CallerOperation::GetPartitionStatus => {
            words.next_line();
            words.say(match state.processes().mode() {
                Mode::Idle => "the partition is in IDLE mode",
                Mode::ColdStart => "the partition is in COLD_START mode",
                Mode::WarmStart => "the partition is in WARM_START mode",
                Mode::Normal => "the partition is in NORMAL mode",
            });
            words.say(match state.start_condition() {
                StartCondition::NormalStart => ", and has run since the module started",
                StartCondition::PartitionRestart => ", and was restarted by SET_PARTITION_MODE",
                StartCondition::ErrorRestart => ", and was restarted after an error",
            });
            tell_lock(words, state.lock());
        }
        CallerOperation::StopSelf => {
            if state.owns_lock(caller) {
                tell_lock(words, state.lock());
            }
        }
        CallerOperation::SuspendSelf { .. }
        | CallerOperation::GetMyId
        | CallerOperation::TimedWait { .. } => {}
    }
}

// Reports the next release of a process, if it is periodic, and the time of its core.
fn tell_next_release(words: &mut Words, process: &Process, now: u64) {
    words.next_line();
    words.say(format_args!("the time of its core is {now}"));
    if let Some(period) = process.period {
        words.say(format_args!(
            ", and its next release is {period} after its last one, which was at {}",
            process.last_release
        ));
    }
}
