// The error conditions of the services on processes, on the caller's waits and on the partition's mode.

ghost use Rattle.std.specs.Prelude.{◌≡◌, ◌≤◌, ℕ, length};
ghost use Rattle.std.specs.Option.{option_copied};
ghost use Rattle.apex_types.specs.declared.request.Request.TheVariants as request;
ghost use Rattle.apex_machine.specs.Conditions as shared;
ghost use Rattle.apex_machine.specs.Configuration.{Configuration};
ghost use Rattle.apex_machine.specs.DueTimes as due_times;
ghost use Rattle.apex_machine.specs.ProcessConditions as processes;
ghost use Rattle.apex_machine.specs.ServiceConditions.{conditions_of};

use super::deadlines::replenish;
use super::{creation, is_normal, is_reached, may_not_wait};
use crate::arguments::{
    is_above_period, is_at_least, is_mode, is_negative, is_normal_mode, is_period, is_priority,
    is_process, is_time_capacity, is_time_out, is_warm_start_mode, suits_period,
};
use apex_machine::{Condition, Mode, Process, Wait};
use apex_types::{CallerOperation, Name, PartId, ProcessOperation, Who};
use module_config::Config;
use partition_state::PartitionState;
use wait_set::Conditions;

/// START and all other services that name a process.
pub(super) fn process_conditions(
    config: &Config,
    state: &PartitionState,
    who: Who,
    process: i64,
    operation: &ProcessOperation,
) -> Conditions
    ensures { (now : ℕ) → result ≡ conditions_of config.now now who state.now (request.Process process operation.now) }
{
    let target = state.processes().created(process);
    match operation {
        ProcessOperation::InitializeCoreAffinity { core } => {
            initialize_affinity(config, who.part, state, process, *core)
        }
        ProcessOperation::Start => start(target),
        ProcessOperation::DelayedStart { delay } => delayed_start(target, *delay),
        ProcessOperation::Stop => stop(who, target, process),
        ProcessOperation::Suspend => suspend(who, state, process),
        ProcessOperation::Resume => resume(who, target, process),
        ProcessOperation::SetPriority { priority } => set_priority(target, *priority),
        ProcessOperation::GetStatus | ProcessOperation::GetMutexState => named(target),
    }
}

/// STOP_SELF and all other services that a process requests for itself, at this time of its core, in ticks. STOP_SELF, GET_TIME and
/// GET_PARTITION_STATUS have no error condition.
pub(super) fn caller_conditions(
    now: u64,
    state: &PartitionState,
    who: Who,
    operation: &CallerOperation,
) -> Conditions
    ensures { (configuration : Configuration) → result ≡ conditions_of configuration now who state.now (request.Caller operation.now) }
{
    match operation {
        CallerOperation::SuspendSelf { time_out } => suspend_self(who, state, *time_out),
        CallerOperation::GetMyId => get_my_id(who),
        CallerOperation::TimedWait { delay } => timed_wait(who, state, *delay),
        CallerOperation::PeriodicWait => periodic_wait(who, state),
        CallerOperation::Replenish { budget } => replenish(now, state, who, *budget),
        CallerOperation::StopSelf
        | CallerOperation::GetTime
        | CallerOperation::GetPartitionStatus => Conditions::none(),
    }
}

/// How a new process is to be scheduled, as its creator gives it: its base priority, and its period and time capacity in ticks.
#[derive(Clone, Copy)]
pub(super) struct Scheduling {
    pub(super) priority: i64,
    pub(super) period: i64,
    pub(super) time_capacity: i64,
}

/// CREATE_PROCESS: the conditions of every creation; a priority, a period and a time capacity in range, a period that suits the partition's,
/// and a time capacity that is not above the period.
pub(super) fn create_process(
    config: &Config,
    number: PartId,
    state: &PartitionState,
    name: &Name,
    given: Scheduling,
) -> Conditions
    ensures { result ≡ processes.create_process_conditions config.now number state.now name.now given.priority given.period given.time_capacity }
{
    let processes = state.processes();
    let is_full = is_reached(config.process_limit(number), processes.len());
    let suits = suits_period(config.period(number), given.period);
    creation(state, processes.named(name), is_full)
        .with(!is_priority(given.priority), Condition::PriorityOutOfRange)
        .with(!is_period(given.period), Condition::PeriodOutOfRange)
        .with(!suits, Condition::PeriodNotMultiple)
        .with(
            !is_time_capacity(given.time_capacity),
            Condition::TimeCapacityOutOfRange,
        )
        .with(
            is_above_period(given.period, given.time_capacity),
            Condition::TimeCapacityAbovePeriod,
        )
}

// INITIALIZE_PROCESS_CORE_AFFINITY: a created process; a mode other than NORMAL; one of the partition's cores.
fn initialize_affinity(
    config: &Config,
    number: PartId,
    state: &PartitionState,
    process: i64,
    core: i64,
) -> Conditions
    ensures { result ≡ processes.affinity_conditions config.now number state.now process core }
{
    let target = state.processes().created(process);
    Conditions::none()
        .with(target.is_none(), Condition::NotCreated)
        .with(is_normal(state.processes().mode()), Condition::InNormal)
        .with(
            !config.has_core(number, core),
            Condition::CoreNotOfPartition,
        )
}

// START: a created process that is dormant.
fn start(target: Option<&Process>) -> Conditions
    ensures value { result ≡ processes.start_conditions (option_copied target.entry) }
    ensures few { length result ≤ 1 }
{
    match target {
        Some(process) => Conditions::none().with(process.alive, Condition::AlreadyStarted),
        None => Conditions::none().with(true, Condition::NotCreated),
    }
}

// DELAYED_START: a created process that is dormant; a delay that is not below 0, and below the period of a periodic process.
fn delayed_start(target: Option<&Process>, delay: i64) -> Conditions
    ensures { result ≡ processes.delayed_start_conditions (option_copied target.entry) delay }
{
    start(target)
        .with(is_negative(delay), Condition::DelayOutOfRange)
        .with(
            target.is_some_and(|found| reaches_period(delay, found)),
            Condition::DelayNotBelowPeriod,
        )
}

// Whether a process is periodic and this delay is not below its period, both in ticks.
fn reaches_period(delay: i64, process: &Process) -> bool
    ensures { result ≡ processes.reaches_period delay process.now }
{
    match process.period {
        Some(period) => is_at_least(period, delay),
        None => false,
    }
}

// GET_PROCESS_STATUS and GET_PROCESS_MUTEX_STATE: a created process.
fn named(target: Option<&Process>) -> Conditions
    ensures { result ≡ processes.named_conditions (option_copied target.entry) }
{
    Conditions::none().with(target.is_none(), Condition::NotCreated)
}

// STOP: a created process, other than the caller, that is not dormant.
fn stop(who: Who, target: Option<&Process>, process: i64) -> Conditions
    ensures { result ≡ processes.stop_conditions who (option_copied target.entry) process }
{
    let of_target = match target {
        Some(found) => Conditions::none().with(!found.alive, Condition::AlreadyDormant),
        None => Conditions::none().with(true, Condition::NotCreated),
    };
    of_target.with(is_process(process, who.proc), Condition::NamesItself)
}

// SUSPEND and RESUME: a process that is neither dormant nor periodic.
fn suspension(process: &Process) -> Conditions
    ensures value { result ≡ processes.suspension_conditions process.now }
    ensures few { length result ≤ 2 }
{
    Conditions::none()
        .with(!process.alive, Condition::Dormant)
        .with(is_periodic(process), Condition::Periodic)
}

// SUSPEND: a created process, other than the caller, that is neither dormant nor periodic, not yet suspended, and not the owner of the lock.
fn suspend(who: Who, state: &PartitionState, process: i64) -> Conditions
    ensures { result ≡ processes.suspend_conditions who state.now process }
{
    let of_target = match state.processes().created(process) {
        Some(found) => suspension(found)
            .with(is_suspended(found), Condition::AlreadySuspended)
            .with(
                state.numbered_owns_lock(process),
                Condition::ProcessOwnsLock,
            ),
        None => Conditions::none().with(true, Condition::NotCreated),
    };
    of_target.with(is_process(process, who.proc), Condition::NamesItself)
}

// RESUME: a created process, other than the caller, that is neither dormant nor periodic and is suspended.
fn resume(who: Who, target: Option<&Process>, process: i64) -> Conditions
    ensures { result ≡ processes.resume_conditions who (option_copied target.entry) process }
{
    let of_target = match target {
        Some(found) => {
            suspension(found).with(found.alive && !is_suspended(found), Condition::NotSuspended)
        },
        None => Conditions::none().with(true, Condition::NotCreated),
    };
    of_target.with(is_process(process, who.proc), Condition::NamesItself)
}

// SET_PRIORITY: a created process that is not dormant; a priority in range.
fn set_priority(target: Option<&Process>, priority: i64) -> Conditions
    ensures { result ≡ processes.set_priority_conditions (option_copied target.entry) priority }
{
    let of_target = match target {
        Some(found) => Conditions::none().with(!found.alive, Condition::Dormant),
        None => Conditions::none().with(true, Condition::NotCreated),
    };
    of_target.with(!is_priority(priority), Condition::PriorityOutOfRange)
}

// GET_MY_ID: a caller other than the initialising process.
fn get_my_id(who: Who) -> Conditions
    ensures { result ≡ processes.get_my_id_conditions who }
{
    Conditions::none().with(who.proc.number() == 0, Condition::InitialisingCaller)
}

// SUSPEND_SELF: a time-out in range; an aperiodic process that may wait.
fn suspend_self(who: Who, state: &PartitionState, time_out: i64) -> Conditions
    ensures { result ≡ processes.suspend_self_conditions who state.now time_out }
{
    Conditions::none()
        .with(!is_time_out(time_out), Condition::TimeOutOutOfRange)
        .with(
            has_period(state.processes().proc(who.proc)),
            Condition::PeriodicCaller,
        )
        .with(may_not_wait(state, who), Condition::MayNotWait)
}

// TIMED_WAIT: a delay not below 0; a process that may wait.
fn timed_wait(who: Who, state: &PartitionState, delay: i64) -> Conditions
    ensures { result ≡ processes.timed_wait_conditions who state.now delay }
{
    Conditions::none()
        .with(is_negative(delay), Condition::DelayOutOfRange)
        .with(may_not_wait(state, who), Condition::MayNotWait)
}

// PERIODIC_WAIT: a periodic process that may wait.
fn periodic_wait(who: Who, state: &PartitionState) -> Conditions
    ensures { result ≡ processes.periodic_wait_conditions who state.now }
{
    Conditions::none()
        .with(
            !has_period(state.processes().proc(who.proc)),
            Condition::AperiodicCaller,
        )
        .with(may_not_wait(state, who), Condition::MayNotWait)
}

/// SET_PARTITION_MODE: a mode in range; not NORMAL in NORMAL, and not WARM_START in COLD_START.
pub(super) fn set_mode(current: Mode, mode: i64) -> Conditions
    ensures { result ≡ processes.set_mode_conditions current mode }
{
    Conditions::none()
        .with(!is_mode(mode), Condition::ModeOutOfRange)
        .with(
            is_normal_mode(mode) && is_normal(current),
            Condition::AlreadyNormal,
        )
        .with(
            is_warm_start_mode(mode) && is_cold_start(current),
            Condition::WarmStartInColdStart,
        )
}

fn is_cold_start(mode: Mode) -> bool
    ensures { result ≡ shared.is_cold_start mode }
{
    mode == Mode::ColdStart
}

fn is_periodic(process: &Process) -> bool
    ensures { result ≡ processes.is_periodic process.now }
{
    process.period.is_some()
}

// Whether there is a process that has a period.
fn has_period(process: Option<&Process>) -> bool
    ensures { result ≡ shared.of_caller processes.is_periodic (option_copied process.entry) }
{
    match process {
        Some(found) => is_periodic(found),
        None => false,
    }
}

// Whether another process suspended the process, or it suspended itself.
fn is_suspended(process: &Process) -> bool
    ensures { result ≡ processes.is_suspended process.now }
{
    process.suspended || suspends_itself(process.wait)
}

fn suspends_itself(wait: Wait) -> bool
    ensures { result ≡ due_times.is_suspension wait }
{
    match wait {
        Wait::Suspended(_) => true,
        Wait::Nothing
        | Wait::NormalMode(_)
        | Wait::FirstRelease(_)
        | Wait::Delay(_)
        | Wait::Until(_)
        | Wait::PeriodicRelease(_)
        | Wait::At(..)
        | Wait::ForLock => false,
    }
}
