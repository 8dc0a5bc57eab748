// The changes of one process.

ghost use Rattle.std.specs.Prelude.{◌≡◌, ◌<◌, ◌≤◌, Some, None, pos, IfOk};
ghost use Rattle.apex_types.specs.declared.limits.TheConstants.{GREATEST_SPAN, PLACE_COUNT};
ghost use Rattle.apex_machine.specs.Arguments.{period_given};
ghost use Rattle.apex_machine.specs.DueTimes as due_times;
ghost use Rattle.apex_machine.specs.Errors as errors;
ghost use Rattle.apex_machine.specs.Processes as processes;
ghost use Rattle.apex_machine.specs.State.{initialising_process};
ghost use Rattle.scheduling.specs.Changes.{answered, stopped_self, waiting_for};
ghost use Rattle.scheduling.specs.Releases.{IsNextOf};
ghost use Rattle.scheduling.specs.Sound.{GivesSoundly};

use crate::deadline::{self, deadline_from};
use crate::fault::has_error;
use crate::wait;
use apex_machine::{ErrorHandler, ListedError, Mode, Outcome, Process, Wait};
use apex_types::{Code, CoreId, Message, Name, Place, ProcId, ProcessOperation, Service};
use std::alloc::{AllocError, Global};

/// The initialising process, ready from this place on, on this core, with priority 0. Takes no memory.
pub fn initialising(alloc: Global, core: CoreId, place: Place) -> Process
    ensures { result ≡ initialising_process core place }
{
    Process {
        name: Name::empty(alloc),
        base_priority: 0,
        current_priority: 0,
        retained_priority: 0,
        affinity: core,
        period: None,
        time_capacity: None,
        deadline: None,
        last_release: 0,
        alive: true,
        faulted: false,
        suspended: false,
        wait: Wait::Nothing,
        ready_position: place.number(),
        due: None,
        called_at: 0,
    }
}

/// A process as it is created: dormant, on this core, with its base priority; aperiodic if the period is below 0, and without deadlines if
/// the time capacity is.
pub fn created(
    alloc: Global,
    core: CoreId,
    name: &Name,
    priority: u8,
    period: i64,
    time_capacity: i64,
) -> Result<Process, AllocError>
    ensures { IfOk result (λ process. process ≡ processes.new_process core name.now (pos priority) period time_capacity) }
{
    let bytes = Vec::from_slice(alloc, name.as_bytes())?;
    Ok(Process {
        name: Name::new(bytes),
        base_priority: priority,
        current_priority: priority,
        retained_priority: priority,
        affinity: core,
        period: span_given(period),
        time_capacity: span_given(time_capacity),
        deadline: None,
        last_release: 0,
        alive: false,
        faulted: false,
        suspended: false,
        wait: Wait::Nothing,
        ready_position: 0,
        due: None,
        called_at: 0,
    })
}

/// The period, the time capacity or the budget of a process from the one that a caller gives, in ticks: none if that is below 0.
pub fn span_given(given: i64) -> Option<u64>
    ensures { result ≡ period_given given }
{
    if given < 0 { None } else { Some(given as u64) }
}

/// What a service that names the process sets in it at this place, when its core's time is `now`, in this mode of its partition. The period
/// is the partition's, in ticks. STOP sets nothing here: `stop` does.
pub fn serve(
    process: &mut Process,
    operation: &ProcessOperation,
    place: Place,
    period: u64,
    now: u64,
    mode: Mode,
)
    requires least { 1 ≤ period }
    requires most { period ≤ GREATEST_SPAN }
    requires time { now < PLACE_COUNT }
    requires sound { GivesSoundly operation.now }
    ensures { process.new ≡ processes.set_in place period now mode operation.now process.old }
{
    match operation {
        ProcessOperation::InitializeCoreAffinity { core } => {
            process.affinity = CoreId::new(*core as u8);
        }
        ProcessOperation::Start => start(process, place, period, now, mode, 0),
        ProcessOperation::DelayedStart { delay } => {
            start(process, place, period, now, mode, *delay);
        }
        ProcessOperation::Stop | ProcessOperation::GetStatus | ProcessOperation::GetMutexState => {}
        ProcessOperation::Suspend => process.suspended = true,
        ProcessOperation::Resume => {
            process.suspended = false;
            process.ready_position = place.number();
        }
        ProcessOperation::SetPriority { priority } => {
            process.current_priority = *priority as u8;
            process.ready_position = place.number();
        }
    }
}

// Starts the process with a delay at this place, when its core's time is `now`, in this mode of its partition. The period is the
// partition's, in ticks.
fn start(process: &mut Process, place: Place, period: u64, now: u64, mode: Mode, delay: i64)
    requires least { 1 ≤ period }
    requires most { period ≤ GREATEST_SPAN }
    requires time { now < PLACE_COUNT }
    ensures { process.new ≡ processes.started place period now mode delay process.old }
{
    process.current_priority = process.base_priority;
    process.alive = true;
    match mode {
        Mode::Normal => {
            process.wait = wait::on_entry(period, now, delay, process.period);
            process.deadline = deadline::on_entry(process, period, now, delay);
        }
        Mode::Idle | Mode::ColdStart | Mode::WarmStart => {
            process.wait = Wait::NormalMode(delay);
            process.deadline = None;
        }
    }
    process.ready_position = place.number();
}

/// The partition's mode becomes NORMAL at this place, when the time of the process's core is `now`. The period is the partition's, in
/// ticks.
pub fn enter_normal(process: &mut Process, place: Place, period: u64, now: u64)
    requires least { 1 ≤ period }
    requires most { period ≤ GREATEST_SPAN }
    requires time { now < PLACE_COUNT }
    ensures { process.new ≡ processes.after_normal place period now process.old }
{
    if let Wait::NormalMode(delay) = process.wait {
        process.wait = wait::on_entry(period, now, delay, process.period);
        process.deadline = deadline::on_entry(process, period, now, delay);
        process.ready_position = place.number();
    }
}

/// A tick ends the process's wait, at this place. Takes no memory.
pub fn release(process: &mut Process, alloc: Global, place: Place)
    ensures { process.new ≡ processes.released place process.old }
{
    let code = wait::code_when_due(process.wait);
    end_wait(process, place, code, None, Message::empty(alloc));
}

/// A call at this place, which hands over this message, ends the process's wait.
pub fn wake(process: &mut Process, place: Place, message: Message)
    ensures { process.new ≡ processes.woken_by place message process.old }
{
    let val = wait::value_when_woken(process.wait);
    end_wait(process, place, Code::NoError, val, message);
}

// Ends the process's wait at this place. If a service began the wait, the outcome of the service has this code, value and message.
fn end_wait(process: &mut Process, place: Place, code: Code, val: Option<i64>, bytes: Message)
    ensures { process.new ≡ processes.wait_ended place (processes.outcome_by (processes.service_of_wait process.old.wait) code val bytes) process.old }
{
    process.last_release = wait::release_reached(process.wait, process.last_release);
    process.due = outcome_by(wait::service_of(process.wait), code, val, bytes);
    process.wait = Wait::Nothing;
    process.ready_position = place.number();
}

// The outcome that a service gives its caller, with its code, its value and its message, if there is such a service.
fn outcome_by(
    service: Option<Service>,
    code: Code,
    val: Option<i64>,
    bytes: Message,
) -> Option<Outcome>
    ensures { result ≡ processes.outcome_by service code val bytes }
{
    match service {
        Some(service) => Some(Outcome {
            service,
            code,
            val,
            val2: None,
            val3: None,
            bytes,
        }),
        None => None,
    }
}

/// The outcome that was due has been returned.
pub fn give_back(process: &mut Process)
    ensures { process.new ≡ record process.old { due = None } }
{
    process.due = None;
}

/// The missed deadline of the process has been reported.
pub fn take_deadline(process: &mut Process)
    ensures { process.new ≡ record process.old { deadline = None } }
{
    process.deadline = None;
}

/// The process has been stopped: it is dormant and not faulted, has no deadline, and nothing is due to it.
pub fn stop(process: &mut Process)
    ensures { process.new ≡ processes.stopped process.old }
{
    process.alive = false;
    process.faulted = false;
    process.suspended = false;
    process.wait = Wait::Nothing;
    take_deadline(process);
    give_back(process);
}

/// The process has an error that the handler takes.
pub fn fault(process: &mut Process)
    ensures { process.new ≡ errors.faulted process.old }
{
    process.faulted = true;
}

/// The process, which is the handler, becomes ready at this place, if it is not ready yet.
pub fn start_handler(process: &mut Process, place: Place, handler: ErrorHandler)
    ensures { process.new ≡ errors.handler_started place handler process.old }
{
    if !process.alive {
        process.alive = true;
        process.affinity = handler.core;
        process.ready_position = place.number();
    }
}

/// The handler has stopped itself at this place, and these errors are left: if the process of this number is faulted and has none of them, it
/// goes on.
pub fn heal(process: &mut Process, place: Place, number: ProcId, left: &[ListedError])
    ensures { process.new ≡ errors.healed place left.now number process.old }
{
    if process.faulted && !has_error(number, left) {
        process.faulted = false;
        process.ready_position = place.number();
    }
}

/// The handler has called STOP_SELF, when its core's time was `now`, and stays ready.
pub fn note_call(process: &mut Process, now: u64)
    ensures { process.new ≡ record process.old { called_at = now } }
{
    process.called_at = now;
}

/// The process has stopped itself, when its core's time was `now`.
pub fn stop_self(process: &mut Process, now: u64)
    ensures { process.new ≡ stopped_self now process.old }
{
    stop(process);
    process.called_at = now;
}

/// The process becomes the owner of a mutex of this priority, and retains its own priority.
pub fn grant(process: &mut Process, priority: u8)
    ensures { process.new ≡ processes.granted priority process.old }
{
    process.retained_priority = process.current_priority;
    process.current_priority = priority;
}

/// The process stops being the owner of a mutex, and has its own priority again.
pub fn ungrant(process: &mut Process)
    ensures { process.new ≡ processes.restored process.old }
{
    process.current_priority = process.retained_priority;
}

/// The process has begun to wait, when its core's time was `now`. If its deadline is set, this is the new one, in ticks.
pub fn begin_wait(process: &mut Process, now: u64, wait: Wait, deadline: Option<Option<u64>>)
    ensures { process.new ≡ waiting_for now wait deadline process.old }
{
    process.wait = wait;
    if let Some(deadline) = deadline {
        process.deadline = deadline;
    }
    process.called_at = now;
}

/// A call at the core's time `now` makes this outcome due to the process. If its ready position is renewed, it is the given place; if a
/// release is reached, that becomes its last one; if its deadline is set, this is the new one. Times are in ticks.
pub fn set_due(
    process: &mut Process,
    now: u64,
    renewed: Option<Place>,
    reached: Option<u64>,
    deadline: Option<Option<u64>>,
    outcome: Outcome,
)
    ensures { process.new ≡ answered now renewed reached deadline outcome process.old }
{
    if let Some(place) = renewed {
        process.ready_position = place.number();
    }
    if let Some(release) = reached {
        process.last_release = release;
    }
    if let Some(deadline) = deadline {
        process.deadline = deadline;
    }
    process.due = Some(outcome);
    process.called_at = now;
}

/// A release of a process, and the deadline that it gives the process, both in ticks.
#[derive(Clone, Copy)]
pub struct NextRelease {
    pub time: u64,
    pub deadline: Option<u64>,
}

/// The next release of a process: a period after its last one, if it has a period.
pub fn next_release(process: &Process) -> NextRelease
    requires { due_times.next_release process.now < 18446744073709551616 }
    ensures { IsNextOf result process.now }
{
    let time = match process.period {
        Some(period) => process.last_release + period,
        None => process.last_release,
    };
    NextRelease {
        time,
        deadline: deadline_from(time, process.time_capacity),
    }
}

/// Whether the next release of a process is reached at this time, in ticks.
pub fn is_released(process: &Process, now: u64) -> bool
    ensures { result ≡ due_times.is_released now (Some process.now) }
{
    let since = process.last_release;
    match process.period {
        Some(period) => since <= now && period <= now - since,
        None => since <= now,
    }
}
