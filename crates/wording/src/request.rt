// A request in words: the service with its arguments.

use crate::naming::{Ascii, Bytes, kind_name};
use crate::words::Words;
use apex_types::{
    BlackboardOperation, BufferOperation, CallerOperation, EventOperation, HealthOperation,
    MutexOperation, NewObject, ObjectOperation, ProcessOperation, QueuingOperation, Request,
    SamplingOperation, SemaphoreOperation,
};

/// Reports a service and the arguments that its caller gave.
pub fn tell_request(words: &mut Words, request: &Request) {
    words.say(Ascii(request.service().name()));
    match request {
        Request::CreateProcess {
            name,
            priority,
            period,
            time_capacity,
        } => {
            words.say(format_args!(" for \"{}\"", Ascii(name.as_bytes())));
            tell_scheduling(words, *priority, *period, *time_capacity);
        }
        Request::Process(process, operation) => {
            words.say(format_args!(" for process {process}"));
            tell_process(words, operation);
        }
        Request::Caller(operation) => tell_caller(words, operation),
        Request::SetPartitionMode(mode) => words.say(format_args!(" with mode {mode}")),
        Request::Create(name, object) => {
            words.say(format_args!(" for \"{}\"", Ascii(name.as_bytes())));
            tell_creation(words, object);
        }
        Request::Object(number, operation) => tell_object(words, *number, operation),
        Request::SamplingPort(port, operation) => tell_sampling(words, *port, operation),
        Request::QueuingPort(port, operation) => tell_queuing(words, *port, operation),
        Request::GetId(_, name) => {
            words.say(format_args!(" for \"{}\"", Ascii(name.as_bytes())));
        }
        Request::GetStatus(kind, object) => {
            words.say(format_args!(" for {} {object}", kind_name(*kind)));
        }
        Request::Health(operation) => tell_health(words, operation),
        Request::Preemption(_) => {}
    }
}

// Reports what a service of health monitoring is given.
fn tell_health(words: &mut Words, operation: &HealthOperation) {
    match operation {
        HealthOperation::ReportMessage { length, message } => words.say(format_args!(
            " with {} and length {length}",
            Bytes(message.as_bytes())
        )),
        HealthOperation::RaiseError {
            error,
            length,
            message,
        } => words.say(format_args!(
            " for error {error} with {} and length {length}",
            Bytes(message.as_bytes())
        )),
        HealthOperation::ConfigureHandler { concurrency, core } => words.say(format_args!(
            " with concurrency {concurrency} and core {core}"
        )),
        HealthOperation::CreateHandler | HealthOperation::GetErrorStatus => {}
    }
}

// Reports how a new process is to be scheduled. A time capacity of -1 means that it has no deadlines.
fn tell_scheduling(words: &mut Words, priority: i64, period: i64, time_capacity: i64) {
    if time_capacity == -1 {
        words.say(format_args!(" with priority {priority} and period {period}"));
    } else {
        words.say(format_args!(
            " with priority {priority}, period {period} and time capacity {time_capacity}"
        ));
    }
}

// Reports which object an operation uses, and what it gives.
fn tell_object(words: &mut Words, number: i64, operation: &ObjectOperation) {
    match operation {
        ObjectOperation::Buffer(operation) => tell_buffer(words, number, operation),
        ObjectOperation::Blackboard(operation) => tell_blackboard(words, number, operation),
        ObjectOperation::Semaphore(operation) => tell_semaphore(words, number, operation),
        ObjectOperation::Event(operation) => tell_event(words, number, operation),
        ObjectOperation::Mutex(operation) => tell_mutex(words, number, operation),
    }
}

// Reports what a process is to get.
fn tell_process(words: &mut Words, operation: &ProcessOperation) {
    match operation {
        ProcessOperation::InitializeCoreAffinity { core } => {
            words.say(format_args!(" with core {core}"));
        }
        ProcessOperation::SetPriority { priority } => words.say(format_args!(
            " with priority {priority}"
        )),
        ProcessOperation::DelayedStart { delay } => words.say(format_args!(" with delay {delay}")),
        ProcessOperation::Start
        | ProcessOperation::Stop
        | ProcessOperation::Suspend
        | ProcessOperation::Resume
        | ProcessOperation::GetStatus
        | ProcessOperation::GetMutexState => {}
    }
}

// Reports the time that the caller gives: how long it is to wait, or its new budget.
fn tell_caller(words: &mut Words, operation: &CallerOperation) {
    match operation {
        CallerOperation::SuspendSelf { time_out } => {
            words.say(format_args!(" with time-out {time_out}"));
        }
        CallerOperation::TimedWait { delay } => words.say(format_args!(" with delay {delay}")),
        CallerOperation::Replenish { budget } => words.say(format_args!(" with budget {budget}")),
        CallerOperation::StopSelf
        | CallerOperation::GetMyId
        | CallerOperation::PeriodicWait
        | CallerOperation::GetTime
        | CallerOperation::GetPartitionStatus => {}
    }
}

// Reports what an object or a port is to be like.
fn tell_creation(words: &mut Words, object: &NewObject) {
    match object {
        NewObject::Buffer {
            size,
            capacity,
            discipline,
        } => words.say(format_args!(
            " with size {size}, capacity {capacity} and discipline {discipline}"
        )),
        NewObject::Blackboard { size } => words.say(format_args!(" with size {size}")),
        NewObject::Semaphore {
            value,
            maximum,
            discipline,
        } => words.say(format_args!(
            " with value {value}, maximum {maximum} and discipline {discipline}"
        )),
        NewObject::Event => {}
        NewObject::Mutex {
            priority,
            discipline,
        } => {
            words.say(format_args!(" with priority {priority} and discipline {discipline}"));
        }
        NewObject::SamplingPort {
            size,
            direction,
            refresh,
        } => words.say(format_args!(
            " with size {size}, direction {direction} and refresh period {refresh}"
        )),
        NewObject::QueuingPort {
            size,
            capacity,
            direction,
            discipline,
        } => words.say(format_args!(
            " with size {size}, capacity {capacity}, direction {direction} and discipline {discipline}"
        )),
    }
}

fn tell_buffer(words: &mut Words, buffer: i64, operation: &BufferOperation) {
    match operation {
        BufferOperation::Send {
            length,
            time_out,
            message,
        } => words.say(format_args!(
            " to buffer {buffer} with {}, length {length} and time-out {time_out}",
            Bytes(message.as_bytes())
        )),
        BufferOperation::Receive { time_out } => {
            words.say(format_args!(" from buffer {buffer} with time-out {time_out}"));
        }
    }
}

fn tell_blackboard(words: &mut Words, blackboard: i64, operation: &BlackboardOperation) {
    match operation {
        BlackboardOperation::Display { length, message } => words.say(format_args!(
            " on blackboard {blackboard} with {} and length {length}",
            Bytes(message.as_bytes())
        )),
        BlackboardOperation::Read { time_out } => {
            words.say(format_args!(" for blackboard {blackboard} with time-out {time_out}"));
        }
        BlackboardOperation::Clear => words.say(format_args!(" for blackboard {blackboard}")),
    }
}

fn tell_semaphore(words: &mut Words, semaphore: i64, operation: &SemaphoreOperation) {
    match operation {
        SemaphoreOperation::Wait { time_out } => {
            words.say(format_args!(" for semaphore {semaphore} with time-out {time_out}"));
        }
        SemaphoreOperation::Signal => words.say(format_args!(" for semaphore {semaphore}")),
    }
}

fn tell_event(words: &mut Words, event: i64, operation: &EventOperation) {
    match operation {
        EventOperation::Set | EventOperation::Reset => words.say(format_args!(
            " for event {event}"
        )),
        EventOperation::Wait { time_out } => {
            words.say(format_args!(" for event {event} with time-out {time_out}"));
        }
    }
}

fn tell_mutex(words: &mut Words, mutex: i64, operation: &MutexOperation) {
    match operation {
        MutexOperation::Acquire { time_out } => {
            words.say(format_args!(" for mutex {mutex} with time-out {time_out}"));
        }
        MutexOperation::Release => words.say(format_args!(" for mutex {mutex}")),
        MutexOperation::Reset { process } => {
            words.say(format_args!(" for mutex {mutex} and process {process}"));
        }
    }
}

fn tell_sampling(words: &mut Words, port: i64, operation: &SamplingOperation) {
    match operation {
        SamplingOperation::Write { length, message } => words.say(format_args!(
            " at sampling port {port} with {} and length {length}",
            Bytes(message.as_bytes())
        )),
        SamplingOperation::Read => words.say(format_args!(" at sampling port {port}")),
    }
}

fn tell_queuing(words: &mut Words, port: i64, operation: &QueuingOperation) {
    match operation {
        QueuingOperation::Send {
            length,
            time_out,
            message,
        } => words.say(format_args!(
            " at queuing port {port} with {}, length {length} and time-out {time_out}",
            Bytes(message.as_bytes())
        )),
        QueuingOperation::Receive { time_out } => {
            words.say(format_args!(" at queuing port {port} with time-out {time_out}"));
        }
        QueuingOperation::Clear => words.say(format_args!(" at queuing port {port}")),
    }
}
