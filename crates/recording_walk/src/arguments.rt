// The arguments of a request, as a row of a recording gives them.

use apex_types::{
    ArgumentValues, BlackboardOperation, BufferOperation, CallerOperation, EventOperation,
    HealthOperation, Message, MutexOperation, Name, NewObject, ObjectOperation, ProcessOperation,
    QueuingOperation, Request, SamplingOperation, SemaphoreOperation, Service,
};
use std::alloc::{AllocError, Global};

/// The arguments of a request: its numbers, as many as its service takes, its name and its message.
#[derive(Clone, Copy, Debug)]
pub struct Arguments<'a> {
    pub numbers: [Option<i64>; 3],
    pub name: &'a [u8],
    pub message: &'a [u8],
}

impl<'a> Arguments<'a> {
    /// The arguments of a request.
    pub fn of(request: &'a Request) -> Arguments<'a> {
        match request {
            Request::CreateProcess {
                name,
                priority,
                period,
                time_capacity,
            } => Arguments::named(
                name,
                [Some(*priority), Some(*period), unless_none(*time_capacity)],
            ),
            Request::Process(process, operation) => of_process(*process, operation),
            Request::Caller(operation) => of_caller(operation),
            Request::SetPartitionMode(mode) => Arguments::numbers([Some(*mode), None, None]),
            Request::Create(name, object) => Arguments::named(name, numbers_of_new(object)),
            Request::Object(object, operation) => of_object(*object, operation),
            Request::SamplingPort(port, operation) => of_sampling(*port, operation),
            Request::QueuingPort(port, operation) => of_queuing(*port, operation),
            Request::GetId(_, name) => Arguments::named(name, [None, None, None]),
            Request::GetStatus(_, number) => Arguments::numbers([Some(*number), None, None]),
            Request::Health(operation) => of_health(operation),
            Request::Preemption(_) => Arguments::numbers([None; 3]),
        }
    }

    // These numbers alone.
    fn numbers(numbers: [Option<i64>; 3]) -> Arguments<'a> {
        Arguments {
            numbers,
            name: &[],
            message: &[],
        }
    }

    // A name and these numbers.
    fn named(name: &'a Name, numbers: [Option<i64>; 3]) -> Arguments<'a> {
        Arguments {
            numbers,
            name: name.as_bytes(),
            message: &[],
        }
    }

    // A message and these numbers.
    fn sending(message: &'a Message, numbers: [Option<i64>; 3]) -> Arguments<'a> {
        Arguments {
            numbers,
            name: &[],
            message: message.as_bytes(),
        }
    }
}

/// A request of this service that has the arguments of another one, as far as it takes them.
///
/// `AllocError` if memory is refused.
pub fn request_like(
    alloc: Global,
    service: Service,
    arguments: Arguments<'_>,
) -> Result<Request, AllocError> {
    let [n1, n2, n3] = arguments.numbers;
    let values = ArgumentValues {
        n1: n1.unwrap_or(0),
        n2: n2.unwrap_or(0),
        // A time capacity that is left out is -1.
        n3: n3.unwrap_or(-1),
        name: Name::new(Vec::from_slice(alloc, arguments.name)?),
        message: Message::new(Vec::from_slice(alloc, arguments.message)?),
    };
    Ok(Request::new(service, values))
}

// A time capacity, unless it is that of a process that has none: it is left out then, as rows before format 3 require.
fn unless_none(time_capacity: i64) -> Option<i64> {
    if time_capacity == -1 {
        None
    } else {
        Some(time_capacity)
    }
}

// The arguments of an operation on a process.
fn of_process<'a>(process: i64, operation: &ProcessOperation) -> Arguments<'a> {
    let more = match operation {
        ProcessOperation::InitializeCoreAffinity { core } => Some(*core),
        ProcessOperation::SetPriority { priority } => Some(*priority),
        ProcessOperation::DelayedStart { delay } => Some(*delay),
        ProcessOperation::Start
        | ProcessOperation::Stop
        | ProcessOperation::Suspend
        | ProcessOperation::Resume
        | ProcessOperation::GetStatus
        | ProcessOperation::GetMutexState => None,
    };
    Arguments::numbers([Some(process), more, None])
}

// The arguments of what a process requests for itself.
fn of_caller<'a>(operation: &CallerOperation) -> Arguments<'a> {
    let number = match operation {
        CallerOperation::SuspendSelf { time_out } => Some(*time_out),
        CallerOperation::TimedWait { delay } => Some(*delay),
        CallerOperation::Replenish { budget } => Some(*budget),
        CallerOperation::StopSelf
        | CallerOperation::GetMyId
        | CallerOperation::PeriodicWait
        | CallerOperation::GetTime
        | CallerOperation::GetPartitionStatus => None,
    };
    Arguments::numbers([number, None, None])
}

// The arguments of an operation of the health monitor or the error handler.
fn of_health<'a>(operation: &'a HealthOperation) -> Arguments<'a> {
    match operation {
        HealthOperation::ReportMessage { length, message } => {
            Arguments::sending(message, [None, Some(*length), None])
        }
        HealthOperation::RaiseError {
            error,
            length,
            message,
        } => Arguments::sending(message, [Some(*error), Some(*length), None]),
        HealthOperation::ConfigureHandler { concurrency, core } => {
            Arguments::numbers([Some(*concurrency), Some(*core), None])
        }
        HealthOperation::CreateHandler | HealthOperation::GetErrorStatus => {
            Arguments::numbers([None; 3])
        }
    }
}

// The numbers with which an object or a port is created.
fn numbers_of_new(object: &NewObject) -> [Option<i64>; 3] {
    match object {
        NewObject::Buffer {
            size,
            capacity,
            discipline,
        } => [Some(*size), Some(*capacity), Some(*discipline)],
        NewObject::Blackboard { size } => [Some(*size), None, None],
        NewObject::Semaphore {
            value,
            maximum,
            discipline,
        } => [Some(*value), Some(*maximum), Some(*discipline)],
        NewObject::Event => [None, None, None],
        NewObject::Mutex {
            priority,
            discipline,
        } => [Some(*priority), Some(*discipline), None],
        NewObject::SamplingPort {
            size,
            direction,
            refresh,
        } => [Some(*size), Some(*direction), Some(*refresh)],
        NewObject::QueuingPort {
            size,
            capacity,
            direction,
            discipline,
        } => {
            let both = discipline.saturating_mul(2).saturating_add(*direction);
            [Some(*size), Some(*capacity), Some(both)]
        }
    }
}

// The arguments of an operation on an object.
fn of_object<'a>(object: i64, operation: &'a ObjectOperation) -> Arguments<'a> {
    match operation {
        ObjectOperation::Buffer(operation) => of_buffer(object, operation),
        ObjectOperation::Blackboard(operation) => of_blackboard(object, operation),
        ObjectOperation::Semaphore(SemaphoreOperation::Wait { time_out })
        | ObjectOperation::Event(EventOperation::Wait { time_out })
        | ObjectOperation::Mutex(MutexOperation::Acquire { time_out }) => {
            Arguments::numbers([Some(object), Some(*time_out), None])
        }
        ObjectOperation::Mutex(MutexOperation::Reset { process }) => {
            Arguments::numbers([Some(object), Some(*process), None])
        }
        ObjectOperation::Semaphore(SemaphoreOperation::Signal)
        | ObjectOperation::Event(EventOperation::Set | EventOperation::Reset)
        | ObjectOperation::Mutex(MutexOperation::Release) => {
            Arguments::numbers([Some(object), None, None])
        }
    }
}

// The arguments of an operation on a buffer.
fn of_buffer<'a>(buffer: i64, operation: &'a BufferOperation) -> Arguments<'a> {
    match operation {
        BufferOperation::Send {
            length,
            time_out,
            message,
        } => Arguments::sending(message, [Some(buffer), Some(*length), Some(*time_out)]),
        BufferOperation::Receive { time_out } => {
            Arguments::numbers([Some(buffer), Some(*time_out), None])
        }
    }
}

// The arguments of an operation on a blackboard.
fn of_blackboard<'a>(board: i64, operation: &'a BlackboardOperation) -> Arguments<'a> {
    match operation {
        BlackboardOperation::Display { length, message } => {
            Arguments::sending(message, [Some(board), Some(*length), None])
        }
        BlackboardOperation::Read { time_out } => {
            Arguments::numbers([Some(board), Some(*time_out), None])
        }
        BlackboardOperation::Clear => Arguments::numbers([Some(board), None, None]),
    }
}

// The arguments of an operation through a sampling port.
fn of_sampling<'a>(port: i64, operation: &'a SamplingOperation) -> Arguments<'a> {
    match operation {
        SamplingOperation::Write { length, message } => {
            Arguments::sending(message, [Some(port), Some(*length), None])
        }
        SamplingOperation::Read => Arguments::numbers([Some(port), None, None]),
    }
}

// The arguments of an operation through a queuing port.
fn of_queuing<'a>(port: i64, operation: &'a QueuingOperation) -> Arguments<'a> {
    match operation {
        QueuingOperation::Send {
            length,
            time_out,
            message,
        } => Arguments::sending(message, [Some(port), Some(*length), Some(*time_out)]),
        QueuingOperation::Receive { time_out } => {
            Arguments::numbers([Some(port), Some(*time_out), None])
        }
        QueuingOperation::Clear => Arguments::numbers([Some(port), None, None]),
    }
}
