// The operations of the services, by what they apply to.

ghost use Rattle.std.specs.Prelude.{◌≡◌, []};
ghost use Rattle.std.specs.Option.{option_map_or};
ghost use Rattle.apex_types.specs.Requested as requested;
ghost use Rattle.apex_types.specs.Shapes as shapes;

use crate::object_kind::ObjectKind;
use crate::service::Service;
use crate::shape::{End, Shape};
use crate::text::Message;

/// What a caller requests of a process that it names by its number.
#[derive(Debug, Drop)]
pub enum ProcessOperation {
    /// INITIALIZE_PROCESS_CORE_AFFINITY
    InitializeCoreAffinity { core: i64 },
    Start,
    /// DELAYED_START, with the delay in ticks.
    DelayedStart { delay: i64 },
    Stop,
    Suspend,
    Resume,
    SetPriority { priority: i64 },
    /// GET_PROCESS_STATUS
    GetStatus,
    /// GET_PROCESS_MUTEX_STATE
    GetMutexState,
}

/// What a process requests for itself.
#[derive(Debug, Drop)]
pub enum CallerOperation {
    StopSelf,
    SuspendSelf { time_out: i64 },
    GetMyId,
    TimedWait { delay: i64 },
    PeriodicWait,
    GetTime,
    /// GET_PARTITION_STATUS
    GetPartitionStatus,
    /// REPLENISH, with the budget in ticks.
    Replenish { budget: i64 },
}

/// An object or port to be created, with the parameters that its caller gives. SOURCE is 0 and DESTINATION is 1; FIFO is 0 and PRIORITY is
/// 1.
#[derive(Debug, Drop)]
pub enum NewObject {
    Buffer {
        size: i64,
        capacity: i64,
        discipline: i64,
    },
    Blackboard {
        size: i64,
    },
    Semaphore {
        value: i64,
        maximum: i64,
        discipline: i64,
    },
    Event,
    Mutex {
        priority: i64,
        discipline: i64,
    },
    SamplingPort {
        size: i64,
        direction: i64,
        refresh: i64,
    },
    QueuingPort {
        size: i64,
        capacity: i64,
        direction: i64,
        discipline: i64,
    },
}

/// What a caller requests of a buffer.
#[derive(Debug, Drop)]
pub enum BufferOperation {
    Send {
        length: i64,
        time_out: i64,
        message: Message,
    },
    Receive {
        time_out: i64,
    },
}

/// What a caller requests of a blackboard.
#[derive(Debug, Drop)]
pub enum BlackboardOperation {
    Display { length: i64, message: Message },
    Read { time_out: i64 },
    Clear,
}

/// What a caller requests of a semaphore.
#[derive(Debug, Drop)]
pub enum SemaphoreOperation {
    Wait { time_out: i64 },
    Signal,
}

/// What a caller requests of an event.
#[derive(Debug, Drop)]
pub enum EventOperation {
    Set,
    Reset,
    Wait { time_out: i64 },
}

/// What a caller requests of a mutex.
#[derive(Debug, Drop)]
pub enum MutexOperation {
    Acquire { time_out: i64 },
    Release,
    /// RESET_MUTEX, with the number of the process whose ownership it ends.
    Reset { process: i64 },
}

/// What a caller requests of the lock of its partition.
#[derive(Debug, Drop)]
pub enum LockOperation {
    /// LOCK_PREEMPTION
    Lock,
    /// UNLOCK_PREEMPTION
    Unlock,
}

/// What a caller requests of the health monitor and the error handler of its partition.
#[derive(Debug, Drop)]
pub enum HealthOperation {
    /// REPORT_APPLICATION_MESSAGE
    ReportMessage {
        length: i64,
        message: Message,
    },
    /// CREATE_ERROR_HANDLER
    CreateHandler,
    /// CONFIGURE_ERROR_HANDLER, with what the other cores do while the handler runs, and its core.
    ConfigureHandler {
        concurrency: i64,
        core: i64,
    },
    /// RAISE_APPLICATION_ERROR, with the number of the error.
    RaiseError {
        error: i64,
        length: i64,
        message: Message,
    },
    /// GET_ERROR_STATUS
    GetErrorStatus,
}

/// What a caller requests of an object, by its kind.
#[derive(Debug, Drop)]
pub enum ObjectOperation {
    Buffer(BufferOperation),
    Blackboard(BlackboardOperation),
    Semaphore(SemaphoreOperation),
    Event(EventOperation),
    Mutex(MutexOperation),
}

/// What a caller requests of the channel of a sampling port.
#[derive(Debug, Drop)]
pub enum SamplingOperation {
    Write { length: i64, message: Message },
    Read,
}

/// What a caller requests of the channel of a queuing port.
#[derive(Debug, Drop)]
pub enum QueuingOperation {
    Send {
        length: i64,
        time_out: i64,
        message: Message,
    },
    Receive {
        time_out: i64,
    },
    /// CLEAR_QUEUING_PORT
    Clear,
}

impl ProcessOperation {
    /// The service that this is.
    pub fn service(&self) -> Service
        ensures { result ≡ requested.process_service self.now }
    {
        match self {
            ProcessOperation::InitializeCoreAffinity { .. } =>
                Service::InitializeProcessCoreAffinity,
            ProcessOperation::Start => Service::Start,
            ProcessOperation::DelayedStart { .. } => Service::DelayedStart,
            ProcessOperation::Stop => Service::Stop,
            ProcessOperation::Suspend => Service::Suspend,
            ProcessOperation::Resume => Service::Resume,
            ProcessOperation::SetPriority { .. } => Service::SetPriority,
            ProcessOperation::GetStatus => Service::GetProcessStatus,
            ProcessOperation::GetMutexState => Service::GetProcessMutexState,
        }
    }
}

impl CallerOperation {
    /// The service that this is.
    pub fn service(&self) -> Service
        ensures { result ≡ requested.caller_service self.now }
    {
        match self {
            CallerOperation::StopSelf => Service::StopSelf,
            CallerOperation::SuspendSelf { .. } => Service::SuspendSelf,
            CallerOperation::GetMyId => Service::GetMyId,
            CallerOperation::TimedWait { .. } => Service::TimedWait,
            CallerOperation::PeriodicWait => Service::PeriodicWait,
            CallerOperation::GetTime => Service::GetTime,
            CallerOperation::GetPartitionStatus => Service::GetPartitionStatus,
            CallerOperation::Replenish { .. } => Service::Replenish,
        }
    }
}

impl NewObject {
    /// Its kind.
    pub fn kind(&self) -> ObjectKind
        ensures { result ≡ requested.kind_of self.now }
    {
        match self {
            NewObject::Buffer { .. } => ObjectKind::Buffer,
            NewObject::Blackboard { .. } => ObjectKind::Blackboard,
            NewObject::Semaphore { .. } => ObjectKind::Semaphore,
            NewObject::Event => ObjectKind::Event,
            NewObject::Mutex { .. } => ObjectKind::Mutex,
            NewObject::SamplingPort { .. } => ObjectKind::SamplingPort,
            NewObject::QueuingPort { .. } => ObjectKind::QueuingPort,
        }
    }
}

impl ObjectOperation {
    /// The kind of the object.
    pub fn kind(&self) -> ObjectKind
        ensures { result ≡ shapes.kind_used self.now }
    {
        match self {
            ObjectOperation::Buffer(_) => ObjectKind::Buffer,
            ObjectOperation::Blackboard(_) => ObjectKind::Blackboard,
            ObjectOperation::Semaphore(_) => ObjectKind::Semaphore,
            ObjectOperation::Event(_) => ObjectKind::Event,
            ObjectOperation::Mutex(_) => ObjectKind::Mutex,
        }
    }

    /// Its service, and how its caller may wait.
    pub fn shape(&self) -> Shape
        ensures { result ≡ shapes.shape_on self.now }
    {
        match self {
            ObjectOperation::Buffer(operation) => operation.shape(),
            ObjectOperation::Blackboard(operation) => operation.shape(),
            ObjectOperation::Semaphore(operation) => operation.shape(),
            ObjectOperation::Event(operation) => operation.shape(),
            ObjectOperation::Mutex(operation) => operation.shape(),
        }
    }

    /// The message that its caller gives, if it gives one.
    pub fn message(&self) -> Option<&Message>
        ensures { option_map_or (λ message. message.now) result [] ≡ shapes.message_on self.now }
    {
        match self {
            ObjectOperation::Buffer(BufferOperation::Send { message, .. })
            | ObjectOperation::Blackboard(BlackboardOperation::Display { message, .. }) => {
                Some(message)
            }
            _ => None,
        }
    }
}

impl BufferOperation {
    fn shape(&self) -> Shape
        ensures { result ≡ shapes.shape_of_buffer self.now }
    {
        match self {
            BufferOperation::Send { time_out, .. } => {
                Shape::waiting(Service::SendBuffer, End::Senders, *time_out)
            }
            BufferOperation::Receive { time_out } => {
                Shape::waiting(Service::ReceiveBuffer, End::Receivers, *time_out)
            }
        }
    }
}

impl BlackboardOperation {
    fn shape(&self) -> Shape
        ensures { result ≡ shapes.shape_of_blackboard self.now }
    {
        match self {
            BlackboardOperation::Display { .. } => Shape::at_once(Service::DisplayBlackboard),
            BlackboardOperation::Read { time_out } => {
                Shape::waiting(Service::ReadBlackboard, End::Receivers, *time_out)
            }
            BlackboardOperation::Clear => Shape::at_once(Service::ClearBlackboard),
        }
    }
}

impl SemaphoreOperation {
    fn shape(&self) -> Shape
        ensures { result ≡ shapes.shape_of_semaphore self.now }
    {
        match self {
            SemaphoreOperation::Wait { time_out } => {
                Shape::waiting(Service::WaitSemaphore, End::Receivers, *time_out)
            }
            SemaphoreOperation::Signal => Shape::at_once(Service::SignalSemaphore),
        }
    }
}

impl EventOperation {
    fn shape(&self) -> Shape
        ensures { result ≡ shapes.shape_of_event self.now }
    {
        match self {
            EventOperation::Set => Shape::at_once(Service::SetEvent),
            EventOperation::Reset => Shape::at_once(Service::ResetEvent),
            EventOperation::Wait { time_out } => {
                Shape::waiting(Service::WaitEvent, End::Receivers, *time_out)
            }
        }
    }
}

impl MutexOperation {
    fn shape(&self) -> Shape
        ensures { result ≡ shapes.shape_of_mutex self.now }
    {
        match self {
            MutexOperation::Acquire { time_out } => {
                Shape::waiting(Service::AcquireMutex, End::Receivers, *time_out)
            }
            MutexOperation::Release => Shape::at_once(Service::ReleaseMutex),
            MutexOperation::Reset { .. } => Shape::at_once(Service::ResetMutex),
        }
    }
}

impl LockOperation {
    /// The service that this is.
    pub fn service(&self) -> Service
        ensures { result ≡ requested.lock_service self.now }
    {
        match self {
            LockOperation::Lock => Service::LockPreemption,
            LockOperation::Unlock => Service::UnlockPreemption,
        }
    }
}

impl HealthOperation {
    /// The service that this is.
    pub fn service(&self) -> Service
        ensures { result ≡ requested.health_service self.now }
    {
        match self {
            HealthOperation::ReportMessage { .. } => Service::ReportApplicationMessage,
            HealthOperation::CreateHandler => Service::CreateErrorHandler,
            HealthOperation::ConfigureHandler { .. } => Service::ConfigureErrorHandler,
            HealthOperation::RaiseError { .. } => Service::RaiseApplicationError,
            HealthOperation::GetErrorStatus => Service::GetErrorStatus,
        }
    }
}

impl SamplingOperation {
    /// The service that this is.
    pub fn service(&self) -> Service
        ensures { result ≡ requested.sampling_service self.now }
    {
        match self {
            SamplingOperation::Write { .. } => Service::WriteSamplingMessage,
            SamplingOperation::Read => Service::ReadSamplingMessage,
        }
    }
}

impl QueuingOperation {
    /// Its service, and how its caller may wait at its end of the channel.
    pub fn shape(&self) -> Shape
        ensures { result ≡ shapes.shape_of_queuing self.now }
    {
        match self {
            QueuingOperation::Send { time_out, .. } => {
                Shape::waiting(Service::SendQueuingMessage, End::Senders, *time_out)
            }
            QueuingOperation::Receive { time_out } => {
                Shape::waiting(Service::ReceiveQueuingMessage, End::Receivers, *time_out)
            }
            QueuingOperation::Clear => Shape::at_once(Service::ClearQueuingPort),
        }
    }
}
