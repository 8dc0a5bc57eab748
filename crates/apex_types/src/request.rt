// A request: a service with the arguments that its caller gave.

ghost use Rattle.std.specs.Prelude.{◌≡◌, []};
ghost use Rattle.apex_types.specs.Arguments.{request_of};
ghost use Rattle.apex_types.specs.Requested as requested;
ghost use Rattle.apex_types.specs.Requested.{services_of};
ghost use Rattle.apex_types.specs.declared.object_kind.NamedKind.TheVariants as named;
ghost use Rattle.apex_types.specs.declared.request.Request.TheVariants as request;

use crate::object_kind::{NamedKind, ObjectKind};
use crate::operation::{
    BlackboardOperation, BufferOperation, CallerOperation, EventOperation, HealthOperation,
    LockOperation, MutexOperation, NewObject, ObjectOperation, ProcessOperation, QueuingOperation,
    SamplingOperation, SemaphoreOperation,
};
use crate::service::Service;
use crate::text::{Message, Name};

/// A service with its arguments, grouped by what it applies to. If it applies to a process, an object or a port, the first argument is that
/// one's number. Numbers are as the caller gave them, in range or not. Times are in ticks, sizes and lengths in bytes.
#[derive(Debug, Drop)]
pub enum Request {
    CreateProcess {
        name: Name,
        priority: i64,
        period: i64,
        time_capacity: i64,
    },
    /// START and all other services that name a process.
    Process(i64, ProcessOperation),
    /// STOP_SELF and all other services that a process requests for itself.
    Caller(CallerOperation),
    /// SET_PARTITION_MODE, with the mode.
    SetPartitionMode(i64),
    /// CREATE_BUFFER and its counterparts.
    Create(Name, NewObject),
    /// SEND_BUFFER and all other services that use an object.
    Object(i64, ObjectOperation),
    SamplingPort(i64, SamplingOperation),
    QueuingPort(i64, QueuingOperation),
    /// GET_PROCESS_ID, GET_BUFFER_ID and its counterparts, by kind.
    GetId(NamedKind, Name),
    /// GET_BUFFER_STATUS and its counterparts, by kind.
    GetStatus(ObjectKind, i64),
    /// REPORT_APPLICATION_MESSAGE, RAISE_APPLICATION_ERROR and the services of the error handler.
    Health(HealthOperation),
    /// LOCK_PREEMPTION and UNLOCK_PREEMPTION.
    Preemption(LockOperation),
}

/// The values of a service's arguments, as a record gives them.
#[derive(Debug, Drop)]
pub struct ArgumentValues {
    pub n1: i64,
    pub n2: i64,
    pub n3: i64,
    pub name: Name,
    pub message: Message,
}

impl Request {
    /// The request of a service from the values of its arguments. Arguments that the service does not take are not used.
    #[tactic(auto, unfolding(crate::specs::Arguments::request_of))]
    pub fn new(service: Service, values: ArgumentValues) -> Request
        ensures { result ≡ request_of service values.n1 values.n2 values.n3 values.name values.message }
    {
        let ArgumentValues {
            n1,
            n2,
            n3,
            name,
            message,
        } = values;
        match service {
            Service::CreateProcess => Request::CreateProcess {
                name,
                priority: n1,
                period: n2,
                time_capacity: n3,
            },
            Service::InitializeProcessCoreAffinity => Request::Process(
                n1,
                ProcessOperation::InitializeCoreAffinity { core: n2 },
            ),
            Service::Start => Request::Process(n1, ProcessOperation::Start),
            Service::Stop => Request::Process(n1, ProcessOperation::Stop),
            Service::StopSelf => Request::Caller(CallerOperation::StopSelf),
            Service::Suspend => Request::Process(n1, ProcessOperation::Suspend),
            Service::SuspendSelf => Request::Caller(CallerOperation::SuspendSelf { time_out: n1 }),
            Service::Resume => Request::Process(n1, ProcessOperation::Resume),
            Service::SetPriority => Request::Process(
                n1,
                ProcessOperation::SetPriority { priority: n2 },
            ),
            Service::GetMyId => Request::Caller(CallerOperation::GetMyId),
            Service::TimedWait => Request::Caller(CallerOperation::TimedWait { delay: n1 }),
            Service::PeriodicWait => Request::Caller(CallerOperation::PeriodicWait),
            Service::GetTime => Request::Caller(CallerOperation::GetTime),
            Service::SetPartitionMode => Request::SetPartitionMode(n1),
            Service::CreateBuffer => create(ObjectKind::Buffer, name, n1, n2, n3),
            Service::SendBuffer => Request::Object(
                n1,
                ObjectOperation::Buffer(BufferOperation::Send {
                    length: n2,
                    time_out: n3,
                    message,
                }),
            ),
            Service::ReceiveBuffer => Request::Object(
                n1,
                ObjectOperation::Buffer(BufferOperation::Receive { time_out: n2 }),
            ),
            Service::CreateBlackboard => create(ObjectKind::Blackboard, name, n1, n2, n3),
            Service::DisplayBlackboard => Request::Object(
                n1,
                ObjectOperation::Blackboard(BlackboardOperation::Display {
                    length: n2,
                    message,
                }),
            ),
            Service::ReadBlackboard => Request::Object(
                n1,
                ObjectOperation::Blackboard(BlackboardOperation::Read { time_out: n2 }),
            ),
            Service::ClearBlackboard => Request::Object(
                n1,
                ObjectOperation::Blackboard(BlackboardOperation::Clear),
            ),
            Service::CreateSemaphore => create(ObjectKind::Semaphore, name, n1, n2, n3),
            Service::WaitSemaphore => Request::Object(
                n1,
                ObjectOperation::Semaphore(SemaphoreOperation::Wait { time_out: n2 }),
            ),
            Service::SignalSemaphore => Request::Object(
                n1,
                ObjectOperation::Semaphore(SemaphoreOperation::Signal),
            ),
            Service::CreateEvent => create(ObjectKind::Event, name, n1, n2, n3),
            Service::SetEvent => Request::Object(n1, ObjectOperation::Event(EventOperation::Set)),
            Service::ResetEvent => Request::Object(
                n1,
                ObjectOperation::Event(EventOperation::Reset),
            ),
            Service::WaitEvent => Request::Object(
                n1,
                ObjectOperation::Event(EventOperation::Wait { time_out: n2 }),
            ),
            Service::CreateMutex => create(ObjectKind::Mutex, name, n1, n2, n3),
            Service::AcquireMutex => Request::Object(
                n1,
                ObjectOperation::Mutex(MutexOperation::Acquire { time_out: n2 }),
            ),
            Service::ReleaseMutex => Request::Object(
                n1,
                ObjectOperation::Mutex(MutexOperation::Release),
            ),
            Service::CreateSamplingPort => create(ObjectKind::SamplingPort, name, n1, n2, n3),
            Service::WriteSamplingMessage => Request::SamplingPort(
                n1,
                SamplingOperation::Write {
                    length: n2,
                    message,
                },
            ),
            Service::ReadSamplingMessage => Request::SamplingPort(n1, SamplingOperation::Read),
            Service::CreateQueuingPort => create(ObjectKind::QueuingPort, name, n1, n2, n3),
            Service::SendQueuingMessage => Request::QueuingPort(
                n1,
                QueuingOperation::Send {
                    length: n2,
                    time_out: n3,
                    message,
                },
            ),
            Service::ReceiveQueuingMessage => Request::QueuingPort(
                n1,
                QueuingOperation::Receive { time_out: n2 },
            ),
            Service::GetBufferId => id_of(ObjectKind::Buffer, name),
            Service::GetBufferStatus => Request::GetStatus(ObjectKind::Buffer, n1),
            Service::GetBlackboardId => id_of(ObjectKind::Blackboard, name),
            Service::GetBlackboardStatus => Request::GetStatus(ObjectKind::Blackboard, n1),
            Service::GetSemaphoreId => id_of(ObjectKind::Semaphore, name),
            Service::GetSemaphoreStatus => Request::GetStatus(ObjectKind::Semaphore, n1),
            Service::GetEventId => id_of(ObjectKind::Event, name),
            Service::GetEventStatus => Request::GetStatus(ObjectKind::Event, n1),
            Service::GetMutexId => id_of(ObjectKind::Mutex, name),
            Service::GetMutexStatus => Request::GetStatus(ObjectKind::Mutex, n1),
            Service::GetSamplingPortId => id_of(ObjectKind::SamplingPort, name),
            Service::GetSamplingPortStatus => Request::GetStatus(ObjectKind::SamplingPort, n1),
            Service::GetQueuingPortId => id_of(ObjectKind::QueuingPort, name),
            Service::GetQueuingPortStatus => Request::GetStatus(ObjectKind::QueuingPort, n1),
            Service::GetPartitionStatus => Request::Caller(CallerOperation::GetPartitionStatus),
            Service::GetProcessId => Request::GetId(NamedKind::Process, name),
            Service::GetProcessStatus => Request::Process(n1, ProcessOperation::GetStatus),
            Service::DelayedStart => Request::Process(
                n1,
                ProcessOperation::DelayedStart { delay: n2 },
            ),
            Service::ClearQueuingPort => Request::QueuingPort(n1, QueuingOperation::Clear),
            Service::ResetMutex => Request::Object(
                n1,
                ObjectOperation::Mutex(MutexOperation::Reset { process: n2 }),
            ),
            Service::GetProcessMutexState => Request::Process(n1, ProcessOperation::GetMutexState),
            Service::ReportApplicationMessage => Request::Health(HealthOperation::ReportMessage {
                length: n2,
                message,
            }),
            Service::CreateErrorHandler => Request::Health(HealthOperation::CreateHandler),
            Service::LockPreemption => Request::Preemption(LockOperation::Lock),
            Service::UnlockPreemption => Request::Preemption(LockOperation::Unlock),
            Service::Replenish => Request::Caller(CallerOperation::Replenish { budget: n1 }),
            Service::RaiseApplicationError => Request::Health(HealthOperation::RaiseError {
                error: n1,
                length: n2,
                message,
            }),
            Service::GetErrorStatus => Request::Health(HealthOperation::GetErrorStatus),
            Service::ConfigureErrorHandler => Request::Health(HealthOperation::ConfigureHandler {
                concurrency: n1,
                core: n2,
            }),
        }
    }

    /// The service that is requested.
    pub fn service(&self) -> Service
        ensures { result ≡ requested.service_of self.now }
    {
        match self {
            Request::CreateProcess { .. } => Service::CreateProcess,
            Request::Process(_, operation) => operation.service(),
            Request::Caller(operation) => operation.service(),
            Request::SetPartitionMode(..) => Service::SetPartitionMode,
            Request::Create(_, object) => object.kind().services().creation,
            Request::Object(_, operation) => operation.shape().service,
            Request::SamplingPort(_, operation) => operation.service(),
            Request::QueuingPort(_, operation) => operation.shape().service,
            Request::GetId(kind, _) => kind.id_service(),
            Request::GetStatus(kind, _) => kind.services().status,
            Request::Health(operation) => operation.service(),
            Request::Preemption(operation) => operation.service(),
        }
    }
}

// The request for the number of the object or port that has a name.
fn id_of(kind: ObjectKind, name: Name) -> Request
    ensures { result ≡ request.GetId (named.Object kind) name }
{
    Request::GetId(NamedKind::Object(kind), name)
}

// The request that creates one of a kind, from its name and its numbers.
#[tactic(auto, unfolding(crate::specs::Arguments::request_of))]
fn create(kind: ObjectKind, name: Name, n1: i64, n2: i64, n3: i64) -> Request
    ensures { result ≡ request_of (services_of kind).creation n1 n2 n3 name [] }
{
    let object = match kind {
        ObjectKind::Buffer => NewObject::Buffer {
            size: n1,
            capacity: n2,
            discipline: n3,
        },
        ObjectKind::Blackboard => NewObject::Blackboard { size: n1 },
        ObjectKind::Semaphore => NewObject::Semaphore {
            value: n1,
            maximum: n2,
            discipline: n3,
        },
        ObjectKind::Event => NewObject::Event,
        ObjectKind::Mutex => NewObject::Mutex {
            priority: n1,
            discipline: n2,
        },
        ObjectKind::SamplingPort => NewObject::SamplingPort {
            size: n1,
            direction: n2,
            refresh: n3,
        },
        ObjectKind::QueuingPort => NewObject::QueuingPort {
            size: n1,
            capacity: n2,
            direction: n3.rem_euclid(2),
            discipline: n3.div_euclid(2),
        },
    };
    Request::Create(name, object)
}
