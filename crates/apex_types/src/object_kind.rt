// The kinds of objects and ports.

ghost use Rattle.std.specs.Prelude.{◌≡◌};
ghost use Rattle.apex_types.specs.Requested.{id_service, services_of};

use crate::service::Service;

/// The services that every kind has.
#[derive(Clone, Copy, Debug, PartialEq, Eq)]
pub struct KindServices {
    /// Creates one of the kind.
    pub creation: Service,
    /// Reports the number of what has a name.
    pub id: Service,
    /// Reports the status of one of the kind.
    pub status: Service,
    /// Callers of this service wait to send, if callers can.
    pub sending: Option<Service>,
    /// Callers of this service wait to receive, to read or for the object, if callers can.
    pub receiving: Option<Service>,
}

/// A kind of objects or ports of a partition. Each has its own numbers and names.
#[derive(Clone, Copy, Debug, PartialEq, Eq)]
pub enum ObjectKind {
    Buffer,
    Blackboard,
    Semaphore,
    Event,
    Mutex,
    SamplingPort,
    QueuingPort,
}

/// A kind of what has names in a partition: processes, or objects or ports of a kind. Each has its own numbers and names.
#[derive(Clone, Copy, Debug, PartialEq, Eq)]
pub enum NamedKind {
    Process,
    Object(ObjectKind),
}

impl NamedKind {
    /// The service that reports the number of what has a name.
    pub fn id_service(self) -> Service
        ensures { result ≡ id_service self }
    {
        match self {
            NamedKind::Process => Service::GetProcessId,
            NamedKind::Object(kind) => kind.services().id,
        }
    }
}

impl ObjectKind {
    /// The services that create one of this kind, report its number and report its status.
    pub fn services(self) -> KindServices
        ensures { result ≡ services_of self }
    {
        match self {
            ObjectKind::Buffer => KindServices {
                creation: Service::CreateBuffer,
                id: Service::GetBufferId,
                status: Service::GetBufferStatus,
                sending: Some(Service::SendBuffer),
                receiving: Some(Service::ReceiveBuffer),
            },
            ObjectKind::Blackboard => KindServices {
                creation: Service::CreateBlackboard,
                id: Service::GetBlackboardId,
                status: Service::GetBlackboardStatus,
                sending: None,
                receiving: Some(Service::ReadBlackboard),
            },
            ObjectKind::Semaphore => KindServices {
                creation: Service::CreateSemaphore,
                id: Service::GetSemaphoreId,
                status: Service::GetSemaphoreStatus,
                sending: None,
                receiving: Some(Service::WaitSemaphore),
            },
            ObjectKind::Event => KindServices {
                creation: Service::CreateEvent,
                id: Service::GetEventId,
                status: Service::GetEventStatus,
                sending: None,
                receiving: Some(Service::WaitEvent),
            },
            ObjectKind::Mutex => KindServices {
                creation: Service::CreateMutex,
                id: Service::GetMutexId,
                status: Service::GetMutexStatus,
                sending: None,
                receiving: Some(Service::AcquireMutex),
            },
            ObjectKind::SamplingPort => KindServices {
                creation: Service::CreateSamplingPort,
                id: Service::GetSamplingPortId,
                status: Service::GetSamplingPortStatus,
                sending: None,
                receiving: None,
            },
            ObjectKind::QueuingPort => KindServices {
                creation: Service::CreateQueuingPort,
                id: Service::GetQueuingPortId,
                status: Service::GetQueuingPortStatus,
                sending: Some(Service::SendQueuingMessage),
                receiving: Some(Service::ReceiveQueuingMessage),
            },
        }
    }
}
