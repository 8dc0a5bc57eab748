// The services of the APEX interface: one row for each.

ghost use Rattle.std.specs.Prelude.{◌≡◌};
ghost use Rattle.apex_types.specs.Services.{arguments_of, name_of, row_of, service_number};

use crate::format::Format;

/// A service of ARINC 653 Part 1, known by its name.
#[derive(Clone, Copy, Debug, PartialEq, Eq)]
pub enum Service {
    CreateProcess,
    InitializeProcessCoreAffinity,
    Start,
    Stop,
    StopSelf,
    Suspend,
    SuspendSelf,
    Resume,
    SetPriority,
    GetMyId,
    TimedWait,
    PeriodicWait,
    GetTime,
    SetPartitionMode,
    CreateBuffer,
    SendBuffer,
    ReceiveBuffer,
    CreateBlackboard,
    DisplayBlackboard,
    ReadBlackboard,
    ClearBlackboard,
    CreateSemaphore,
    WaitSemaphore,
    SignalSemaphore,
    CreateEvent,
    SetEvent,
    ResetEvent,
    WaitEvent,
    CreateMutex,
    AcquireMutex,
    ReleaseMutex,
    CreateSamplingPort,
    WriteSamplingMessage,
    ReadSamplingMessage,
    CreateQueuingPort,
    SendQueuingMessage,
    ReceiveQueuingMessage,
    GetBufferId,
    GetBufferStatus,
    GetBlackboardId,
    GetBlackboardStatus,
    GetSemaphoreId,
    GetSemaphoreStatus,
    GetEventId,
    GetEventStatus,
    GetMutexId,
    GetMutexStatus,
    GetSamplingPortId,
    GetSamplingPortStatus,
    GetQueuingPortId,
    GetQueuingPortStatus,
    GetPartitionStatus,
    GetProcessId,
    GetProcessStatus,
    DelayedStart,
    ClearQueuingPort,
    ResetMutex,
    GetProcessMutexState,
    ReportApplicationMessage,
    CreateErrorHandler,
    LockPreemption,
    UnlockPreemption,
    Replenish,
    RaiseApplicationError,
    GetErrorStatus,
    ConfigureErrorHandler,
}

/// Whether a call of a service fills a field.
#[derive(Clone, Copy, Debug, PartialEq, Eq)]
pub enum Presence {
    /// The field is empty.
    Absent,
    /// The field is filled.
    Required,
    /// The field may be filled in format 3, and is empty before it. Empty, it means -1.
    Optional,
}

/// Which numbers a call of a service fills.
#[derive(Clone, Copy, Debug)]
pub struct Numbers {
    pub first: Presence,
    pub second: Presence,
    pub third: Presence,
}

/// The arguments of a service: the fields that a call of it fills.
#[derive(Clone, Copy, Debug)]
pub struct Arguments {
    pub numbers: Numbers,
    /// Whether it takes a name.
    pub name: bool,
    /// Whether it takes a message, whose length is n2.
    pub message: bool,
}

/// What is known about a service. The type of its name is a parameter: a definition can cite a constant only if none of the constant's
/// structs declares a reference.
#[derive(Clone, Copy)]
pub struct ServiceRow<Name> {
    pub service: Service,
    /// The name that records give the service, in ASCII.
    pub name: Name,
    pub arguments: Arguments,
    /// The first format of recordings that has the service.
    pub since: Format,
}

const ZERO: Numbers = Numbers {
    first: Presence::Absent,
    second: Presence::Absent,
    third: Presence::Absent,
};

const ONE: Numbers = Numbers {
    first: Presence::Required,
    ..ZERO
};

const TWO: Numbers = Numbers {
    second: Presence::Required,
    ..ONE
};

const THREE: Numbers = Numbers {
    third: Presence::Required,
    ..TWO
};

const TWO_OR_THREE: Numbers = Numbers {
    third: Presence::Optional,
    ..TWO
};

const SECOND: Numbers = Numbers {
    second: Presence::Required,
    ..ZERO
};

const NOTHING: Arguments = Arguments {
    numbers: ZERO,
    name: false,
    message: false,
};

const NAME: Arguments = Arguments {
    name: true,
    ..NOTHING
};

const MESSAGE: Arguments = Arguments {
    message: true,
    ..NOTHING
};

// A row: the service, its name, which numbers a call fills, what else it fills, and the first format.
macro_rules! row {
    ($service:ident => $name:literal, $numbers:ident, $more:ident, $since:ident) => {
        ServiceRow {
            service: Service::$service,
            name: $name,
            arguments: Arguments {
                numbers: $numbers,
                ..$more
            },
            since: Format::$since,
        }
    };
}

/// The services, in the order of the enum. Views and rules identify a service by its place here, counted from 1.
pub const SERVICES: [ServiceRow<&'static [u8]>; 66] = [
    row!(CreateProcess => b"CREATE_PROCESS", TWO_OR_THREE, NAME, One),
    row!(InitializeProcessCoreAffinity => b"INITIALIZE_PROCESS_CORE_AFFINITY", TWO, NOTHING, One),
    row!(Start => b"START", ONE, NOTHING, One),
    row!(Stop => b"STOP", ONE, NOTHING, One),
    row!(StopSelf => b"STOP_SELF", ZERO, NOTHING, One),
    row!(Suspend => b"SUSPEND", ONE, NOTHING, One),
    row!(SuspendSelf => b"SUSPEND_SELF", ONE, NOTHING, One),
    row!(Resume => b"RESUME", ONE, NOTHING, One),
    row!(SetPriority => b"SET_PRIORITY", TWO, NOTHING, One),
    row!(GetMyId => b"GET_MY_ID", ZERO, NOTHING, One),
    row!(TimedWait => b"TIMED_WAIT", ONE, NOTHING, One),
    row!(PeriodicWait => b"PERIODIC_WAIT", ZERO, NOTHING, One),
    row!(GetTime => b"GET_TIME", ZERO, NOTHING, One),
    row!(SetPartitionMode => b"SET_PARTITION_MODE", ONE, NOTHING, One),
    row!(CreateBuffer => b"CREATE_BUFFER", THREE, NAME, One),
    row!(SendBuffer => b"SEND_BUFFER", THREE, MESSAGE, One),
    row!(ReceiveBuffer => b"RECEIVE_BUFFER", TWO, NOTHING, One),
    row!(CreateBlackboard => b"CREATE_BLACKBOARD", ONE, NAME, One),
    row!(DisplayBlackboard => b"DISPLAY_BLACKBOARD", TWO, MESSAGE, One),
    row!(ReadBlackboard => b"READ_BLACKBOARD", TWO, NOTHING, One),
    row!(ClearBlackboard => b"CLEAR_BLACKBOARD", ONE, NOTHING, One),
    row!(CreateSemaphore => b"CREATE_SEMAPHORE", THREE, NAME, One),
    row!(WaitSemaphore => b"WAIT_SEMAPHORE", TWO, NOTHING, One),
    row!(SignalSemaphore => b"SIGNAL_SEMAPHORE", ONE, NOTHING, One),
    row!(CreateEvent => b"CREATE_EVENT", ZERO, NAME, One),
    row!(SetEvent => b"SET_EVENT", ONE, NOTHING, One),
    row!(ResetEvent => b"RESET_EVENT", ONE, NOTHING, One),
    row!(WaitEvent => b"WAIT_EVENT", TWO, NOTHING, One),
    row!(CreateMutex => b"CREATE_MUTEX", TWO, NAME, One),
    row!(AcquireMutex => b"ACQUIRE_MUTEX", TWO, NOTHING, One),
    row!(ReleaseMutex => b"RELEASE_MUTEX", ONE, NOTHING, One),
    row!(CreateSamplingPort => b"CREATE_SAMPLING_PORT", THREE, NAME, One),
    row!(WriteSamplingMessage => b"WRITE_SAMPLING_MESSAGE", TWO, MESSAGE, One),
    row!(ReadSamplingMessage => b"READ_SAMPLING_MESSAGE", ONE, NOTHING, One),
    row!(CreateQueuingPort => b"CREATE_QUEUING_PORT", THREE, NAME, One),
    row!(SendQueuingMessage => b"SEND_QUEUING_MESSAGE", THREE, MESSAGE, One),
    row!(ReceiveQueuingMessage => b"RECEIVE_QUEUING_MESSAGE", TWO, NOTHING, One),
    row!(GetBufferId => b"GET_BUFFER_ID", ZERO, NAME, Two),
    row!(GetBufferStatus => b"GET_BUFFER_STATUS", ONE, NOTHING, Two),
    row!(GetBlackboardId => b"GET_BLACKBOARD_ID", ZERO, NAME, Two),
    row!(GetBlackboardStatus => b"GET_BLACKBOARD_STATUS", ONE, NOTHING, Two),
    row!(GetSemaphoreId => b"GET_SEMAPHORE_ID", ZERO, NAME, Two),
    row!(GetSemaphoreStatus => b"GET_SEMAPHORE_STATUS", ONE, NOTHING, Two),
    row!(GetEventId => b"GET_EVENT_ID", ZERO, NAME, Two),
    row!(GetEventStatus => b"GET_EVENT_STATUS", ONE, NOTHING, Two),
    row!(GetMutexId => b"GET_MUTEX_ID", ZERO, NAME, Two),
    row!(GetMutexStatus => b"GET_MUTEX_STATUS", ONE, NOTHING, Two),
    row!(GetSamplingPortId => b"GET_SAMPLING_PORT_ID", ZERO, NAME, Two),
    row!(GetSamplingPortStatus => b"GET_SAMPLING_PORT_STATUS", ONE, NOTHING, Two),
    row!(GetQueuingPortId => b"GET_QUEUING_PORT_ID", ZERO, NAME, Two),
    row!(GetQueuingPortStatus => b"GET_QUEUING_PORT_STATUS", ONE, NOTHING, Two),
    row!(GetPartitionStatus => b"GET_PARTITION_STATUS", ZERO, NOTHING, Three),
    row!(GetProcessId => b"GET_PROCESS_ID", ZERO, NAME, Three),
    row!(GetProcessStatus => b"GET_PROCESS_STATUS", ONE, NOTHING, Three),
    row!(DelayedStart => b"DELAYED_START", TWO, NOTHING, Three),
    row!(ClearQueuingPort => b"CLEAR_QUEUING_PORT", ONE, NOTHING, Three),
    row!(ResetMutex => b"RESET_MUTEX", TWO, NOTHING, Three),
    row!(GetProcessMutexState => b"GET_PROCESS_MUTEX_STATE", ONE, NOTHING, Three),
    row!(ReportApplicationMessage => b"REPORT_APPLICATION_MESSAGE", SECOND, MESSAGE, Three),
    row!(CreateErrorHandler => b"CREATE_ERROR_HANDLER", ZERO, NOTHING, Three),
    row!(LockPreemption => b"LOCK_PREEMPTION", ZERO, NOTHING, Three),
    row!(UnlockPreemption => b"UNLOCK_PREEMPTION", ZERO, NOTHING, Three),
    row!(Replenish => b"REPLENISH", ONE, NOTHING, Three),
    row!(RaiseApplicationError => b"RAISE_APPLICATION_ERROR", TWO, MESSAGE, Three),
    row!(GetErrorStatus => b"GET_ERROR_STATUS", ZERO, NOTHING, Three),
    row!(ConfigureErrorHandler => b"CONFIGURE_ERROR_HANDLER", TWO, NOTHING, Three),
];

impl Service {
    // The row of the service in the table.
    #[tactic(auto, unfolding(crate::specs::Services::row_of))]
    fn row(self) -> &'static ServiceRow<&'static [u8]>
        ensures name { result.now.name.now ≡ (row_of self).name.now }
        ensures arguments { result.now.arguments ≡ (row_of self).arguments }
        ensures since { result.now.since ≡ (row_of self).since }
    {
        &SERVICES[self as usize]
    }

    /// The name that records give the service, in ASCII.
    pub fn name(self) -> &'static [u8]
        ensures { result.now ≡ name_of self }
    {
        self.row().name
    }

    /// The arguments that it takes.
    pub fn arguments(self) -> Arguments
        ensures { result ≡ arguments_of self }
    {
        self.row().arguments
    }

    /// The first format of recordings that has it.
    pub fn since(self) -> Format
        ensures { result ≡ (row_of self).since }
    {
        self.row().since
    }

    /// The number by which views give the service, from 1 on.
    pub fn number(self) -> u8
        ensures { result ≡ service_number self }
    {
        self as u8 + 1
    }
}
