// The plain data of a state.

ghost use Rattle.std.specs.Prelude.{◌≡◌};
ghost use Rattle.apex_machine.specs.State.{channel_set};
ghost use Rattle.apex_machine.specs.Waiting.{service_at};

use apex_types::{
    ChanId, Code, CoreId, End, ErrorCode, Message, Name, ObjectKind, Place, ProcId, Service, Who,
};

/// The operating mode of a partition.
#[derive(Clone, Copy, Debug, PartialEq, Eq)]
pub enum Mode {
    Idle,
    ColdStart,
    WarmStart,
    Normal,
}

/// How a partition came into the mode from which it was last started: what GET_PARTITION_STATUS reports as its start condition.
#[derive(Clone, Copy, Debug, PartialEq, Eq)]
pub enum StartCondition {
    /// The module started.
    NormalStart,
    /// SET_PARTITION_MODE restarted the partition.
    PartitionRestart,
    /// An error restarted the partition (HM_PARTITION_RESTART).
    ErrorRestart,
}

/// What is done about an error of a partition that no handler takes.
#[derive(Clone, Copy, Debug, PartialEq, Eq)]
pub enum ErrorPolicy {
    /// Nothing.
    Ignore,
    /// The partition becomes idle.
    Idle,
    /// The partition is restarted into the mode COLD_START.
    ColdStart,
    /// The partition is restarted into the mode WARM_START.
    WarmStart,
}

/// The error handler of a partition, which runs as process 0 in NORMAL.
#[derive(Clone, Copy, Debug, PartialEq, Eq)]
pub struct ErrorHandler {
    /// The other cores of the partition stand still while the handler is ready.
    pub pauses: bool,
    /// The core on which it runs.
    pub core: CoreId,
}

/// An error that the handler of its partition has still to take.
#[derive(Clone, Debug, Drop)]
pub struct ListedError {
    pub error: ErrorCode,
    /// The process that has the error.
    pub process: ProcId,
    /// What the process said of it; empty if it said nothing.
    pub message: Message,
}

/// How a restart leaves a partition.
#[derive(Clone, Copy, Debug, PartialEq, Eq)]
pub struct Restart {
    pub start: StartCondition,
    pub mode: Mode,
}

/// The direction of a port.
#[derive(Clone, Copy, Debug, PartialEq, Eq)]
pub enum Direction {
    Source,
    Destination,
}

/// A waiting set: the processes that wait at an end of an object of their own partition, or at an end of a channel.
#[derive(Clone, Copy, Debug, PartialEq, Eq)]
pub struct WaitingSet {
    /// The kind of the object; that of queuing ports for a channel.
    pub kind: ObjectKind,
    /// The number of the object among those of its kind, or that of the channel.
    pub number: u32,
    pub end: End,
}

impl WaitingSet {
    /// The set at an end of a channel.
    pub fn of_channel(channel: ChanId, end: End) -> WaitingSet
        ensures { result ≡ channel_set channel end }
    {
        WaitingSet {
            kind: ObjectKind::QueuingPort,
            number: channel.number() as u32,
            end,
        }
    }

    /// The service for which its processes wait. A sampling port has no waiting set.
    pub fn service(self) -> Option<Service>
        ensures { result ≡ service_at self }
    {
        let services = self.kind.services();
        match self.end {
            End::Senders => services.sending,
            End::Receivers => services.receiving,
        }
    }
}

/// What a process waits for. A time is that of its own core, in ticks.
#[derive(Clone, Copy, Debug, PartialEq, Eq)]
pub enum Wait {
    /// It waits for nothing.
    Nothing,
    /// It was started before its partition entered the mode NORMAL, and waits for that. Its caller gave this delay.
    NormalMode(i64),
    /// It is periodic, and waits for its first release at this time.
    FirstRelease(u64),
    /// It is aperiodic and was started with a delay, which is over at this time.
    Delay(u64),
    /// It waits until this time.
    Until(u64),
    /// It waits for its next release at this time.
    PeriodicRelease(u64),
    /// It suspended itself: it waits until it is resumed, or until this time.
    Suspended(Option<u64>),
    /// It waits in a waiting set, until it is woken or until this time.
    At(WaitingSet, Option<u64>),
    /// It waits for the lock of its partition, until it is woken.
    ForLock,
}

/// An entry of a waiting set: the process that waits, with its priority at its call and the place of the call.
#[derive(Clone, Debug, Drop)]
pub struct Entry {
    pub who: Who,
    pub priority: u8,
    pub place: Place,
    /// The message of a sender; empty if the process sends nothing.
    pub message: Message,
}

/// What is due to a caller from a service: the return that must come before the caller's next call.
#[derive(Clone, Debug, Drop)]
pub struct Outcome {
    pub service: Service,
    pub code: Code,
    pub val: Option<i64>,
    pub val2: Option<i64>,
    pub val3: Option<i64>,
    pub bytes: Message,
}

/// A process. Its number is the key under which its partition holds it.
#[derive(Clone, Debug, Drop)]
pub struct Process {
    /// The name given at its creation; the initialising process has none.
    pub name: Name,
    /// The priority given at its creation; the initialising process has 0.
    pub base_priority: u8,
    pub current_priority: u8,
    /// The current priority that it had when it became the owner of a mutex.
    pub retained_priority: u8,
    /// The core on which it runs.
    pub affinity: CoreId,
    /// None if it is aperiodic.
    pub period: Option<u64>,
    /// None if it has no deadlines but those that its budgets set.
    pub time_capacity: Option<u64>,
    /// The time of its core at which it has missed its deadline, in ticks. None if it has no deadline now.
    pub deadline: Option<u64>,
    /// The release for which it last waited, or which it last found reached.
    pub last_release: u64,
    /// False if it is dormant.
    pub alive: bool,
    /// It had an error that the handler has not dealt with yet.
    pub faulted: bool,
    /// Another process suspended it, and none has resumed it since.
    pub suspended: bool,
    pub wait: Wait,
    /// The place of the record at which it last became ready, or was put behind the others of its priority.
    pub ready_position: u64,
    /// The outcome that is due to it.
    pub due: Option<Outcome>,
    /// Its core's time, in ticks, at its last call.
    pub called_at: u64,
}

/// A core: its time in ticks, and the process to which the last dispatch gave it.
#[derive(Clone, Copy, Debug, PartialEq, Eq)]
pub struct CoreState {
    pub time: u64,
    pub occupant: Option<Who>,
}

/// What GET_BUFFER_STATUS and its counterparts report of an object or a port, in the order of the values.
#[derive(Clone, Copy, Debug, PartialEq, Eq)]
pub struct Status {
    pub val: u64,
    pub val2: Option<u64>,
    pub val3: Option<u64>,
}
