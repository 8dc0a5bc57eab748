// The figures of a run.

ghost use Rattle.std.specs.Prelude.{◌≡◌};
ghost use Rattle.run_numbers.specs.Figures.{thing_of};

use apex_types::{ChanId, CoreId, ObjectKind, PartId, Who};

/// What a process does while a tick of its core passes.
#[derive(Clone, Copy, Debug, PartialEq, Eq, Hash)]
pub enum Activity {
    /// It has the core.
    Running,
    /// It waits for nothing but the core.
    Ready,
    Waiting,
    /// It suspended itself, or another process suspended it.
    Suspended,
    /// It has an error that its partition's handler has not dealt with.
    Faulted,
    Dormant,
}

/// A window of a core: the windows of a module are numbered from 1 on, by core and start.
#[derive(Clone, Copy, Debug, PartialEq, Eq, PartialOrd, Ord, Hash)]
pub struct WindowKey {
    pub core: CoreId,
    pub number: usize,
    pub part: PartId,
}

/// Where processes wait or messages are held: an object of a partition under its number, the lock of a partition, or a channel.
#[derive(Clone, Copy, Debug, PartialEq, Eq, PartialOrd, Ord, Hash)]
pub enum Thing {
    Buffer(PartId, u32),
    Blackboard(PartId, u32),
    Semaphore(PartId, u32),
    Event(PartId, u32),
    Mutex(PartId, u32),
    Lock(PartId),
    Channel(ChanId),
}

impl Thing {
    /// The object of this kind and number of a partition. A port is none: what it holds is in its channel.
    pub fn of(part: PartId, kind: ObjectKind, number: u32) -> Option<Thing>
        ensures { result ≡ thing_of part kind number }
    {
        match kind {
            ObjectKind::Buffer => Some(Thing::Buffer(part, number)),
            ObjectKind::Blackboard => Some(Thing::Blackboard(part, number)),
            ObjectKind::Semaphore => Some(Thing::Semaphore(part, number)),
            ObjectKind::Event => Some(Thing::Event(part, number)),
            ObjectKind::Mutex => Some(Thing::Mutex(part, number)),
            ObjectKind::SamplingPort | ObjectKind::QueuingPort => None,
        }
    }
}

/// Something that records give values to. A service is given by its number. Times are in ticks.
#[derive(Clone, Copy, Debug, PartialEq, Eq, Hash)]
pub enum Figure {
    /// The ticks of a core; each has the value 1.
    CoreTicks(CoreId),
    /// Its ticks while it ran no process.
    IdleTicks(CoreId),
    /// The ticks of a core in a window; the value of each is its offset in the major frame.
    WindowTicks(WindowKey),
    /// Those of them in which a process ran.
    BusyTicks(WindowKey),
    /// The ticks of its core that a process spent so.
    Spent(Who, Activity),
    /// The releases of a periodic process.
    Releases(Who),
    /// The ticks from its release until the process runs.
    Lateness(Who),
    /// The ticks from its release until it calls PERIODIC_WAIT.
    Response(Who),
    /// The missed deadlines of a process that were reported.
    Missed(Who),
    /// The ticks that were left until its deadline when it ended its work.
    Slack(Who),
    /// The calls of a service by a process.
    Calls(Who, u8),
    /// Those of them that waited.
    Waits(Who, u8),
    /// The ticks of those waits that ended.
    Waited(Who, u8),
    /// Those of them that timed out.
    TimeOuts(Who, u8),
    /// How many processes wait there, each time that one begins to.
    Waiters(Thing),
    /// How many messages there are, each time that one is added.
    Messages(Thing),
    /// The ticks for which a mutex has one owner.
    Hold(Thing),
    /// The ticks that a process of a higher priority than its owner waits for a mutex.
    Outranked(Thing),
    /// The messages that are written to a sampling channel.
    Writes(ChanId),
    Reads(ChanId),
    /// Those of them that find no valid message.
    InvalidReads(ChanId),
    /// The ages of the messages that are read.
    Ages(ChanId),
}
