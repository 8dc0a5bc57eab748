// The things that records touch.

use apex_types::{ChanId, ObjectKind, PartId, Who};

/// A thing that records touch: a process, an object, a channel, or the mode or the lock of a partition.
#[derive(Clone, Copy, Debug, PartialEq, Eq)]
pub enum Thing {
    /// The process to which its partition gives this number.
    Process {
        partition: PartId,
        number: i64,
    },
    /// The object of this kind to which its partition gives this number.
    Object {
        partition: PartId,
        kind: ObjectKind,
        number: i64,
    },
    /// A channel.
    Channel(ChanId),
    /// The mode of a partition.
    Mode(PartId),
    /// The lock of a partition.
    Lock(PartId),
}

impl From<Who> for Thing {
    /// A process.
    fn from(who: Who) -> Thing {
        Thing::Process {
            partition: who.part,
            number: i64::from(who.proc.number()),
        }
    }
}
