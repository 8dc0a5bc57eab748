// The subject of a lane of a picture.

use apex_types::{CoreId, ObjectKind, PartId, Who};
use run_view::ThingKey;

/// The subject of a lane.
#[derive(Clone, Copy, Debug, PartialEq, Eq)]
pub enum LaneKey {
    Core(CoreId),
    Partition(PartId),
    Process(Who),
    Thing(ThingKey),
}

/// The rank of a lane among the others: the cores come first, then each partition with its processes, its lock and its objects, then the
/// channels.
#[derive(Clone, Copy, Debug, PartialEq, Eq, PartialOrd, Ord)]
pub struct LaneRank {
    group: u32,
    class: u32,
    number: u32,
}

/// The group of the cores, and that of the channels; those of the partitions are in between.
const CORES: u32 = 0;

const FIRST_PARTITION: u32 = 1;

const CHANNELS: u32 = 1000;

impl LaneKey {
    /// Where the lane is among the others.
    pub fn rank(&self) -> LaneRank {
        match self {
            LaneKey::Core(core) => LaneRank {
                group: CORES,
                class: 0,
                number: u32::from(core.number()),
            },
            LaneKey::Partition(part) => LaneRank {
                group: group_of(*part),
                class: 0,
                number: 0,
            },
            LaneKey::Process(who) => LaneRank {
                group: group_of(who.part),
                class: 1,
                number: who.proc.number(),
            },
            LaneKey::Thing(ThingKey::Lock(part)) => LaneRank {
                group: group_of(*part),
                class: 2,
                number: 0,
            },
            LaneKey::Thing(ThingKey::Object { part, kind, number }) => LaneRank {
                group: group_of(*part),
                class: class_of(*kind),
                number: *number,
            },
            LaneKey::Thing(ThingKey::Channel(channel)) => LaneRank {
                group: CHANNELS,
                class: 0,
                number: u32::from(channel.number()),
            },
        }
    }

    /// The partition that the lane belongs to, if it does.
    pub fn partition(&self) -> Option<PartId> {
        match self {
            LaneKey::Core(_) | LaneKey::Thing(ThingKey::Channel(_)) => None,
            LaneKey::Partition(part)
            | LaneKey::Thing(ThingKey::Lock(part))
            | LaneKey::Thing(ThingKey::Object { part, .. }) => Some(*part),
            LaneKey::Process(who) => Some(who.part),
        }
    }
}

fn group_of(part: PartId) -> u32 {
    FIRST_PARTITION + u32::from(part.number())
}

fn class_of(kind: ObjectKind) -> u32 {
    match kind {
        ObjectKind::Buffer => 3,
        ObjectKind::Blackboard => 4,
        ObjectKind::Semaphore => 5,
        ObjectKind::Event => 6,
        ObjectKind::Mutex => 7,
        ObjectKind::SamplingPort => 8,
        ObjectKind::QueuingPort => 9,
    }
}
