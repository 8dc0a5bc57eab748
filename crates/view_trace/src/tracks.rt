// Where the events of a trace are.

use crate::event::Track;
use apex_types::{Body, ChanId, CoreId, ObjectKind, Ordered, PartId, Who};
use run_view::ThingKey;

/// The processes of the trace: one for the cores, one for the channels, and from a number on one for each partition, and one for its
/// blackboards.
pub const CORES: u64 = 1;

pub const CHANNELS: u64 = 2;

pub const FIRST_PARTITION: u64 = 10;

pub const FIRST_BLACKBOARDS: u64 = 100;

/// The threads of a partition: one for its mode, and one for each process from a number on.
pub const MODE: u64 = 1;

pub const FIRST_PROCESS: u64 = 2;

// The processes whose waits a record ends.
pub fn woken_by(ordered: &Ordered) -> &[Who] {
    match &ordered.rec.body {
        Body::Call(call) => call.claim.woken.as_slice(),
        Body::Tick(woken) => woken.as_slice(),
        Body::Arrive(crossing) | Body::Depart(crossing) => crossing.woken.as_slice(),
        Body::Ret(_) | Body::Disp(_) | Body::Error(_) => &[],
    }
}

// The track of the process or the core that makes a record; of an arrival and a departure, that of their channel, and of an error, that of
// its process.
pub fn actor_of(ordered: &Ordered) -> Track {
    match &ordered.rec.body {
        Body::Call(call) => process_track(call.who),
        Body::Ret(ret) => process_track(ret.who),
        Body::Error(report) => process_track(report.who),
        Body::Arrive(crossing) | Body::Depart(crossing) => channel_track(crossing.chan),
        Body::Disp(_) | Body::Tick(_) => core_track(ordered.core),
    }
}

// The track of a slice that is open while a record is made: that of its process, or of its core if none makes it.
pub fn slice_of(ordered: &Ordered) -> Track {
    match &ordered.rec.body {
        Body::Arrive(_) | Body::Depart(_) => core_track(ordered.core),
        _ => actor_of(ordered),
    }
}

// The track of what a process of the trace counts.
pub fn counters_of(process: u64) -> Track {
    Track { process, thread: 0 }
}

pub fn core_track(core: CoreId) -> Track {
    Track {
        process: CORES,
        thread: u64::from(core.number()) + 1,
    }
}

pub fn channel_track(channel: ChanId) -> Track {
    Track {
        process: CHANNELS,
        thread: u64::from(channel.number()) + 1,
    }
}

// The process of a partition's blackboards.
pub fn blackboards_of(part: PartId) -> u64 {
    FIRST_BLACKBOARDS + u64::from(part.number())
}

// The track of the messages of a blackboard or of a sampling channel. Nothing else has one.
pub fn message_track(key: &ThingKey) -> Option<Track> {
    match key {
        ThingKey::Channel(channel) => Some(channel_track(*channel)),
        ThingKey::Object {
            part,
            kind: ObjectKind::Blackboard,
            number,
        } => Some(Track {
            process: blackboards_of(*part),
            thread: u64::from(*number) + 1,
        }),
        ThingKey::Object { .. } | ThingKey::Lock(_) => None,
    }
}

pub fn process_of(part: PartId) -> u64 {
    FIRST_PARTITION + u64::from(part.number())
}

pub fn mode_track(part: PartId) -> Track {
    Track {
        process: process_of(part),
        thread: MODE,
    }
}

pub fn process_track(who: Who) -> Track {
    Track {
        process: process_of(who.part),
        thread: FIRST_PROCESS + u64::from(who.proc.number()),
    }
}
