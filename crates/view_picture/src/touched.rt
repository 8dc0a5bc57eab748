// What a record touches, by the record itself and by what is on its core. No rule of the machine is asked.

use crate::lane_key::LaneKey;
use apex_types::{
    Body, Call, CoreId, MutexOperation, NamedKind, ObjectOperation, Ordered, Request, Who,
};
use run_view::{CoreView, ThingKey};

// Whether a record is of this core, or names this process, object, lock or channel.
pub(crate) fn names(ordered: &Ordered, key: &LaneKey) -> bool {
    match key {
        LaneKey::Core(core) => *core == ordered.core,
        LaneKey::Partition(_) => false,
        LaneKey::Process(who) => names_process(&ordered.rec.body, who),
        LaneKey::Thing(key) => match &ordered.rec.body {
            Body::Call(call) => names_thing(call, key),
            Body::Arrive(crossing) | Body::Depart(crossing) => {
                *key == ThingKey::Channel(crossing.chan)
            }
            Body::Ret(_) | Body::Disp(_) | Body::Tick(_) | Body::Error(_) => false,
        },
    }
}

// Whether this is the partition in whose window a core is, or the process that is its occupant.
pub(crate) fn is_at_core(core: &Option<CoreView>, key: &LaneKey) -> bool {
    let Some(core) = core else {
        return false;
    };
    match key {
        LaneKey::Partition(part) => core.window == Some(*part),
        LaneKey::Process(who) => core.occupant == Some(*who),
        LaneKey::Core(_) | LaneKey::Thing(_) => false,
    }
}

// The process that makes a record, or that a core is given to.
pub(crate) fn process_at(body: &Body) -> Option<Who> {
    match body {
        Body::Call(call) => Some(call.who),
        Body::Ret(ret) => Some(ret.who),
        Body::Error(report) => Some(report.who),
        Body::Disp(occupant) => *occupant,
        Body::Tick(_) | Body::Arrive(_) | Body::Depart(_) => None,
    }
}

// The first of the cores that are furthest behind. A tick that takes its core too far ahead of another takes it too far ahead of this one.
pub(crate) fn furthest_behind(cores: &[CoreView]) -> Option<CoreId> {
    let mut found: Option<CoreId> = None;
    let mut least = u64::MAX;
    for view in cores {
        if found.is_none() || view.time < least {
            found = Some(view.core);
            least = view.time;
        }
    }
    found
}

fn names_process(body: &Body, who: &Who) -> bool {
    match body {
        Body::Disp(occupant) => *occupant == Some(*who),
        Body::Tick(woken) => woken.as_slice().iter().any(|named| *named == *who),
        Body::Arrive(crossing) | Body::Depart(crossing) => {
            crossing.woken.as_slice().iter().any(|named| *named == *who)
        }
        Body::Ret(ret) => ret.who == *who,
        Body::Error(report) => report.who == *who,
        Body::Call(call) => {
            call.who == *who
                || call
                    .claim
                    .woken
                    .as_slice()
                    .iter()
                    .any(|named| *named == *who)
                || call.who.part == who.part
                    && process_of(call) == Some(i64::from(who.proc.number()))
        }
    }
}

// The number of the process that a call names, creates or looks up.
fn process_of(call: &Call) -> Option<i64> {
    match &call.request {
        Request::Process(number, _) => Some(*number),
        Request::CreateProcess { .. } | Request::GetId(NamedKind::Process, _) => call.claim.val,
        Request::Object(_, ObjectOperation::Mutex(MutexOperation::Reset { process })) => Some(
            *process,
        ),
        Request::Caller(_)
        | Request::SetPartitionMode(_)
        | Request::Create(..)
        | Request::Object(..)
        | Request::SamplingPort(..)
        | Request::QueuingPort(..)
        | Request::GetId(..)
        | Request::GetStatus(..)
        | Request::Health(_)
        | Request::Preemption(_) => None,
    }
}

// Whether a call uses, creates or looks up this object, uses this lock, or goes through this channel.
fn names_thing(call: &Call, key: &ThingKey) -> bool {
    match key {
        ThingKey::Channel(channel) => call.claim.chan == Some(*channel),
        ThingKey::Lock(part) => {
            call.who.part == *part && matches!(call.request, Request::Preemption(_))
        }
        ThingKey::Object { part, kind, number } => {
            let named = match &call.request {
                Request::Object(number, operation) if operation.kind() == *kind => Some(*number),
                Request::GetStatus(one, number) if *one == *kind => Some(*number),
                Request::Create(_, object) if object.kind() == *kind => call.claim.val,
                Request::GetId(NamedKind::Object(one), _) if *one == *kind => call.claim.val,
                _ => None,
            };
            call.who.part == *part && named == Some(i64::from(*number))
        }
    }
}
