// Whether records of other cores can tell that a record was taken, and what it touches.

use crate::things::Thing;
use apex_types::{
    BlackboardOperation, Body, Call, CallerOperation, Code, CoreId, Crossing, EventOperation,
    HealthOperation, MutexOperation, NewObject, ObjectKind, ObjectOperation, Out, PartId,
    ProcessOperation, QueuingOperation, Request, SamplingOperation, Who,
};
use module_config::{ChannelKind, Config};
use std::alloc::{AllocError, Global};

/// Whether no core but its own ever changes what a partition's processes do.
pub fn is_alone(config: &Config, part: PartId) -> bool {
    if !has_one_core(config, part) {
        return false;
    }
    for index in 0..config.channel_count() {
        let number = config.channel_number(index);
        if config
            .channel_kind(number)
            .is_some_and(|kind| matches!(kind, ChannelKind::Queuing { .. }))
            && config.is_at_end(number, part)
        {
            return false;
        }
    }
    true
}

/// Whether a partition has one core.
pub fn has_one_core(config: &Config, part: PartId) -> bool {
    let mut cores = 0u32;
    for core in 0..config.cores() {
        if config.has_core(part, i64::from(core)) {
            cores = cores.saturating_add(1);
        }
    }
    cores == 1
}

/// What is known of a partition.
#[derive(Clone, Copy, Debug)]
pub struct Reach {
    pub number: PartId,
    /// Whether no core but its own ever changes what its processes do.
    pub alone: bool,
    pub one_core: bool,
}

/// What is known of each partition.
pub fn reaches(alloc: Global, config: &Config) -> Result<Vec<Reach>, AllocError> {
    let mut reaches = Vec::new(alloc);
    for index in 0..config.partition_count() {
        let number = config.partition_number(index);
        reaches.push(Reach {
            number,
            alone: is_alone(config, number),
            one_core: has_one_core(config, number),
        })?;
    }
    Ok(reaches)
}

/// What is known of a partition: nothing if it is not configured.
pub fn reach_of(reaches: &[Reach], part: PartId) -> Reach {
    for reach in reaches {
        if reach.number == part {
            return *reach;
        }
    }
    Reach {
        number: part,
        alone: false,
        one_core: false,
    }
}

/// Whether a record is a tick.
pub fn is_tick(body: &Body) -> bool {
    matches!(body, Body::Tick(_))
}

/// Whether no record of another core can tell whether this one was taken.
pub fn is_free(reaches: &[Reach], body: &Body) -> bool {
    match body {
        Body::Disp(_) | Body::Ret(_) => true,
        Body::Tick(woken) => woken
            .as_slice()
            .iter()
            .all(|who| reach_of(reaches, who.part).alone),
        // An error may restart the partition, or let its cores stand still, and a status can tell which deadline is left.
        Body::Error(report) => reach_of(reaches, report.who.part).alone,
        // Whoever uses the channel can tell.
        Body::Arrive(_) | Body::Depart(_) => false,
        Body::Call(call) => is_free_call(reach_of(reaches, call.who.part), call),
    }
}

// Whether no record of another core can tell that a call was taken, whose partition this is known of.
fn is_free_call(reach: Reach, call: &Call) -> bool {
    if let Out::Answer(code) = call.claim.out {
        if code != Code::NoError {
            return true;
        }
    }
    match &call.request {
        Request::SamplingPort(_, SamplingOperation::Read) => reach.one_core,
        Request::SamplingPort(_, SamplingOperation::Write { .. }) => false,
        Request::QueuingPort(_, _) => false,
        Request::GetId(_, _)
        | Request::GetStatus(_, _)
        | Request::Health(HealthOperation::ReportMessage { .. }) => true,
        Request::Process(_, ProcessOperation::GetStatus | ProcessOperation::GetMutexState) => true,
        Request::Caller(
            CallerOperation::GetMyId
            | CallerOperation::GetTime
            | CallerOperation::GetPartitionStatus,
        ) => true,
        Request::Caller(CallerOperation::TimedWait { .. })
        | Request::Caller(CallerOperation::PeriodicWait) => {
            reach.alone || call.claim.out == Out::Waits
        }
        Request::Object(
            _,
            ObjectOperation::Blackboard(BlackboardOperation::Read { .. })
            | ObjectOperation::Event(EventOperation::Wait { .. }),
        ) => reach.alone || call.claim.out != Out::Waits,
        _ => reach.alone,
    }
}

/// Adds what a record touches.
pub fn touched(body: &Body, into: &mut Vec<Thing>) -> Result<(), AllocError> {
    match body {
        Body::Disp(_) | Body::Ret(_) => Ok(()),
        Body::Tick(woken) => {
            for who in woken.as_slice() {
                into.push(Thing::from(*who))?;
            }
            Ok(())
        }
        Body::Call(call) => touched_by_call(call, into),
        Body::Error(report) => {
            into.push(Thing::from(report.who))?;
            into.push(Thing::Mode(report.who.part))?;
            Ok(())
        }
        Body::Arrive(crossing) | Body::Depart(crossing) => touched_by_crossing(crossing, into),
    }
}

/// Adds what an arrival or a departure is about.
pub fn touched_by_crossing(crossing: &Crossing, into: &mut Vec<Thing>) -> Result<(), AllocError> {
    into.push(Thing::Channel(crossing.chan))?;
    for who in crossing.woken.as_slice() {
        into.push(Thing::from(*who))?;
    }
    Ok(())
}

/// Adds what a call is about.
pub fn touched_by_call(call: &Call, into: &mut Vec<Thing>) -> Result<(), AllocError> {
    if changes_caller(call) {
        into.push(Thing::from(call.who))?;
    }
    for who in call.claim.woken.as_slice() {
        into.push(Thing::from(*who))?;
    }
    if let Some(channel) = call.claim.chan {
        into.push(Thing::Channel(channel))?;
    }
    if let Some(thing) = requested(call) {
        into.push(thing)?;
    }
    if concerns_lock(&call.request) {
        into.push(Thing::Lock(call.who.part))?;
    }
    if let Request::Object(
        _,
        ObjectOperation::Mutex(MutexOperation::Reset { process }),
    ) = &call.request
    {
        into.push(Thing::Process {
            partition: call.who.part,
            number: *process,
        })?;
    }
    Ok(())
}

// What a call's request is about. A number that the call makes is its value.
fn requested(call: &Call) -> Option<Thing> {
    let partition = call.who.part;
    let made = call.claim.val.unwrap_or(0);
    let (kind, number) = match &call.request {
        Request::CreateProcess { .. } => {
            return Some(Thing::Process {
                partition,
                number: made,
            });
        }
        Request::Process(number, _) => {
            return Some(Thing::Process {
                partition,
                number: *number,
            });
        }
        Request::Caller(CallerOperation::GetPartitionStatus)
        | Request::SetPartitionMode(_)
        | Request::Health(_) => return Some(Thing::Mode(partition)),
        Request::Caller(_) | Request::GetId(_, _) | Request::Preemption(_) => return None,
        Request::Create(_, object) => (object.kind(), made),
        Request::Object(number, operation) => (operation.kind(), *number),
        Request::SamplingPort(number, _) => (ObjectKind::SamplingPort, *number),
        Request::QueuingPort(number, _) => (ObjectKind::QueuingPort, *number),
        Request::GetStatus(kind, number) => (*kind, *number),
    };
    Some(Thing::Object {
        partition,
        kind,
        number,
    })
}

// Whether a request changes the lock of its partition, or reports of it. A stop releases the lock of its owner.
fn concerns_lock(request: &Request) -> bool {
    matches!(
        request,
        Request::Preemption(_)
            | Request::Process(_, ProcessOperation::Stop | ProcessOperation::GetMutexState)
            | Request::Caller(CallerOperation::StopSelf | CallerOperation::GetPartitionStatus)
    )
}

// Whether a call changes whether its caller is ready, what goes before it among the ready processes, or its deadline.
fn changes_caller(call: &Call) -> bool {
    if call.claim.out == Out::Waits || call.claim.out == Out::Never {
        return true;
    }
    matches!(
        &call.request,
        Request::Caller(CallerOperation::TimedWait { .. })
            | Request::Caller(CallerOperation::PeriodicWait)
            | Request::Caller(CallerOperation::Replenish { .. })
            | Request::Object(_, ObjectOperation::Mutex(_))
            | Request::SetPartitionMode(_)
            | Request::Preemption(_)
    )
}
