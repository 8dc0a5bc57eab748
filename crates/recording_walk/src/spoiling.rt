// Records that a piece rejects for a wanted cause, each made of a lawful one.

use crate::claims::bare_claim;
use crate::copies::{
    Change, copy_of_call, copy_of_crossing, copy_of_return, with_claim, with_crossing,
};
use crate::crossings::channel_of;
use crate::errors::{report_of, reports_missed};
use crate::machine::Machine;
use crate::woken::woken_of;
use apex_types::limits::{
    GREATEST_CHANNEL, GREATEST_PARTITION, GREATEST_PRIORITY, LONGEST_MESSAGE,
};
use apex_types::{
    Body, CallerOperation, Cause, ChanId, Claim, Code, Crossing, ErrorCode, ErrorReport, Format,
    Message, Ordered, Out, PartId, ProcId, ProcessOperation, Request, Service, Who, Woken,
};
use std::alloc::{AllocError, Global};

// All outcomes.
const OUTS: [Out; 9] = [
    Out::Waits,
    Out::Never,
    Out::Answer(Code::NoError),
    Out::Answer(Code::NoAction),
    Out::Answer(Code::NotAvailable),
    Out::Answer(Code::InvalidParam),
    Out::Answer(Code::InvalidConfig),
    Out::Answer(Code::InvalidMode),
    Out::Answer(Code::TimedOut),
];

// Services whose returns differ from most.
const SERVICES_TO_RETURN: [Service; 2] = [Service::GetTime, Service::GetMyId];

/// Bodies that may take the place of a lawful record's in this format, so that a piece rejects it for this cause: each differs from it in
/// what the cause speaks of. Which of them are rejected, and for which cause, is for the pieces to say.
///
/// `AllocError` if memory is refused.
pub fn spoilt_bodies(
    alloc: Global,
    format: Format,
    machine: &Machine<'_>,
    ordered: &Ordered,
    cause: Cause,
) -> Result<Vec<Body>, AllocError> {
    let mut bodies = Vec::new(alloc);
    let body = &ordered.rec.body;
    match cause {
        Cause::Names => add_unknown(&mut bodies, alloc, machine, body)?,
        Cause::Skew => bodies.push(Body::Tick(Woken::none(alloc)))?,
        Cause::Idle => add_dispatches(&mut bodies, machine)?,
        Cause::Window => {
            add_dispatches(&mut bodies, machine)?;
            add_of_other_partitions(&mut bodies, alloc, machine, body)?;
        }
        Cause::Deadline => {
            if format == Format::Three {
                add_other_reports(&mut bodies, alloc, machine, ordered)?;
            }
        }
        Cause::Choice => add_of_other_processes(&mut bodies, alloc, body)?,
        Cause::Return => add_other_returns(&mut bodies, body)?,
        Cause::OutsideProfile => add_outside(&mut bodies, alloc, machine, body)?,
        Cause::Prio => add_other_priority(&mut bodies, alloc, body)?,
        Cause::Chan => add_other_channels(&mut bodies, alloc, machine, body)?,
        Cause::Out => add_other_outs(&mut bodies, alloc, body)?,
        Cause::Val => add_other_values(&mut bodies, alloc, body)?,
        Cause::Data => add_other_messages(&mut bodies, alloc, machine, body)?,
        Cause::Woken => add_other_names(&mut bodies, alloc, machine, body)?,
    }
    Ok(bodies)
}

// Adds records that name a partition or a channel that is not configured.
fn add_unknown(
    bodies: &mut Vec<Body>,
    alloc: Global,
    machine: &Machine<'_>,
    body: &Body,
) -> Result<(), AllocError> {
    if let Some(part) = unknown_partition(machine) {
        add_of_partition(bodies, alloc, body, part)?;
        if let Body::Disp(_) = body {
            let proc = ProcId::new(0);
            bodies.push(Body::Disp(Some(Who { part, proc })))?;
        }
    }
    if let Some(channel) = unknown_channel(machine) {
        add_of_channel(bodies, alloc, body, channel)?;
    }
    Ok(())
}

// Adds the record as one of this channel, if it is a call or of a message that passes an end outside.
fn add_of_channel(
    bodies: &mut Vec<Body>,
    alloc: Global,
    body: &Body,
    channel: ChanId,
) -> Result<(), AllocError> {
    match body {
        Body::Call(call) => {
            bodies.push(with_claim(alloc, call, Change::Channel(Some(channel)))?)?;
        }
        Body::Arrive(crossing) | Body::Depart(crossing) => {
            let mut other = copy_of_crossing(alloc, crossing)?;
            other.chan = channel;
            add_crossing(bodies, body, other)?;
        }
        Body::Ret(_) | Body::Disp(_) | Body::Tick(_) | Body::Error(_) => {}
    }
    Ok(())
}

// Adds the record with another message that passes the same end.
fn add_crossing(bodies: &mut Vec<Body>, body: &Body, other: Crossing) -> Result<(), AllocError> {
    if let Some(body) = with_crossing(body, other) {
        bodies.push(body)?;
    }
    Ok(())
}

// The least partition that is not configured, if there is one.
fn unknown_partition(machine: &Machine<'_>) -> Option<PartId> {
    for number in 0..=GREATEST_PARTITION {
        let part = PartId::new(number);
        if !machine.config().has_partition(part) {
            return Some(part);
        }
    }
    None
}

// The least channel that is not configured, if there is one.
fn unknown_channel(machine: &Machine<'_>) -> Option<ChanId> {
    for number in 0..=GREATEST_CHANNEL {
        let channel = ChanId::new(number);
        if !machine.config().has_channel(channel) {
            return Some(channel);
        }
    }
    None
}

// Adds dispatches of the initialising process of each partition.
fn add_dispatches(bodies: &mut Vec<Body>, machine: &Machine<'_>) -> Result<(), AllocError> {
    let config = machine.config();
    for index in 0..config.partition_count() {
        let part = config.partition_number(index);
        let proc = ProcId::new(0);
        bodies.push(Body::Disp(Some(Who { part, proc })))?;
    }
    Ok(())
}

// Adds the record with each partition in place of its own.
fn add_of_other_partitions(
    bodies: &mut Vec<Body>,
    alloc: Global,
    machine: &Machine<'_>,
    body: &Body,
) -> Result<(), AllocError> {
    let config = machine.config();
    for index in 0..config.partition_count() {
        let part = config.partition_number(index);
        add_of_partition(bodies, alloc, body, part)?;
    }
    Ok(())
}

// Adds the record as one of this partition, if it is of a process.
fn add_of_partition(
    bodies: &mut Vec<Body>,
    alloc: Global,
    body: &Body,
    part: PartId,
) -> Result<(), AllocError> {
    if let Some(who) = process_of(body) {
        let other = Who {
            part,
            proc: who.proc,
        };
        add_of(bodies, alloc, body, other)?;
    }
    Ok(())
}

// Adds the record as one of other processes of its partition, and no process in place of the one that it dispatches.
fn add_of_other_processes(
    bodies: &mut Vec<Body>,
    alloc: Global,
    body: &Body,
) -> Result<(), AllocError> {
    let Some(who) = process_of(body) else {
        return Ok(());
    };
    for number in 0..4 {
        let other = Who {
            part: who.part,
            proc: ProcId::new(number),
        };
        if other != who {
            add_of(bodies, alloc, body, other)?;
        }
    }
    if let Body::Disp(_) = body {
        bodies.push(Body::Disp(None))?;
    }
    Ok(())
}

// The process that a record is of, or that it dispatches.
fn process_of(body: &Body) -> Option<Who> {
    match body {
        Body::Call(call) => Some(call.who),
        Body::Ret(ret) => Some(ret.who),
        Body::Disp(who) => *who,
        Body::Error(report) => Some(report.who),
        Body::Tick(_) | Body::Arrive(_) | Body::Depart(_) => None,
    }
}

// Adds the record as one of this process.
fn add_of(bodies: &mut Vec<Body>, alloc: Global, body: &Body, who: Who) -> Result<(), AllocError> {
    match body {
        Body::Call(call) => {
            let mut other = copy_of_call(alloc, call)?;
            other.who = who;
            bodies.push(Body::Call(other))?;
        }
        Body::Ret(ret) => {
            let mut other = copy_of_return(ret)?;
            other.who = who;
            bodies.push(Body::Ret(other))?;
        }
        Body::Disp(_) => bodies.push(Body::Disp(Some(who)))?,
        Body::Error(report) => bodies.push(Body::Error(ErrorReport { who, ..*report }))?,
        Body::Tick(_) | Body::Arrive(_) | Body::Depart(_) => {}
    }
    Ok(())
}

// Adds records that come where a missed deadline must be reported, and reports of deadlines that are not missed.
fn add_other_reports(
    bodies: &mut Vec<Body>,
    alloc: Global,
    machine: &Machine<'_>,
    ordered: &Ordered,
) -> Result<(), AllocError> {
    if reports_missed(&ordered.rec.body) {
        bodies.push(Body::Disp(None))?;
        bodies.push(Body::Tick(Woken::none(alloc)))?;
        return add_of_other_processes(bodies, alloc, &ordered.rec.body);
    }
    if let Some(part) = machine.core(ordered.core).owner {
        for number in 1..4 {
            let proc = ProcId::new(number);
            bodies.push(report_of(machine, Who { part, proc }, ErrorCode::DeadlineMissed))?;
        }
    }
    Ok(())
}

// Adds returns of other services.
fn add_other_returns(bodies: &mut Vec<Body>, body: &Body) -> Result<(), AllocError> {
    if let Body::Ret(ret) = body {
        for service in SERVICES_TO_RETURN {
            if service != ret.service {
                let mut other = copy_of_return(ret)?;
                other.service = service;
                bodies.push(Body::Ret(other))?;
            }
        }
    }
    Ok(())
}

// Adds calls of the same caller that may be outside the profile.
fn add_outside(
    bodies: &mut Vec<Body>,
    alloc: Global,
    machine: &Machine<'_>,
    body: &Body,
) -> Result<(), AllocError> {
    let Body::Call(call) = body else {
        return Ok(());
    };
    let mut stop = copy_of_call(alloc, call)?;
    stop.request = Request::Caller(CallerOperation::StopSelf);
    stop.claim = bare(alloc, call.claim.prio, Out::Never);
    bodies.push(Body::Call(stop))?;
    let Some(partition) = machine.partition(call.who.part) else {
        return Ok(());
    };
    let table = partition.state.processes();
    for index in 1..=table.len() {
        if let Some((process, _)) = table.at(index) {
            let mut other = copy_of_call(alloc, call)?;
            let number = i64::from(process.number());
            let operation = ProcessOperation::SetPriority { priority: 10 };
            other.request = Request::Process(number, operation);
            other.claim = bare(alloc, call.claim.prio, Out::Answer(Code::NoError));
            bodies.push(Body::Call(other))?;
        }
    }
    Ok(())
}

// A claim of this priority and outcome, and nothing else.
fn bare(alloc: Global, prio: u8, out: Out) -> Claim {
    Claim {
        out,
        ..bare_claim(alloc, prio)
    }
}

// Adds the call with another priority.
fn add_other_priority(
    bodies: &mut Vec<Body>,
    alloc: Global,
    body: &Body,
) -> Result<(), AllocError> {
    if let Body::Call(call) = body {
        let prio = call.claim.prio;
        let other = if prio < GREATEST_PRIORITY {
            prio.saturating_add(1)
        } else {
            0
        };
        bodies.push(with_claim(alloc, call, Change::Priority(other))?)?;
    }
    Ok(())
}

// Adds the record with each other channel, and a call with none.
fn add_other_channels(
    bodies: &mut Vec<Body>,
    alloc: Global,
    machine: &Machine<'_>,
    body: &Body,
) -> Result<(), AllocError> {
    let named = match body {
        Body::Call(call) => call.claim.chan,
        Body::Arrive(crossing) | Body::Depart(crossing) => Some(crossing.chan),
        Body::Ret(_) | Body::Disp(_) | Body::Tick(_) | Body::Error(_) => return Ok(()),
    };
    if let Body::Call(call) = body {
        if named.is_some() {
            bodies.push(with_claim(alloc, call, Change::Channel(None))?)?;
        }
    }
    let config = machine.config();
    for index in 0..config.channel_count() {
        let channel = config.channel_number(index);
        if named != Some(channel) {
            add_of_channel(bodies, alloc, body, channel)?;
        }
    }
    Ok(())
}

// Adds the call or the return with each other outcome that it may say, and an error that restarts its partition if it does not, or the
// reverse.
fn add_other_outs(bodies: &mut Vec<Body>, alloc: Global, body: &Body) -> Result<(), AllocError> {
    if let Body::Error(report) = body {
        bodies.push(Body::Error(ErrorReport {
            restarts: !report.restarts,
            ..*report
        }))?;
    }
    for out in OUTS {
        match (body, out) {
            (Body::Call(call), _) if call.claim.out != out => {
                bodies.push(with_claim(alloc, call, Change::Outcome(out))?)?;
            }
            (Body::Ret(ret), Out::Answer(code)) if ret.code != code => {
                let mut other = copy_of_return(ret)?;
                other.code = code;
                bodies.push(Body::Ret(other))?;
            }
            _ => {}
        }
    }
    Ok(())
}

// Adds the call or the return with another value.
fn add_other_values(bodies: &mut Vec<Body>, alloc: Global, body: &Body) -> Result<(), AllocError> {
    match body {
        Body::Call(call) => {
            let value = next_value(call.claim.val);
            bodies.push(with_claim(alloc, call, Change::Value(value))?)?;
        }
        Body::Ret(ret) => {
            let mut other = copy_of_return(ret)?;
            other.val = next_value(ret.val);
            bodies.push(Body::Ret(other))?;
        }
        Body::Disp(_) | Body::Tick(_) | Body::Arrive(_) | Body::Depart(_) | Body::Error(_) => {}
    }
    Ok(())
}

// A value other than this one.
fn next_value(value: Option<i64>) -> Option<i64> {
    match value {
        Some(value) => Some(value.wrapping_add(1)),
        None => Some(0),
    }
}

// Adds the record with another message: one that arrives is longer than its channel takes.
fn add_other_messages(
    bodies: &mut Vec<Body>,
    alloc: Global,
    machine: &Machine<'_>,
    body: &Body,
) -> Result<(), AllocError> {
    match body {
        Body::Call(call) => {
            let message = other_message(alloc, &call.claim.bytes)?;
            bodies.push(with_claim(alloc, call, Change::Bytes(message))?)?;
        }
        Body::Ret(ret) => {
            let mut other = copy_of_return(ret)?;
            other.bytes = other_message(alloc, &ret.bytes)?;
            bodies.push(Body::Ret(other))?;
        }
        Body::Arrive(crossing) => {
            let mut other = copy_of_crossing(alloc, crossing)?;
            other.message = longer_message(alloc, machine, crossing)?;
            bodies.push(Body::Arrive(other))?;
        }
        Body::Depart(crossing) => {
            let mut other = copy_of_crossing(alloc, crossing)?;
            other.message = other_message(alloc, &crossing.message)?;
            bodies.push(Body::Depart(other))?;
        }
        Body::Disp(_) | Body::Tick(_) | Body::Error(_) => {}
    }
    Ok(())
}

// A message that is longer than the channel of this one takes, if a row can have such a message.
fn longer_message(
    alloc: Global,
    machine: &Machine<'_>,
    crossing: &Crossing,
) -> Result<Message, AllocError> {
    let longest = match channel_of(machine, crossing.chan) {
        Some(channel) => usize::from(channel.size()),
        None => 0,
    };
    let mut bytes = Vec::from_slice(alloc, crossing.message.as_bytes())?;
    for _ in bytes.len()..=longest.min(LONGEST_MESSAGE - 1) {
        bytes.push(0)?;
    }
    Ok(Message::new(bytes))
}

// A message other than this one: the first byte differs, or it has one in place of none.
fn other_message(alloc: Global, message: &Message) -> Result<Message, AllocError> {
    let mut bytes = Vec::from_slice(alloc, message.as_bytes())?;
    match bytes.first_mut() {
        Some(first) => *first = first.wrapping_add(1),
        None => bytes.push(0)?,
    }
    Ok(Message::new(bytes))
}

// Adds the record that names one process fewer, and one more, if it may name processes.
fn add_other_names(
    bodies: &mut Vec<Body>,
    alloc: Global,
    machine: &Machine<'_>,
    body: &Body,
) -> Result<(), AllocError> {
    let named = match body {
        Body::Call(call) => call.claim.woken.as_slice(),
        Body::Tick(woken) => woken.as_slice(),
        Body::Arrive(crossing) | Body::Depart(crossing) => crossing.woken.as_slice(),
        Body::Ret(_) | Body::Disp(_) | Body::Error(_) => return Ok(()),
    };
    if let Some((_, fewer)) = named.split_first() {
        add_naming(bodies, alloc, body, Vec::from_slice(alloc, fewer)?)?;
    }
    let config = machine.config();
    if config.partition_count() == 0 {
        return Ok(());
    }
    let more = Who {
        part: config.partition_number(0),
        proc: ProcId::new(1),
    };
    if !named.contains(&more) {
        let mut list = Vec::from_slice(alloc, named)?;
        list.push(more)?;
        add_naming(bodies, alloc, body, list)?;
    }
    Ok(())
}

// Adds the record that names these processes.
fn add_naming(
    bodies: &mut Vec<Body>,
    alloc: Global,
    body: &Body,
    named: Vec<Who>,
) -> Result<(), AllocError> {
    let woken = woken_of(alloc, named)?;
    match body {
        Body::Call(call) => {
            bodies.push(with_claim(alloc, call, Change::Names(woken))?)?;
        }
        Body::Tick(_) => bodies.push(Body::Tick(woken))?,
        Body::Arrive(crossing) | Body::Depart(crossing) => {
            let mut other = copy_of_crossing(alloc, crossing)?;
            other.woken = woken;
            add_crossing(bodies, body, other)?;
        }
        Body::Ret(_) | Body::Disp(_) | Body::Error(_) => {}
    }
    Ok(())
}
