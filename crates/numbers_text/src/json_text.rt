// The figures as JSON.

use crate::fault::NumbersFault;
use crate::object::Object;
use crate::subjects::Subjects;
use apex_types::{ChanId, CoreId, PartId, SERVICES, Service, Who};
use run_numbers::{Activity, Extreme, Figure, Named, Numbers, Tally, Thing, WindowKey};
use serde_json::Value;
use sink::{Sink, put_all};
use std::alloc::{AllocError, Global};

/// Writes the figures of a run over so many cores as one JSON object and a line feed.
pub fn write_json<W: Sink>(
    alloc: Global,
    cores: u8,
    numbers: &Numbers,
    output: &mut W,
) -> Result<(), NumbersFault> {
    let value = value_of(alloc, cores, numbers)?;
    let mut text = value.to_string_pretty(alloc)?;
    text.push_str("\n")?;
    put_all(output, text.as_bytes())?;
    Ok(())
}

fn value_of(alloc: Global, cores: u8, numbers: &Numbers) -> Result<Value, AllocError> {
    let subjects = Subjects::of(alloc, numbers)?;
    run_value(alloc, cores, numbers, &subjects)
}

fn run_value(
    alloc: Global,
    cores: u8,
    numbers: &Numbers,
    subjects: &Subjects,
) -> Result<Value, AllocError> {
    let object = Object::new(alloc)
        .with_number("records", numbers.records())?
        .with_list("cores", cores_value(alloc, cores, numbers, subjects))?
        .with_list("processes", processes_value(alloc, numbers, subjects))?
        .with_list("objects", objects_value(alloc, numbers, subjects))?
        .with_list("channels", channels_value(alloc, numbers, subjects))?;
    Ok(object.value())
}

fn tally_of(numbers: &Numbers, figure: Figure) -> Tally {
    numbers.tallies().tally(&figure)
}

// How many values a figure has.
fn count_of(numbers: &Numbers, figure: Figure) -> u64 {
    tally_of(numbers, figure).count
}

// The greatest value of a figure.
fn greatest_of(numbers: &Numbers, figure: Figure) -> Option<Extreme> {
    tally_of(numbers, figure).greatest
}

fn cores_value(
    alloc: Global,
    cores: u8,
    numbers: &Numbers,
    subjects: &Subjects,
) -> Result<Vec<Value>, AllocError> {
    let mut values = Vec::new(alloc);
    for number in 0..cores {
        values.push(core_value(alloc, CoreId::new(number), numbers, subjects)?)?;
    }
    Ok(values)
}

fn core_value(
    alloc: Global,
    core: CoreId,
    numbers: &Numbers,
    subjects: &Subjects,
) -> Result<Value, AllocError> {
    let object = Object::new(alloc)
        .with_number("core", u64::from(core.number()))?
        .with_number("ticks", count_of(numbers, Figure::CoreTicks(core)))?
        .with_number("idle", count_of(numbers, Figure::IdleTicks(core)))?
        .with_list("windows", windows_value(alloc, core, numbers, subjects))?;
    Ok(object.value())
}

fn windows_value(
    alloc: Global,
    core: CoreId,
    numbers: &Numbers,
    subjects: &Subjects,
) -> Result<Vec<Value>, AllocError> {
    let mut values = Vec::new(alloc);
    for window in subjects.windows.iter() {
        if window.core == core {
            values.push(window_value(alloc, window, numbers)?)?;
        }
    }
    Ok(values)
}

fn window_value(alloc: Global, window: &WindowKey, numbers: &Numbers) -> Result<Value, AllocError> {
    let ticks = tally_of(numbers, Figure::WindowTicks(*window));
    let object = Object::new(alloc)
        .with_number("window", window.number as u64)?
        .with_number("partition", u64::from(window.part.number()))?
        .with_extreme("first_offset", ticks.least)?
        .with_extreme("last_offset", ticks.greatest)?
        .with_number("ticks", ticks.count)?
        .with_number("busy", count_of(numbers, Figure::BusyTicks(*window)))?;
    Ok(object.value())
}

fn processes_value(
    alloc: Global,
    numbers: &Numbers,
    subjects: &Subjects,
) -> Result<Vec<Value>, AllocError> {
    let mut values = Vec::new(alloc);
    for who in subjects.processes.iter() {
        values.push(process_value(alloc, who, numbers)?)?;
    }
    Ok(values)
}

fn process_value(alloc: Global, who: &Who, numbers: &Numbers) -> Result<Value, AllocError> {
    let name = numbers.names().of(&Named::Process(*who));
    let object = Object::new(alloc)
        .with_number("partition", u64::from(who.part.number()))?
        .with_number("process", u64::from(who.proc.number()))?
        .with_name(name)?
        .with("ticks", activities_value(alloc, who, numbers))?
        .with_list("services", services_value(alloc, who, numbers))?;
    Ok(with_releases(object, who, numbers)?.value())
}

// Adds the releases of a process, and how it met its deadlines.
fn with_releases(object: Object, who: &Who, numbers: &Numbers) -> Result<Object, AllocError> {
    let slack = tally_of(numbers, Figure::Slack(*who));
    object
        .with_number("releases", count_of(numbers, Figure::Releases(*who)))?
        .with_extreme(
            "greatest_lateness",
            greatest_of(numbers, Figure::Lateness(*who)),
        )?
        .with_extreme(
            "greatest_response",
            greatest_of(numbers, Figure::Response(*who)),
        )?
        .with_number("missed_deadlines", count_of(numbers, Figure::Missed(*who)))?
        .with_extreme("least_slack", slack.least)
}

fn activities_value(alloc: Global, who: &Who, numbers: &Numbers) -> Result<Value, AllocError> {
    let object = Object::new(alloc)
        .with_number("running", spent(numbers, who, Activity::Running))?
        .with_number("ready", spent(numbers, who, Activity::Ready))?
        .with_number("waiting", spent(numbers, who, Activity::Waiting))?
        .with_number("suspended", spent(numbers, who, Activity::Suspended))?
        .with_number("faulted", spent(numbers, who, Activity::Faulted))?
        .with_number("dormant", spent(numbers, who, Activity::Dormant))?;
    Ok(object.value())
}

fn spent(numbers: &Numbers, who: &Who, activity: Activity) -> u64 {
    count_of(numbers, Figure::Spent(*who, activity))
}

fn services_value(alloc: Global, who: &Who, numbers: &Numbers) -> Result<Vec<Value>, AllocError> {
    let mut values = Vec::new(alloc);
    for row in SERVICES.iter() {
        if count_of(numbers, Figure::Calls(*who, row.service.number())) > 0 {
            values.push(service_value(alloc, who, row.service, numbers)?)?;
        }
    }
    Ok(values)
}

fn service_value(
    alloc: Global,
    who: &Who,
    service: Service,
    numbers: &Numbers,
) -> Result<Value, AllocError> {
    let number = service.number();
    let waited = tally_of(numbers, Figure::Waited(*who, number));
    let object = Object::new(alloc)
        .with_ascii("service", service.name())?
        .with_number("calls", count_of(numbers, Figure::Calls(*who, number)))?
        .with_number("waits", count_of(numbers, Figure::Waits(*who, number)))?
        .with_number("ended", waited.count)?
        .with_number(
            "timed_out",
            count_of(numbers, Figure::TimeOuts(*who, number)),
        )?
        .with_number("waited", waited.total)?
        .with_extreme("longest_wait", waited.greatest)?;
    Ok(object.value())
}

fn objects_value(
    alloc: Global,
    numbers: &Numbers,
    subjects: &Subjects,
) -> Result<Vec<Value>, AllocError> {
    let mut values = Vec::new(alloc);
    for thing in subjects.things.iter() {
        values.push(object_value(alloc, thing, numbers)?)?;
    }
    Ok(values)
}

fn object_value(alloc: Global, thing: &Thing, numbers: &Numbers) -> Result<Value, AllocError> {
    let Some((kind, part, number)) = described(thing) else {
        return Ok(Value::Null);
    };
    let name = numbers.names().of(&Named::Object(*thing));
    let object = Object::new(alloc)
        .with_number("partition", u64::from(part.number()))?
        .with_text("kind", kind)?
        .with_number("number", u64::from(number))?
        .with_name(name)?
        .with_extreme(
            "most_waiting",
            greatest_of(numbers, Figure::Waiters(*thing)),
        )?;
    Ok(with_own(object, thing, numbers)?.value())
}

// Adds what only buffers or only mutexes have.
fn with_own(object: Object, thing: &Thing, numbers: &Numbers) -> Result<Object, AllocError> {
    match thing {
        Thing::Buffer(..) => {
            let messages = greatest_of(numbers, Figure::Messages(*thing));
            object.with_extreme("most_messages", messages)
        }
        Thing::Mutex(..) => {
            let hold = greatest_of(numbers, Figure::Hold(*thing));
            let outranked = greatest_of(numbers, Figure::Outranked(*thing));
            object
                .with_extreme("longest_hold", hold)?
                .with_extreme("longest_outranked_wait", outranked)
        }
        _ => Ok(object),
    }
}

// The kind, the partition and the number of an object; a lock has the number 0.
fn described(thing: &Thing) -> Option<(&'static str, PartId, u32)> {
    match thing {
        Thing::Buffer(part, number) => Some(("buffer", *part, *number)),
        Thing::Blackboard(part, number) => Some(("blackboard", *part, *number)),
        Thing::Semaphore(part, number) => Some(("semaphore", *part, *number)),
        Thing::Event(part, number) => Some(("event", *part, *number)),
        Thing::Mutex(part, number) => Some(("mutex", *part, *number)),
        Thing::Lock(part) => Some(("lock", *part, 0)),
        Thing::Channel(_) => None,
    }
}

fn channels_value(
    alloc: Global,
    numbers: &Numbers,
    subjects: &Subjects,
) -> Result<Vec<Value>, AllocError> {
    let mut values = Vec::new(alloc);
    for channel in subjects.sampling.iter() {
        values.push(sampling_value(alloc, *channel, numbers)?)?;
    }
    for channel in subjects.queuing.iter() {
        values.push(queuing_value(alloc, *channel, numbers)?)?;
    }
    Ok(values)
}

fn sampling_value(alloc: Global, channel: ChanId, numbers: &Numbers) -> Result<Value, AllocError> {
    let object = Object::new(alloc)
        .with_number("channel", u64::from(channel.number()))?
        .with_text("kind", "sampling")?
        .with_number("writes", count_of(numbers, Figure::Writes(channel)))?
        .with_number("reads", count_of(numbers, Figure::Reads(channel)))?
        .with_number(
            "invalid_reads",
            count_of(numbers, Figure::InvalidReads(channel)),
        )?
        .with_extreme("greatest_age", greatest_of(numbers, Figure::Ages(channel)))?;
    Ok(object.value())
}

fn queuing_value(alloc: Global, channel: ChanId, numbers: &Numbers) -> Result<Value, AllocError> {
    let thing = Thing::Channel(channel);
    let object = Object::new(alloc)
        .with_number("channel", u64::from(channel.number()))?
        .with_text("kind", "queuing")?
        .with_extreme("most_waiting", greatest_of(numbers, Figure::Waiters(thing)))?
        .with_extreme(
            "most_messages",
            greatest_of(numbers, Figure::Messages(thing)),
        )?;
    Ok(object.value())
}
