// The figures of a process as text.

use crate::text::{Reached, count_of, counted, greatest_of};
use apex_types::{SERVICES, Service, Who};
use run_numbers::{Activity, Figure, Named, Numbers};
use std::alloc::AllocError;
use wording::Ascii;

/// Adds the figures of a process.
pub(crate) fn add_process(
    text: &mut String,
    who: &Who,
    numbers: &Numbers,
) -> Result<(), AllocError> {
    let (part, process) = (who.part.number(), who.proc.number());
    write!(text, "\nPartition {part}, process {process}")?;
    if let Some(name) = numbers.names().of(&Named::Process(*who)) {
        write!(text, " ({})", Ascii(name.as_bytes()))?;
    }
    write!(text, "\n")?;
    add_activities(text, who, numbers)?;
    for row in SERVICES.iter() {
        add_service(text, who, row.service, numbers)?;
    }
    add_releases(text, who, numbers)?;
    add_deadlines(text, who, numbers)
}

// Adds what the process did while the ticks of its core passed.
fn add_activities(text: &mut String, who: &Who, numbers: &Numbers) -> Result<(), AllocError> {
    let running = spent(numbers, who, Activity::Running);
    let ready = spent(numbers, who, Activity::Ready);
    let waiting = spent(numbers, who, Activity::Waiting);
    let suspended = spent(numbers, who, Activity::Suspended);
    let faulted = spent(numbers, who, Activity::Faulted);
    let dormant = spent(numbers, who, Activity::Dormant);
    write!(
        text,
        "  ticks: {running} running, {ready} ready, {waiting} waiting, "
    )?;
    write!(
        text,
        "{suspended} suspended, {faulted} faulted, {dormant} dormant\n"
    )
}

fn spent(numbers: &Numbers, who: &Who, activity: Activity) -> u64 {
    count_of(numbers, Figure::Spent(*who, activity))
}

// Adds the calls of a service, and its waits, if there are any.
fn add_service(
    text: &mut String,
    who: &Who,
    service: Service,
    numbers: &Numbers,
) -> Result<(), AllocError> {
    let number = service.number();
    let calls = count_of(numbers, Figure::Calls(*who, number));
    if calls == 0 {
        return Ok(());
    }
    write!(
        text,
        "  {}: {}",
        Ascii(service.name()),
        counted(calls, "call")
    )?;
    let waits = count_of(numbers, Figure::Waits(*who, number));
    if waits > 0 {
        let timed_out = count_of(numbers, Figure::TimeOuts(*who, number));
        write!(text, ", {waits} waited, {timed_out} timed out")?;
        add_waits(text, who, number, numbers)?;
    }
    write!(text, "\n")
}

// Adds the waits of a service that ended, if any did.
fn add_waits(
    text: &mut String,
    who: &Who,
    service: u8,
    numbers: &Numbers,
) -> Result<(), AllocError> {
    let waited = numbers.tallies().tally(&Figure::Waited(*who, service));
    if waited.count == 0 {
        return Ok(());
    }
    let (ended, whole) = (waited.count, waited.total / waited.count);
    let rest = (waited.total % waited.count).saturating_mul(100) / waited.count;
    let longest = Reached {
        extreme: waited.greatest,
        unit: "tick",
    };
    write!(
        text,
        "; {ended} ended, after {whole}.{:02} ticks on average, ",
        rest
    )?;
    write!(text, "the longest after {longest}")
}

// Adds the releases of a process, if it has any.
fn add_releases(text: &mut String, who: &Who, numbers: &Numbers) -> Result<(), AllocError> {
    let releases = count_of(numbers, Figure::Releases(*who));
    if releases == 0 {
        return Ok(());
    }
    let lateness = greatest_of(numbers, Figure::Lateness(*who), "tick");
    let response = greatest_of(numbers, Figure::Response(*who), "tick");
    let releases = counted(releases, "release");
    write!(
        text,
        "  {releases}; greatest lateness: {lateness}; greatest response: {response}\n"
    )
}

// Adds the deadlines of a process, if one was missed or met.
fn add_deadlines(text: &mut String, who: &Who, numbers: &Numbers) -> Result<(), AllocError> {
    let missed = count_of(numbers, Figure::Missed(*who));
    let least = Reached {
        extreme: numbers.tallies().tally(&Figure::Slack(*who)).least,
        unit: "tick",
    };
    if missed == 0 && least.extreme.is_none() {
        return Ok(());
    }
    write!(
        text,
        "  {}; least slack: {least}\n",
        counted(missed, "missed deadline")
    )
}
