// The figures as text.

use crate::fault::NumbersFault;
use crate::process_text::add_process;
use crate::subjects::Subjects;
use crate::thing_text::{add_object, add_queuing, add_sampling};
use apex_types::CoreId;
use run_numbers::{Extreme, Figure, Numbers, WindowKey};
use sink::{Sink, put_all};
use std::alloc::{AllocError, Global};
use std::fmt;
use wording::Count;

/// Writes the figures of a run over so many cores as text.
pub fn write_text<W: Sink>(
    alloc: Global,
    cores: u8,
    numbers: &Numbers,
    output: &mut W,
) -> Result<(), NumbersFault> {
    let text = text_of(alloc, cores, numbers)?;
    put_all(output, text.as_bytes())?;
    Ok(())
}

/// The figures of a run over so many cores as text.
///
/// `AllocError` if memory is refused.
pub fn text_of(alloc: Global, cores: u8, numbers: &Numbers) -> Result<String, AllocError> {
    let subjects = Subjects::of(alloc, numbers)?;
    let mut text = format!(in alloc; "Figures of {}\n", counted(numbers.records(), "record"))?;
    for number in 0..cores {
        add_core(&mut text, CoreId::new(number), numbers, &subjects)?;
    }
    for who in subjects.processes.iter() {
        add_process(&mut text, who, numbers)?;
    }
    for thing in subjects.things.iter() {
        add_object(&mut text, thing, numbers)?;
    }
    for channel in subjects.sampling.iter() {
        add_sampling(&mut text, *channel, numbers)?;
    }
    for channel in subjects.queuing.iter() {
        add_queuing(&mut text, *channel, numbers)?;
    }
    Ok(text)
}

/// So many of something.
pub(crate) fn counted(count: u64, what: &'static str) -> Count {
    Count(usize::try_from(count).unwrap_or(usize::MAX), what)
}

/// How many values a figure has.
pub(crate) fn count_of(numbers: &Numbers, figure: Figure) -> u64 {
    numbers.tallies().tally(&figure).count
}

/// The greatest value of a figure, in these units.
pub(crate) fn greatest_of(numbers: &Numbers, figure: Figure, unit: &'static str) -> Reached {
    Reached {
        extreme: numbers.tallies().tally(&figure).greatest,
        unit,
    }
}

/// A greatest or a least value, in these units, with its place.
#[derive(Clone, Copy)]
pub(crate) struct Reached {
    pub extreme: Option<Extreme>,
    pub unit: &'static str,
}

impl fmt::Display for Reached {
    fn fmt<W: fmt::Write>(&self, f: &mut fmt::Formatter<W>) -> fmt::Result {
        match &self.extreme {
            Some(extreme) => {
                let place = extreme.place.number();
                write!(f, "{} at place {place}", counted(extreme.value, self.unit))
            }
            None => write!(f, "none"),
        }
    }
}

/// A greatest value after words that name its unit, with its place.
#[derive(Clone, Copy)]
pub(crate) struct Most(pub Option<Extreme>);

impl fmt::Display for Most {
    fn fmt<W: fmt::Write>(&self, f: &mut fmt::Formatter<W>) -> fmt::Result {
        match &self.0 {
            Some(extreme) => write!(f, "{} at place {}", extreme.value, extreme.place.number()),
            None => write!(f, "none"),
        }
    }
}

fn add_core(
    text: &mut String,
    core: CoreId,
    numbers: &Numbers,
    subjects: &Subjects,
) -> Result<(), AllocError> {
    let ticks = counted(count_of(numbers, Figure::CoreTicks(core)), "tick");
    let idle = count_of(numbers, Figure::IdleTicks(core));
    let number = core.number();
    write!(text, "\nCore {number}: {ticks}, {idle} idle\n")?;
    for window in subjects.windows.iter() {
        if window.core == core {
            add_window(text, window, numbers)?;
        }
    }
    Ok(())
}

fn add_window(text: &mut String, window: &WindowKey, numbers: &Numbers) -> Result<(), AllocError> {
    let ticks = numbers.tallies().tally(&Figure::WindowTicks(*window));
    let busy = count_of(numbers, Figure::BusyTicks(*window));
    let (Some(first), Some(last)) = (ticks.least, ticks.greatest) else {
        return Ok(());
    };
    let (number, part) = (window.number, window.part.number());
    let (first, last) = (first.value, last.value);
    let share = hundredths(busy, ticks.count);
    let count = counted(ticks.count, "tick");
    write!(
        text,
        "  window {number}, partition {part}: {count} at {first}"
    )?;
    if first != last {
        write!(text, " to {last}")?;
    }
    write!(text, " of the major frame, {busy} busy ({share} %)\n")
}

// How many of a hundred these are, if they are so many of these; rounded down.
fn hundredths(some: u64, all: u64) -> u64 {
    if all == 0 {
        0
    } else {
        some.saturating_mul(100) / all
    }
}
