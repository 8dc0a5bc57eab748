// What may be a mistake in a configuration that is accepted: a partition whose period does not go with the frame, a partition that never
// runs on one of its cores, and a window in which hardly anything can happen.

use crate::written::Written;
use apex_types::limits::{MOST_CORES, MOST_PARTITIONS};
use module_config::{Config, ConfigKey};
use std::alloc::Global;
use wording::{Count, Words};

/// The fewest ticks that a window usually has.
const FEWEST_TICKS: u64 = 2;

/// The most short windows that are listed.
const MOST_LISTED: usize = 8;

/// Lists what may be a mistake in this configuration, each with its line if that is found. Adds nothing if there is nothing, or if the
/// configuration is refused.
pub fn tell_warnings(words: &mut Words, alloc: Global, text: &[u8]) {
    if let Err(fault) = Config::read(alloc, text) {
        if fault.is_memory() {
            words.note_lack_of_memory();
        }
        return;
    }
    match toml::table_from_slice(alloc, text) {
        Ok(keys) => {
            let module = Written::module(&keys, text);
            tell_partitions(words, module);
            tell_short_windows(words, module);
        }
        Err(why) => {
            if why.is_memory() {
                words.note_lack_of_memory();
            }
        }
    }
}

// Lists the partitions whose period does not go with the frame, and those that have no window on one of their cores.
fn tell_partitions(words: &mut Words, module: Written<'_>) {
    let windows = Windows::of(module);
    let frame = module.number(ConfigKey::Frame).unwrap_or(0);
    let mut partitions = module.items(ConfigKey::Partition);
    for _ in 0..partitions.len() {
        if let Some((_, partition)) = partitions.next() {
            let number = partition.number(ConfigKey::Number).unwrap_or(0);
            let period = partition.number(ConfigKey::Period).unwrap_or(0);
            if !go_together(period, frame) {
                begin(words, partition.line_of(ConfigKey::Period.text()));
                words.say(format_args!(
                    "the period of partition {number} is {period}, neither a multiple nor a divisor of the frame {frame}"
                ));
            }
            tell_cores(words, &windows, partition, number);
        }
    }
}

// Lists the cores of a partition, which has this number, on which it has no window.
fn tell_cores(words: &mut Words, windows: &Windows, partition: Written<'_>, number: u64) {
    for core in partition.values(ConfigKey::Cores) {
        let core = match core.as_integer() {
            Some(core) => u64::try_from(core).unwrap_or(0),
            None => 0,
        };
        if !windows.has(number, core) {
            begin(words, partition.line_of(ConfigKey::Cores.text()));
            words.say(format_args!("partition {number} has no window on core {core}"));
        }
    }
}

// Lists the first windows that are shorter than two ticks, and says how many others there are.
fn tell_short_windows(words: &mut Words, module: Written<'_>) {
    let mut found = 0usize;
    let mut windows = module.items(ConfigKey::Window);
    for _ in 0..windows.len() {
        let Some((_, window)) = windows.next() else {
            break;
        };
        if window.number(ConfigKey::Length).unwrap_or(0) < FEWEST_TICKS {
            if found < MOST_LISTED {
                tell_short_window(words, window);
            }
            found = found.saturating_add(1);
        }
    }
    if found > MOST_LISTED {
        words.next_line();
        let further = found.saturating_sub(MOST_LISTED);
        words.say(format_args!("and {} of 1 tick", Count(further, "further window")));
    }
}

// Lists a window of one tick.
fn tell_short_window(words: &mut Words, window: Written<'_>) {
    begin(words, window.line_of(ConfigKey::Length.text()));
    let partition = window.number(ConfigKey::Partition).unwrap_or(0);
    let core = window.number(ConfigKey::Core).unwrap_or(0);
    let start = window.number(ConfigKey::Start).unwrap_or(0);
    words.say(format_args!(
        "the window of partition {partition} on core {core} that starts at {start} has only 1 tick"
    ));
}

// Begins the words about a line, if it is known.
fn begin(words: &mut Words, line: Option<u64>) {
    words.next_line();
    if let Some(line) = line {
        words.say(format_args!("line {line}: "));
    }
}

// Whether a period is a multiple or a divisor of a frame.
fn go_together(period: u64, frame: u64) -> bool {
    period == 0 || frame == 0 || period % frame == 0 || frame % period == 0
}

// Which partitions have a window, and on which cores.
#[derive(Debug, Drop)]
struct Windows {
    on_cores: [[bool; MOST_CORES]; MOST_PARTITIONS],
}

impl Windows {
    // Those of a configuration.
    fn of(module: Written<'_>) -> Windows {
        let mut found = Windows {
            on_cores: [[false; MOST_CORES]; MOST_PARTITIONS],
        };
        let mut windows = module.items(ConfigKey::Window);
        for _ in 0..windows.len() {
            if let Some((_, window)) = windows.next() {
                if let (Some(partition), Some(core)) = (
                    window.number(ConfigKey::Partition),
                    window.number(ConfigKey::Core),
                ) {
                    found.note(partition, core);
                }
            }
        }
        found
    }

    // Notes a window of this partition on this core.
    fn note(&mut self, partition: u64, core: u64) {
        if let Some(cores) = self.on_cores.get_mut(partition as usize) {
            if let Some(has_window) = cores.get_mut(core as usize) {
                *has_window = true;
            }
        }
    }

    // Whether this partition has a window on this core.
    fn has(&self, partition: u64, core: u64) -> bool {
        match self.on_cores.get(partition as usize) {
            Some(cores) => cores.get(core as usize) == Some(&true),
            None => false,
        }
    }
}
