// The refusals of a configuration as a whole in words: what the reader found, and the tables that have it, with their lines.

use crate::key_lines::say_line;
use crate::written::{At, Written};
use apex_types::limits::{MOST_CHANNELS, MOST_PARTITIONS, MOST_PORTS, MOST_WINDOWS};
use apex_types::{ChanId, CoreId, PartId};
use module_config::{ConfigKey, Misfit};
use std::fmt;
use wording::{Count, Found, ThereAre, Words};

/// The most tables that are listed.
const MOST_LISTED: usize = 8;

// The lists of channels.
const KINDS: [ConfigKey; 2] = [ConfigKey::Sampling, ConfigKey::Queuing];

// The ends of a channel that have a key of their own.
const ENDS: [ConfigKey; 2] = [ConfigKey::Source, ConfigKey::Destination];

/// Reports which parts of a configuration are not consistent, although each of its keys is right by itself. Returns the line of the last
/// of them, if it is found.
pub fn tell_misfit(words: &mut Words, module: Written<'_>, misfit: &Misfit) -> Option<u64> {
    match misfit {
        Misfit::Partitions => {
            words.say(ThereAre(module.values(ConfigKey::Partition).len(), "partition"));
            tell_most(words, module, ConfigKey::Partition, MOST_PARTITIONS)
        }
        Misfit::Windows => {
            words.say(ThereAre(module.values(ConfigKey::Window).len(), "window"));
            tell_most(words, module, ConfigKey::Window, MOST_WINDOWS)
        }
        Misfit::Channels => {
            tell_channel_count(words, module);
            None
        }
        Misfit::SamplingPorts(partition) => {
            tell_port_count(words, *partition, "sampling");
            None
        }
        Misfit::QueuingPorts(partition) => {
            tell_port_count(words, *partition, "queuing");
            None
        }
        Misfit::PartitionTwice(number) => tell_partitions(words, module, *number),
        Misfit::ChannelTwice(number) => tell_channels(words, module, *number),
        Misfit::PortTwice { partition, name } => {
            tell_ports(words, module, *partition, name.as_slice())
        }
        Misfit::StrayWindow {
            core,
            start,
            partition,
        } => tell_stray_window(words, module, *core, *start, *partition),
        Misfit::Overlap { core, start, later } => {
            tell_overlap(words, module, *core, *start, *later)
        }
        Misfit::StrayChannel(number) => tell_stray_channel(words, module, *number),
    }
}

// Reports how many tables of a list are allowed. Returns the line of the first one above that.
fn tell_most(words: &mut Words, module: Written<'_>, list: ConfigKey, most: usize) -> Option<u64> {
    words.say(format_args!("; at most {most} are allowed"));
    module.item(list, most)?.line()
}

// Reports how many channels there are, and how many are allowed.
fn tell_channel_count(words: &mut Words, module: Written<'_>) {
    let sampling = module.values(ConfigKey::Sampling).len();
    let queuing = module.values(ConfigKey::Queuing).len();
    words.say(format_args!(
        "{} and {}; at most {MOST_CHANNELS} channels are allowed",
        ThereAre(sampling, "sampling channel"),
        Count(queuing, "queuing channel")
    ));
}

// Reports that a partition has too many ports of a kind.
fn tell_port_count(words: &mut Words, partition: PartId, kind: &str) {
    words.say(format_args!(
        "partition {} has more than {MOST_PORTS} {kind} ports",
        partition.number()
    ));
}

// Reports a number that is given to two partitions, and to which.
fn tell_partitions(words: &mut Words, module: Written<'_>, number: PartId) -> Option<u64> {
    let number = u64::from(number.number());
    words.say(format_args!("two partitions have the number {number}:"));
    say_numbered(
        words,
        module,
        ConfigKey::Partition,
        ConfigKey::Number,
        number,
    )
}

// Reports a number that is given to two channels, and to which.
fn tell_channels(words: &mut Words, module: Written<'_>, number: ChanId) -> Option<u64> {
    let number = u64::from(number.number());
    words.say(format_args!("two channels have the number {number}:"));
    let mut last = None;
    for list in KINDS {
        let line = say_numbered(words, module, list, ConfigKey::Channel, number);
        last = line.or(last);
    }
    last
}

// Reports a port that is at two ends of channels, and at which.
fn tell_ports(
    words: &mut Words,
    module: Written<'_>,
    partition: PartId,
    name: &[u8],
) -> Option<u64> {
    let port = Port {
        partition: u64::from(partition.number()),
        name,
    };
    words.say(format_args!("{port} is at two ends of channels:"));
    let mut last = None;
    for list in KINDS {
        let mut channels = module.items(list);
        for _ in 0..channels.len() {
            if let Some((index, channel)) = channels.next() {
                let line = say_ports(words, At { list, index }, channel, port);
                last = line.or(last);
            }
        }
    }
    last
}

// Reports a window on a core that its partition does not have.
fn tell_stray_window(
    words: &mut Words,
    module: Written<'_>,
    core: CoreId,
    start: u64,
    partition: PartId,
) -> Option<u64> {
    let (core, partition) = (u64::from(core.number()), u64::from(partition.number()));
    words.say(format_args!(
        "the window of core {core} that starts at {start} belongs to partition {partition}"
    ));
    if has_number(module, partition) {
        words.say(", which does not have that core:");
    } else {
        words.say(", which is not configured:");
    }
    say_windows(words, module, core, &[start])
}

// Reports two windows of a core that share a tick.
fn tell_overlap(
    words: &mut Words,
    module: Written<'_>,
    core: CoreId,
    start: u64,
    later: u64,
) -> Option<u64> {
    let core = u64::from(core.number());
    words.say(format_args!("two windows of core {core} overlap; "));
    if start == later {
        words.say(format_args!("both start at {start}:"));
    } else {
        words.say(format_args!("they start at {start} and at {later}:"));
    }
    say_windows(words, module, core, &[start, later])
}

// Reports a channel that does not join configured partitions, and the partitions of its ends.
fn tell_stray_channel(words: &mut Words, module: Written<'_>, number: ChanId) -> Option<u64> {
    let number = u64::from(number.number());
    words.say(format_args!(
        "channel {number} does not connect a configured partition to other configured partitions:"
    ));
    let mut last = None;
    for list in KINDS {
        let mut channels = module.items(list);
        for _ in 0..channels.len() {
            if let Some((index, channel)) = channels.next() {
                if channel.number(ConfigKey::Channel) == Some(number) {
                    say_ends(words, module, At { list, index }, channel);
                    last = channel.line().or(last);
                }
            }
        }
    }
    last
}

// Lists the tables of a list that have a number under a key. Returns the line of the last one.
fn say_numbered(
    words: &mut Words,
    module: Written<'_>,
    list: ConfigKey,
    key: ConfigKey,
    number: u64,
) -> Option<u64> {
    let mut last = None;
    let mut items = module.items(list);
    for _ in 0..items.len() {
        if let Some((index, item)) = items.next() {
            if item.number(key) == Some(number) {
                say_at(words, At { list, index }, item.line());
                last = item.line().or(last);
            }
        }
    }
    last
}

// Adds a table, with its line if that is found.
fn say_at(words: &mut Words, at: At, line: Option<u64>) {
    words.next_line();
    words.say(at);
    say_line(words, line);
}

// Whether a partition has this number.
fn has_number(module: Written<'_>, number: u64) -> bool {
    let mut partitions = module.items(ConfigKey::Partition);
    for _ in 0..partitions.len() {
        if let Some((_, partition)) = partitions.next() {
            if partition.number(ConfigKey::Number) == Some(number) {
                return true;
            }
        }
    }
    false
}

// Lists the first windows of a core that begin at one of these times. Returns the line of the last one that is listed.
fn say_windows(words: &mut Words, module: Written<'_>, core: u64, starts: &[u64]) -> Option<u64> {
    let list = ConfigKey::Window;
    let mut last = None;
    let mut listed = 0usize;
    let mut windows = module.items(list);
    for _ in 0..windows.len() {
        let Some((index, window)) = windows.next() else {
            return last;
        };
        let is_of_core = window.number(ConfigKey::Core) == Some(core);
        let start = window.number(ConfigKey::Start);
        if is_of_core && starts.iter().any(|begun| Some(*begun) == start) {
            say_at(words, At { list, index }, window.line());
            last = window.line().or(last);
            listed = listed.saturating_add(1);
        }
        if listed == MOST_LISTED {
            return last;
        }
    }
    last
}

// A port, by its partition and its name.
#[derive(Clone, Copy)]
struct Port<'a> {
    partition: u64,
    name: &'a [u8],
}

impl Port<'_> {
    // Whether an end of a channel is this port.
    fn is_at(&self, end: Written<'_>) -> bool {
        let name = match end.value(ConfigKey::Port) {
            Some(name) => name.as_str(),
            None => None,
        };
        match name {
            Some(name) => {
                end.number(ConfigKey::Partition) == Some(self.partition)
                    && name.as_bytes() == self.name
            }
            None => false,
        }
    }
}

impl fmt::Display for Port<'_> {
    fn fmt<W: fmt::Write>(&self, f: &mut fmt::Formatter<W>) -> fmt::Result {
        write!(
            f,
            "the port {} of partition {}",
            Found(self.name),
            self.partition
        )
    }
}

// An end of a channel under a key of its own; None if there is none, or if the key is not read because the end is outside the module.
fn read_end<'a>(list: ConfigKey, channel: Written<'a>, key: ConfigKey) -> Option<Written<'a>> {
    let outside = match channel.value(ConfigKey::Outside) {
        Some(value) => value.as_str(),
        None => None,
    };
    let is_read = match key {
        ConfigKey::Source => outside != Some("SOURCE"),
        _ => list == ConfigKey::Queuing && outside != Some("DESTINATION"),
    };
    if is_read { channel.under(key) } else { None }
}

// Lists the ends of a channel that are this port. Returns the line of the last one.
fn say_ports(words: &mut Words, at: At, channel: Written<'_>, port: Port<'_>) -> Option<u64> {
    let mut last = None;
    for key in ENDS {
        if let Some(end) = read_end(at.list, channel, key) {
            if port.is_at(end) {
                say_end(words, at, key.text());
                say_line(words, end.line());
                last = end.line().or(last);
            }
        }
    }
    let mut ends = channel.items(ConfigKey::Destinations);
    for _ in 0..ends.len() {
        if let Some((index, end)) = ends.next() {
            if port.is_at(end) {
                say_end(words, at, format_args!("destinations {index}"));
                say_line(words, end.line());
                last = end.line().or(last);
            }
        }
    }
    last
}

// Lists the ends of a channel, with their partitions.
fn say_ends(words: &mut Words, module: Written<'_>, at: At, channel: Written<'_>) {
    for key in ENDS {
        if let Some(end) = read_end(at.list, channel, key) {
            say_end(words, at, key.text());
            say_partition(words, module, end);
        }
    }
    let mut ends = channel.items(ConfigKey::Destinations);
    for _ in 0..ends.len() {
        if let Some((index, end)) = ends.next() {
            say_end(words, at, format_args!("destinations {index}"));
            say_partition(words, module, end);
        }
    }
}

// Adds an end of a channel.
fn say_end(words: &mut Words, at: At, key: impl fmt::Display + Drop) {
    words.next_line();
    words.say(format_args!("{at}, {key}"));
}

// Reports the partition of an end, whether it is configured, and the line.
fn say_partition(words: &mut Words, module: Written<'_>, end: Written<'_>) {
    if let Some(partition) = end.number(ConfigKey::Partition) {
        words.say(format_args!(": partition {partition}"));
        if !has_number(module, partition) {
            words.say(", which is not configured");
        }
    }
    say_line(words, end.line());
}
