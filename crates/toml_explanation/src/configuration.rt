// The refusals of a configuration in words: the key at which the reader refuses it, with its line, what is found there, and what is
// expected. The text is read again, and the reader reports where it refuses it.

use crate::key_lines::Position;
use crate::whole::tell_misfit;
use crate::written::Written;
use apex_types::limits::{
    GREATEST_CHANNEL, GREATEST_PARTITION, GREATEST_SPAN, LONGEST_MESSAGE, MOST_CORES,
    MOST_MESSAGES, MOST_OBJECTS, MOST_PROCESSES,
};
use module_config::{Config, ConfigFault, ConfigKey, ConfigPlace, ConfigTable};
use std::alloc::Global;
use std::fmt;
use toml::Value;
use toml::de::Error;
use wording::{Count, Found, Part, Words};

/// The most bytes of a text that is read again, which takes memory for it twice. A text with one window too many has some 200,000.
const LONGEST: usize = 262_144;

/// Reports the refusal of the configuration of this name, from this text, if it could be read again. Returns the line that is refused, if
/// it is found.
pub fn tell_configuration(
    words: &mut Words,
    alloc: Global,
    name: &str,
    fault: ConfigFault,
    text: Option<&[u8]>,
) -> Option<u64> {
    let mut reason = Words::new(alloc);
    let position = match text {
        Some(text) if text.len() <= LONGEST => tell_text(&mut reason, alloc, fault, text),
        _ => Position::Unknown,
    };
    words.say(format_args!("{name}{position}: "));
    if reason.is_empty() {
        words.say(fault);
    }
    words.append(&reason);
    words.next_line();
    words.say("the keys and their refusals: ");
    words.say_document("FORMATS.md", "The configuration");
    position.line()
}

// Reports where a text has the fault. If the text has changed in the meantime, so that it has another fault, nothing is reported.
fn tell_text(words: &mut Words, alloc: Global, fault: ConfigFault, text: &[u8]) -> Position {
    let keys = match toml::table_from_slice(alloc, text) {
        Ok(keys) => keys,
        Err(why) => {
            if why.is_memory() {
                words.note_lack_of_memory();
            } else if fault == ConfigFault::NotToml {
                return tell_toml(words, &why, text);
            }
            return Position::Unknown;
        }
    };
    let Err(explained) = Config::read_explained(alloc, text) else {
        return Position::Unknown;
    };
    if explained.refusal.fault != fault {
        if explained.refusal.fault.is_memory() {
            words.note_lack_of_memory();
        }
        return Position::Unknown;
    }
    let module = Written::module(&keys, text);
    match (explained.refusal.place, &explained.misfit) {
        (Some(place), _) => {
            tell_key(words, fault, module, place);
            Position::of_line(line_of(module, place))
        }
        (None, Some(misfit)) => Position::of_line(tell_misfit(words, module, misfit)),
        (None, None) => Position::Unknown,
    }
}

// Reports why a text is not TOML, and where.
fn tell_toml(words: &mut Words, why: &Error, text: &[u8]) -> Position {
    words.say(ConfigFault::NotToml);
    words.next_line();
    words.say(why.message());
    match why.span() {
        Some(span) => Position::after(text, span.start),
        None => Position::Unknown,
    }
}

// The line of a key, or of the table that lacks it. None if neither is found, or if the table is that of the module.
fn line_of(module: Written<'_>, place: ConfigPlace) -> Option<u64> {
    let table = module.table(place.table)?;
    if table.value(place.key).is_some() {
        table.line_of(place.key.text())
    } else if place.table == ConfigTable::Module {
        None
    } else {
        table.line()
    }
}

// Reports the key at which a text is refused: what is found there, and what is expected.
fn tell_key(words: &mut Words, fault: ConfigFault, module: Written<'_>, place: ConfigPlace) {
    let value = match module.table(place.table) {
        Some(table) => table.value(place.key),
        None => None,
    };
    // That a key is missing is said of the key itself.
    if value.is_some() {
        words.say(fault);
        words.next_line();
    }
    say_table(words, module, place);
    let key = place.key.text();
    words.say(format_args!("{key} is "));
    match value {
        Some(value) => words.say_part(Part::Recorded, Given(value)),
        None => words.say_part(Part::Recorded, "missing"),
    }
    words.say("; expected ");
    words.begin_part(Part::Expected);
    match range_at(module, place) {
        Some((least, most)) if least <= most => {
            words.say(format_args!("a number from {least} to {most}"));
        }
        Some(_) => words.say("a start before the end of the frame"),
        None => say_expected(words, module, place),
    }
    words.end_part();
}

// Reports in which table a key is: by its list and its index there, and by its number, if that is read before the key.
fn say_table(words: &mut Words, module: Written<'_>, place: ConfigPlace) {
    match place.table {
        ConfigTable::Module => {}
        ConfigTable::Item { list, index } => say_item(words, module, list, index, place.key),
        ConfigTable::End { list, index, end } => {
            say_item(words, module, list, index, place.key);
            words.say(format_args!("{}, ", end.text()));
        }
        ConfigTable::Destination { channel, index } => {
            say_item(words, module, ConfigKey::Sampling, channel, place.key);
            words.say(format_args!("{} {index}, ", ConfigKey::Destinations.text()));
        }
    }
}

// Reports the table at an index of a list, and its number, if that is read before a key.
fn say_item(words: &mut Words, module: Written<'_>, list: ConfigKey, index: usize, key: ConfigKey) {
    words.say(format_args!("{} {index}", list.text()));
    let number_key = match list {
        ConfigKey::Partition => ConfigKey::Number,
        _ => ConfigKey::Channel,
    };
    if key != number_key {
        if let Some(number) = number_at(module.item(list, index), number_key) {
            words.say(format_args!(" ({} {number})", number_key.text()));
        }
    }
    words.say(", ");
}

// The number under a key of a table, if there is one.
fn number_at(table: Option<Written<'_>>, key: ConfigKey) -> Option<u64> {
    table?.number(key)
}

// The least and the greatest number that may be under a key, if the value must be a number with limits.
fn range_at(module: Written<'_>, place: ConfigPlace) -> Option<(u64, u64)> {
    let is_module = place.table == ConfigTable::Module;
    match place.key {
        ConfigKey::Cores if is_module => Some((1, MOST_CORES as u64)),
        ConfigKey::Partition if !is_module => Some((0, GREATEST_PARTITION as u64)),
        ConfigKey::Number => Some((0, GREATEST_PARTITION as u64)),
        ConfigKey::Frame | ConfigKey::Skew | ConfigKey::Period | ConfigKey::Refresh => {
            Some((1, GREATEST_SPAN as u64))
        }
        ConfigKey::Processes => Some((1, MOST_PROCESSES as u64)),
        ConfigKey::Buffers
        | ConfigKey::Blackboards
        | ConfigKey::Semaphores
        | ConfigKey::Events
        | ConfigKey::Mutexes => Some((0, MOST_OBJECTS as u64)),
        ConfigKey::Core => {
            let cores = module.number(ConfigKey::Cores)?;
            Some((0, cores.saturating_sub(1)))
        }
        ConfigKey::Length => {
            let frame = module.number(ConfigKey::Frame)?;
            let start = number_at(module.table(place.table), ConfigKey::Start)?;
            Some((1, frame.saturating_sub(start)))
        }
        ConfigKey::Channel => Some((0, GREATEST_CHANNEL as u64)),
        ConfigKey::Size => Some((1, LONGEST_MESSAGE as u64)),
        ConfigKey::Capacity => Some((1, MOST_MESSAGES as u64)),
        _ => None,
    }
}

// Reports what is expected under a key whose value is not a number with limits.
fn say_expected(words: &mut Words, module: Written<'_>, place: ConfigPlace) {
    match place.key {
        ConfigKey::Partition => {
            words.say("a list of one or more tables, each with the header [[partition]]");
        }
        ConfigKey::Cores => {
            words.say("a strictly ascending list of one or more numbers below ");
            if let Some(cores) = module.number(ConfigKey::Cores) {
                words.say(cores);
            }
        }
        ConfigKey::Start => words.say("a number, 0 or more"),
        ConfigKey::Destinations => words.say("a list of 1 to 32 tables"),
        ConfigKey::Source | ConfigKey::Destination => {
            words.say("a table with partition and port");
        }
        ConfigKey::SourceDiscipline | ConfigKey::DestinationDiscipline => {
            words.say("\"FIFO\" or \"PRIORITY\"");
        }
        ConfigKey::Outside => words.say("\"SOURCE\" or \"DESTINATION\""),
        ConfigKey::OnError => {
            words.say("\"IGNORE\", \"IDLE\", \"COLD_START\" or \"WARM_START\"");
        }
        ConfigKey::Port => words.say("a string of 1 to 32 bytes from 0x20 to 0x7E"),
        list => words.say(format_args!(
            "a list of tables, each with the header [[{}]]",
            list.text()
        )),
    }
}

// What is found under a key, in words.
#[derive(Clone, Copy)]
struct Given<'a>(&'a Value);

impl fmt::Display for Given<'_> {
    fn fmt<W: fmt::Write>(&self, f: &mut fmt::Formatter<W>) -> fmt::Result {
        if let Some(number) = self.0.as_integer() {
            return write!(f, "{number}");
        }
        if let Some(text) = self.0.as_str() {
            return write!(f, "the string {}", Found(text.as_bytes()));
        }
        if let Some(items) = self.0.as_array() {
            return write!(f, "a list of {}", Count(items.len(), "item"));
        }
        if self.0.as_table().is_some() {
            return write!(f, "a table");
        }
        write!(f, "of another type")
    }
}
