// The keys of a configuration that the reader ignores; one of them may be misspelt.

use crate::key_lines::say_line;
use crate::written::{At, Written};
use module_config::ConfigKey;
use std::alloc::Global;
use wording::{Count, Found, Words};

/// The most unknown keys that are listed.
const MOST_LISTED: usize = 32;

/// The most keys that a table has.
const MOST_KEYS: usize = 10;

const MODULE: [ConfigKey; 7] = [
    ConfigKey::Cores,
    ConfigKey::Frame,
    ConfigKey::Skew,
    ConfigKey::Partition,
    ConfigKey::Window,
    ConfigKey::Sampling,
    ConfigKey::Queuing,
];

const PARTITION: [ConfigKey; MOST_KEYS] = [
    ConfigKey::Number,
    ConfigKey::Period,
    ConfigKey::Cores,
    ConfigKey::Processes,
    ConfigKey::Buffers,
    ConfigKey::Blackboards,
    ConfigKey::Semaphores,
    ConfigKey::Events,
    ConfigKey::Mutexes,
    ConfigKey::OnError,
];

const WINDOW: [ConfigKey; 4] = [
    ConfigKey::Core,
    ConfigKey::Partition,
    ConfigKey::Start,
    ConfigKey::Length,
];

const SAMPLING: [ConfigKey; 6] = [
    ConfigKey::Channel,
    ConfigKey::Size,
    ConfigKey::Refresh,
    ConfigKey::Outside,
    ConfigKey::Source,
    ConfigKey::Destinations,
];

const QUEUING: [ConfigKey; 8] = [
    ConfigKey::Channel,
    ConfigKey::Size,
    ConfigKey::Capacity,
    ConfigKey::Outside,
    ConfigKey::Source,
    ConfigKey::SourceDiscipline,
    ConfigKey::Destination,
    ConfigKey::DestinationDiscipline,
];

const END: [ConfigKey; 2] = [ConfigKey::Partition, ConfigKey::Port];

/// Lists each unknown key of this configuration, with its table, its line if that is found, and the known key that it is probably meant to
/// be. Adds nothing if every key is known, or if the text is not TOML.
pub fn tell_unknown_keys(words: &mut Words, alloc: Global, text: &[u8]) {
    let keys = match toml::table_from_slice(alloc, text) {
        Ok(keys) => keys,
        Err(why) => {
            if why.is_memory() {
                words.note_lack_of_memory();
            }
            return;
        }
    };
    let module = Written::module(&keys, text);
    let mut found = tell_unknown(words, 0, module, None, &MODULE);
    found = tell_items(words, found, module, ConfigKey::Partition, &PARTITION);
    found = tell_items(words, found, module, ConfigKey::Window, &WINDOW);
    found = tell_items(words, found, module, ConfigKey::Sampling, &SAMPLING);
    found = tell_items(words, found, module, ConfigKey::Queuing, &QUEUING);
    if found > MOST_LISTED {
        words.next_line();
        let further = found.saturating_sub(MOST_LISTED);
        words.say(format_args!("and {}", Count(further, "further key")));
    }
}

// Lists the unknown keys in the tables of a list, and in the ends of a channel there. This many have been found before; returns how many
// have been found then.
fn tell_items(
    words: &mut Words,
    found: usize,
    module: Written<'_>,
    list: ConfigKey,
    known: &[ConfigKey],
) -> usize {
    let mut found = found;
    let mut items = module.items(list);
    for _ in 0..items.len() {
        let Some((index, item)) = items.next() else {
            return found;
        };
        let at = Some(At { list, index });
        found = tell_unknown(words, found, item, at, known);
        for key in [ConfigKey::Source, ConfigKey::Destination] {
            if let Some(end) = item.under(key) {
                found = tell_unknown(words, found, end, at, &END);
            }
        }
        let mut ends = item.items(ConfigKey::Destinations);
        for _ in 0..ends.len() {
            if let Some((_, end)) = ends.next() {
                found = tell_unknown(words, found, end, at, &END);
            }
        }
    }
    found
}

// Lists the keys of a table that are none of these. This many have been found before; returns how many have been found then.
fn tell_unknown(
    words: &mut Words,
    found: usize,
    table: Written<'_>,
    at: Option<At>,
    known: &[ConfigKey],
) -> usize {
    let mut found = found;
    for key in table.keys.keys() {
        let key = key.as_str();
        if known.iter().any(|name| name.text() == key) {
            continue;
        }
        if found < MOST_LISTED {
            tell_key(words, table, at, key, known);
        }
        found = found.saturating_add(1);
    }
    found
}

// Lists an unknown key of a table, which may be meant to be one of these.
fn tell_key(words: &mut Words, table: Written<'_>, at: Option<At>, key: &str, known: &[ConfigKey]) {
    words.next_line();
    if let Some(at) = at {
        words.say(format_args!("{at}, "));
    }
    words.say(Found(key.as_bytes()));
    say_line(words, table.line_of(key));
    let names = names_of(known);
    words.suggest(key, names.get(..known.len()).unwrap_or(&[]));
}

// The names of keys, and no names after them.
fn names_of(keys: &[ConfigKey]) -> [&'static str; MOST_KEYS] {
    let mut names: [&'static str; MOST_KEYS] = [""; MOST_KEYS];
    for (index, key) in keys.iter().enumerate() {
        if index < MOST_KEYS {
            names[index] = key.text();
        }
    }
    names
}
