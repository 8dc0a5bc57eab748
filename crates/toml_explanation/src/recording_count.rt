// How many recordings a command line names, beside how many cores the configuration has.

use crate::written::Written;
use module_config::ConfigKey;
use std::alloc::Global;
use wording::{Count, Part, Words};

/// Reports that a command line names this many recordings, and how many cores the configuration with this text has. Without a text, or if
/// memory is refused, it says that one is expected for each core.
pub fn tell_recording_count(
    words: &mut Words,
    alloc: Global,
    recordings: usize,
    config: Option<&[u8]>,
) {
    words.say("the command line names ");
    words.say_part(Part::Recorded, Count(recordings, "recording"));
    match configured_cores(words, alloc, config) {
        Some(cores) => {
            words.say("; the configuration has ");
            words.say_part(Part::Expected, Count(cores as usize, "core"));
        }
        None => words.say("; expected one for each configured core"),
    }
}

// How many cores the configuration with this text has.
fn configured_cores(words: &mut Words, alloc: Global, config: Option<&[u8]>) -> Option<u64> {
    let text = config?;
    match toml::table_from_slice(alloc, text) {
        Ok(keys) => Written::module(&keys, text).number(ConfigKey::Cores),
        Err(why) => {
            if why.is_memory() {
                words.note_lack_of_memory();
            }
            None
        }
    }
}
