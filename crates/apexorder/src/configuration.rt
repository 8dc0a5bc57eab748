// What a person needs to know of a configuration that is accepted.

use crate::noted::Noted;
use crate::search_files::SearchFiles;
use std::fs::Files;
use std::io::Read;
use wording::Words;

impl<R: Files<File = F>, F: Read + Drop> SearchFiles<'_, R> {
    /// The unknown keys of the configuration, and that they are ignored; empty if every key is known.
    pub fn unknown_keys(&self, noted: &Noted) -> Words {
        self.list_of("these keys are unknown and ignored", &noted.unknown_keys)
    }

    /// What may be a mistake in the configuration, although it is accepted; empty if there is nothing.
    pub fn warnings(&self, noted: &Noted) -> Words {
        self.list_of(
            "these settings are accepted, but may be mistakes",
            &noted.warnings,
        )
    }

    // A list of what the configuration has, after these words; empty if the list is.
    fn list_of(&self, what: &str, list: &Words) -> Words {
        let mut words = Words::new(self.alloc);
        if !list.is_empty() {
            words.say(format_args!("{}: {what}:", self.names.config));
            words.append(list);
        }
        words
    }
}
