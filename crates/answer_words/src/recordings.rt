// What is said of the recordings of a run as a whole: that there are too few records, that some recordings have none, and that another order
// may be lawful.

use crate::reason::{Reason, RunFiles};
use input_explanation::find_row;
use report::{CheckFault, Verdict};
use std::alloc::AllocError;
use std::fs::Files;
use std::io::Read;
use wording::Words;

impl<'a, R: Files<File = F>, F: Read + Drop> RunFiles<'a, R> {
    /// That a Yes is for this number of records, which is less than the number that is required; and which recordings have none.
    pub fn reason_of_few(&self, records: u64, at_least: u64) -> Reason<'a> {
        let mut words = Words::new(self.alloc);
        let judged = if records == 1 {
            "record was judged"
        } else {
            "records were judged"
        };
        words.say(format_args!("{records} {judged}, but --at-least requires {at_least}"));
        let empty = self.without_records(records);
        if !empty.is_empty() {
            words.next_line();
        }
        words.append(&empty);
        Reason::of(words)
    }

    /// The recordings that have no record, after a Yes for this number of records; empty if each has one. A pipe, which gives its text only
    /// once, is among them only if there is no record at all.
    pub fn without_records(&self, records: u64) -> Words {
        let mut words = Words::new(self.alloc);
        for name in &self.names.cores {
            match self.lacks_records(name, records) {
                Ok(true) => {
                    if !words.is_empty() {
                        words.next_line();
                    }
                    words.say(format_args!("{name} has no record"));
                }
                Ok(false) => {}
                Err(_) => words.note_lack_of_memory(),
            }
        }
        words
    }

    // Whether the recording in the file of this name is known to have no record, if all have this number together.
    fn lacks_records(&self, name: &str, records: u64) -> Result<bool, AllocError> {
        if records == 0 {
            return Ok(true);
        }
        if !self.is_regular(name)? {
            return Ok(false);
        }
        match self.read_twice(name)? {
            Some(readers) => Ok(find_row(self.alloc, readers, 0)?.is_none()),
            None => Ok(false),
        }
    }

    /// Adds to a No that another order of the records may be lawful, if there are several recordings.
    pub fn tell_other_orders(
        &self,
        reason: &mut Reason<'_>,
        outcome: &Result<Verdict, CheckFault>,
    ) {
        if let Ok(Verdict::No { .. }) = outcome {
            if self.names.cores.len() > 1 {
                reason.words.next_line();
                reason.words.say(
                    "another order of these records may be lawful; to search for one: apexorder --config FILE CORE... > ORDER",
                );
            }
        }
    }
}
