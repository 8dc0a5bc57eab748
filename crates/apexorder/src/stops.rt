// What stops each core, in words.

use crate::search_files::SearchFiles;
use explanation::{Explanation, RecordNumber};
use std::fs::Files;
use std::io::Read;
use wording::Words;

impl<R: Files<File = F>, F: Read + Drop> SearchFiles<'_, R> {
    /// What stops a core: the file and the line of its next record, and why a piece rejects it. Empty if nothing was said of the record.
    pub fn words_of_stop(&self, stop: &Explanation) -> Words {
        let mut words = Words::new(self.alloc);
        if let Some(RecordNumber { core, seq }) = stop.record() {
            if let Some(name) = self.names.cores.get(core.number() as usize) {
                let _ = self.tell_place(&mut words, name.as_str(), u64::from(seq));
            }
            words.append(stop.words());
        }
        words
    }
}
