// The files of a search, which are read again for the words that are about them.

use crate::names::OrderNames;
use answer_words::open;
use input_explanation::{Foreign, FoundRow, LONGEST_SIGNATURE, TwoReaders, find_row};
use std::alloc::Global;
use std::fs;
use std::fs::Files;
use std::io::Read;
use wording::Words;

/// The files of a search, which are read again.
#[derive(Drop)]
pub struct SearchFiles<'a, R> {
    pub rt: &'a R,
    pub alloc: Global,
    pub names: &'a OrderNames,
}

impl<R: Files<File = F>, F: Read + Drop> SearchFiles<'_, R> {
    // Adds the file and the line of the row of this number, or its number if it is not found again. Returns the row.
    pub(crate) fn tell_place(
        &self,
        words: &mut Words,
        name: &str,
        number: u64,
    ) -> Option<FoundRow> {
        let row = self.row_of(name, number);
        match &row {
            Some(row) => words.say(format_args!("{name}, line {}: ", row.line)),
            None => words.say(format_args!("{name}, row {number} (counted from 0): ")),
        }
        row
    }

    // The row of this number in the file of this name, read again. None if it is not a regular file: a pipe gives its text only once.
    fn row_of(&self, name: &str, number: u64) -> Option<FoundRow> {
        if !self.is_regular(name) {
            return None;
        }
        match (open(self.rt, name), open(self.rt, name)) {
            (Ok(rows), Ok(lines)) => {
                let readers = TwoReaders { rows, lines };
                find_row(self.alloc, readers, number).unwrap_or(None)
            }
            _ => None,
        }
    }

    // What the file of this name is, if it is not plain text. None if it is not a regular file.
    pub(crate) fn foreign_of(&self, name: &str) -> Option<Foreign> {
        if !self.is_regular(name) {
            return None;
        }
        let mut first = [0u8; LONGEST_SIGNATURE];
        match open(self.rt, name) {
            Ok(mut file) => match file.read(&mut first) {
                Ok(count) => Foreign::of(first.get(..count)?),
                Err(_) => None,
            },
            Err(_) => None,
        }
    }

    // The text in the file of this name. None if it is not a regular file, or cannot be read.
    pub(crate) fn text_of(&self, name: &str) -> Option<Vec<u8>> {
        if !self.is_regular(name) {
            return None;
        }
        let mut text = Vec::new(self.alloc);
        match open(self.rt, name) {
            Ok(mut file) => match file.read_to_end(&mut text) {
                Ok(_) => Some(text),
                Err(_) => None,
            },
            Err(_) => None,
        }
    }

    // Whether a file can be read again.
    fn is_regular(&self, name: &str) -> bool {
        match fs::metadata(self.rt, name) {
            Ok(metadata) => metadata.is_file(),
            Err(_) => false,
        }
    }
}
