// Why the answer is not Yes: in words, and where, if that is in a file. The files of a run are read again for it.

ghost use Rattle.std.specs.Prelude.{◌≡◌, map, option_map, slice_get, string_bytes};

use crate::explainer::Explainer;
use crate::files::{open, open_text};
use crate::names::InputNames;
use csv_rows::{RowFields, read_decimal};
use explanation::{Explanation, RecordNumber};
use input_explanation::{
    Foreign, FoundRow, LONGEST_SIGNATURE, Row, TwoReaders, find_lines, find_row, find_rows,
    tell_certificate, tell_foreign, tell_order, tell_row_fault,
};
use module_config::ConfigFault;
use placement::InputFault;
use report::{ArgumentFault, CheckFault, Verdict};
use std::alloc::{AllocError, Global};
use std::fs::Files;
use std::io::{ErrorKind, Read};
use std::{fs, io};
use toml_explanation::{tell_configuration, tell_recording_count};
use wording::Words;

/// Why the answer is not Yes: in words, with the file that they are about, and the line and the row there, if they are found again.
#[derive(Drop)]
pub struct Reason<'a> {
    pub words: Words,
    pub file: Option<&'a str>,
    line: Option<u64>,
    row: Option<FoundRow>,
}

impl<'a> Reason<'a> {
    // These words, which are about no file.
    pub(crate) fn of(words: Words) -> Reason<'a> {
        Reason {
            words,
            file: None,
            line: None,
            row: None,
        }
    }

    /// The line on which the row begins, or the line of the configuration that is refused, counted from 1.
    pub fn line(&self) -> Option<u64> {
        self.line
    }

    // The row, if it says something to a person: that of a file that is not plain text does not.
    fn row(&self, foreign: Option<Foreign>) -> Option<&FoundRow> {
        match foreign {
            None => self.row.as_ref(),
            Some(_) => None,
        }
    }
}

/// The files of a run, which are read again.
#[derive(Drop)]
pub struct RunFiles<'a, R> {
    pub rt: &'a R,
    pub alloc: Global,
    pub names: &'a InputNames,
}

impl<'a, R: Files<File = F>, F: Read + Drop> RunFiles<'a, R> {
    /// Why the answer is not Yes. None after a Yes, or if only a note says why.
    pub fn reason_of(
        &self,
        outcome: &Result<Verdict, CheckFault>,
        explainer: &Explainer,
    ) -> Option<Reason<'a>> {
        match outcome {
            Ok(Verdict::Yes { .. }) => None,
            Ok(Verdict::No { .. } | Verdict::Broken { .. }) => {
                self.reason_of_record(explainer.explanation())
            }
            Err(CheckFault::Memory) => {
                let mut words = Words::new(self.alloc);
                words.say("out of memory: not all records were judged");
                Some(Reason::of(words))
            }
            Err(CheckFault::Arguments(fault)) => Some(Reason::of(self.words_of_arguments(*fault))),
            Err(CheckFault::Config(fault)) => {
                Some(self.reason_of_configuration(*fault, explainer.foreign()))
            }
            Err(CheckFault::Input(fault)) => self.reason_of_input(fault),
        }
    }

    /// The unknown keys of the configuration, and that they are ignored; empty if every key is known.
    pub fn unknown_keys(&self, explainer: &Explainer) -> Words {
        self.list_of(
            "these keys are unknown and ignored",
            explainer.unknown_keys(),
        )
    }

    /// What may be a mistake in the configuration, although it is accepted; empty if there is nothing.
    pub fn warnings(&self, explainer: &Explainer) -> Words {
        self.list_of(
            "these settings are accepted, but may be mistakes",
            explainer.warnings(),
        )
    }

    // A list of what the configuration has, after these words; empty if the list is.
    fn list_of(&self, what: &str, list: &Words) -> Words {
        let mut words = Words::new(self.alloc);
        if !list.is_empty() {
            words.say(format_args!("{}: {what}:", self.names.config));
        }
        // A list that is empty for lack of memory says so.
        words.append(list);
        words
    }

    // What is wrong with the arguments of a check.
    fn words_of_arguments(&self, fault: ArgumentFault) -> Words {
        let mut words = Words::new(self.alloc);
        words.say(fault);
        words.next_line();
        match fault {
            ArgumentFault::NoWorkers | ArgumentFault::TooManyWorkers => {
                words.say("--workers must be a number from 1 to 64");
            }
            ArgumentFault::NoDepth | ArgumentFault::TooDeep => {
                words.say("--depth must be a number from 1 to 4096");
            }
            ArgumentFault::ReaderCount => self.tell_counts(&mut words),
        }
        words
    }

    // Reports how many recordings are named, and how many there must be.
    fn tell_counts(&self, words: &mut Words) {
        let text = self.text_of(&self.names.config, words);
        tell_recording_count(words, self.alloc, self.names.cores.len(), text.as_deref());
    }

    // Where a refused certificate, order or recording is wrong, and what is wrong with it.
    fn reason_of_input(&self, fault: &InputFault) -> Option<Reason<'a>> {
        match fault {
            InputFault::Cert { place, fault } => {
                let name = &self.names.order;
                let mut reason = self.reason_of_row(name, *place);
                let foreign = self.foreign_of(name, &mut reason.words);
                let mut words = Words::new(self.alloc);
                tell_certificate(&mut words, *fault, *place, fields_of(reason.row(foreign)));
                reason.words.append(&words);
                tell_foreign(&mut reason.words, name, foreign);
                Some(reason)
            }
            InputFault::Order { place, core, fault } => {
                let mut reason = self.reason_of_row(&self.names.order, *place);
                let named = number_named(fields_of(reason.row(None)));
                tell_order(&mut reason.words, *fault, *core, named);
                Some(reason)
            }
            InputFault::Row { core, seq, fault } => {
                let name = name_of_core(self.names, *core)?;
                let mut reason = self.reason_of_row(name, *seq);
                let foreign = self.foreign_of(name, &mut reason.words);
                let mut words = Words::new(self.alloc);
                let row = row_with(*seq, reason.row(foreign));
                tell_row_fault(&mut words, self.alloc, *fault, row);
                reason.words.append(&words);
                tell_foreign(&mut reason.words, name, foreign);
                Some(reason)
            }
        }
    }

    // What the record at the place of a No says.
    fn reason_of_record(&self, explanation: &Explanation) -> Option<Reason<'a>> {
        let RecordNumber { core, seq } = explanation.record()?;
        let name = name_of_core(self.names, u32::from(core.number()))?;
        let mut reason = self.reason_of_row(name, u64::from(seq));
        reason.words.append(explanation.words());
        self.tell_places(&mut reason.words, explanation.words().places());
        Some(reason)
    }

    // Reports in which files and lines the records at these places are.
    fn tell_places(&self, words: &mut Words, places: &[u64]) {
        if self.find_places(words, places).is_err() {
            words.note_lack_of_memory();
        }
    }

    // Reports them, unless memory is refused.
    fn find_places(&self, words: &mut Words, places: &[u64]) -> Result<(), AllocError> {
        let mut rising = places.to_vec(self.alloc)?;
        rising.sort_unstable();
        let rows = self.rows_of(&self.names.order, rising.as_slice())?;
        for (place, row) in rising.iter().zip(rows.iter()) {
            let Some((core, seq)) = pair_named(&row.fields) else {
                continue;
            };
            let Some(name) = name_of_core(self.names, core) else {
                continue;
            };
            if let Some(found) = self.row_of(name, seq)? {
                words.next_line();
                words.say(format_args!("place {place} is {name}, line {}", found.line));
            }
        }
        Ok(())
    }

    /// The rows of these numbers, which rise, in the file of this name, as far as they are found.
    pub fn rows_of(&self, name: &str, numbers: &[u64]) -> Result<Vec<FoundRow>, AllocError> {
        if !numbers.is_empty() && self.is_regular(name)? {
            if let Some(readers) = self.read_twice(name)? {
                return find_rows(self.alloc, readers, numbers);
            }
        }
        Ok(Vec::new(self.alloc))
    }

    // What is wrong with the configuration, which is this if it is not plain text.
    fn reason_of_configuration(&self, fault: ConfigFault, foreign: Option<Foreign>) -> Reason<'a> {
        let name = &self.names.config;
        let mut words = Words::new(self.alloc);
        let text = match foreign {
            None => self.text_of(name, &mut words),
            Some(_) => None,
        };
        let line = tell_configuration(&mut words, self.alloc, name, fault, text.as_deref());
        tell_foreign(&mut words, name, foreign);
        Reason {
            words,
            file: Some(name.as_str()),
            line,
            row: None,
        }
    }

    // The text in the file of this name, read again for these words. None if it is not a regular file, or cannot be read.
    fn text_of(&self, name: &str, words: &mut Words) -> Option<Vec<u8>> {
        let text = match self.is_regular(name) {
            Ok(true) => unless_memory(open_text(self.rt, self.alloc, name)),
            Ok(false) => Ok(None),
            Err(refused) => Err(refused),
        };
        unless_refused(text, words)
    }

    // Where a row is: its file and its line, or its number if it is not found again.
    fn reason_of_row(&self, name: &'a str, number: u64) -> Reason<'a> {
        let mut words = Words::new(self.alloc);
        let row = unless_refused(self.row_of(name, number), &mut words);
        match &row {
            Some(row) => words.say(format_args!("{name}, line {}: ", row.line)),
            None => words.say(format_args!("{name}, row {number} (counted from 0): ")),
        }
        let line = match &row {
            Some(row) => Some(row.line),
            None => None,
        };
        Reason {
            words,
            file: Some(name),
            line,
            row,
        }
    }

    // The row of this number in the file of this name, read again. None if it is not a regular file: a pipe gives its text only once.
    fn row_of(&self, name: &str, number: u64) -> Result<Option<FoundRow>, AllocError> {
        if self.is_regular(name)? {
            if let Some(readers) = self.read_twice(name)? {
                return find_row(self.alloc, readers, number);
            }
        }
        Ok(None)
    }

    /// Finds the lines of the rows from this number on in the file of this name, as many as there is room for.
    pub fn find_lines(&self, name: &str, first: u64, lines: &mut [Option<u64>]) {
        if let (Ok(true), Ok(Some(readers))) = (self.is_regular(name), self.read_twice(name)) {
            find_lines(self.alloc, readers, first, lines);
        }
    }

    // The file of this name, opened once for its rows and once for its lines.
    pub(crate) fn read_twice(&self, name: &str) -> Result<Option<TwoReaders<F>>, AllocError> {
        let rows = unless_memory(open(self.rt, name))?;
        let lines = unless_memory(open(self.rt, name))?;
        match (rows, lines) {
            (Some(rows), Some(lines)) => Ok(Some(TwoReaders { rows, lines })),
            _ => Ok(None),
        }
    }

    // What the file of this name is, if it is not plain text. None if it is not a regular file. These words report a lack of memory.
    fn foreign_of(&self, name: &str, words: &mut Words) -> Option<Foreign> {
        unless_refused(self.signature_of(name), words)
    }

    // What the file of this name is, by its first bytes, if it is not plain text.
    fn signature_of(&self, name: &str) -> Result<Option<Foreign>, AllocError> {
        if !self.is_regular(name)? {
            return Ok(None);
        }
        let file: Option<F> = unless_memory(open(self.rt, name))?;
        let Some(mut file) = file else {
            return Ok(None);
        };
        let mut first = [0u8; LONGEST_SIGNATURE];
        match file.read(&mut first) {
            Ok(count) => Ok(Foreign::of(&first[..count.min(LONGEST_SIGNATURE)])),
            Err(_) => Ok(None),
        }
    }

    // Whether a file can be read again.
    pub(crate) fn is_regular(&self, name: &str) -> Result<bool, AllocError> {
        match unless_memory(fs::metadata(self.rt, name))? {
            Some(metadata) => Ok(metadata.is_file()),
            None => Ok(false),
        }
    }
}

// The answer of the system, or none if it is a refusal. A refusal of memory is an error.
fn unless_memory<T: Drop>(answer: io::Result<T>) -> Result<Option<T>, AllocError> {
    match answer {
        Ok(value) => Ok(Some(value)),
        Err(e) if e.kind() == ErrorKind::OutOfMemory => Err(AllocError),
        Err(_) => Ok(None),
    }
}

// What was found for these words. If memory was refused, nothing is found, and the words report it.
fn unless_refused<T: Drop>(found: Result<Option<T>, AllocError>, words: &mut Words) -> Option<T> {
    match found {
        Ok(found) => found,
        Err(_) => {
            words.note_lack_of_memory();
            None
        }
    }
}

// The fields of a row.
fn fields_of(row: Option<&FoundRow>) -> Option<&RowFields> {
    match row {
        Some(row) => Some(&row.fields),
        None => None,
    }
}

// A row of a recording, whose number is this one.
fn row_with(number: u64, row: Option<&FoundRow>) -> Option<Row<'_>> {
    match (row, u32::try_from(number)) {
        (Some(row), Ok(number)) => Some(Row {
            format: row.format,
            number,
            fields: &row.fields,
        }),
        _ => None,
    }
}

// The core and the number of the record that a row of the certificate names.
fn pair_named(fields: &RowFields) -> Option<(u32, u64)> {
    let core = read_decimal(fields.get(0)?, u32::MAX as u64)?;
    let seq = read_decimal(fields.get(1)?, u32::MAX as u64)?;
    Some((core as u32, seq))
}

// The number of the record that a row of the certificate names.
fn number_named(fields: Option<&RowFields>) -> Option<u64> {
    let fields = fields?;
    read_decimal(fields.get(1)?, u32::MAX as u64)
}

/// The name of the file with a core's recording.
pub fn name_of_core(names: &InputNames, core: u32) -> Option<&str>
    ensures { option_map (λ name. name.now) result ≡ slice_get (map string_bytes names.now.cores.items) core }
{
    match names.cores.get(core as usize) {
        Some(name) => Some(name.as_str()),
        None => None,
    }
}
