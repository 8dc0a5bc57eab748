// The words of a refused command line, which are read again.

use crate::complaint::Complaint;
use crate::options::{HELP, Need, ProgramOption, SHORT_HELP, Takes, VERSION};
use crate::program::Program;
use csv_rows::read_decimal;
use record_read::find_service;
use std::alloc::{AllocError, Global};

/// Whether the help is requested: by a word before `--`. The first word is the program's own name.
pub fn requests_help(given: &[String]) -> bool {
    for word in given.iter().skip(1) {
        match word.as_str() {
            "--" => return false,
            HELP | SHORT_HELP => return true,
            _ => {}
        }
    }
    false
}

/// What is wrong with the words of a command line, as far as they were read.
#[derive(Drop)]
pub struct CommandLine<'a> {
    program: Program,
    words: &'a [String],
    // The index of the next word.
    next: usize,
    // The names of the options so far.
    seen: Vec<&'static str>,
    recordings: usize,
}

impl<'a> CommandLine<'a> {
    /// The words of a command line. The first is the program's own name.
    pub fn new(alloc: Global, program: Program, words: &'a [String]) -> CommandLine<'a> {
        CommandLine {
            program,
            words,
            next: 1,
            seen: Vec::new(alloc),
            recordings: 0,
        }
    }

    /// The first thing that is wrong.
    pub fn complaint(mut self) -> Result<Complaint<'a>, AllocError> {
        for _ in 0..self.words.len() {
            let Some(word) = self.take() else {
                break;
            };
            if word == "--" {
                let after = self.words.len().saturating_sub(self.next);
                self.recordings = self.recordings.saturating_add(after);
                break;
            }
            if !looks_like_option(word) {
                if !self.program.takes_recordings() {
                    return Ok(Complaint::Unknown(word));
                }
                self.recordings = self.recordings.saturating_add(1);
            } else if let Some(complaint) = self.read_option(word)? {
                return Ok(complaint);
            }
        }
        Ok(self.missing())
    }

    // The next word, which is moved past.
    fn take(&mut self) -> Option<&'a str> {
        let word = self.words.get(self.next)?;
        self.next = self.next.saturating_add(1);
        Some(word.as_str())
    }

    // Reads an option with its value, and returns what is wrong with it.
    fn read_option(&mut self, word: &'a str) -> Result<Option<Complaint<'a>>, AllocError> {
        let (name, attached) = match word.split_once("=") {
            Some((name, value)) => (name, Some(value)),
            None => (word, None),
        };
        if name == VERSION {
            return Ok(Some(Complaint::VersionWithOthers));
        }
        let options = self.program.options();
        let Some(option) = options.iter().find(|option| option.name == name) else {
            return Ok(Some(Complaint::Unknown(name)));
        };
        if self.seen.contains(&option.name) {
            return Ok(Some(Complaint::Twice(option.name)));
        }
        self.seen.push(option.name)?;
        Ok(self.read_value(option, attached))
    }

    // Reads the value of an option, and returns what is wrong with it. It may be attached to the option's word.
    fn read_value(
        &mut self,
        option: &'static ProgramOption,
        attached: Option<&'a str>,
    ) -> Option<Complaint<'a>> {
        let value = match (option.takes, attached) {
            (Takes::Nothing, None) => return None,
            (Takes::Nothing, Some(_)) => return Some(Complaint::NeedlessValue(option.name)),
            (_, Some(value)) => value,
            (_, None) => match self.take() {
                Some(value) if !begins_option(option.takes, value) => value,
                _ => return Some(Complaint::NoValue(option.name)),
            },
        };
        if is_value(option.takes, value) {
            None
        } else {
            Some(Complaint::BadValue { option, value })
        }
    }

    // What is required and missing, or is not alone although it must be.
    fn missing(&self) -> Complaint<'a> {
        for option in self.program.options() {
            if option.need == Need::Alone && self.seen.contains(&option.name) {
                return self.wrong_beside(option.name);
            }
        }
        for option in self.program.options() {
            if option.need == Need::Required && !self.seen.contains(&option.name) {
                return Complaint::Missing(option.name);
            }
        }
        if self.recordings == 0 && self.program.takes_recordings() {
            Complaint::NoRecording
        } else {
            Complaint::Other
        }
    }

    // What is wrong beside an option that must be alone.
    fn wrong_beside(&self, option: &'static str) -> Complaint<'a> {
        if self.seen.len() == 1 && self.recordings == 0 && self.program.takes_recordings() {
            Complaint::NoRecording
        } else {
            Complaint::NotAlone(option)
        }
    }
}

// Whether a word is written as an option. A hyphen alone is not.
fn looks_like_option(word: &str) -> bool {
    word.starts_with("-") && word != "-"
}

// Whether a word after an option cannot be its value. A negative number is taken for a value, and then refused as one.
fn begins_option(takes: Takes, word: &str) -> bool {
    match takes {
        Takes::Number(_) => word.starts_with("--"),
        _ => looks_like_option(word),
    }
}

// Whether an option may have this value.
fn is_value(takes: Takes, value: &str) -> bool {
    match takes {
        Takes::Nothing => false,
        Takes::File => true,
        Takes::Number(bounds) => match read_decimal(value.as_bytes(), bounds.most) {
            Some(number) => number >= bounds.least,
            None => false,
        },
        Takes::Service => find_service(value.as_bytes()).is_some(),
        Takes::OneOf(allowed) => allowed.contains(&value),
    }
}
