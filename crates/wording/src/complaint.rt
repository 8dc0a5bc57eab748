// What is wrong with a command line, in words.

use crate::naming::Found;
use crate::options::{HELP, ProgramOption, Takes, VERSION};
use crate::program::Program;
use crate::words::{Part, Words};
use apex_types::SERVICES;
use std::alloc::{AllocError, Global};
use std::str;

/// What is wrong with a command line.
#[derive(Clone, Copy, Debug)]
pub enum Complaint<'a> {
    /// This word is not an option.
    Unknown(&'a str),
    /// `--version` is not the only argument.
    VersionWithOthers,
    /// This option is given twice.
    Twice(&'static str),
    /// This option has no value, and must have one.
    NoValue(&'static str),
    /// This option has a value, and may not have one.
    NeedlessValue(&'static str),
    /// An option may not have this value.
    BadValue {
        option: &'static ProgramOption,
        value: &'a str,
    },
    /// This option is required, and missing.
    Missing(&'static str),
    /// This option has others beside it, and must be the only one.
    NotAlone(&'static str),
    /// No recording is named.
    NoRecording,
    /// Nothing that is found here.
    Other,
}

impl Complaint<'_> {
    /// Adds it to the words.
    pub fn tell(&self, words: &mut Words, alloc: Global, program: Program) {
        match self {
            Complaint::Unknown(word) => tell_unknown(words, alloc, program, word),
            Complaint::VersionWithOthers => {
                words.say(format_args!("{VERSION} must be the only argument"));
            }
            Complaint::Twice(name) => words.say(format_args!("{name} is given twice")),
            Complaint::NoValue(name) => words.say(format_args!("{name} has no value")),
            Complaint::NeedlessValue(name) => words.say(format_args!("{name} takes no value")),
            Complaint::BadValue { option, value } => tell_value(words, alloc, option, value),
            Complaint::Missing(name) => words.say(format_args!("{name} is missing")),
            Complaint::NotAlone(name) => words.say(format_args!("{name} must be the only option")),
            Complaint::NoRecording => words.say("no recording is named"),
            Complaint::Other => words.say("the arguments do not match the usage"),
        }
    }
}

// Reports a word that is not an option of a program.
fn tell_unknown(words: &mut Words, alloc: Global, program: Program, word: &str) {
    words.say_part(Part::Recorded, Found(word.as_bytes()));
    words.say(" is not an option");
    match option_names(alloc, program) {
        Ok(names) => words.suggest(word, names.as_slice()),
        Err(_) => words.note_lack_of_memory(),
    }
}

// Reports a value that an option may not have.
fn tell_value(words: &mut Words, alloc: Global, option: &ProgramOption, value: &str) {
    words.say(format_args!("{} is ", option.name));
    words.say_part(Part::Recorded, Found(value.as_bytes()));
    words.say("; expected ");
    words.begin_part(Part::Expected);
    tell_expected(words, option.takes);
    words.end_part();
    match option.takes {
        Takes::OneOf(allowed) => words.suggest(value, allowed),
        Takes::Service => match service_names(alloc) {
            Ok(names) => words.suggest(value, names.as_slice()),
            Err(_) => words.note_lack_of_memory(),
        },
        Takes::Nothing | Takes::File | Takes::Number(_) => {}
    }
}

// Reports what the value of an option must be.
fn tell_expected(words: &mut Words, takes: Takes) {
    match takes {
        Takes::Nothing => words.say("no value"),
        Takes::File => words.say("the name of a file"),
        Takes::Number(bounds) => words.say(format_args!(
            "a {} from {} to {}",
            bounds.what, bounds.least, bounds.most
        )),
        Takes::Service => words.say("the name of a service"),
        Takes::OneOf(allowed) => tell_choice(words, allowed),
    }
}

// Lists what is allowed: `html, svg or trace`.
fn tell_choice(words: &mut Words, allowed: &[&str]) {
    let Some((last, others)) = allowed.split_last() else {
        return;
    };
    let mut is_first = true;
    for word in others {
        words.say(if is_first { "" } else { ", " });
        words.say(*word);
        is_first = false;
    }
    words.say(if is_first { "" } else { " or " });
    words.say(*last);
}

// The names of the options of a program.
fn option_names(alloc: Global, program: Program) -> Result<Vec<&'static str>, AllocError> {
    let mut names = Vec::new(alloc);
    for option in program.options() {
        names.push(option.name)?;
    }
    names.push(VERSION)?;
    names.push(HELP)?;
    Ok(names)
}

// The names of the services.
fn service_names(alloc: Global) -> Result<Vec<&'static str>, AllocError> {
    let mut names = Vec::new(alloc);
    for row in &SERVICES {
        if let Ok(name) = str::from_utf8(row.name) {
            names.push(name)?;
        }
    }
    Ok(names)
}
