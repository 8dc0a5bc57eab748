// The words of the command line.

use apex_types::{Cause, Format};
use clap::error::ErrorKind;
use clap::{Arg, ArgAction, ArgMatches, Command};
use csv_rows::read_decimal;
use recording_maker::WalkPlan;
use std::alloc::{AllocError, Global};
use std::rt::Env;
use std::{env, io};

/// The greatest seed.
pub const GREATEST_SEED: u64 = 4_294_967_295;

/// The most records of a run.
pub const MOST_RECORDS: u64 = 4_294_967_295;

// The causes by their names.
const CAUSES: [(&str, Cause); 14] = [
    ("Names", Cause::Names),
    ("Skew", Cause::Skew),
    ("Idle", Cause::Idle),
    ("Window", Cause::Window),
    ("Deadline", Cause::Deadline),
    ("Choice", Cause::Choice),
    ("Return", Cause::Return),
    ("OutsideProfile", Cause::OutsideProfile),
    ("Prio", Cause::Prio),
    ("Chan", Cause::Chan),
    ("Out", Cause::Out),
    ("Val", Cause::Val),
    ("Data", Cause::Data),
    ("Woken", Cause::Woken),
];

/// What the command line requests.
#[derive(Debug, Drop)]
pub enum Asked {
    /// The one word is `--version`.
    Version,
    /// The one word is `--help` or `-h`.
    Help,
    /// The configuration of a module, by this seed.
    Module(u64),
    /// Recordings of a module.
    Run(RunAsked),
}

/// Recordings of a module, as the command line requests them.
#[derive(Debug, Drop)]
pub struct RunAsked {
    /// The file of the configuration.
    pub config: String,
    /// The folder for what is made.
    pub folder: String,
    /// What is made.
    pub plan: WalkPlan,
}

/// Why a command line requests nothing that can be done.
#[derive(Clone, Copy, Debug, PartialEq, Eq)]
pub enum UsageFault {
    /// The words are not those of the usage. A word that is not UTF-8 is not one of them.
    Usage,
    /// Memory was refused.
    Memory,
}

impl From<AllocError> for UsageFault {
    fn from(_: AllocError) -> UsageFault {
        UsageFault::Memory
    }
}

/// Reads the words that were given to the program.
pub fn from_words(rt: &(impl Env + AllocGlobal), alloc: Global) -> Result<Asked, UsageFault> {
    let words: Vec<String> = match env::args(rt) {
        Ok(words) => match words.collect(alloc) {
            Ok(words) => words,
            Err(_) => return Err(UsageFault::Memory),
        },
        Err(e) if e.kind() == io::ErrorKind::OutOfMemory => return Err(UsageFault::Memory),
        Err(_) => return Err(UsageFault::Usage),
    };
    match words.as_slice() {
        [_, word] if word.as_str() == "--version" => Ok(Asked::Version),
        [_, word] if word.as_str() == "--help" || word.as_str() == "-h" => Ok(Asked::Help),
        [_, word, seed] if word.as_str() == "--module" => Ok(Asked::Module(seed_of(seed)?)),
        [_, word] if word.as_str().starts_with("--module=") => {
            let seed = word.as_str().strip_prefix("--module=").unwrap_or("");
            Ok(Asked::Module(seed_of(seed)?))
        }
        words => Ok(Asked::Run(run_asked(alloc, words)?)),
    }
}

// The seed that a word gives.
fn seed_of(word: &str) -> Result<u64, UsageFault> {
    read_decimal(word.as_bytes(), GREATEST_SEED).ok_or(UsageFault::Usage)
}

// The recordings that the words request.
fn run_asked(alloc: Global, words: &[String]) -> Result<RunAsked, UsageFault> {
    let Ok(command) = command(alloc) else {
        return Err(UsageFault::Memory);
    };
    match command.try_get_matches_from(words) {
        Ok(matches) => asked_in(alloc, &matches),
        Err(e) => match e.kind() {
            ErrorKind::OutOfMemory => Err(UsageFault::Memory),
            _ => Err(UsageFault::Usage),
        },
    }
}

// The recordings that the parser found in the words.
fn asked_in(alloc: Global, matches: &ArgMatches<'_>) -> Result<RunAsked, UsageFault> {
    let spoil = match matches.get_str("spoil") {
        Some(name) => Some(cause_of(name)?),
        None => None,
    };
    let format = match matches.get_str("format") {
        Some(name) => format_of(name)?,
        None => Format::Three,
    };
    let records = read_decimal(text_of(matches, "records")?.as_bytes(), MOST_RECORDS).ok_or(
        UsageFault::Usage,
    )?;
    if records == 0 {
        return Err(UsageFault::Usage);
    }
    Ok(RunAsked {
        config: String::from_str(alloc, text_of(matches, "config")?)?,
        folder: String::from_str(alloc, text_of(matches, "out")?)?,
        plan: WalkPlan {
            seed: seed_of(text_of(matches, "seed")?)?,
            records,
            format,
            spoil,
        },
    })
}

// The text that is given to an option, which must be there.
fn text_of<'a>(matches: &ArgMatches<'a>, name: &str) -> Result<&'a str, UsageFault> {
    match matches.get_str(name) {
        Some(text) => Ok(text),
        None => Err(UsageFault::Usage),
    }
}

// The cause of this name.
fn cause_of(name: &str) -> Result<Cause, UsageFault> {
    for (known, cause) in CAUSES {
        if known == name {
            return Ok(cause);
        }
    }
    Err(UsageFault::Usage)
}

// The format of this number.
fn format_of(number: &str) -> Result<Format, UsageFault> {
    match number {
        "1" => Ok(Format::One),
        "2" => Ok(Format::Two),
        "3" => Ok(Format::Three),
        _ => Err(UsageFault::Usage),
    }
}

// The words of a run: no option twice, and no other words.
fn command<'a>(alloc: Global) -> Result<Command<'a>, AllocError> {
    Command::new(alloc, "apexmake")
        .disable_help_flag(true)
        .arg(option(alloc, "config").required(true))?
        .arg(option(alloc, "seed").required(true))?
        .arg(option(alloc, "records").required(true))?
        .arg(option(alloc, "out").required(true))?
        .arg(option(alloc, "format"))?
        .arg(option(alloc, "spoil"))
}

// The option of this name, which has a value.
fn option<'a>(alloc: Global, name: &'static str) -> Arg<'a> {
    Arg::new(alloc, name).long(name).action(ArgAction::Set)
}
