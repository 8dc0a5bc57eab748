// The words of the command line.

use crate::names::OrderNames;
use asked_rules::RuleOptions;
use clap::error::ErrorKind;
use clap::{Arg, ArgAction, ArgMatches, Command};
use csv_rows::read_decimal;
use program_ends::UsageFault;
use std::alloc::{AllocError, Global};
use std::rt::Env;
use std::{env, io};

/// How many records may be tried for each one placed, if `--effort` is omitted.
pub const USUAL_EFFORT: u64 = 1_000;

/// What the command line requests.
#[derive(Debug, Drop)]
pub enum Asked {
    /// The one word is `--version`.
    Version,
    /// The one word is `--help` or `-h`.
    Help,
    /// An order of the recordings in files.
    Order(OrderAsked),
}

/// A search for an order, as the command line requests it.
#[derive(Debug, Drop)]
pub struct OrderAsked {
    /// The files.
    pub names: OrderNames,
    /// The rules that are requested by options of their own.
    pub options: RuleOptions,
    /// How many records may be tried for each one placed.
    pub effort: u64,
    /// Whether standard error shows no progress, and not what stops each core.
    pub quiet: bool,
}

/// Reads the words that were given to the program.
pub fn from_words(rt: &(impl Env + AllocGlobal), alloc: Global) -> Result<Asked, UsageFault> {
    let words: Vec<String> = match env::args(rt) {
        Ok(words) => match words.collect(alloc) {
            Ok(words) => words,
            Err(_) => return Err(UsageFault::Memory),
        },
        Err(e) if e.kind() == io::ErrorKind::OutOfMemory => return Err(UsageFault::Memory),
        Err(_) => return Err(UsageFault::Usage),
    };
    match words.as_slice() {
        [_, word] if word.as_str() == "--version" => Ok(Asked::Version),
        [_, word] if word.as_str() == "--help" || word.as_str() == "-h" => Ok(Asked::Help),
        words => Ok(Asked::Order(order_asked(alloc, words)?)),
    }
}

// The search that the words request.
fn order_asked(alloc: Global, words: &[String]) -> Result<OrderAsked, UsageFault> {
    let Ok(command) = command(alloc) else {
        return Err(UsageFault::Memory);
    };
    match command.try_get_matches_from(words) {
        Ok(matches) => asked_in(alloc, &matches),
        Err(e) => match e.kind() {
            ErrorKind::OutOfMemory => Err(UsageFault::Memory),
            _ => Err(UsageFault::Usage),
        },
    }
}

// The search that the parser found in the words.
fn asked_in(alloc: Global, matches: &ArgMatches<'_>) -> Result<OrderAsked, UsageFault> {
    let Some(config) = matches.get_str("config") else {
        return Err(UsageFault::Usage);
    };
    let Some(cores) = matches.get_strs("core") else {
        return Err(UsageFault::Usage);
    };
    let effort = match matches.get_str("effort") {
        Some(text) => read_decimal(text.as_bytes(), u32::MAX as u64).ok_or(UsageFault::Usage)?,
        None => USUAL_EFFORT,
    };
    let rules = match matches.get_str("rules") {
        Some(name) => Some(String::from_str(alloc, name)?),
        None => None,
    };
    let max_elapsed = bytes_of(matches, "max-elapsed");
    let forbidden = bytes_of(matches, "forbid");
    Ok(OrderAsked {
        names: OrderNames {
            config: String::from_str(alloc, config)?,
            rules,
            cores: owned(alloc, cores)?,
        },
        options: RuleOptions::read(max_elapsed, forbidden).ok_or(UsageFault::Usage)?,
        effort,
        quiet: matches.get_flag("quiet"),
    })
}

// The text that is given to an option, if there is one.
fn bytes_of<'a>(matches: &ArgMatches<'a>, name: &str) -> Option<&'a [u8]> {
    match matches.get_str(name) {
        Some(text) => Some(text.as_bytes()),
        None => None,
    }
}

// Owned texts.
fn owned(alloc: Global, texts: &[&str]) -> Result<Vec<String>, AllocError> {
    let mut owned = Vec::new(alloc);
    for text in texts {
        owned.push(String::from_str(alloc, text)?)?;
    }
    Ok(owned)
}

// The words of a run: no option twice, and at least one CORE.
fn command<'a>(alloc: Global) -> Result<Command<'a>, AllocError> {
    Command::new(alloc, "apexorder")
        .disable_help_flag(true)
        .arg(option(alloc, "config").required(true))?
        .arg(option(alloc, "effort"))?
        .arg(option(alloc, "max-elapsed"))?
        .arg(option(alloc, "forbid"))?
        .arg(option(alloc, "rules"))?
        .arg(flag(alloc, "quiet"))?
        .arg(recordings(alloc))
}

// The recordings, at least one.
fn recordings<'a>(alloc: Global) -> Arg<'a> {
    Arg::new(alloc, "core")
        .required(true)
        .num_args(1..)
        .action(ArgAction::Append)
}

// The option of this name, which has a value.
fn option<'a>(alloc: Global, name: &'static str) -> Arg<'a> {
    Arg::new(alloc, name).long(name).action(ArgAction::Set)
}

// The flag of this name, which has no value.
fn flag<'a>(alloc: Global, name: &'static str) -> Arg<'a> {
    Arg::new(alloc, name).long(name).action(ArgAction::SetTrue)
}
