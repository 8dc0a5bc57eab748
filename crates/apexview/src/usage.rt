// The words of the command line.

use answer_words::InputNames;
use asked_rules::RuleOptions;
use clap::error::ErrorKind;
use clap::{Arg, ArgAction, ArgMatches, Command};
use csv_rows::read_decimal;
use program_ends::UsageFault;
use shown_run::FilesAsked;
use std::alloc::{AllocError, Global};
use std::rt::Env;
use std::{env, io};
use view_drawing::{Axis, Format, ViewAsked};

/// How many records a picture shows before its end: if `--span` is omitted, and at most.
const USUAL_SPAN: usize = 200;

const LONGEST_SPAN: u64 = 5_000;

/// The greatest place.
const LAST_PLACE: u64 = u64::MAX / 4;

/// What the command line requests.
#[derive(Debug, Drop)]
pub enum Asked {
    /// The one word is `--version`.
    Version,
    /// The one word is `--help` or `-h`.
    Help,
    /// These files of a run should be shown, in this way.
    Files { files: FilesAsked, view: ViewAsked },
}

/// Reads the words that were given to the program.
pub fn from_words(rt: &(impl Env + AllocGlobal), alloc: Global) -> Result<Asked, UsageFault> {
    let words: Vec<String> = match env::args(rt) {
        Ok(words) => words.collect(alloc)?,
        Err(e) if e.kind() == io::ErrorKind::OutOfMemory => return Err(UsageFault::Memory),
        Err(_) => return Err(UsageFault::Usage),
    };
    read_words(alloc, words.as_slice())
}

// Reads what these words request. The first word is the program's own name.
fn read_words(alloc: Global, words: &[String]) -> Result<Asked, UsageFault> {
    match words {
        [_, word] if word.as_str() == "--version" => Ok(Asked::Version),
        [_, word] if word.as_str() == "--help" || word.as_str() == "-h" => Ok(Asked::Help),
        words => read_files(alloc, words),
    }
}

// Reads which files of a run should be shown, and how.
fn read_files(alloc: Global, words: &[String]) -> Result<Asked, UsageFault> {
    let Ok(command) = command(alloc) else {
        return Err(UsageFault::Memory);
    };
    let matches = match command.try_get_matches_from(words) {
        Ok(matches) => matches,
        Err(e) => {
            return match e.kind() {
                ErrorKind::OutOfMemory => Err(UsageFault::Memory),
                _ => Err(UsageFault::Usage),
            };
        }
    };
    Ok(Asked::Files {
        files: files_of(alloc, &matches)?,
        view: view_of(&matches)?,
    })
}

fn files_of(alloc: Global, matches: &ArgMatches<'_>) -> Result<FilesAsked, UsageFault> {
    let max_elapsed = bytes_of(matches, "max-elapsed");
    let forbidden = bytes_of(matches, "forbid");
    Ok(FilesAsked {
        names: file_names(alloc, matches)?,
        options: RuleOptions::read(max_elapsed, forbidden).ok_or(UsageFault::Usage)?,
    })
}

fn view_of(matches: &ArgMatches<'_>) -> Result<ViewAsked, UsageFault> {
    Ok(ViewAsked {
        format: format_of(matches)?,
        axis: axis_of(matches)?,
        at: at_of(matches)?,
        span: span_of(matches)?,
    })
}

// The text that is given to an option, if there is one.
fn bytes_of<'a>(matches: &ArgMatches<'a>, name: &str) -> Option<&'a [u8]> {
    match matches.get_str(name) {
        Some(text) => Some(text.as_bytes()),
        None => None,
    }
}

fn format_of(matches: &ArgMatches<'_>) -> Result<Format, UsageFault> {
    match matches.get_str("format") {
        None | Some("html") => Ok(Format::Html),
        Some("svg") => Ok(Format::Svg),
        Some("trace") => Ok(Format::Trace),
        Some("summary") => Ok(Format::Summary),
        Some("json") => Ok(Format::Json),
        Some(_) => Err(UsageFault::Usage),
    }
}

fn axis_of(matches: &ArgMatches<'_>) -> Result<Axis, UsageFault> {
    match matches.get_str("axis") {
        None | Some("place") => Ok(Axis::Place),
        Some("time") => Ok(Axis::Time),
        Some(_) => Err(UsageFault::Usage),
    }
}

fn at_of(matches: &ArgMatches<'_>) -> Result<Option<u64>, UsageFault> {
    match bytes_of(matches, "at") {
        None => Ok(None),
        Some(text) => match read_decimal(text, LAST_PLACE) {
            Some(place) => Ok(Some(place)),
            None => Err(UsageFault::Usage),
        },
    }
}

fn span_of(matches: &ArgMatches<'_>) -> Result<usize, UsageFault> {
    match bytes_of(matches, "span") {
        None => Ok(USUAL_SPAN),
        Some(text) => match read_decimal(text, LONGEST_SPAN) {
            Some(0) | None => Err(UsageFault::Usage),
            Some(span) => Ok(span as usize),
        },
    }
}

// The files that a command line names.
fn file_names(alloc: Global, matches: &ArgMatches<'_>) -> Result<InputNames, UsageFault> {
    let (Some(config), Some(order), Some(cores)) = (
        matches.get_str("config"),
        matches.get_str("order"),
        matches.get_strs("core"),
    ) else {
        return Err(UsageFault::Usage);
    };
    let rules = match matches.get_str("rules") {
        Some(name) => Some(String::from_str(alloc, name)?),
        None => None,
    };
    let mut names = Vec::new(alloc);
    for core in cores {
        names.push(String::from_str(alloc, core)?)?;
    }
    Ok(InputNames {
        config: String::from_str(alloc, config)?,
        rules,
        order: String::from_str(alloc, order)?,
        cores: names,
    })
}

// The words of a run: no option twice, and at least one CORE.
fn command<'a>(alloc: Global) -> Result<Command<'a>, AllocError> {
    Command::new(alloc, "apexview")
        .disable_help_flag(true)
        .arg(option(alloc, "config").required(true))?
        .arg(option(alloc, "order").required(true))?
        .arg(option(alloc, "format"))?
        .arg(option(alloc, "axis"))?
        .arg(option(alloc, "at"))?
        .arg(option(alloc, "span"))?
        .arg(option(alloc, "max-elapsed"))?
        .arg(option(alloc, "forbid"))?
        .arg(option(alloc, "rules"))?
        .arg(
            Arg::new(alloc, "core")
                .required(true)
                .num_args(1..)
                .action(ArgAction::Append),
        )
}

// The option of this name, which has a value.
fn option<'a>(alloc: Global, name: &'static str) -> Arg<'a> {
    Arg::new(alloc, name).long(name).action(ArgAction::Set)
}
