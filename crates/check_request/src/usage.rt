// The words of the command line.

ghost use Rattle.std.specs.Prelude.{◌≡◌, ◌≢◌, ◌<◌, ◌≤◌, ◌||◌, [], IfErr, IfOk, IsTrue, None, Ok, Some, codes, false, is_some, length, map, option_and_then, option_map, string_bytes, true};
ghost use Rattle.std.specs.Option.{ok_or};
ghost use Rattle.clap.specs.Takes.{takes};
ghost use Rattle.clap.specs.Walk.{rows_of};
ghost use Rattle.clap.specs.Words.{app_of, first_value, found_of, one_text, rule_of};
ghost use Rattle.asked_rules.specs.Options.{values_of};
ghost use Rattle.check_request.specs.CommandLine.{command_line, flag_of, found_in, option_of, recordings};
ghost use Rattle.check_request.specs.Settings.{least_of, settings_of};
ghost use Rattle.check_request.specs.Words.{AreNamed, AsksFor, AsksForFiles, AsksForRows, NamesRecordings, asks_rows, asks_version};
ghost use Rattle.check_request.specs.Wrong.{IsRefused, IsWrong, LacksFiles};

use crate::settings::{read_least, read_settings};
use answer_words::InputNames;
use asked_rules::RuleOptions;
use clap::error::ErrorKind;
use clap::{Arg, ArgAction, ArgMatches, Command};
use program_ends::UsageFault;
use report::Settings;
use std::alloc::{AllocError, Global};

/// What the command line requests.
#[derive(Debug, Drop)]
pub enum Asked {
    /// There are no words: the stored run.
    StoredRun,
    /// The one word is `--version`.
    Version,
    /// The first word is `--rows`: the rows of recordings alone.
    Rows(InputNames),
    /// The run whose texts are in files.
    Files(FilesAsked),
}

/// A run over files, as the command line requests it.
#[derive(Debug, Drop)]
pub struct FilesAsked {
    /// The files that hold its texts.
    pub names: InputNames,
    /// Where the outcome is written as a SARIF log, if it is.
    pub sarif: Option<String>,
    /// The folder from which the log names its files, if one is given.
    pub source_root: Option<String>,
    /// Where the answer is written as JSON, if it is.
    pub json: Option<String>,
    /// The rules that are requested by options of their own.
    pub options: RuleOptions,
    /// How the check is carried out.
    pub settings: Settings,
    /// How many records a Yes must have, if a number is given.
    pub at_least: Option<u64>,
    /// Whether the last records before the place of a No are requested.
    pub last: bool,
    /// Whether standard error should not explain why the answer is not Yes.
    pub quiet: bool,
}

impl FilesAsked {
    /// Whether the outcome is written to a file.
    pub fn writes_file(&self) -> bool
        ensures { result ≡ (is_some self.now.sarif || is_some self.now.json) }
    {
        self.sarif.is_some() || self.json.is_some()
    }
}

/// Reads what these words request. The first word is the program's own name.
pub fn read_words(alloc: Global, words: &[String]) -> Result<Asked, UsageFault>
    ensures stored { length words.now ≤ 1 → result ≡ Ok Asked.StoredRun }
    ensures version { asks_version (map string_bytes words.now) ≡ true → result ≡ Ok Asked.Version }
    ensures rows { asks_rows (map string_bytes words.now) ≡ true → IfOk result (AsksForRows (map string_bytes words.now)) }
    ensures files { 1 < length words.now → asks_version (map string_bytes words.now) ≡ false → asks_rows (map string_bytes words.now) ≡ false → IfOk result (AsksForFiles (found_in (map string_bytes words.now))) }
    ensures refused { IfErr result (λ fault. fault ≡ UsageFault.Usage → IsRefused (map string_bytes words.now)) }
{
    match words {
        [] | [_] => Ok(Asked::StoredRun),
        words if is_version(words) => Ok(Asked::Version),
        [_, first, names @ ..] if first.as_str() == "--rows" => rows_asked(alloc, names),
        words => run_over_files(alloc, words),
    }
}

// Whether the one word after the program's own name requests the version.
fn is_version(words: &[String]) -> bool
    ensures { result ≡ asks_version (map string_bytes words.now) }
{
    match words {
        [_, word] => word.as_str() == "--version",
        _ => false,
    }
}

// The rows of the recordings of these names, of which there must be one.
fn rows_asked(alloc: Global, names: &[String]) -> Result<Asked, UsageFault>
    ensures asked { IfOk result (NamesRecordings (map string_bytes names.now)) }
    ensures refused { IfErr result (λ fault. fault ≡ UsageFault.Usage → names.now ≡ []) }
{
    if names.is_empty() {
        return Err(UsageFault::Usage);
    }
    match names_alone(alloc, names) {
        Ok(names) => Ok(Asked::Rows(names)),
        Err(_) => Err(UsageFault::Memory),
    }
}

// The names of these recordings, and of no other file.
fn names_alone(alloc: Global, names: &[String]) -> Result<InputNames, AllocError>
    ensures { IfOk result (λ given. map string_bytes given.cores.items ≡ map string_bytes names.now) }
{
    let mut cores = Vec::new(alloc);
    for name in names {
        cores.push(String::from_str(alloc, name)?)?;
    }
    Ok(InputNames {
        config: String::new(alloc),
        rules: None,
        order: String::new(alloc),
        cores,
    })
}

// A run over files, as the words request it. The first word is the program's own name.
fn run_over_files(alloc: Global, words: &[String]) -> Result<Asked, UsageFault>
    ensures asked { IfOk result (AsksForFiles (found_in (map string_bytes words.now))) }
    ensures refused { IfErr result (λ fault. fault ≡ UsageFault.Usage → IsWrong (map string_bytes words.now)) }
{
    Ok(Asked::Files(files_asked(alloc, words)?))
}

// The files, the rules, the settings and the number of records that the words request.
fn files_asked(alloc: Global, words: &[String]) -> Result<FilesAsked, UsageFault>
    ensures asked { IfOk result (AsksFor (found_in (map string_bytes words.now))) }
    ensures refused { IfErr result (λ fault. fault ≡ UsageFault.Usage → IsWrong (map string_bytes words.now)) }
{
    let matches = parsed(alloc, words)?;
    Ok(FilesAsked {
        names: file_names(alloc, &matches)?,
        sarif: name_asked(alloc, &matches, "sarif")?,
        source_root: name_asked(alloc, &matches, "source-root")?,
        json: name_asked(alloc, &matches, "json")?,
        options: rule_options(&matches)?,
        settings: settings_asked(&matches)?,
        at_least: least_asked(&matches)?,
        last: asks_last(&matches),
        quiet: asks_quiet(&matches),
    })
}

// What the parser finds in the words.
fn parsed<'a>(alloc: Global, words: &'a [String]) -> Result<ArgMatches<'a>, UsageFault>
    ensures found { IfOk result (λ matches. rows_of (found_of matches) ≡ found_in (map string_bytes words.now)) }
    ensures refused { IfErr result (λ fault. fault ≡ UsageFault.Usage → ¬ IsTrue (takes command_line (map string_bytes words.now))) }
{
    let Ok(command) = command(alloc) else {
        return Err(UsageFault::Memory);
    };
    match command.try_get_matches_from(words) {
        Ok(matches) => Ok(matches),
        Err(e) => match e.kind() {
            ErrorKind::OutOfMemory => Err(UsageFault::Memory),
            _ => Err(UsageFault::Usage),
        },
    }
}

// The values of the options that say how the check is carried out.
fn settings_asked(matches: &ArgMatches<'_>) -> Result<Settings, UsageFault>
    ensures { result ≡ ok_or (option_and_then (λ workers. settings_of workers (first_value (found_of matches.now) (codes "depth"))) (first_value (found_of matches.now) (codes "workers"))) UsageFault.Usage }
{
    let workers = text_of(matches, "workers").ok_or(UsageFault::Usage)?;
    let depth = text_of(matches, "depth");
    read_settings(workers, depth).ok_or(UsageFault::Usage)
}

// The number of records that are required, if it is given.
fn least_asked(matches: &ArgMatches<'_>) -> Result<Option<u64>, UsageFault>
    ensures { result ≡ ok_or (least_of (first_value (found_of matches.now) (codes "at-least"))) UsageFault.Usage }
{
    read_least(text_of(matches, "at-least")).ok_or(UsageFault::Usage)
}

// Whether the last records are requested.
fn asks_last(matches: &ArgMatches<'_>) -> bool
    ensures given { one_text (found_of matches.now) (codes "last") ≡ Some (codes "true") → result ≡ true }
    ensures not_given { one_text (found_of matches.now) (codes "last") ≡ Some (codes "false") → result ≡ false }
    ensures none { one_text (found_of matches.now) (codes "last") ≡ None → result ≡ false }
{
    matches.get_flag("last")
}

// Whether no explanation is requested.
fn asks_quiet(matches: &ArgMatches<'_>) -> bool
    ensures given { one_text (found_of matches.now) (codes "quiet") ≡ Some (codes "true") → result ≡ true }
    ensures not_given { one_text (found_of matches.now) (codes "quiet") ≡ Some (codes "false") → result ≡ false }
    ensures none { one_text (found_of matches.now) (codes "quiet") ≡ None → result ≡ false }
{
    matches.get_flag("quiet")
}

// The values of the options that request rules.
fn rule_options(matches: &ArgMatches<'_>) -> Result<RuleOptions, UsageFault>
    ensures { result ≡ ok_or (values_of (first_value (found_of matches.now) (codes "max-elapsed")) (first_value (found_of matches.now) (codes "forbid"))) UsageFault.Usage }
{
    let max_elapsed = text_of(matches, "max-elapsed");
    let forbidden = text_of(matches, "forbid");
    RuleOptions::read(max_elapsed, forbidden).ok_or(UsageFault::Usage)
}

// The text that is given to an option, if there is one.
fn text_of<'a>(matches: &ArgMatches<'a>, name: &str) -> Option<&'a [u8]>
    ensures { option_map (λ text. text.now) result ≡ first_value (found_of matches.now) name.now }
{
    match matches.get_str(name) {
        Some(text) => Some(text.as_bytes()),
        None => None,
    }
}

// The files that a command line names.
fn file_names(alloc: Global, matches: &ArgMatches<'_>) -> Result<InputNames, UsageFault>
    ensures named { IfOk result (AreNamed (found_of matches.now)) }
    ensures refused { IfErr result (λ fault. fault ≡ UsageFault.Usage → LacksFiles (found_of matches.now)) }
{
    let Some(config) = matches.get_str("config") else {
        return Err(UsageFault::Usage);
    };
    let Some(order) = matches.get_str("order") else {
        return Err(UsageFault::Usage);
    };
    let Some(cores) = matches.get_strs("core") else {
        return Err(UsageFault::Usage);
    };
    let rules = matches.get_str("rules");
    match owned_names(alloc, config, rules, order, cores) {
        Ok(names) => Ok(names),
        Err(_) => Err(UsageFault::Memory),
    }
}

// Owned names of files.
fn owned_names(
    alloc: Global,
    config: &str,
    rules: Option<&str>,
    order: &str,
    cores: &[&str],
) -> Result<InputNames, AllocError>
    ensures config { IfOk result (λ names. string_bytes names.config ≡ config.now) }
    ensures rules { IfOk result (λ names. option_map string_bytes names.rules ≡ option_map (λ name. name.now) rules.entry) }
    ensures order { IfOk result (λ names. string_bytes names.order ≡ order.now) }
    ensures cores { IfOk result (λ names. map string_bytes names.cores.items ≡ map (λ name. name.now) cores.now) }
{
    Ok(InputNames {
        config: String::from_str(alloc, config)?,
        rules: owned_if_named(alloc, rules)?,
        order: String::from_str(alloc, order)?,
        cores: owned(alloc, cores)?,
    })
}

// The name that is given to the option of this name, if there is one.
fn name_asked(
    alloc: Global,
    matches: &ArgMatches<'_>,
    name: &str,
) -> Result<Option<String>, UsageFault>
    ensures named { IfOk result (λ named. option_map string_bytes named ≡ first_value (found_of matches.now) name.now) }
    ensures refused { IfErr result (λ fault. fault ≢ UsageFault.Usage) }
{
    match owned_if_named(alloc, matches.get_str(name)) {
        Ok(named) => Ok(named),
        Err(_) => Err(UsageFault::Memory),
    }
}

// An owned name, if a file is named.
fn owned_if_named(alloc: Global, name: Option<&str>) -> Result<Option<String>, AllocError>
    ensures { IfOk result (λ owned. option_map string_bytes owned ≡ option_map (λ name. name.now) name.entry) }
{
    match name {
        Some(name) => Ok(Some(String::from_str(alloc, name)?)),
        None => Ok(None),
    }
}

// Owned texts, unchanged.
fn owned(alloc: Global, texts: &[&str]) -> Result<Vec<String>, AllocError>
    ensures { IfOk result (λ owned. map string_bytes owned.items ≡ map (λ text. text.now) texts.now) }
{
    let mut owned = Vec::new(alloc);
    for text in texts {
        owned.push(String::from_str(alloc, text)?)?;
    }
    Ok(owned)
}

// The words of a run over files: no option twice, and at least one CORE.
fn command<'a>(alloc: Global) -> Result<Command<'a>, AllocError>
    ensures { IfOk result (λ command. app_of command ≡ command_line) }
{
    Command::new(alloc, "apexcheck")
        .disable_help_flag(true)
        .arg(option(alloc, "config").required(true))?
        .arg(option(alloc, "order").required(true))?
        .arg(option(alloc, "workers").required(true))?
        .arg(option(alloc, "depth"))?
        .arg(option(alloc, "max-elapsed"))?
        .arg(option(alloc, "forbid"))?
        .arg(option(alloc, "rules"))?
        .arg(option(alloc, "at-least"))?
        .arg(flag(alloc, "last"))?
        .arg(flag(alloc, "quiet"))?
        .arg(option(alloc, "sarif"))?
        .arg(option(alloc, "source-root"))?
        .arg(option(alloc, "json"))?
        .arg(recordings(alloc))
}

// The recordings, at least one.
fn recordings<'a>(alloc: Global) -> Arg<'a>
    ensures rule { rule_of result ≡ recordings }
    ensures local { result.global ≡ false }
{
    Arg::new(alloc, "core")
        .required(true)
        .num_args(1..)
        .action(ArgAction::Append)
}

// The option of this name, which has a value.
fn option<'a>(alloc: Global, name: &'static str) -> Arg<'a>
    ensures rule { rule_of result ≡ option_of name.now }
    ensures local { result.global ≡ false }
{
    Arg::new(alloc, name).long(name).action(ArgAction::Set)
}

// The flag of this name, which has no value.
fn flag<'a>(alloc: Global, name: &'static str) -> Arg<'a>
    ensures rule { rule_of result ≡ flag_of name.now }
    ensures local { result.global ≡ false }
{
    Arg::new(alloc, name).long(name).action(ArgAction::SetTrue)
}
