// Where an answer is: in which file of the run, and on which line and in which row of it.

use crate::ending::CheckEnd;
use answer_words::{Explainer, Reason, RunFiles, name_of_core, open_text};
use placement::InputFault;
use program_ends::Ending;
use report::{ArgumentFault, CheckFault, Verdict};
use std::fs;
use std::fs::Files;
use std::io::Read;
use toml_explanation::Located;

/// A place in a file of a run: the line, counted from 1, if it is found, and the number of the row, counted from 0, if it is in one.
#[derive(Clone, Copy, Debug)]
pub struct Site<'a> {
    pub file: &'a str,
    pub line: Option<u64>,
    pub row: Option<u64>,
}

/// Where an answer other than Yes is. What concerns no file more than another is in the configuration.
pub fn site_of<'a, R: Files<File = F>, F: Read + Drop>(
    files: &RunFiles<'a, R>,
    ending: &Ending<CheckEnd>,
    explainer: &'a Explainer,
    reason: Option<&Reason<'a>>,
) -> Site<'a> {
    let names = files.names;
    let config = names.config.as_str();
    match ending {
        Ending::Unopened => in_file(explainer.unopened().unwrap_or(config), None),
        Ending::BadRules(_) | Ending::BadMemory { .. } | Ending::BadRule { .. } => in_file(
            names.rules.as_deref().unwrap_or(config),
            explainer.rules_line(),
        ),
        Ending::Own(CheckEnd::Checked { outcome, .. }) => {
            site_of_outcome(files, outcome, explainer, line_of(reason))
        }
        Ending::BadUsage
        | Ending::Own(CheckEnd::Few { .. } | CheckEnd::Rows(_) | CheckEnd::Version) => {
            in_file(config, None)
        }
    }
}

// Where the outcome of a check is, whose explanation has this line.
fn site_of_outcome<'a, R: Files<File = F>, F: Read + Drop>(
    files: &RunFiles<'a, R>,
    outcome: &Result<Verdict, CheckFault>,
    explainer: &Explainer,
    line: Option<u64>,
) -> Site<'a> {
    let config = files.names.config.as_str();
    match outcome {
        Ok(Verdict::No { pos, .. } | Verdict::Broken { pos, .. }) => {
            match explainer.explanation().record() {
                Some(record) => in_row(
                    name_of_core(files.names, u32::from(record.core.number())),
                    files,
                    line,
                    u64::from(record.seq),
                ),
                None => in_row(None, files, None, pos.number()),
            }
        }
        Ok(Verdict::Yes { .. }) | Err(CheckFault::Memory) => in_file(config, None),
        Err(CheckFault::Arguments(ArgumentFault::ReaderCount)) => in_file(
            config,
            line_of_cores(files),
        ),
        Err(CheckFault::Arguments(_)) => in_file(config, None),
        Err(CheckFault::Config(_)) => in_file(config, line),
        Err(CheckFault::Input(fault)) => site_of_input(files, fault, line),
    }
}

// Where a refused certificate, order or recording is refused. A certificate that ends too soon is at its last row.
fn site_of_input<'a, R: Files<File = F>, F: Read + Drop>(
    files: &RunFiles<'a, R>,
    fault: &InputFault,
    line: Option<u64>,
) -> Site<'a> {
    match fault {
        InputFault::Cert { place, .. } => in_row(None, files, line, *place),
        InputFault::Order { place, .. } => {
            let line = match line {
                Some(line) => Some(line),
                None => line_of_row(files, files.names.order.as_str(), place.saturating_sub(1)),
            };
            in_row(None, files, line, *place)
        }
        InputFault::Row { core, seq, .. } => {
            in_row(name_of_core(files.names, *core), files, line, *seq)
        }
    }
}

// A place in a file.
fn in_file(file: &str, line: Option<u64>) -> Site<'_> {
    Site {
        file,
        line,
        row: None,
    }
}

// A row of the file of this name, or else of the certificate.
fn in_row<'a, R>(
    file: Option<&'a str>,
    files: &RunFiles<'a, R>,
    line: Option<u64>,
    row: u64,
) -> Site<'a> {
    Site {
        file: file.unwrap_or(files.names.order.as_str()),
        line,
        row: Some(row),
    }
}

// The line that an explanation has, if there is one.
fn line_of(reason: Option<&Reason<'_>>) -> Option<u64> {
    match reason {
        Some(reason) => reason.line(),
        None => None,
    }
}

/// The line on which a row begins, if it is found.
pub fn line_of_row<R: Files<File = F>, F: Read + Drop>(
    files: &RunFiles<'_, R>,
    name: &str,
    row: u64,
) -> Option<u64> {
    let mut lines = [None; 1];
    files.find_lines(name, row, &mut lines);
    lines[0]
}

// The line of the number of cores, in a configuration that was read. None if it is not a regular file, or cannot be read again.
fn line_of_cores<R: Files<File = F>, F: Read + Drop>(files: &RunFiles<'_, R>) -> Option<u64> {
    let name = files.names.config.as_str();
    if !is_regular(files, name) {
        return None;
    }
    match open_text(files.rt, files.alloc, name) {
        Ok(text) => Located::text(text.as_slice()).line_of("cores"),
        Err(_) => None,
    }
}

/// Whether the file of this name can be read again. A pipe gives its text only once.
pub fn is_regular<R: Files>(files: &RunFiles<'_, R>, name: &str) -> bool {
    match fs::metadata(files.rt, name) {
        Ok(metadata) => metadata.is_file(),
        Err(_) => false,
    }
}
