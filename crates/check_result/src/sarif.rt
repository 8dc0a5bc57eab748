// The outcome as a SARIF log, in the file that `--sarif` names. Like the words on standard error, it decides nothing.

use crate::ending::{CheckEnd, VERSION};
use crate::explained::Explained;
use crate::fingerprint::fingerprint_of;
use crate::last_records::{PlacedRecord, earlier_records};
use crate::result_rule::{OwnRule, rule_of};
use crate::site::site_of;
use crate::source_root::SourceRoot;
use crate::whole_file::write_whole;
use answer_words::RunFiles;
use program_ends::Ending;
use report::CheckFault;
use sarif_report::{Earlier, Finding, Location, LoggedRun, log_text};
use std::alloc::{AllocError, Global};
use std::fs::Files;
use std::io::{ErrorKind, Read, Write};
use std::rt::Env;
use std::{env, io};
use wording::Look;

/// Writes the end of a run over these files as a SARIF log to the file of this name, whole or not at all. The log names files from the source
/// root, or else from the folder in which the program runs. No clause says that the log has the finding of the check.
///
/// # Errors
///
/// The error of the system if the file cannot be written, or one of the kind `OutOfMemory` if memory is refused.
pub fn write_log<'a, R: Env + Files<File = F> + AllocGlobal, F: Read + Write + Drop>(
    files: &RunFiles<'a, R>,
    source_root: Option<&str>,
    name: &str,
    explained: &Explained<'_, 'a>,
) -> io::Result<()> {
    let alloc = files.alloc;
    let root = root_of(files.rt, alloc, source_root)?;
    let names = names_from(&root, files)?;
    let rule = rule_of(alloc, explained.ending, explained.explainer)?;
    let records = earlier_records(files, explained.explainer)?;
    let earlier = located(alloc, records.as_slice(), names.as_slice())?;
    let place = place_of(files, &root, explained, &rule)?;
    let message = message_of(alloc, explained, records.as_slice())?;
    let finding = match &rule {
        Some(rule) => Some(place.finding(rule, message.as_str())),
        None => None,
    };
    let of = OwnRun::new(files, &root, explained.status)?;
    let notice = notice_of(explained.ending, message.as_str());
    let text = log_text(
        alloc,
        &of.texts(),
        finding.as_ref(),
        earlier.as_slice(),
        notice,
    )?;
    write_whole(files.rt, alloc, name, text.as_str())
}

// The folder from which files are named. If the system does not say in which folder the program runs, they are named from there.
fn root_of<R: Env + AllocGlobal>(
    rt: &R,
    alloc: Global,
    given: Option<&str>,
) -> Result<SourceRoot, AllocError> {
    match env::current_dir(rt) {
        Ok(here) => SourceRoot::new(alloc, Some(here.as_str()), given),
        Err(e) if e.kind() == ErrorKind::OutOfMemory => Err(AllocError),
        Err(_) => SourceRoot::new(alloc, None, given),
    }
}

// The names of the recordings from this folder.
fn names_from<R>(root: &SourceRoot, files: &RunFiles<'_, R>) -> Result<Vec<String>, AllocError> {
    let mut names = Vec::new(files.alloc);
    for name in &files.names.cores {
        names.push(root.name_of(files.alloc, name)?)?;
    }
    Ok(names)
}

// The run of a log, as owned texts.
#[derive(Drop)]
struct OwnRun {
    status: u8,
    root: Option<String>,
    id: String,
}

impl OwnRun {
    // A run that ends with this status. The folder of its first recording distinguishes its results from others.
    fn new<R>(
        files: &RunFiles<'_, R>,
        root: &SourceRoot,
        status: u8,
    ) -> Result<OwnRun, AllocError> {
        let alloc = files.alloc;
        let first = match files.names.cores.first() {
            Some(core) => core.as_str(),
            None => files.names.config.as_str(),
        };
        let folder = root.folder_of(alloc, first)?;
        let id = if folder.is_empty() {
            String::from_str(alloc, "apexcheck/")?
        } else if folder.starts_with("/") {
            format!(in alloc; "apexcheck{folder}/")?
        } else {
            format!(in alloc; "apexcheck/{folder}/")?
        };
        Ok(OwnRun {
            status,
            root: root.name(alloc)?,
            id,
        })
    }

    // Its texts.
    fn texts(&self) -> LoggedRun<'_> {
        LoggedRun {
            version: VERSION,
            status: self.status,
            root: self.root.as_deref(),
            id: self.id.as_str(),
        }
    }
}

// Where the result is, as owned texts, and what stays the same of it.
#[derive(Drop)]
struct OwnPlace {
    file: String,
    line: u64,
    fingerprint: String,
}

impl OwnPlace {
    // The result of this rule. If memory for the message was refused, the message is what the rule demands.
    fn finding<'a>(&'a self, rule: &'a OwnRule, message: &'a str) -> Finding<'a> {
        Finding {
            rule: rule.texts(),
            message: if message.is_empty() {
                rule.help.as_str()
            } else {
                message
            },
            location: Location {
                file: self.file.as_str(),
                line: Some(self.line),
            },
            fingerprint: self.fingerprint.as_str(),
        }
    }
}

// Where the result of this rule is. Servers show each result at a line, so one without a line is at the first of its file.
fn place_of<'a, R: Files<File = F>, F: Read + Drop>(
    files: &RunFiles<'a, R>,
    root: &SourceRoot,
    explained: &Explained<'_, 'a>,
    rule: &Option<OwnRule>,
) -> Result<OwnPlace, AllocError> {
    let site = site_of(
        files,
        explained.ending,
        explained.explainer,
        explained.reason.as_ref(),
    );
    let id = match rule {
        Some(rule) => rule.id.as_str(),
        None => "",
    };
    Ok(OwnPlace {
        file: root.name_of(files.alloc, site.file)?,
        line: site.line.unwrap_or(1),
        fingerprint: fingerprint_of(files, explained.ending, id, &site)?,
    })
}

// These records, with the names of their files.
fn located<'a>(
    alloc: Global,
    records: &[PlacedRecord],
    names: &'a [String],
) -> Result<Vec<Earlier<'a>>, AllocError> {
    let mut earlier = Vec::new(alloc);
    for record in records {
        if let Some(name) = names.get(record.core as usize) {
            earlier.push(Earlier {
                place: record.place,
                core: record.core,
                seq: record.seq,
                kind: record.kind,
                location: Location {
                    file: name.as_str(),
                    line: record.line,
                },
            })?;
        }
    }
    Ok(earlier)
}

// What was noted, why the answer is not Yes, and links to the records before it.
fn message_of(
    alloc: Global,
    explained: &Explained<'_, '_>,
    records: &[PlacedRecord],
) -> Result<String, AllocError> {
    let noted = explained.explainer.noted().shown(Look::plain());
    let mut message = format!(in alloc; "{noted}")?;
    if let Some(reason) = &explained.reason {
        if !message.is_empty() {
            message.push_str("\n")?;
        }
        let words = format!(in alloc; "{}", reason.words.shown(Look::plain()))?;
        message.push_str(words.as_str())?;
    }
    for (id, record) in records.iter().enumerate() {
        let before = if id == 0 { "\nbefore it: " } else { ", " };
        let link = format!(in alloc; "{before}[place {}]({id})", record.place)?;
        message.push_str(link.as_str())?;
    }
    Ok(message)
}

// What kept the records from being judged, if that is not a result.
fn notice_of<'a>(ending: &Ending<CheckEnd>, message: &'a str) -> Option<&'a str> {
    let Ending::Own(end) = ending else {
        return None;
    };
    match end {
        CheckEnd::Checked {
            outcome: Err(CheckFault::Memory),
            ..
        } => Some(message),
        _ => None,
    }
}
