// The answer as JSON, in the file that `--json` names. Like the words on standard error, it decides nothing.

use crate::ending::{CheckEnd, VERSION};
use crate::explained::Explained;
use crate::last_records::{PlacedRecord, earlier_records};
use crate::result_rule::{OwnRule, rule_of};
use crate::rows::fields_of_row;
use crate::sentences::{add_lines, sentences_of};
use crate::site::{is_regular, site_of};
use crate::whole_file::write_whole;
use answer_words::{InputNames, RunFiles, name_of_core, open};
use asked_rules::RuleOptions;
use json_report::{
    Answer, Digest, Input, LastRecord, Options, Row, Sentence, Site, Summary, answer_text,
    digest_of,
};
use placement::InputFault;
use program_ends::{Ending, Line};
use report::{CheckFault, Verdict};
use std::alloc::{AllocError, Global};
use std::fs::Files;
use std::io;
use std::io::{ErrorKind, Read, Write};

/// Writes the answer of a run over these files as JSON to the file of this name, whole or not at all. It has the rules that the options
/// request, and the number of records that a Yes must have, if one is given. No clause says that the data are those of the answer.
///
/// # Errors
///
/// The error of the system if the file cannot be written, or one of the kind `OutOfMemory` if memory is refused.
pub fn write_answer<'a, R: Files<File = F>, F: Read + Write + Drop>(
    files: &RunFiles<'a, R>,
    options: &RuleOptions,
    at_least: Option<u64>,
    name: &str,
    explained: &Explained<'_, 'a>,
) -> io::Result<()> {
    let alloc = files.alloc;
    let rule = rule_of(alloc, explained.ending, explained.explainer)?;
    let records = earlier_records(files, explained.explainer)?;
    let last = last_of(alloc, files.names, records.as_slice())?;
    let site = match &rule {
        Some(_) => Some(read_site(files, explained)?),
        None => None,
    };
    let explanation = explanation_of(files, explained)?;
    let inputs = inputs_of(files)?;
    let rules = texts_of_rules(alloc, options)?;
    let line = Line::of(explained.ending);
    let text = answer_text(
        alloc,
        &Answer {
            version: VERSION,
            line: first_line(line.text()),
            status: explained.status,
            summary: summary_of(explained.ending, &rule),
            site: site.as_ref(),
            explanation: explanation.as_slice(),
            last: last.as_slice(),
            inputs: inputs.as_slice(),
            options: Options {
                rules: rules.as_slice(),
                at_least,
            },
        },
    )?;
    write_whole(files.rt, alloc, name, text.as_str())
}

// The first line of a text.
fn first_line(text: &str) -> &str {
    text.split('\n').next().unwrap_or("")
}

// What the line of the answer says, which rests on this rule.
fn summary_of<'a>(ending: &Ending<CheckEnd>, rule: &'a Option<OwnRule>) -> Summary<'a> {
    let id = match rule {
        Some(rule) => Some(rule.id.as_str()),
        None => None,
    };
    let mut summary = Summary {
        outcome: "REFUSED",
        id,
        cause: cause_in(ending, id),
        records: None,
        place: None,
        piece: None,
        rule: None,
    };
    match ending {
        Ending::Own(CheckEnd::Checked { outcome, .. }) => add_outcome(&mut summary, outcome),
        Ending::Own(CheckEnd::Few { records }) => summary.records = Some(*records),
        Ending::BadRule { rule, .. } => summary.rule = Some(*rule as u64),
        _ => {}
    }
    summary
}

// Adds what the outcome of a check says.
fn add_outcome(summary: &mut Summary<'_>, outcome: &Result<Verdict, CheckFault>) {
    match outcome {
        Ok(Verdict::Yes { records }) => {
            summary.outcome = "YES";
            summary.records = Some(*records);
        }
        Ok(Verdict::No { pos, piece, .. }) => {
            summary.outcome = "NO";
            summary.records = Some(pos.number());
            summary.place = Some(pos.number());
            summary.piece = Some(*piece as u64);
        }
        Ok(Verdict::Broken { pos, rule }) => {
            summary.outcome = "NO";
            summary.records = Some(pos.number());
            summary.place = Some(pos.number());
            summary.rule = Some(*rule as u64);
        }
        Err(CheckFault::Memory) => summary.outcome = "MEMORY",
        Err(CheckFault::Input(InputFault::Cert { place, .. } | InputFault::Order { place, .. })) =>
            {
                summary.place = Some(*place);
            }
        Err(_) => {}
    }
}

// The name of the cause or of the fault, which is the second part of the rule. A broken rule has none.
fn cause_in<'a>(ending: &Ending<CheckEnd>, id: Option<&'a str>) -> Option<&'a str> {
    match ending {
        Ending::Own(
            CheckEnd::Checked {
                outcome: Ok(Verdict::Broken { .. }),
                ..
            },
        ) => None,
        _ => id?.split('/').nth(1),
    }
}

// Where the answer is, with the row.
fn read_site<'a, R: Files<File = F>, F: Read + Drop>(
    files: &RunFiles<'a, R>,
    explained: &Explained<'_, 'a>,
) -> Result<Site<'a>, AllocError> {
    let site = site_of(
        files,
        explained.ending,
        explained.explainer,
        explained.reason.as_ref(),
    );
    let row = match site.row {
        Some(number) => Some(Row {
            number,
            fields: fields_of_row(files, site.file, number)?,
        }),
        None => None,
    };
    Ok(Site {
        file: site.file,
        line: site.line,
        row,
    })
}

// What standard error shows of the answer without `--quiet`, as sentences.
fn explanation_of<'a, R: Files<File = F>, F: Read + Drop>(
    files: &RunFiles<'a, R>,
    explained: &Explained<'_, 'a>,
) -> Result<Vec<Sentence<'a>>, AllocError> {
    let alloc = files.alloc;
    let explainer = explained.explainer;
    let mut texts = Vec::new(alloc);
    add_lines(alloc, &mut texts, explainer.noted())?;
    add_lines(alloc, &mut texts, &files.unknown_keys(explainer))?;
    add_lines(alloc, &mut texts, &files.warnings(explainer))?;
    if let Some(reason) = &explained.reason {
        add_lines(alloc, &mut texts, &reason.words)?;
    }
    if let Ending::Own(
        CheckEnd::Checked {
            outcome: Ok(Verdict::Yes { records }),
            ..
        },
    ) = explained.ending
    {
        add_lines(alloc, &mut texts, &files.without_records(*records))?;
    }
    sentences_of(files, texts)
}

// The records before the place, with the names of their files.
fn last_of<'a>(
    alloc: Global,
    names: &'a InputNames,
    records: &[PlacedRecord],
) -> Result<Vec<LastRecord<'a>>, AllocError> {
    let mut last = Vec::new(alloc);
    for record in records {
        if let Some(file) = name_of_core(names, record.core) {
            last.push(LastRecord {
                place: record.place,
                core: record.core,
                seq: record.seq,
                kind: record.kind,
                file,
                line: record.line,
            })?;
        }
    }
    Ok(last)
}

// The inputs with their digests: the configuration, the rules file if there is one, the certificate, and the recordings.
fn inputs_of<'a, R: Files<File = F>, F: Read + Drop>(
    files: &RunFiles<'a, R>,
) -> io::Result<Vec<Input<'a>>> {
    let names = files.names;
    let mut inputs = Vec::new(files.alloc);
    inputs.push(input_of(files, "config", names.config.as_str())?)?;
    if let Some(rules) = &names.rules {
        inputs.push(input_of(files, "rules", rules.as_str())?)?;
    }
    inputs.push(input_of(files, "order", names.order.as_str())?)?;
    for core in &names.cores {
        inputs.push(input_of(files, "core", core.as_str())?)?;
    }
    Ok(inputs)
}

// An input with its digest, if it can be read again.
fn input_of<'a, R: Files<File = F>, F: Read + Drop>(
    files: &RunFiles<'a, R>,
    role: &'static str,
    name: &'a str,
) -> io::Result<Input<'a>> {
    Ok(Input {
        role,
        name,
        content: content_of(files, name)?,
    })
}

// What the file of this name holds. None if it is not a regular file, or cannot be read.
fn content_of<R: Files<File = F>, F: Read + Drop>(
    files: &RunFiles<'_, R>,
    name: &str,
) -> Result<Option<Digest>, AllocError> {
    if !is_regular(files, name) {
        return Ok(None);
    }
    let Ok(mut file) = open(files.rt, name) else {
        return Ok(None);
    };
    match digest_of(files.alloc, &mut file) {
        Ok(digest) => Ok(Some(digest)),
        Err(e) if e.kind() == ErrorKind::OutOfMemory => Err(AllocError),
        Err(_) => Ok(None),
    }
}

// The options that request rules, in the words of the command line.
fn texts_of_rules(alloc: Global, options: &RuleOptions) -> Result<Vec<String>, AllocError> {
    let mut rules = Vec::new(alloc);
    for option in options.in_order(alloc)?.iter() {
        rules.push(format!(in alloc; "{option}")?)?;
    }
    Ok(rules)
}
