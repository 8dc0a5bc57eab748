// The answer in words, on standard error, after its line. It decides nothing: a failure there, or a lack of memory, ends only the words.

use answer_words::{
    Explainer, InputNames, Reason, RunFiles, words_of_stored_run, words_of_unwritten_answer,
    words_of_unwritten_log, words_of_unwritten_output,
};
use check_request::{Asked, FilesAsked};
use check_result::{CheckEnd, Explained, write_answer, write_log};
use placement::InputFault;
use program_ends::{Ending, UNWRITTEN, UsageFault};
use report::{CheckFault, Verdict};
use std::alloc::Global;
use std::fs::Files;
use std::io::{Read, Write};
use std::rt::Env;
use wording::{Documents, Look, Program, Words, tell_usage};

/// Explains the line to a person: where the record, the row or the key is, what was found and what was expected; which keys of the
/// configuration are ignored; and which recordings have no record. With `--quiet` it prints only what was noted. With `--sarif` it writes
/// the outcome as a log, and with `--json` the answer as data.
///
/// `status` is the exit status of the program.
pub fn explain<'a, R: Env + Files<File = F> + Eprint + AllocGlobal, F: Read + Write + Drop>(
    rt: &'a R,
    alloc: Global,
    asked: &'a Result<Asked, UsageFault>,
    ending: &Ending<CheckEnd>,
    explainer: &'a Explainer,
    status: u8,
) {
    let documents = Documents::find(rt, alloc);
    let look = Look {
        in_colour: explainer.terminal().in_colour,
        documents: documents.folder(),
    };
    match asked {
        Ok(Asked::StoredRun) => tell(rt, &words_of_stored_run(alloc), look),
        Ok(Asked::Rows(names)) => explain_rows(rt, alloc, names, ending, explainer, look),
        Ok(Asked::Files(asked)) => explain_files(rt, alloc, asked, ending, explainer, look, status),
        Ok(Asked::Version) | Err(UsageFault::Memory) => {}
        Err(UsageFault::Usage) => tell_usage(rt, alloc, Program::Check, look),
    }
    if status == UNWRITTEN {
        tell(rt, &words_of_unwritten_output(alloc), look);
    }
}

// Explains the end of a run over the rows of recordings: where each fault is, and what is wrong there.
fn explain_rows<'a, R: Files<File = F> + Eprint, F: Read + Drop>(
    rt: &'a R,
    alloc: Global,
    names: &'a InputNames,
    ending: &Ending<CheckEnd>,
    explainer: &'a Explainer,
    look: Look<'_>,
) {
    tell(rt, explainer.noted(), look);
    let Ending::Own(CheckEnd::Rows(found)) = ending else {
        return;
    };
    let files = RunFiles { rt, alloc, names };
    for (core, one) in found.iter().enumerate() {
        if let (Ok(core), Some(fault)) = (u32::try_from(core), one.fault) {
            let seq = one.records;
            let refusal = Err(CheckFault::Input(InputFault::Row { core, seq, fault }));
            if let Some(reason) = files.reason_of(&refusal, explainer) {
                tell(rt, &reason.words, look);
            }
        }
    }
}

// Explains the end of a run over files.
fn explain_files<'a, R: Env + Files<File = F> + Eprint + AllocGlobal, F: Read + Write + Drop>(
    rt: &'a R,
    alloc: Global,
    asked: &'a FilesAsked,
    ending: &Ending<CheckEnd>,
    explainer: &'a Explainer,
    look: Look<'_>,
    status: u8,
) {
    tell(rt, explainer.noted(), look);
    if asked.quiet && !asked.writes_file() {
        return;
    }
    let files = RunFiles {
        rt,
        alloc,
        names: &asked.names,
    };
    let explained = Explained {
        ending,
        explainer,
        reason: reason_of(&files, asked, ending, explainer),
        status,
    };
    if !asked.quiet {
        tell_end(&files, &explained, look);
    }
    write_files(&files, asked, &explained, look);
}

// Prints what the end of a run rests on, and what else a person needs to know of its files.
fn tell_end<'a, R: Files<File = F> + Eprint, F: Read + Drop>(
    files: &RunFiles<'a, R>,
    explained: &Explained<'_, 'a>,
    look: Look<'_>,
) {
    let rt = files.rt;
    tell(rt, &files.unknown_keys(explained.explainer), look);
    tell(rt, &files.warnings(explained.explainer), look);
    if let Some(reason) = &explained.reason {
        tell(rt, &reason.words, look);
    }
    if let Ending::Own(
        CheckEnd::Checked {
            outcome: Ok(Verdict::Yes { records }),
            ..
        },
    ) = explained.ending
    {
        tell(rt, &files.without_records(*records), look);
    }
}

// Writes the log and the data that are requested.
fn write_files<'a, R: Env + Files<File = F> + Eprint + AllocGlobal, F: Read + Write + Drop>(
    files: &RunFiles<'a, R>,
    asked: &FilesAsked,
    explained: &Explained<'_, 'a>,
    look: Look<'_>,
) {
    let (rt, alloc) = (files.rt, files.alloc);
    if let Some(name) = &asked.sarif {
        if let Err(e) = write_log(files, asked.source_root.as_deref(), name, explained) {
            tell(rt, &words_of_unwritten_log(alloc, name, e), look);
        }
    }
    if let Some(name) = &asked.json {
        if let Err(e) = write_answer(files, &asked.options, asked.at_least, name, explained) {
            tell(rt, &words_of_unwritten_answer(alloc, name, e), look);
        }
    }
}

// Why the answer is not Yes. None after a Yes, or if only a note says why.
fn reason_of<'a, R: Files<File = F>, F: Read + Drop>(
    files: &RunFiles<'a, R>,
    asked: &FilesAsked,
    ending: &Ending<CheckEnd>,
    explainer: &Explainer,
) -> Option<Reason<'a>> {
    match ending {
        Ending::Own(CheckEnd::Checked { outcome, .. }) => match files.reason_of(
            outcome, explainer,
        ) {
            Some(mut reason) => {
                files.tell_other_orders(&mut reason, outcome);
                Some(reason)
            }
            None => None,
        },
        Ending::Own(CheckEnd::Few { records }) => Some(files.reason_of_few(
            *records,
            asked.at_least?,
        )),
        _ => None,
    }
}

/// Prints the words, if there are any. A failure there changes nothing, since standard error only helps a person.
pub fn tell(rt: &impl Eprint, words: &Words, look: Look<'_>) {
    if !words.is_empty() {
        let _ = rt.eprintln(format_args!("apexcheck: {}", words.shown(look)));
    }
}
