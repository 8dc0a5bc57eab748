// The end of a run on standard error. It decides nothing: a failure there ends only the words.

use crate::ending::Ending;
use crate::file_folder::{FolderFaults, FolderTrouble};
use crate::usage::{Asked, RunAsked, UsageFault};
use apex_types::Cause;
use report::Verdict;
use std::alloc::Global;
use std::fmt::Display;
use std::fs::Files;
use std::rt::Env;
use wording::{Documents, Look, Program, tell_usage};

/// Reports to a person how the run ended.
pub fn tell<R: Files + Env + Eprint + AllocGlobal, D: FolderFaults>(
    rt: &R,
    alloc: Global,
    asked: &Result<Asked, UsageFault>,
    ending: &Ending,
    folder: &D,
) {
    match (ending, asked) {
        (Ending::BadUsage, _) => tell_bad_usage(rt, alloc),
        (Ending::Memory, _) => say(rt, "MEMORY"),
        (_, Ok(Asked::Run(asked))) => tell_run(rt, asked, ending, folder),
        (Ending::NoModule(fault), _) => {
            say(rt, format_args!("REFUSED config={fault:?}"));
            name(rt, "this seed gives no configuration");
        }
        (Ending::Unwritten, _) => name(rt, "standard output could not be written"),
        _ => {}
    }
}

// Reports a refused command line.
fn tell_bad_usage<R: Files + Env + Eprint + AllocGlobal>(rt: &R, alloc: Global) {
    say(rt, "REFUSED usage");
    let documents = Documents::find(rt, alloc);
    let look = Look {
        in_colour: false,
        documents: documents.folder(),
    };
    tell_usage(rt, alloc, Program::Make, look);
}

// Reports how a run ended that was to make recordings.
fn tell_run<R: Eprint, D: FolderFaults>(rt: &R, asked: &RunAsked, ending: &Ending, folder: &D) {
    let config = asked.config.as_str();
    match ending {
        Ending::Made(verdict) => tell_made(rt, asked, verdict, folder),
        Ending::BadConfig(fault) => {
            say(rt, format_args!("REFUSED config={fault:?}"));
            name(rt, format_args!("{config} is no configuration"));
        }
        Ending::NotSpoilt => {
            say(rt, "REFUSED spoil");
            tell_not_spoilt(rt, asked);
        }
        Ending::Stuck | Ending::Judged(_) | Ending::OtherFormat => {
            say(rt, "REFUSED run");
            tell_unmade(rt, ending);
        }
        Ending::Unopened => {
            say(rt, "REFUSED open");
            name(rt, format_args!("{config} cannot be opened or read"));
        }
        Ending::NotFree => {
            say(rt, "REFUSED folder");
            tell_trouble(rt, asked, folder);
        }
        Ending::Unwritten => match folder.trouble() {
            Some(_) => tell_trouble(rt, asked, folder),
            None => name(rt, "standard output could not be written"),
        },
        _ => {}
    }
}

// Reports what was written, and which record was spoilt.
fn tell_made<R: Eprint, D: FolderFaults>(rt: &R, asked: &RunAsked, verdict: &Verdict, folder: &D) {
    let place = asked.folder.as_str();
    for file in folder.written() {
        let file = file.as_str();
        name(rt, format_args!("wrote {place}/{file}"));
    }
    if let Verdict::No { pos, cause, .. } = verdict {
        let number = pos.number();
        name(
            rt,
            format_args!("the record at place {number} is spoilt, for {cause:?}"),
        );
    }
}

// Reports why what was made is not given out.
fn tell_unmade(rt: &impl Eprint, ending: &Ending) {
    match ending {
        Ending::Stuck => name(rt, "no record was found that can follow the ones before it"),
        Ending::Judged(outcome) => name(
            rt,
            format_args!("the check of what was made has another answer: {outcome:?}"),
        ),
        Ending::OtherFormat => name(rt, "a recording is in another format than --format says"),
        _ => {}
    }
}

// Reports that no record could be spoilt, and what would help.
fn tell_not_spoilt(rt: &impl Eprint, asked: &RunAsked) {
    let Some(cause) = asked.plan.spoil else {
        return;
    };
    let records = asked.plan.records;
    name(
        rt,
        format_args!(
            "none of the {records} records can be spoilt for {cause:?}: {}",
            need_of(cause)
        ),
    );
}

// What a module must have for a record to be spoilt for a cause.
fn need_of(cause: Cause) -> &'static str {
    match cause {
        Cause::Idle => "it needs a time at which a core is in no window",
        Cause::Window => "it needs a second partition",
        Cause::Chan => "it needs a channel",
        Cause::Deadline => "it needs format 3",
        Cause::Skew => "it needs two cores, or more records",
        _ => "it needs more records, or another seed",
    }
}

// Reports why the folder could not be used.
fn tell_trouble<R: Eprint, D: FolderFaults>(rt: &R, asked: &RunAsked, folder: &D) {
    let place = asked.folder.as_str();
    match folder.trouble() {
        Some(FolderTrouble::HasFiles) => {
            name(
                rt,
                format_args!("{place} is not empty: nothing was written"),
            );
        }
        Some(FolderTrouble::Folder(e)) => name(rt, format_args!("{place}: {e}")),
        Some(FolderTrouble::File(file, e)) => name(rt, format_args!("{place}/{file}: {e}")),
        Some(FolderTrouble::Memory) => name(rt, format_args!("{place}: memory was refused")),
        None => name(rt, format_args!("{place} could not be written")),
    }
}

// Prints a line.
fn say(rt: &impl Eprint, line: impl Display + Drop) {
    let _ = rt.eprintln(line);
}

// Prints a line that begins with the name of the program.
fn name(rt: &impl Eprint, words: impl Display + Drop) {
    let _ = rt.eprintln(format_args!("{}: {words}", Program::Make.name()));
}
