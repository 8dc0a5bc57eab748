//! The program: searches for an order of the recordings of several cores, and prints it as a certificate.
//!
//! Promises: what goes to standard output during a search are rows of a certificate, of which `order_run` says what they are; the exit
//! status is that of the end, and the end is what the command line and its files came to, over files that are each opened in their role
//! (`run`). `main` passes to `run` the files of the system and what its words request. Standard error shows a person that end in words.
//!
//! # The words
//!
//! What standard error says of a search for an order: how it ended, what stops each core, why inputs are refused, and what was noted on the
//! way (`noted.rt`): files that are not opened, a rules file that is refused, the rule that is broken, unknown keys and doubtful settings of
//! the configuration.
//!
//! Promises only that its functions end and take no memory except for their texts: the words decide nothing. They receive the proposal or
//! the fault itself. If memory is refused there are fewer words.
//!
//! The functions have no contracts, and are proved only to end and to meet no fault.
#![tactic(auto)]

ghost use Rattle.std.specs.Prelude.{◌≡◌};
ghost use Rattle.program_ends.specs.declared.ending.Ending.{Ending as EndingValue};
ghost use Rattle.program_ends.specs.Endings.{exit_status_of};
ghost use Rattle.apexorder.specs.declared.ending.OrderEnd.{OrderEnd as End};
ghost use Rattle.apexorder.specs.Endings.{own_status_of};
ghost use Rattle.apexorder.specs.Files.{EndsBy};

mod closing_words;
mod configuration;
mod ending;
mod files;
mod names;
mod noted;
mod of_itself;
mod proposed;
mod proposing;
mod refused;
mod ruled;
mod search_files;
mod seen;
mod stops;
mod usage;

use answer_words::{Folder, SystemFiles};
use closing_words::tell;
use csv_rows::{TextSource, Watched};
use ending::OrderEnd;
use files::propose_for;
use of_itself::{print_help, print_version};
use program_ends::{Ending, UsageFault, refused_words, status_of};
use seen::Seen;
use sink::{Sink, WriterSink};
use std::alloc::Global;
use std::fs::{File, Files};
use std::io;
use std::io::{IsTerminal, Read};
use std::process::ExitCode;
use std::rt::{Clock, Env};
use usage::{Asked, from_words};

fn main(rt: HostRuntime) -> ExitCode {
    let alloc = rt.alloc();
    let asked = from_words(&rt, alloc);
    let mut seen = Seen::new(
        &rt,
        alloc,
        wants_progress(&asked, rt.stderr().is_terminal()),
    );
    let mut output = WriterSink::new(rt.stderr());
    ExitCode::from(run(
        &rt,
        &SystemFiles::new(&rt),
        alloc,
        &asked,
        &mut seen,
        &mut output,
    ))
}

// Whether the progress is shown: on a terminal, unless `--quiet` is given.
fn wants_progress(asked: &Result<Asked, UsageFault>, is_terminal: bool) -> bool {
    match asked {
        Ok(Asked::Order(asked)) => is_terminal && !asked.quiet,
        Ok(Asked::Version | Asked::Help) | Err(_) => false,
    }
}

// Does what the command line requests, with files of this folder, and reports how that ended. Returns the exit status of the end. The line
// of a refusal goes to this output.
fn run<R, D, F, W: Sink>(
    rt: &R,
    folder: &D,
    alloc: Global,
    asked: &Result<Asked, UsageFault>,
    seen: &mut Seen<'_, R>,
    output: &mut W,
) -> u8
where
    R: Files<File = File> + Env + Clock + Print + Eprint + AllocGlobal,
    D: Folder<File = F>,
    F: Read + Drop,
    ensures { (ending : EndingValue End) × EndsBy (D.facts folder.now) ⟦<Watched<F> as TextSource>⟧.remaining asked.now ending × (result ≡ exit_status_of own_status_of ending) }
{
    let ending = end_of(rt, folder, alloc, asked, seen);
    seen.clear();
    tell(rt, alloc, output, asked, &ending, &seen.noted);
    status_of(&ending)
}

// Does what the command line requests.
fn end_of<R, D, F>(
    rt: &R,
    folder: &D,
    alloc: Global,
    asked: &Result<Asked, UsageFault>,
    seen: &mut Seen<'_, R>,
) -> Ending<OrderEnd>
where
    R: Files + Clock + Print + Eprint + AllocGlobal,
    D: Folder<File = F>,
    F: Read + Drop,
    ensures { EndsBy (D.facts folder.now) ⟦<Watched<F> as TextSource>⟧.remaining asked.now result }
{
    match asked {
        Ok(Asked::Order(asked)) => propose_for(rt, folder, alloc, asked, seen),
        Ok(Asked::Version) => print_version(rt),
        Ok(Asked::Help) => print_help(rt, alloc),
        Err(fault) => refused_words(*fault),
    }
}
