//! The program: checks recordings against a configuration and a proposed order, and prints one line. After a No, the last records before
//! its place follow if they are requested.
//!
//! Promises: a run ends as its words request. What is printed is the text of that end, and the exit status is that of the end; if the
//! output could not be written, the status says so. A run over files opens each file in its role. With options that request rules and with
//! a rules file, it ends with the file's first refusal, or with the outcome under the memories of the file and relations that say what the
//! options request and then what the rules of the file say. A Yes for fewer records than are required is refused. After the outcome come
//! the last records before the place of a No, if they are requested, and otherwise nothing.
//!
//! `run` makes these promises (`Runs.antt`). `main` passes to it the files, the terminal, the words and the output of the system, and ends
//! with the status that it returns. `carry_out` first reserves the stack that a run may need. At the end `run` writes the line, then the
//! explanation (`explain`), and then the log of `--sarif` and the answer of `--json`. No rule of the machine is here. `check_request` reads
//! the words, and `check_result` has the ends, with what is written of them.
//!
//! `Opened` holds what was opened in a `Folder`. Its `check` judges the rules file (`read_rules`), then checks under the memories of the
//! file and the relations of the options, followed by clones of the file's relations (`check_ruled`). `check_files` opens the files and
//! passes on the answer of `check`.
//!
//! With `--rows` the recordings alone are read, each to its end or to its first fault (`check_rows`, over `rows_check`). A run ends with
//! what is found in each.
//!
//! `Explainer` gathers what explains the end. It is the witness of the check, and notes which file cannot be opened, why a rules file is
//! refused, which rule is broken, and which keys of the configuration are unknown. What a person sees while the check goes on is a
//! `Course`, which is the gate of the check: its progress, and the files that hold up a known answer (`Awaited`).
#![tactic(auto)]

ghost use Rattle.std.specs.Prelude.{◌≡◌, ◌<◌, map, string_bytes};
ghost use Rattle.std.specs.IoError.{error_kind};
ghost use Rattle.std.specs.Result.{result_map_both};
ghost use Rattle.std.specs.Vec.Iter.{into_iter_items};
ghost use Rattle.apexcheck.specs.Runs.{EndsAsRequested, IsRun};

mod awaited;
mod course;
mod explained;
mod files;
mod rows_alone;
mod ruled;
mod stored;

use answer_words::{Explainer, Folder, SystemFiles, Terminal};
use awaited::Observed;
use check_request::{Asked, request_of};
use check_result::{CheckEnd, conclude};
use csv_rows::{TextSource, Watched};
use explained::explain;
use program_ends::{Ending, UsageFault, out_of_memory, refused_words};
use rows_alone::check_rows;
use sink::WriterSink;
use std::alloc::Global;
use std::env::Args;
use std::fs::{File, Files};
use std::io::{IsTerminal, Read, Write};
use std::process::ExitCode;
use std::rt::{Clock, Env};
use std::sync::Wait;
use std::thread::Threads;
use std::{env, io};

/// How many bytes of the main thread's stack are touched in one step.
const STEP: usize = 16_384;

/// How many of these steps a run may need, with its explanation: half a megabyte.
const STEPS: usize = 32;

fn main(rt: HostRuntime) -> ExitCode {
    ExitCode::from(run(
        &rt,
        &SystemFiles::new(&rt),
        Terminal::new(&rt, rt.stderr().is_terminal()),
        env::args(&rt),
        &mut WriterSink::new(io::writer(&rt)),
    ))
}

// Does what the words request that the system gives, with files of this folder. Writes the end to the output, explains it to a person at
// this terminal, and returns the exit status.
fn run<R, D, F, W>(
    rt: &R,
    folder: &D,
    terminal: Terminal,
    words: io::Result<Args>,
    output: &mut WriterSink<W>,
) -> u8
where
    R: Env + Files<File = File> + Clock + Eprint + AllocGlobal,
    R: Threads + Wait + Sync + Copy + Send + 'static,
    D: Folder<File = F>,
    F: Read + Drop + Send + 'static,
    W: Write + Drop,
    ensures { IsRun (D.facts folder.now) ⟦<Observed<Watched<F>> as TextSource>⟧.remaining ⟦<Observed<Watched<F>> as TextSource>⟧.can_fail (result_map_both (λ words. map string_bytes (into_iter_items words)) error_kind words) output.old output.new result }
{
    let alloc = rt.alloc();
    let mut explainer = Explainer::new(alloc, terminal);
    let asked = request_of(alloc, words);
    let ending = carry_out(rt, folder, alloc, &asked, &mut explainer);
    let status = conclude(output, &ending);
    explain(rt, alloc, &asked, &ending, &explainer, status);
    status
}

// Does what the command line requests. The stack that a run may need is reserved first, then the files are opened, then the rules file is
// judged, and then the check runs.
fn carry_out<R, D, F>(
    rt: &R,
    folder: &D,
    alloc: Global,
    asked: &Result<Asked, UsageFault>,
    explainer: &mut Explainer,
) -> Ending<CheckEnd>
where
    R: Files + Clock + Eprint + AllocGlobal,
    R: Threads + Wait + Sync + Copy + Send + 'static,
    D: Folder<File = F>,
    F: Read + Drop + Send + 'static,
    ensures { EndsAsRequested (D.facts folder.now) ⟦<Observed<Watched<F>> as TextSource>⟧.remaining ⟦<Observed<Watched<F>> as TextSource>⟧.can_fail asked.now result }
{
    // This is never so, but with the test the steps stay in the program.
    if reserve_stack::<STEP>(STEPS) != 1 {
        return out_of_memory();
    }
    match asked {
        Ok(Asked::StoredRun) => Ending::Own(CheckEnd::Checked {
            outcome: stored::check_stored(*rt, alloc),
            last: None,
        }),
        Ok(Asked::Version) => Ending::Own(CheckEnd::Version),
        Ok(Asked::Rows(names)) => check_rows(folder, alloc, names, explainer),
        Ok(Asked::Files(asked)) => files::check_files(rt, folder, asked, explainer),
        Err(fault) => refused_words(*fault),
    }
}

// Touches this many steps of the stack, each of this many bytes, and returns 1. Threads may take up the rest of the address space later. The
// stack could not grow then, and the system would end the program by a signal, although memory should be refused.
fn reserve_stack<const BYTES: usize>(steps: usize) -> u8
    requires { 1 < BYTES }
    ensures { result ≡ 1 }
{
    let mut room = [1u8; BYTES];
    room[steps % BYTES] = 1;
    if steps == 0 {
        return 1;
    }
    // The steps below are reached while this one is in use, and it is read afterwards.
    room[usize::from(reserve_stack::<BYTES>(steps - 1))]
}
