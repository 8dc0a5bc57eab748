//! The program: shows a stretch of a run as a picture, or a whole run as a trace.
//!
//! The picture or the trace is printed on standard output. Standard error has the line that `apexcheck` prints, and why the answer is not
//! Yes. The exit status is that of `apexcheck`.
//!
//! Promises: the exit status and the line are those of the end of the run, and the end is what the command line and its files came to, over
//! files that are each opened in their role (`run`). `main` passes to `run` the files of the system and what its words request. If memory is
//! refused, whatever it is needed for, the run ends with `MEMORY`.
#![tactic(auto)]

ghost use Rattle.std.specs.Prelude.{◌≡◌, ◌≢◌, ◌<◌};
ghost use Rattle.program_ends.specs.declared.ending.Ending.{Ending as EndingValue};
ghost use Rattle.program_ends.specs.declared.ending.Ending.TheVariants.{Own};
ghost use Rattle.program_ends.specs.Endings.{exit_status_of};
ghost use Rattle.shown_run.specs.declared.ending.ViewEnd.{ViewEnd as End};
ghost use Rattle.shown_run.specs.declared.ending.ViewEnd.TheVariants.{Unwritten};
ghost use Rattle.shown_run.specs.Endings.{own_status_of};
ghost use Rattle.apexview.specs.Requests.{EndsBy};

mod explained;
mod of_itself;
mod usage;

use answer_words::{Explainer, Folder, SystemFiles, Terminal};
use csv_rows::{TextSource, Watched};
use explained::explain;
use of_itself::{print_help, print_version};
use program_ends::{Ending, UsageFault, refused_words, status_of};
use shown_run::{ViewEnd, show_files};
use sink::{Sink, WriteFault, WriterSink};
use std::alloc::Global;
use std::fs::{File, Files};
use std::io;
use std::io::{Read, Write};
use std::process::ExitCode;
use std::rt::Env;
use std::sync::Wait;
use std::thread::Threads;
use usage::{Asked, from_words};

fn main(rt: HostRuntime) -> ExitCode {
    let alloc = rt.alloc();
    let asked = from_words(&rt, alloc);
    let mut output = WriterSink::new(io::writer(&rt));
    ExitCode::from(run(&rt, &SystemFiles::new(&rt), alloc, &asked, &mut output))
}

// Does what the command line requests, with files of this folder, and reports on standard error how that ended. Returns the exit status of
// the end. The picture or the trace goes to this output.
fn run<R, D, F, W: Write + Drop>(
    rt: &R,
    folder: &D,
    alloc: Global,
    asked: &Result<Asked, UsageFault>,
    output: &mut WriterSink<W>,
) -> u8
where
    R: Files<File = File> + Env + Eprint + AllocGlobal,
    R: Threads + Wait + Sync + Copy + Send + 'static,
    D: Folder<File = F>,
    F: Read + Drop + Send + 'static,
    ensures { (ending : EndingValue End) × EndsBy (D.facts folder.now) ⟦<Watched<F> as TextSource>⟧.remaining ⟦<Watched<F> as TextSource>⟧.can_fail asked.now ending × (result ≡ exit_status_of own_status_of ending) }
{
    let mut explainer = Explainer::new(alloc, Terminal::new(rt, false));
    let shown = answer(rt, folder, alloc, asked, &mut explainer, output);
    let written = conclude(output, shown);
    let ending = explain(rt, alloc, asked, written, &explainer);
    status_of(&ending)
}

// Does what the command line requests.
#[tactic(auto, using(crate::proofs::Ended::version_printed, crate::proofs::Ended::help_printed, crate::proofs::Ended::words_refused))]
fn answer<R, D, F, W: Sink>(
    rt: &R,
    folder: &D,
    alloc: Global,
    asked: &Result<Asked, UsageFault>,
    explainer: &mut Explainer,
    output: &mut W,
) -> Ending<ViewEnd>
where
    R: Files<File = File> + AllocGlobal + Threads + Wait + Sync + Copy + Send + 'static,
    D: Folder<File = F>,
    F: Read + Drop + Send + 'static,
    ensures { EndsBy (D.facts folder.now) ⟦<Watched<F> as TextSource>⟧.remaining ⟦<Watched<F> as TextSource>⟧.can_fail asked.now result }
{
    match asked {
        Ok(Asked::Version) => print_version(output),
        Ok(Asked::Help) => print_help(rt, alloc, output),
        Ok(Asked::Files { files, view }) => {
            show_files(rt, folder, alloc, files, view, explainer, output)
        }
        Err(fault) => refused_words(*fault),
    }
}

// The end of a run whose output this writer still must write out: the same end, or that it could not be written.
fn conclude<W: Write + Drop>(output: &mut WriterSink<W>, ending: Ending<ViewEnd>) -> Ending<ViewEnd>
    ensures same { result ≢ Own Unwritten → result ≡ ending }
    ensures bytes { output.new.bytes ≡ output.old.bytes }
    ensures whole { result ≢ Own Unwritten → output.new.failures ≡ output.old.failures }
    ensures failed { result ≡ Own Unwritten → ending ≢ Own Unwritten → output.old.failures < output.new.failures }
{
    match output.flush() {
        Ok(()) => ending,
        Err(WriteFault) => Ending::Own(ViewEnd::Unwritten),
    }
}
