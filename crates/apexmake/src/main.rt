//! The program: makes recordings of a configured module with a known answer, or the configuration of a module.
//!
//! Promises: the exit status is that of the end of the run (`run`). If it made recordings, the folder received exactly the files of a run
//! whose check has the answer that was asked for, and standard output received the line of that answer. If it ends otherwise, the folder
//! received nothing, unless a file or standard output could not be written. A module is the text of a configuration.
#![tactic(auto)]

ghost use Rattle.std.specs.Prelude.{◌≡◌};
ghost use Rattle.apexmake.specs.declared.ending.Ending.{Ending};
ghost use Rattle.apexmake.specs.Endings.{EndsBy, status_of};

mod closing_words;
mod ending;
mod file_folder;
mod folder;
mod making;
mod of_itself;
mod usage;

use closing_words::tell;
use ending::{Ending, refused_words};
use file_folder::{FileFolder, FolderFaults};
use folder::Folder;
use making::{make_module, make_run};
use of_itself::{print_help, print_version};
use sink::{Sink, WriterSink};
use std::alloc::Global;
use std::fs::Files;
use std::io;
use std::io::Read;
use std::process::ExitCode;
use std::rt::Env;
use std::sync::Wait;
use std::thread::Threads;
use usage::{Asked, UsageFault, from_words};

fn main(rt: HostRuntime) -> ExitCode {
    let alloc = rt.alloc();
    let asked = from_words(&rt, alloc);
    let mut folder = FileFolder::new(&rt, alloc, &asked);
    let mut output = WriterSink::new(io::writer(&rt));
    ExitCode::from(run(&rt, alloc, &asked, &mut folder, &mut output))
}

// Does what the command line requests, and reports on standard error how that ended. Returns the exit status of the end. The files go to
// this folder, and the line or the module to this output.
fn run<R, F: Read + Drop, D: Folder + FolderFaults, W: Sink>(
    rt: &R,
    alloc: Global,
    asked: &Result<Asked, UsageFault>,
    folder: &mut D,
    output: &mut W,
) -> u8
where
    R: Files<File = F> + Env + Eprint + AllocGlobal,
    R: Threads + Wait + Sync + Copy + Send + 'static,
    ensures { (ending : Ending) × EndsBy asked.now (D.files folder.old) (D.files folder.new) (W.bytes output.old) (W.bytes output.new) ending × (result ≡ status_of ending) }
{
    let ending = end_of(rt, alloc, asked, folder, output);
    tell(rt, alloc, asked, &ending, folder);
    ending.status()
}

// Does what the command line requests.
fn end_of<R, F: Read + Drop, D: Folder, W: Sink>(
    rt: &R,
    alloc: Global,
    asked: &Result<Asked, UsageFault>,
    folder: &mut D,
    output: &mut W,
) -> Ending
where
    R: Files<File = F> + AllocGlobal,
    R: Threads + Wait + Sync + Copy + Send + 'static,
    ensures { EndsBy asked.now (D.files folder.old) (D.files folder.new) (W.bytes output.old) (W.bytes output.new) result }
{
    match asked {
        Ok(Asked::Run(asked)) => make_run(rt, alloc, asked, folder, output),
        Ok(Asked::Module(seed)) => make_module(alloc, *seed, output),
        Ok(Asked::Version) => print_version(output),
        Ok(Asked::Help) => print_help(rt, alloc, output),
        Err(fault) => refused_words(*fault),
    }
}
