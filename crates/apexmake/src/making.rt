// What is made: recordings, or a configuration.

ghost use Rattle.std.specs.Prelude.{◌≡◌, ◌++◌, List, OnOk, codes, decimal, map};
ghost use Rattle.apexmake.specs.Endings.{EndsAsAsked, EndsWithModule, HasWritten, received};
ghost use Rattle.apexmake.specs.Received.{files_of, recordings_from, with_file, with_files};

use crate::ending::{Ending, refused_by};
use crate::folder::{Folder, FolderFault};
use crate::usage::RunAsked;
use answer_words::open_text;
use recording_maker::{MadeRun, make};
use seed_choices::{ModuleFault, module_text};
use sink::{Sink, put_all};
use std::alloc::Global;
use std::fs::Files;
use std::io::{ErrorKind, Read};
use std::sync::Wait;
use std::thread::Threads;

/// Makes recordings of the module that the named configuration describes, and writes them with their line. The configuration is read first;
/// then the folder must be new or empty; then the recordings are made and judged. Nothing is written before that.
#[tactic(auto, using(crate::proofs::Ended::run_written, crate::proofs::Ended::not_made))]
pub fn make_run<R, F: Read + Drop, D: Folder, W: Sink>(
    rt: &R,
    alloc: Global,
    asked: &RunAsked,
    folder: &mut D,
    output: &mut W,
) -> Ending
where
    R: Files<File = F>,
    R: Threads + Wait + Sync + Copy + Send + 'static,
    ensures { EndsAsAsked asked.now.plan (D.files folder.old) (D.files folder.new) (W.bytes output.old) (W.bytes output.new) result }
{
    let config = match open_text(rt, alloc, &asked.config) {
        Ok(config) => config,
        Err(e) if e.kind() == ErrorKind::OutOfMemory => return Ending::Memory,
        Err(_) => return Ending::Unopened,
    };
    match folder.is_free() {
        Ok(()) => {}
        Err(FolderFault::Memory) => return Ending::Memory,
        Err(FolderFault::Unusable) => return Ending::NotFree,
    }
    match make(*rt, alloc, &config, asked.plan) {
        Ok(made) => write_run(alloc, &config, &made, folder, output),
        Err(fault) => refused_by(fault),
    }
}

// Writes the files of a run to the folder, and then its line to the output.
fn write_run<D: Folder, W: Sink>(
    alloc: Global,
    config: &[u8],
    made: &MadeRun,
    folder: &mut D,
    output: &mut W,
) -> Ending
    ensures { HasWritten config.now made.now (received (D.files folder.old) (W.bytes output.old)) (received (D.files folder.new) (W.bytes output.new)) result }
{
    match put_files(alloc, config, made, folder) {
        Ok(()) => {}
        Err(_) => return Ending::Unwritten,
    }
    match put_all(output, &made.line) {
        Ok(()) => Ending::Made(made.verdict),
        Err(_) => Ending::Unwritten,
    }
}

// Hands the files of a run to the folder: the configuration, the recordings, the certificate, and the line.
#[tactic(auto, using(crate::proofs::Put::all_put))]
fn put_files<D: Folder>(
    alloc: Global,
    config: &[u8],
    made: &MadeRun,
    folder: &mut D,
) -> Result<(), FolderFault>
    ensures { OnOk result (D.files folder.new ≡ with_files (D.files folder.old) (files_of config.now made.now)) }
{
    folder.put("config.toml", config)?;
    put_recordings(alloc, &made.recordings, folder)?;
    folder.put("order.csv", &made.certificate)?;
    folder.put("expected.txt", &made.line)
}

// Hands the recordings to the folder, core 0 first.
#[tactic(auto, using(crate::proofs::Put::none_put))]
fn put_recordings<D: Folder>(
    alloc: Global,
    recordings: &[Vec<u8>],
    folder: &mut D,
) -> Result<(), FolderFault>
    ensures { OnOk result (D.files folder.new ≡ with_files (D.files folder.old) (recordings_from 0 (map (λ recording. recording.items) recordings.now))) }
{
    for (core, recording) in recordings.iter().enumerate() {
        put_recording(alloc, core, recording, folder)?;
    }
    Ok(())
}

// Hands the recording of a core to the folder.
fn put_recording<D: Folder>(
    alloc: Global,
    core: usize,
    recording: &[u8],
    folder: &mut D,
) -> Result<(), FolderFault>
    ensures { OnOk result (D.files folder.new ≡ with_file (D.files folder.old) (codes "core" ++ decimal core ++ codes ".csv") recording.now) }
{
    let Ok(name) = format!(in alloc; "core{core}.csv") else {
        return Err(FolderFault::Memory);
    };
    folder.put(name.as_str(), recording)
}

/// Makes the configuration of a module by this seed, and writes it to the output.
#[tactic(auto, using(crate::proofs::Ended::module_written))]
pub fn make_module<W: Sink>(alloc: Global, seed: u64, output: &mut W) -> Ending
    ensures { EndsWithModule (W.bytes output.old) (W.bytes output.new) result }
{
    match module_text(alloc, seed) {
        Ok(text) => match put_all(output, text.as_bytes()) {
            Ok(()) => Ending::Module,
            Err(_) => Ending::Unwritten,
        },
        Err(ModuleFault::Refused(fault)) => Ending::NoModule(fault),
        Err(ModuleFault::Memory) => Ending::Memory,
    }
}
