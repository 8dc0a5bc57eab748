//! The program that runs worked cases: recordings in files, each with the line and the status that a check must answer. It ends with status
//! 0 if there was a case and all were answered as their files expect, and otherwise with 1.
//!
//! Promises: a case is compared with the line and the status of an outcome that its texts have under its rules, with the settings of the
//! check.
//!
//! A case is data: a file in `data/` holds recordings in sections, each with the line and the status that a check must answer, and its
//! variants. `data/README.md` says how a file is written, and anybody can run a file of their own. One proved runner reads them all, so a
//! new case costs no proof. It calls `check_relations`, `write_report` and `write_last` over readers in memory, in rounds of several sizes,
//! by several workers and at several depths, and finally `check_plain` over all records at once (`plain.rt`). It reports each case that is
//! answered otherwise.
//!
//! A case may also have the words that `apexcheck` must print on standard error. The runner passes over them, and `.ci/run_said` looks for
//! them in what the built program prints.
#![tactic(auto)]

mod answering;
mod archive;
mod case;
mod editing;
mod fields;
mod heading;
mod manner;
mod plain;
mod rewriting;
mod running;
mod tally;

use running::run_files;
use sink::{WriterSink, put_all};
use std::process::ExitCode;
use std::{env, io};

fn main(rt: HostRuntime) -> io::Result<ExitCode> {
    let alloc = rt.alloc();
    let words: Vec<String> = env::args(&rt)?.collect(alloc)?;
    let mut output = WriterSink::new(io::writer(&rt));
    let Some((_, names)) = words.as_slice().split_first() else {
        return Ok(ExitCode::from(1));
    };
    match run_files(rt, &mut output, names) {
        Ok(true) => Ok(ExitCode::from(0)),
        Ok(false) => Ok(ExitCode::from(1)),
        Err(_) => {
            let _ = put_all(&mut output, b"the cases could not be run to their end\n");
            Ok(ExitCode::from(1))
        }
    }
}
