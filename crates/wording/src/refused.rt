// Why a command line is refused, for the person who wrote it.

use crate::command_line::{CommandLine, requests_help};
use crate::program::Program;
use crate::short_help::help;
use crate::words::{Look, Words};
use std::alloc::Global;
use std::rt::Env;
use std::{env, io};

/// Prints the short help of a program on standard error, and then, as the last line, why its command line is refused. If help is
/// requested, nothing follows it.
pub fn tell_usage(
    rt: &(impl Env + Eprint + AllocGlobal),
    alloc: Global,
    program: Program,
    look: Look<'_>,
) {
    Refusal::find(rt, alloc, program).tell(rt, look);
}

/// The refusal of a command line: why it is refused, or that it requests help.
#[derive(Drop)]
pub struct Refusal {
    program: Program,
    // No words if help is requested.
    reason: Words,
}

impl Refusal {
    /// Finds out why the command line of this run is refused.
    pub fn find(rt: &(impl Env + AllocGlobal), alloc: Global, program: Program) -> Refusal {
        let mut reason = Words::new(alloc);
        match env::args(rt) {
            Ok(given) => match given.collect::<Vec<String>>(alloc) {
                Ok(given) => tell_reason(&mut reason, alloc, program, given.as_slice()),
                Err(_) => reason.note_lack_of_memory(),
            },
            Err(e) if e.kind() == io::ErrorKind::OutOfMemory => reason.note_lack_of_memory(),
            Err(_) => reason.say("an argument is not valid UTF-8"),
        }
        Refusal { program, reason }
    }

    /// Whether memory was refused, so that the reason is missing or incomplete.
    pub fn lacks_memory(&self) -> bool {
        self.reason.lacks_memory()
    }

    /// Prints the short help and then the reason on standard error.
    pub fn tell(&self, rt: &impl Eprint, look: Look<'_>) {
        let name = self.program.name();
        // Standard error only helps a person, so a failure there changes nothing.
        let _ = rt.eprintln(help(self.program, look.documents));
        if !self.reason.is_empty() {
            let _ = rt.eprintln(format_args!("{name}: {}", self.reason.shown(look)));
        }
    }
}

// Reports what is wrong with these words, unless they request help.
fn tell_reason(reason: &mut Words, alloc: Global, program: Program, given: &[String]) {
    if requests_help(given) {
        return;
    }
    match CommandLine::new(alloc, program, given).complaint() {
        Ok(complaint) => complaint.tell(reason, alloc, program),
        Err(_) => reason.note_lack_of_memory(),
    }
}
