// The end of a search on standard error: its line, and its words. They decide nothing: a failure there, or a lack of memory, ends only the
// words.

use crate::ending::OrderEnd;
use crate::noted::Noted;
use crate::proposed::{words_of_proposal, words_of_unwritten_order};
use crate::search_files::SearchFiles;
use crate::usage::{Asked, OrderAsked};
use order_run::Proposal;
use program_ends::{Ending, UsageFault, write_text};
use sink::Sink;
use std::alloc::Global;
use std::fs::Files;
use std::io::Read;
use std::rt::Env;
use wording::{Documents, Look, Program, Words, tell_usage};

/// Reports to a person how the run ended. The line of a refusal goes to this output. If no order was found, what stops each core follows.
/// The last line is the end in words.
pub fn tell<R, F: Read + Drop, W: Sink>(
    rt: &R,
    alloc: Global,
    output: &mut W,
    asked: &Result<Asked, UsageFault>,
    ending: &Ending<OrderEnd>,
    noted: &Noted,
)
where
    R: Files<File = F> + Env + Eprint + AllocGlobal,
{
    let _ = write_text(output, ending);
    let documents = Documents::find(rt, alloc);
    let look = Look {
        in_colour: false,
        documents: documents.folder(),
    };
    match asked {
        Ok(Asked::Order(asked)) => tell_order(rt, alloc, asked, ending, noted, look),
        Ok(Asked::Version | Asked::Help) | Err(UsageFault::Memory) => {}
        Err(UsageFault::Usage) => tell_usage(rt, alloc, Program::Order, look),
    }
}

// Prints the words of a search: what was noted of it, and how it ended.
fn tell_order<R: Files<File = F> + Eprint, F: Read + Drop>(
    rt: &R,
    alloc: Global,
    asked: &OrderAsked,
    ending: &Ending<OrderEnd>,
    noted: &Noted,
    look: Look<'_>,
) {
    let names = &asked.names;
    let files = SearchFiles { rt, alloc, names };
    say(rt, noted.note(), look);
    if !asked.quiet {
        say(rt, &files.unknown_keys(noted), look);
        say(rt, &files.warnings(noted), look);
        if let Ending::Own(OrderEnd::Proposed(Proposal::NotFound { .. })) = ending {
            for stop in noted.stops() {
                say(rt, &files.words_of_stop(stop), look);
            }
        }
    }
    match ending {
        Ending::Own(OrderEnd::Proposed(proposal)) => say(
            rt,
            &words_of_proposal(alloc, proposal),
            look,
        ),
        Ending::Own(OrderEnd::Refused(fault)) => say(rt, &files.words_of_fault(fault, noted), look),
        Ending::Own(OrderEnd::Unwritten) => say(rt, &words_of_unwritten_order(alloc), look),
        Ending::Own(OrderEnd::Version | OrderEnd::Help) => {}
        Ending::BadUsage
        | Ending::Unopened
        | Ending::BadRules(_)
        | Ending::BadMemory { .. }
        | Ending::BadRule { .. } => {}
    }
}

// Prints the words, if there are any, after the name of the program. A failure there changes nothing, since standard error only helps a
// person.
fn say(rt: &impl Eprint, words: &Words, look: Look<'_>) {
    if !words.is_empty() {
        let _ = rt.eprintln(format_args!("{}: {}", Program::Order.name(), words.shown(look)));
    }
}
