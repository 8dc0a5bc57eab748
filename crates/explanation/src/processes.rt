// Processes in words: what a process waits for, and why it is not ready or not the choice.

use apex_machine::{Process, Wait};
use apex_types::{CoreId, ProcId, Who};
use partition_state::PartitionState;
use piece_check::is_ready;
use wording::{Ascii, Numbered, Set, Words};

/// Reports a process with its name and its state: ready, or why it is not.
pub fn tell_process(words: &mut Words, who: Who, process: &Process) {
    let proc = who.proc;
    words.say(Numbered(who));
    tell_name(words, process);
    tell_standing(words, proc, process);
    words.say(format_args!("; its core is {}", process.affinity.number()));
    words.say(format_args!(" and its current priority is {}", process.current_priority));
}

// Reports the name of a process, if it has one.
fn tell_name(words: &mut Words, process: &Process) {
    let name = process.name.as_bytes();
    if !name.is_empty() {
        words.say(format_args!(", \"{}\",", Ascii(name)));
    }
}

/// Reports since when a process is ready or waits: since the record at this place.
///
/// No record at place 0 makes a process ready or lets it wait: every core is idle before it, so it is no lawful call, and no process waits
/// whose wait it could end. A process that has been ready since place 0 has been ready from the start.
pub fn tell_since(words: &mut Words, place: u64) {
    words.say(" since ");
    if place == 0 {
        words.say("the start of the run");
    } else {
        words.say_place(place);
    }
}

/// Reports the state of a process: dormant, faulted, suspended, waiting, or ready.
pub fn tell_standing(words: &mut Words, proc: ProcId, process: &Process) {
    if !process.alive {
        words.say(" is dormant");
        if proc.number() == 0 {
            words.say(" (in NORMAL mode it runs only as the error handler)");
        }
        return;
    }
    if process.faulted {
        words.say(" is faulted");
        if process.suspended || process.wait != Wait::Nothing {
            words.say(" and");
        }
    }
    if process.suspended {
        words.say(" is suspended");
        if process.wait != Wait::Nothing {
            words.say(" and");
        }
    }
    tell_wait(words, process);
}

// Reports what a process waits for, or that it is ready.
fn tell_wait(words: &mut Words, process: &Process) {
    match process.wait {
        Wait::Nothing => {
            if !process.suspended && !process.faulted {
                words.say(" has been ready");
                tell_since(words, process.ready_position);
            }
        }
        Wait::NormalMode(0) => words.say(" waits for NORMAL mode"),
        Wait::NormalMode(delay) => {
            words.say(format_args!(" waits for NORMAL mode, with a delay of {delay}"));
        }
        Wait::Delay(time) => {
            words.say(format_args!(" waits in its delayed start until time {time}"));
        }
        Wait::FirstRelease(time) => {
            words.say(format_args!(" waits for its first release at time {time}"));
        }
        Wait::Until(time) => words.say(format_args!(" waits in TIMED_WAIT until time {time}")),
        Wait::PeriodicRelease(time) => {
            words.say(format_args!(" waits in PERIODIC_WAIT until time {time}"));
        }
        Wait::Suspended(due) => {
            words.say(" waits in SUSPEND_SELF to be resumed");
            tell_due(words, due);
        }
        Wait::At(set, due) => {
            words.say(format_args!(" waits {}", Set(set)));
            tell_due(words, due);
        }
        Wait::ForLock => words.say(" waits for the lock"),
    }
}

// Reports when a wait with a time-out falls due.
fn tell_due(words: &mut Words, due: Option<u64>) {
    match due {
        Some(time) => words.say(format_args!(", at most until time {time}")),
        None => words.say(", without a time-out"),
    }
}

/// The process that a caller names by its number, or None if no process of its partition has that number.
pub fn peer_of(state: &PartitionState, caller: Who, given: i64) -> Option<Who> {
    let proc = state.processes().created_number(given)?;
    Some(Who {
        part: caller.part,
        proc,
    })
}

/// Reports a process of a partition by its number, on a line of its own.
pub fn tell_numbered(words: &mut Words, state: &PartitionState, who: Who) {
    words.next_line();
    match state.processes().proc(who.proc) {
        Some(process) => tell_process(words, who, process),
        None => words.say(format_args!("there is no {}", Numbered(who))),
    }
}

/// Reports the processes that are ready on a core, and why this one of them is the choice.
pub fn tell_ready(words: &mut Words, state: &PartitionState, core: CoreId, choice: &Who) {
    let table = state.processes();
    for index in 0..table.len().saturating_add(1) {
        let Some((proc, process)) = table.at(index) else {
            break;
        };
        if is_ready(process, core) {
            tell_candidate(words, *proc, process, *proc == choice.proc);
        }
    }
}

// Reports why a ready process is chosen or not.
fn tell_candidate(words: &mut Words, proc: ProcId, process: &Process, is_choice: bool) {
    words.next_line();
    words.say(format_args!("  process {}", proc.number()));
    tell_name(words, process);
    words.say(format_args!(" has been ready with priority {}", process.current_priority));
    tell_since(words, process.ready_position);
    if is_choice {
        words.say(": the choice");
    }
}
