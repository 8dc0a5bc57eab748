// Records that do not agree with the choice.

use crate::errors::{tell_faults, tell_handler};
use crate::module::tell_time;
use crate::processes::{tell_numbered, tell_ready};
use crate::refusal::{Refusal, Refusing};
use apex_types::{Body, CoreId, PartId, ProcId, Who};
use piece_check::is_ready;
use wording::{Numbered, Part, Words};

/// Reports the choice of a core and its occupant, for a record that does not agree with the choice.
pub fn tell_choice(
    words: &mut Words,
    refusal: &Refusal<'_>,
    choice: &Option<Who>,
    occupant: &Option<Who>,
) {
    let Some(refusing) = refusal.partition() else {
        return;
    };
    tell_own_window(words, refusal, refusing.number);
    tell_chosen(words, &refusing, refusal.core(), choice);
    tell_named(words, refusal, &refusing, occupant);
    words.rule(choice_rule(&refusing, choice));
}

// Where the specification says why this is the choice.
fn choice_rule(refusing: &Refusing<'_>, choice: &Option<Who>) -> &'static str {
    match choice {
        Some(choice) if refusing.state.is_handler(choice.proc) => "part 2, the choice (IsChosenIn)",
        None if is_paused(refusing) => "part 2, the choice (IsChosenIn)",
        Some(choice) if refusing.state.owns_lock(choice.proc) => {
            "part 2, the choice (IsChosenUnder)"
        }
        _ => "part 2, the choice (IsChosen, GoesBefore)",
    }
}

// Whether the cores of a partition stand still for its error handler, but for the handler's own.
fn is_paused(refusing: &Refusing<'_>) -> bool {
    let (state, handler) = (refusing.state, ProcId::new(0));
    state.is_handler(handler)
        && state.processes().is_alive(handler)
        && state.handler().is_some_and(|handler| handler.pauses)
}

/// Reports that a core is in a window of the partition.
pub fn tell_own_window(words: &mut Words, refusal: &Refusal<'_>, part: PartId) {
    words.next_line();
    words.say(format_args!(
        "core {} is in a window of partition {}: ",
        refusal.core().number(),
        part.number()
    ));
    tell_time(words, refusal.config, refusal.time());
}

// Reports the choice of a core in a partition's window, and why it is the choice.
fn tell_chosen(words: &mut Words, refusing: &Refusing<'_>, core: CoreId, choice: &Option<Who>) {
    words.next_line();
    words.say(format_args!("the choice of core {} is ", core.number()));
    match choice {
        Some(choice) => {
            words.say_part(Part::Expected, Numbered(*choice));
            if refusing.state.is_handler(choice.proc) {
                words.say(": it is the error handler, which goes before every other process");
                if let Some(handler) = refusing.state.handler() {
                    tell_handler(words, refusing, handler);
                }
                return;
            }
            if refusing.state.owns_lock(choice.proc) {
                words.say(format_args!(
                    ": it owns the lock, with level {}, and runs whatever the priorities are",
                    refusing.state.lock().level()
                ));
            } else {
                words.say(
                    ": the highest priority goes first, then the earliest ready position, then the lowest process number",
                );
            }
            tell_ready(words, refusing.state, core, choice);
        }
        None if is_paused(refusing) => {
            words.say_part(Part::Expected, "no process");
            words.say(": the core stands still while the error handler is ready");
            if let Some(handler) = refusing.state.handler() {
                tell_handler(words, refusing, handler);
            }
        }
        None => {
            words.say_part(Part::Expected, "no process");
            words.say(format_args!(
                ": none of partition {} is ready there",
                refusing.number.number()
            ));
        }
    }
}

// Reports the processes that the record names, and the occupant of its core.
fn tell_named(
    words: &mut Words,
    refusal: &Refusal<'_>,
    refusing: &Refusing<'_>,
    occupant: &Option<Who>,
) {
    match &refusal.ordered.rec.body {
        Body::Disp(Some(who)) => tell_dispatched(words, refusing, refusal.core(), who),
        Body::Disp(None) | Body::Arrive(_) | Body::Depart(_) => {}
        Body::Error(report) => tell_actor(words, refusal, refusing, occupant, &report.who),
        Body::Tick(_) => tell_occupant(words, refusal, refusing, occupant),
        Body::Call(call) => tell_actor(words, refusal, refusing, occupant, &call.who),
        Body::Ret(ret) => tell_actor(words, refusal, refusing, occupant, &ret.who),
    }
}

// Reports the process to which a core is dispatched.
fn tell_dispatched(words: &mut Words, refusing: &Refusing<'_>, core: CoreId, who: &Who) {
    if who.part == refusing.number {
        tell_unready(words, refusing, core, who);
        return;
    }
    words.next_line();
    words.say(format_args!(
        "{} does not belong to the partition of this window",
        Numbered(*who)
    ));
}

// Reports the occupant of a core, and why it is not ready there.
fn tell_occupant(
    words: &mut Words,
    refusal: &Refusal<'_>,
    refusing: &Refusing<'_>,
    occupant: &Option<Who>,
) {
    let core = refusal.core();
    words.next_line();
    match occupant {
        Some(occupant) => {
            words.say(format_args!(
                "the last dispatch gave core {} to {}",
                core.number(),
                Numbered(*occupant)
            ));
            tell_unready(words, refusing, core, occupant);
        }
        None => {
            words.say(format_args!("core {} is idle: ", core.number()));
            words.say(if refusal.ordered.rec.seq == 0 {
                "this is its first record"
            } else {
                "there was no dispatch before this record, or the last one named no process"
            });
        }
    }
}

// Reports the state of a process of the partition. Those that are ready on the core were reported with the choice.
fn tell_unready(words: &mut Words, refusing: &Refusing<'_>, core: CoreId, who: &Who) {
    if who.part != refusing.number {
        return;
    }
    match refusing.state.processes().proc(who.proc) {
        Some(process) if is_ready(process, core) => {}
        Some(process) => {
            tell_numbered(words, refusing.state, *who);
            if process.faulted {
                tell_faults(words, refusing, *who);
            }
        }
        None => tell_numbered(words, refusing.state, *who),
    }
}

// Reports the occupant, and the state of the process that calls or returns.
fn tell_actor(
    words: &mut Words,
    refusal: &Refusal<'_>,
    refusing: &Refusing<'_>,
    occupant: &Option<Who>,
    who: &Who,
) {
    tell_occupant(words, refusal, refusing, occupant);
    if *occupant != Some(*who) {
        tell_unready(words, refusing, refusal.core(), who);
    }
}
