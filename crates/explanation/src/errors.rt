// Errors of processes: who takes them, and what they do to their partition.

use crate::refusal::{Refusal, Refusing};
use apex_machine::{ErrorHandler, ErrorPolicy, Mode};
use apex_types::{Body, Who};
use wording::{Ascii, Count, Numbered, Part, Words};

/// Where the rule of errors is.
const ERRORS: &str = "part 8, who takes an error (Takes, IsRestartingError)";

/// Reports whether an error restarts the partition of its process, and why.
pub fn tell_restart(words: &mut Words, refusal: &Refusal<'_>, restarts: bool) {
    let (Some(refusing), Body::Error(report)) = (refusal.partition(), &refusal.ordered.rec.body)
    else {
        return;
    };
    words.next_line();
    words.say_part(
        Part::Expected,
        if restarts {
            "the error restarts the partition"
        } else {
            "the error does not restart the partition"
        },
    );
    words.say(", so out must be ");
    words.say(if restarts { "none" } else { "empty" });
    tell_taker(words, refusal, &refusing, report.who);
    words.rule(ERRORS);
}

/// Reports who takes the error of a process: the error handler, or the configuration where no handler takes it.
pub fn tell_taker(words: &mut Words, refusal: &Refusal<'_>, refusing: &Refusing<'_>, who: Who) {
    let state = refusing.state;
    words.next_line();
    if state.taker(who.proc).is_some() {
        words.say(format_args!(
            "the error handler of partition {} takes the errors of {}",
            refusing.number.number(),
            Numbered(who)
        ));
        return;
    }
    words.say("no error handler takes it: ");
    if state.processes().mode() != Mode::Normal {
        words.say("the mode is not NORMAL");
    } else if state.is_handler(who.proc) {
        words.say("it is an error of the handler itself");
    } else {
        words.say("the partition has created none");
    }
    tell_policy(words, refusal.config.error_policy(refusing.number));
}

// Reports what the configuration says of an error that no handler takes.
fn tell_policy(words: &mut Words, policy: ErrorPolicy) {
    words.say(", and on_error is ");
    words.say(match policy {
        ErrorPolicy::Ignore => "IGNORE",
        ErrorPolicy::Idle => "IDLE",
        ErrorPolicy::ColdStart => "COLD_START",
        ErrorPolicy::WarmStart => "WARM_START",
    });
}

/// Reports the error handler of a partition: its core, what the other cores do, and how many errors it has still to take.
pub fn tell_handler(words: &mut Words, refusing: &Refusing<'_>, handler: ErrorHandler) {
    words.next_line();
    words.say(format_args!(
        "the error handler runs on core {}, and the other cores ",
        handler.core.number()
    ));
    words.say(if handler.pauses {
        "stand still while it is ready"
    } else {
        "go on while it is ready"
    });
    let left = refusing.state.errors();
    words.say(format_args!("; it has {} to take", Count(left.len(), "error")));
    if let Some(oldest) = left.first() {
        words.say(if left.len() == 1 {
            ": "
        } else {
            ", the oldest of which is "
        });
        words.say(format_args!(
            "{} of process {}",
            Ascii(oldest.error.name()),
            oldest.process.number()
        ));
    }
}

/// Reports which errors of a faulted process its handler has still to take.
pub fn tell_faults(words: &mut Words, refusing: &Refusing<'_>, who: Who) {
    for error in refusing.state.errors() {
        if error.process == who.proc {
            words.next_line();
            words.say(format_args!(
                "  the handler has still to take {} of it",
                Ascii(error.error.name())
            ));
        }
    }
}
