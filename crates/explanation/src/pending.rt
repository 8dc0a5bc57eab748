// Pending outcomes.

use crate::processes::tell_numbered;
use crate::refusal::Refusal;
use apex_machine::Outcome;
use apex_types::Cause;
use wording::{Ascii, Part, Words, code_name, tell_further, tell_message, tell_value};

/// Reports the pending outcome of a process that calls before it returns, or that returns another outcome.
pub fn tell_pending(words: &mut Words, refusal: &Refusal<'_>, outcome: &Outcome) {
    words.next_line();
    if refusal.call().is_some() {
        words.say("before it calls again, it must return from ");
        words.begin_part(Part::Expected);
    } else {
        words.say("its pending outcome is ");
        words.begin_part(Part::Expected);
        words.say("the return from ");
    }
    tell_outcome(words, outcome);
    words.end_part();
    tell_rule(words, refusal);
}

/// Reports that a process has no pending outcome, or does not exist.
pub fn tell_nothing_pending(words: &mut Words, refusal: &Refusal<'_>) {
    words.next_line();
    if refusal.call().is_some() {
        words.say("its partition has no such process");
    } else {
        words.say(
            "it has no pending outcome: each return follows a call, and a wait must end first",
        );
        if let (Some(refusing), Some(who)) = (refusal.partition(), refusal.actor()) {
            tell_numbered(words, refusing.state, who);
        }
    }
    tell_rule(words, refusal);
}

// Reports an outcome that is due.
fn tell_outcome(words: &mut Words, outcome: &Outcome) {
    words.say(Ascii(outcome.service.name()));
    words.say(format_args!(" with {}", code_name(outcome.code)));
    tell_value(words, outcome.val);
    tell_further(words, outcome.val2, outcome.val3);
    tell_message(words, outcome.bytes.as_bytes());
}

// Reports the place of the rule.
fn tell_rule(words: &mut Words, refusal: &Refusal<'_>) {
    words.rule(if refusal.call().is_some() {
        "part 10, Call, due"
    } else if refusal.cause == Cause::Return {
        "part 10, Return, due"
    } else {
        "part 10, Return, outcome_returned; how a wait ends: part 8"
    });
}
