// Priorities that a call gives wrongly.

use crate::refusal::{Refusal, Refusing};
use wording::{Part, Words};

/// Reports the current priority of a caller, and its base priority.
pub fn tell_priority(words: &mut Words, refusal: &Refusal<'_>, current: u8, base: u8) {
    let Some(call) = refusal.call() else {
        return;
    };
    words.next_line();
    words.say("expected ");
    words.say_part(
        Part::Expected,
        format_args!("its current priority {current}"),
    );
    words.say(", recorded ");
    words.say_part(Part::Recorded, call.claim.prio);
    words.say(format_args!("; its base priority is {base}"));
}

/// Reports the mutexes from which a priority may come: the one that the caller owns, with the priority that it had before, and the one of
/// the recorded priority.
pub fn tell_mutexes(
    words: &mut Words,
    refusal: &Refusal<'_>,
    before: u8,
    owned: Option<u32>,
    elsewhere: Option<u32>,
) {
    let Some(refusing) = refusal.partition() else {
        return;
    };
    match owned {
        Some(number) => tell_owned(words, &refusing, number, before),
        None => {
            words.next_line();
            words.say("it owns no mutex");
        }
    }
    if let Some(number) = elsewhere {
        tell_elsewhere(words, &refusing, number);
    }
    words.rule("part 10, Call, prio; what sets a priority: part 8");
}

// Reports the mutex whose acquisition set the priority, and the priority before it.
fn tell_owned(words: &mut Words, refusing: &Refusing<'_>, number: u32, before: u8) {
    if let Some(mutex) = refusing.state.mutexes().at(number) {
        words.next_line();
        words.say(format_args!(
            "it owns mutex {number} of priority {}, and its priority was {before} before that",
            mutex.priority()
        ));
    }
}

// Reports the mutex that has the recorded priority and that the caller does not own. If the caller owned it, its release gave the caller
// its priority back. The state does not show whether it did.
fn tell_elsewhere(words: &mut Words, refusing: &Refusing<'_>, number: u32) {
    let Some(mutex) = refusing.state.mutexes().at(number) else {
        return;
    };
    words.next_line();
    words.say(format_args!(
        "mutex {number} has the recorded priority {}, and ",
        mutex.priority()
    ));
    match mutex.owner() {
        Some(owner) => words.say(format_args!("process {} owns it", owner.number())),
        None => words.say("is free"),
    }
    words.say(": its release restores the priority that its owner had before");
}
