// Deadlines that are missed and not reported, and reports of deadlines that are not missed.

use crate::choice::tell_own_window;
use crate::processes::tell_numbered;
use crate::refusal::Refusal;
use apex_types::{Body, Cause, CoreId, Who};
use wording::{Count, Numbered, Part, Words};

/// Where the rule of missed deadlines is.
const MISSED: &str = "part 8, deadlines (HasMissed); part 11, cause Deadline";

/// Reports the deadline that a process has missed, and since when.
pub fn tell_missed(words: &mut Words, refusal: &Refusal<'_>, who: &Who, deadline: u64) {
    let Some(refusing) = refusal.partition() else {
        return;
    };
    tell_own_window(words, refusal, refusing.number);
    words.next_line();
    words.say_part(Part::Expected, Numbered(*who));
    words.say(format_args!(" has missed its deadline, which was at time {deadline}"));
    tell_age(words, refusal.time().saturating_sub(deadline));
    words.say(", and no record has reported it");
    tell_numbered(words, refusing.state, *who);
    words.rule(MISSED);
}

// Reports how long ago a deadline was reached.
fn tell_age(words: &mut Words, age: u64) {
    if age == 0 {
        words.say(", the present time");
        return;
    }
    let ticks = usize::try_from(age).unwrap_or(usize::MAX);
    words.say(format_args!(", {} ago", Count(ticks, "tick")));
}

/// Reports the core and the deadline of a process whose deadline is reported and not missed there.
pub fn tell_deadline(
    words: &mut Words,
    refusal: &Refusal<'_>,
    affinity: CoreId,
    deadline: Option<u64>,
) {
    let Body::Error(report) = &refusal.ordered.rec.body else {
        return;
    };
    let (core, now) = (refusal.core(), refusal.time());
    words.next_line();
    words.say(Numbered(report.who));
    match deadline {
        _ if affinity != core => words.say(format_args!(
            " runs on core {}, but the record is of core {}",
            affinity.number(),
            core.number()
        )),
        Some(deadline) => words.say(format_args!(
            " has its deadline at time {deadline}, and the time of core {} is {now}",
            core.number()
        )),
        None => words.say(" has no deadline"),
    }
    words.rule(MISSED);
}

/// Reports that a process does not exist whose missed deadline is reported.
pub fn tell_absent(words: &mut Words, refusal: &Refusal<'_>) {
    let (Cause::Deadline, Body::Error(report)) = (refusal.cause, &refusal.ordered.rec.body) else {
        return;
    };
    if let Some(refusing) = refusal.partition() {
        tell_numbered(words, refusing.state, report.who);
        words.rule(MISSED);
    }
}
