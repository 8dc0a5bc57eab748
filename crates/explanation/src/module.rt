// Windows, times and names with which a record does not agree.

use crate::refusal::Refusal;
use apex_types::{Body, Cause, ChanId, PartId, Who};
use module_config::Config;
use wording::{Count, Occupant, Words};

/// The place of the rule of the names.
const NAMES: &str = "part 10, the names of each record (names)";

/// Reports a partition that is not configured.
pub fn tell_unknown_partition(words: &mut Words, number: PartId) {
    words.next_line();
    words.say(format_args!("partition {} is not configured", number.number()));
    words.rule(NAMES);
}

/// Reports a channel that is not configured.
pub fn tell_unknown_channel(words: &mut Words, number: ChanId) {
    words.next_line();
    words.say(format_args!("channel {} is not configured", number.number()));
    words.rule(NAMES);
}

/// Reports how far a tick takes its core ahead of another.
pub fn tell_left_back(words: &mut Words, refusal: &Refusal<'_>, other: usize) {
    let Some(clock) = refusal.module_clock() else {
        return;
    };
    let next = refusal.time().saturating_add(1);
    words.next_line();
    words.say(format_args!(
        "core {} would reach time {next}; the skew allows it to be at most {} ahead of another core",
        refusal.core().number(),
        ticks(refusal.config.skew())
    ));
    if let Some(state) = clock.states().get(other) {
        words.next_line();
        words.say(format_args!(
            "core {other} is at time {}, which is {} behind",
            state.time,
            ticks(next.saturating_sub(state.time))
        ));
    }
    words.rule("part 10, Tick, skew (KeepsSkew)");
}

// A number of ticks.
fn ticks(count: u64) -> Count {
    Count(usize::try_from(count).unwrap_or(usize::MAX), "tick")
}

/// Reports whose window a core is in.
pub fn tell_window(
    words: &mut Words,
    refusal: &Refusal<'_>,
    owner: Option<PartId>,
    occupant: Option<Who>,
) {
    words.next_line();
    match owner {
        Some(owner) => words.say(format_args!(
            "core {} is in a window of partition {}: ",
            refusal.core().number(),
            owner.number()
        )),
        None => words.say(format_args!("core {} is in no window: ", refusal.core().number())),
    }
    tell_time(words, refusal.config, refusal.time());
    if refusal.cause == Cause::Idle {
        tell_idle(words, &refusal.ordered.rec.body, occupant);
    } else {
        words.rule("part 11, cause Window; the windows: part 1 (window_at)");
    }
}

// Reports the occupant of a core that ticks while it is in no window.
fn tell_idle(words: &mut Words, body: &Body, occupant: Option<Who>) {
    if let Body::Tick(_) = body {
        words.say(format_args!("; its occupant is {}", Occupant(occupant)));
    }
    words.rule("part 11, cause Idle; the windows: part 1 (window_at)");
}

/// Reports a time, and where it is in the major frame.
pub fn tell_time(words: &mut Words, config: &Config, time: u64) {
    let frame = config.frame();
    words.say(format_args!("its time is {time}"));
    words.say(format_args!(", which is {} in the major frame of {frame}", time % frame));
}
