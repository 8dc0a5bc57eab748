// The error conditions that hold for a call, in words.

use apex_machine::{Condition, Direction};
use apex_types::{Call, Discipline, NewObject, Request};
use module_config::{Config, QueuingPort, SamplingPort};
use wait_set::Conditions;
use wording::{Count, Words, code_name};

/// Reports that no error condition holds.
pub fn tell_no_condition(words: &mut Words) {
    words.next_line();
    words.say("no error condition holds");
}

/// Reports which error conditions hold, each with its code: one on the line that says so, several on lines of their own.
pub fn tell_conditions(words: &mut Words, config: &Config, call: &Call, conditions: &Conditions) {
    let held = conditions.as_slice();
    words.next_line();
    if held.len() == 1 {
        words.say("an error condition holds: ");
    } else {
        words.say(format_args!("{} hold:", Count(held.len(), "error condition")));
    }
    for condition in held {
        if held.len() != 1 {
            words.next_line();
            words.say("  ");
        }
        words.say(format_args!("{} ({})", condition.text(), code_name(condition.code())));
        if *condition == Condition::NotAsConfigured {
            tell_configured(words, config, call);
        }
    }
}

/// Reports the codes of the conditions, each once: `A`, `A or B`, `A, B or C`.
pub fn tell_codes(words: &mut Words, conditions: &Conditions) {
    let held = conditions.as_slice();
    let mut begun = false;
    for (index, condition) in held.iter().enumerate() {
        if !has_new_code(held, index) {
            continue;
        }
        if begun {
            let mut others = held.iter().enumerate().skip(index.saturating_add(1));
            let is_last = !others.any(|(other, _)| has_new_code(held, other));
            words.say(if is_last { " or " } else { ", " });
        }
        begun = true;
        words.say(code_name(condition.code()));
    }
}

// Whether no condition before the one at this index has its code.
fn has_new_code(held: &[Condition], index: usize) -> bool {
    let Some(condition) = held.get(index) else {
        return false;
    };
    held.iter()
        .take(index)
        .all(|earlier| earlier.code() != condition.code())
}

// Reports how the port is configured whose name a creation gives.
fn tell_configured(words: &mut Words, config: &Config, call: &Call) {
    let Request::Create(name, object) = &call.request else {
        return;
    };
    words.next_line();
    match object {
        NewObject::SamplingPort { .. } => match config.sampling_port(call.who.part, name) {
            Some(port) => tell_sampling_port(words, &port),
            None => tell_no_port(words),
        },
        NewObject::QueuingPort { .. } => match config.queuing_port(call.who.part, name) {
            Some(port) => tell_queuing_port(words, &port),
            None => tell_no_port(words),
        },
        NewObject::Buffer { .. }
        | NewObject::Blackboard { .. }
        | NewObject::Semaphore { .. }
        | NewObject::Event
        | NewObject::Mutex { .. } => {}
    }
}

fn tell_sampling_port(words: &mut Words, port: &SamplingPort) {
    words.say(format_args!(
        "  the configuration has size {}, direction {} and refresh period {}, which counts at a destination only",
        port.size,
        direction_number(port.direction),
        port.refresh
    ));
}

fn tell_queuing_port(words: &mut Words, port: &QueuingPort) {
    words.say(format_args!(
        "  the configuration has size {}, capacity {}",
        port.size, port.capacity
    ));
    words.say(format_args!(
        ", direction {} and discipline {}",
        direction_number(port.direction),
        discipline_number(port.discipline)
    ));
}

fn tell_no_port(words: &mut Words) {
    words.say("  no port of this name is configured for the partition");
}

fn direction_number(direction: Direction) -> u8 {
    match direction {
        Direction::Source => 0,
        Direction::Destination => 1,
    }
}

fn discipline_number(discipline: Discipline) -> u8 {
    match discipline {
        Discipline::Fifo => 0,
        Discipline::Priority => 1,
    }
}
