// The view of a record that breaks a rule, and the values of memories at it, in words.

use crate::memories::{MemoryValue, speaks_of_memory, tell_value};
use apex_types::{Code, Field, Out, SERVICES, View};
use std::str;
use user_rules::{Quantity, Relation, RuleMemory};
use wording::{Words, out_name};

const FIELDS: [(Field, &str); 11] = [
    (Field::Kind, "kind"),
    (Field::Core, "core"),
    (Field::Time, "time"),
    (Field::Part, "part"),
    (Field::Proc, "proc"),
    (Field::Service, "service"),
    (Field::Prio, "prio"),
    (Field::Out, "out"),
    (Field::Val, "val"),
    (Field::Elapsed, "elapsed"),
    (Field::Woken, "woken"),
];

const KINDS: [&str; 7] = [
    "call",
    "return",
    "dispatch",
    "tick",
    "arrival",
    "departure",
    "error",
];

const OUTCOMES: [Out; 9] = [
    Out::Answer(Code::NoError),
    Out::Answer(Code::NoAction),
    Out::Answer(Code::NotAvailable),
    Out::Answer(Code::InvalidParam),
    Out::Answer(Code::InvalidConfig),
    Out::Answer(Code::InvalidMode),
    Out::Answer(Code::TimedOut),
    Out::Waits,
    Out::Never,
];

/// A view with the values of the memories at it.
#[derive(Clone, Copy)]
pub struct Seen<'a> {
    pub view: &'a View,
    pub memories: &'a [RuleMemory],
    pub values: &'a [MemoryValue],
}

/// Reports the fields of a view and the values of memories at it that a relation mentions.
pub fn tell_view(words: &mut Words, seen: &Seen<'_>, relation: &Relation) {
    tell_fields(words, seen.view, relation);
    tell_memories(words, seen, relation);
    words.next_line();
    words.say("views and their numbers: ");
    words.say_document("SPECIFICATION.md", "part 12");
}

// Reports the fields of a view that a relation mentions, if it mentions one.
fn tell_fields(words: &mut Words, view: &View, relation: &Relation) {
    let mut first = true;
    for (field, name) in FIELDS {
        if speaks_of(relation, field) {
            if first {
                words.next_line();
                words.say("its view has ");
            } else {
                words.say(", ");
            }
            first = false;
            let number = view.get(field);
            words.say(format_args!("{name} = {number}"));
            if let Some(word) = word_for(field, number) {
                words.say(format_args!(" ({word})"));
            }
        }
    }
}

// Reports the values of the memories that a relation mentions, a line for each.
fn tell_memories(words: &mut Words, seen: &Seen<'_>, relation: &Relation) {
    for (number, memory) in seen.memories.iter().enumerate() {
        if !speaks_of_memory(relation, number) {
            continue;
        }
        if let Some(value) = seen.values.get(number) {
            words.next_line();
            tell_value(words, memory, *value);
        }
    }
}

// The word for a number of a field, if there is one.
fn word_for(field: Field, number: i64) -> Option<&'static str> {
    match field {
        Field::Kind => {
            let index = usize::try_from(number).ok()?;
            KINDS.get(index).copied()
        }
        Field::Service => {
            let index = usize::try_from(number.saturating_sub(1)).ok()?;
            str::from_utf8(SERVICES.get(index)?.name).ok()
        }
        Field::Out => {
            let out = OUTCOMES
                .iter()
                .find(|out| i64::from(out.number()) == number)?;
            Some(out_name(*out))
        }
        Field::Core
        | Field::Time
        | Field::Part
        | Field::Proc
        | Field::Prio
        | Field::Val
        | Field::Elapsed
        | Field::Woken => None,
    }
}

// Whether a relation mentions a field.
fn speaks_of(relation: &Relation, field: Field) -> bool {
    match relation {
        Relation::Less(left, right)
        | Relation::Equal(left, right)
        | Relation::Greater(left, right) => is_field(left, field) || is_field(right, field),
        Relation::And(one, other) | Relation::Or(one, other) => {
            speaks_of(one, field) || speaks_of(other, field)
        }
        Relation::Not(one) => speaks_of(one, field),
    }
}

// Whether a quantity is a field.
fn is_field(quantity: &Quantity, field: Field) -> bool {
    matches!(quantity, Quantity::Field(other) if *other == field)
}
