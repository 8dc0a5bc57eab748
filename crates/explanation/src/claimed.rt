// The fields of a claim, each as expected and as recorded.

use apex_types::{Cause, Claim, Out};
use wait_set::{Given, GivenValue};
use wording::{Bytes, Part, Words, out_name};

/// A field of what a call claims.
#[derive(Clone, Copy, Debug, PartialEq, Eq)]
pub enum ClaimField {
    Channel,
    Outcome,
    Values,
    Message,
    Woken,
}

impl ClaimField {
    /// The field whose demand this cause reports, if it is a demand on what is claimed.
    pub fn of(cause: Cause) -> Option<ClaimField> {
        match cause {
            Cause::Chan => Some(ClaimField::Channel),
            Cause::Out => Some(ClaimField::Outcome),
            Cause::Val => Some(ClaimField::Values),
            Cause::Data => Some(ClaimField::Message),
            Cause::Woken => Some(ClaimField::Woken),
            Cause::Names
            | Cause::Skew
            | Cause::Idle
            | Cause::Window
            | Cause::Deadline
            | Cause::Choice
            | Cause::Return
            | Cause::OutsideProfile
            | Cause::Prio => None,
        }
    }
}

/// Reports the values that a call gives, and those that are claimed.
pub fn tell_values(words: &mut Words, given: &Given<'_>, claim: &Claim) {
    words.say("expected ");
    words.begin_part(Part::Expected);
    tell_numbers(
        words,
        given.val.map(recorded_as),
        given.val2.map(recorded_as),
        given.val3.map(recorded_as),
    );
    words.end_part();
    tell_recorded_values(words, claim);
}

/// Reports that a call gives no value, and the values that are claimed.
pub fn tell_no_value(words: &mut Words, claim: &Claim) {
    words.say("expected ");
    words.say_part(Part::Expected, "no value");
    tell_recorded_values(words, claim);
}

/// Reports the outcome that a call gives, and the one that is claimed.
pub fn tell_outcome(words: &mut Words, out: Out, claim: &Claim) {
    words.say("expected ");
    words.say_part(
        Part::Expected,
        format_args!("the outcome {}", out_name(out)),
    );
    tell_recorded_outcome(words, claim);
}

/// Reports the outcome that is claimed.
pub fn tell_recorded_outcome(words: &mut Words, claim: &Claim) {
    words.say(", recorded ");
    words.say_part(Part::Recorded, out_name(claim.out));
}

/// Reports the message that is expected, and the one that is recorded.
pub fn tell_bytes(words: &mut Words, bytes: &[u8], recorded: &[u8]) {
    words.say("expected ");
    words.say_part(Part::Expected, Bytes(bytes));
    words.say(", recorded ");
    words.say_part(Part::Recorded, Bytes(recorded));
}

/// Reports the values that are claimed.
pub fn tell_recorded_values(words: &mut Words, claim: &Claim) {
    words.say("; recorded ");
    words.begin_part(Part::Recorded);
    tell_numbers(words, claim.val, claim.val2, claim.val3);
    words.end_part();
}

// A value as a record gives it.
fn recorded_as(value: GivenValue) -> i64 {
    match value {
        GivenValue::Natural(number) => i64::try_from(number).unwrap_or(i64::MAX),
        GivenValue::BelowZero(number) => number,
    }
}

// Reports the values that are expected or recorded, as far as there are any.
fn tell_numbers(words: &mut Words, val: Option<i64>, val2: Option<i64>, val3: Option<i64>) {
    let named = [
        (val, "the value"),
        (val2, "the second value"),
        (val3, "the third value"),
    ];
    let mut begun = false;
    for (value, name) in named {
        if let Some(number) = value {
            words.say(if begun { ", " } else { "" });
            words.say(format_args!("{name} {number}"));
            begun = true;
        }
    }
    if !begun {
        words.say("no value");
    }
}
