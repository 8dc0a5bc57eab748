// What a call claims, compared with what the rules give it.

use crate::claimed::{
    ClaimField, tell_bytes, tell_no_value, tell_outcome, tell_recorded_outcome,
    tell_recorded_values, tell_values,
};
use crate::conditions::{tell_codes, tell_conditions, tell_no_condition};
use crate::ended::{EndedWaits, tell_expected_waits, tell_recorded_processes};
use crate::judged::{tell_basis, tell_holder};
use crate::refusal::{Refusal, Refusing};
use apex_types::{Call, ChanId, Claim, Code, Out, Who};
use piece_check::{Misnaming, misnamed_by};
use wait_set::{Conditions, Given};
use wording::{Numbered, Part, Words, answer_rule, conditions_rule, out_name, tell_processes};

/// Reports the error conditions that hold for a call, and where its claim is not the code of one of them alone.
pub fn tell_refused_outcome(words: &mut Words, refusal: &Refusal<'_>, conditions: &Conditions) {
    let (Some(call), Some(field)) = (refusal.call(), ClaimField::of(refusal.cause)) else {
        return;
    };
    tell_conditions(words, refusal.config, call, conditions);
    words.next_line();
    match field {
        ClaimField::Channel => tell_no_channel(words, &call.claim),
        ClaimField::Outcome => tell_expected_codes(words, conditions, &call.claim),
        ClaimField::Values => tell_no_value(words, &call.claim),
        ClaimField::Message => tell_bytes(words, &[], call.claim.bytes.as_bytes()),
        ClaimField::Woken => tell_ended(words, EndedWaits::NoWait, call.claim.woken.as_slice()),
    }
    words.rule(format_args!("part 6, {}", conditions_rule(&call.request)));
}

// Reports the codes of the conditions, and the outcome that is claimed.
fn tell_expected_codes(words: &mut Words, conditions: &Conditions, claim: &Claim) {
    words.say("expected ");
    words.begin_part(Part::Expected);
    words.say("the outcome ");
    tell_codes(words, conditions);
    words.end_part();
    tell_recorded_outcome(words, claim);
}

/// Reports what a partition sees of a call through this channel, if its claim is different.
pub fn tell_through(words: &mut Words, refusal: &Refusal<'_>, channel: ChanId) {
    let (Some(call), Some(field)) = (refusal.call(), ClaimField::of(refusal.cause)) else {
        return;
    };
    words.next_line();
    match field {
        ClaimField::Channel => tell_port(words, channel, call.claim.chan),
        ClaimField::Outcome => tell_impossible(words, call.claim.out),
        ClaimField::Woken => {
            words.say(
                "a call through a channel ends only waits of the other partition, but this one names ",
            );
            tell_processes(words, call.claim.woken.as_slice());
            words.rule("part 11, cause Woken");
        }
        // The channel judges these.
        ClaimField::Values | ClaimField::Message => {}
    }
}

// Reports the channel of a port, and the one that is claimed.
fn tell_port(words: &mut Words, channel: ChanId, claimed: Option<ChanId>) {
    words.say("its port belongs to ");
    words.say_part(Part::Expected, format_args!("channel {}", channel.number()));
    tell_recorded_channel(words, claimed);
    words.rule("part 10, Call, outcome (IsThrough); the channel of a port: part 5 (channel_of)");
}

// Reports that a call through a channel cannot have this outcome.
fn tell_impossible(words: &mut Words, out: Out) {
    words.say(format_args!(
        "no error condition holds, so the outcome {} is not possible here",
        out_name(out)
    ));
    if out == Out::Waits {
        words.say(": a call waits only if it has a time-out other than 0");
    }
    words.rule("part 11, cause Out (CanHave)");
}

/// Reports what a call gives its caller, if its claim is different.
pub fn tell_answer(words: &mut Words, refusal: &Refusal<'_>, given: &Given<'_>) {
    let (Some(call), Some(field)) = (refusal.call(), ClaimField::of(refusal.cause)) else {
        return;
    };
    if let Some(refusing) = refusal.partition() {
        if field == ClaimField::Channel {
            tell_unused_channel(words, &call.claim);
            return;
        }
        tell_judged(words, refusal, &refusing, call, field);
    }
    words.next_line();
    match field {
        ClaimField::Outcome => tell_outcome(words, given.out, &call.claim),
        ClaimField::Values => tell_values(words, given, &call.claim),
        ClaimField::Message => tell_bytes(words, given.bytes, call.claim.bytes.as_bytes()),
        ClaimField::Woken => tell_woken(words, refusal, given, call),
        // A partition reports it before it looks at what the call gives, and a channel demands no other.
        ClaimField::Channel => {}
    }
    words.rule(answer_rule(&call.request));
}

// Reports that a service uses no port, and so no channel.
fn tell_unused_channel(words: &mut Words, claim: &Claim) {
    words.next_line();
    tell_no_channel(words, claim);
    words.rule("part 10, Call, outcome (IsAnswered)");
}

// Reports that a call goes through no channel, and the channel that is claimed.
fn tell_no_channel(words: &mut Words, claim: &Claim) {
    words.say("the call goes through ");
    words.say_part(Part::Expected, "no channel");
    tell_recorded_channel(words, claim.chan);
}

// Reports the channel that is claimed.
fn tell_recorded_channel(words: &mut Words, claimed: Option<ChanId>) {
    words.say(", but the record names ");
    match claimed {
        Some(claimed) => {
            words.say_part(Part::Recorded, format_args!("channel {}", claimed.number()));
        }
        None => words.say_part(Part::Recorded, "no channel"),
    }
}

// Reports by what a partition judges a call.
fn tell_judged(
    words: &mut Words,
    refusal: &Refusal<'_>,
    refusing: &Refusing<'_>,
    call: &Call,
    field: ClaimField,
) {
    if field == ClaimField::Outcome {
        tell_no_condition(words);
    }
    tell_basis(words, refusing.state, refusal.time(), call);
    if field == ClaimField::Values {
        tell_holder(words, refusing.state, call);
    }
}

/// Reports that a creation gives a new number, and what is claimed.
pub fn tell_new_number(words: &mut Words, refusal: &Refusal<'_>) {
    let (Some(call), Some(field)) = (refusal.call(), ClaimField::of(refusal.cause)) else {
        return;
    };
    let Some(refusing) = refusal.partition() else {
        return;
    };
    if field == ClaimField::Channel {
        tell_unused_channel(words, &call.claim);
        return;
    }
    tell_judged(words, refusal, &refusing, call, field);
    words.next_line();
    tell_creation(words, &call.claim, field);
    words.rule(answer_rule(&call.request));
}

// Reports what a creation gives and what is claimed, in the field that is not as expected.
fn tell_creation(words: &mut Words, claim: &Claim, field: ClaimField) {
    match field {
        ClaimField::Outcome => tell_outcome(words, Out::Answer(Code::NoError), claim),
        ClaimField::Values => {
            words.say("expected ");
            words.say_part(
                Part::Expected,
                "a new number from 1 to 2,147,483,647, which nothing of this kind in the partition has",
            );
            tell_recorded_values(words, claim);
        }
        ClaimField::Message => tell_bytes(words, &[], claim.bytes.as_bytes()),
        ClaimField::Woken => tell_ended(words, EndedWaits::NoWait, claim.woken.as_slice()),
        // Reported before the piece looks at what the call gives.
        ClaimField::Channel => {}
    }
}

// Reports whose waits the call ends, which processes the record names, and which of them it names wrongly.
fn tell_woken(words: &mut Words, refusal: &Refusal<'_>, given: &Given<'_>, call: &Call) {
    let named = call.claim.woken.as_slice();
    let ended = EndedWaits::of(&given.woken);
    tell_ended(words, ended, named);
    match &ended {
        EndedWaits::NoWait | EndedWaits::Of(_) => {}
        EndedWaits::All(_) => {
            tell_unexpected(words, given, call, "does not wait there");
            if let Some(refusing) = refusal.partition() {
                tell_missing(words, &refusing, given, call);
            }
        }
        EndedWaits::First(_) => tell_unexpected(words, given, call, "is not among them"),
    }
}

// Reports which processes the record names, though the call does not end their waits.
fn tell_unexpected(words: &mut Words, given: &Given<'_>, call: &Call, why: &str) {
    for who in call.claim.woken.as_slice() {
        if misnamed_by(given, &call.claim.woken, who) == Some(Misnaming::Unexpected) {
            words.say(format_args!("; {} {why}", Numbered(*who)));
        }
    }
}

// Reports whose waits the call ends, and which processes the record names.
fn tell_ended(words: &mut Words, ended: EndedWaits, named: &[Who]) {
    words.say("the call ends ");
    tell_expected_waits(words, ended);
    tell_recorded_processes(words, named);
}

// Reports which processes of the partition are not named, though the call ends their waits.
fn tell_missing(words: &mut Words, refusing: &Refusing<'_>, given: &Given<'_>, call: &Call) {
    let table = refusing.state.processes();
    // The initialising process is in the table, and not counted.
    for index in 0..table.len().saturating_add(1) {
        let Some((number, _)) = table.at(index) else {
            return;
        };
        let who = Who {
            part: refusing.number,
            proc: *number,
        };
        if misnamed_by(given, &call.claim.woken, &who) == Some(Misnaming::Missing) {
            words.say(format_args!("; {} waits there too", Numbered(who)));
        }
    }
}
