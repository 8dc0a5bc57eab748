// A record in words.

use crate::naming::{Ascii, Bytes, Numbered, out_name};
use crate::request::tell_request;
use crate::words::Words;
use apex_types::{Body, Call, Claim, Crossing, ErrorReport, Ordered, Out, Return, Who};

/// How many processes of a list are shown.
const MOST_NAMED: usize = 8;

/// Reports what a record says.
pub fn tell_record(words: &mut Words, ordered: &Ordered) {
    let core = ordered.core.number();
    match &ordered.rec.body {
        Body::Call(call) => tell_call(words, call),
        Body::Ret(ret) => tell_return(words, ret),
        Body::Disp(Some(who)) => {
            words.say(format_args!("core {core} is dispatched to {}", Numbered(*who)));
        }
        Body::Disp(None) => words.say(format_args!("core {core} is left idle")),
        Body::Tick(woken) => {
            words.say(format_args!("core {core} ticks"));
            tell_woken(words, woken.as_slice());
        }
        Body::Arrive(crossing) => tell_crossing(words, crossing, "arrives at"),
        Body::Depart(crossing) => tell_crossing(words, crossing, "departs from"),
        Body::Error(report) => tell_error(words, report),
    }
}

// Reports an error of a process.
fn tell_error(words: &mut Words, report: &ErrorReport) {
    let error = Ascii(report.error.name());
    words.say(format_args!("{} has the error {error}", Numbered(report.who)));
    if report.restarts {
        words.say(", which restarts its partition");
    }
}

// Reports a message that passes an end outside the module.
fn tell_crossing(words: &mut Words, crossing: &Crossing, passes: &str) {
    words.say(Bytes(crossing.message.as_bytes()));
    words.say(format_args!(" {passes} channel {}", crossing.chan.number()));
    tell_woken(words, crossing.woken.as_slice());
}

fn tell_call(words: &mut Words, call: &Call) {
    words.say(format_args!("{} calls ", Numbered(call.who)));
    tell_request(words, &call.request);
    words.say(format_args!(", at priority {}", call.claim.prio));
    tell_claim(words, &call.claim);
}

// Reports the outcome that a call claims, and what goes with it.
fn tell_claim(words: &mut Words, claim: &Claim) {
    match claim.out {
        Out::Waits => words.say(", and waits"),
        Out::Never => words.say(", and does not return"),
        Out::Answer(_) => words.say(format_args!(", and gets {}", out_name(claim.out))),
    }
    tell_value(words, claim.val);
    tell_further(words, claim.val2, claim.val3);
    tell_message(words, claim.bytes.as_bytes());
    if let Some(channel) = claim.chan {
        words.say(format_args!(", through channel {}", channel.number()));
    }
    tell_woken(words, claim.woken.as_slice());
}

fn tell_return(words: &mut Words, ret: &Return) {
    let service = Ascii(ret.service.name());
    words.say(format_args!("{} returns from {service}", Numbered(ret.who)));
    words.say(format_args!(" with {}", out_name(Out::Answer(ret.code))));
    tell_value(words, ret.val);
    tell_further(words, ret.val2, ret.val3);
    tell_message(words, ret.bytes.as_bytes());
}

/// Reports a value, if there is one.
pub fn tell_value(words: &mut Words, val: Option<i64>) {
    if let Some(val) = val {
        words.say(format_args!(", the value {val}"));
    }
}

/// Reports a second and a third value, if there are such.
pub fn tell_further(words: &mut Words, val2: Option<i64>, val3: Option<i64>) {
    if let Some(val) = val2 {
        words.say(format_args!(", the second value {val}"));
    }
    if let Some(val) = val3 {
        words.say(format_args!(", the third value {val}"));
    }
}

/// Reports a message, if there is one.
pub fn tell_message(words: &mut Words, bytes: &[u8]) {
    if !bytes.is_empty() {
        words.say(format_args!(", {}", Bytes(bytes)));
    }
}

// Reports whose waits a record ends.
fn tell_woken(words: &mut Words, woken: &[Who]) {
    if woken.is_empty() {
        words.say(", and wakes no process");
        return;
    }
    words.say(", and wakes ");
    tell_processes(words, woken);
}

/// Reports the processes of a list.
pub fn tell_processes(words: &mut Words, named: &[Who]) {
    let mut first = true;
    for who in named.iter().take(MOST_NAMED) {
        if !first {
            words.say(", ");
        }
        first = false;
        words.say(Numbered(*who));
    }
    if named.len() > MOST_NAMED {
        words.say(format_args!(" and {} more", named.len() - MOST_NAMED));
    }
}
