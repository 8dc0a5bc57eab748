// Messages that pass an end outside the module, and that a channel rejects.

use crate::claimed::tell_bytes;
use crate::ended::{EndedWaits, tell_expected_waits, tell_recorded_processes};
use crate::refusal::Refusal;
use apex_types::{Body, Cause, Code, Crossing, Out};
use wait_set::Given;
use wording::{Bytes, Count, Part, Words};

/// Where the rule is of the end that a message passes, and of its size.
const END: &str =
    "part 11, a channel, of an arrival and a departure (is_from_outside, is_to_outside, size_of)";

/// The message that arrives or departs; None for any other record.
pub fn crossing_of<'a>(refusal: &Refusal<'a>) -> Option<&'a Crossing> {
    match &refusal.ordered.rec.body {
        Body::Arrive(crossing) | Body::Depart(crossing) => Some(crossing),
        Body::Call(_) | Body::Ret(_) | Body::Disp(_) | Body::Tick(_) | Body::Error(_) => None,
    }
}

/// Reports that the end of the channel is inside the module.
pub fn tell_inside(words: &mut Words, refusal: &Refusal<'_>) {
    words.next_line();
    words.say(match &refusal.ordered.rec.body {
        Body::Depart(_) => "no queuing channel of this number has a destination outside the module",
        Body::Call(_)
        | Body::Ret(_)
        | Body::Disp(_)
        | Body::Tick(_)
        | Body::Arrive(_)
        | Body::Error(_) => { "the source of the channel is a port of a partition" }
    });
    words.rule(END);
}

/// Reports the greatest size of the channel's messages, in bytes, and the size of the message that arrives.
pub fn tell_size(words: &mut Words, refusal: &Refusal<'_>, size: u16) {
    let Some(crossing) = crossing_of(refusal) else {
        return;
    };
    words.next_line();
    words.say("a message of the channel has at most ");
    words.say_part(Part::Expected, Count(usize::from(size), "byte"));
    words.say(", but this one has ");
    let found = crossing.message.as_bytes().len();
    words.say_part(Part::Recorded, Count(found, "byte"));
    words.rule(END);
}

/// Reports which message departs, or whose wait an arrival or a departure ends, if the record says something else.
pub fn tell_crossing(
    words: &mut Words,
    refusal: &Refusal<'_>,
    given: &Given<'_>,
    crossing: &Crossing,
) {
    words.next_line();
    if refusal.cause == Cause::Woken {
        words.say("it ends ");
        tell_expected_waits(words, EndedWaits::of(&given.woken));
        tell_recorded_processes(words, crossing.woken.as_slice());
    } else if given.out == Out::Answer(Code::NoError) {
        tell_bytes(words, given.bytes, crossing.message.as_bytes());
    } else {
        words.say_part(Part::Expected, "no message can depart");
        words.say(": the channel holds none, but the record has ");
        words.say_part(Part::Recorded, Bytes(crossing.message.as_bytes()));
    }
    words.rule("part 5, messages from and to the outside (arrived, departed)");
}
