// What a piece demands of a record, by the cause that is reported if the demand fails.

use apex_types::{Body, Cause};
use piece_check::Subject;
use wording::Words;

/// Reports the demand that fails.
pub fn tell_demand(words: &mut Words, subject: Subject, body: &Body, cause: Cause) {
    words.say(": ");
    match cause {
        Cause::Names => words.say(
            "each partition and channel that a record names must be configured",
        ),
        Cause::Skew => {
            words.say("a tick must leave its core at most the skew ahead of every other core");
        }
        Cause::Idle => tell_idle(words, body),
        Cause::Window => words.say(
            "a call, a return or an error must be in a window of its own partition",
        ),
        Cause::Deadline => tell_deadline(words, body),
        Cause::Choice => tell_choice(words, subject, body),
        Cause::Return => tell_return(words, body),
        Cause::OutsideProfile => words.say("this use of the service is outside the profile"),
        Cause::Prio => words.say("a call must show the current priority of its caller"),
        Cause::Chan => tell_channel(words, body),
        Cause::Out => tell_outcome(words, body),
        Cause::Val => words.say("the value must be the one that belongs to the outcome"),
        Cause::Data => tell_message(words, body),
        Cause::Woken => words.say("a record must name exactly the processes whose waits it ends"),
    }
}

fn tell_idle(words: &mut Words, body: &Body) {
    match body {
        Body::Call(_) | Body::Ret(_) => words.say(
            "outside every window, no call and no return is allowed",
        ),
        Body::Disp(_) => words.say("outside every window, a dispatch must name no process"),
        Body::Tick(_) => words.say("outside every window, a core must be idle when it ticks"),
        Body::Arrive(_) | Body::Depart(_) | Body::Error(_) => {}
    }
}

fn tell_deadline(words: &mut Words, body: &Body) {
    match body {
        Body::Error(_) => {
            words.say(
                "an error of a missed deadline must be on the core of a process that has missed its deadline",
            );
        }
        Body::Call(_)
        | Body::Ret(_)
        | Body::Disp(_)
        | Body::Tick(_)
        | Body::Arrive(_)
        | Body::Depart(_) => {
            words.say(
                "a missed deadline must be reported before anything else happens on its core in a window of its partition",
            );
        }
    }
}

fn tell_outcome(words: &mut Words, body: &Body) {
    match body {
        Body::Error(_) => words.say(
            "an error must restart its partition exactly if no handler takes it and the configuration says so",
        ),
        Body::Call(_)
        | Body::Ret(_)
        | Body::Disp(_)
        | Body::Tick(_)
        | Body::Arrive(_)
        | Body::Depart(_) => words.say("the outcome must be the one that the rules give"),
    }
}

fn tell_channel(words: &mut Words, body: &Body) {
    match body {
        Body::Arrive(_) => words.say("a message must arrive at a channel whose source is outside"),
        Body::Depart(_) => words.say(
            "a message must depart from a queuing channel whose destination is outside",
        ),
        Body::Call(_) | Body::Ret(_) | Body::Disp(_) | Body::Tick(_) | Body::Error(_) => words.say(
            "a call must name the channel of its port, or none if an error condition holds or it uses no port",
        ),
    }
}

fn tell_message(words: &mut Words, body: &Body) {
    match body {
        Body::Arrive(_) => {
            words.say("a message that arrives must be no longer than the channel's greatest size");
        }
        Body::Depart(_) => {
            words.say("a message that departs must be the oldest of the channel");
        }
        Body::Call(_) | Body::Ret(_) | Body::Disp(_) | Body::Tick(_) | Body::Error(_) => {
            words.say("the message must be the one that belongs to the outcome");
        }
    }
}

fn tell_choice(words: &mut Words, subject: Subject, body: &Body) {
    if let Subject::Channel(_) = subject {
        words.say(
            "a process that calls through a channel must not be waiting at either of its ends",
        );
        return;
    }
    match body {
        Body::Disp(_) => words.say("a dispatch must name the choice of its core"),
        Body::Tick(_) => words.say("at a tick the occupant must be the choice of the core"),
        Body::Call(_) | Body::Ret(_) => {
            words.say(
                "a process that calls or returns must be the occupant of its core, and the choice",
            );
        }
        Body::Error(_) => {
            words.say(
                "a process that has an error must be the occupant of its core, and the choice",
            );
        }
        Body::Arrive(_) | Body::Depart(_) => {}
    }
}

fn tell_return(words: &mut Words, body: &Body) {
    match body {
        Body::Ret(_) => words.say("a return must be that of the pending outcome"),
        Body::Call(_) => {
            words.say("a process must return from its last call before it makes another");
        }
        Body::Disp(_) | Body::Tick(_) | Body::Arrive(_) | Body::Depart(_) | Body::Error(_) => {}
    }
}
