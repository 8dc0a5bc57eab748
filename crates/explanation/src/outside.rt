// Calls that the program does not judge.

use crate::refusal::Refusal;
use apex_types::{CallerOperation, ProcessOperation, Request};
use wording::Words;

/// Reports that the initialising process stops itself.
pub fn tell_initialising(words: &mut Words) {
    begin(words);
    words.say("it is the initialising process, which stops itself");
    end(words);
}

/// Reports that a call stops, suspends or gives a priority to the owner of a mutex.
pub fn tell_mutex_owner(words: &mut Words, refusal: &Refusal<'_>) {
    begin(words);
    tell_target(words, refusal, "owns");
    end(words);
}

/// Reports that a call suspends or gives a priority to a process that waits for a mutex.
pub fn tell_mutex_waiter(words: &mut Words, refusal: &Refusal<'_>) {
    begin(words);
    tell_target(words, refusal, "waits for");
    end(words);
}

fn begin(words: &mut Words) {
    words.next_line();
    words.say(
        "the program does not judge this use of the service, which does not mean that it is unlawful",
    );
    words.next_line();
}

fn end(words: &mut Words) {
    words.rule("part 18, outside the profile (in_profile)");
}

// Reports what the process that a call names, or the caller that stops itself, does with a mutex.
fn tell_target(words: &mut Words, refusal: &Refusal<'_>, what: &str) {
    let Some(call) = refusal.call() else {
        return;
    };
    match &call.request {
        Request::Process(process, ProcessOperation::Stop) => {
            words.say(format_args!("process {process}, which it stops, {what} a mutex"));
        }
        Request::Process(
            process,
            ProcessOperation::Suspend | ProcessOperation::SetPriority { .. },
        ) => {
            words.say(format_args!("process {process} {what} a mutex"));
        }
        Request::Caller(CallerOperation::StopSelf) => {
            words.say(format_args!("it {what} a mutex, and stops itself"));
        }
        // no other request is outside the profile by a mutex
        Request::CreateProcess { .. }
        | Request::Process(..)
        | Request::Caller(..)
        | Request::SetPartitionMode(..)
        | Request::Create(..)
        | Request::Object(..)
        | Request::SamplingPort(..)
        | Request::QueuingPort(..)
        | Request::GetId(..)
        | Request::GetStatus(..)
        | Request::Health(_)
        | Request::Preemption(_) => {}
    }
}
