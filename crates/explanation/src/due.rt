// Processes whose waits end at a tick or by a record of others, and that a record names wrongly.

use crate::processes::{tell_process, tell_standing};
use crate::refusal::{Refusal, Refusing};
use apex_machine::{Process, Wait};
use apex_types::{Body, Who, Woken};
use piece_check::Misnaming;
use wording::{Numbered, Words};

/// Where the rule is of the processes that a message from or to the outside wakes.
const CROSSING: &str = "part 11, cause Woken (AllWaitAt)";

/// Reports the processes that a tick or a record of others names wrongly.
pub fn tell_named(words: &mut Words, refusal: &Refusal<'_>) {
    let Some(refusing) = refusal.partition() else {
        return;
    };
    match &refusal.ordered.rec.body {
        Body::Tick(woken) => tell_tick(words, refusal, &refusing, woken),
        Body::Call(call) => {
            tell_foreign(
                words,
                refusal,
                &refusing,
                "call",
                call.claim.woken.as_slice(),
            );
            words.rule("part 11, cause Woken (WakesHere)");
        }
        Body::Arrive(crossing) => {
            tell_foreign(
                words,
                refusal,
                &refusing,
                "arrival",
                crossing.woken.as_slice(),
            );
            words.rule(CROSSING);
        }
        Body::Depart(crossing) => {
            tell_foreign(
                words,
                refusal,
                &refusing,
                "departure",
                crossing.woken.as_slice(),
            );
            words.rule(CROSSING);
        }
        Body::Ret(_) | Body::Disp(_) | Body::Error(_) => {}
    }
}

// Reports the processes whose waits fall due at a tick and that are not named, and those that are named and do not fall due.
fn tell_tick(words: &mut Words, refusal: &Refusal<'_>, refusing: &Refusing<'_>, woken: &Woken) {
    words.next_line();
    words.say(format_args!(
        "after the tick, the time of core {} is {}",
        refusal.core().number(),
        refusal.time().saturating_add(1)
    ));
    let table = refusing.state.processes();
    for index in 0..table.len().saturating_add(1) {
        let Some((proc, process)) = table.at(index) else {
            break;
        };
        let who = Who {
            part: refusing.number,
            proc: *proc,
        };
        if let Some(misnaming) = refusal.piece.misnamed_at_tick(refusal.core(), woken, *proc) {
            tell_misnamed(words, who, process, misnaming);
        }
    }
    tell_unknown(words, refusing, woken.as_slice());
    words.rule("part 10, Tick, due (NamesThoseDue); when a wait falls due: part 8 (IsDue)");
}

// Reports how a tick names a process wrongly.
fn tell_misnamed(words: &mut Words, who: Who, process: &Process, misnaming: Misnaming) {
    let proc = who.proc;
    words.next_line();
    words.say(Numbered(who));
    tell_standing(words, proc, process);
    match misnaming {
        Misnaming::Missing => {
            words.say(": its wait ends at this tick, but the record does not name it");
        }
        Misnaming::Unexpected => {
            words.say(format_args!("; its core is {}", process.affinity.number()));
            words.say(if process.wait == Wait::Nothing {
                ": it waits for nothing, but the record names it"
            } else {
                ": its wait does not end at this tick, but the record names it"
            });
        }
    }
}

// Reports named processes that the partition does not have.
fn tell_unknown(words: &mut Words, refusing: &Refusing<'_>, named: &[Who]) {
    for who in named {
        if who.part == refusing.number && refusing.state.processes().proc(who.proc).is_none() {
            tell_nonexistent(words, *who);
        }
    }
}

// Reports a named process that its partition does not have.
fn tell_nonexistent(words: &mut Words, who: Who) {
    words.next_line();
    words.say(format_args!("there is no {}, but the record names it", Numbered(who)));
}

// Reports the processes that a record of others names and that do not wait at its channel.
fn tell_foreign(
    words: &mut Words,
    refusal: &Refusal<'_>,
    refusing: &Refusing<'_>,
    what: &str,
    named: &[Who],
) {
    let body = &refusal.ordered.rec.body;
    for who in named {
        if who.part != refusing.number || refusal.piece.may_wake(body, who.proc) {
            continue;
        }
        match refusing.state.processes().proc(who.proc) {
            Some(process) => {
                words.next_line();
                tell_process(words, *who, process);
                words.say(format_args!(
                    ": it does not wait where this {what} can end a wait, but the record names it"
                ));
            }
            None => tell_nonexistent(words, *who),
        }
    }
}
