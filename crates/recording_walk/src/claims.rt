// What a call can claim: the pieces show it.

use crate::machine::Machine;
use crate::woken::woken_of;
use apex_types::limits::GREATEST_NUMBER;
use apex_types::{
    Body, Call, Cause, Claim, Code, Message, ObjectKind, Ordered, Out, Request, Who, Woken,
};
use channel::Channel;
use partition_state::PartitionState;
use piece_check::Evidence;
use run_view::waiters_of;
use seed_choices::Choices;
use std::alloc::{AllocError, Global};
use wait_set::{Conditions, Ended, Given, GivenValue};

// How often a random number is tried for a new one.
const TRIES: u8 = 8;

/// Claims what the call can claim, if the machine shows what that is: the outcome, with what goes with it. Returns whether it does. Any
/// other record stays as it is.
///
/// `AllocError` if memory is refused.
pub fn claim_what_is_given(
    alloc: Global,
    choices: &mut Choices,
    machine: &Machine<'_>,
    ordered: &mut Ordered,
) -> Result<bool, AllocError> {
    let Some(claim) = claim_shown(alloc, choices, machine, ordered)? else {
        return Ok(false);
    };
    if let Body::Call(call) = &mut ordered.rec.body {
        call.claim = claim;
    }
    Ok(true)
}

/// A claim of this priority and nothing else.
pub fn bare_claim(alloc: Global, prio: u8) -> Claim {
    Claim {
        prio,
        out: Out::Answer(Code::NoError),
        val: None,
        val2: None,
        val3: None,
        bytes: Message::empty(alloc),
        chan: None,
        woken: Woken::none(alloc),
    }
}

// What the call can claim, if its partition or its channel shows it.
fn claim_shown(
    alloc: Global,
    choices: &mut Choices,
    machine: &Machine<'_>,
    ordered: &Ordered,
) -> Result<Option<Claim>, AllocError> {
    let Body::Call(call) = &ordered.rec.body else {
        return Ok(None);
    };
    let prio = call.claim.prio;
    let Some(partition) = machine.partition(call.who.part) else {
        return Ok(None);
    };
    let bare = bare_claim(alloc, prio);
    match partition
        .piece
        .evidence(machine.config(), ordered, Cause::Out)
    {
        Evidence::Conditions(conditions) => Ok(Some(Claim {
            out: Out::Answer(code_of(choices, &conditions)),
            ..bare
        })),
        Evidence::Answer(given) => claim_of(alloc, &given, bare),
        Evidence::NewNumber => Ok(Some(Claim {
            val: Some(new_number(choices, partition.state, &call.request)),
            ..bare
        })),
        Evidence::Through(number) => {
            let Some(channel) = machine.channel(number) else {
                return Ok(None);
            };
            match channel.evidence(machine.config(), ordered, Cause::Out) {
                Evidence::Answer(given) => claim_of(
                    alloc,
                    &given,
                    Claim {
                        chan: Some(number),
                        ..bare
                    },
                ),
                _ => Ok(None),
            }
        }
        _ => Ok(None),
    }
}

// The code of one of the conditions that hold.
fn code_of(choices: &mut Choices, conditions: &Conditions) -> Code {
    match choices.of(conditions.as_slice()) {
        Some(condition) => condition.code(),
        None => Code::InvalidParam,
    }
}

// The claim of what an operation gives, with the priority and the channel of this one.
fn claim_of(alloc: Global, given: &Given<'_>, bare: Claim) -> Result<Option<Claim>, AllocError> {
    Ok(Some(Claim {
        out: given.out,
        val: signed(given.val),
        val2: signed(given.val2),
        val3: signed(given.val3),
        bytes: Message::new(Vec::from_slice(alloc, given.bytes)?),
        woken: woken_by(alloc, given)?,
        ..bare
    }))
}

// A value as a record gives it.
fn signed(value: Option<GivenValue>) -> Option<i64> {
    match value {
        Some(GivenValue::Natural(value)) => i64::try_from(value).ok(),
        Some(GivenValue::BelowZero(value)) => Some(value),
        None => None,
    }
}

/// The processes whose waits an operation ends.
///
/// `AllocError` if memory is refused.
pub fn woken_by(alloc: Global, given: &Given<'_>) -> Result<Woken, AllocError> {
    let mut named: Vec<Who> = Vec::new(alloc);
    match given.woken {
        Ended::Nobody => {}
        Ended::One(who) => named.push(who)?,
        Ended::All(set) => {
            for waiter in waiters_of(alloc, set)? {
                named.push(waiter.who)?;
            }
        }
        Ended::First(set, count) => {
            let waiters = waiters_of(alloc, set)?;
            for waiter in waiters.iter().take(count) {
                named.push(waiter.who)?;
            }
        }
    }
    woken_of(alloc, named)
}

/// The processes whose waits the arrival of a message at a channel ends.
///
/// `AllocError` if memory is refused.
pub fn woken_at_arrival(alloc: Global, channel: &Channel) -> Result<Woken, AllocError> {
    // What is given is matched as an option, as for a departure: bound alone, it gets no proof.
    match Some(channel.answer_to_arrival()) {
        Some(given) => woken_by(alloc, &given),
        None => Ok(Woken::none(alloc)),
    }
}

// A number that what the request creates can take.
fn new_number(choices: &mut Choices, state: &PartitionState, request: &Request) -> i64 {
    for _ in 0..TRIES {
        let most = if choices.one_in(3) {
            i64::from(GREATEST_NUMBER)
        } else {
            9
        };
        let number = choices.between(1, most);
        if is_new(state, request, number) {
            return number;
        }
    }
    for number in 1..1_000 {
        if is_new(state, request, number) {
            return number;
        }
    }
    0
}

// Whether what the request creates can take this number.
fn is_new(state: &PartitionState, request: &Request, number: i64) -> bool {
    let claimed = Some(number);
    match request {
        Request::Create(_, object) => match object.kind() {
            ObjectKind::Buffer => state.buffers().is_new_number(claimed),
            ObjectKind::Blackboard => state.blackboards().is_new_number(claimed),
            ObjectKind::Semaphore => state.semaphores().is_new_number(claimed),
            ObjectKind::Event => state.events().is_new_number(claimed),
            ObjectKind::Mutex => state.mutexes().is_new_number(claimed),
            ObjectKind::SamplingPort => state.sampling_ports().is_new_number(claimed),
            ObjectKind::QueuingPort => state.queuing_ports().is_new_number(claimed),
        },
        _ => state.processes().is_new_number(claimed),
    }
}
