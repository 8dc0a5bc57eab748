// What a call needs memory for.

ghost use Rattle.std.specs.Prelude.{◌≡◌, IfOk};
ghost use Rattle.apex_machine.specs.After as after;
ghost use Rattle.scheduling.specs.Prepared.{IsPreparedFor, outcome_due};

use crate::message::{message_of, messages_for};
use apex_machine::Outcome;
use apex_types::{Call, Code, Message, Out};
use std::alloc::{AllocError, Global};
use std::marker::Model;

/// The memory that a call needs, reserved before anything changes: for the outcome that becomes due to its caller, if one does, and for a
/// message for each process that the call names.
#[derive(Drop)]
pub struct Prepared {
    pub(crate) outcome: Option<Outcome>,
    pub(crate) messages: Vec<Message>,
}

impl Model for Prepared {
    ghost use Rattle.scheduling.specs.Prepared.{Preparation, preparation_of};

    ghost Value = { Preparation };

    ghost view = { λ prepared. preparation_of prepared.outcome prepared.messages.items };
}

/// What is prepared for a call.
///
/// AllocError if memory is refused. A call that names no process and claims no message takes no memory.
pub fn prepared_for(alloc: Global, call: &Call) -> Result<Prepared, AllocError>
    ensures { IfOk result (λ prepared. IsPreparedFor call.now prepared) }
{
    let outcome = match call.claim.out {
        Out::Answer(code) => Some(outcome_of(alloc, call, code)?),
        Out::Waits | Out::Never => None,
    };
    let count = call.claim.woken.as_slice().len();
    let messages = messages_for(alloc, message_of(&call.request), count)?;
    Ok(Prepared { outcome, messages })
}

// The outcome that a call claims, with this code.
fn outcome_of(alloc: Global, call: &Call, code: Code) -> Result<Outcome, AllocError>
    ensures { IfOk result (λ outcome. outcome ≡ after.outcome_of call.now code) }
{
    let bytes = Vec::from_slice(alloc, call.claim.bytes.as_bytes())?;
    Ok(Outcome {
        service: call.request.service(),
        code,
        val: call.claim.val,
        val2: call.claim.val2,
        val3: call.claim.val3,
        bytes: Message::new(bytes),
    })
}
