// The messages that a call hands to the processes whose waits it ends.

ghost use Rattle.std.specs.Prelude.{◌≡◌, IfOk, vec_len};
ghost use Rattle.apex_machine.specs.Waiting.{message_of};
ghost use Rattle.scheduling.specs.HandedOver.{AreCopies};

use apex_types::{Message, QueuingOperation, Request, SamplingOperation};
use std::alloc::{AllocError, Global};

/// This many copies of a message.
///
/// AllocError if memory is refused.
pub fn messages_for(alloc: Global, message: &[u8], count: usize) -> Result<Vec<Message>, AllocError>
    ensures length { IfOk result (λ messages. vec_len messages ≡ count) }
    ensures alike { IfOk result (λ messages. AreCopies message.now messages.items) }
{
    let mut messages = Vec::new(alloc);
    for copied in 0..count {
        let bytes = Vec::from_slice(alloc, message)?;
        messages.push(Message::new(bytes))?;
    }
    Ok(messages)
}

/// The message that a request hands over; empty if it hands over none.
pub fn message_of(request: &Request) -> &[u8]
    ensures { result.now ≡ message_of request.now }
{
    let message = match request {
        Request::Object(_, operation) => operation.message(),
        Request::SamplingPort(_, SamplingOperation::Write { message, .. })
        | Request::QueuingPort(_, QueuingOperation::Send { message, .. }) => Some(message),
        _ => None,
    };
    match message {
        Some(message) => message.as_bytes(),
        None => &[],
    }
}
