// What a record does with a message that stays until another one replaces it.

use apex_types::{
    BlackboardOperation, Body, Call, ChanId, Code, ObjectKind, ObjectOperation, Ordered, Out,
    Request, SamplingOperation,
};
use piece_check::{Piece, Seen};
use run_view::ThingKey;

/// What a record does with the message of a blackboard or of a sampling channel.
#[derive(Clone, Copy)]
pub struct Showing {
    pub key: ThingKey,
    pub act: Act,
}

#[derive(Clone, Copy, PartialEq, Eq)]
pub enum Act {
    Shows,
    Clears,
    Reads,
}

/// What a record that is accepted does with such a message, if it does anything.
pub fn showing_of(pieces: &[Piece], ordered: &Ordered) -> Option<Showing> {
    match &ordered.rec.body {
        Body::Call(call) if call.claim.out == Out::Answer(Code::NoError) => shown_by(call),
        Body::Arrive(crossing) if is_sampling(pieces, crossing.chan) => Some(Showing {
            key: ThingKey::Channel(crossing.chan),
            act: Act::Shows,
        }),
        _ => None,
    }
}

fn shown_by(call: &Call) -> Option<Showing> {
    match &call.request {
        Request::Object(number, ObjectOperation::Blackboard(operation)) => Some(Showing {
            key: ThingKey::Object {
                part: call.who.part,
                kind: ObjectKind::Blackboard,
                number: u32::try_from(*number).ok()?,
            },
            act: match operation {
                BlackboardOperation::Display { .. } => Act::Shows,
                BlackboardOperation::Read { .. } => Act::Reads,
                BlackboardOperation::Clear => Act::Clears,
            },
        }),
        Request::SamplingPort(_, operation) => Some(Showing {
            key: ThingKey::Channel(call.claim.chan?),
            act: match operation {
                SamplingOperation::Write { .. } => Act::Shows,
                SamplingOperation::Read => Act::Reads,
            },
        }),
        _ => None,
    }
}

// Whether a channel is a sampling channel.
fn is_sampling(pieces: &[Piece], number: ChanId) -> bool {
    pieces.iter().any(|piece| match piece.seen() {
        Seen::Channel { channel, .. } => channel.number() == number && channel.queue().is_none(),
        Seen::Module { .. } | Seen::Partition { .. } => false,
    })
}
