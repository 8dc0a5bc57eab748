// The waiting sets of a channel from which records of others wake processes.

ghost use Rattle.std.specs.Prelude.{◌≡◌};
ghost use Rattle.piece_check.specs.Waking as waking;

use apex_machine::WaitingSet;
use apex_types::{Body, Call, End, QueuingOperation, Request};

/// The set in which a call of another partition can end waits: a send ends waits to receive, a receive and CLEAR_QUEUING_PORT end waits to
/// send. None if the call is of no such service, or claims no channel.
pub(crate) fn set_woken_by(call: &Call) -> Option<WaitingSet>
    ensures { result ≡ waking.set_woken_by call.now }
{
    let Request::QueuingPort(_, operation) = &call.request else {
        return None;
    };
    let channel = call.claim.chan?;
    let end = match operation {
        QueuingOperation::Send { .. } => End::Receivers,
        QueuingOperation::Receive { .. } | QueuingOperation::Clear => End::Senders,
    };
    Some(WaitingSet::of_channel(channel, end))
}

/// The set in which a record of others can end waits: that of its call; of an arrival the set of those that wait to receive, of a departure
/// the set of those that wait to send. None for any other record.
pub(crate) fn set_woken_by_record(body: &Body) -> Option<WaitingSet>
    ensures { result ≡ waking.set_woken_by_record body.now }
{
    match body {
        Body::Call(call) => set_woken_by(call),
        Body::Arrive(crossing) => Some(WaitingSet::of_channel(crossing.chan, End::Receivers)),
        Body::Depart(crossing) => Some(WaitingSet::of_channel(crossing.chan, End::Senders)),
        Body::Ret(_) | Body::Disp(_) | Body::Tick(_) | Body::Error(_) => None,
    }
}
