// The channel of a lane.

ghost use Rattle.std.specs.Prelude.{◌≡◌, ◌≤◌, ◌<◌, ◌*◌, [], IfOk, true};
ghost use Rattle.crossbeam_channel.specs.Claims.{view, IsSeatAt};
ghost use Rattle.crossbeam_channel.specs.Ends.{sends_on, receives_on, ruled_capacity};
ghost use Rattle.core_intake.specs.Relay.{log};

use crate::batch::Batch;
use crate::cut::{Cut, cut_of};
use crate::rule::{InOrder, Log, Receiver, Sender, Side};
use std::alloc::{AllocError, Global};

/// The two ends of a channel, what they know before they are parted, and how it is cut into batches.
#[derive(Drop)]
pub struct Channel {
    pub sender: Sender,
    pub receiver: Receiver,
    pub side: Side,
    pub cut: Cut,
}

/// An empty channel: the batches that it can hold have at most `depth` records together.
pub fn channel_of(alloc: Global, depth: usize) -> Result<Channel, AllocError>
    requires { 0 < depth }
    ensures bound { IfOk result (λ channel. channel.cut.length * ruled_capacity (sends_on channel.sender) ≤ depth) }
    ensures ends { IfOk result (λ channel. receives_on channel.receiver ≡ sends_on channel.sender) }
    ensures seat { IfOk result (λ channel. IsSeatAt (sends_on channel.sender) channel.side) }
    ensures empty { IfOk result (λ channel. view channel.side ≡ log true true [] []) }
{
    let cut = cut_of(depth);
    let (sender, receiver, side) = crossbeam_channel::bounded_with::<Batch, Log, InOrder, Global>(
        alloc, cut.slots,
    )?;
    Ok(Channel {
        sender,
        receiver,
        side,
        cut,
    })
}
