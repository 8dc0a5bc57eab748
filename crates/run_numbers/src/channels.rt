// What a record gives to the figures of a channel.

ghost use Rattle.std.specs.Prelude.{◌≡◌, ◌++◌, ◌∷◌, [], length, nat_eq, ◌&&◌, if◌then◌else◌, OnOk};
ghost use Rattle.run_numbers.specs.declared.figure.Figure.TheVariants.{Messages, Waiters};
ghost use Rattle.run_numbers.specs.declared.figure.Thing.TheVariants as thing;
ghost use Rattle.run_numbers.specs.declared.observation.Observation.TheVariants.{Value};
ghost use Rattle.run_numbers.specs.Channels.{age_of, joined_queue, read, sampled, used, used_after};
ghost use Rattle.run_numbers.specs.Observed.{when};
ghost use Rattle.channel.specs.Kinds.{is_sampled};
ghost use Rattle.apex_machine.specs.After.{is_channel};
ghost use Rattle.apex_machine.specs.State.{Channel as Channel653};

use crate::figure::{Figure, Thing};
use crate::observation::{Observation, add, add_if};
use apex_types::{
    Body, Call, ChanId, Code, Crossing, Ordered, Out, QueuingOperation, Request, SamplingOperation,
};
use channel::Channel;
use scheduling::Times;
use std::alloc::AllocError;
use wait_set::MessageQueue;

/// Adds what a record gives to the figures of a channel, by the times and the channel before it.
pub(crate) fn observe_channel(
    observed: &mut Vec<Observation>,
    times: &Times,
    channel: &Channel,
    ordered: &Ordered,
) -> Result<(), AllocError>
    ensures { OnOk result (observed.new.items ≡ observed.old.items ++ used channel.now.number times.now channel.now.channel ordered.now.core ordered.now.rec.body) }
{
    match &ordered.rec.body {
        Body::Call(call) => {
            if !is_through(call, channel.number()) {
                return Ok(());
            }
            observe_sample(observed, times.now(ordered.core), channel, call)
        }
        Body::Arrive(crossing) => {
            let is_written = is_written(channel, crossing);
            let written = Observation::Value(Figure::Writes(channel.number()), 1);
            add_if(observed, is_written, written)
        }
        _ => Ok(()),
    }
}

// Whether a call goes through this channel.
fn is_through(call: &Call, channel: ChanId) -> bool
    ensures { result ≡ is_channel channel call.now.claim.chan }
{
    match call.claim.chan {
        Some(chan) => chan.number() == channel.number(),
        None => false,
    }
}

// Whether an arrival is a write of this channel: it is a sampling channel, at which the message arrives.
fn is_written(channel: &Channel, crossing: &Crossing) -> bool
    ensures { result ≡ (nat_eq crossing.now.chan channel.now.number && is_sampled channel.now.channel.content) }
{
    if crossing.chan.number() != channel.number().number() {
        return false;
    }
    channel.queue().is_none()
}

// Adds what a call through a channel gives, at this time of its core.
fn observe_sample(
    observed: &mut Vec<Observation>,
    now: u64,
    channel: &Channel,
    call: &Call,
) -> Result<(), AllocError>
    ensures { OnOk result (observed.new.items ≡ observed.old.items ++ sampled channel.now.number now channel.now.channel call.now) }
{
    let Request::SamplingPort(_, operation) = &call.request else {
        return Ok(());
    };
    match operation {
        SamplingOperation::Write { .. } => {
            let is_written = call.claim.out == Out::Answer(Code::NoError);
            let written = Observation::Value(Figure::Writes(channel.number()), 1);
            add_if(observed, is_written, written)
        }
        SamplingOperation::Read => observe_read(observed, now, channel, call.claim.val),
    }
}

// Adds a read of a sampling channel at this time, which claims this validity.
fn observe_read(
    observed: &mut Vec<Observation>,
    now: u64,
    channel: &Channel,
    validity: Option<i64>,
) -> Result<(), AllocError>
    ensures { OnOk result (observed.new.items ≡ observed.old.items ++ read channel.now.number now channel.now.channel.content validity) }
{
    let number = channel.number();
    add(observed, Observation::Value(Figure::Reads(number), 1))?;
    let is_invalid = validity != Some(1);
    add_if(
        observed,
        is_invalid,
        Observation::Value(Figure::InvalidReads(number), 1),
    )?;
    observe_age(observed, now, channel)
}

// Adds the age of the message that a sampling channel holds at this time, if it holds one.
fn observe_age(
    observed: &mut Vec<Observation>,
    now: u64,
    channel: &Channel,
) -> Result<(), AllocError>
    ensures { OnOk result (observed.new.items ≡ observed.old.items ++ age_of channel.now.number now channel.now.channel.content) }
{
    let Some(written) = channel.written() else {
        return Ok(());
    };
    let age = now.saturating_sub(written.stamp());
    let number = channel.number();
    add(observed, Observation::Value(Figure::Ages(number), age))
}

/// Adds how many messages a queuing channel holds, and how many processes wait there, after a record that uses it.
pub(crate) fn observe_queue(
    observed: &mut Vec<Observation>,
    channel: &Channel,
    ordered: &Ordered,
) -> Result<(), AllocError>
    ensures { OnOk result (observed.new.items ≡ observed.old.items ++ used_after channel.now.number channel.now.channel ordered.now.rec.body) }
{
    let Some(queue) = channel.queue() else {
        return Ok(());
    };
    let number = channel.number();
    match &ordered.rec.body {
        Body::Call(call) => observe_used(observed, number, queue, call),
        Body::Arrive(crossing) => observe_crossed(observed, number, queue, crossing),
        Body::Depart(crossing) => observe_crossed(observed, number, queue, crossing),
        _ => Ok(()),
    }
}

// Adds how many messages a queuing channel holds, and how many processes wait there, after a call, if it goes through the channel.
fn observe_used(
    observed: &mut Vec<Observation>,
    number: ChanId,
    queue: &MessageQueue,
    call: &Call,
) -> Result<(), AllocError>
    ensures { (channel : Channel653) → channel.senders ≡ queue.now.senders.entries → channel.receivers ≡ queue.now.receivers.entries → OnOk result (observed.new.items ≡ observed.old.items ++ (if is_channel number call.now.claim.chan then Value (Messages (thing.Channel number)) (length queue.now.messages) ∷ joined_queue number channel call.now else [])) }
{
    if !is_through(call, number) {
        return Ok(());
    }
    observe_messages(observed, number, queue)?;
    observe_waiters(observed, number, queue, call)
}

// Adds how many messages a queuing channel holds after a message has arrived there, or departed.
fn observe_crossed(
    observed: &mut Vec<Observation>,
    number: ChanId,
    queue: &MessageQueue,
    crossing: &Crossing,
) -> Result<(), AllocError>
    ensures { OnOk result (observed.new.items ≡ observed.old.items ++ when (nat_eq crossing.now.chan number) (Value (Messages (thing.Channel number)) (length queue.now.messages))) }
{
    let is_here = crossing.chan == number;
    let messages = queue.len() as u64;
    let thing = Thing::Channel(number);
    add_if(
        observed,
        is_here,
        Observation::Value(Figure::Messages(thing), messages),
    )
}

// Adds how many messages a queuing channel holds.
fn observe_messages(
    observed: &mut Vec<Observation>,
    number: ChanId,
    queue: &MessageQueue,
) -> Result<(), AllocError>
    ensures { OnOk result (observed.new.items ≡ observed.old.items ++ Value (Messages (thing.Channel number)) (length queue.now.messages) ∷ []) }
{
    let messages = queue.len() as u64;
    let thing = Thing::Channel(number);
    add(
        observed,
        Observation::Value(Figure::Messages(thing), messages),
    )
}

// Adds how many processes wait at the end of a channel where the caller waits, if it does.
fn observe_waiters(
    observed: &mut Vec<Observation>,
    number: ChanId,
    queue: &MessageQueue,
    call: &Call,
) -> Result<(), AllocError>
    ensures { (channel : Channel653) → channel.senders ≡ queue.now.senders.entries → channel.receivers ≡ queue.now.receivers.entries → OnOk result (observed.new.items ≡ observed.old.items ++ joined_queue number channel call.now) }
{
    if call.claim.out != Out::Waits {
        return Ok(());
    }
    let Request::QueuingPort(_, operation) = &call.request else {
        return Ok(());
    };
    match operation {
        QueuingOperation::Send { .. } => observe_waiting(observed, number, queue.senders().len()),
        QueuingOperation::Receive { .. } => {
            observe_waiting(observed, number, queue.receivers().len())
        }
        QueuingOperation::Clear => Ok(()),
    }
}

// Adds how many processes wait at an end of a channel.
fn observe_waiting(
    observed: &mut Vec<Observation>,
    number: ChanId,
    waiting: usize,
) -> Result<(), AllocError>
    ensures { OnOk result (observed.new.items ≡ observed.old.items ++ Value (Waiters (thing.Channel number)) waiting ∷ []) }
{
    let thing = Thing::Channel(number);
    add(
        observed,
        Observation::Value(Figure::Waiters(thing), waiting as u64),
    )
}
