// Messages that pass an end of a channel outside the module.

use crate::claims::{woken_at_arrival, woken_by};
use crate::machine::Machine;
use apex_types::{Body, ChanId, Crossing, Message};
use channel::Channel;
use piece_check::{Piece, Seen};
use seed_choices::Choices;
use std::alloc::{AllocError, Global};

/// A message that can arrive from outside, or one that can depart, of a channel that is chosen among those with such an end. None if there
/// is no such channel, or if nothing can depart from it.
///
/// `AllocError` if memory is refused.
pub fn crossing(
    alloc: Global,
    choices: &mut Choices,
    machine: &Machine<'_>,
) -> Result<Option<Body>, AllocError> {
    let Some(number) = channel_with_end(alloc, choices, machine)? else {
        return Ok(None);
    };
    match channel_of(machine, number) {
        Some(channel) if channel.is_from_outside() => {
            Ok(Some(Body::Arrive(arrival(alloc, choices, channel)?)))
        }
        Some(channel) => match departure(alloc, channel)? {
            Some(departing) => Ok(Some(Body::Depart(departing))),
            None => Ok(None),
        },
        None => Ok(None),
    }
}

/// The channel of this number, if it is configured.
pub fn channel_of<'a>(machine: &'a Machine<'_>, number: ChanId) -> Option<&'a Channel> {
    held(machine.channel(number)?)
}

// One of the channels that have an end outside, if there is one.
fn channel_with_end(
    alloc: Global,
    choices: &mut Choices,
    machine: &Machine<'_>,
) -> Result<Option<ChanId>, AllocError> {
    let mut found: Vec<ChanId> = Vec::new(alloc);
    for number in 0..machine.piece_count() {
        if let Some(channel) = channel_at(machine, number) {
            if channel.is_from_outside() || channel.is_to_outside() {
                found.push(channel.number())?;
            }
        }
    }
    Ok(choices.of(&found))
}

// The channel that the piece of this number holds, if it is the piece of one.
fn channel_at<'a>(machine: &'a Machine<'_>, number: usize) -> Option<&'a Channel> {
    held(machine.piece(number)?)
}

// The channel that a piece holds, if it is the piece of one.
fn held(piece: &Piece) -> Option<&Channel> {
    match piece.seen() {
        Seen::Channel { channel, .. } => Some(channel),
        Seen::Module { .. } | Seen::Partition { .. } => None,
    }
}

// A message that arrives at a channel.
fn arrival(
    alloc: Global,
    choices: &mut Choices,
    channel: &Channel,
) -> Result<Crossing, AllocError> {
    let woken = woken_at_arrival(alloc, channel)?;
    let mut bytes = Vec::new(alloc);
    for _ in 0..choices.between(1, i64::from(channel.size())) {
        bytes.push(u8::try_from(choices.below(256)).unwrap_or(0))?;
    }
    Ok(Crossing {
        chan: channel.number(),
        message: Message::new(bytes),
        woken,
    })
}

// The message that departs from a channel next, if it holds one.
fn departure(alloc: Global, channel: &Channel) -> Result<Option<Crossing>, AllocError> {
    let Some(given) = channel.answer_to_departure() else {
        return Ok(None);
    };
    if given.bytes.is_empty() {
        return Ok(None);
    }
    Ok(Some(Crossing {
        chan: channel.number(),
        message: Message::new(Vec::from_slice(alloc, given.bytes)?),
        woken: woken_by(alloc, &given)?,
    }))
}
