// Channels of either kind.

ghost use Rattle.std.specs.Prelude.{◌≡◌, ◌||◌, ℕ, None, Some, nat_eq, true, IfErr, IfNone, IfOk, IfSome, OnErr, OnOk};
ghost use Rattle.std.specs.Option.{option_copied};
ghost use Rattle.apex_machine.specs.Demands.{has_entry_in};
ghost use Rattle.apex_machine.specs.State.{is_named, is_same};
ghost use Rattle.channel.specs.Held as rules;
ghost use Rattle.channel.specs.Held.{Accepts, AllBelow, DoesNotServe, Gives, IsAfterCall, JudgesCall, RefusesCall};
ghost use Rattle.channel.specs.Kinds.{destination_in, is_sampled, last_written, queuing_held, sampling_held, size_in, source_in};
ghost use Rattle.wait_set.specs.Queues.{empty_queue};
ghost use Rattle.wait_set.specs.Givens.{answer_given};

use crate::queuing::QueuingChannel;
use crate::sampling::{SamplingChannel, Stamped};
use crate::settings::{QueuingSettings, SamplingSettings};
use apex_types::{Call, Cause, ChanId, ObjectKind, PartId, Place, Request, Who};
use std::alloc::{AllocError, Global};
use std::marker::Model;
use wait_set::{Actor, Given, MessageQueue, ObjFault};

/// A channel, which knows its number.
#[derive(Drop)]
pub struct Channel {
    pub(crate) number: ChanId,
    pub(crate) kind: Kind,
}

/// What a channel of either kind holds.
#[derive(Clone, Drop)]
pub(crate) enum Kind {
    Sampling(SamplingChannel),
    Queuing(QueuingChannel),
}

impl Model for Channel {
    ghost use Rattle.channel.specs.Held.{Held};
    ghost use Rattle.channel.specs.Kinds.{held_as};

    ghost Value = { Held };

    ghost view = { λ channel. held_as channel.number channel.kind };
}

impl Channel {
    /// The sampling channel of this number, with no message. Takes no memory.
    pub fn sampling(alloc: Global, number: ChanId, settings: SamplingSettings) -> Channel
        ensures { result ≡ sampling_held number settings None }
    {
        Channel {
            number,
            kind: Kind::Sampling(SamplingChannel {
                alloc,
                settings,
                last: None,
            }),
        }
    }

    /// The queuing channel of this number, with no message, at which no process waits.
    ///
    /// AllocError if memory for the places of its messages is refused. No other operation takes memory for a place.
    pub fn queuing(
        alloc: Global,
        number: ChanId,
        settings: QueuingSettings,
    ) -> Result<Channel, AllocError>
        ensures { IfOk result (λ channel. channel ≡ queuing_held number settings.size settings.source settings.destination (empty_queue settings.capacity settings.sending settings.receiving)) }
    {
        let queue = MessageQueue::new(
            alloc,
            settings.capacity,
            settings.sending,
            settings.receiving,
        )?;
        Ok(Channel {
            number,
            kind: Kind::Queuing(QueuingChannel {
                queue,
                size: settings.size,
                source: settings.source,
                destination: settings.destination,
            }),
        })
    }

    /// The number that the configuration gives it.
    pub fn number(&self) -> ChanId
        ensures { result ≡ self.now.number }
    {
        self.number
    }

    /// The queue of a queuing channel; None for a sampling channel.
    pub fn queue(&self) -> Option<&MessageQueue>
        ensures held { IfSome result (λ queue. self.now ≡ queuing_held self.now.number (size_in self.now.settings) (source_in self.now.settings) (destination_in self.now.settings) queue.now) }
        ensures none { IfNone result (is_sampled self.now.channel.content ≡ true) }
    {
        match &self.kind {
            Kind::Sampling(_) => None,
            Kind::Queuing(channel) => Some(&channel.queue),
        }
    }

    /// The message that was last written to a sampling channel; None if none was, or for a queuing channel.
    pub fn written(&self) -> Option<&Stamped>
        ensures { option_copied result ≡ last_written self.now.channel.content }
    {
        match &self.kind {
            Kind::Sampling(channel) => channel.last.as_ref(),
            Kind::Queuing(_) => None,
        }
    }

    /// What a call through the channel gives its caller, at this time of its core in ticks. None if its service is not of the channel's
    /// kind, or if it asks for the status of a port that is at neither end. Takes no memory.
    pub fn answer(&self, now: u64, call: &Call) -> Option<Given<'_>>
        ensures given { IfSome result (λ given. Gives now call.now self.now (answer_given given)) }
        ensures none { IfNone result (DoesNotServe call.now self.now) }
    {
        match (&self.kind, &call.request) {
            (Kind::Sampling(channel), Request::SamplingPort(_, operation)) => {
                Some(channel.answer(now, operation))
            }
            (Kind::Queuing(channel), Request::QueuingPort(_, operation)) => {
                Some(channel.answer(operation))
            }
            (Kind::Queuing(channel), Request::GetStatus(ObjectKind::QueuingPort, _)) => {
                channel.answer_to_asker(call.who.part)
            }
            _ => None,
        }
    }

    /// Judges a call through the channel, at this time of its core in ticks: its caller must wait at neither end, its service must be of
    /// the channel's kind, and its claim must be what the channel gives. Takes no memory.
    ///
    /// Refused with the cause of the first of these demands that fails.
    pub fn judge(&self, now: u64, call: &Call) -> Result<(), Cause>
        ensures { JudgesCall now call.now self.now result }
    {
        if self.has(call.who) {
            return Err(Cause::Choice);
        }
        match self.answer(now, call) {
            Some(given) => given.judge(&call.claim),
            None => Err(Cause::Chan),
        }
    }

    /// Carries out a call through the channel, at this place and at this time of its core in ticks, if the call meets what the channel
    /// demands: its caller waits at neither end, its service is of the channel's kind, and its claim is what the channel gives.
    ///
    /// Refused, with nothing changed, if one of these fails, or if memory is refused for a message that the channel keeps or for the entry
    /// of a caller that waits.
    pub fn apply(&mut self, place: Place, now: u64, call: &Call) -> Result<(), ObjFault>
        requires through { call.now.claim.chan ≡ Some self.old.number }
        requires below { AllBelow place self.old }
        ensures ok { OnOk result (Accepts now call.now self.old) }
        ensures after { OnOk result (IsAfterCall place now call.now self.old self.new) }
        ensures refused { IfErr result (RefusesCall now call.now self.old) }
        ensures unchanged { OnErr result (self.new ≡ self.old) }
    {
        if self.has(call.who) {
            return Err(ObjFault::Unlawful(Cause::Choice));
        }
        let actor = Actor {
            who: call.who,
            priority: call.claim.prio,
            place,
        };
        match (&mut self.kind, &call.request) {
            (Kind::Sampling(channel), Request::SamplingPort(_, operation)) => {
                channel.apply(now, operation, &call.claim)
            }
            (Kind::Queuing(channel), Request::QueuingPort(_, operation)) => {
                channel.apply(actor, operation, &call.claim)
            }
            (Kind::Queuing(channel), Request::GetStatus(ObjectKind::QueuingPort, _)) => {
                channel.ask(call.who.part, &call.claim)
            }
            _ => Err(ObjFault::Unlawful(Cause::Chan)),
        }
    }

    /// Whether a process waits at the channel, to send or to receive. Takes no memory.
    pub fn has(&self, who: Who) -> bool
        ensures { result ≡ (has_entry_in who self.now.channel.senders || has_entry_in who self.now.channel.receivers) }
    {
        match &self.kind {
            Kind::Sampling(_) => false,
            Kind::Queuing(channel) => channel.queue.has(who),
        }
    }

    /// Takes a process out of both waiting sets. Returns whether it was in one. Takes no memory.
    pub fn leave(&mut self, who: Who) -> bool
        ensures stood { result ≡ (has_entry_in who self.old.channel.senders || has_entry_in who self.old.channel.receivers) }
        ensures left { self.new ≡ rules.without_waiters (λ other. is_same other who) self.old }
    {
        match &mut self.kind {
            Kind::Sampling(_) => false,
            Kind::Queuing(channel) => channel.queue.leave(who),
        }
    }

    /// Takes all processes that a list names out of both waiting sets, as a tick that ends their waits does. Takes no memory.
    pub fn release(&mut self, woken: &[Who])
        ensures { self.new ≡ rules.without_waiters (λ who. is_named who woken.now) self.old }
    {
        match &mut self.kind {
            Kind::Sampling(_) => {}
            Kind::Queuing(channel) => channel.queue.release(woken),
        }
    }

    /// Takes all processes of a partition out of both waiting sets, as a restart of the partition does. The message of a process that waits
    /// to send goes with it; the messages that the channel holds stay. Takes no memory.
    pub fn leave_all(&mut self, part: PartId)
        ensures { self.new ≡ rules.without_waiters (λ who. nat_eq who.part part) self.old }
    {
        match &mut self.kind {
            // Nobody waits at a sampling channel.
            Kind::Sampling(_) => {}
            Kind::Queuing(channel) => channel.queue.leave_all(part),
        }
    }
}

impl Clone for Channel {
    ghost is_clone = { λ channel copy. copy ≡ channel };

    fn clone(&self) -> Result<Channel, AllocError> {
        Ok(Channel {
            number: self.number,
            kind: self.kind.clone()?,
        })
    }
}
