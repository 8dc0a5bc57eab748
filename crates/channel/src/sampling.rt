// Sampling channels.

ghost use Rattle.std.specs.Prelude.{◌≡◌, IfErr, OnErr, OnOk};
ghost use Rattle.apex_machine.specs.Demands.{AllHold, Judges, answer_demands};
ghost use Rattle.apex_machine.specs.Ports as ports;
ghost use Rattle.wait_set.specs.Actors.{Refuses};
ghost use Rattle.wait_set.specs.Givens.{answer_given};
ghost use Rattle.channel.specs.Operations.{sampling_effect};

use crate::settings::SamplingSettings;
use apex_types::{Cause, Claim, Code, Message, SamplingOperation};
use std::alloc::{AllocError, Global};
use std::marker::Model;
use wait_set::{Ended, Given, ObjFault};

/// A message with the time at which it was written, in ticks.
#[derive(Drop)]
pub struct Stamped {
    message: Message,
    stamp: u64,
}

impl Model for Stamped {
    ghost use Rattle.apex_machine.specs.State.{Stamped as Seen};

    ghost Value = { Seen };

    ghost view = { λ stamped. record { message = stamped.message; stamp = stamped.stamp } };
}

impl Stamped {
    /// The message.
    pub fn message(&self) -> &Message
        ensures { result.now ≡ self.now.message }
    {
        &self.message
    }

    /// The time of the writer's core at the write, in ticks.
    pub fn stamp(&self) -> u64
        ensures { result ≡ self.now.stamp }
    {
        self.stamp
    }

    // Whether the message is valid at this time, as the value that a reader gets: 1 if its age is at most the refresh period.
    fn validity(&self, now: u64, refresh: u64) -> u64
        ensures { result ≡ ports.validity now refresh self.now }
    {
        u64::from(now.saturating_sub(self.stamp) <= refresh)
    }
}

impl Clone for Stamped {
    ghost is_clone = { λ stamped copy. copy ≡ stamped };

    fn clone(&self) -> Result<Stamped, AllocError> {
        Ok(Stamped {
            message: self.message.clone()?,
            stamp: self.stamp,
        })
    }
}

/// A sampling channel: how it is configured, and the message that was last written.
#[derive(Clone, Drop)]
pub(crate) struct SamplingChannel {
    pub(crate) alloc: Global,
    pub(crate) settings: SamplingSettings,
    pub(crate) last: Option<Stamped>,
}

impl SamplingChannel {
    /// What an operation gives its caller at this time of the caller's core. A reader of an empty channel gets no message, with validity 0.
    /// Takes no memory.
    pub(crate) fn answer(&self, now: u64, operation: &SamplingOperation) -> Given<'_>
        ensures { answer_given result ≡ (sampling_effect operation.now now self.now.settings.refresh self.now.last).answer }
    {
        match (operation, &self.last) {
            (SamplingOperation::Write { .. }, _) => Given::done(),
            (SamplingOperation::Read, None) => Given::reading(Code::NoAction, 0, &[]),
            (SamplingOperation::Read, Some(last)) => Given::reading(
                Code::NoError,
                last.validity(now, self.settings.refresh),
                last.message.as_bytes(),
            ),
        }
    }

    // Judges a claim, which must be what an operation gives its caller at this time of the caller's core.
    fn judge(&self, now: u64, operation: &SamplingOperation, claim: &Claim) -> Result<(), Cause>
        ensures { Judges (answer_demands (sampling_effect operation.now now self.now.settings.refresh self.now.last).answer claim.now) result }
    {
        let given = self.answer(now, operation);
        // The checker of loans requires that the set is named, if there is one.
        if let Ended::All(_set) = given.woken {}
        given.judge(claim)
    }

    /// Carries out an operation at this time of the caller's core, if the claim is what it gives its caller. A copy of a message that is
    /// written replaces the last one.
    ///
    /// Refused, with nothing changed, if the claim is another, or if memory is refused for a message that is written.
    pub(crate) fn apply(
        &mut self,
        now: u64,
        operation: &SamplingOperation,
        claim: &Claim,
    ) -> Result<(), ObjFault>
        ensures ok { OnOk result (AllHold (answer_demands (sampling_effect operation.now now self.old.settings.refresh self.old.last).answer claim.now)) }
        ensures after { OnOk result (self.new ≡ record self.old { last = (sampling_effect operation.now now self.old.settings.refresh self.old.last).next }) }
        ensures refused { IfErr result (Refuses (answer_demands (sampling_effect operation.now now self.old.settings.refresh self.old.last).answer claim.now)) }
        ensures unchanged { OnErr result (self.new ≡ self.old) }
    {
        self.judge(now, operation, claim)
            .map_err(ObjFault::Unlawful)?;
        match operation {
            SamplingOperation::Write { message, .. } => {
                self.write(now, message).map_err(|_| ObjFault::Memory)?;
            }
            SamplingOperation::Read => {}
        }
        Ok(())
    }

    /// A copy of a message that is written at this time of the writer's core replaces the last one.
    ///
    /// AllocError if memory is refused for the copy; nothing is changed then.
    pub(crate) fn write(&mut self, now: u64, message: &Message) -> Result<(), AllocError>
        ensures ok { OnOk result (self.new ≡ record self.old { last = (ports.written now message.now).next }) }
        ensures unchanged { OnErr result (self.new ≡ self.old) }
    {
        let bytes = Vec::from_slice(self.alloc, message.as_bytes())?;
        self.last = Some(Stamped {
            message: Message::new(bytes),
            stamp: now,
        });
        Ok(())
    }
}
