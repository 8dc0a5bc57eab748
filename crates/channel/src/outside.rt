// Messages that pass an end outside the module.

ghost use Rattle.std.specs.Prelude.{◌≡◌, true, IfErr, IfNone, IfSome, OnErr, OnOk};
ghost use Rattle.wait_set.specs.declared.object.ObjFault.TheVariants.{Unlawful};
ghost use Rattle.wait_set.specs.Givens.{answer_given};
ghost use Rattle.channel.specs.Held.{AcceptsArrival, AcceptsDeparture, GivesAtArrival, GivesAtDeparture, IsAfterArrival, IsAfterDeparture, JudgesArrival, JudgesDeparture, RefusesArrival, RefusesDeparture};
ghost use Rattle.channel.specs.Kinds.{is_from_outside, is_sampled, is_to_outside, size_in};

use crate::channel::{Channel, Kind};
use apex_types::{Cause, Crossing};
use wait_set::{Ended, Given, ObjFault};

impl Channel {
    /// Whether its source is outside the module.
    pub fn is_from_outside(&self) -> bool
        ensures { result ≡ is_from_outside self.now.settings }
    {
        match &self.kind {
            Kind::Sampling(channel) => channel.settings.from_outside,
            Kind::Queuing(channel) => channel.source.is_none(),
        }
    }

    /// Whether it is a queuing channel whose destination is outside the module.
    pub fn is_to_outside(&self) -> bool
        ensures { result ≡ is_to_outside self.now.settings }
    {
        match &self.kind {
            Kind::Sampling(_) => false,
            Kind::Queuing(channel) => channel.destination.is_none(),
        }
    }

    /// The greatest size of its messages, in bytes.
    pub fn size(&self) -> u16
        ensures { result ≡ size_in self.now.settings }
    {
        match &self.kind {
            Kind::Sampling(channel) => channel.settings.size,
            Kind::Queuing(channel) => channel.size,
        }
    }

    /// What the arrival of a message from outside gives: which wait ends. Takes no memory.
    pub fn answer_to_arrival(&self) -> Given<'_>
        ensures { GivesAtArrival self.now (answer_given result) }
    {
        match &self.kind {
            Kind::Sampling(_) => Given::done(),
            Kind::Queuing(channel) => channel.queue.answer_to_arrival(),
        }
    }

    /// What the departure of a message to the outside gives: the oldest message, and which wait ends. None for a sampling channel. Takes no
    /// memory.
    pub fn answer_to_departure(&self) -> Option<Given<'_>>
        ensures given { IfSome result (λ given. GivesAtDeparture self.now (answer_given given)) }
        ensures none { IfNone result (is_sampled self.now.channel.content ≡ true) }
    {
        match &self.kind {
            Kind::Sampling(_) => None,
            Kind::Queuing(channel) => Some(channel.queue.answer_to_receive(0)),
        }
    }

    /// Judges the arrival of a message: the source must be outside, the message must be no longer than the channel's size, and the record
    /// must name the process whose wait ends, and no other. Takes no memory.
    ///
    /// Refused with the cause of the first of these demands that fails.
    pub fn judge_arrival(&self, crossing: &Crossing) -> Result<(), Cause>
        ensures { JudgesArrival crossing.now self.now result }
    {
        if !self.is_from_outside() {
            return Err(Cause::Chan);
        }
        if crossing.message.as_bytes().len() > usize::from(self.size()) {
            return Err(Cause::Data);
        }
        let given = self.answer_to_arrival();
        // The checker of loans requires that the set is named, if there is one.
        if let Ended::All(_set) = given.woken {}
        if given.woken.is_exactly(&crossing.woken) {
            Ok(())
        } else {
            Err(Cause::Woken)
        }
    }

    /// A message arrives from outside, at this time of the record's core in ticks, if the record meets what the channel demands: a sampling
    /// channel holds it from now on; of a queuing channel the first receiver that waits gets it, else it is held if there is room, else it
    /// is lost.
    ///
    /// Refused, with nothing changed, if a demand fails, or if memory is refused for the message.
    pub fn arrive(&mut self, now: u64, crossing: &Crossing) -> Result<(), ObjFault>
        ensures ok { OnOk result (AcceptsArrival crossing.now self.old) }
        ensures after { OnOk result (IsAfterArrival now crossing.now self.old self.new) }
        ensures refused { IfErr result (RefusesArrival crossing.now self.old) }
        ensures unchanged { OnErr result (self.new ≡ self.old) }
    {
        self.judge_arrival(crossing).map_err(ObjFault::Unlawful)?;
        let arrived = match &mut self.kind {
            Kind::Sampling(channel) => channel.write(now, &crossing.message),
            Kind::Queuing(channel) => channel.arrive(crossing),
        };
        arrived.map_err(|_| ObjFault::Memory)
    }

    /// Judges the departure of a message: the destination must be outside, the message must be the oldest, and the record must name the
    /// process whose wait ends, and no other. Takes no memory.
    ///
    /// Refused with the cause of the first of these demands that fails.
    pub fn judge_departure(&self, crossing: &Crossing) -> Result<(), Cause>
        ensures { JudgesDeparture crossing.now self.now result }
    {
        match &self.kind {
            Kind::Sampling(_) => Err(Cause::Chan),
            Kind::Queuing(channel) => channel.judge_departure(crossing),
        }
    }

    /// A message departs to the outside, if the record meets what the channel demands: it leaves the queue, and the message of the first
    /// sender that waits moves up. Takes no memory.
    ///
    /// Refused, with nothing changed, if a demand fails.
    pub fn depart(&mut self, crossing: &Crossing) -> Result<(), Cause>
        ensures ok { OnOk result (AcceptsDeparture crossing.now self.old) }
        ensures after { OnOk result (IsAfterDeparture crossing.now self.old self.new) }
        ensures refused { IfErr result (λ cause. RefusesDeparture crossing.now self.old (Unlawful cause)) }
        ensures unchanged { OnErr result (self.new ≡ self.old) }
    {
        self.judge_departure(crossing)?;
        if let Kind::Queuing(channel) = &mut self.kind {
            channel.depart(crossing);
        }
        Ok(())
    }
}
