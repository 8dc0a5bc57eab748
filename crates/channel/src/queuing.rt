// Queuing channels.

ghost use Rattle.std.specs.Prelude.{◌≡◌, [], ◌∷◌, Some, IfErr, OnErr, OnOk, option_map, pos};
ghost use Rattle.apex_machine.specs.Answer.{NamesExactly};
ghost use Rattle.apex_machine.specs.Demands.{AllHold, Judges, answer_demands};
ghost use Rattle.apex_machine.specs.Ports.{channel_status};
ghost use Rattle.apex_machine.specs.State.{Queued};
ghost use Rattle.apex_machine.specs.Statuses.{telling};
ghost use Rattle.wait_set.specs.Actors.{Refuses, WaitsAlone, entry_with};
ghost use Rattle.wait_set.specs.Givens.{answer_given};
ghost use Rattle.wait_set.specs.Sets.{IsNewInEach};
ghost use Rattle.wait_set.specs.Queues.{received_from, sent_to};
ghost use Rattle.channel.specs.Kinds.{is_oldest_in};
ghost use Rattle.channel.specs.Operations.{asked_demands, leaving_demands, queue_after, queue_after_arrival, queue_after_departure, queuing_effect, waiting_between};

use apex_machine::Status;
use apex_types::{Cause, Claim, Crossing, PartId, QueuingOperation};
use std::alloc::AllocError;
use wait_set::{Actor, Ended, Given, MessageQueue, ObjFault, WaitSet};

/// A queuing channel: its queue, the greatest size of its messages in bytes, and the partitions at its source and at its destination, unless
/// the end is outside.
#[derive(Clone, Drop)]
pub(crate) struct QueuingChannel {
    pub(crate) queue: MessageQueue,
    pub(crate) size: u16,
    pub(crate) source: Option<PartId>,
    pub(crate) destination: Option<PartId>,
}

impl QueuingChannel {
    /// What an operation gives its caller. Takes no memory.
    pub(crate) fn answer(&self, operation: &QueuingOperation) -> Given<'_>
        ensures { answer_given result ≡ (queuing_effect operation.now self.now.queue).answer }
    {
        match operation {
            QueuingOperation::Send { time_out, .. } => self.queue.answer_to_send(*time_out),
            QueuingOperation::Receive { time_out } => self.queue.answer_to_receive(*time_out),
            QueuingOperation::Clear => self.queue.answer_to_clear(),
        }
    }

    // Judges a claim, which must be what an operation gives its caller. A claim that passes names no process if its caller waits.
    fn judge(&self, operation: &QueuingOperation, claim: &Claim) -> Result<(), Cause>
        ensures judged { Judges (answer_demands (queuing_effect operation.now self.now.queue).answer claim.now) result }
        ensures alone { OnOk result (WaitsAlone claim.now) }
    {
        let given = self.answer(operation);
        // The checker of loans requires that the set is named, if there is one.
        if let Ended::All(_set) = given.woken {}
        given.judge(claim)
    }

    /// Carries out an operation, if the claim is what it gives its caller, which waits at neither end. The processes that the claim names no
    /// longer wait, at whichever end.
    ///
    /// Refused, with nothing changed, if the claim is another, or if memory is refused.
    pub(crate) fn apply(
        &mut self,
        actor: Actor,
        operation: &QueuingOperation,
        claim: &Claim,
    ) -> Result<(), ObjFault>
        requires new { IsNewInEach (entry_with actor []) (self.old.queue.senders.entries ∷ self.old.queue.receivers.entries ∷ []) }
        ensures ok { OnOk result (AllHold (answer_demands (queuing_effect operation.now self.old.queue).answer claim.now)) }
        ensures after { OnOk result (self.new ≡ record self.old { queue = queue_after actor operation.now claim.now self.old.queue }) }
        ensures refused { IfErr result (Refuses (answer_demands (queuing_effect operation.now self.old.queue).answer claim.now)) }
        ensures unchanged { OnErr result (self.new ≡ self.old) }
    {
        self.judge(operation, claim).map_err(ObjFault::Unlawful)?;
        let carried = match operation {
            QueuingOperation::Send {
                time_out,
                message,
                ..
            } => self.queue.send(actor, message, *time_out, claim),
            QueuingOperation::Receive { time_out } => self.queue.receive(actor, *time_out, claim),
            QueuingOperation::Clear => {
                self.queue.clear(claim);
                self.queue.release(claim.woken.as_slice());
                Ok(())
            }
        };
        carried.map_err(|_| ObjFault::Memory)
    }

    /// A message arrives from outside. The processes that the record names no longer wait, at whichever end.
    ///
    /// AllocError if memory is refused for the message; nothing is changed then.
    pub(crate) fn arrive(&mut self, crossing: &Crossing) -> Result<(), AllocError>
        requires given { NamesExactly (sent_to crossing.now.message (pos 0) self.old.queue).answer.woken crossing.now.woken }
        ensures after { OnOk result (self.new ≡ record self.old { queue = queue_after_arrival crossing.now.message crossing.now.woken self.old.queue }) }
        ensures unchanged { OnErr result (self.new ≡ self.old) }
    {
        self.queue.arrive(&crossing.message, &crossing.woken)?;
        self.queue.release(crossing.woken.as_slice());
        Ok(())
    }

    /// Judges the departure of a message: the destination must be outside, the message must be the oldest, and the record must name the
    /// process whose wait ends, and no other. Takes no memory.
    ///
    /// Refused with the cause of the first of these demands that fails.
    pub(crate) fn judge_departure(&self, crossing: &Crossing) -> Result<(), Cause>
        ensures { Judges (leaving_demands self.now.destination self.now.queue crossing.now) result }
    {
        if self.destination.is_some() {
            return Err(Cause::Chan);
        }
        if !self.is_oldest(crossing) {
            return Err(Cause::Data);
        }
        let given = self.queue.answer_to_receive(0);
        // The checker of loans requires that the set is named, if there is one.
        if let Ended::All(_set) = given.woken {}
        if given.woken.is_exactly(&crossing.woken) {
            Ok(())
        } else {
            Err(Cause::Woken)
        }
    }

    // Whether a message that departs is the oldest of the queue.
    fn is_oldest(&self, crossing: &Crossing) -> bool
        ensures { result ≡ is_oldest_in (Queued self.now.queue.messages) crossing.now.message }
    {
        self.queue
            .oldest()
            .is_some_and(|oldest| oldest.as_bytes() == crossing.message.as_bytes())
    }

    /// The oldest message, if there is one, departs to the outside. The processes that the record names no longer wait, at whichever end.
    /// Takes no memory.
    pub(crate) fn depart(&mut self, crossing: &Crossing)
        requires given { NamesExactly (received_from (pos 0) self.old.queue).answer.woken crossing.now.woken }
        ensures { self.new ≡ record self.old { queue = queue_after_departure crossing.now.woken self.old.queue } }
    {
        self.queue.depart(&crossing.woken);
        self.queue.release(crossing.woken.as_slice());
    }

    /// What GET_QUEUING_PORT_STATUS gives a partition that asks: how many messages there are, and how many processes wait at its end. None
    /// if it is at neither end. Takes no memory.
    pub(crate) fn answer_to_asker(&self, part: PartId) -> Option<Given<'_>>
        ensures { option_map answer_given result ≡ option_map (λ waiting. telling (Some (channel_status self.now.queue.messages waiting))) (waiting_between self.now.source self.now.destination part self.now.queue) }
    {
        let waiting = self.waiting_at(part)?;
        Some(Given::reporting(Some(Status {
            val: self.queue.len() as u64,
            val2: Some(waiting.len() as u64),
            val3: None,
        })))
    }

    /// Judges the claim of a partition that asks for the status; the queue stays.
    pub(crate) fn ask(&self, part: PartId, claim: &Claim) -> Result<(), ObjFault>
        ensures ok { OnOk result (AllHold (asked_demands self.now.source self.now.destination part self.now.queue claim.now)) }
        ensures refused { IfErr result (Refuses (asked_demands self.now.source self.now.destination part self.now.queue claim.now)) }
    {
        let Some(given) = self.answer_to_asker(part) else {
            return Err(ObjFault::Unlawful(Cause::Chan));
        };
        given.judge(claim).map_err(ObjFault::Unlawful)
    }

    // The processes that wait at a partition's end, or None if it is at neither.
    fn waiting_at(&self, part: PartId) -> Option<&WaitSet>
        ensures { option_map (λ waiting. waiting.now.entries) result ≡ waiting_between self.now.source self.now.destination part self.now.queue }
    {
        if self.source == Some(part) {
            return Some(self.queue.senders());
        }
        if self.destination == Some(part) {
            return Some(self.queue.receivers());
        }
        None
    }
}
