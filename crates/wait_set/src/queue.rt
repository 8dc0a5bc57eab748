// Queues of messages.

ghost use Rattle.std.specs.Prelude.{◌≡◌, ◌↔◌, ◌<◌, ◌||◌, ℕ, List, [], is_some, length, nat_eq, pos, slice_get, IfOk, IsTrue, OnErr, OnOk};
ghost use Rattle.std.specs.Option.{option_copied};
ghost use Rattle.apex_machine.specs.Answer.{NamesExactly};
ghost use Rattle.apex_machine.specs.Demands.{AllHold, answer_demands, has_entry_in};
ghost use Rattle.apex_machine.specs.State.{is_named, is_same};
ghost use Rattle.wait_set.specs.Actors.{WaitsAlone, entry_with};
ghost use Rattle.wait_set.specs.Givens.{answer_given};
ghost use Rattle.wait_set.specs.Sets.{IsNew};
ghost use Rattle.wait_set.specs.Queues as rules;

use crate::given::Given;
use crate::object::Actor;
use crate::set::WaitSet;
use apex_types::{Claim, Discipline, Message, PartId, Who, Woken};
use circular_buffer::HeapCircularBuffer;
use std::alloc::{AllocError, Global};
use std::marker::Model;

/// A queue of messages: the messages in it, and the processes that wait to send and to receive.
#[derive(Drop)]
pub struct MessageQueue {
    alloc: Global,
    messages: HeapCircularBuffer<Message>,
    senders: WaitSet,
    receivers: WaitSet,
}

impl Model for MessageQueue {
    ghost use Rattle.std.specs.Prelude.{◌≤◌, length};
    ghost use Rattle.wait_set.specs.Queues.{Queue};

    ghost Value = { Queue };

    ghost view = { λ queue. record { capacity = queue.messages.capacity; messages = queue.messages.items; senders = queue.senders; receivers = queue.receivers } };

    ghost invariant = { λ queue. length queue.messages.items ≤ queue.messages.capacity };
}

impl MessageQueue {
    /// The queue with no message, at which no process waits. It holds at most `capacity` messages. Senders wait by the first of the two
    /// disciplines, receivers by the second.
    ///
    /// AllocError if memory for the places of its messages is refused. No other operation takes memory for a place.
    pub fn new(
        alloc: Global,
        capacity: u16,
        sending: Discipline,
        receiving: Discipline,
    ) -> Result<MessageQueue, AllocError>
        ensures { IfOk result (λ queue. queue ≡ rules.empty_queue capacity sending receiving) }
    {
        Ok(MessageQueue {
            alloc,
            messages: HeapCircularBuffer::with_capacity(alloc, usize::from(capacity))?,
            senders: WaitSet::new(alloc, sending),
            receivers: WaitSet::new(alloc, receiving),
        })
    }

    /// The most messages that it holds.
    pub fn capacity(&self) -> usize
        ensures { result ≡ self.now.capacity }
    {
        self.messages.capacity()
    }

    /// How many messages it holds.
    pub fn len(&self) -> usize
        ensures { result ≡ length self.now.messages }
    {
        self.messages.len()
    }

    /// The oldest message in it, or None if it holds none.
    pub fn oldest(&self) -> Option<&Message>
        ensures { option_copied result ≡ slice_get self.now.messages 0 }
    {
        self.messages.front()
    }

    /// The processes that wait to send.
    pub fn senders(&self) -> &WaitSet
        ensures { result.now ≡ self.now.senders }
    {
        &self.senders
    }

    /// The processes that wait to receive.
    pub fn receivers(&self) -> &WaitSet
        ensures { result.now ≡ self.now.receivers }
    {
        &self.receivers
    }

    /// What a send gives its caller: it is done, and the wait of the first receiver that waits ends, if one waits. If none waits and there
    /// is no room, the caller waits, or gets NOT_AVAILABLE if its time-out is 0.
    pub fn answer_to_send(&self, time_out: i64) -> Given<'_>
        ensures { (message : List ℕ) → answer_given result ≡ (rules.sent_to message time_out self.now).answer }
    {
        let receiver = self.receivers.first().map(|entry| entry.who);
        if receiver.is_some() || self.has_room() {
            Given::waking(receiver)
        } else {
            Given::unmet(time_out)
        }
    }

    /// Sends a message, if the claim is what a send gives. The first receiver that waits gets it; else, if there is room, the queue holds
    /// it; else a caller that waits waits with it.
    ///
    /// AllocError if memory is refused for the message or the entry; nothing is changed then.
    pub fn send(
        &mut self,
        actor: Actor,
        message: &Message,
        time_out: i64,
        claim: &Claim,
    ) -> Result<(), AllocError>
        requires new { IsNew (entry_with actor []) self.old.senders.entries }
        requires given { AllHold (answer_demands (rules.sent_to message.now time_out self.old).answer claim.now) }
        requires alone { WaitsAlone claim.now }
        ensures after { OnOk result (self.new ≡ rules.after_send actor message.now time_out claim.now self.old) }
        ensures unchanged { OnErr result (self.new ≡ self.old) }
    {
        if self.receivers.first().is_none() && self.has_room() {
            let bytes = Vec::from_slice(self.alloc, message.as_bytes())?;
            self.messages.push_back(Message::new(bytes));
        }
        self.senders.settle(actor, claim, message.as_bytes())?;
        self.receivers.release(claim.woken.as_slice());
        Ok(())
    }

    // Whether the queue holds fewer messages than it may.
    fn has_room(&self) -> bool
        ensures { IsTrue result ↔ length self.now.messages < self.now.capacity }
    {
        self.messages.len() < self.messages.capacity()
    }

    /// What a receive gives its caller: the oldest message, and the wait of the first sender that waits ends, if one waits. If there is no
    /// message, the caller waits, or gets NOT_AVAILABLE if its time-out is 0.
    pub fn answer_to_receive(&self, time_out: i64) -> Given<'_>
        ensures { answer_given result ≡ (rules.received_from time_out self.now).answer }
    {
        let sender = self.senders.first().map(|entry| entry.who);
        match self.messages.front() {
            Some(message) => Given::giving(message.as_bytes(), sender),
            None => Given::unmet(time_out),
        }
    }

    /// Receives a message, if the claim is what a receive gives. The oldest message, if there is one, is taken, and the message of the
    /// first sender that waits moves up; else a caller that waits enters the set of receivers.
    ///
    /// AllocError if memory is refused for the entry; nothing is changed then.
    pub fn receive(&mut self, actor: Actor, time_out: i64, claim: &Claim) -> Result<(), AllocError>
        requires new { IsNew (entry_with actor []) self.old.receivers.entries }
        requires given { AllHold (answer_demands (rules.received_from time_out self.old).answer claim.now) }
        requires alone { WaitsAlone claim.now }
        ensures after { OnOk result (self.new ≡ rules.after_receive actor time_out claim.now self.old) }
        ensures unchanged { OnErr result (self.new ≡ self.old) }
    {
        self.receivers.settle(actor, claim, &[])?;
        if self.messages.pop_front().is_some() {
            self.move_up();
        }
        Ok(())
    }

    // The message of the first sender that waits, if one waits, becomes the newest. There is room for it. Returns whether one waited.
    fn move_up(&mut self) -> bool
        requires room { length self.old.messages < self.old.capacity }
        ensures moved { self.new ≡ rules.moved_up (rules.first_of self.old.senders) self.old }
        ensures waited { result ≡ is_some (rules.first_of self.old.senders) }
    {
        match self.senders.take_first() {
            Some(entry) => {
                self.messages.push_back(entry.message);
                true
            }
            None => false,
        }
    }

    /// What a clear gives its caller: the waits of the first senders end, of as many as there is room for.
    pub fn answer_to_clear(&self) -> Given<'_>
        ensures { answer_given result ≡ (rules.cleared_of self.now).answer }
    {
        Given::waking_first(&self.senders, self.messages.capacity())
    }

    /// Clears the queue, if the claim is what a clear gives. The messages are gone; those of the first senders that wait move up, as many as
    /// there is room for. Takes no memory.
    pub fn clear(&mut self, claim: &Claim)
        requires given { AllHold (answer_demands (rules.cleared_of self.old).answer claim.now) }
        ensures after { self.new ≡ rules.after_clear claim.now self.old }
    {
        self.messages.clear();
        'senders: while self.has_room() && self.move_up() {}
    }

    /// What the arrival of a message from outside gives: the wait of the first receiver that waits ends, if one waits.
    pub fn answer_to_arrival(&self) -> Given<'_>
        ensures { (message : List ℕ) → answer_given result ≡ (rules.sent_to message (pos 0) self.now).answer }
    {
        self.answer_to_send(0)
    }

    /// A message arrives from outside. The first receiver that waits gets it, and is the only one that the list names; else, if there is
    /// room, the queue holds it; else it is lost.
    ///
    /// AllocError if memory is refused for the message; nothing is changed then.
    pub fn arrive(&mut self, message: &Message, woken: &Woken) -> Result<(), AllocError>
        requires given { NamesExactly (rules.sent_to message.now (pos 0) self.old).answer.woken woken.now }
        ensures after { OnOk result (self.new ≡ rules.after_arrival message.now woken.now self.old) }
        ensures unchanged { OnErr result (self.new ≡ self.old) }
    {
        if self.receivers.first().is_none() && self.has_room() {
            let bytes = Vec::from_slice(self.alloc, message.as_bytes())?;
            self.messages.push_back(Message::new(bytes));
        }
        self.receivers.release(woken.as_slice());
        Ok(())
    }

    /// The oldest message, if there is one, departs to the outside, and the message of the first sender that waits moves up. Takes no
    /// memory.
    pub fn depart(&mut self, woken: &Woken)
        requires given { NamesExactly (rules.received_from (pos 0) self.old).answer.woken woken.now }
        ensures { self.new ≡ rules.after_departure woken.now self.old }
    {
        if self.messages.pop_front().is_some() {
            self.move_up();
        }
    }

    /// Whether a process waits here, to send or to receive. Takes no memory.
    pub fn has(&self, who: Who) -> bool
        ensures { result ≡ (has_entry_in who self.now.senders.entries || has_entry_in who self.now.receivers.entries) }
    {
        // Each set gets a copy of its own.
        let copy = who;
        self.senders.has(who) || self.receivers.has(copy)
    }

    /// Takes a process out of both waiting sets. Returns whether it was in one. Takes no memory.
    pub fn leave(&mut self, who: Who) -> bool
        ensures stood { result ≡ (has_entry_in who self.old.senders.entries || has_entry_in who self.old.receivers.entries) }
        ensures left { self.new ≡ rules.without_waiters (λ other. is_same other who) self.old }
    {
        // Both sets are asked.
        let copy = who;
        self.senders.leave(who) | self.receivers.leave(copy)
    }

    /// Takes all processes that a list names out of both waiting sets. Takes no memory.
    pub fn release(&mut self, named: &[Who])
        ensures { self.new ≡ rules.without_waiters (λ who. is_named who named.now) self.old }
    {
        self.senders.release(named);
        self.receivers.release(named);
    }

    /// Takes all processes of a partition out of both waiting sets; the message of a sender goes with it. Takes no memory.
    pub fn leave_all(&mut self, part: PartId)
        ensures { self.new ≡ rules.without_waiters (λ who. nat_eq who.part part) self.old }
    {
        // Each set gets a copy of its own.
        let copy = part;
        self.senders.leave_all(part);
        self.receivers.leave_all(copy);
    }
}

impl Clone for MessageQueue {
    ghost is_clone = { λ queue copy. copy ≡ queue };

    fn clone(&self) -> Result<MessageQueue, AllocError> {
        Ok(MessageQueue {
            alloc: self.alloc,
            messages: copied(self.alloc, &self.messages)?,
            senders: self.senders.clone()?,
            receivers: self.receivers.clone()?,
        })
    }
}

// A ring with as many places and with copies of these messages.
fn copied(
    alloc: Global,
    messages: &HeapCircularBuffer<Message>,
) -> Result<HeapCircularBuffer<Message>, AllocError>
    ensures { IfOk result (λ copies. copies ≡ messages.now) }
{
    let mut copies = HeapCircularBuffer::with_capacity(alloc, messages.capacity())?;
    for message in messages.iter() {
        copies.push_back(message.clone()?);
    }
    Ok(copies)
}
