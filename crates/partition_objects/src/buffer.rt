// Buffers.

ghost use Rattle.std.specs.Prelude.{◌≡◌, [], IfOk};
ghost use Rattle.apex_machine.specs.Statuses.{buffer_status};
ghost use Rattle.partition_objects.specs.Buffers as rules;

use apex_machine::Status;
use apex_types::{BufferOperation, Claim, Discipline, Name, Who};
use std::alloc::{AllocError, Global};
use std::marker::Model;
use wait_set::{Actor, ApexObject, Given, MessageQueue, Named, Owners};

/// A buffer: its name, the greatest size of its messages, and the queue of its messages, whose senders and receivers wait by one
/// discipline.
#[derive(Drop)]
pub struct Buffer {
    name: Name,
    size: u16,
    queue: MessageQueue,
}

impl Model for Buffer {
    ghost use Rattle.std.specs.Prelude.{◌≡◌};
    ghost use Rattle.apex_machine.specs.State.{Buffer as Seen};
    ghost use Rattle.partition_objects.specs.Buffers.{buffer_of};

    ghost Value = { Seen };

    ghost view = { λ buffer. buffer_of buffer.name buffer.size buffer.queue };

    ghost invariant = { λ buffer. buffer.queue.receivers.discipline ≡ buffer.queue.senders.discipline };
}

impl Buffer {
    /// The buffer with no message, at which no process waits. Its messages have at most `size` bytes, and it holds at most `capacity` of
    /// them.
    ///
    /// AllocError if memory for their places is refused. No other operation takes memory for a place.
    pub fn new(
        alloc: Global,
        name: Name,
        size: u16,
        capacity: u16,
        discipline: Discipline,
    ) -> Result<Buffer, AllocError>
        ensures { IfOk result (λ buffer. buffer ≡ record { name = name; size = size; capacity = capacity; discipline = discipline; messages = []; senders = []; receivers = [] }) }
    {
        Ok(Buffer {
            name,
            size,
            queue: MessageQueue::new(alloc, capacity, discipline, discipline)?,
        })
    }

    /// The greatest size of its messages, in bytes.
    pub fn size(&self) -> u16
        ensures { result ≡ self.now.size }
    {
        self.size
    }

    /// The most messages that it holds.
    pub fn capacity(&self) -> usize
        ensures { result ≡ self.now.capacity }
    {
        self.queue.capacity()
    }

    /// The queue of its messages, with the processes that wait at it; who waits to receive waits by the buffer's discipline too.
    pub fn queue(&self) -> &MessageQueue
        ensures queue { rules.buffer_of self.now.name self.now.size result.now ≡ self.now }
        ensures receivers { result.now.receivers.discipline ≡ self.now.discipline }
    {
        &self.queue
    }

    /// GET_BUFFER_STATUS: how many messages it holds, and how many processes wait to send or to receive. Takes no memory.
    pub fn status(&self) -> Status
        ensures { result ≡ buffer_status self.now }
    {
        Status {
            val: self.queue.len() as u64,
            val2: Some(self.queue.senders().len() as u64 + self.queue.receivers().len() as u64),
            val3: None,
        }
    }
}

impl Named for Buffer {
    ghost name_of = { λ buffer. buffer.name };

    fn name(&self) -> &Name {
        &self.name
    }
}

impl ApexObject for Buffer {
    type Operation = BufferOperation;

    ghost answer = { rules.answer };

    ghost after = { rules.after };

    ghost sets = { rules.sets };

    ghost without_one = { rules.without_one };

    fn answer(&self, _actor: &Actor, operation: &BufferOperation) -> Given<'_> {
        match operation {
            BufferOperation::Send { time_out, .. } => self.queue.answer_to_send(*time_out),
            BufferOperation::Receive { time_out } => self.queue.answer_to_receive(*time_out),
        }
    }

    fn carry_out(
        &mut self,
        actor: Actor,
        operation: &BufferOperation,
        claim: &Claim,
    ) -> Result<Owners, AllocError> {
        match operation {
            BufferOperation::Send {
                time_out,
                message,
                ..
            } => self.queue.send(actor, message, *time_out, claim)?,
            BufferOperation::Receive { time_out } => self.queue.receive(actor, *time_out, claim)?,
        }
        Ok(Owners::nobody())
    }

    fn leave(&mut self, who: Who) -> bool {
        self.queue.leave(who)
    }
}

impl Clone for Buffer {
    ghost is_clone = { λ buffer copy. copy ≡ buffer };

    fn clone(&self) -> Result<Buffer, AllocError> {
        Ok(Buffer {
            name: self.name.clone()?,
            size: self.size,
            queue: self.queue.clone()?,
        })
    }
}
