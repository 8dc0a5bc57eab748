// Blackboards.

ghost use Rattle.std.specs.Prelude.{◌≡◌, ◌∷◌, [], None};
ghost use Rattle.std.specs.Option.{option_copied};
ghost use Rattle.apex_types.specs.declared.operation.BlackboardOperation.TheVariants as on_blackboard;
ghost use Rattle.apex_machine.specs.Objects.{blackboard_effect};
ghost use Rattle.apex_machine.specs.Statuses.{blackboard_status};
ghost use Rattle.wait_set.specs.Givens.{answer_given};
ghost use Rattle.wait_set.specs.Sets.{without_one};
ghost use Rattle.partition_objects.specs.Blackboards as rules;

use apex_machine::Status;
use apex_types::{BlackboardOperation, Claim, Discipline, Message, Name, Who};
use std::alloc::{AllocError, Global};
use std::marker::Model;
use wait_set::{Actor, ApexObject, Given, Named, Owners, WaitSet};

/// A blackboard: the greatest size of its messages, the message on it, if it is not empty, and the processes that wait to read.
#[derive(Drop)]
pub struct Blackboard {
    alloc: Global,
    name: Name,
    size: u16,
    message: Option<Message>,
    readers: WaitSet,
}

impl Model for Blackboard {
    ghost use Rattle.apex_machine.specs.State.{Blackboard as Seen};

    ghost Value = { Seen };

    ghost view = { λ board. record { name = board.name; size = board.size; message = board.message; readers = board.readers.entries } };
}

impl Blackboard {
    /// The empty blackboard, at which no process waits. Its messages have at most `size` bytes. Takes no memory.
    pub fn new(alloc: Global, name: Name, size: u16) -> Blackboard
        ensures { result ≡ record { name = name; size = size; message = None; readers = [] } }
    {
        Blackboard {
            alloc,
            name,
            size,
            message: None,
            readers: WaitSet::new(alloc, Discipline::Fifo),
        }
    }

    /// The greatest size of its messages, in bytes.
    pub fn size(&self) -> u16
        ensures { result ≡ self.now.size }
    {
        self.size
    }

    /// The message on it, or None if it is empty.
    pub fn message(&self) -> Option<&Message>
        ensures { option_copied result ≡ self.now.message }
    {
        self.message.as_ref()
    }

    /// The processes that wait to read.
    pub fn readers(&self) -> &WaitSet
        ensures { result.now.entries ≡ self.now.readers }
    {
        &self.readers
    }

    /// GET_BLACKBOARD_STATUS: whether a message is on it, and how many processes wait. Takes no memory.
    pub fn status(&self) -> Status
        ensures { result ≡ blackboard_status self.now }
    {
        Status {
            val: u64::from(self.message.is_some()),
            val2: Some(self.readers.len() as u64),
            val3: None,
        }
    }
}

impl Named for Blackboard {
    ghost name_of = { λ board. board.name };

    fn name(&self) -> &Name {
        &self.name
    }
}

impl ApexObject for Blackboard {
    type Operation = BlackboardOperation;

    ghost answer = { λ actor operation board. (blackboard_effect operation board).answer };

    ghost after = { rules.after };

    ghost sets = { λ board. board.readers ∷ [] };

    ghost without_one = { λ who board. record board { readers = without_one who board.readers } };

    fn answer(&self, _actor: &Actor, operation: &BlackboardOperation) -> Given<'_> {
        match (operation, &self.message) {
            // The message is on the blackboard, and all processes that wait for one get it.
            (BlackboardOperation::Display { .. }, _) => Given::waking_all(&self.readers),
            (BlackboardOperation::Read { .. }, Some(message)) => {
                Given::giving(message.as_bytes(), None)
            }
            (BlackboardOperation::Read { time_out }, None) => Given::unmet(*time_out),
            (BlackboardOperation::Clear, _) => Given::done(),
        }
    }

    fn carry_out(
        &mut self,
        actor: Actor,
        operation: &BlackboardOperation,
        claim: &Claim,
    ) -> Result<Owners, AllocError> {
        match operation {
            BlackboardOperation::Display { message, .. } => {
                let bytes = Vec::from_slice(self.alloc, message.as_bytes())?;
                self.readers.release(claim.woken.as_slice());
                self.message = Some(Message::new(bytes));
            }
            BlackboardOperation::Read { .. } => self.readers.settle(actor, claim, &[])?,
            // The blackboard is empty.
            BlackboardOperation::Clear => {
                self.readers.release(claim.woken.as_slice());
                self.message = None;
            }
        }
        Ok(Owners::nobody())
    }

    fn leave(&mut self, who: Who) -> bool {
        self.readers.leave(who)
    }
}

impl Clone for Blackboard {
    ghost is_clone = { λ board copy. copy ≡ board };

    fn clone(&self) -> Result<Blackboard, AllocError> {
        Ok(Blackboard {
            alloc: self.alloc,
            name: self.name.clone()?,
            size: self.size,
            message: self.message.clone()?,
            readers: self.readers.clone()?,
        })
    }
}
