// Counting semaphores.

ghost use Rattle.std.specs.Prelude.{◌≡◌, ◌∷◌, []};
ghost use Rattle.apex_types.specs.declared.operation.SemaphoreOperation.TheVariants as on_semaphore;
ghost use Rattle.apex_machine.specs.Objects.{semaphore_effect};
ghost use Rattle.apex_machine.specs.Statuses.{semaphore_status};
ghost use Rattle.wait_set.specs.Givens.{answer_given};
ghost use Rattle.wait_set.specs.Sets.{without_one};
ghost use Rattle.partition_objects.specs.Semaphores as rules;

use apex_machine::Status;
use apex_types::{Claim, Code, Discipline, Name, SemaphoreOperation, Who};
use std::alloc::{AllocError, Global};
use std::marker::Model;
use wait_set::{Actor, ApexObject, Given, Named, Owners, WaitSet};

/// A counting semaphore: its value, its maximum, and the processes that wait.
#[derive(Drop)]
pub struct Semaphore {
    name: Name,
    maximum: u16,
    value: u16,
    waiters: WaitSet,
}

impl Model for Semaphore {
    ghost use Rattle.apex_machine.specs.State.{Semaphore as Seen};

    ghost Value = { Seen };

    ghost view = { λ semaphore. record { name = semaphore.name; maximum = semaphore.maximum; discipline = semaphore.waiters.discipline; value = semaphore.value; waiters = semaphore.waiters.entries } };
}

impl Semaphore {
    /// The semaphore of this value, at which no process waits. Takes no memory.
    pub fn new(
        alloc: Global,
        name: Name,
        value: u16,
        maximum: u16,
        discipline: Discipline,
    ) -> Semaphore
        ensures { result ≡ record { name = name; maximum = maximum; discipline = discipline; value = value; waiters = [] } }
    {
        Semaphore {
            name,
            maximum,
            value,
            waiters: WaitSet::new(alloc, discipline),
        }
    }

    /// Its value.
    pub fn value(&self) -> u16
        ensures { result ≡ self.now.value }
    {
        self.value
    }

    /// The greatest value that it may have.
    pub fn maximum(&self) -> u16
        ensures { result ≡ self.now.maximum }
    {
        self.maximum
    }

    /// The processes that wait for it.
    pub fn waiters(&self) -> &WaitSet
        ensures discipline { result.now.discipline ≡ self.now.discipline }
        ensures entries { result.now.entries ≡ self.now.waiters }
    {
        &self.waiters
    }

    /// GET_SEMAPHORE_STATUS: its value, and how many processes wait. Takes no memory.
    pub fn status(&self) -> Status
        ensures { result ≡ semaphore_status self.now }
    {
        Status {
            val: u64::from(self.value),
            val2: Some(self.waiters.len() as u64),
            val3: None,
        }
    }
}

impl Named for Semaphore {
    ghost name_of = { λ semaphore. semaphore.name };

    fn name(&self) -> &Name {
        &self.name
    }
}

impl ApexObject for Semaphore {
    type Operation = SemaphoreOperation;

    ghost answer = { λ actor operation semaphore. (semaphore_effect operation semaphore).answer };

    ghost after = { rules.after };

    ghost sets = { λ semaphore. semaphore.waiters ∷ [] };

    ghost without_one = { λ who semaphore. record semaphore { waiters = without_one who semaphore.waiters } };

    fn answer(&self, _actor: &Actor, operation: &SemaphoreOperation) -> Given<'_> {
        match operation {
            // A value above 0 falls by one; else the call is unmet.
            SemaphoreOperation::Wait { .. } if self.value > 0 => Given::done(),
            SemaphoreOperation::Wait { time_out } => Given::unmet(*time_out),
            // The first waiter wakes; else the value rises by one; at the maximum nothing is done.
            SemaphoreOperation::Signal => {
                let first = self.waiters.first().map(|entry| entry.who);
                if first.is_some() || self.value < self.maximum {
                    Given::waking(first)
                } else {
                    Given::answering(Code::NoAction)
                }
            }
        }
    }

    fn carry_out(
        &mut self,
        actor: Actor,
        operation: &SemaphoreOperation,
        claim: &Claim,
    ) -> Result<Owners, AllocError> {
        match operation {
            SemaphoreOperation::Wait { .. } => {
                self.waiters.settle(actor, claim, &[])?;
                self.value = self.value.saturating_sub(1);
            }
            SemaphoreOperation::Signal => {
                let is_raised = self.waiters.first().is_none() && self.value < self.maximum;
                self.waiters.release(claim.woken.as_slice());
                if is_raised {
                    self.value += 1;
                }
            }
        }
        Ok(Owners::nobody())
    }

    fn leave(&mut self, who: Who) -> bool {
        self.waiters.leave(who)
    }
}

impl Clone for Semaphore {
    ghost is_clone = { λ semaphore copy. copy ≡ semaphore };

    fn clone(&self) -> Result<Semaphore, AllocError> {
        Ok(Semaphore {
            name: self.name.clone()?,
            maximum: self.maximum,
            value: self.value,
            waiters: self.waiters.clone()?,
        })
    }
}
