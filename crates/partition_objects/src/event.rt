// Events.

ghost use Rattle.std.specs.Prelude.{◌≡◌, ◌∷◌, [], false};
ghost use Rattle.apex_machine.specs.Objects.{event_effect};
ghost use Rattle.apex_machine.specs.Statuses.{event_status};
ghost use Rattle.wait_set.specs.Sets.{without_one};
ghost use Rattle.partition_objects.specs.Events as rules;

use apex_machine::Status;
use apex_types::{Claim, Discipline, EventOperation, Name, Who};
use std::alloc::{AllocError, Global};
use std::marker::Model;
use wait_set::{Actor, ApexObject, Given, Named, Owners, WaitSet};

/// An event: whether it is up, and the processes that wait for it.
#[derive(Drop)]
pub struct Event {
    name: Name,
    up: bool,
    waiters: WaitSet,
}

impl Model for Event {
    ghost use Rattle.apex_machine.specs.State.{Event as Seen};

    ghost Value = { Seen };

    ghost view = { λ event. record { name = event.name; up = event.up; waiters = event.waiters.entries } };
}

impl Event {
    /// The event that is down, for which no process waits. Takes no memory.
    pub fn new(alloc: Global, name: Name) -> Event
        ensures { result ≡ record { name = name; up = false; waiters = [] } }
    {
        Event {
            name,
            up: false,
            waiters: WaitSet::new(alloc, Discipline::Fifo),
        }
    }

    /// Whether it is up.
    pub fn is_up(&self) -> bool
        ensures { result ≡ self.now.up }
    {
        self.up
    }

    /// The processes that wait for it.
    pub fn waiters(&self) -> &WaitSet
        ensures { result.now.entries ≡ self.now.waiters }
    {
        &self.waiters
    }

    /// GET_EVENT_STATUS: whether it is up, and how many processes wait. Takes no memory.
    pub fn status(&self) -> Status
        ensures { result ≡ event_status self.now }
    {
        Status {
            val: u64::from(self.up),
            val2: Some(self.waiters.len() as u64),
            val3: None,
        }
    }
}

impl Named for Event {
    ghost name_of = { λ event. event.name };

    fn name(&self) -> &Name {
        &self.name
    }
}

impl ApexObject for Event {
    type Operation = EventOperation;

    ghost answer = { λ actor operation event. (event_effect operation event).answer };

    ghost after = { rules.after };

    ghost sets = { λ event. event.waiters ∷ [] };

    ghost without_one = { λ who event. record event { waiters = without_one who event.waiters } };

    fn answer(&self, _actor: &Actor, operation: &EventOperation) -> Given<'_> {
        match operation {
            // The event goes up, and every waiter wakes.
            EventOperation::Set => Given::waking_all(&self.waiters),
            EventOperation::Reset => Given::done(),
            // If the event is up, the caller goes on; else the call is unmet.
            EventOperation::Wait { .. } if self.up => Given::done(),
            EventOperation::Wait { time_out } => Given::unmet(*time_out),
        }
    }

    fn carry_out(
        &mut self,
        actor: Actor,
        operation: &EventOperation,
        claim: &Claim,
    ) -> Result<Owners, AllocError> {
        match operation {
            EventOperation::Set => {
                self.waiters.release(claim.woken.as_slice());
                self.up = true;
            }
            EventOperation::Reset => {
                self.waiters.release(claim.woken.as_slice());
                self.up = false;
            }
            EventOperation::Wait { .. } => self.waiters.settle(actor, claim, &[])?,
        }
        Ok(Owners::nobody())
    }

    fn leave(&mut self, who: Who) -> bool {
        self.waiters.leave(who)
    }
}

impl Clone for Event {
    ghost is_clone = { λ event copy. copy ≡ event };

    fn clone(&self) -> Result<Event, AllocError> {
        Ok(Event {
            name: self.name.clone()?,
            up: self.up,
            waiters: self.waiters.clone()?,
        })
    }
}
