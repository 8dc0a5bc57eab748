// Mutexes.

ghost use Rattle.std.specs.Prelude.{ℤ, ◌≡◌, ◌≤◌, ◌<◌, ◌+◌, ◌∷◌, [], None, IfOk, IsTrue, OnErr, OnOk};
ghost use Rattle.apex_types.specs.declared.operation.MutexOperation.TheVariants as on_mutex;
ghost use Rattle.apex_types.specs.declared.limits.TheConstants.{PLACE_COUNT};
ghost use Rattle.apex_machine.specs.Demands.{AllHold, answer_demands};
ghost use Rattle.apex_machine.specs.Objects.{handed_on, is_owner, mutex_effect, mutex_released, owned_by};
ghost use Rattle.apex_machine.specs.Statuses.{mutex_status};
ghost use Rattle.apex_machine.specs.Waiting.{first_waiter, is_waiting};
ghost use Rattle.wait_set.specs.Actors.{WaitsAlone, entry_with, left_by};
ghost use Rattle.wait_set.specs.Sets.{IsNew, without_one};
ghost use Rattle.partition_objects.specs.Mutexes as rules;

use apex_machine::Status;
use apex_types::{Claim, Discipline, MutexOperation, Name, ProcId, Who};
use std::alloc::{AllocError, Global};
use std::marker::Model;
use wait_set::{Actor, ApexObject, Given, Named, Owners, WaitSet};

/// A mutex: its priority, the process that owns it, how often its owner has acquired it, and the processes that wait.
#[derive(Drop)]
pub struct Mutex653 {
    name: Name,
    priority: u8,
    owner: Option<ProcId>,
    count: u64,
    waiters: WaitSet,
}

impl Model for Mutex653 {
    ghost use Rattle.apex_machine.specs.State.{Mutex as Seen};

    ghost Value = { Seen };

    ghost view = { λ mutex. record { name = mutex.name; priority = mutex.priority; discipline = mutex.waiters.discipline; owner = mutex.owner; count = mutex.count; waiters = mutex.waiters.entries } };
}

impl Mutex653 {
    /// The free mutex of this priority, for which no process waits. Takes no memory.
    pub fn new(alloc: Global, name: Name, priority: u8, discipline: Discipline) -> Mutex653
        ensures { result ≡ record { name = name; priority = priority; discipline = discipline; owner = None; count = 0; waiters = [] } }
    {
        Mutex653 {
            name,
            priority,
            owner: None,
            count: 0,
            waiters: WaitSet::new(alloc, discipline),
        }
    }

    /// The process that owns it, or None if it is free.
    pub fn owner(&self) -> Option<ProcId>
        ensures { result ≡ self.now.owner }
    {
        self.owner
    }

    /// Whether this process owns it.
    pub fn is_owned_by(&self, process: ProcId) -> bool
        ensures { result ≡ is_owner self.now.owner process }
    {
        match self.owner {
            None => false,
            Some(owner) => owner == process,
        }
    }

    /// The priority with which its owner runs.
    pub fn priority(&self) -> u8
        ensures { result ≡ self.now.priority }
    {
        self.priority
    }

    /// How often its owner has acquired it and not released it: 0 if it is free.
    pub fn count(&self) -> u64
        ensures { result ≡ self.now.count }
    {
        self.count
    }

    /// The processes that wait for it.
    pub fn waiters(&self) -> &WaitSet
        ensures discipline { result.now.discipline ≡ self.now.discipline }
        ensures entries { result.now.entries ≡ self.now.waiters }
    {
        &self.waiters
    }

    /// GET_MUTEX_STATUS: its owner, or 0 if it is free, how many processes wait, and how often it was acquired. Takes no memory.
    pub fn status(&self) -> Status
        ensures { result ≡ mutex_status self.now }
    {
        let owner = match self.owner {
            Some(owner) => u64::from(owner.number()),
            None => 0,
        };
        Status {
            val: owner,
            val2: Some(self.waiters.len() as u64),
            val3: Some(self.count),
        }
    }

    /// ACQUIRE_MUTEX by a claim that is what it gives: a free mutex becomes the caller's, its owner acquires it once more, and any other
    /// process waits. Returns the owner before and the owner after.
    ///
    /// Each call adds at most one to the count, so the count is not above the place of a later call. AllocError if memory is refused to a
    /// caller that waits; nothing is changed then.
    pub fn acquire(
        &mut self,
        actor: Actor,
        time_out: i64,
        claim: &Claim,
    ) -> Result<Owners, AllocError>
        requires new { IsNew (entry_with actor []) self.old.waiters }
        requires counted { self.old.count ≤ actor.place }
        requires given { AllHold (answer_demands (mutex_effect actor.who.proc (on_mutex.Acquire time_out) self.old).answer claim.now) }
        requires alone { WaitsAlone claim.now }
        ensures after { OnOk result (self.new ≡ rules.after actor (on_mutex.Acquire time_out) claim.now self.old) }
        ensures counted { self.new.count ≤ self.old.count + 1 }
        ensures owners { IfOk result (λ owners. owners ≡ rules.owners actor (on_mutex.Acquire time_out) self.old) }
        ensures memory { OnErr result (IsTrue (is_waiting claim.now.out)) }
        ensures unchanged { OnErr result (self.new ≡ self.old) }
    {
        self.waiters.settle(actor, claim, &[])?;
        let before = self.owner;
        self.take(&actor);
        Ok(self.owners_since(before))
    }

    // The mutex after ACQUIRE_MUTEX, except for the processes that wait: it is as it was if another process owns it.
    fn take(&mut self, actor: &Actor)
        requires { self.old.count < PLACE_COUNT }
        ensures { (time_out : ℤ) → self.new ≡ (mutex_effect actor.now.who.proc (on_mutex.Acquire time_out) self.old).next }
    {
        if self.owner.is_none() {
            self.give_to(actor.who.proc);
        } else if self.is_owned_by(actor.who.proc) {
            self.count += 1;
        }
    }

    /// RELEASE_MUTEX by a claim that is what it gives: a count above 1 falls by one; else the first waiter becomes the owner, or the mutex
    /// becomes free. Returns the owner before and the owner after. Takes no memory.
    pub fn release(&mut self, claim: &Claim) -> Owners
        ensures after { self.new ≡ record (mutex_released (first_waiter self.old.discipline self.old.waiters) self.old).next { waiters = left_by claim.now self.old.waiters } }
        ensures counted { self.new.count ≤ self.old.count + 1 }
        ensures owners { result ≡ rules.owners_from self.old (mutex_released (first_waiter self.old.discipline self.old.waiters) self.old).next }
    {
        let before = self.owner;
        self.give_up();
        self.waiters.release(claim.woken.as_slice());
        self.owners_since(before)
    }

    /// RESET_MUTEX by a claim that is what it gives: the first waiter becomes the owner, or the mutex becomes free, whatever its count is.
    /// Returns the owner before and the owner after. Takes no memory.
    pub fn reset(&mut self, claim: &Claim) -> Owners
        ensures after { self.new ≡ record (handed_on (first_waiter self.old.discipline self.old.waiters) self.old).next { waiters = left_by claim.now self.old.waiters } }
        ensures counted { self.new.count ≤ self.old.count + 1 }
        ensures owners { result ≡ rules.owners_from self.old (handed_on (first_waiter self.old.discipline self.old.waiters) self.old).next }
    {
        let before = self.owner;
        self.hand_on();
        let named = claim.woken.as_slice();
        self.waiters.release(named);
        self.owners_since(before)
    }

    // The mutex after RELEASE_MUTEX, except for the processes that wait.
    fn give_up(&mut self)
        ensures { self.new ≡ (mutex_released (first_waiter self.old.discipline self.old.waiters) self.old).next }
    {
        if self.count > 1 {
            self.count -= 1;
        } else {
            self.hand_on();
        }
    }

    // The mutex after its owner has given it up, except for the processes that wait.
    fn hand_on(&mut self)
        ensures { self.new ≡ (handed_on (first_waiter self.old.discipline self.old.waiters) self.old).next }
    {
        let first = self.waiters.first().map(|entry| entry.who.proc);
        match first {
            Some(process) => self.give_to(process),
            None => self.set_free(),
        }
    }

    // Its owners, if this process owned it before.
    fn owners_since(&self, before: Option<ProcId>) -> Owners
        ensures { result ≡ record { before = before; after = self.now.owner; priority = self.now.priority } }
    {
        Owners {
            before,
            after: self.owner,
            priority: self.priority,
        }
    }

    // The process becomes the owner of the mutex, acquired once.
    fn give_to(&mut self, owner: ProcId)
        ensures { self.new ≡ owned_by owner self.old }
    {
        self.owner = Some(owner);
        self.count = 1;
    }

    // The mutex becomes free.
    fn set_free(&mut self)
        ensures { self.new ≡ record self.old { owner = None; count = 0 } }
    {
        self.owner = None;
        self.count = 0;
    }
}

impl Named for Mutex653 {
    ghost name_of = { λ mutex. mutex.name };

    fn name(&self) -> &Name {
        &self.name
    }
}

impl ApexObject for Mutex653 {
    type Operation = MutexOperation;

    ghost needs = { rules.Needs };

    ghost answer = { λ actor operation mutex. (mutex_effect actor.who.proc operation mutex).answer };

    ghost after = { rules.after };

    ghost owners = { rules.owners };

    ghost sets = { λ mutex. mutex.waiters ∷ [] };

    ghost without_one = { λ who mutex. record mutex { waiters = without_one who mutex.waiters } };

    fn answer(&self, actor: &Actor, operation: &MutexOperation) -> Given<'_> {
        match operation {
            // A free mutex, or the caller's own, is acquired at once.
            MutexOperation::Acquire { .. } if self.owner.is_none() => Given::done(),
            MutexOperation::Acquire { .. } if self.is_owned_by(actor.who.proc) => Given::done(),
            MutexOperation::Acquire { time_out } => Given::unmet(*time_out),
            // The last release ends the wait of the first waiter, and so does a reset.
            MutexOperation::Release if self.count > 1 => Given::done(),
            MutexOperation::Release | MutexOperation::Reset { .. } => {
                Given::waking(self.waiters.first().map(|entry| entry.who))
            }
        }
    }

    #[tactic(auto, using(crate::proofs::TimeOuts::as_given))]
    fn carry_out(
        &mut self,
        actor: Actor,
        operation: &MutexOperation,
        claim: &Claim,
    ) -> Result<Owners, AllocError> {
        match operation {
            MutexOperation::Acquire { time_out } => self.acquire(actor, *time_out, claim),
            MutexOperation::Release => Ok(self.release(claim)),
            MutexOperation::Reset { .. } => Ok(self.reset(claim)),
        }
    }

    fn leave(&mut self, who: Who) -> bool {
        self.waiters.leave(who)
    }
}

impl Clone for Mutex653 {
    ghost is_clone = { λ mutex copy. copy ≡ mutex };

    fn clone(&self) -> Result<Mutex653, AllocError> {
        Ok(Mutex653 {
            name: self.name.clone()?,
            priority: self.priority,
            owner: self.owner,
            count: self.count,
            waiters: self.waiters.clone()?,
        })
    }
}
