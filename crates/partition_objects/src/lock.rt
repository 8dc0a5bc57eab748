// The lock on preemption of a partition.

ghost use Rattle.std.specs.Prelude.{◌≡◌, ◌∷◌, ◌<◌, [], None, IsTrue, OnErr, OnOk};
ghost use Rattle.std.specs.Option.{option_to_list};
ghost use Rattle.apex_types.specs.declared.discipline.Discipline.TheVariants.{Priority};
ghost use Rattle.apex_types.specs.declared.limits.TheConstants.{GREATEST_LOCK_LEVEL};
ghost use Rattle.apex_types.specs.declared.operation.LockOperation.TheVariants as on_lock;
ghost use Rattle.apex_machine.specs.Demands.{AllHold, answer_demands};
ghost use Rattle.apex_machine.specs.Locks as locks;
ghost use Rattle.apex_machine.specs.Objects.{is_owner};
ghost use Rattle.apex_machine.specs.State.{free_lock};
ghost use Rattle.wait_set.specs.Actors.{WaitsAlone, entry_with, left_by};
ghost use Rattle.wait_set.specs.Sets.{IsNew, without_one};
ghost use Rattle.partition_objects.specs.Locks as rules;

use apex_types::{Claim, Discipline, LockOperation, ProcId, Who};
use std::alloc::{AllocError, Global};
use std::marker::Model;
use wait_set::{Actor, ApexObject, Given, Owners, WaitSet};

/// The lock on preemption of a partition: the process that owns it, its level, and the processes that wait, which go by priority.
#[derive(Drop)]
pub struct PreemptionLock {
    owner: Option<ProcId>,
    level: u8,
    waiters: WaitSet,
}

impl Model for PreemptionLock {
    ghost use Rattle.std.specs.Prelude.{◌≡◌};
    ghost use Rattle.apex_types.specs.declared.discipline.Discipline.TheVariants.{Priority};
    ghost use Rattle.apex_machine.specs.State.{Lock};

    ghost Value = { Lock };

    ghost view = { λ lock. record { owner = lock.owner; level = lock.level; waiters = lock.waiters.entries } };

    ghost invariant = { λ lock. lock.waiters.discipline ≡ Priority };
}

impl PreemptionLock {
    /// The free lock, for which no process waits. Takes no memory.
    pub fn new(alloc: Global) -> PreemptionLock
        ensures { result ≡ free_lock }
    {
        PreemptionLock {
            owner: None,
            level: 0,
            waiters: WaitSet::new(alloc, Discipline::Priority),
        }
    }

    /// The process that owns it, or None if it is free.
    pub fn owner(&self) -> Option<ProcId>
        ensures { result ≡ self.now.owner }
    {
        self.owner
    }

    /// Whether this process owns it.
    pub fn is_owned_by(&self, process: ProcId) -> bool
        ensures { result ≡ is_owner self.now.owner process }
    {
        match self.owner {
            None => false,
            Some(owner) => owner == process,
        }
    }

    /// How often its owner has locked and not unlocked: 0 if it is free.
    pub fn level(&self) -> u8
        ensures { result ≡ self.now.level }
    {
        self.level
    }

    /// The processes that wait for it.
    pub fn waiters(&self) -> &WaitSet
        ensures discipline { result.now.discipline ≡ Priority }
        ensures entries { result.now.entries ≡ self.now.waiters }
    {
        &self.waiters
    }

    /// The process that gets the lock when its owner gives it up, if one waits. Takes no memory.
    pub fn next_owner(&self) -> Option<Who>
        ensures { option_to_list result ≡ locks.next_owner self.now }
    {
        self.waiters.first().map(|entry| entry.who)
    }

    /// LOCK_PREEMPTION by a claim that is what it gives: a free lock becomes the caller's, its owner adds one to the level, and any other
    /// process waits.
    ///
    /// AllocError if memory is refused to a caller that waits; nothing is changed then.
    pub fn lock(&mut self, actor: Actor, claim: &Claim) -> Result<(), AllocError>
        requires new { IsNew (entry_with actor []) self.old.waiters }
        requires level { IsTrue (is_owner self.old.owner actor.who.proc) → self.old.level < GREATEST_LOCK_LEVEL }
        requires given { AllHold (answer_demands (locks.locked actor.who.proc self.old).answer claim.now) }
        requires alone { WaitsAlone claim.now }
        ensures after { OnOk result (self.new ≡ rules.after actor on_lock.Lock claim.now self.old) }
        ensures unchanged { OnErr result (self.new ≡ self.old) }
    {
        self.waiters.settle(actor, claim, &[])?;
        self.take(&actor);
        Ok(())
    }

    // The lock after LOCK_PREEMPTION, except for the processes that wait: it is as it was if another process owns it.
    fn take(&mut self, actor: &Actor)
        requires { IsTrue (is_owner self.old.owner actor.now.who.proc) → self.old.level < GREATEST_LOCK_LEVEL }
        ensures { self.new ≡ (locks.locked actor.now.who.proc self.old).next }
    {
        if self.owner.is_none() {
            self.give_to(actor.who.proc);
        } else if self.is_owned_by(actor.who.proc) {
            self.level += 1;
        }
    }

    /// UNLOCK_PREEMPTION by a claim that is what it gives: a level above 1 falls by one; else the first waiter becomes the owner, or the
    /// lock becomes free. Takes no memory.
    pub fn unlock(&mut self, claim: &Claim)
        ensures { self.new ≡ record (locks.unlocked self.old).next { waiters = left_by claim.now self.old.waiters } }
    {
        if self.level > 1 {
            self.level -= 1;
        } else {
            self.hand_on();
        }
        self.waiters.release(claim.woken.as_slice());
    }

    /// A stop of this process that ends the waits of these: if it owns the lock, the first waiter becomes the owner, or the lock becomes
    /// free, whatever its level is. Takes no memory.
    pub fn stop(&mut self, process: ProcId, woken: &[Who])
        ensures { self.new ≡ rules.after_stop process woken.now self.old }
    {
        if self.is_owned_by(process) {
            self.hand_on();
        }
        self.waiters.release(woken);
    }

    // The lock after its owner has given it up, except for the processes that wait.
    fn hand_on(&mut self)
        ensures { self.new ≡ locks.passed_on self.old }
    {
        match self.next_owner() {
            Some(who) => self.give_to(who.proc),
            None => self.set_free(),
        }
    }

    // The process becomes the owner of the lock, with level 1.
    fn give_to(&mut self, owner: ProcId)
        ensures { self.new ≡ locks.locked_by owner self.old }
    {
        self.owner = Some(owner);
        self.level = 1;
    }

    // The lock becomes free.
    fn set_free(&mut self)
        ensures { self.new ≡ record self.old { owner = None; level = 0 } }
    {
        self.owner = None;
        self.level = 0;
    }
}

impl ApexObject for PreemptionLock {
    type Operation = LockOperation;

    ghost needs = { rules.Needs };

    ghost answer = { λ actor operation lock. (locks.lock_effect actor.who.proc operation lock).answer };

    ghost after = { rules.after };

    ghost sets = { λ lock. lock.waiters ∷ [] };

    ghost without_one = { λ who lock. record lock { waiters = without_one who lock.waiters } };

    fn answer(&self, actor: &Actor, operation: &LockOperation) -> Given<'_> {
        match operation {
            // A free lock is the caller's at once, and so is its own.
            LockOperation::Lock if self.owner.is_none() => Given::at_level(1, None),
            LockOperation::Lock if self.is_owned_by(actor.who.proc) => {
                Given::at_level(u64::from(self.level) + 1, None)
            }
            LockOperation::Lock => Given::waiting(),
            // The last unlocking ends the wait of the first waiter.
            LockOperation::Unlock if self.level > 1 => {
                Given::at_level(u64::from(self.level) - 1, None)
            }
            LockOperation::Unlock => Given::at_level(0, self.next_owner()),
        }
    }

    fn carry_out(
        &mut self,
        actor: Actor,
        operation: &LockOperation,
        claim: &Claim,
    ) -> Result<Owners, AllocError> {
        match operation {
            LockOperation::Lock => self.lock(actor, claim)?,
            LockOperation::Unlock => self.unlock(claim),
        }
        Ok(Owners::nobody())
    }

    fn leave(&mut self, who: Who) -> bool {
        self.waiters.leave(who)
    }
}

impl Clone for PreemptionLock {
    ghost is_clone = { λ lock copy. copy ≡ lock };

    fn clone(&self) -> Result<PreemptionLock, AllocError> {
        Ok(PreemptionLock {
            owner: self.owner,
            level: self.level,
            waiters: self.waiters.clone()?,
        })
    }
}
