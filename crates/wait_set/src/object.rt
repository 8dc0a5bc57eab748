// What all objects share: the process that makes a call, the result of an operation, and the operations themselves.

ghost use Rattle.std.specs.Prelude.{◌≡◌, ◌↔◌, List, [], IfErr, IfOk, IsTrue, OnErr, OnOk};
ghost use Rattle.apex_types.specs.declared.record.Claim.{Claim as ClaimValue};
ghost use Rattle.apex_types.specs.declared.record.Out.TheVariants as out;
ghost use Rattle.apex_types.specs.declared.record.Who.{Who as WhoValue};
ghost use Rattle.apex_machine.specs.declared.state.Entry.{Entry};
ghost use Rattle.apex_machine.specs.Answer.{Answer};
ghost use Rattle.apex_machine.specs.Demands.{AllHold, answer_demands};
ghost use Rattle.wait_set.specs.declared.object.Actor.{Actor as ActorValue};
ghost use Rattle.wait_set.specs.declared.object.Owners.{Owners as OwnersValue};
ghost use Rattle.wait_set.specs.Actors.{NeedsNothing, Refuses, WaitsAlone, entry_with};
ghost use Rattle.wait_set.specs.Givens.{answer_given};
ghost use Rattle.wait_set.specs.Owners.{nobody, owned_by_nobody};
ghost use Rattle.wait_set.specs.Sets.{IsNewInEach, has_entry_in_one};

use crate::given::Given;
use apex_types::{Cause, Claim, Name, Out, Place, ProcId, Who};
use std::alloc::AllocError;
use thiserror::Error;

/// The process that makes a call, with its current priority and the place of the call.
#[derive(Clone, Copy, Debug, PartialEq, Eq)]
pub struct Actor {
    pub who: Who,
    pub priority: u8,
    pub place: Place,
}

/// The owner of an object before an operation, the owner after it, and the priority with which an owner runs.
#[derive(Clone, Copy, Debug, PartialEq, Eq)]
pub struct Owners {
    pub before: Option<ProcId>,
    pub after: Option<ProcId>,
    pub priority: u8,
}

impl Owners {
    /// No process owns the object.
    pub fn nobody() -> Owners
        ensures { result ≡ nobody }
    {
        Owners {
            before: None,
            after: None,
            priority: 0,
        }
    }
}

/// The result of an accepted operation: whether its caller waits, and what became of the object's owner.
#[derive(Clone, Copy, Debug, PartialEq, Eq)]
pub struct Effect {
    pub waits: bool,
    pub owners: Owners,
}

/// Why an operation is refused.
#[derive(Clone, Copy, Debug, PartialEq, Eq, Error)]
pub enum ObjFault {
    /// The claim is not what the operation gives. The cause is that of the first demand that fails.
    #[error("the claim is not what the operation gives")]
    Unlawful(Cause),
    /// Memory was refused.
    #[error("out of memory")]
    Memory,
}

/// What has a name.
pub trait Named {
    ghost use Rattle.std.specs.Prelude.{ℕ, List};

    // Its name.
    ghost name_of: { Self → List ℕ };

    /// Its name.
    fn name(&self) -> &Name
        ensures { result.now ≡ name_of self.now };
}

/// An object of a partition. Before an operation on it, it is judged that no error condition holds.
pub trait ApexObject {
    /// What a caller requests of it.
    type Operation;

    // What an operation requires of its caller and the object: nothing by default.
    ghost needs: { ActorValue → Self.Operation → Self → Type 0 } = { NeedsNothing };

    // What an operation gives its caller.
    ghost answer: { ActorValue → Self.Operation → Self → Answer };

    // The object after an accepted operation, including its waiting sets.
    ghost after: { ActorValue → Self.Operation → ClaimValue → Self → Self };

    // The owner of the object before an accepted operation, and the owner after it: none by default.
    ghost owners: { ActorValue → Self.Operation → Self → OwnersValue } = { owned_by_nobody };

    // Its waiting sets.
    ghost sets: { Self → List (List Entry) };

    // The object without this process in its waiting sets.
    ghost without_one: { WhoValue → Self → Self };

    /// What an operation gives its caller. Takes no memory.
    fn answer(&self, actor: &Actor, operation: &Self::Operation) -> Given<'_>
        ensures { answer_given result ≡ answer actor.now operation.now self.now };

    /// Carries out an operation whose claim is what it gives its caller. Returns the owner of the object before it and the owner after it.
    ///
    /// AllocError if memory is refused; nothing is changed then.
    fn carry_out(
        &mut self,
        actor: Actor,
        operation: &Self::Operation,
        claim: &Claim,
    ) -> Result<Owners, AllocError>
        requires new { IsNewInEach (entry_with actor []) (sets self.old) }
        requires needed { needs actor operation.now self.old }
        requires given { AllHold (answer_demands (answer actor operation.now self.old) claim.now) }
        requires alone { WaitsAlone claim.now }
        ensures after { OnOk result (self.new ≡ after actor operation.now claim.now self.old) }
        ensures owners { IfOk result (λ found. found ≡ owners actor operation.now self.old) }
        ensures unchanged { OnErr result (self.new ≡ self.old) };

    /// Carries out an operation, if the claim is what it gives its caller.
    ///
    /// Refused, with nothing changed, if the claim is another, or if memory is refused.
    fn apply(
        &mut self,
        actor: Actor,
        operation: &Self::Operation,
        claim: &Claim,
    ) -> Result<Effect, ObjFault>
        requires new { IsNewInEach (entry_with actor []) (sets self.old) }
        requires needed { needs actor operation.now self.old }
        ensures ok { OnOk result (AllHold (answer_demands (answer actor operation.now self.old) claim.now)) }
        ensures after { OnOk result (self.new ≡ after actor operation.now claim.now self.old) }
        ensures waits { IfOk result (λ effect. IsTrue effect.waits ↔ (claim.now.out ≡ out.Waits)) }
        ensures owners { IfOk result (λ effect. effect.owners ≡ owners actor operation.now self.old) }
        ensures refused { IfErr result (Refuses (answer_demands (answer actor operation.now self.old) claim.now)) }
        ensures unchanged { OnErr result (self.new ≡ self.old) }
    {
        self.answer(&actor, operation)
            .judge(claim)
            .map_err(ObjFault::Unlawful)?;
        let owners = self
            .carry_out(actor, operation, claim)
            .map_err(|_| ObjFault::Memory)?;
        Ok(Effect {
            waits: claim.out == Out::Waits,
            owners,
        })
    }

    /// Takes a process out of the waiting sets. Returns whether it was in one. Takes no memory.
    fn leave(&mut self, who: Who) -> bool
        ensures stood { result ≡ has_entry_in_one who (sets self.old) }
        ensures left { self.new ≡ without_one who self.old };
}
