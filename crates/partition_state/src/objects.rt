// What an operation makes of the one object that a call names, whatever its kind.

ghost use Rattle.std.specs.Prelude.{◌≡◌, ◌≢◌, ◌∷◌, [], None, IfErr, IfOk, IfSome, OnErr, OnOk};
ghost use Rattle.apex_machine.specs.Arguments.{natural_of};
ghost use Rattle.apex_machine.specs.Demands.{AllHold, answer_demands};
ghost use Rattle.apex_machine.specs.Locks.{lock_effect};
ghost use Rattle.apex_machine.specs.State.{change_at, given_object};
ghost use Rattle.partition_objects.specs.Locks.{Needs, after as lock_after};
ghost use Rattle.wait_set.specs.Actors.{Refuses, entry_with};
ghost use Rattle.wait_set.specs.Sets.{IsNewInEach};
ghost use Rattle.partition_state.specs.Calls.{actor_of, used_demands};
ghost use Rattle.partition_state.specs.Owners.{TransfersBetween};

use apex_types::{Call, Claim, LockOperation, Place};
use partition_objects::{ObjectTable, PreemptionLock};
use scheduling::Transfer;
use wait_set::{Actor, ApexObject, ObjFault, Owners};

/// The caller of a call at this place, with the priority that the call claims, as an object sees it.
pub(crate) fn caller_of(place: Place, call: &Call) -> Actor
    ensures { result ≡ actor_of place call.now }
{
    Actor {
        who: call.who,
        priority: call.claim.prio,
        place,
    }
}

/// Performs an operation on the object of this number, and returns what becomes of the object's owner.
///
/// Refused, with nothing changed, if the claim is not what the object gives, or if memory is refused.
pub(crate) fn use_object<Object: ApexObject>(
    objects: &mut ObjectTable<Object>,
    number: i64,
    caller: Actor,
    operation: &Object::Operation,
    claim: &Claim,
) -> Result<Transfer, ObjFault>
    requires found { given_object objects.old number ≢ None }
    requires new { IfSome (given_object objects.old number) (λ object. IsNewInEach (entry_with caller []) (Object.sets object)) }
    requires needed { IfSome (given_object objects.old number) (λ object. Object.needs caller operation.now object) }
    ensures ok { OnOk result (AllHold (used_demands objects.old number (Object.answer caller operation.now) claim.now)) }
    ensures after { OnOk result (objects.new ≡ change_at (natural_of number) (Object.after caller operation.now claim.now) objects.old) }
    ensures transfer { IfOk result (λ transfer. IfSome (given_object objects.old number) (λ object. TransfersBetween (Object.owners caller operation.now object) transfer)) }
    ensures refused { IfErr result (Refuses (used_demands objects.old number (Object.answer caller operation.now) claim.now)) }
    ensures unchanged { OnErr result (objects.new ≡ objects.old) }
{
    let effect = objects.apply(number, caller, operation, claim)?;
    Ok(transfer_of(effect.owners))
}

/// Performs an operation on the lock of a partition. No mutex changes its owner.
///
/// Refused, with nothing changed, if the claim is not what the lock gives, or if memory is refused.
pub(crate) fn use_lock(
    lock: &mut PreemptionLock,
    caller: Actor,
    operation: &LockOperation,
    claim: &Claim,
) -> Result<Transfer, ObjFault>
    requires new { IsNewInEach (entry_with caller []) (lock.old.waiters ∷ []) }
    requires needed { Needs caller operation.now lock.old }
    ensures ok { OnOk result (AllHold (answer_demands (lock_effect caller.who.proc operation.now lock.old).answer claim.now)) }
    ensures after { OnOk result (lock.new ≡ lock_after caller operation.now claim.now lock.old) }
    ensures refused { IfErr result (Refuses (answer_demands (lock_effect caller.who.proc operation.now lock.old).answer claim.now)) }
    ensures unchanged { OnErr result (lock.new ≡ lock.old) }
{
    let effect = lock.apply(caller, operation, claim)?;
    Ok(transfer_of(effect.owners))
}

// The transfer of an object from the process that owned it, if one did, to the one that owns it now. None if they are the same.
fn transfer_of(owners: Owners) -> Transfer
    ensures { TransfersBetween owners result }
{
    if owners.before == owners.after {
        return Transfer::none();
    }
    Transfer {
        from: owners.before,
        to: owners.after,
        priority: owners.priority,
    }
}
