// What a creation claims, whatever it creates.

ghost use Rattle.std.specs.Prelude.{◌≡◌, IfErr, IfOk, OnOk};
ghost use Rattle.apex_machine.specs.Answer.{NewNumber, done_with};
ghost use Rattle.apex_machine.specs.Demands.{AllHold, answer_demands};
ghost use Rattle.apex_machine.specs.State.{is_free};
ghost use Rattle.wait_set.specs.Actors.{Refuses};
ghost use Rattle.wait_set.specs.declared.object.ObjFault.TheVariants.{Memory};

use crate::table::ObjectTable;
use apex_types::{Claim, Name};
use std::alloc::Global;
use wait_set::{ObjFault, judge_value};

impl<Object> ObjectTable<Object> {
    /// Judges the claim of a creation, which is done at once and gives a new number.
    ///
    /// Refused with the cause of the first demand that fails. Takes no memory.
    pub fn judge_creation(&self, claim: &Claim) -> Result<(), ObjFault>
        ensures ok { OnOk result (AllHold (answer_demands (done_with (NewNumber (is_free self.now))) claim.now)) }
        ensures refused { IfErr result (Refuses (answer_demands (done_with (NewNumber (is_free self.now))) claim.now)) }
    {
        match judge_value(self.is_new_number(claim.val), claim) {
            Ok(()) => Ok(()),
            Err(cause) => Err(ObjFault::Unlawful(cause)),
        }
    }
}

/// A copy of a name, for what is created. Refused if memory is refused.
pub fn copy_of(alloc: Global, name: &Name) -> Result<Name, ObjFault>
    ensures copied { IfOk result (λ copy. copy ≡ name.now) }
    ensures memory { IfErr result (λ fault. fault ≡ Memory) }
{
    let bytes = Vec::from_slice(alloc, name.as_bytes()).map_err(|_| ObjFault::Memory)?;
    Ok(Name::new(bytes))
}
