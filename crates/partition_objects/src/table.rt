// The table of one kind.

ghost use Rattle.std.specs.Prelude.{◌≡◌, ◌≢◌, ◌↔◌, ◌++◌, ◌∷◌, ℕ, [], None, pos, length, IfErr, IfOk, IfSome, IsTrue, OnErr, OnOk, List};
ghost use Rattle.std.specs.Map.Iter.{ShowsInOrder, deref_pair};
ghost use Rattle.std.specs.Option.{option_copied};
ghost use Rattle.std.specs.Str.{bytes_eq};
ghost use Rattle.apex_types.specs.declared.record.Out.TheVariants as out;
ghost use Rattle.apex_machine.specs.After.{numbered};
ghost use Rattle.apex_machine.specs.Answer.{is_new};
ghost use Rattle.apex_machine.specs.Arguments.{natural_of};
ghost use Rattle.apex_machine.specs.Conditions.{is_taken};
ghost use Rattle.apex_machine.specs.Demands.{AllHold, answer_demands};
ghost use Rattle.apex_machine.specs.Names.{number_named};
ghost use Rattle.apex_machine.specs.State.{change_at, given_object, is_free, item_at};
ghost use Rattle.wait_set.specs.Actors.{Refuses, entry_with};
ghost use Rattle.wait_set.specs.Sets.{IsNewInEach};
ghost use Rattle.wait_set.specs.declared.object.ObjFault.TheVariants.{Memory};
ghost use Rattle.partition_objects.specs.Copies.{AreCopies, CopiesAreSame};
ghost use Rattle.partition_objects.specs.Numbers.{NumbersFit, number_of};

use crate::marked::Marked;
use apex_types::limits::GREATEST_NUMBER;
use apex_types::{Claim, Name, Who};
use indexmap::IndexMap;
use indexmap::map::Iter;
use std::alloc::{AllocError, Global};
use std::marker::Model;
use wait_set::{Actor, ApexObject, Effect, Named, ObjFault};

/// The objects of one kind, under their numbers, in the order of their creation.
#[derive(Drop)]
pub struct ObjectTable<Object> {
    objects: IndexMap<u32, Object>,
}

impl<Object> Model for ObjectTable<Object> {
    ghost use Rattle.std.specs.Prelude.{ℕ, List};
    ghost use Rattle.partition_objects.specs.Numbers.{NumbersFit};

    ghost Value = { List (ℕ × Object) };

    ghost view = { λ table. table.objects.entries };

    ghost invariant = { λ table. NumbersFit table.objects.entries };
}

impl<Object> ObjectTable<Object> {
    /// The empty table. Takes no memory.
    pub fn new(alloc: Global) -> ObjectTable<Object>
        ensures { result ≡ [] }
    {
        ObjectTable {
            objects: IndexMap::new(alloc),
        }
    }

    /// The object of the number that a caller gives, or None if there is none.
    pub fn given(&self, number: i64) -> Option<&Object>
        ensures { option_copied result ≡ given_object self.now number }
    {
        // A fact of every table, that its numbers fit 32 bits, is known when one of its fields is used.
        let _ = &self.objects;
        let number = object_number(number)?;
        self.at(number)
    }

    /// The object of this number, or None if there is none.
    pub fn at(&self, number: u32) -> Option<&Object>
        ensures { option_copied result ≡ item_at self.now number }
    {
        self.objects.get(&number)
    }

    // The number of an object that a caller gives. It fits 32 bits, since the numbers of all objects do.
    fn key_of(&self, number: i64) -> u32
        requires found { given_object self.now number ≢ None }
        ensures natural { result ≡ natural_of number }
        ensures same { item_at self.now result ≡ given_object self.now number }
    {
        // A fact of every table, that its numbers fit 32 bits, is known when one of its fields is used.
        let _ = &self.objects;
        number as u32
    }

    /// States what every table keeps: the numbers of its objects fit 32 bits. Does nothing.
    pub fn keeps_numbers(&self)
        ensures { NumbersFit self.now }
    {
        let _ = &self.objects;
    }

    /// How many objects there are.
    pub fn len(&self) -> usize
        ensures { result ≡ length self.now }
    {
        self.objects.len()
    }

    /// The objects with their numbers, in the order of their creation.
    pub fn iter(&self) -> Iter<'_, u32, Object>
        ensures rest { result ≡ self.now }
        ensures runs { ShowsInOrder (deref_pair {K = ℕ} {X = Object}) }
    {
        self.objects.iter()
    }

    /// Whether a claimed value is a number that a new object can take: it is from 1 to 2,147,483,647, and no object has it.
    pub fn is_new_number(&self, claimed: Option<i64>) -> bool
        ensures { result ≡ is_new (is_free self.now) claimed }
    {
        match claimed {
            Some(number) => {
                number > 0 && number <= GREATEST_NUMBER as i64 && self.at(number as u32).is_none()
            }
            None => false,
        }
    }
}

impl<Object: Drop> ObjectTable<Object> {
    /// Adds what is created after the others, under the number that its creation claims. The caller must ensure that the number is a new
    /// one.
    ///
    /// Memory if memory is refused; nothing has changed then.
    pub fn add(&mut self, claimed: Option<i64>, object: Object) -> Result<(), ObjFault>
        requires new { IsTrue (is_new (is_free self.old) claimed) }
        ensures added { OnOk result (self.new ≡ self.old ++ numbered claimed object) }
        ensures memory { IfErr result (λ fault. fault ≡ Memory) }
        ensures unchanged { OnErr result (self.new ≡ self.old) }
    {
        if let Some(number) = claimed {
            self.insert(number as u32, object)
                .map_err(|_| ObjFault::Memory)?;
        }
        Ok(())
    }

    // Adds an object after the others, under a new number.
    fn insert(&mut self, number: u32, object: Object) -> Result<(), AllocError>
        requires new { IsTrue (is_new (is_free self.old) (Some (pos number))) }
        ensures added { OnOk result (self.new ≡ self.old ++ (number, object) ∷ []) }
        ensures unchanged { OnErr result (self.new ≡ self.old) }
    {
        self.objects.insert(number, object)?;
        Ok(())
    }
}

impl<Object: Named> ObjectTable<Object> {
    /// Whether an object has this name.
    pub fn is_taken(&self, name: &Name) -> bool
        ensures { result ≡ is_taken Object.name_of name.now self.now }
    {
        self.objects
            .values()
            .any(|object| name.as_bytes() == object.name().as_bytes())
    }

    /// The number of the first object that has this name, or None if none has it.
    pub fn number_named(&self, name: &Name) -> Option<u32>
        ensures { result ≡ number_named Object.name_of name.now self.now }
    {
        let (number, _) = self.iter().find(|(_, object)| has_name(*object, name))?;
        Some(*number)
    }
}

impl<Object: ApexObject> ObjectTable<Object> {
    /// Carries out an operation on the object of the number that a caller gives, if the claim is what it gives its caller.
    ///
    /// Refused, with nothing changed, if the claim is another, or if memory is refused.
    pub fn apply(
        &mut self,
        number: i64,
        actor: Actor,
        operation: &Object::Operation,
        claim: &Claim,
    ) -> Result<Effect, ObjFault>
        requires found { given_object self.old number ≢ None }
        requires new { IfSome (given_object self.old number) (λ object. IsNewInEach (entry_with actor []) (Object.sets object)) }
        requires needed { IfSome (given_object self.old number) (λ object. Object.needs actor operation.now object) }
        ensures ok { OnOk result (IfSome (given_object self.old number) (λ object. AllHold (answer_demands (Object.answer actor operation.now object) claim.now))) }
        ensures after { OnOk result (self.new ≡ change_at (natural_of number) (Object.after actor operation.now claim.now) self.old) }
        ensures waits { IfOk result (λ effect. IsTrue effect.waits ↔ (claim.now.out ≡ out.Waits)) }
        ensures owners { IfOk result (λ effect. IfSome (given_object self.old number) (λ object. effect.owners ≡ Object.owners actor operation.now object)) }
        ensures refused { IfErr result (λ fault. IfSome (given_object self.old number) (λ object. Refuses (answer_demands (Object.answer actor operation.now object) claim.now) fault)) }
        ensures unchanged { OnErr result (self.new ≡ self.old) }
    {
        let key = self.key_of(number);
        match self.objects.get_mut(&key) {
            Some(object) => object.apply(actor, operation, claim),
            None => unreachable!(),
        }
    }

    /// Takes a process out of the waiting sets of the object of this number, if there is one. Takes no memory.
    pub fn leave(&mut self, number: u32, who: Who)
        ensures { self.new ≡ change_at number (Object.without_one who) self.old }
    {
        if let Some(object) = self.objects.get_mut(&number) {
            object.leave(who);
        }
    }
}

impl<Object: Marked> ObjectTable<Object> {
    /// Leaves the mark of a call that claims this value with the object of the number that a caller gives. Takes no memory.
    pub fn mark(&mut self, number: i64, claimed: Option<i64>)
        requires found { given_object self.old number ≢ None }
        ensures { self.new ≡ change_at (natural_of number) (Object.marked claimed) self.old }
    {
        let key = self.key_of(number);
        if let Some(object) = self.objects.get_mut(&key) {
            object.mark(claimed);
        }
    }
}

// Whether an object has this name.
fn has_name<Object: Named>(object: &Object, name: &Name) -> bool
    ensures { result ≡ bytes_eq name.now (Object.name_of object.now) }
{
    name.as_bytes() == object.name().as_bytes()
}

// The object number that a caller's number gives: 0 to 4,294,967,295; None for any other.
fn object_number(given: i64) -> Option<u32>
    ensures { result ≡ number_of given }
{
    if given >= 0 && given <= u32::MAX as i64 {
        Some(given as u32)
    } else {
        None
    }
}

impl<Object: Clone> Clone for ObjectTable<Object> {
    // The objects have the same numbers in the same order, and each is a copy of its original.
    ghost is_clone = { AreCopies Object.is_clone };

    fn clone(&self) -> Result<ObjectTable<Object>, AllocError> {
        Ok(ObjectTable {
            objects: self.objects.clone()?,
        })
    }
}

impl<Object: Clone + Drop> ObjectTable<Object> {
    /// Replaces its objects by copies of another table's, under the same numbers and in the same order.
    ///
    /// AllocError where memory is refused; nothing has changed then.
    #[tactic(auto, using(crate::proofs::Copies::copies_are_same))]
    pub fn copy_from(&mut self, other: &ObjectTable<Object>) -> Result<(), AllocError>
        requires same { CopiesAreSame Object.is_clone }
        ensures copied { OnOk result (self.new ≡ other.now) }
        ensures unchanged { OnErr result (self.new ≡ self.old) }
    {
        *self = other.clone()?;
        Ok(())
    }
}
