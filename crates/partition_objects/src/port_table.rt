// The table of the ports of one kind.

ghost use Rattle.std.specs.Prelude.{◌≡◌, ◌≢◌, ◌++◌, [], None, false, IfErr, OnErr, OnOk};
ghost use Rattle.std.specs.Option.{option_copied};
ghost use Rattle.apex_machine.specs.After.{numbered};
ghost use Rattle.apex_machine.specs.Arguments.{natural_of};
ghost use Rattle.apex_machine.specs.Answer.{NewNumber, done_with, is_new};
ghost use Rattle.apex_machine.specs.Conditions.{is_taken};
ghost use Rattle.apex_machine.specs.Demands.{AllHold, answer_demands};
ghost use Rattle.apex_machine.specs.Names.{number_named};
ghost use Rattle.apex_machine.specs.Ports.{channel_by};
ghost use Rattle.apex_machine.specs.State.{Port as Seen, change_at, given_object, is_free};
ghost use Rattle.partition_objects.specs.Numbers.{NumbersFit};
ghost use Rattle.wait_set.specs.Actors.{Refuses};
ghost use Rattle.partition_objects.specs.Ports.{port_of, read_at};

use crate::creation::copy_of;
use crate::port::{Port, PortSettings};
use crate::table::ObjectTable;
use apex_types::{ChanId, Claim, Name};
use std::alloc::{AllocError, Global};
use std::marker::Model;
use wait_set::ObjFault;

/// The ports of one kind of a partition, under their numbers, in the order of their creation.
#[derive(Drop)]
pub struct PortTable {
    ports: ObjectTable<Port>,
}

impl Model for PortTable {
    ghost use Rattle.std.specs.Prelude.{ℕ, List};
    ghost use Rattle.apex_machine.specs.State.{Port as Seen};

    ghost Value = { List (ℕ × Seen) };

    ghost view = { λ table. table.ports };
}

impl PortTable {
    /// The empty table. Takes no memory.
    pub fn new(alloc: Global) -> PortTable
        ensures { result ≡ [] }
    {
        PortTable {
            ports: ObjectTable::new(alloc),
        }
    }

    /// States what every table keeps: the numbers of its ports fit 32 bits. Does nothing.
    pub fn keeps_numbers(&self)
        ensures { NumbersFit self.now }
    {
        self.ports.keeps_numbers();
    }

    /// Whether a port has this name.
    pub fn is_taken(&self, name: &Name) -> bool
        ensures { result ≡ is_taken (λ (port : Seen). port.name) name.now self.now }
    {
        self.ports.is_taken(name)
    }

    /// The number of the first port that has this name, or None if none has it.
    pub fn number_named(&self, name: &Name) -> Option<u32>
        ensures { result ≡ number_named (λ (port : Seen). port.name) name.now self.now }
    {
        self.ports.number_named(name)
    }

    /// Whether a claimed value is a number that a new port can take: it is from 1 to 2,147,483,647, and no port has it.
    pub fn is_new_number(&self, claimed: Option<i64>) -> bool
        ensures { result ≡ is_new (is_free self.now) claimed }
    {
        self.ports.is_new_number(claimed)
    }

    /// The port of the number that a caller gives, or None if there is none.
    pub fn given(&self, number: i64) -> Option<&Port>
        ensures { option_copied result ≡ given_object self.now number }
    {
        self.ports.given(number)
    }

    /// The channel of the port of the number that a caller gives, or None if there is no such port.
    pub fn channel_of(&self, number: i64) -> Option<ChanId>
        ensures { result ≡ channel_by (given_object self.now number) }
    {
        match self.given(number) {
            Some(port) => Some(port.channel()),
            None => None,
        }
    }

    /// Creates a port, if the claim is what a creation gives: NO_ERROR and a new number. The port comes after the others, under the claimed
    /// number. That no error condition holds is judged before.
    ///
    /// Refused, with nothing changed, if the claim is another, or if memory is refused.
    pub fn create(
        &mut self,
        alloc: Global,
        name: &Name,
        settings: PortSettings,
        claim: &Claim,
    ) -> Result<(), ObjFault>
        ensures ok { OnOk result (AllHold (answer_demands (done_with (NewNumber (is_free self.old))) claim.now)) }
        ensures created { OnOk result (self.new ≡ self.old ++ numbered claim.now.val (port_of name.now settings false)) }
        ensures refused { IfErr result (Refuses (answer_demands (done_with (NewNumber (is_free self.old))) claim.now)) }
        ensures unchanged { OnErr result (self.new ≡ self.old) }
    {
        self.ports.judge_creation(claim)?;
        let port = Port::new(copy_of(alloc, name)?, settings);
        self.ports.add(claim.val, port)
    }

    /// Replaces its ports by copies of another table's, under the same numbers and in the same order.
    ///
    /// AllocError where memory is refused; nothing has changed then.
    pub fn copy_from(&mut self, other: &PortTable) -> Result<(), AllocError>
        ensures copied { OnOk result (self.new ≡ other.now) }
        ensures unchanged { OnErr result (self.new ≡ self.old) }
    {
        self.ports.copy_from(&other.ports)
    }

    /// A read at the port of the number that a caller gives, which claims this value: the port records whether the sample is valid. Takes
    /// no memory.
    pub fn note_read(&mut self, number: i64, claimed: Option<i64>)
        requires found { given_object self.old number ≢ None }
        ensures { self.new ≡ change_at (natural_of number) (read_at claimed) self.old }
    {
        self.ports.mark(number, claimed);
    }
}

impl Clone for PortTable {
    ghost is_clone = { λ table copy. copy ≡ table };

    fn clone(&self) -> Result<PortTable, AllocError> {
        Ok(PortTable {
            ports: self.ports.clone()?,
        })
    }
}
