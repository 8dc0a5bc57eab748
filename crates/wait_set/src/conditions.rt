// The error conditions that hold for a call.

ghost use Rattle.std.specs.Prelude.{◌≡◌, ◌<◌, ◌≤◌, ◌+◌, ◌++◌, ◌↔◌, [], IsTrue, length};
ghost use Rattle.apex_machine.specs.Conditions.{when};
ghost use Rattle.apex_machine.specs.Step.{HasCode, IsCodeOf};

use apex_machine::Condition;
use apex_types::{Code, Out};
use std::marker::Model;

/// The error conditions that hold for a call, in the order in which they are judged. A contract sees them as a list. They take no memory,
/// and there is room for the conditions of any service.
#[derive(Drop)]
pub struct Conditions {
    conditions: [Condition; Conditions::LIMIT],
    count: usize,
}

impl Model for Conditions {
    ghost use Rattle.std.specs.Prelude.{List, ◌≤◌, take};
    ghost use Rattle.apex_machine.specs.declared.condition.Condition.{Condition};

    ghost Value = { List Condition };

    ghost view = { λ held. take held.count held.conditions };

    ghost invariant = { λ held. held.count ≤ 8 };
}

impl Conditions {
    /// The most error conditions that a service has.
    pub const LIMIT: usize = 8;

    /// No condition.
    pub fn none() -> Conditions
        ensures { result ≡ [] }
    {
        Conditions {
            // Places from the count on are never read.
            conditions: [Condition::NotCreated; Conditions::LIMIT],
            count: 0,
        }
    }

    /// These conditions, followed by this one if it holds. The caller must ensure that there is room.
    pub fn with(mut self, holds: bool, condition: Condition) -> Conditions
        requires { length self < Self.LIMIT }
        ensures value { result ≡ self ++ when holds condition }
        ensures growth { length result ≤ length self + 1 }
    {
        if holds {
            self.conditions[self.count] = condition;
            self.count += 1;
        }
        self
    }

    /// Whether none holds.
    pub fn is_empty(&self) -> bool
        ensures { IsTrue result ↔ (self.now ≡ []) }
    {
        self.as_slice().is_empty()
    }

    /// Whether an outcome is the code of one of them.
    pub fn has_code(&self, out: Out) -> bool
        ensures { IsTrue result ↔ HasCode self.now out }
    {
        match out {
            Out::Waits | Out::Never => false,
            Out::Answer(code) => is_code_of(self.as_slice(), code),
        }
    }

    /// All of them, in their order.
    pub fn as_slice(&self) -> &[Condition]
        ensures { result.now ≡ self.now }
    {
        &self.conditions[..self.count]
    }
}

// Whether one of the conditions has this code.
fn is_code_of(conditions: &[Condition], code: Code) -> bool
    ensures { IsTrue result ↔ IsCodeOf conditions.now code }
{
    for condition in conditions {
        if condition.code() == code {
            return true;
        }
    }
    false
}
