// What a relation compares.

ghost use Rattle.std.specs.Prelude.{◌≡◌};
ghost use Rattle.user_rules.specs.Meets.{quantity_of, value_of, with_values};

use apex_types::{Field, View};

// The value of a memory that is not there.
const ABSENT: i64 = -1;

/// What a relation compares.
#[derive(Clone, Copy, Debug, PartialEq, Eq)]
pub enum Quantity {
    /// This number.
    Number(i64),
    /// The field of the view.
    Field(Field),
    /// The value of the memory of this number at the view; -1 if there is no such memory.
    Memory(usize),
}

impl Quantity {
    /// What it is at a view with these values of the memories. Takes no memory.
    pub fn of(&self, view: &View, values: &[i64]) -> i64
        ensures { result ≡ quantity_of self.now (with_values view.now values.now) }
    {
        match self {
            Quantity::Number(number) => *number,
            Quantity::Field(field) => view.get(*field),
            Quantity::Memory(number) => value_of(values, *number),
        }
    }
}

// The value of the memory of this number.
fn value_of(values: &[i64], number: usize) -> i64
    ensures { result ≡ value_of values.now number }
{
    match values.get(number) {
        Some(value) => *value,
        None => ABSENT,
    }
}
