// The values of memories at a view, in words.

use apex_types::View;
use std::alloc::{AllocError, Global};
use user_rules::{Quantity, Recollection, Relation, RuleMemory};
use wording::Words;

/// The value of a memory at a view, and the place of the last view that met the memory's relation, if one did.
#[derive(Clone, Copy, Debug, PartialEq, Eq)]
pub struct MemoryValue {
    pub value: i64,
    pub last: Option<u64>,
}

/// The values of these memories at a view, by what they have kept of the views before it.
///
/// `AllocError` if memory is refused.
pub fn values_at(
    alloc: Global,
    memories: &[RuleMemory],
    recollection: &Recollection,
    view: &View,
) -> Result<Vec<MemoryValue>, AllocError> {
    let mut read = Vec::new(alloc);
    recollection.read(memories, view, &mut read)?;
    let mut values = Vec::new(alloc);
    for (number, value) in read.iter().enumerate() {
        values.push(MemoryValue {
            value: *value,
            last: recollection.last_place(memories, number, view),
        })?;
    }
    Ok(values)
}

/// Reports the value of a memory, and where its relation was met last.
pub(crate) fn tell_value(words: &mut Words, memory: &RuleMemory, value: MemoryValue) {
    words.say(format_args!("{} = {}", memory.name, value.value));
    if let Some(place) = value.last {
        words.say(" (last met at ");
        words.say_place(place);
        words.say(")");
    }
}

/// Whether a relation mentions a memory.
pub(crate) fn speaks_of_memory(relation: &Relation, number: usize) -> bool {
    match relation {
        Relation::Less(left, right)
        | Relation::Equal(left, right)
        | Relation::Greater(left, right) => is_memory(left, number) || is_memory(right, number),
        Relation::And(one, other) | Relation::Or(one, other) => {
            speaks_of_memory(one, number) || speaks_of_memory(other, number)
        }
        Relation::Not(one) => speaks_of_memory(one, number),
    }
}

// Whether a quantity is the memory of this number.
fn is_memory(quantity: &Quantity, number: usize) -> bool {
    matches!(quantity, Quantity::Memory(other) if *other == number)
}
