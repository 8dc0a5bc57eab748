// The processes that wait in a set.

ghost use Rattle.std.specs.Prelude.{◌≡◌, IfOk};
ghost use Rattle.run_view.specs.Waiters.{in_turn};

use apex_types::{Place, Who};
use std::alloc::{AllocError, Global};
use wait_set::WaitSet;

/// A process that waits in a set, with the priority and the place at which it entered.
#[derive(Clone, Copy, Debug, PartialEq, Eq)]
pub struct Waiter {
    pub who: Who,
    pub priority: u8,
    pub since: Place,
}

/// The processes that wait in a set, in the order in which their waits end.
///
/// `AllocError` if memory is refused.
pub fn waiters_of(alloc: Global, set: &WaitSet) -> Result<Vec<Waiter>, AllocError>
    ensures { IfOk result (λ waiters. waiters.items ≡ in_turn set.now) }
{
    let mut waiters = Vec::new(alloc);
    if set.is_empty() {
        return Ok(waiters);
    }
    let mut left = set.clone()?;
    'waiters: for _turn in 0..set.len() {
        let Some(entry) = left.take_first() else {
            return Ok(waiters);
        };
        waiters.push(Waiter {
            who: entry.who,
            priority: entry.priority,
            since: entry.place,
        })?;
    }
    Ok(waiters)
}
