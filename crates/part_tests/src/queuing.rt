// A waiting set in ample memory, and if memory is refused.

ghost use Rattle.std.specs.Prelude.{◌≡◌, ◌<◌, [], ◌∷◌, IfOk};

use apex_machine::Entry;
use apex_types::{Discipline, Message, PartId, Place, ProcId, Who};
use std::alloc::{AllocError, Global};
use std::test::Fail;
use wait_set::WaitSet;

/// The process of this number of partition 0.
pub fn who(number: u32) -> Who
    ensures { result ≡ record { part = 0; proc = number } }
{
    Who {
        part: PartId::new(0),
        proc: ProcId::new(number),
    }
}

// An entry of this process, with this priority and at this place, that waits with the message `up`.
fn entry(alloc: Global, number: u32, priority: u8, place: u64) -> Result<Entry, AllocError>
    requires { place < 100 }
    ensures { IfOk result (λ entry. entry ≡ record { who = record { part = 0; proc = number }; priority = priority; place = place; message = 117 ∷ 112 ∷ [] }) }
{
    Ok(Entry {
        who: who(number),
        priority,
        place: Place::new(place),
        message: Message::new(Vec::from_slice(alloc, b"up")?),
    })
}

// A set in which the processes 1, 2 and 3 wait, in this order, the first with the least priority.
fn three(alloc: Global, discipline: Discipline) -> Result<WaitSet, AllocError> {
    let mut set = WaitSet::new(alloc, discipline);
    let first = entry(alloc, 1, 10, 0)?;
    set.enter(first).map_err(|_| AllocError)?;
    let second = entry(alloc, 2, 20, 1)?;
    set.enter(second).map_err(|_| AllocError)?;
    let third = entry(alloc, 3, 20, 2)?;
    set.enter(third).map_err(|_| AllocError)?;
    Ok(set)
}

#[test]
fn a_set_goes_by_its_discipline(rt: HostRuntime) -> Result<(), Fail> {
    for (discipline, order) in [
        (Discipline::Fifo, [1, 2, 3]),
        (Discipline::Priority, [2, 3, 1]),
    ] {
        let mut set = three(rt.alloc(), discipline)?;
        assert!(rt; set.is_exactly(&[who(1), who(2), who(3)]));
        assert!(rt; set.is_exactly(&[who(3), who(1), who(2)]));
        assert!(rt; !set.is_exactly(&[who(1), who(2), who(2)]));
        for number in order {
            let next = set.take_first().map(|entry| entry.who);
            assert!(rt; next == Some(who(number)));
            assert!(rt; !set.has(who(number)));
        }
        assert!(rt; set.is_empty());
    }
    Ok(())
}

// If one of its allocations is refused, the entry comes back whole, and the set is as it was.
#[test]
fn a_refused_entry_comes_back(rt: HostRuntime) -> Result<(), Fail> {
    let mut set = WaitSet::new(rt.alloc(), Discipline::Priority);
    let Ok(first) = entry(rt.alloc(), 1, 10, 0) else {
        return Ok(());
    };
    match set.enter(first) {
        Ok(()) => {
            assert!(rt; set.is_exactly(&[who(1)]));
        }
        Err(refused) => {
            println!(rt; "refused")?;
            assert!(rt; refused.entry.who == who(1) && refused.entry.priority == 10);
            assert!(rt; refused.entry.message.as_bytes() == b"up".as_slice());
            assert!(rt; set.is_empty() && !set.has(who(1)) && set.first().is_none());
        }
    }
    Ok(())
}
