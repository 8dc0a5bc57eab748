// The objects that creations make, from the numbers that a caller gives.

ghost use Rattle.std.specs.Prelude.{◌≡◌, IfErr, IfOk, IsTrue};
ghost use Rattle.apex_machine.specs.Arguments.{discipline_given, is_capacity, is_maximum, is_priority, is_size, suits_maximum};
ghost use Rattle.apex_machine.specs.After.{new_blackboard, new_buffer, new_event, new_mutex, new_semaphore};
ghost use Rattle.wait_set.specs.declared.object.ObjFault.TheVariants.{Memory};

use apex_types::{Discipline, Name};
use partition_objects::{Blackboard, Buffer, Event, Mutex653, Semaphore, copy_of};
use std::alloc::Global;
use wait_set::ObjFault;

/// The buffer that CREATE_BUFFER makes. Refused if memory is refused, for its name or for the places of its messages.
pub(crate) fn new_buffer(
    alloc: Global,
    name: &Name,
    size: i64,
    capacity: i64,
    discipline: i64,
) -> Result<Buffer, ObjFault>
    requires size { IsTrue (is_size size) }
    requires capacity { IsTrue (is_capacity capacity) }
    ensures made { IfOk result (λ buffer. buffer ≡ new_buffer name.now size capacity discipline) }
    ensures memory { IfErr result (λ fault. fault ≡ Memory) }
{
    let name = copy_of(alloc, name)?;
    let discipline = discipline_of(discipline);
    Buffer::new(alloc, name, size as u16, capacity as u16, discipline).map_err(|_| ObjFault::Memory)
}

/// The blackboard that CREATE_BLACKBOARD makes. Refused if memory is refused.
pub(crate) fn new_blackboard(alloc: Global, name: &Name, size: i64) -> Result<Blackboard, ObjFault>
    requires size { IsTrue (is_size size) }
    ensures made { IfOk result (λ blackboard. blackboard ≡ new_blackboard name.now size) }
    ensures memory { IfErr result (λ fault. fault ≡ Memory) }
{
    Ok(Blackboard::new(alloc, copy_of(alloc, name)?, size as u16))
}

/// The semaphore that CREATE_SEMAPHORE makes. Refused if memory is refused.
pub(crate) fn new_semaphore(
    alloc: Global,
    name: &Name,
    value: i64,
    maximum: i64,
    discipline: i64,
) -> Result<Semaphore, ObjFault>
    requires maximum { IsTrue (is_maximum maximum) }
    requires value { IsTrue (suits_maximum maximum value) }
    ensures made { IfOk result (λ semaphore. semaphore ≡ new_semaphore name.now value maximum discipline) }
    ensures memory { IfErr result (λ fault. fault ≡ Memory) }
{
    let name = copy_of(alloc, name)?;
    let discipline = discipline_of(discipline);
    Ok(Semaphore::new(alloc, name, value as u16, maximum as u16, discipline))
}

/// The event that CREATE_EVENT makes. Refused if memory is refused.
pub(crate) fn new_event(alloc: Global, name: &Name) -> Result<Event, ObjFault>
    ensures made { IfOk result (λ event. event ≡ new_event name.now) }
    ensures memory { IfErr result (λ fault. fault ≡ Memory) }
{
    Ok(Event::new(alloc, copy_of(alloc, name)?))
}

/// The mutex that CREATE_MUTEX makes. Refused if memory is refused.
pub(crate) fn new_mutex(
    alloc: Global,
    name: &Name,
    priority: i64,
    discipline: i64,
) -> Result<Mutex653, ObjFault>
    requires priority { IsTrue (is_priority priority) }
    ensures made { IfOk result (λ mutex. mutex ≡ new_mutex name.now priority discipline) }
    ensures memory { IfErr result (λ fault. fault ≡ Memory) }
{
    let name = copy_of(alloc, name)?;
    Ok(Mutex653::new(alloc, name, priority as u8, discipline_of(discipline)))
}

// The discipline that a caller's number gives.
fn discipline_of(given: i64) -> Discipline
    ensures { result ≡ discipline_given given }
{
    if given == 0 {
        Discipline::Fifo
    } else {
        Discipline::Priority
    }
}
