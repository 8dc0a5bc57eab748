// The objects of one kind of a partition, as they were last seen.

ghost use Rattle.std.specs.Prelude.{◌≡◌, ◌↔◌, IfOk, IsTrue, OnOk};
ghost use Rattle.run_view.specs.Adds.{Adds, IsOfAny};
ghost use Rattle.run_view.specs.ObjectChanges.{HasObject, IsItsChange, IsItsEnd, IsFoundInKind};
ghost use Rattle.run_view.specs.Plain.{plain_object, plain_objects};
ghost use Rattle.run_view.specs.Objects.{ShowsKind, numbers_in, numbers_of};

use crate::among::is_among;
use crate::change::{Change, add};
use crate::thing::{ThingKey, ThingView, thing_view};
use apex_types::{ObjectKind, PartId};
use partition_objects::ObjectTable;
use partition_state::PartitionState;
use std::alloc::{AllocError, Global};

/// An object as it was seen, with its number.
#[derive(Debug, Drop, PartialEq, Eq)]
pub(crate) struct SeenObject {
    pub number: u32,
    pub view: ThingView,
}

// Adds the objects of a kind that are new or no longer as they were seen, and those that no longer exist. They are then seen as they are.
pub(crate) fn look_at_kind(
    alloc: Global,
    seen: &mut Vec<SeenObject>,
    kind: ObjectKind,
    part: PartId,
    state: &PartitionState,
    changes: &mut Vec<Change>,
) -> Result<(), AllocError>
    ensures seen { OnOk result (ShowsKind kind state.now (plain_objects seen.new.items)) }
    ensures changes { OnOk result (Adds (IsFoundInKind part kind (plain_objects seen.old.items) (plain_objects seen.new.items)) changes.old.items changes.new.items) }
{
    let now = shown_objects(alloc, kind, state)?;
    add_changed(seen.as_slice(), now.as_slice(), kind, part, changes)?;
    add_removed(seen.as_slice(), now.as_slice(), kind, part, changes)?;
    *seen = now;
    Ok(())
}

// The objects of a kind as they are shown, in the order of their creation.
fn shown_objects(
    alloc: Global,
    kind: ObjectKind,
    state: &PartitionState,
) -> Result<Vec<SeenObject>, AllocError>
    ensures { IfOk result (λ shown. ShowsKind kind state.now (plain_objects shown.items)) }
{
    let numbers = numbers_of(alloc, kind, state)?;
    let mut shown = Vec::new(alloc);
    for index in 0..numbers.len() {
        let number = numbers[index];
        if let Some(view) = thing_view(alloc, state, kind, number)? {
            shown.push(SeenObject { number, view })?;
        }
    }
    Ok(shown)
}

// The numbers of the objects of a kind, in the order of their creation.
fn numbers_of(
    alloc: Global,
    kind: ObjectKind,
    state: &PartitionState,
) -> Result<Vec<u32>, AllocError>
    ensures { IfOk result (λ numbers. numbers.items ≡ numbers_of kind state.now) }
{
    match kind {
        ObjectKind::Buffer => numbers_in(alloc, state.buffers()),
        ObjectKind::Blackboard => numbers_in(alloc, state.blackboards()),
        ObjectKind::Semaphore => numbers_in(alloc, state.semaphores()),
        ObjectKind::Event => numbers_in(alloc, state.events()),
        ObjectKind::Mutex => numbers_in(alloc, state.mutexes()),
        ObjectKind::SamplingPort | ObjectKind::QueuingPort => Ok(Vec::new(alloc)),
    }
}

// The numbers of the objects of a table, in the order of their creation.
fn numbers_in<Object>(alloc: Global, table: &ObjectTable<Object>) -> Result<Vec<u32>, AllocError>
    ensures { IfOk result (λ numbers. numbers.items ≡ numbers_in table.now) }
{
    let mut numbers = Vec::new(alloc);
    for (number, _) in table.iter() {
        numbers.push(*number)?;
    }
    Ok(numbers)
}

// Adds the objects that are new or no longer as they were seen.
fn add_changed(
    before: &[SeenObject],
    now: &[SeenObject],
    kind: ObjectKind,
    part: PartId,
    changes: &mut Vec<Change>,
) -> Result<(), AllocError>
    ensures { OnOk result (Adds (IsOfAny (IsItsChange part kind (plain_objects before.now)) (plain_objects now.now)) changes.old.items changes.new.items) }
{
    for index in 0..now.len() {
        add_if_changed(before, index, &now[index], kind, part, changes)?;
    }
    Ok(())
}

// Adds the object that now has this index, if it is new or no longer as it was seen.
fn add_if_changed(
    before: &[SeenObject],
    index: usize,
    object: &SeenObject,
    kind: ObjectKind,
    part: PartId,
    changes: &mut Vec<Change>,
) -> Result<(), AllocError>
    ensures { OnOk result (Adds (IsItsChange part kind (plain_objects before.now) (plain_object object.now)) changes.old.items changes.new.items) }
{
    if is_among(before, index, object) {
        return Ok(());
    }
    let number = object.number;
    add(
        changes,
        Change::Thing(ThingKey::Object { part, kind, number }),
    )
}

// Adds the objects that were seen and no longer exist, the last one first.
fn add_removed(
    before: &[SeenObject],
    now: &[SeenObject],
    kind: ObjectKind,
    part: PartId,
    changes: &mut Vec<Change>,
) -> Result<(), AllocError>
    ensures { OnOk result (Adds (IsOfAny (IsItsEnd part kind (plain_objects now.now)) (plain_objects before.now)) changes.old.items changes.new.items) }
{
    for after in 0..before.len() {
        let index = before.len() - 1 - after;
        add_if_removed(&before[index], index, now, kind, part, changes)?;
    }
    Ok(())
}

// Adds the end of the object that had this index, if it no longer exists.
fn add_if_removed(
    object: &SeenObject,
    index: usize,
    now: &[SeenObject],
    kind: ObjectKind,
    part: PartId,
    changes: &mut Vec<Change>,
) -> Result<(), AllocError>
    ensures { OnOk result (Adds (IsItsEnd part kind (plain_objects now.now) (plain_object object.now)) changes.old.items changes.new.items) }
{
    let number = object.number;
    if has_number(now, index, number) {
        return Ok(());
    }
    add(
        changes,
        Change::Removed(ThingKey::Object { part, kind, number }),
    )
}

// Whether one of these objects has this number, mostly the one at this index.
fn has_number(now: &[SeenObject], index: usize, number: u32) -> bool
    ensures { IsTrue result ↔ HasObject number (plain_objects now.now) }
{
    if index < now.len() && now[index].number == number {
        return true;
    }
    now.iter().any(|object| object.number == number)
}
