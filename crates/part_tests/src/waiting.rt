// A semaphore and an event by themselves, without a partition.

ghost use Rattle.std.specs.Prelude.{◌≡◌, ◌<◌, [], ◌∷◌, IfOk};
ghost use Rattle.apex_types.specs.declared.record.Out.TheVariants as out;

use crate::queuing::who;
use apex_types::{
    Cause, Claim, Code, Discipline, Message, Name, Out, Place, SemaphoreOperation, Woken,
};
use partition_objects::Semaphore;
use std::alloc::{AllocError, Global};
use std::test::Fail;
use wait_set::{Actor, ApexObject, Effect, ObjFault, Owners};

// The process of this number, which calls at this place.
fn caller(number: u32, place: u64) -> Actor
    requires { place < 100 }
    ensures { result ≡ record { who = record { part = 0; proc = number }; priority = 10; place = place } }
{
    Actor {
        who: who(number),
        priority: 10,
        place: Place::new(place),
    }
}

// A claim of this outcome, which ends the waits of these processes.
fn claim(alloc: Global, out: Out, woken: Woken) -> Claim
    ensures outcome { result.out ≡ out }
    ensures woken { result.woken ≡ woken }
{
    Claim {
        prio: 10,
        out,
        val: None,
        val2: None,
        val3: None,
        bytes: Message::empty(alloc),
        chan: None,
        woken,
    }
}

// The list of this process alone.
fn only(alloc: Global, number: u32) -> Result<Woken, AllocError>
    ensures { IfOk result (λ woken. woken ≡ record { part = 0; proc = number } ∷ []) }
{
    Ok(Woken::new(vec![in alloc; who(number)]?))
}

// What an operation reports of an object that no process owns.
fn effect(waits: bool) -> Effect {
    Effect {
        waits,
        owners: Owners::nobody(),
    }
}

#[test]
fn a_semaphore_by_itself(rt: HostRuntime) -> Result<(), Fail> {
    let alloc = rt.alloc();
    let second = only(alloc, 2)?;
    let name = Name::new(Vec::from_slice(alloc, b"LOCK")?);
    let mut semaphore = Semaphore::new(alloc, name, 1, 1, Discipline::Fifo);
    let wait = SemaphoreOperation::Wait { time_out: -1 };
    let signal = SemaphoreOperation::Signal;

    // Process 1 takes the only unit, and process 2 waits.
    let done = claim(alloc, Out::Answer(Code::NoError), Woken::none(alloc));
    let taken = semaphore.apply(caller(1, 0), &wait, &done);
    assert!(rt; taken == Ok(effect(false)));
    let waits = claim(alloc, Out::Waits, Woken::none(alloc));
    let waited = semaphore.apply(caller(2, 1), &wait, &waits);
    assert!(rt; waited == Ok(effect(true)));

    // A signal that wakes no process is refused, and one that wakes process 2 is what the rule gives.
    let refused = semaphore.apply(caller(1, 2), &signal, &done);
    assert!(rt; refused == Err(ObjFault::Unlawful(Cause::Woken)));
    let wakes = claim(alloc, Out::Answer(Code::NoError), second);
    let woken = semaphore.apply(caller(1, 2), &signal, &wakes);
    assert!(rt; woken == Ok(effect(false)));
    assert!(rt; semaphore.value() == 0);
    Ok(())
}
