// That the calls succeed if memory is ample.

ghost use Rattle.std.specs.Prelude.{◌≡◌, IfOk, IsTrue, false};

use apex_types::Ordered;
use core_intake::{Intake, IntakeFault};
use order_cert::CertSource;
use placement::{Filled, Placer};
use std::alloc::Global;
use std::sync::Wait;
use std::test::Fail;
use std::thread::Threads;

const FIRST: &str = "0,disp,,,,,,,,,,,,,,\n1,tick,,,,,,,,,,,,,,\n";

const SECOND: &str = "0,tick,,,,,,,,,,,,,,\n";

const ORDER: &str = "1,0\n0,0\n0,1\n";

type Texts = Placer<&'static [u8], &'static [u8]>;

// A placer of both recordings.
fn placer_of<T: Threads + Wait + Copy + Send + 'static>(
    rt: T,
    alloc: Global,
) -> Result<Texts, IntakeFault>
    ensures { IfOk result (λ placer. placer.ended ≡ false) }
{
    let Ok(readers) = vec![in alloc; FIRST.as_bytes(), SECOND.as_bytes()] else {
        return Err(IntakeFault::Memory);
    };
    let intake = Intake::open(rt, alloc, readers, 2)?;
    Ok(Placer::new(intake, CertSource::new(alloc, ORDER.as_bytes())))
}

// Whether there is a record at this place, and it is the one of this core and this number.
fn is_placed(ordered: &Ordered, place: u64, core: u8, seq: u32) -> bool {
    ordered.pos.number() == place && ordered.core.number() == core && ordered.rec.seq == seq
}

// Whether the next record is the one of this core and this number, at this place.
fn has_next<T: Wait>(
    rt: &T,
    alloc: Global,
    placer: &mut Texts,
    place: u64,
    core: u8,
    seq: u32,
) -> bool
    requires { placer.old.ended ≡ false }
    ensures { IsTrue result → placer.new.ended ≡ false }
{
    let Ok(mut records) = Vec::with_capacity(alloc, 1) else {
        return false;
    };
    match placer.next_into(rt, &mut records) {
        Ok(true) => is_placed(&records[0], place, core, seq),
        _ => false,
    }
}

#[test]
fn records_come_one_by_one(rt: HostRuntime) -> Result<(), Fail> {
    let alloc = rt.alloc();
    let mut records = Vec::with_capacity(alloc, 1)?;
    let mut placer = placer_of(rt, alloc)?;
    assert!(rt; has_next(&rt, alloc, &mut placer, 0, 1, 0));
    assert!(rt; has_next(&rt, alloc, &mut placer, 1, 0, 0));
    assert!(rt; has_next(&rt, alloc, &mut placer, 2, 0, 1));
    assert!(rt; matches!(placer.next_into(&rt, &mut records), Ok(false)));
    assert!(rt; records.is_empty());
    placer.close(&rt);
    Ok(())
}

#[test]
fn records_come_in_rounds(rt: HostRuntime) -> Result<(), Fail> {
    let alloc = rt.alloc();
    let mut placer = placer_of(rt, alloc)?;
    let mut round = Vec::new(alloc);
    assert!(rt; matches!(placer.fill(&rt, &mut round, 2), Filled::Full));
    assert!(rt; is_placed(&round[0], 0, 1, 0));
    assert!(rt; is_placed(&round[1], 1, 0, 0));
    round.clear();
    assert!(rt; matches!(placer.fill(&rt, &mut round, 2), Filled::Ended(Ok(()))));
    assert_eq!(rt; round.len(), 1);
    assert!(rt; is_placed(&round[0], 2, 0, 1));
    placer.close(&rt);
    Ok(())
}
