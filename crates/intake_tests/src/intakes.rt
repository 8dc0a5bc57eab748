// What no clause says: that the threads read at the same time, how far they read ahead, and what is left over.

use crate::intake_readers::{Meeting, Piece, Piecewise, Trace, awaited};
use apex_types::{Body, Record};
use core_intake::{Intake, IntakeFault};
use csv_rows::{TextSource, Watched};
use record_read::RowFault;
use std::alloc::{AllocError, Global};
use std::sync::atomic::{AtomicUsize, Ordering};
use std::sync::{Arc, Wait};
use std::test::Fail;
use std::thread;

const WHOLE: usize = usize::MAX;

// A whole text in one read, if the buffer holds it.
const ALL: Piece = Piece::Bytes(WHOLE);

// The text of this many rows of this kind, none with more than its number.
fn rows_of(alloc: Global, kind: &str, count: u32) -> Result<Vec<u8>, AllocError> {
    let mut text = Vec::new(alloc);
    for row in 0..count {
        let line = format!(in alloc; "{row},{kind},,,,,,,,,,,,,,\n")?;
        text.extend_from_slice(line.as_bytes())?;
    }
    Ok(text)
}

// A reader of this many rows that is not watched.
fn reader_of(alloc: Global, kind: &str, count: u32, piece: Piece) -> Result<Piecewise, AllocError> {
    let text = rows_of(alloc, kind, count)?;
    Ok(Piecewise::new(text, piece, WHOLE, Trace::new(alloc)?))
}

// The next answer of a core that exists.
fn answer<R: TextSource, T: Wait>(
    rt: &T,
    intake: &mut Intake<R>,
    core: usize,
) -> Option<Result<Option<Record>, RowFault>> {
    if core < intake.count() {
        Some(intake.next_of(rt, core))
    } else {
        None
    }
}

// Whether the core's next record has this number and is the tick, or the dispatch of no process.
fn has_row<R: TextSource, T: Wait>(
    rt: &T,
    intake: &mut Intake<R>,
    core: usize,
    tick: bool,
    seq: u32,
) -> bool {
    let Some(Ok(Some(record))) = answer(rt, intake, core) else {
        return false;
    };
    let is_kind = match record.body {
        Body::Tick(_) => tick,
        Body::Disp(None) => !tick,
        _ => false,
    };
    is_kind && record.seq == seq
}

// Whether the core's recording has ended.
fn has_end<R: TextSource, T: Wait>(rt: &T, intake: &mut Intake<R>, core: usize) -> bool {
    matches!(answer(rt, intake, core), Some(Ok(None)))
}

// How often a reader was read, 200 yields after it had been read this often or `awaited` gave up.
fn settled(reads: &AtomicUsize, count: usize) -> usize {
    awaited(reads, count);
    for _ in 0..200 {
        thread::yield_now();
    }
    reads.load(Ordering::SeqCst)
}

#[test]
fn rows_come_in_order(rt: HostRuntime) -> Result<(), Fail> {
    let alloc = rt.alloc();
    for depth in [1, 2, 64, 4096] {
        for (step, piece) in [
            ("a byte", Piece::Bytes(1)),
            ("a line", Piece::Line),
            ("all", ALL),
        ] {
            let ticks = reader_of(alloc, "tick", 700, piece)?;
            let dispatches = reader_of(alloc, "disp", 700, piece)?;
            let readers = vec![in alloc; Watched::new(ticks), Watched::new(dispatches)]?;
            let mut intake = Intake::open(rt, alloc, readers, depth)?;
            assert_eq!(rt; intake.count(), 2);
            for seq in 0..700 {
                for (core, tick) in [(0, true), (1, false)] {
                    let is_next = has_row(&rt, &mut intake, core, tick, seq);
                    assert!(rt; is_next, "{seq} of {core} by {step} at {depth}");
                }
            }
            for core in [0, 1, 0] {
                assert!(rt; has_end(&rt, &mut intake, core));
            }
            intake.close(&rt);
        }
    }
    Ok(())
}

#[test]
fn two_readers_meet(rt: HostRuntime) -> Result<(), Fail> {
    let alloc = rt.alloc();
    let begun = Arc::new(alloc, AtomicUsize::new(0))?;
    let one = Meeting {
        text: reader_of(alloc, "tick", 13, ALL)?,
        begun: Arc::try_clone(&begun)?,
    };
    let other = Meeting {
        text: reader_of(alloc, "disp", 13, ALL)?,
        begun,
    };
    let readers = vec![in alloc; Watched::new(one), Watched::new(other)]?;
    let mut intake = Intake::open(rt, alloc, readers, 4)?;
    for (core, tick) in [(0, true), (1, false)] {
        for seq in 0..13 {
            let is_next = has_row(&rt, &mut intake, core, tick, seq);
            assert!(rt; is_next, "{seq} of {core}");
        }
        assert!(rt; has_end(&rt, &mut intake, core));
    }
    intake.close(&rt);
    Ok(())
}

#[test]
fn close_stops_the_readers(rt: HostRuntime) -> Result<(), Fail> {
    let alloc = rt.alloc();
    let (one, other) = (Trace::new(alloc)?, Trace::new(alloc)?);
    let ticks = Piecewise::new(rows_of(alloc, "tick", 13)?, ALL, WHOLE, one.share()?);
    let dispatches = Piecewise::new(rows_of(alloc, "disp", 13)?, ALL, WHOLE, other.share()?);
    let readers = vec![in alloc; Watched::new(ticks), Watched::new(dispatches)]?;
    let mut intake = Intake::open(rt, alloc, readers, 1)?;
    assert!(rt; has_row(&rt, &mut intake, 0, true, 0));
    assert!(rt; !one.dropped.load(Ordering::SeqCst));
    assert!(rt; !other.dropped.load(Ordering::SeqCst));
    intake.close(&rt);
    assert!(rt; one.dropped.load(Ordering::SeqCst));
    assert!(rt; other.dropped.load(Ordering::SeqCst));
    Ok(())
}

// Each read gives one row. Rows that have been read and not yet answered are those that wait in the channel, the batch that the thread has
// made, and what is left of the current batch.
#[test]
fn readers_do_not_run_ahead(rt: HostRuntime) -> Result<(), Fail> {
    let alloc = rt.alloc();
    for (depth, batch, waiting) in [
        (1, 1, 1),
        (2, 2, 2),
        (64, 64, 64),
        (300, 256, 256),
        (4096, 256, 4096),
    ] {
        let trace = Trace::new(alloc)?;
        let text = rows_of(alloc, "tick", 5000)?;
        let reader = Piecewise::new(text, Piece::Line, WHOLE, trace.share()?);
        let readers = vec![in alloc; Watched::new(reader)]?;
        let mut intake = Intake::open(rt, alloc, readers, depth)?;
        let first = settled(&trace.reads, waiting + batch);
        assert_eq!(rt; first, waiting + batch, "at {depth}");
        assert!(rt; has_row(&rt, &mut intake, 0, true, 0));
        let second = settled(&trace.reads, waiting + 2 * batch);
        assert_eq!(rt; second, waiting + 2 * batch, "at {depth}");
        intake.close(&rt);
    }
    Ok(())
}

#[test]
fn a_failed_read_comes_after_its_rows(rt: HostRuntime) -> Result<(), Fail> {
    let alloc = rt.alloc();
    for depth in [1, 4096] {
        let text = rows_of(alloc, "tick", 13)?;
        let half = text.len() / 2;
        let mut rows: u32 = 0;
        for byte in text.iter().take(half) {
            if *byte == b'\n' {
                rows = rows.saturating_add(1);
            }
        }
        let reader = Piecewise::new(text, Piece::Bytes(1), half, Trace::new(alloc)?);
        let readers = vec![in alloc; Watched::new(reader)]?;
        let mut intake = Intake::open(rt, alloc, readers, depth)?;
        for seq in 0..rows {
            assert!(rt; has_row(&rt, &mut intake, 0, true, seq));
        }
        assert!(rt; matches!(answer(&rt, &mut intake, 0), Some(Err(RowFault::Read))));
        assert!(rt; has_end(&rt, &mut intake, 0));
        intake.close(&rt);
    }
    Ok(())
}

#[test]
fn no_depth_is_refused(rt: HostRuntime) -> Result<(), Fail> {
    let alloc = rt.alloc();
    let trace = Trace::new(alloc)?;
    let reader = Piecewise::new(Vec::new(alloc), ALL, WHOLE, trace.share()?);
    let readers = vec![in alloc; Watched::new(reader)]?;
    let fault = match Intake::open(rt, alloc, readers, 0) {
        Ok(intake) => {
            intake.close(&rt);
            None
        }
        Err(fault) => Some(fault),
    };
    assert_eq!(rt; fault, Some(IntakeFault::NoDepth));
    assert!(rt; trace.dropped.load(Ordering::SeqCst));
    Ok(())
}
