// Workers that judge at the same time, and recordings that are read at the same time, in a whole check.

ghost use Rattle.std.specs.Prelude.{◌≤◌};
ghost use Rattle.apex_types.specs.declared.limits.TheConstants.{LARGEST_ROUND};

use crate::verdicts::SETTINGS;
use apex_types::limits::LARGEST_ROUND;
use csv_rows::Watched;
use report::{Open, Settings, Verdict, check, check_in_rounds};
use round_tests::{BOTH, CONFIG, MODULE, Meeting, RECEIVER, SENDER, asking, in_turn, reaches};
use std::io;
use std::io::{Cursor, ErrorKind, Read};
use std::sync::Arc;
use std::sync::atomic::{AtomicUsize, Ordering};
use std::test::Fail;

// What is expected of the message from one partition to another.
const SENT: Verdict = Verdict::Yes { records: 23 };

// A worker that is held makes no claim. So if all claims of a round saw this many others, as many threads held a piece at the same time.
// The pieces are the module, two partitions and two channels; rounds of 12 records give two rounds, and the largest rounds give one.
#[test]
fn two_claims_meet(rt: HostRuntime) -> Result<(), Fail> {
    let alloc = rt.alloc();
    for (size, rounds) in [(12, 2), (LARGEST_ROUND, 1)] {
        for workers in [2, 5] {
            let settings = Settings { workers, depth: 4 };
            let gate = Meeting::new(5, workers);
            let readers = vec![in alloc; SENDER.as_bytes(), RECEIVER.as_bytes()]?;
            let outcome = check_in_rounds(
                rt,
                alloc,
                MODULE,
                readers,
                BOTH,
                &[],
                &[],
                settings,
                &gate,
                size,
            );
            assert_eq!(rt; outcome, Ok(SENT), "workers: {workers}");
            assert_eq!(rt; gate.met(), rounds * 5, "workers: {workers}");
        }
    }
    Ok(())
}

// Two workers hold any two of the five pieces at one time.
#[test]
fn every_two_claims_meet(rt: HostRuntime) -> Result<(), Fail> {
    let alloc = rt.alloc();
    for first in 0..5 {
        for second in first + 1..5 {
            let gate = Meeting::of_two(first, second);
            let readers = vec![in alloc; SENDER.as_bytes(), RECEIVER.as_bytes()]?;
            let outcome = check(rt, alloc, MODULE, readers, BOTH, &[], &[], SETTINGS, &gate);
            assert_eq!(rt; outcome, Ok(SENT), "{first} and {second}");
            assert_eq!(rt; gate.met(), 2, "{first} and {second}");
        }
    }
    Ok(())
}

// The pieces are the module and a partition. The last of 4,097 records is in a second round.
#[test]
fn two_claims_meet_in_both_rounds(rt: HostRuntime) -> Result<(), Fail> {
    let alloc = rt.alloc();
    let gate = Meeting::new(2, 2);
    let settings = Settings {
        workers: 2,
        depth: 64,
    };
    let readers = vec![in alloc; Cursor::new(asking(alloc, 2045)?)]?;
    let order = Cursor::new(in_turn(alloc, 4097)?);
    let outcome = check(rt, alloc, CONFIG, readers, order, &[], &[], settings, &gate);
    assert_eq!(rt; outcome, Ok(Verdict::Yes { records: 4097 }));
    assert_eq!(rt; gate.met(), 4);
    Ok(())
}

// A reader, each read of which waits until both have begun one, as long as `reaches` does, and otherwise fails.
#[derive(Drop)]
struct Waiting {
    text: &'static [u8],
    begun: Arc<AtomicUsize>,
}

impl Read for Waiting {
    fn read(&mut self, buf: &mut [u8]) -> io::Result<usize> {
        self.begun.fetch_add(1, Ordering::SeqCst);
        if reaches(&self.begun, 2) {
            self.text.read(buf)
        } else {
            Err(io::Error::from(ErrorKind::TimedOut))
        }
    }
}

#[test]
fn two_readers_meet(rt: HostRuntime) -> Result<(), Fail> {
    let alloc = rt.alloc();
    for workers in [1, 2] {
        let begun = Arc::new(alloc, AtomicUsize::new(0))?;
        let sender = Waiting {
            text: SENDER.as_bytes(),
            begun: Arc::try_clone(&begun)?,
        };
        let receiver = Waiting {
            text: RECEIVER.as_bytes(),
            begun,
        };
        let readers = vec![in alloc; Watched::new(sender), Watched::new(receiver)]?;
        let settings = Settings { workers, depth: 1 };
        let outcome = check(rt, alloc, MODULE, readers, BOTH, &[], &[], settings, &Open);
        assert_eq!(rt; outcome, Ok(SENT), "workers: {workers}");
    }
    Ok(())
}
