// A recording and a certificate whose readers fail in mid-stream.

use csv_rows::Watched;
use order_cert::CertFault;
use placement::InputFault;
use record_read::RowFault;
use report::{CheckFault, Open, Settings, Verdict, check};
use round_tests::{BOTH, CONFIG, MODULE, ORDER, RECEIVER, RECORDING, SENDER};
use std::alloc::{AllocError, Global};
use std::io;
use std::io::{ErrorKind, Read};
use std::sync::Wait;
use std::test::Fail;
use std::thread::Threads;

// Gives its text at most `step` bytes at a time. Each read past the first `given` bytes fails.
#[derive(Clone, Copy)]
struct Failing {
    text: &'static [u8],
    step: usize,
    given: usize,
}

impl Read for Failing {
    fn read(&mut self, buf: &mut [u8]) -> io::Result<usize> {
        if self.given == 0 {
            return Err(io::Error::from(ErrorKind::BrokenPipe));
        }
        let most = self.step.min(self.given);
        let count = self.text.len().min(most).min(buf.len());
        let (given, left) = self.text.split_at(count);
        buf[..count].copy_from_slice(given);
        self.text = left;
        self.given -= count;
        Ok(count)
    }
}

const WHOLE: usize = usize::MAX;

// How the tests read and judge: this many bytes at a time, by this many workers and at this depth.
const WAYS: [(usize, usize, usize); 3] = [(1, 1, 1), (7, 2, 2), (1000, 7, 64)];

// A reader of a text that fails after this many bytes.
fn reader_of(text: &'static [u8], step: usize, given: usize) -> Watched<Failing> {
    Watched::new(Failing { text, step, given })
}

// How many rows are whole in the first bytes of a text.
fn whole_rows(text: &[u8], bytes: usize) -> u64 {
    let mut rows = 0u64;
    for byte in text.iter().take(bytes) {
        if *byte == b'\n' {
            rows = rows.saturating_add(1);
        }
    }
    rows
}

// What is expected of a recording whose reader fails after this many bytes.
fn failed_row(core: u32, text: &[u8], given: usize) -> Result<Verdict, CheckFault> {
    let (seq, fault) = (whole_rows(text, given), RowFault::Read);
    Err(CheckFault::Input(InputFault::Row { core, seq, fault }))
}

// What a check reports of the recording and its certificate if their readers fail after this many bytes.
fn outcome<T>(
    rt: T,
    alloc: Global,
    step: usize,
    rows: usize,
    pairs: usize,
    settings: Settings,
) -> Result<Result<Verdict, CheckFault>, AllocError>
where
    T: Threads + Wait + Sync + Copy + Send + 'static,
{
    let readers = vec![in alloc; reader_of(RECORDING.as_bytes(), step, rows)]?;
    let order = reader_of(ORDER, step, pairs);
    Ok(check(rt, alloc, CONFIG, readers, order, &[], &[], settings, &Open))
}

#[test]
fn readers_fail(rt: HostRuntime) -> Result<(), Fail> {
    let alloc = rt.alloc();
    let recording = RECORDING.as_bytes();
    for (step, workers, depth) in WAYS {
        let settings = Settings { workers, depth };
        let whole = outcome(rt, alloc, step, WHOLE, WHOLE, settings)?;
        assert_eq!(rt; whole, Ok(Verdict::Yes { records: 14 }), "by {step}");
        for given in 0..recording.len().saturating_add(1) {
            let outcome = outcome(rt, alloc, step, given, WHOLE, settings)?;
            let failed = failed_row(0, recording, given);
            assert_eq!(rt;
                outcome,
                failed,
                "a recording that fails at byte {given}, by {step}"
            );
        }
        for given in 0..ORDER.len().saturating_add(1) {
            let outcome = outcome(rt, alloc, step, WHOLE, given, settings)?;
            let (place, fault) = (whole_rows(ORDER, given), CertFault::Read);
            let failed = Err(CheckFault::Input(InputFault::Cert { place, fault }));
            assert_eq!(rt;
                outcome,
                failed,
                "a certificate that fails at byte {given}, by {step}"
            );
        }
    }
    Ok(())
}

// If one core's reader fails, the rows of the other are there, and its own rows up to the failure.
#[test]
fn one_reader_of_two_fails(rt: HostRuntime) -> Result<(), Fail> {
    let alloc = rt.alloc();
    let (sender, receiver) = (SENDER.as_bytes(), RECEIVER.as_bytes());
    for (step, workers, depth) in WAYS {
        let settings = Settings { workers, depth };
        for (core, text) in [(0, sender), (1, receiver)] {
            for given in 0..text.len().saturating_add(1) {
                let (first, second) = if core == 0 {
                    (given, WHOLE)
                } else {
                    (WHOLE, given)
                };
                let readers = vec![in alloc;
                    reader_of(sender, step, first),
                    reader_of(receiver, step, second),
                ]?;
                let outcome = check(rt, alloc, MODULE, readers, BOTH, &[], &[], settings, &Open);
                let failed = failed_row(core, text, given);
                assert_eq!(rt;
                    outcome,
                    failed,
                    "core {core} fails at byte {given}, by {step}"
                );
            }
        }
    }
    Ok(())
}
