// How far a run has come, on standard error while it goes on.

use std::rt::Clock;
use std::sync::atomic::{AtomicU64, Ordering};
use std::time::Instant;

/// The least number of milliseconds between two lines.
const PAUSE: u64 = 500;

// What clears a line: it is longer than any of them.
const BLANK: &str = "\r                                                            \r";

/// Shows how many records a run has taken, and how many in a second, if that is wanted.
#[derive(Drop)]
pub struct ProgressLine<'a, R> {
    rt: &'a R,
    start: Option<Instant>,
    // The milliseconds from the start to the last line, or 0 if there was none.
    shown: AtomicU64,
}

impl<'a, R: Clock + Eprint> ProgressLine<'a, R> {
    /// The progress of a run that begins now. It shows nothing if that is not wanted, or if there is no clock.
    pub fn new(rt: &'a R, is_wanted: bool) -> ProgressLine<'a, R> {
        ProgressLine {
            rt,
            start: if is_wanted {
                Instant::now(rt).ok()
            } else {
                None
            },
            shown: AtomicU64::new(0),
        }
    }

    /// Shows that the run has taken this many records, unless the last line is too recent.
    pub fn show(&self, records: u64) {
        let Some(start) = self.start else {
            return;
        };
        let Ok(elapsed) = start.elapsed(self.rt) else {
            return;
        };
        let millis = u64::from(elapsed.subsec_millis());
        let elapsed = elapsed
            .as_secs()
            .saturating_mul(1_000)
            .saturating_add(millis);
        if elapsed.saturating_sub(self.shown.load(Ordering::SeqCst)) < PAUSE {
            return;
        }
        self.shown.store(elapsed, Ordering::SeqCst);
        let rate = records.saturating_mul(1_000) / elapsed.max(1);
        // Standard error only helps a person, so a failure there changes nothing.
        let _ = self.rt.eprint(format_args!(
            "\r{records:>11} records, {rate:>9} records per second"
        ));
    }

    /// Clears the line, if there is one, before other text is shown.
    pub fn clear(&self) {
        if self.shown.swap(0, Ordering::SeqCst) > 0 {
            let _ = self.rt.eprint(BLANK);
        }
    }
}
