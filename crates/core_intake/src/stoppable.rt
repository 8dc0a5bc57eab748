// A source that gives up when a flag says to stop.

ghost use Rattle.std.specs.Prelude.{◌≡◌, false};

use csv_rows::TextSource;
use std::io;
use std::io::ErrorKind;
use std::sync::atomic::{AtomicBool, Ordering};

/// A source whose reads fail once the flag says to stop. A row or a run of empty lines may have no end; a thread that reads one can
/// still stop by this.
#[derive(Drop)]
pub struct Stoppable<'a, R> {
    inner: R,
    stop: &'a AtomicBool,
    /// Whether a read has failed because the flag says to stop.
    pub gave_up: bool,
}

impl<'a, R: TextSource> Stoppable<'a, R> {
    /// The source, under this flag.
    pub fn new(inner: R, stop: &'a AtomicBool) -> Stoppable<'a, R>
        ensures { (result.inner ≡ inner) × (result.gave_up ≡ false) }
    {
        Stoppable {
            inner,
            stop,
            gave_up: false,
        }
    }
}

impl<'a, R: TextSource> TextSource for Stoppable<'a, R> {
    ghost use Rattle.std.specs.Prelude.{◌||◌, true, refl};

    ghost remaining = { λ stoppable. R.remaining stoppable.inner };

    ghost failed = { λ stoppable. stoppable.gave_up || R.failed stoppable.inner };

    ghost can_fail = { true };

    ghost fails_where_it_can = { λ stoppable failed. refl };

    /// Reads from the source below, or fails if the flag says to stop.
    fn read_some(&mut self, buf: &mut [u8]) -> io::Result<usize> {
        if self.stop.load(Ordering::SeqCst) {
            self.gave_up = true;
            return Err(io::Error::from(ErrorKind::Other));
        }
        self.inner.read_some(buf)
    }

    fn has_failed(&self) -> bool {
        self.gave_up || self.inner.has_failed()
    }
}
