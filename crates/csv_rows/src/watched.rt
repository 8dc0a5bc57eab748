// A reader that remembers whether a read of it failed.

ghost use Rattle.std.specs.Prelude.{◌≡◌, false, true};

use crate::text_source::TextSource;
use std::io;
use std::io::Read;

/// Any reader as the source of a text: it remembers whether one of its reads has failed.
#[derive(Drop)]
pub struct Watched<R> {
    inner: R,
    failed: bool,
}

impl<R: Read> Watched<R> {
    /// A reader, no read of which has failed yet.
    pub fn new(inner: R) -> Watched<R>
        ensures inner { result.inner ≡ inner }
        ensures failed { result.failed ≡ false }
    {
        Watched {
            inner,
            failed: false,
        }
    }
}

impl<R: Read> TextSource for Watched<R> {
    ghost use Rattle.std.specs.Prelude.{true, refl};

    ghost remaining = { λ watched. R.remaining watched.inner };

    ghost failed = { λ watched. watched.failed };

    ghost can_fail = { true };

    ghost fails_where_it_can = { λ watched failed. refl };

    /// Reads from the inner reader, and remembers an error.
    fn read_some(&mut self, buf: &mut [u8]) -> io::Result<usize> {
        let outcome = self.inner.read(buf);
        if outcome.is_err() {
            self.failed = true;
        }
        outcome
    }

    fn has_failed(&self) -> bool {
        self.failed
    }
}
