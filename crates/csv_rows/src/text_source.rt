// Where the bytes of a text come from.

ghost use Rattle.std.specs.Prelude.{◌≡◌, ℕ, Bool, List, Option, Some, true, false, OnOk, OnErr};
ghost use Rattle.std.specs.Io.{ReadsAtMost};
ghost use Rattle.std.specs.Io.Cursor.{cursor_remaining};
ghost use Rattle.std.specs.Io.KnownBytes.{ReadConsumes};

use std::io;
use std::io::{AsBytes, Cursor, Read};

/// Where the bytes of a text come from, and what is known of its failures.
///
/// A text in memory is a source that cannot fail. Any other reader is one once it is `Watched`.
pub trait TextSource {
    // The bytes that reads will give from here on, if they are known.
    ghost remaining: { Self → Option (List ℕ) };

    // Whether a read has failed.
    ghost failed: { Self → Bool };

    // Whether a read of a source of this type can fail.
    ghost can_fail: { Bool };

    /// Reads some bytes to the front of `buf`: none only at the end of the text, or if `buf` has no room.
    fn read_some(&mut self, buf: &mut [u8]) -> io::Result<usize>
        ensures bound { ReadsAtMost result buf.new }
        ensures bytes { ReadConsumes (remaining self.old) (remaining self.new) result buf.new }
        ensures failed { OnErr result (failed self.new ≡ true) }
        ensures kept { OnOk result (failed self.new ≡ failed self.old) };

    /// Whether a read has failed.
    fn has_failed(&self) -> bool
        ensures { result ≡ failed self.now };

    // A source that has failed is one that can.
    ghost fails_where_it_can: { (source : Self) → failed source ≡ true → can_fail ≡ true };
}

impl TextSource for &[u8] {
    ghost remaining = { λ text. Some text.now };

    ghost failed = { λ text. false };

    ghost can_fail = { false };

    ghost fails_where_it_can = { λ text failed. failed };

    fn read_some(&mut self, buf: &mut [u8]) -> io::Result<usize> {
        self.read(buf)
    }

    fn has_failed(&self) -> bool {
        false
    }
}

impl<T: AsBytes> TextSource for Cursor<T> {
    ghost remaining = { cursor_remaining T.bytes };

    ghost failed = { λ text. false };

    ghost can_fail = { false };

    ghost fails_where_it_can = { λ text failed. failed };

    fn read_some(&mut self, buf: &mut [u8]) -> io::Result<usize> {
        self.read(buf)
    }

    fn has_failed(&self) -> bool {
        false
    }
}
