// The lines of a text, counted from 1. Each line feed, each carriage return and each pair of them ends a line.

use memchr::{memchr_iter, memchr2};
use std::io::Read;

// How many bytes are read at once.
const PIECE: usize = 8192;

// A byte order mark, which belongs to no row.
const MARK: [u8; 3] = [0xEF, 0xBB, 0xBF];

/// A walk over a text that counts the lines.
#[derive(Drop)]
pub struct Lines<R> {
    reader: R,
    piece: [u8; PIECE],
    filled: usize,
    at: usize,
    // How many bytes have been passed, and the line of the next one.
    passed: u64,
    line: u64,
    is_after_return: bool,
}

impl<R: Read> Lines<R> {
    /// The beginning of the text that a reader gives.
    pub fn new(reader: R) -> Lines<R> {
        Lines {
            reader,
            piece: [0; PIECE],
            filled: 0,
            at: 0,
            passed: 0,
            line: 1,
            is_after_return: false,
        }
    }

    /// How many bytes of the text have been passed.
    pub fn passed(&self) -> u64 {
        self.passed
    }

    /// Passes whole lines, at most this many, and returns how many. It stops before a line that is empty, has a quote or a carriage
    /// return, or is longer than 8 KiB: any other line is a row.
    pub fn pass_rows(&mut self, most: u64) -> u64 {
        let mut count = 0u64;
        'pieces: for _ in 0..u64::MAX {
            let left = most.saturating_sub(count);
            let mut passed = self.pass_read(left);
            if passed == 0 && left > 0 {
                self.read_more();
                passed = self.pass_read(left);
            }
            if passed == 0 {
                return count;
            }
            count = count.saturating_add(passed);
        }
        count
    }

    /// The line of the first byte, after this many bytes of the text, that does not end a line. Later calls must ask for later bytes.
    pub fn first_filled(&mut self, bytes: u64) -> u64 {
        for _ in 0..u64::MAX {
            let Some(byte) = self.next_byte() else {
                return self.line;
            };
            if self.passed >= bytes && !matches!(byte, b'\n' | b'\r') {
                return self.line;
            }
            self.pass(byte);
        }
        self.line
    }

    // Passes lines that have been read and are rows, at most this many, and returns how many.
    fn pass_read(&mut self, most: u64) -> u64 {
        let mut count = 0u64;
        let mut end = 0usize;
        let rest = self.rest();
        let plain = memchr2(b'\r', b'"', rest).unwrap_or(rest.len());
        for feed in memchr_iter(b'\n', rest.get(..plain).unwrap_or(&[])) {
            if count == most || feed == end {
                break;
            }
            end = feed.saturating_add(1);
            count = count.saturating_add(1);
        }
        if count > 0 {
            self.is_after_return = false;
        }
        self.at = self.at.saturating_add(end);
        self.passed = self.passed.saturating_add(end as u64);
        self.line = self.line.saturating_add(count);
        count
    }

    // The bytes that have been read and not passed.
    fn rest(&self) -> &[u8] {
        self.piece[..self.filled.min(PIECE)]
            .get(self.at..)
            .unwrap_or(&[])
    }

    // The next byte, if there is one that can be read.
    fn next_byte(&mut self) -> Option<u8> {
        if self.at >= self.filled {
            self.read_more();
        }
        self.rest().first().copied()
    }

    // Reads further bytes behind those that have not been passed.
    fn read_more(&mut self) {
        let filled = self.filled.min(PIECE);
        let at = self.at.min(filled);
        self.piece.copy_within(at..filled, 0);
        let kept = filled - at;
        let count = self.reader.read(&mut self.piece[kept..]).unwrap_or(0);
        self.at = 0;
        self.filled = kept.saturating_add(count);
        if self.passed == 0 && self.rest().starts_with(&MARK) {
            self.at = MARK.len();
            self.passed = MARK.len() as u64;
        }
    }

    // Continues after this byte.
    fn pass(&mut self, byte: u8) {
        if byte == b'\r' || (byte == b'\n' && !self.is_after_return) {
            self.line = self.line.saturating_add(1);
        }
        self.is_after_return = byte == b'\r';
        self.at = self.at.saturating_add(1);
        self.passed = self.passed.saturating_add(1);
    }
}
