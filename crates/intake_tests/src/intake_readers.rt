// Readers that the tests watch.

use std::alloc::{AllocError, Global};
use std::io::{ErrorKind, Read};
use std::sync::Arc;
use std::sync::atomic::{AtomicBool, AtomicUsize, Ordering};
use std::{io, thread};

/// What a test sees of a reader that a thread owns.
#[derive(Drop)]
pub struct Trace {
    pub reads: Arc<AtomicUsize>,
    pub dropped: Arc<AtomicBool>,
}

impl Trace {
    /// For a reader that has not been read yet.
    pub fn new(alloc: Global) -> Result<Trace, AllocError> {
        Ok(Trace {
            reads: Arc::new(alloc, AtomicUsize::new(0))?,
            dropped: Arc::new(alloc, AtomicBool::new(false))?,
        })
    }

    /// The same, for another thread.
    pub fn share(&self) -> Result<Trace, AllocError> {
        Ok(Trace {
            reads: Arc::try_clone(&self.reads)?,
            dropped: Arc::try_clone(&self.dropped)?,
        })
    }
}

/// What one read gives: at most this many bytes, or a line.
#[derive(Clone, Copy)]
pub enum Piece {
    Bytes(usize),
    Line,
}

impl Piece {
    // How many of these bytes a read gives.
    fn length(self, left: &[u8]) -> usize {
        match self {
            Piece::Bytes(most) => left.len().min(most),
            Piece::Line => {
                let mut count: usize = 0;
                for byte in left {
                    count = count.saturating_add(1);
                    if *byte == b'\n' {
                        break;
                    }
                }
                count
            }
        }
    }
}

/// Gives its text piece by piece. Each read past the first `given` bytes fails.
pub struct Piecewise {
    text: Vec<u8>,
    next: usize,
    piece: Piece,
    given: usize,
    trace: Trace,
}

impl Piecewise {
    /// A reader of this text.
    pub fn new(text: Vec<u8>, piece: Piece, given: usize, trace: Trace) -> Piecewise {
        Piecewise {
            text,
            next: 0,
            piece,
            given,
            trace,
        }
    }
}

impl Read for Piecewise {
    fn read(&mut self, buf: &mut [u8]) -> io::Result<usize> {
        self.trace.reads.fetch_add(1, Ordering::SeqCst);
        if self.next >= self.given {
            return Err(io::Error::from(ErrorKind::BrokenPipe));
        }
        let start = self.next.min(self.text.len());
        let (_, left) = self.text.as_slice().split_at(start);
        let count = self.piece.length(left).min(left.len()).min(buf.len());
        let (given, _) = left.split_at(count);
        buf[..count].copy_from_slice(given);
        self.next = self.next.saturating_add(count);
        Ok(count)
    }
}

impl Drop for Piecewise {
    fn drop(self) {
        self.trace.dropped.store(true, Ordering::SeqCst);
        let Piecewise {
            text: _,
            next: _,
            piece: _,
            given: _,
            trace: _,
        } = self;
    }
}

/// The value of a count once it is this number, or after 1,000,000 yields.
pub fn awaited(count: &AtomicUsize, wanted: usize) -> usize {
    for _ in 0..1_000_000 {
        let reached = count.load(Ordering::SeqCst);
        if reached >= wanted {
            return reached;
        }
        thread::yield_now();
    }
    count.load(Ordering::SeqCst)
}

/// Gives its text once a read of another reader has begun too, and fails if none begins.
#[derive(Drop)]
pub struct Meeting {
    pub text: Piecewise,
    pub begun: Arc<AtomicUsize>,
}

impl Read for Meeting {
    fn read(&mut self, buf: &mut [u8]) -> io::Result<usize> {
        self.begun.fetch_add(1, Ordering::SeqCst);
        if awaited(&self.begun, 2) < 2 {
            return Err(io::Error::from(ErrorKind::TimedOut));
        }
        self.text.read(buf)
    }
}
