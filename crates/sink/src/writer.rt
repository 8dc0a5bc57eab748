// A program's writer, such as standard output, as a sink.

ghost use Rattle.std.specs.Prelude.{◌≡◌, ◌<◌, OnErr, OnOk};
ghost use Rattle.std.specs.Io.{WritesAtMost};
ghost use Rattle.std.specs.Io.KnownBytes.{WriteAppends};
ghost use Rattle.sink.specs.Writer.{StillTells, WriterView, held_since};

use crate::count::FailureCount;
use crate::output::{Sink, SinkFault};
use crate::written::WriteFault;
use std::io;
use std::io::{ErrorKind, Write};
use std::marker::Model;
use std::snapshot::Snapshot;

/// A sink that hands its bytes to a writer, such as standard output.
///
/// Its bytes are those that the writer reports, as a writer in memory does. No contract says what a file or a terminal takes.
#[derive(Drop)]
pub struct WriterSink<W: Write> {
    writer: W,
    // The writer as it was given, which only contracts see.
    first: Snapshot<W>,
    failures: FailureCount,
}

impl<W: Write> Model for WriterSink<W> {
    ghost Value = { WriterView };

    ghost view = { λ s. record { bytes = held_since (W.contents s.first.value) (W.contents s.writer); failures = s.failures.count } };

    ghost invariant = { λ s. StillTells (W.contents s.first.value) (W.contents s.writer) };
}

impl<W: Write + Drop> WriterSink<W> {
    /// A sink that hands its bytes to `writer`, and has not failed yet.
    pub fn new(writer: W) -> WriterSink<W>
        ensures bytes { result.bytes ≡ W.contents writer }
        ensures unfailed { result.failures ≡ 0 }
    {
        WriterSink {
            first: Snapshot::of(&writer),
            writer,
            failures: FailureCount::new(),
        }
    }

    /// Makes the writer pass on everything that it took.
    ///
    /// # Errors
    ///
    /// `WriteFault` if the writer failed.
    pub fn flush(&mut self) -> Result<(), WriteFault>
        ensures bytes { self.new.bytes ≡ self.old.bytes }
        ensures same { OnOk result (self.new.failures ≡ self.old.failures) }
        ensures failed { OnErr result (self.old.failures < self.new.failures) }
    {
        if self.writer.flush().is_err() {
            self.failures = self.failures.raised();
            return Err(WriteFault);
        }
        Ok(())
    }
}

impl<W: Write + Drop> Sink for WriterSink<W> {
    ghost bytes = { λ s. s.bytes };

    ghost failures = { λ s. s.failures };

    fn put(&mut self, piece: &[u8]) -> Result<usize, SinkFault> {
        match write_retrying(&mut self.writer, piece) {
            Ok(0) if !piece.is_empty() => {
                self.failures = self.failures.raised();
                Ok(0)
            }
            Ok(count) => Ok(count),
            Err(_) => {
                self.failures = self.failures.raised();
                Err(SinkFault)
            }
        }
    }
}

// One write, which is retried if a signal interrupts it.
fn write_retrying<W: Write>(writer: &mut W, piece: &[u8]) -> io::Result<usize>
    ensures bound { WritesAtMost result piece.now }
    ensures bytes { WriteAppends (W.contents writer.old) (W.contents writer.new) result piece.now }
{
    for _ in 0..u64::MAX {
        match writer.write(piece) {
            Err(e) if e.kind() == ErrorKind::Interrupted => {}
            answer => return answer,
        }
    }
    Err(io::Error::from(ErrorKind::Interrupted))
}
