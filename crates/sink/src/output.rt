// What takes the bytes of a text.

ghost use Rattle.std.specs.Prelude.{◌≡◌, ℕ, ◌≤◌, List, Option, IfOk, length};
ghost use Rattle.sink.specs.Taken.{with_more, taken_of, has_failed, Counts};

/// What takes bytes, piece by piece, and may fail.
pub trait Sink {
    // The bytes that it has taken so far, if it knows them.
    ghost bytes: { Self → Option (List ℕ) };

    // How often it has failed so far. There is no greatest value: each failure raises it.
    ghost failures: { Self → ℕ };

    /// Takes the first bytes of `piece`, as many as it answers.
    ///
    /// # Errors
    ///
    /// `SinkFault` if it takes none because it failed. An answer of 0 for a piece that has bytes is a failure too.
    fn put(&mut self, piece: &[u8]) -> Result<usize, SinkFault>
        ensures bound { IfOk result (λ count. count ≤ length piece.now) }
        ensures taken { bytes self.new ≡ with_more (bytes self.old) (taken_of piece.now result) }
        ensures counted { Counts (has_failed piece.now result) (failures self.old) (failures self.new) };
}

/// The sink failed, and took nothing of the piece.
#[derive(Clone, Copy, Debug, PartialEq, Eq)]
pub struct SinkFault;
