// The reader that is given to `csv`.

use crate::text_source::TextSource;
use std::io;
use std::io::Read;

/// The source of a text as a reader of std.
#[derive(Drop)]
pub struct SourceReader<R> {
    pub source: R,
    /// How many bytes of the text were taken before `csv` reads on.
    pub before: u64,
}

impl<R: TextSource> Read for SourceReader<R> {
    ghost remaining = { λ reader. R.remaining reader.source };

    /// Reads from the source.
    fn read(&mut self, buf: &mut [u8]) -> io::Result<usize> {
        self.source.read_some(buf)
    }
}
