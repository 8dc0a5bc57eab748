// The text of an end as one line.

use crate::ending::{Ending, OwnEnd};
use crate::text::write_text;
use sink::WriterSink;
use std::str;

/// The most bytes of a line.
const LONGEST_LINE: usize = 512;

/// The text of an end as one line, without its line feed.
#[derive(Drop)]
pub struct Line {
    room: [u8; LONGEST_LINE],
    length: usize,
}

impl Line {
    /// The line of this end. Takes no memory.
    pub fn of<End: OwnEnd>(ending: &Ending<End>) -> Line {
        let mut room = [0u8; LONGEST_LINE];
        let left = {
            let mut rest: &mut [u8] = &mut room;
            // No line is longer than the room.
            let _ = write_text(&mut WriterSink::new(&mut rest), ending);
            rest.len()
        };
        Line {
            room,
            length: LONGEST_LINE.saturating_sub(left),
        }
    }

    /// Its text.
    pub fn text(&self) -> &str {
        let bytes = match self.room.get(..self.length) {
            Some(bytes) => bytes,
            None => &[],
        };
        str::from_utf8(bytes).unwrap_or("").trim_end()
    }
}
