// Parts of a text: its lines, and the words of a line.

ghost use Rattle.case_runner.specs.Texts.{IsSplit};

/// What ends a line.
pub const LINE_FEED: u8 = b'\n';

/// What ends a word.
pub const SPACE: u8 = b' ';

/// The part before the first byte that is `end`, and what follows that byte. If there is none, the whole text and nothing.
pub fn split_at_byte(text: &[u8], end: u8) -> (&[u8], &[u8])
    ensures { IsSplit end text.now result.0.now result.1.now }
{
    for (at, byte) in text.iter().enumerate() {
        if *byte == end {
            return (&text[..at], &text[at + 1..]);
        }
    }
    text.split_at(text.len())
}

/// The first line of a text, without its line feed, and the lines after it.
pub fn split_line(text: &[u8]) -> (&[u8], &[u8])
    ensures { IsSplit LINE_FEED text.now result.0.now result.1.now }
{
    split_at_byte(text, LINE_FEED)
}

/// The first word of a line, and what follows the space that ends it.
pub fn split_word(line: &[u8]) -> (&[u8], &[u8])
    ensures { IsSplit SPACE line.now result.0.now result.1.now }
{
    split_at_byte(line, SPACE)
}

/// How many lines a text has. The last one may lack its line feed.
pub fn line_count(text: &[u8]) -> usize {
    let ended = text.iter().filter(|byte| **byte == b'\n').count();
    match text.last() {
        Some(b'\n') | None => ended,
        Some(_) => ended.saturating_add(1),
    }
}
