// The pieces of a TOML text: its headers, its keys with their values, and the items of its lists. The text is one that has been read as
// TOML, so each string and each bracket in it is closed.

use memchr::{memchr, memchr_iter};

/// A header, a key with its value, or an item of a list.
#[derive(Clone, Copy, Debug)]
pub(crate) struct Piece<'a> {
    /// The line on which it begins, counted from 1.
    pub line: u64,
    /// Its text, without blanks around it.
    pub text: &'a [u8],
}

impl<'a> Piece<'a> {
    /// Whether it is a header. An item of a list may begin with the same bracket.
    pub fn is_header(&self) -> bool {
        self.text.starts_with(b"[")
    }

    /// The name of the list to which this header adds a table; None if it is no such header.
    pub fn list(&self) -> Option<&'a [u8]> {
        Some(
            self.text
                .strip_prefix(b"[[")?
                .strip_suffix(b"]]")?
                .trim_ascii(),
        )
    }

    /// The name of the table that this header begins; None if it is no such header.
    pub fn table(&self) -> Option<&'a [u8]> {
        Some(
            self.text
                .strip_prefix(b"[")?
                .strip_suffix(b"]")?
                .trim_ascii(),
        )
    }

    /// Whether it has a quote, so that a name in it may be written in another way.
    pub fn is_quoted(&self) -> bool {
        self.text.iter().any(|byte| matches!(*byte, b'"' | b'\''))
    }

    /// The text of the value under this key; None if it is another key, or one with dots or quotes.
    pub fn value_of(&self, key: &str) -> Option<&'a [u8]> {
        let after = self.text.strip_prefix(key.as_bytes())?;
        let value = after.trim_ascii_start().strip_prefix(b"=")?;
        Some(value.trim_ascii_start())
    }
}

/// The pieces of a text that have not been passed.
#[derive(Clone, Copy, Debug)]
pub(crate) struct Pieces<'a> {
    line: u64,
    rest: &'a [u8],
}

impl<'a> Pieces<'a> {
    /// The pieces of a text that begins on this line.
    pub fn new(line: u64, text: &'a [u8]) -> Pieces<'a> {
        Pieces { line, rest: text }
    }

    /// The pieces between the brackets of a value that begins on this line; none if the value has no brackets.
    pub fn inside(line: u64, value: &'a [u8]) -> Pieces<'a> {
        match value {
            [b'[' | b'{', between @ .., _] => Pieces::new(line, between),
            _ => Pieces::new(line, &[]),
        }
    }

    /// How many pieces there are at most.
    pub fn most(&self) -> usize {
        self.rest.len()
    }

    /// Passes the next piece, and returns it.
    pub fn next(&mut self) -> Option<Piece<'a>> {
        self.pass_gap();
        let line = self.line;
        let length = piece_length(self.rest);
        let text = self.rest.get(..length)?.trim_ascii_end();
        if text.is_empty() {
            return None;
        }
        self.pass(length);
        Some(Piece { line, text })
    }

    /// The pieces up to the next header.
    pub fn before_header(&self) -> Pieces<'a> {
        let mut ahead = *self;
        for _ in 0..self.most() {
            let left = ahead.rest.len();
            match ahead.next() {
                Some(piece) if piece.is_header() => {
                    let length = self.rest.len().saturating_sub(left);
                    return Pieces::new(self.line, self.rest.get(..length).unwrap_or(&[]));
                }
                Some(_) => {}
                None => break,
            }
        }
        *self
    }

    // Passes blanks, commas, line ends and comments.
    fn pass_gap(&mut self) {
        for _ in 0..self.most() {
            match self.rest {
                [b' ' | b'\t' | b'\r' | b'\n' | b',', ..] => self.pass(1),
                [b'#', ..] => self.pass(comment_length(self.rest)),
                _ => return,
            }
        }
    }

    // Passes this many bytes.
    fn pass(&mut self, count: usize) {
        let Some((passed, rest)) = self.rest.split_at_checked(count) else {
            return;
        };
        let lines = memchr_iter(b'\n', passed).count();
        self.line = self.line.saturating_add(lines as u64);
        self.rest = rest;
    }
}

// How many bytes come before the end of the line.
fn comment_length(text: &[u8]) -> usize {
    memchr(b'\n', text).unwrap_or(text.len())
}

// How many bytes come before the first comma, line end or comment that is not between brackets or quotes.
fn piece_length(text: &[u8]) -> usize {
    let mut depth = 0usize;
    let mut at = 0usize;
    for _ in 0..text.len() {
        let rest = text.get(at..).unwrap_or(&[]);
        let length = match rest {
            [] => return at,
            [b',' | b'\n' | b'#', ..] if depth == 0 => return at,
            [b'#', ..] => comment_length(rest),
            [b'"' | b'\'', ..] => string_length(rest),
            [b'[' | b'{', ..] => {
                depth = depth.saturating_add(1);
                1
            }
            [b']' | b'}', ..] => {
                depth = depth.saturating_sub(1);
                1
            }
            _ => 1,
        };
        at = at.saturating_add(length);
    }
    at
}

// How many bytes the string at the beginning of a text has, with its quotes.
fn string_length(text: &[u8]) -> usize {
    let Some(quote) = text.first().copied() else {
        return 0;
    };
    let long = [quote; 3];
    let is_long = text.starts_with(&long);
    let mut at = if is_long { 3usize } else { 1 };
    for _ in 0..text.len() {
        let rest = text.get(at..).unwrap_or(&[]);
        let length = match rest {
            [] => return at,
            [b'\\', ..] if quote == b'"' => 2,
            _ if is_long && rest.starts_with(&long) => {
                return at.saturating_add(quotes_at_end(rest, quote));
            }
            [byte, ..] if !is_long && *byte == quote => return at.saturating_add(1),
            _ => 1,
        };
        at = at.saturating_add(length);
    }
    at
}

// How many quotes end a string over several lines: three, after up to two that belong to it.
fn quotes_at_end(text: &[u8], quote: u8) -> usize {
    text.iter()
        .take(5)
        .take_while(|byte| **byte == quote)
        .count()
}
