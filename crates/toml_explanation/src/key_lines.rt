// The lines on which a TOML text has its keys and its tables. The reader of TOML keeps none.
//
// What the text writes in a way that is not followed here, such as a name with dots or quotes, is not found: there is no line then, and
// never a wrong one.

use crate::toml_pieces::Pieces;
use std::fmt;
use wording::Words;

/// A byte order mark, which belongs to no key.
const MARK: [u8; 3] = [0xEF, 0xBB, 0xBF];

/// A table or another value of a TOML text: its line, and what is in it.
#[derive(Clone, Copy, Debug)]
pub struct Located<'a> {
    /// The line of its key or of its header, counted from 1. An item of a list without headers has the line on which it begins.
    pub line: u64,
    inside: Pieces<'a>,
}

impl<'a> Located<'a> {
    /// The table of a whole text, which has been read as TOML.
    pub fn text(text: &'a [u8]) -> Located<'a> {
        let text = text.strip_prefix(&MARK).unwrap_or(text);
        Located {
            line: 1,
            inside: Pieces::new(1, text),
        }
    }

    /// The value under a key of this table.
    pub fn under(&self, key: &str) -> Option<Located<'a>> {
        let mut pieces = self.inside;
        for _ in 0..pieces.most() {
            let piece = pieces.next()?;
            // The keys after a header are those of another table.
            if piece.is_header() {
                return None;
            }
            if let Some(value) = piece.value_of(key) {
                return Some(Located {
                    line: piece.line,
                    inside: Pieces::inside(piece.line, value),
                });
            }
        }
        None
    }

    /// The line on which the value under a key of this table begins: that of the key, or of the first header that names it. None after a
    /// header with a quote, which may name it too.
    pub fn line_of(&self, key: &str) -> Option<u64> {
        if let Some(value) = self.under(key) {
            return Some(value.line);
        }
        let name = Some(key.as_bytes());
        let mut pieces = self.inside;
        for _ in 0..pieces.most() {
            let piece = pieces.next()?;
            if piece.is_header() && piece.is_quoted() {
                return None;
            }
            if piece.list() == name || piece.table() == name {
                return Some(piece.line);
            }
        }
        None
    }

    /// The items of the list under a key of this table.
    pub fn items(&self, list: &'static str) -> Items<'a> {
        match self.under(list) {
            Some(value) => Items {
                pieces: value.inside,
                headed_by: None,
            },
            None => Items {
                pieces: self.inside,
                headed_by: Some(list),
            },
        }
    }

    /// The item at an index of the list under a key of this table.
    pub fn item(&self, list: &'static str, index: usize) -> Option<Located<'a>> {
        let mut items = self.items(list);
        for _ in 0..index {
            items.next()?;
        }
        items.next()
    }
}

/// The items of a list that have not been passed.
#[derive(Clone, Copy, Debug)]
pub struct Items<'a> {
    pieces: Pieces<'a>,
    // The list that the headers of its tables name; None if the items are between two brackets.
    headed_by: Option<&'static str>,
}

impl<'a> Items<'a> {
    /// Passes the next item, and returns it; None if there is none, or if it is not found.
    pub fn next(&mut self) -> Option<Located<'a>> {
        match self.headed_by {
            Some(list) => self.next_headed(list),
            None => {
                let piece = self.pieces.next()?;
                Some(Located {
                    line: piece.line,
                    inside: Pieces::inside(piece.line, piece.text),
                })
            }
        }
    }

    // Passes the next table whose header names this list, and returns it. A header with a quote may name the list too: no table is found
    // after it.
    fn next_headed(&mut self, list: &str) -> Option<Located<'a>> {
        for _ in 0..self.pieces.most() {
            let piece = self.pieces.next()?;
            if piece.is_header() && piece.is_quoted() {
                self.pieces = Pieces::new(piece.line, &[]);
            } else if piece.list() == Some(list.as_bytes()) {
                return Some(Located {
                    line: piece.line,
                    inside: self.pieces.before_header(),
                });
            }
        }
        None
    }
}

/// Where a text has something, in words after its name: `, line 7`. It has no words if that is not known.
#[derive(Clone, Copy, Debug, PartialEq, Eq)]
pub enum Position {
    Unknown,
    Line(u64),
    Column { line: u64, column: u64 },
}

impl Position {
    /// A line, if it is known.
    pub fn of_line(line: Option<u64>) -> Position {
        match line {
            Some(line) => Position::Line(line),
            None => Position::Unknown,
        }
    }

    /// That of the byte after this many others: its line, and how many characters of the line come up to it.
    pub fn after(text: &[u8], count: usize) -> Position {
        let passed = text.get(..count).unwrap_or(text);
        let passed = passed.strip_prefix(&MARK).unwrap_or(passed);
        let mut line = 1u64;
        let mut column = 1u64;
        for byte in passed {
            if *byte == b'\n' {
                line = line.saturating_add(1);
                column = 1;
            } else if begins_character(*byte) {
                column = column.saturating_add(1);
            }
        }
        Position::Column { line, column }
    }

    /// The line, if it is known.
    pub fn line(self) -> Option<u64> {
        match self {
            Position::Unknown => None,
            Position::Line(line) | Position::Column { line, .. } => Some(line),
        }
    }
}

impl fmt::Display for Position {
    fn fmt<W: fmt::Write>(&self, f: &mut fmt::Formatter<W>) -> fmt::Result {
        match self {
            Position::Unknown => Ok(()),
            Position::Line(line) => write!(f, ", line {line}"),
            Position::Column { line, column } => write!(f, ", line {line}, column {column}"),
        }
    }
}

/// Adds a line after what it has, as ` (line 7)`, if it is known.
pub fn say_line(words: &mut Words, line: Option<u64>) {
    if let Some(line) = line {
        words.say(format_args!(" (line {line})"));
    }
}

// Whether a character of UTF-8 begins with this byte.
fn begins_character(byte: u8) -> bool {
    byte & 0xC0 != 0x80
}
