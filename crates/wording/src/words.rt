// A text in words, which grows up to a bound.

use crate::spelling::nearest;
use std::alloc::{AllocError, Global};
use std::fmt;
use std::fmt::{Display, Write};
use std::mem::replace;

/// How many bytes a text may have before nothing more is added to it.
const LONGEST: usize = 16_384;

/// How many bytes of room a text and what is said begin with. Most have no more.
const LEAST_ROOM: usize = 160;

/// How many places are kept.
const MOST_PLACES: usize = 8;

/// The character that begins a mark in a text. No word contains it, since it is a control character. One character follows it, which says
/// what is marked.
const MARK: char = '\u{1b}';

/// What follows the mark at the end of a part.
const PLAIN: &str = "0";

/// What follows the mark before the name of a document.
const DOCUMENT: &str = "d";

/// A part of a text that may be shown in a colour of its own.
#[derive(Clone, Copy, Debug, PartialEq, Eq)]
pub enum Part {
    /// What a record says: in bold type.
    Record,
    /// What was expected: in green.
    Expected,
    /// What was recorded, or found: in red.
    Recorded,
}

impl Part {
    // What follows the mark at the beginning of the part.
    fn mark(self) -> &'static str {
        match self {
            Part::Record => "b",
            Part::Expected => "g",
            Part::Recorded => "r",
        }
    }
}

/// How the text of words is shown.
#[derive(Clone, Copy, Debug)]
pub struct Look<'a> {
    /// Whether the parts have colours, as a terminal takes them.
    pub in_colour: bool,
    /// The folder of the documents that the words name.
    pub documents: &'a str,
}

impl Look<'_> {
    /// Without colours, and with the documents as in the sources.
    pub fn plain() -> Look<'static> {
        Look {
            in_colour: false,
            documents: "docs",
        }
    }

    // What is shown for what follows a mark.
    fn of_mark(&self, mark: &str) -> &str {
        match mark {
            DOCUMENT => self.documents,
            _ if !self.in_colour => "",
            "b" => "\u{1b}[1m",
            "g" => "\u{1b}[32m",
            "r" => "\u{1b}[31m",
            _ => "\u{1b}[0m",
        }
    }
}

/// A text in words. Once memory is refused to it, or it is too long, nothing more is added to it.
///
/// What is said may come from a file or a command line: its control characters are written as `\n` or `\u{1b}`, so that a terminal shows
/// them and does not obey them. Parts of a text are marked, and `shown` shows them in colours or as plain words.
#[derive(Drop)]
pub struct Words {
    alloc: Global,
    text: String,
    // The room for what is said, before it is added.
    said: String,
    places: Vec<u64>,
    ended: bool,
    lacks_memory: bool,
}

impl Words {
    /// No words. Takes no memory.
    pub fn new(alloc: Global) -> Words {
        Words {
            alloc,
            text: String::new(alloc),
            said: String::new(alloc),
            places: Vec::new(alloc),
            ended: false,
            lacks_memory: false,
        }
    }

    /// Adds these words.
    pub fn say(&mut self, words: impl Display + Drop) {
        // The room of what was said last serves again.
        let mut said = replace(&mut self.said, String::new(self.alloc));
        said.clear();
        if said.reserve(LEAST_ROOM).is_err() || write!(said, "{words}").is_err() {
            self.end_without_memory();
            return;
        }
        self.add_said(said.as_str());
        self.said = said;
    }

    // Adds what is said. Its control characters are written as escapes.
    fn add_said(&mut self, said: &str) {
        // Most words need no change, and are added at once.
        if self.has_room_for(said) && is_shown_as_it_is(said) {
            self.add_whole(said);
            return;
        }
        for character in said.chars() {
            if character.is_control() {
                self.add(character.escape_default());
            } else {
                self.add(character);
            }
        }
    }

    /// Adds a place, and keeps its number if few have been kept.
    pub fn say_place(&mut self, place: u64) {
        self.say(format_args!("place {place}"));
        if self.places.len() < MOST_PLACES && !self.places.contains(&place) {
            // If memory is refused, the words still have the place.
            self.lacks_memory |= self.places.push(place).is_err();
        }
    }

    /// The places that are kept, each once.
    pub fn places(&self) -> &[u64] {
        self.places.as_slice()
    }

    /// Begins a part, which continues up to `end_part`.
    pub fn begin_part(&mut self, part: Part) {
        self.mark(part.mark());
    }

    /// Ends the part that was begun.
    pub fn end_part(&mut self) {
        self.mark(PLAIN);
    }

    /// Adds these words as a part.
    pub fn say_part(&mut self, part: Part, words: impl Display + Drop) {
        self.begin_part(part);
        self.say(words);
        self.end_part();
    }

    /// Adds other words, with their lines and their parts. If those lack memory, these do.
    pub fn append(&mut self, other: &Words) {
        self.add(other.text.as_str());
        self.lacks_memory |= other.lacks_memory;
    }

    /// Begins another line, which is indented.
    pub fn next_line(&mut self) {
        self.add("\n    ");
    }

    /// Adds the name of a document, with the folder of the documents, and a place in it.
    pub fn say_document(&mut self, name: &str, place: impl Display + Drop) {
        self.mark(DOCUMENT);
        self.say(format_args!("/{name}, {place}"));
    }

    /// Reports the rule that is broken, by its place in the specification.
    pub fn rule(&mut self, place: impl Display + Drop) {
        self.next_line();
        self.say("rule: ");
        self.say_document("SPECIFICATION.md", place);
    }

    /// Adds the name among these that a misspelt word probably means, if there is one.
    pub fn suggest(&mut self, word: &str, names: &[&str]) {
        match nearest(self.alloc, word, names) {
            Ok(Some(name)) => {
                self.say("; did you mean ");
                self.say_part(Part::Expected, format_args!("'{name}'"));
                self.say("?");
            }
            Ok(None) => {}
            Err(_) => self.note_lack_of_memory(),
        }
    }

    /// Notes that memory was refused to what is said here, so that less is said of it.
    pub fn note_lack_of_memory(&mut self) {
        self.lacks_memory = true;
    }

    /// Whether less is said than would be if no memory had been refused.
    pub fn lacks_memory(&self) -> bool {
        self.lacks_memory
    }

    /// Whether there are no words.
    pub fn is_empty(&self) -> bool {
        self.text.is_empty()
    }

    /// The text, as it is to be shown.
    pub fn shown<'a>(&'a self, look: Look<'a>) -> Shown<'a> {
        Shown {
            text: self.text.as_str(),
            look,
        }
    }

    // Whether this text can be added without being cut off.
    fn has_room_for(&self, text: &str) -> bool {
        self.text.len().saturating_add(text.len()) <= LONGEST
    }

    // Adds a mark.
    fn mark(&mut self, what: &str) {
        self.add(format_args!("{MARK}{what}"));
    }

    // Adds a text unchanged, as one piece.
    fn add_whole(&mut self, text: &str) {
        self.ended |= self.text.len() >= LONGEST;
        if !self.ended && self.push(text).is_err() {
            self.end_without_memory();
        }
    }

    fn push(&mut self, text: &str) -> Result<(), AllocError> {
        if self.text.is_empty() {
            self.text.reserve(LEAST_ROOM)?;
        }
        self.text.push_str(text)
    }

    // Adds a text unchanged.
    fn add(&mut self, text: impl Display + Drop) {
        self.ended |= self.text.len() >= LONGEST;
        if !self.ended && write!(self.text, "{text}").is_err() {
            self.end_without_memory();
        }
    }

    // Memory is refused: nothing more is added.
    fn end_without_memory(&mut self) {
        self.ended = true;
        self.lacks_memory = true;
    }
}

// Whether no character of a text is a control character.
fn is_shown_as_it_is(text: &str) -> bool {
    let bytes = text.as_bytes();
    bytes.iter().all(|byte| 0x20 <= *byte && *byte < 0x7F)
        || text.chars().all(|character| !character.is_control())
}

/// The text of words, as it is shown.
#[derive(Clone, Copy)]
pub struct Shown<'a> {
    text: &'a str,
    look: Look<'a>,
}

impl Display for Shown<'_> {
    fn fmt<W: fmt::Write>(&self, f: &mut fmt::Formatter<W>) -> fmt::Result {
        let mut parts = self.text.split(MARK);
        if let Some(words) = parts.next() {
            f.write_str(words)?;
        }
        for part in parts {
            // What comes first says what is marked.
            if let Some((mark, words)) = part.split_at_checked(1) {
                f.write_str(self.look.of_mark(mark))?;
                f.write_str(words)?;
            }
        }
        // A text that is cut off does not end in a colour either.
        f.write_str(self.look.of_mark(PLAIN))
    }
}
