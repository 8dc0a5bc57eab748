// The shapes of which a strip is made.

ghost use Rattle.std.specs.Prelude.{◌≡◌, true};
ghost use Rattle.sink.specs.Own.{is_own};

use sink::Markup;
use std::fmt::Display;

/// The width of most characters of a text, in pixels like all lengths here.
pub const CHARACTER: u64 = 7;

/// The free width beside the text of a bar, on both sides together and on the left, where the mark of a record can be.
pub const INSIDE: u64 = 12;

pub const BEFORE_TEXT: u64 = 9;

/// The height of the band of a core's windows, in which its ticks are marked.
pub const BAND: u64 = 14;

// A rectangle of this class from one edge to another.
pub(crate) fn tell_rect(
    out: &mut Markup,
    class: &'static str,
    left: u64,
    y: u64,
    right: u64,
    height: u64,
)
    requires { is_own class.now ≡ true }
{
    out.mark("<rect class=\"");
    out.mark(class);
    out.mark("\" ");
    tell_box(out, left, y, right, height);
    out.mark("/>\n");
}

// Where a rectangle is, after a space in its tag.
pub(crate) fn tell_box(out: &mut Markup, left: u64, y: u64, right: u64, height: u64) {
    out.mark("x=\"");
    out.say(left);
    out.mark("\" y=\"");
    out.say(y);
    out.mark("\" width=\"");
    out.say(right.saturating_sub(left));
    out.mark("\" height=\"");
    out.say(height);
    out.mark("\"");
}

// The size of a picture, whose points are pixels, and of which this one is the leftmost.
pub(crate) fn tell_size(out: &mut Markup, left: u64, width: u64, height: u64) {
    out.mark(" width=\"");
    out.say(width);
    out.mark("\" height=\"");
    out.say(height);
    out.mark("\" viewBox=\"");
    out.say(left);
    out.mark(" 0 ");
    out.say(width);
    out.mark(" ");
    out.say(height);
    out.mark("\"");
}

// A text of this class, which begins at this point.
pub(crate) fn tell_text(
    out: &mut Markup,
    class: &'static str,
    x: u64,
    y: u64,
    text: impl Display + Drop,
)
    requires { is_own class.now ≡ true }
{
    out.mark("<text class=\"");
    out.mark(class);
    out.mark("\" x=\"");
    out.say(x);
    out.mark("\" y=\"");
    out.say(y);
    out.mark("\">");
    out.say(text);
    out.mark("</text>\n");
}

// A line from top to bottom, over a broader one in the colour of the background.
pub(crate) fn tell_line(out: &mut Markup, x: u64, top: u64, bottom: u64) {
    out.mark("<line class=\"halo\" x1=\"");
    tell_ends(out, x, top, bottom);
    out.mark("<line x1=\"");
    tell_ends(out, x, top, bottom);
}

// A line of this class from top to bottom.
pub(crate) fn tell_line_of(out: &mut Markup, class: &'static str, x: u64, top: u64, bottom: u64)
    requires { is_own class.now ≡ true }
{
    out.mark("<line class=\"");
    out.mark(class);
    out.mark("\" x1=\"");
    tell_ends(out, x, top, bottom);
    out.mark("\n");
}

fn tell_ends(out: &mut Markup, x: u64, top: u64, bottom: u64) {
    out.say(x);
    out.mark("\" x2=\"");
    out.say(x);
    out.mark("\" y1=\"");
    out.say(top);
    out.mark("\" y2=\"");
    out.say(bottom);
    out.mark("\"/>");
}

// The width of a text.
pub(crate) fn width_of_text(text: &str) -> u64 {
    let mut width = 0u64;
    for character in text.chars() {
        width = width.saturating_add(width_of_character(character));
    }
    width
}

// How many characters of a text have room in this width, if it is cut in the middle.
pub(crate) fn count_within(text: &str, room: u64) -> usize {
    let all = text.chars().count();
    for fewer in 0..all {
        let most = all - fewer;
        if width_of_shortened(text, all, most) <= room {
            return most;
        }
    }
    0
}

// The width of a text of so many characters, of which this many are shown at most.
fn width_of_shortened(text: &str, all: usize, most: usize) -> u64 {
    if all <= most {
        return width_of_text(text);
    }
    let Ends { before, after } = ends_of(most);
    let last = all.saturating_sub(after);
    let mut width = width_of_character('…');
    for (index, character) in text.chars().enumerate() {
        if index < before || index >= last {
            width = width.saturating_add(width_of_character(character));
        }
    }
    width
}

// The width of a character of the letters of a picture, in the widest of its fonts.
fn width_of_character(character: char) -> u64 {
    match character {
        ' ' | ',' | '.' | '/' | ':' | ';' | '|' | '-' | 'I' | 'J' | 'f' | 'i' | 'j' | 'l' => 4,
        '(' | ')' | '[' | ']' | '!' | 'r' | 't' => 5,
        '"' | '*' | '_' | '?' | 's' | 'z' => 6,
        'A' | 'B' | 'C' | 'K' | 'R' | 'V' | 'X' | 'Z' => 8,
        'D' | 'G' | 'H' | 'N' | 'O' | 'Q' | 'U' | '&' | 'w' => 9,
        'M' | '#' | '+' | '<' | '=' | '>' | '^' | '~' => 10,
        'W' | '%' | '@' | 'm' | '…' => 11,
        _ => CHARACTER,
    }
}

// How many characters are shown before and after the gap of a text that is cut. Two thirds are before it.
#[derive(Clone, Copy)]
struct Ends {
    before: usize,
    after: usize,
}

// Those of a text of which this many characters are shown at most, with the gap.
fn ends_of(most: usize) -> Ends {
    let shown = most.saturating_sub(1);
    let after = shown / 3;
    Ends {
        before: shown.saturating_sub(after),
        after,
    }
}

// A text, or its first and last characters if it has more than this many: texts that begin alike often differ at their ends.
#[derive(Clone, Copy)]
pub(crate) struct Shortened<'a>(pub &'a str, pub usize);

impl Display for Shortened<'_> {
    fn fmt<W: std::fmt::Write>(&self, f: &mut std::fmt::Formatter<W>) -> std::fmt::Result {
        let count = self.0.chars().count();
        if count <= self.1 {
            return write!(f, "{}", self.0);
        }
        let Ends { before, after } = ends_of(self.1);
        for character in self.0.chars().take(before) {
            f.write_char(character)?;
        }
        f.write_char('…')?;
        for character in self.0.chars().skip(count.saturating_sub(after)) {
            f.write_char(character)?;
        }
        Ok(())
    }
}

// The label of a record, of which the record is shortened if it has more than this many characters. The outcome after a colon is whole.
#[derive(Clone, Copy)]
pub(crate) struct ShortLabel<'a>(pub &'a str, pub usize);

impl Display for ShortLabel<'_> {
    fn fmt<W: std::fmt::Write>(&self, f: &mut std::fmt::Formatter<W>) -> std::fmt::Result {
        let Some((record, outcome)) = self.0.rsplit_once(": ") else {
            return write!(f, "{}", Shortened(self.0, self.1));
        };
        let most = self
            .1
            .saturating_sub(outcome.chars().count().saturating_add(2));
        write!(f, "{}: {outcome}", Shortened(record, most))
    }
}

// A number after a word that says what it counts.
#[derive(Clone, Copy)]
pub(crate) struct Numbered(pub &'static str, pub u64);

impl Display for Numbered {
    fn fmt<W: std::fmt::Write>(&self, f: &mut std::fmt::Formatter<W>) -> std::fmt::Result {
        write!(f, "{} {}", self.0, self.1)
    }
}
