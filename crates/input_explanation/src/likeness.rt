// What the first row of a refused file looks like, if another kind of file was named, or if the rows have a line above them that is none.

use csv_rows::RowFields;
use record_read::find_kind;
use wording::Words;

/// The fewest fields of a header: the words of a text may be one field.
const FEWEST_NAMES: usize = 2;

// What the first row of a file looks like.
#[derive(Clone, Copy, Debug, PartialEq, Eq)]
enum Likeness {
    Header,
    Comment,
    Toml,
    Certificate,
    Recording,
}

impl Likeness {
    // What a row with these fields looks like, if that is anything.
    fn of(fields: &RowFields) -> Option<Likeness> {
        let first = fields.get(0)?.trim_ascii();
        if first.starts_with(b"#") {
            Some(Likeness::Comment)
        } else if first.starts_with(b"[") || first.contains(&b'=') {
            Some(Likeness::Toml)
        } else if is_record(fields) {
            Some(Likeness::Recording)
        } else if is_pair(fields) {
            Some(Likeness::Certificate)
        } else if is_header(fields) {
            Some(Likeness::Header)
        } else {
            None
        }
    }
}

/// Reports what the first row of a recording looks like, if that is something else.
pub(crate) fn tell_recording_likeness(words: &mut Words, first: &RowFields) {
    match Likeness::of(first) {
        Some(Likeness::Recording) | None => {}
        Some(likeness) => tell_likeness(words, likeness, "recording"),
    }
}

/// Reports what the first row of a certificate looks like, if that is something else.
pub(crate) fn tell_certificate_likeness(words: &mut Words, first: &RowFields) {
    match Likeness::of(first) {
        Some(Likeness::Certificate) | None => {}
        Some(likeness) => tell_likeness(words, likeness, "certificate"),
    }
}

// Reports what the first row looks like of a file that was named as a file of this kind.
fn tell_likeness(words: &mut Words, likeness: Likeness, named_as: &str) {
    words.next_line();
    match likeness {
        Likeness::Header => words.say(format_args!(
            "the first row looks like a header; {named_as}s have none: remove it"
        )),
        Likeness::Comment => words.say(format_args!(
            "the first row looks like a comment; {named_as}s have none: remove it"
        )),
        Likeness::Toml => words.say(format_args!(
            "the file looks like TOML, such as a configuration, and not like a {named_as}"
        )),
        Likeness::Certificate => words.say(format_args!(
            "the file looks like a certificate, and not like a {named_as}"
        )),
        Likeness::Recording => words.say(format_args!(
            "the file looks like a recording, and not like a {named_as}"
        )),
    }
}

// Whether a row is one of a recording, by its number of fields and its kind.
fn is_record(fields: &RowFields) -> bool {
    let has_kind = match fields.get(1) {
        Some(kind) => find_kind(kind).is_some(),
        None => false,
    };
    has_kind && matches!(fields.len(), 16 | 18 | 19)
}

// Whether a row is two numbers.
fn is_pair(fields: &RowFields) -> bool {
    let (Some(core), Some(seq)) = (fields.get(0), fields.get(1)) else {
        return false;
    };
    fields.len() == 2 && is_number(core) && is_number(seq)
}

// Whether each field is a word, or nothing, and the first one is a word.
fn is_header(fields: &RowFields) -> bool {
    let mut names = 0usize;
    for place in 0..fields.len() {
        let text = fields.get(place).unwrap_or(b"").trim_ascii();
        match text.first() {
            Some(byte) if byte.is_ascii_alphabetic() => names = names.saturating_add(1),
            Some(_) => return false,
            None if place == 0 => return false,
            None => {}
        }
    }
    names >= FEWEST_NAMES
}

// Whether a field is a number, in whatever form.
fn is_number(text: &[u8]) -> bool {
    let text = text.trim_ascii();
    !text.is_empty() && text.iter().all(|byte| byte.is_ascii_digit())
}
