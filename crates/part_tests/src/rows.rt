// The rows of texts: plain lines and others, one after the other, read whole and a byte at a time.

use csv_rows::{CsvRows, RowFields, Watched};
use std::alloc::{AllocError, Global};
use std::io;
use std::io::Read;
use std::test::Fail;

// Gives its text at most `step` bytes at a time.
#[derive(Drop)]
struct Stepwise {
    text: &'static [u8],
    step: usize,
}

impl Read for Stepwise {
    fn read(&mut self, buf: &mut [u8]) -> io::Result<usize> {
        let count = self.text.len().min(self.step).min(buf.len());
        let (given, left) = self.text.split_at(count);
        buf[..count].copy_from_slice(given);
        self.text = left;
        Ok(count)
    }
}

// The rows of a text that is read this many bytes at a time: each field with a bar after it, and each row with a slash. A text whose rows
// do not end, or fail, has an exclamation mark at its end.
fn rows_of(alloc: Global, text: &'static str, step: usize) -> Result<Vec<u8>, AllocError> {
    let text = text.as_bytes();
    let mut rows = CsvRows::new(alloc, Watched::new(Stepwise { text, step }));
    let mut fields = RowFields::new(alloc);
    let mut shown = Vec::new(alloc);
    'turns: for _ in 0..10 {
        match rows.read(&mut fields) {
            Ok(true) => {}
            Ok(false) => return Ok(shown),
            Err(_) => break,
        }
        for place in 0..fields.len() {
            shown.extend_from_slice(fields.get(place).unwrap_or(b"!"))?;
            shown.push(b'|')?;
        }
        shown.push(b'/')?;
    }
    shown.push(b'!')?;
    Ok(shown)
}

// Each text with its rows.
const TEXTS: [(&'static str, &'static str); 24] = [
    ("", ""),
    ("a,b\nc,d\n", "a|b|/c|d|/"),
    ("a,b\nc,d", "a|b|/c|d|/"),
    ("\n\na\n\n\nb\n\n", "a|/b|/"),
    (",", "||/"),
    (",,\n,\na", "|||/||/a|/"),
    ("a,\n", "a||/"),
    ("a\r\nb,\r\n", "a|/b||/"),
    ("\r\n\r\na\r\n\r\nb", "a|/b|/"),
    ("a\rb\r", "a|/b|/"),
    ("a\r\r\nb\n\r", "a|/b|/"),
    ("a\n\rb", "a|/b|/"),
    ("\"a,b\",c\nd\n", "a,b|c|/d|/"),
    ("x\n\"a\n,\"\"b\"\ny\n", "x|/a\n,\"b|/y|/"),
    ("x,\"y\r\nz\"\r\nw\r\n", "x|y\r\nz|/w|/"),
    ("a\"b,c\nd\n", "a\"b|c|/d|/"),
    ("a\n\"b", "a|/b|/"),
    ("a\n\"", "a|/|/"),
    ("\u{feff}a,b\nc\n", "a|b|/c|/"),
    ("\u{feff}\"a\"\nb\n", "a|/b|/"),
    ("\u{feff}", ""),
    ("\u{feff}\n\u{feff}\"a\"\n", "\u{feff}\"a\"|/"),
    ("\u{feff}\u{feff}a\n", "\u{feff}a|/"),
    ("\0,\u{e4}\n\0", "\0|\u{e4}|/\0|/"),
];

#[test]
fn texts_have_their_rows(rt: HostRuntime) -> Result<(), Fail> {
    let alloc = rt.alloc();
    for (text, expected) in TEXTS {
        for step in [1, 2, 3, 1000] {
            let rows = rows_of(alloc, text, step)?;
            assert_eq!(rt; rows.as_slice(), expected.as_bytes(), "{text:?} by {step}");
        }
    }
    Ok(())
}

// The places in a text that is read this many bytes at a time, one after each row.
fn places_of(alloc: Global, text: &'static str, step: usize) -> Result<Vec<u64>, AllocError> {
    let text = text.as_bytes();
    let mut rows = CsvRows::new(alloc, Watched::new(Stepwise { text, step }));
    let mut fields = RowFields::new(alloc);
    let mut places = Vec::new(alloc);
    'turns: for _ in 0..10 {
        match rows.read(&mut fields) {
            Ok(true) => places.push(rows.place())?,
            _ => break,
        }
    }
    Ok(places)
}

// Each text with the places after its rows.
const PLACES: [(&'static str, [u64; 3]); 9] = [
    ("a,b\nc,d\ne", [4, 8, 9]),
    ("\n\na\n\n\nb\nc\n\n", [4, 8, 10]),
    ("a\r\nb\r\n\r\nc\r\n", [3, 6, 11]),
    ("a\rb\rc\r", [2, 4, 6]),
    ("a\rb\r\nc\n", [2, 4, 7]),
    ("a\n\rb\r\r\nc", [2, 5, 8]),
    ("x\n\"a\n\"\"\"\ny\n", [2, 9, 11]),
    ("\u{feff}a\nb\nc\n", [5, 7, 9]),
    ("\u{feff}\"a\"\n\nb\nc\n", [7, 10, 12]),
];

#[test]
fn rows_end_at_their_places(rt: HostRuntime) -> Result<(), Fail> {
    let alloc = rt.alloc();
    for (text, expected) in PLACES {
        for step in [1, 2, 3, 1000] {
            let places = places_of(alloc, text, step)?;
            assert_eq!(rt;
                places.as_slice(),
                expected.as_slice(),
                "{text:?} by {step}"
            );
        }
    }
    Ok(())
}

// The rows of a text after its first: each pair that is taken at once in round brackets, and of the others each field with a bar after it,
// and each row with a slash. The first row is read in full.
fn pairs_of(alloc: Global, text: &'static str) -> Result<Vec<u8>, AllocError> {
    let mut rows = CsvRows::new(alloc, text.as_bytes());
    let mut fields = RowFields::new(alloc);
    let mut shown = Vec::new(alloc);
    match rows.read(&mut fields) {
        Ok(true) => {}
        _ => return Ok(shown),
    }
    'turns: for _ in 0..10 {
        if let Some((first, second)) = rows.take_pair() {
            let pair = format!(in alloc; "({first},{second})")?;
            shown.extend_from_slice(pair.as_bytes())?;
            continue;
        }
        match rows.read(&mut fields) {
            Ok(true) => {}
            _ => return Ok(shown),
        }
        for place in 0..fields.len() {
            shown.extend_from_slice(fields.get(place).unwrap_or(b"!"))?;
            shown.push(b'|')?;
        }
        shown.push(b'/')?;
    }
    Ok(shown)
}

// Each text with its rows after the first.
const PAIRS: [(&'static str, &'static str); 14] = [
    ("1,2\n", ""),
    ("x\n0,10\n3,4\n", "(0,10)(3,4)"),
    ("x\n123456789,1\n", "(123456789,1)"),
    ("x\n1234567890,1\n2,3\n", "1234567890|1|/(2,3)"),
    ("x\n05,1\n0,1\n", "05|1|/(0,1)"),
    ("x\n1,00\n1,0\n", "1|00|/(1,0)"),
    ("x\n1,2,3\n4,5\n", "1|2|3|/(4,5)"),
    ("x\n1\n2,3\n", "1|/(2,3)"),
    ("x\n1,\n,2\n3,4\n", "1||/|2|/(3,4)"),
    ("x\n1,2\n3,4", "(1,2)3|4|/"),
    ("x\n1,2\r\n3,4\n", "1|2|/(3,4)"),
    ("x\n\n1,2\n3,4\n", "1|2|/(3,4)"),
    ("x\n\"1\",2\n3,4\n", "1|2|/3|4|/"),
    ("x\n-1,2\n1,+2\n", "-1|2|/1|+2|/"),
];

#[test]
fn pairs_are_taken_at_once(rt: HostRuntime) -> Result<(), Fail> {
    let alloc = rt.alloc();
    for (text, expected) in PAIRS {
        let rows = pairs_of(alloc, text)?;
        assert_eq!(rt; rows.as_slice(), expected.as_bytes(), "{text:?}");
    }
    Ok(())
}

// Each text, and whether `is_taken` holds of it.
const NUMBERED: [(&'static str, bool); 10] = [
    ("x\n7,a,,\n", true),
    ("x\n7,a,,\ny", true),
    ("x\n07,a,,\n", false),
    ("x\n8,a,,\n", false),
    ("x\n77,a,,\n", false),
    ("x\n7,a,,,\n", false),
    ("x\n7,a,\n", false),
    ("x\n7,a,,", false),
    ("x\n7,a,,\r\n", false),
    ("x\n7;a,,\n", false),
];

// Whether the second row of a text is taken at once as that of the number 7 and the line `a,,`.
fn is_taken(alloc: Global, text: &'static str) -> bool {
    let mut rows = CsvRows::new(alloc, text.as_bytes());
    let mut fields = RowFields::new(alloc);
    match rows.read(&mut fields) {
        Ok(true) => rows.take_numbered(7, b"a,,"),
        _ => false,
    }
}

#[test]
fn numbered_rows_are_taken_at_once(rt: HostRuntime) -> Result<(), Fail> {
    let alloc = rt.alloc();
    for (text, expected) in NUMBERED {
        assert_eq!(rt; is_taken(alloc, text), expected, "{text:?}");
    }
    Ok(())
}
