// Rows with numbers at the front of a text, each known by one look along its bytes.

ghost use Rattle.std.specs.Prelude.{◌≡◌, ◌≢◌, ◌<◌, ◌≤◌, All, IfSome, length, slice_index, take, false, true};
ghost use Rattle.csv_rows.specs.Line.{IsPlain};
ghost use Rattle.csv_rows.specs.Numbered.{IsNumberAt, IsNumbered, IsPair, IsRowAt};

// From here on a number gets no further digit. What follows it is then no comma and no line feed, and the row is left to the plain way.
const GREAT: u32 = 100_000_000;

/// A number at the front of a text, and how many digits it has.
#[derive(Clone, Copy)]
pub struct FrontNumber {
    number: u32,
    digits: usize,
}

/// A row of two numbers at the front of a text, and how many bytes it takes including its end.
#[derive(Clone, Copy)]
pub struct FrontPair {
    pub first: u32,
    pub second: u32,
    pub taken: usize,
}

/// The row of two numbers at the front of a text, if a plain line there is one.
#[inline(always)]
pub fn pair_at(text: &[u8]) -> Option<FrontPair>
    ensures { IfSome result (λ found. IsRowAt (IsPair (found.first, found.second)) text.now found.taken) }
{
    let first = number_at(text)?;
    if !is_at(text, first.digits, b',') {
        return None;
    }
    let rest = &text[first.digits + 1..];
    let second = number_at(rest)?;
    if !is_at(rest, second.digits, b'\n') {
        return None;
    }
    Some(FrontPair {
        first: first.number,
        second: second.number,
        taken: first.digits + second.digits + 2,
    })
}

/// How many bytes the row of this number and this line takes, including its end, if a plain line at the front of a text is that row.
#[inline(always)]
pub fn numbered_at(text: &[u8], number: u32, line: &[u8]) -> Option<usize>
    requires plain { All IsPlain line.now }
    ensures { IfSome result (λ taken. IsRowAt (IsNumbered number line.now) text.now taken) }
{
    let first = number_at(text)?;
    if first.number != number {
        return None;
    }
    if !is_at(text, first.digits, b',') {
        return None;
    }
    let rest = &text[first.digits + 1..];
    if !is_at(rest, line.len(), b'\n') {
        return None;
    }
    if !begins_with(rest, line) {
        return None;
    }
    Some(first.digits + line.len() + 2)
}

// The number at the front of a text, if canonical decimal comes first. Not all of its digits are taken if it has more than nine.
#[inline(always)]
fn number_at(text: &[u8]) -> Option<FrontNumber>
    ensures { IfSome result (λ found. IsNumberAt text.now found.number found.digits) }
{
    let mut number: u32 = 0;
    let mut digits = 0;
    'digits: while digits < text.len() && number < GREAT && text[digits].is_ascii_digit() {
        number = number * 10 + (text[digits] - b'0') as u32;
        digits += 1;
    }
    if digits == 0 || has_spare_zero(text, digits) {
        return None;
    }
    Some(FrontNumber { number, digits })
}

// Whether these many digits at the front of a text, more than one, begin with a zero.
#[inline(always)]
fn has_spare_zero(text: &[u8], digits: usize) -> bool
    requires { digits ≤ length text.now }
    ensures { result ≡ false → 1 < digits → slice_index text.now 0 ≢ 48 }
{
    digits > 1 && text[0] == b'0'
}

// Whether a text has this byte at this place.
#[inline(always)]
fn is_at(text: &[u8], place: usize, byte: u8) -> bool
    ensures within { result ≡ true → place < length text.now }
    ensures is { result ≡ true → slice_index text.now place ≡ byte }
{
    place < text.len() && text[place] == byte
}

// Whether a text, which is longer than a line, begins with it.
#[inline(always)]
fn begins_with(text: &[u8], line: &[u8]) -> bool
    ensures { result ≡ true → take (length line.now) text.now ≡ line.now }
{
    text.starts_with(line)
}
