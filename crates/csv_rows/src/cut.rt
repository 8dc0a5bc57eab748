// The front of a text, cut at its commas.

ghost use Rattle.std.specs.Prelude.{◌≡◌, ◌≢◌, ◌<◌, ◌≤◌, ◌+◌, ◌↔◌, ℕ, [], IfOk, IfSome, None, length, slice_index, take};
ghost use Rattle.std.specs.Int.{bit_at};
ghost use Rattle.csv_rows.specs.Line.{IsPlain, is_special as is_special_of, split};
ghost use Rattle.csv_rows.specs.Pieces.{AreEnds, IsLookedAt, IsSeen, StopsAt, pieces_from};

use std::alloc::AllocError;
use std::simd::prelude::*;

// How many bytes are looked at together.
const RUN: usize = 32;

// The mark after those of a run, which a search for the first mark finds where the run has none.
const END_OF_RUN: u64 = 1 << RUN;

/// Notes where the fields of the plain front of a text end, and answers with the place where the front does: that of the first quote,
/// carriage return or line feed, or the end of the text.
pub fn cut_front(text: &[u8], ends: &mut Vec<usize>) -> Result<usize, AllocError>
    requires { ends.old.items ≡ [] }
    ensures stops { IfOk result (λ stop. StopsAt text.now stop) }
    ensures ends { IfOk result (λ stop. AreEnds 0 ends.new.items stop) }
    ensures fields { IfOk result (λ stop. pieces_from 0 ends.new.items (take stop text.now) ≡ split (take stop text.now)) }
{
    let stop = note_commas(text, ends)?;
    ends.push(stop)?;
    Ok(stop)
}

// Notes the commas of the plain front of a text, and answers with the place where it ends. Only at the end of a text, where fewer than
// 32 bytes are left, is each byte looked at by itself.
#[inline(always)]
fn note_commas(text: &[u8], ends: &mut Vec<usize>) -> Result<usize, AllocError>
    requires { ends.old.items ≡ [] }
    ensures stops { IfOk result (λ stop. StopsAt text.now stop) }
    ensures seen { IfOk result (λ stop. IsSeen text.now ends.new.items stop) }
{
    let mut at = 0;
    'runs: while text.len() - at >= RUN {
        if let Some(stop) = note_run(text, at, ends)? {
            return Ok(stop);
        }
        at += RUN;
    }
    note_rest(text, at, ends)
}

// The same of the next 32 bytes: the place where the front ends, if it is one of them. Most bytes of a row are digits and letters. One mask
// finds where the front ends and another the commas before that, so no test of a byte is left in the loop over the commas.
#[inline(always)]
fn note_run(text: &[u8], at: usize, ends: &mut Vec<usize>) -> Result<Option<usize>, AllocError>
    requires room { at + 32 ≤ length text.now }
    requires seen { IsSeen text.now ends.old.items at }
    ensures stops { IfOk result (λ found. IfSome found (λ stop. StopsAt text.now stop)) }
    ensures seen { IfOk result (λ found. IfSome found (λ stop. IsSeen text.now ends.new.items stop)) }
    ensures passed { IfOk result (λ found. found ≡ None → IsSeen text.now ends.new.items (at + 32)) }
{
    ends.try_reserve(RUN)?;
    let plain = plain_count(text, at);
    let mut place = at;
    let mut left = marks_before(marks_of(text, at, b','), plain);
    'marks: while left != 0 {
        let passed = lowest(left);
        place += passed;
        ends.push_reserved(place);
        place += 1;
        left = shifted_down(left, passed + 1);
    }
    if plain < RUN {
        return Ok(Some(at + plain));
    }
    Ok(None)
}

// The same of the bytes from a place on, one by one.
fn note_rest(text: &[u8], at: usize, ends: &mut Vec<usize>) -> Result<usize, AllocError>
    requires { IsSeen text.now ends.old.items at }
    ensures stops { IfOk result (λ stop. StopsAt text.now stop) }
    ensures seen { IfOk result (λ stop. IsSeen text.now ends.new.items stop) }
{
    for place in at..text.len() {
        if stops_at(text, place, ends)? {
            return Ok(place);
        }
    }
    Ok(text.len())
}

// Notes the byte at this place if it is a comma, and answers whether the front of the text ends there.
#[inline(always)]
fn stops_at(text: &[u8], place: usize, ends: &mut Vec<usize>) -> Result<bool, AllocError>
    requires within { place < length text.now }
    requires seen { IsSeen text.now ends.old.items place }
    ensures { IfOk result (λ stops. IsLookedAt text.now ends.new.items place stops) }
{
    let byte = text[place];
    if byte == b',' {
        ends.push(place)?;
        return Ok(false);
    }
    Ok(is_special(byte))
}

// Whether a byte is a quote, a carriage return or a line feed.
#[inline(always)]
fn is_special(byte: u8) -> bool
    ensures { result ≡ is_special_of byte }
{
    byte == b'"' || byte == b'\r' || byte == b'\n'
}

// How many of the next 32 bytes are before the first that is a quote, a carriage return or a line feed.
#[inline(always)]
fn plain_count(text: &[u8], at: usize) -> usize
    requires { at + 32 ≤ length text.now }
    ensures most { result ≤ 32 }
    ensures plain { (k : ℕ) → k < result → IsPlain (slice_index text.now (at + k)) }
    ensures special { result < 32 → ¬ IsPlain (slice_index text.now (at + result)) }
{
    let quotes = marks_of(text, at, b'"');
    let returns = marks_of(text, at, b'\r');
    let feeds = marks_of(text, at, b'\n');
    lowest(quotes | returns | feeds | END_OF_RUN)
}

// The marks of those of the next 32 bytes that are this one.
#[inline(always)]
fn marks_of(text: &[u8], at: usize, byte: u8) -> u64
    requires { at + 32 ≤ length text.now }
    ensures { (k : ℕ) → (bit_at result k ≡ 1) ↔ ((k < 32) × (slice_index text.now (at + k) ≡ byte)) }
{
    u8x32::from_slice(&text[at..])
        .simd_eq(u8x32::splat(byte))
        .to_bitmask()
}

// The marks before a place.
#[inline(always)]
fn marks_before(marks: u64, end: usize) -> u64
    requires { end < 64 }
    ensures { (k : ℕ) → (bit_at result k ≡ 1) ↔ ((k < end) × (bit_at marks k ≡ 1)) }
{
    marks & ((1 << end) - 1)
}

// The place of the first mark.
#[inline(always)]
fn lowest(marks: u64) -> usize
    requires { marks ≢ 0 }
    ensures bound { result < 64 }
    ensures set { bit_at marks result ≡ 1 }
    ensures below { (k : ℕ) → k < result → bit_at marks k ≡ 0 }
{
    marks.trailing_zeros() as usize
}

// The marks from a place on.
#[inline(always)]
fn shifted_down(marks: u64, by: usize) -> u64
    requires { by < 64 }
    ensures { (k : ℕ) → bit_at result k ≡ bit_at marks (by + k) }
{
    marks >> by
}
