// Whether JSON escapes a character of a text.

ghost use Rattle.std.specs.Prelude.{◌≡◌, ◌+◌, ◌≤◌, length};
ghost use Rattle.std.specs.Bool.{OnTrue};
ghost use Rattle.std.specs.List.{list_any};
ghost use Rattle.json.specs.Written.{PlainBetween};
ghost use Rattle.view_trace.specs.Escapes.{is_escaped};

use std::simd::prelude::*;

/// Whether JSON escapes a character of this text. Most texts have none, and many bytes are tested at once.
pub fn has_escape(text: &str) -> bool
    ensures { result ≡ list_any is_escaped text.now }
{
    let bytes = text.as_bytes();
    if is_plain(bytes) {
        return false;
    }
    bytes
        .iter()
        .any(|byte| *byte < 32 || *byte == 34 || *byte == 92)
}

// Whether no byte is escaped, as far as groups of bytes say it. Two groups that overlap cover a short text.
fn is_plain(text: &[u8]) -> bool
    ensures { OnTrue result (PlainBetween text.now 0 (length text.now)) }
{
    if text.len() >= 16 {
        return is_plain_long(text);
    }
    text.len() >= 8 && is_plain_8(text, 0) && is_plain_8(text, text.len() - 8)
}

fn is_plain_long(text: &[u8]) -> bool
    requires { 16 ≤ length text.now }
    ensures { OnTrue result (PlainBetween text.now 0 (length text.now)) }
{
    let mut at = 0;
    while text.len() - at > 16 {
        if !is_plain_16(text, at) {
            return false;
        }
        at += 16;
    }
    is_plain_16(text, text.len() - 16)
}

#[inline(always)]
fn is_plain_16(text: &[u8], at: usize) -> bool
    requires { at + 16 ≤ length text.now }
    ensures { OnTrue result (PlainBetween text.now at (at + 16)) }
{
    let bytes = u8x16::from_slice(&text[at..]);
    (bytes.simd_eq(u8x16::splat(b'"'))
        | bytes.simd_eq(u8x16::splat(b'\\'))
        | bytes.simd_lt(u8x16::splat(32))).to_bitmask()
        == 0
}

#[inline(always)]
fn is_plain_8(text: &[u8], at: usize) -> bool
    requires { at + 8 ≤ length text.now }
    ensures { OnTrue result (PlainBetween text.now at (at + 8)) }
{
    let bytes = u8x8::from_slice(&text[at..]);
    (bytes.simd_eq(u8x8::splat(b'"'))
        | bytes.simd_eq(u8x8::splat(b'\\'))
        | bytes.simd_lt(u8x8::splat(32))).to_bitmask()
        == 0
}
