// Changes in a text, line by line.

ghost use Rattle.std.specs.Prelude.{◌≤◌, IfSome, length};

use crate::fields::{line_count, split_line};
use crate::heading::Change;
use itoa::Buffer;
use std::alloc::AllocError;

/// Why a change cannot be made.
#[derive(Clone, Copy, Debug, PartialEq, Eq)]
pub enum EditFault {
    /// The text has no line of that number.
    NoSuchLine,
    /// Memory was refused.
    Memory,
}

/// Makes a change in a text, with these lines.
pub fn apply(text: &mut Vec<u8>, change: Change, lines: &[u8]) -> Result<(), EditFault> {
    match change {
        Change::Whole => {
            text.clear();
            text.extend_from_slice(lines)?;
        }
        Change::FromLine(number) => {
            let start = line_start(text, number).ok_or(EditFault::NoSuchLine)?;
            text.truncate(start);
            text.extend_from_slice(lines)?;
        }
        Change::Line(number) => replace_line(text, number, lines)?,
        Change::Times(count) => push_times(text, count, lines)?,
    }
    Ok(())
}

// Replaces a line by lines.
fn replace_line(text: &mut Vec<u8>, number: usize, lines: &[u8]) -> Result<(), EditFault> {
    let start = line_start(text, number).ok_or(EditFault::NoSuchLine)?;
    let (before, from) = text.split_at(start);
    if from.is_empty() {
        return Err(EditFault::NoSuchLine);
    }
    let (_, after) = split_line(from);
    let mut made = Vec::new(*text.allocator());
    made.extend_from_slice(before)?;
    made.extend_from_slice(lines)?;
    made.extend_from_slice(after)?;
    *text = made;
    Ok(())
}

// Appends lines to a text this many times. Each `@` in them is the number of its line.
fn push_times(text: &mut Vec<u8>, count: usize, lines: &[u8]) -> Result<(), AllocError> {
    let mut number = line_count(text);
    for _ in 0..count {
        for byte in lines {
            push_numbered(text, *byte, number)?;
            if *byte == b'\n' {
                number = number.saturating_add(1);
            }
        }
    }
    Ok(())
}

// Appends a byte to a text, or this number for `@`.
fn push_numbered(text: &mut Vec<u8>, byte: u8, number: usize) -> Result<(), AllocError> {
    if byte == b'@' {
        text.extend_from_slice(Buffer::new().format(number).as_bytes())?;
    } else {
        text.push(byte)?;
    }
    Ok(())
}

// Where the line of this number begins: for the line after the last one, at the end of the text.
#[tactic(auto, using(crate::proofs::Texts::after_is_shorter))]
fn line_start(text: &[u8], number: usize) -> Option<usize>
    ensures { IfSome result (λ start. start ≤ length text.now) }
{
    let mut left = text;
    for _ in 0..number {
        if left.is_empty() {
            return None;
        }
        let (_, rest) = split_line(left);
        left = rest;
    }
    Some(text.len() - left.len())
}

impl From<AllocError> for EditFault {
    fn from(_: AllocError) -> EditFault {
        EditFault::Memory
    }
}
