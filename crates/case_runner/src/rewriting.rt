// Recordings written in the other format.

ghost use Rattle.std.specs.Prelude.{◌≡◌, IfOk, false};
ghost use Rattle.case_runner.specs.Rewriting.{widened};

use crate::fields::{LINE_FEED, split_line};
use std::alloc::{AllocError, Global};

// How many commas a row of format 1 has.
const COMMAS: usize = 15;

/// The recordings in format 2: each row of a recording in format 1 has two more fields, which are empty. A recording whose first row does
/// not have the fields of format 1 stays as it is.
pub fn in_format_2(alloc: Global, recordings: &[Vec<u8>]) -> Result<Vec<Vec<u8>>, AllocError> {
    let mut rewritten = Vec::new(alloc);
    for recording in recordings {
        let text = if is_in_format_1(recording) {
            with_two_fields(alloc, recording)?
        } else {
            Vec::from_slice(alloc, recording)?
        };
        rewritten.push(text)?;
    }
    Ok(rewritten)
}

// Whether the first line is a row of format 1.
fn is_in_format_1(recording: &[u8]) -> bool {
    let (first, _) = split_line(recording);
    first.iter().filter(|byte| **byte == b',').count() == COMMAS
}

// The text with two empty fields at the end of each line that is not empty.
fn with_two_fields(alloc: Global, text: &[u8]) -> Result<Vec<u8>, AllocError>
    ensures { IfOk result (λ made. made.items ≡ widened false text.now) }
{
    let mut made = Vec::new(alloc);
    let mut is_filled = false;
    for byte in text {
        if *byte == LINE_FEED && is_filled {
            made.extend_from_slice(b",,")?;
        }
        is_filled = *byte != LINE_FEED;
        made.push(*byte)?;
    }
    if is_filled {
        made.extend_from_slice(b",,")?;
    }
    Ok(made)
}
