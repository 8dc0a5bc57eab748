// The lines of an answer below a picture, wrapped.

use crate::html::PageTexts;
use std::alloc::{AllocError, Global};
use std::mem;

/// The most bytes of a line. A single word that is longer is not cut.
const LONGEST_LINE: usize = 150;

/// What the rest of a wrapped line begins with.
const INDENT: &str = "        ";

/// The line of the answer and what explains it, as lines of at most this many bytes where spaces allow it.
pub(crate) fn wrapped_lines(
    alloc: Global,
    texts: &PageTexts<'_>,
) -> Result<Vec<String>, AllocError> {
    let mut lines = Vec::new(alloc);
    add_wrapped(alloc, &mut lines, texts.line)?;
    for line in texts.explanation.split('\n') {
        add_wrapped(alloc, &mut lines, line)?;
    }
    Ok(lines)
}

/// The number of bytes of the longest of these lines.
pub(crate) fn longest(lines: &[String]) -> usize {
    let mut most = 0;
    for line in lines {
        most = most.max(line.len());
    }
    most
}

// Adds a line to these, in as many lines as it needs.
fn add_wrapped(alloc: Global, lines: &mut Vec<String>, text: &str) -> Result<(), AllocError> {
    let mut line = String::new(alloc);
    for (number, word) in text.split(' ').enumerate() {
        if number > 0 && line.len().saturating_add(word.len()) >= LONGEST_LINE {
            let full = mem::replace(&mut line, String::from_str(alloc, INDENT)?);
            lines.push(full)?;
        } else if number > 0 {
            line.push(' ')?;
        }
        line.push_str(word)?;
    }
    lines.push(line)?;
    Ok(())
}
