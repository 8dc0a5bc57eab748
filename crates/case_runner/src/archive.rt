// An archive: a text in sections, each under a line `-- HEADING --`.

ghost use Rattle.std.specs.Prelude.{◌≡◌, ◌++◌, ◌≤◌, IfSome, codes, length};

use crate::fields::split_line;
use std::alloc::{AllocError, Global};

/// A section of an archive.
#[derive(Clone, Copy, Debug)]
pub struct Section<'a> {
    /// What is between the dashes of its heading.
    pub heading: &'a [u8],
    /// The lines under the heading, up to the next one. Empty lines at their end are not part of it.
    pub body: &'a [u8],
}

/// The sections of an archive, in its order. What comes before the first heading is a comment.
#[tactic(auto, using(crate::proofs::Texts::after_is_shorter))]
pub fn sections(alloc: Global, archive: &[u8]) -> Result<Vec<Section<'_>>, AllocError> {
    let mut found = Vec::new(alloc);
    let (_, mut left) = up_to_heading(archive);
    while !left.is_empty() {
        let (line, below) = split_line(left);
        let (body, rest) = up_to_heading(below);
        if let Some(heading) = heading_of(line) {
            let body = without_empty_end(body);
            found.push(Section { heading, body })?;
        }
        left = rest;
    }
    Ok(found)
}

// The heading that a line is.
fn heading_of(line: &[u8]) -> Option<&[u8]>
    ensures { IfSome result (λ heading. line.now ≡ codes "-- " ++ heading.now ++ codes " --") }
{
    match line {
        [b'-', b'-', b' ', heading @ .., b' ', b'-', b'-'] => Some(heading),
        _ => None,
    }
}

// The lines before the first heading, and the text from there on.
#[tactic(auto, using(crate::proofs::Texts::after_is_shorter))]
fn up_to_heading(text: &[u8]) -> (&[u8], &[u8])
    ensures { text.now ≡ result.0.now ++ result.1.now }
{
    let mut left = text;
    while !left.is_empty() {
        let (line, rest) = split_line(left);
        if heading_of(line).is_some() {
            break;
        }
        left = rest;
    }
    text.split_at(text.len() - left.len())
}

// The lines without the empty ones at their end.
fn without_empty_end(lines: &[u8]) -> &[u8] {
    match lines.iter().rposition(|byte| *byte != b'\n') {
        Some(last) => lines.get(..last + 2).unwrap_or(lines),
        None => &[],
    }
}
