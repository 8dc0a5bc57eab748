// The name that a misspelt word probably means.

use std::alloc::{AllocError, Global};
use strsim::damerau_levenshtein;

/// How many bytes a word may have to be compared: a longer one is like no name.
const LONGEST: usize = 64;

/// The name among these that differs least from a word, in small or large letters, if it differs by at most a third of its length.
pub fn nearest<'a>(
    alloc: Global,
    word: &str,
    names: &[&'a str],
) -> Result<Option<&'a str>, AllocError> {
    if word.len() > LONGEST {
        return Ok(None);
    }
    let word = word.to_ascii_lowercase(alloc)?;
    let mut found: Option<(usize, &'a str)> = None;
    for name in names {
        let small = name.to_ascii_lowercase(alloc)?;
        let distance = damerau_levenshtein(alloc, word.as_str(), small.as_str())?;
        let is_near = distance <= (name.len() / 3).max(1);
        if is_near && found.is_none_or(|(least, _)| distance < least) {
            found = Some((distance, *name));
        }
    }
    match found {
        Some((_, name)) => Ok(Some(name)),
        None => Ok(None),
    }
}
