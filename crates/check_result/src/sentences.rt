// What explains an answer as a list of sentences, with the places that they name.

use crate::rows::records_at;
use answer_words::RunFiles;
use csv_rows::read_decimal;
use json_report::{NamedPlace, Sentence};
use std::alloc::{AllocError, Global};
use std::fs::Files;
use std::io::Read;
use wording::{Look, Words};

/// The most places whose records are looked for.
const MOST_PLACES: usize = 8;

/// The greatest place.
const LAST_PLACE: u64 = 4_611_686_018_427_387_903;

/// Adds the lines of these words as texts.
pub fn add_lines(alloc: Global, texts: &mut Vec<String>, words: &Words) -> Result<(), AllocError> {
    if words.is_empty() {
        return Ok(());
    }
    let shown = format!(in alloc; "{}", words.shown(Look::plain()))?;
    for line in shown.split('\n') {
        texts.push(String::from_str(alloc, line.trim())?)?;
    }
    Ok(())
}

/// These texts as sentences, each with the places that it names. The records of at most 8 places are looked for.
pub fn sentences_of<'a, R: Files<File = F>, F: Read + Drop>(
    files: &RunFiles<'a, R>,
    texts: Vec<String>,
) -> Result<Vec<Sentence<'a>>, AllocError> {
    let alloc = files.alloc;
    let mut rising = Vec::new(alloc);
    for text in texts.iter() {
        add_places(&mut rising, text)?;
    }
    rising.sort_unstable();
    let known = records_at(files, rising.as_slice())?;
    let mut sentences = Vec::new(alloc);
    for text in texts {
        let places = places_in(alloc, &text, known.as_slice())?;
        sentences.push(Sentence { text, places })?;
    }
    Ok(sentences)
}

// Adds the places that a text names, each once, if there are few.
fn add_places(places: &mut Vec<u64>, text: &str) -> Result<(), AllocError> {
    let mut follows = false;
    for word in text.split(' ') {
        if follows {
            if let Some(place) = number_at(word) {
                if places.len() < MOST_PLACES && !places.contains(&place) {
                    places.push(place)?;
                }
            }
        }
        follows = word == "place";
    }
    Ok(())
}

// Those of these places that a text names.
fn places_in<'a>(
    alloc: Global,
    text: &str,
    known: &[NamedPlace<'a>],
) -> Result<Vec<NamedPlace<'a>>, AllocError> {
    let mut named = Vec::new(alloc);
    add_places(&mut named, text)?;
    let mut places = Vec::new(alloc);
    for place in known {
        if named.contains(&place.place) {
            places.push(*place)?;
        }
    }
    Ok(places)
}

// The number with which a word begins.
fn number_at(word: &str) -> Option<u64> {
    let bytes = word.as_bytes();
    let mut length = 0usize;
    for byte in bytes {
        if !byte.is_ascii_digit() {
            break;
        }
        length = usize::saturating_add(length, 1);
    }
    read_decimal(bytes.get(..length)?, LAST_PLACE)
}
