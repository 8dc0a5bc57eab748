// The last records before the place of a No or of a broken rule, with their lines.

use answer_words::{Explainer, RunFiles, name_of_core};
use record_read::Kind;
use std::alloc::AllocError;
use std::fs::Files;
use std::io::Read;

/// The most records before a place that are shown.
const MOST_EARLIER: usize = 8;

/// A record before the place of an answer. Its core has a recording.
#[derive(Clone, Copy, Debug)]
pub struct PlacedRecord {
    pub place: u64,
    pub core: u32,
    pub seq: u32,
    pub kind: &'static str,
    pub line: Option<u64>,
}

/// The last records before the place, the earliest first, as far as their lines are found with them.
pub fn earlier_records<R: Files<File = F>, F: Read + Drop>(
    files: &RunFiles<'_, R>,
    explainer: &Explainer,
) -> Result<Vec<PlacedRecord>, AllocError> {
    let mut earlier = Vec::new(files.alloc);
    for item in explainer.last() {
        let core = u32::from(item.core.number());
        if name_of_core(files.names, core).is_some() {
            earlier.push(PlacedRecord {
                place: item.place.number(),
                core,
                seq: item.seq,
                kind: name_of_kind(item.kind),
                line: None,
            })?;
        }
    }
    for (core, name) in files.names.cores.iter().enumerate() {
        add_lines(files, core, name, earlier.as_mut_slice());
    }
    Ok(earlier)
}

// Adds the lines to the records of one core, whose recording has this name. Their numbers are successive.
fn add_lines<R: Files<File = F>, F: Read + Drop>(
    files: &RunFiles<'_, R>,
    core: usize,
    name: &str,
    earlier: &mut [PlacedRecord],
) {
    let mut lines = [None; MOST_EARLIER];
    let mut index = 0usize;
    for record in earlier.iter_mut() {
        if record.core as usize != core {
            continue;
        }
        if index == 0 {
            files.find_lines(name, u64::from(record.seq), &mut lines);
        }
        record.line = match lines.get(index) {
            Some(line) => *line,
            None => None,
        };
        index = usize::saturating_add(index, 1);
    }
}

// The kind of a record, by its name in recordings.
fn name_of_kind(kind: Kind) -> &'static str {
    match kind {
        Kind::Call => "call",
        Kind::Ret => "ret",
        Kind::Disp => "disp",
        Kind::Tick => "tick",
        Kind::Arrive => "arrive",
        Kind::Depart => "depart",
        Kind::Error => "err",
    }
}
