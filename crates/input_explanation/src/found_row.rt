// Rows of a text, read again by the reader of rows, and the lines on which they begin.

ghost use Rattle.std.specs.Prelude.{◌≡◌, false, IfOk, IsSome};

use crate::lines::Lines;
use apex_types::Format;
use csv_rows::{CsvRows, RowFields, StreamFault, TextSource, Watched};
use record_read::format_by;
use std::alloc::{AllocError, Global};
use std::io::Read;
use std::{io, mem};

/// The most bytes of a text that are read.
const MOST_BYTES: u64 = 536_870_912;

/// A row of a text.
#[derive(Drop)]
pub struct FoundRow {
    /// The line on which it begins, counted from 1.
    pub line: u64,
    pub fields: RowFields,
    /// The format of the recording, by its first row.
    pub format: Format,
}

/// Two readers of the same text: one for its rows, and one for the lines on which they begin.
#[derive(Drop)]
pub struct TwoReaders<R> {
    pub rows: R,
    pub lines: R,
}

/// The row of a text with this number, counted from 0; None if it is not found among the first 512 MiB.
pub fn find_row<R: Read + Drop>(
    alloc: Global,
    readers: TwoReaders<R>,
    wanted: u64,
) -> Result<Option<FoundRow>, AllocError> {
    Ok(find_rows(alloc, readers, &[wanted])?.pop())
}

/// The rows of a text with these numbers, which rise: those that are found among the first 512 MiB, up to the first that is not.
pub fn find_rows<R: Read + Drop>(
    alloc: Global,
    readers: TwoReaders<R>,
    wanted: &[u64],
) -> Result<Vec<FoundRow>, AllocError> {
    let mut found = Vec::new(alloc);
    let first = wanted.first().copied().unwrap_or(0);
    let TwoReaders { mut rows, lines } = readers;
    let mut lines = Lines::new(lines.take(MOST_BYTES));
    let Some(passed) = pass_rows(alloc, &mut rows, &mut lines, first)? else {
        return Ok(found);
    };
    let mut rows = CsvRows::new(alloc, Watched::new(rows.take(passed.bytes_left())));
    let mut fields = RowFields::new(alloc);
    let mut known = passed.format;
    'rows: for number in passed.rows..u64::MAX {
        let Some(next) = wanted.get(found.len()) else {
            return Ok(found);
        };
        let Some(line) = read_row(&mut rows, &mut lines, passed.bytes, &mut fields)? else {
            return Ok(found);
        };
        let format = format_by(known, &fields);
        known = Some(format);
        if number == *next {
            let row = FoundRow {
                line,
                fields: mem::replace(&mut fields, RowFields::new(alloc)),
                format,
            };
            found.push(row)?;
        }
    }
    Ok(found)
}

/// Finds the lines, counted from 1, on which the rows from this number on begin, as many as there is room for. A row that is not among the
/// first 512 MiB has none.
pub fn find_lines<R: Read + Drop>(
    alloc: Global,
    readers: TwoReaders<R>,
    first: u64,
    found: &mut [Option<u64>],
) {
    let TwoReaders { mut rows, lines } = readers;
    let mut lines = Lines::new(lines.take(MOST_BYTES));
    let Ok(Some(passed)) = pass_rows(alloc, &mut rows, &mut lines, first) else {
        return;
    };
    let mut rows = CsvRows::new(alloc, Watched::new(rows.take(passed.bytes_left())));
    let mut fields = RowFields::new(alloc);
    'rows: for number in passed.rows..u64::MAX {
        let Ok(Some(line)) = read_row(&mut rows, &mut lines, passed.bytes, &mut fields) else {
            return;
        };
        if number >= first {
            let Some(place) = found.get_mut((number - first) as usize) else {
                return;
            };
            *place = Some(line);
        }
    }
}

// What both readers of a text have passed.
#[derive(Clone, Copy, Debug)]
struct Passed {
    rows: u64,
    bytes: u64,
    // The format of the recording, if its first row was passed.
    format: Option<Format>,
}

impl Passed {
    // How many further bytes of the text may be read.
    fn bytes_left(&self) -> u64 {
        MOST_BYTES.saturating_sub(self.bytes)
    }
}

// Passes rows, as long as each is a line by itself, up to the one before the row with this number. One row is left before it because a
// byte order mark at the beginning of what is read next is taken for that of the text.
//
// None if the text cannot be read.
fn pass_rows<R: Read, L: Read>(
    alloc: Global,
    rows: &mut R,
    lines: &mut Lines<L>,
    number: u64,
) -> Result<Option<Passed>, AllocError> {
    let most = number.saturating_sub(1);
    if lines.pass_rows(most.min(1)) == 0 {
        return Ok(Some(Passed {
            rows: 0,
            bytes: 0,
            format: None,
        }));
    }
    let begun = lines.passed();
    let Some(format) = read_format(alloc, rows.by_ref().take(begun))? else {
        return Ok(None);
    };
    let others = lines.pass_rows(most.saturating_sub(1));
    let bytes = lines.passed();
    let mut between = rows.by_ref().take(bytes.saturating_sub(begun));
    if io::copy(&mut between, &mut io::sink()).is_err() {
        return Ok(None);
    }
    Ok(Some(Passed {
        rows: others.saturating_add(1),
        bytes,
        format: Some(format),
    }))
}

// The format of a recording that begins with this row. None if it cannot be read.
fn read_format<R: Read + Drop>(alloc: Global, row: R) -> Result<Option<Format>, AllocError> {
    let mut rows = CsvRows::new(alloc, Watched::new(row));
    let mut fields = RowFields::new(alloc);
    match rows.read(&mut fields) {
        Ok(true) => Ok(Some(format_by(None, &fields))),
        Ok(false) | Err(StreamFault::Read) => Ok(None),
        Err(StreamFault::Memory) => Err(AllocError),
    }
}

// Reads the next row, and finds the line on which it begins; these bytes came before the first one that the reader of rows was given.
// None if there is no further row, or it cannot be read.
fn read_row<S: TextSource, R: Read>(
    rows: &mut CsvRows<S>,
    lines: &mut Lines<R>,
    before: u64,
    fields: &mut RowFields,
) -> Result<Option<u64>, AllocError>
    requires going { rows.old.stopped ≡ false }
    ensures going { IfOk result (λ line. IsSome line → rows.new.stopped ≡ false) }
{
    let end = before.saturating_add(rows.place());
    match rows.read(fields) {
        Ok(true) => Ok(Some(lines.first_filled(end))),
        Ok(false) | Err(StreamFault::Read) => Ok(None),
        Err(StreamFault::Memory) => Err(AllocError),
    }
}
