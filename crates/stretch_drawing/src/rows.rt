// The rows of the records that are shown, read again from their files.

use answer_words::{InputNames, RunFiles, name_of_core};
use apex_types::{CoreId, Ordered};
use csv_rows::RowFields;
use std::alloc::{AllocError, Global};
use std::fs::Files;
use std::io::Read;
use view_picture::Source;

/// The rows of the records of each core.
#[derive(Drop)]
pub struct ShownRows<'a> {
    names: &'a InputNames,
    cores: Vec<CoreRows>,
}

// The rows of the records of one core, which follow one another.
#[derive(Drop)]
struct CoreRows {
    first: u64,
    rows: Vec<ShownRow>,
}

#[derive(Drop)]
struct ShownRow {
    line: u64,
    text: String,
}

impl<'a> ShownRows<'a> {
    /// The rows of these records, as far as they are found.
    pub fn find<R: Files<File = F>, F: Read + Drop>(
        rt: &R,
        alloc: Global,
        names: &'a InputNames,
        records: &[&Ordered],
    ) -> Result<ShownRows<'a>, AllocError> {
        let files = RunFiles { rt, alloc, names };
        let mut cores = Vec::new(alloc);
        for (core, name) in names.cores.iter().enumerate() {
            cores.push(core_rows(&files, core, name.as_str(), records)?)?;
        }
        Ok(ShownRows { names, cores })
    }

    /// Where the record with this number of a core is.
    pub fn source(&self, core: CoreId, seq: u32) -> Source<'_> {
        let number = core.number();
        let file = match name_of_core(self.names, u32::from(number)) {
            Some(file) => file,
            None => "",
        };
        let row = match self.cores.get(usize::from(number)) {
            Some(rows) => rows
                .rows
                .get(u64::from(seq).saturating_sub(rows.first) as usize),
            None => None,
        };
        match row {
            Some(row) => Source {
                file,
                line: Some(row.line),
                row: row.text.as_str(),
            },
            None => Source {
                file,
                line: None,
                row: "",
            },
        }
    }
}

// The rows of those of these records that are of this core, as far as they are found in its file.
fn core_rows<R: Files<File = F>, F: Read + Drop>(
    files: &RunFiles<'_, R>,
    core: usize,
    name: &str,
    records: &[&Ordered],
) -> Result<CoreRows, AllocError> {
    let numbers = numbers_of(files.alloc, core, records)?;
    let first = match numbers.first() {
        Some(first) => *first,
        None => 0,
    };
    let found = files.rows_of(name, numbers.as_slice())?;
    let mut rows = Vec::new(files.alloc);
    for row in found.iter() {
        rows.push(ShownRow {
            line: row.line,
            text: text_of(files.alloc, &row.fields)?,
        })?;
    }
    Ok(CoreRows { first, rows })
}

// The fields of a row, with commas between them.
fn text_of(alloc: Global, fields: &RowFields) -> Result<String, AllocError> {
    let mut text = String::new(alloc);
    for index in 0..fields.len() {
        if index > 0 {
            text.push_str(",")?;
        }
        if let Some(field) = fields.get(index) {
            let field = String::from_utf8_lossy(alloc, field)?;
            text.push_str(field.as_str())?;
        }
    }
    Ok(text)
}

// The numbers of those of these records that are of this core.
fn numbers_of(alloc: Global, core: usize, records: &[&Ordered]) -> Result<Vec<u64>, AllocError> {
    let mut numbers = Vec::new(alloc);
    for ordered in records {
        if usize::from(ordered.core.number()) == core {
            numbers.push(u64::from(ordered.rec.seq))?;
        }
    }
    Ok(numbers)
}
