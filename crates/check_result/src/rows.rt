// Rows of the files of a run, read again, and the records that places of the proposed order name.

use crate::site::line_of_row;
use answer_words::{RunFiles, name_of_core};
use csv_rows::{RowFields, read_decimal};
use json_report::NamedPlace;
use std::alloc::{AllocError, Global};
use std::fs::Files;
use std::io::Read;

/// The texts of the fields of a row; none if it is not found again. What is not UTF-8 there is replaced.
pub fn fields_of_row<R: Files<File = F>, F: Read + Drop>(
    files: &RunFiles<'_, R>,
    name: &str,
    row: u64,
) -> Result<Vec<String>, AllocError> {
    let rows = files.rows_of(name, &[row])?;
    match rows.first() {
        Some(row) => texts_of(files.alloc, &row.fields),
        None => Ok(Vec::new(files.alloc)),
    }
}

// The texts of the fields of a row.
fn texts_of(alloc: Global, fields: &RowFields) -> Result<Vec<String>, AllocError> {
    let mut texts = Vec::new(alloc);
    for index in 0..fields.len() {
        if let Some(field) = fields.get(index) {
            texts.push(String::from_utf8_lossy(alloc, field)?)?;
        }
    }
    Ok(texts)
}

/// The records at these places of the proposed order, which rise: their files and lines, as far as they are found.
pub fn records_at<'a, R: Files<File = F>, F: Read + Drop>(
    files: &RunFiles<'a, R>,
    places: &[u64],
) -> Result<Vec<NamedPlace<'a>>, AllocError> {
    let mut found = Vec::new(files.alloc);
    let rows = files.rows_of(files.names.order.as_str(), places)?;
    for (place, row) in places.iter().zip(rows.iter()) {
        let Some((core, seq)) = pair_in(&row.fields) else {
            continue;
        };
        if let Some(file) = name_of_core(files.names, core) {
            let line = line_of_row(files, file, seq);
            found.push(NamedPlace {
                place: *place,
                file,
                line,
            })?;
        }
    }
    Ok(found)
}

// The core and the number of the record that a row of the certificate names.
fn pair_in(fields: &RowFields) -> Option<(u32, u64)> {
    let core = read_decimal(fields.get(0)?, u32::MAX as u64)?;
    let seq = read_decimal(fields.get(1)?, u32::MAX as u64)?;
    Some((core as u32, seq))
}
