// What stays the same of a result if other rows are added or left out.

use crate::ending::CheckEnd;
use crate::rows::fields_of_row;
use crate::site::Site;
use answer_words::RunFiles;
use json_report::sha256_of;
use program_ends::Ending;
use report::Verdict;
use std::alloc::AllocError;
use std::fs::Files;
use std::io::Read;

/// The SHA-256 of the rule of a result, its piece, and its row. The row has its service, and all its fields but its own number.
pub fn fingerprint_of<R: Files<File = F>, F: Read + Drop>(
    files: &RunFiles<'_, R>,
    ending: &Ending<CheckEnd>,
    id: &str,
    site: &Site<'_>,
) -> Result<String, AllocError> {
    let alloc = files.alloc;
    let mut text = match ending {
        Ending::Own(
            CheckEnd::Checked {
                outcome: Ok(Verdict::No { piece, .. }),
                ..
            },
        ) => format!(in alloc; "{id}\npiece={piece}\n")?,
        _ => format!(in alloc; "{id}\n\n")?,
    };
    if let Some(row) = site.row {
        let fields = fields_of_row(files, site.file, row)?;
        // The first field of a record is its number. A row of the certificate has two numbers, which are all that it says.
        let first = if fields.len() > 2 { 1 } else { 0usize };
        for (index, field) in fields.iter().enumerate() {
            if index >= first {
                text.push_str(field.as_str())?;
                text.push_str("\n")?;
            }
        }
    }
    sha256_of(alloc, text.as_bytes())
}
