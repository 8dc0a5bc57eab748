// The name of a file as a reference in a log.

ghost use Rattle.std.specs.Prelude.{◌≡◌, IfOk, string_bytes};
ghost use Rattle.sarif_report.specs.Reference.{reference_of, scheme_of};

use percent_encoding::{AsciiSet, NON_ALPHANUMERIC, ascii_set, utf8_percent_encode};
use std::alloc::{AllocError, Global};

// What is escaped: everything but letters, digits, the marks that need no escape, and the slashes between folders.
const ESCAPED: AsciiSet = ascii_set!(
    NON_ALPHANUMERIC
        .remove(b'-')
        .remove(b'.')
        .remove(b'_')
        .remove(b'~')
        .remove(b'/')
);

/// The reference of a file: an absolute name gets the scheme `file`, and any other name is relative.
pub fn uri_of(alloc: Global, file: &str) -> Result<String, AllocError>
    ensures { IfOk result (λ uri. string_bytes uri ≡ reference_of file.now) }
{
    let mut uri = String::from_str(alloc, scheme_of(file))?;
    utf8_percent_encode(file, ESCAPED).append_to(&mut uri)?;
    Ok(uri)
}

fn scheme_of(file: &str) -> &'static str
    ensures { result.now ≡ scheme_of file.now }
{
    if file.starts_with("/") { "file://" } else { "" }
}
