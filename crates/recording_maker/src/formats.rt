// The formats of recordings, which their first rows give.

ghost use Rattle.std.specs.Prelude.{◌≡◌, true, false, All, IfOk};
ghost use Rattle.recording_maker.specs.Formats.{IsInFormat};

use apex_types::Format;
use csv_rows::{CsvRows, RowFields};
use record_read::format_by;
use std::alloc::{AllocError, Global};

/// Whether each of these recordings is in this format.
///
/// `AllocError` if memory is refused.
pub fn are_in_format(
    alloc: Global,
    format: Format,
    recordings: &[Vec<u8>],
) -> Result<bool, AllocError>
    ensures yes { IfOk result (λ are. are ≡ true → All (λ recording. IsInFormat format recording.items) recordings.now) }
    ensures no { IfOk result (λ are. are ≡ false → All (λ recording. IsInFormat format recording.items) recordings.now → ⊥) }
{
    for recording in recordings {
        if !is_in_format(alloc, format, recording)? {
            return Ok(false);
        }
    }
    Ok(true)
}

// Whether a recording is in this format. One without a row is in any.
#[tactic(auto, using(crate::proofs::Begins::begins_in, crate::proofs::Begins::begins_nowhere))]
fn is_in_format(alloc: Global, format: Format, recording: &[u8]) -> Result<bool, AllocError>
    ensures yes { IfOk result (λ is. is ≡ true → IsInFormat format recording.now) }
    ensures no { IfOk result (λ is. is ≡ false → IsInFormat format recording.now → ⊥) }
{
    let mut fields = RowFields::new(alloc);
    let mut rows = CsvRows::new(alloc, recording);
    match rows.read(&mut fields) {
        Ok(true) => Ok(format_by(None, &fields) == format),
        Ok(false) => Ok(true),
        Err(_) => Err(AllocError),
    }
}
