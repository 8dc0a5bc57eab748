// The format of a recording, by its first row.

ghost use Rattle.std.specs.Prelude.{◌≡◌};
ghost use Rattle.std.specs.Option.{unwrap_or};
ghost use Rattle.record_read.specs.Format.{begun_by};

use apex_types::Format;
use csv_rows::RowFields;

/// The known format of the recording, or, if this is its first row, the one that the row gives.
pub fn format_by(known: Option<Format>, fields: &RowFields) -> Format
    ensures { result ≡ unwrap_or known (begun_by fields.now) }
{
    match known {
        Some(format) => format,
        None => format_begun_by(fields),
    }
}

// The format of a recording that begins with this row.
fn format_begun_by(fields: &RowFields) -> Format
    ensures { result ≡ begun_by fields.now }
{
    if fields.len() == Format::Three.field_count() {
        Format::Three
    } else if fields.len() == Format::Two.field_count() {
        Format::Two
    } else {
        Format::One
    }
}
