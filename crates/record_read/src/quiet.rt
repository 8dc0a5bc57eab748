// The rows of ticks that end no wait.

ghost use Rattle.std.specs.Prelude.{◌≡◌, All};
ghost use Rattle.csv_rows.specs.Line.{IsPlain};
ghost use Rattle.record_read.specs.Quiet.{quiet_line as quiet_line_of};

use apex_types::Format;

/// What comes after the number and its comma in the row of a tick that ends no wait: most rows of most recordings are such.
pub fn quiet_line(format: Format) -> &'static [u8]
    ensures line { result.now ≡ quiet_line_of format }
    ensures plain { All IsPlain result.now }
{
    match format {
        Format::One => b"tick,,,,,,,,,,,,,,",
        Format::Two => b"tick,,,,,,,,,,,,,,,,",
        Format::Three => b"tick,,,,,,,,,,,,,,,,,",
    }
}
