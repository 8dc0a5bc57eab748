// How the command line says to carry out a check, and how many records it requires.

ghost use Rattle.std.specs.Prelude.{◌≡◌, option_map};
ghost use Rattle.apex_types.specs.declared.limits.TheConstants.{GREATEST_OPTION};
ghost use Rattle.csv_rows.specs.Decimal.{decimal};
ghost use Rattle.check_request.specs.Settings.{least_of, settings_of};

use apex_types::limits::GREATEST_OPTION;
use csv_rows::read_decimal;
use report::Settings;

/// The depth if no `--depth` is given.
pub const USUAL_DEPTH: usize = 64;

/// The settings that the text of `--workers` gives, and that of `--depth` if there is one. None if one of them is not a number from 0 to
/// 4,294,967,295 in canonical decimal. Takes no memory.
pub fn read_settings(workers: &[u8], depth: Option<&[u8]>) -> Option<Settings>
    ensures { result ≡ settings_of workers.now (option_map (λ text. text.now) depth.entry) }
{
    let workers = read_number(workers)?;
    let depth = match depth {
        Some(text) => read_number(text)?,
        None => USUAL_DEPTH,
    };
    Some(Settings { workers, depth })
}

/// The number of records that the text of `--at-least` requires, if there is one. None if the text is not a number from 0 to 4,294,967,295
/// in canonical decimal. Takes no memory.
pub fn read_least(text: Option<&[u8]>) -> Option<Option<u64>>
    ensures { result ≡ least_of (option_map (λ text. text.now) text.entry) }
{
    match text {
        Some(text) => match read_decimal(text, GREATEST_OPTION as u64) {
            Some(least) => Some(Some(least)),
            None => None,
        },
        None => Some(None),
    }
}

// The number that a text gives.
fn read_number(text: &[u8]) -> Option<usize>
    ensures { result ≡ decimal GREATEST_OPTION text.now }
{
    match read_decimal(text, GREATEST_OPTION as u64) {
        Some(number) => Some(number as usize),
        None => None,
    }
}
