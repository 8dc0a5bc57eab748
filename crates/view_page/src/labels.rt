// The labels of records: how much of one is shown, and how wide that is.

use crate::shapes::{ShortLabel, count_within, width_of_text};
use view_picture::Column;

/// How many characters of a slanted label are shown at most.
const LONGEST_LABEL: usize = 30;

/// The width of an average character of a slanted label that is cut.
const AVERAGE: u64 = 8;

/// The width of the sign of a fault with the space after it.
const SIGN: u64 = 14;

/// The greatest width of a level label: on a narrow screen it is whole beside the names of the lanes.
const WIDEST_LEVEL: u64 = 209;

/// What is shown of a slanted label.
pub(crate) fn slanted(record: &Column) -> ShortLabel<'_> {
    ShortLabel(record.label.as_str(), LONGEST_LABEL)
}

/// What is shown of a level label, which is that of a fault.
pub(crate) fn level(record: &Column) -> ShortLabel<'_> {
    let label = record.label.as_str();
    let room = thin(WIDEST_LEVEL - SIGN);
    let most = match label.rsplit_once(": ") {
        Some((service, outcome)) => {
            let after = width_of_text(outcome).saturating_add(width_of_text(": "));
            count_within(service, room.saturating_sub(after))
                .saturating_add(outcome.chars().count())
                .saturating_add(2)
        }
        None => count_within(label, room),
    };
    ShortLabel(label, most)
}

/// The width of a slanted label along its line.
pub(crate) fn width_of_slanted(record: &Column) -> u64 {
    let most = AVERAGE.saturating_mul(LONGEST_LABEL as u64);
    let width = width_of_text(record.label.as_str()).min(most);
    if record.status.is_fault() {
        bold(width).saturating_add(SIGN)
    } else {
        width
    }
}

/// The width of a level label.
pub(crate) fn width_of_level(record: &Column) -> u64 {
    bold(width_of_text(record.label.as_str()))
        .saturating_add(SIGN)
        .min(WIDEST_LEVEL)
}

// The width of a bold text, by the width that it has if it is not bold; and the reverse.
fn bold(width: u64) -> u64 {
    width.saturating_add(width / 8).saturating_add(1)
}

fn thin(width: u64) -> u64 {
    width.saturating_sub(1).saturating_mul(8) / 9
}
