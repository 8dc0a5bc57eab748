// The major frame that a page of a lawful recording shows.

use crate::layout::{COLUMNS, Strip, greatest_tick};
use crate::scale::Ticks;
use crate::shares::{Share, Times, times_of_core};
use view_picture::Picture;

/// The least width of a tick in a major frame.
const LEAST_TICK: u64 = 8;

/// The records of the last major frame of which a picture shows each tick of each core, and its ticks. If there is no such frame, they are
/// those of the last one, as far as the picture shows it. None if no record is at a time.
pub(crate) fn ticks_of_frame(picture: &Picture, shares: &[Share]) -> Option<(Strip, Ticks)> {
    let known = known_times(picture, shares)?;
    let frame = picture.frame();
    let number = last_whole(&known, frame);
    let begin = number.saturating_mul(frame);
    let from = begin.max(known.first);
    let to = begin.saturating_add(frame).min(known.end);
    let strip = records_in(shares, from, to)?;
    let count = to.saturating_sub(from).max(1);
    let width = (COLUMNS / count).max(LEAST_TICK).min(greatest_tick(shares));
    Some((strip, Ticks { from, to, width }))
}

// The times of the cores: of the first record at all, from where each tick of all cores is shown, up to where it is, and the end of the last
// one.
#[derive(Clone, Copy, Debug)]
struct Known {
    first: u64,
    from: u64,
    to: u64,
    end: u64,
}

// The times that a picture shows of the cores that have records. None if there are no records.
fn known_times(picture: &Picture, shares: &[Share]) -> Option<Known> {
    let all = Strip {
        from: 0,
        to: shares.len(),
    };
    let mut known: Option<Known> = None;
    for view in picture.first_cores().iter() {
        if let Some(times) = times_of_core(shares, all, view) {
            let whole = if times.from > view.time || is_from_start(picture) {
                times.from
            } else {
                times.from.saturating_add(1)
            };
            known = Some(known_with(known, times, whole));
        }
    }
    known
}

// The times of the cores with those of one more, whose ticks are shown as wholes from this one on.
fn known_with(known: Option<Known>, times: Times, whole: u64) -> Known {
    match known {
        Some(known) => Known {
            first: known.first.min(times.from),
            from: known.from.max(whole),
            to: known.to.min(times.to),
            end: known.end.max(times.to),
        },
        None => Known {
            first: times.from,
            from: whole,
            to: times.to,
            end: times.to,
        },
    }
}

// Whether a picture has the first record of its recording. Otherwise the first tick of a core may have records before it.
fn is_from_start(picture: &Picture) -> bool {
    match picture.columns().first() {
        Some(first) => first.place.number() == 0,
        None => true,
    }
}

// The number of the last major frame that is known as a whole, or of the last one that has begun on all cores.
fn last_whole(known: &Known, frame: u64) -> u64 {
    let frame = frame.max(1);
    let ended = known.to / frame;
    let whole = ended.saturating_sub(1);
    if ended > 0 && whole.saturating_mul(frame) >= known.from {
        whole
    } else {
        known.to.saturating_sub(1) / frame
    }
}

// The records from the first to the last one of these times. None if there are none.
fn records_in(shares: &[Share], from: u64, to: u64) -> Option<Strip> {
    let mut strip: Option<Strip> = None;
    for (index, share) in shares.iter().enumerate() {
        if from <= share.time && share.time < to {
            let first = match strip {
                Some(strip) => strip.from,
                None => index,
            };
            strip = Some(Strip {
                from: first,
                to: index.saturating_add(1),
            });
        }
    }
    strip
}
