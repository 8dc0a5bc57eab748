// The shares that records have of the ticks of their cores.

use crate::layout::Strip;
use apex_types::CoreId;
use run_view::CoreView;
use std::alloc::AllocError;
use view_picture::Picture;

/// Ticks, from one to another, without the last.
#[derive(Clone, Copy, Debug)]
pub(crate) struct Times {
    pub from: u64,
    pub to: u64,
}

/// The share of a record: its core, the tick, how many records of the core come before it in the tick, and how many the tick has.
#[derive(Clone, Copy, Debug)]
pub(crate) struct Share {
    pub core: CoreId,
    pub time: u64,
    pub before: u64,
    pub all: u64,
}

impl Share {
    // Whether another record shares the tick.
    fn is_with(&self, other: &Share) -> bool {
        self.core == other.core && self.time == other.time
    }
}

/// The shares of the records of a picture, in their order, up to the first record that is at no time: it is rejected or not judged, and so
/// are those after it.
pub(crate) fn shares_of(picture: &Picture) -> Result<Vec<Share>, AllocError> {
    let mut shares: Vec<Share> = Vec::new(picture.alloc());
    for column in picture.columns().iter() {
        let Some(time) = column.time else {
            break;
        };
        let mut share = Share {
            core: column.core,
            time,
            before: 0,
            all: 1,
        };
        share.before = count_before(shares.as_slice(), &share);
        shares.push(share)?;
    }
    let count = shares.len();
    for index in 0..count {
        let at = count - 1 - index;
        let all = count_all(shares.as_slice(), at);
        if let Some(share) = shares.get_mut(at) {
            share.all = all;
        }
    }
    Ok(shares)
}

// How many records come before one in its tick, by the last record of its core among those before it.
fn count_before(shares: &[Share], share: &Share) -> u64 {
    let count = shares.len();
    for index in 0..count {
        if let Some(other) = shares.get(count - 1 - index) {
            if other.is_with(share) {
                return other.before.saturating_add(1);
            }
            if other.core == share.core {
                return 0;
            }
        }
    }
    0
}

// How many records the tick of this one has, by the next record of its core, for which that is known.
fn count_all(shares: &[Share], at: usize) -> u64 {
    let Some(share) = shares.get(at) else {
        return 1;
    };
    let own = share.before.saturating_add(1);
    for index in at..shares.len() {
        if index == at {
            continue;
        }
        if let Some(other) = shares.get(index) {
            if other.is_with(share) {
                return other.all;
            }
            if other.core == share.core {
                return own;
            }
        }
    }
    own
}

/// The most records of a tick of a core.
pub(crate) fn most_of_a_tick(shares: &[Share]) -> u64 {
    let mut most = 1;
    for share in shares {
        most = most.max(share.all);
    }
    most
}

/// From which tick to which the records of a strip are, by the clocks of their cores, without the last tick.
pub(crate) fn times_in(picture: &Picture, shares: &[Share], strip: Strip) -> Times {
    let mut times: Option<Times> = None;
    for view in picture.first_cores().iter() {
        if let Some(own) = times_of_core(shares, strip, view) {
            times = match times {
                Some(times) => Some(Times {
                    from: times.from.min(own.from),
                    to: times.to.max(own.to),
                }),
                None => Some(own),
            };
        }
    }
    match times {
        Some(times) => times,
        None => Times { from: 0, to: 0 },
    }
}

/// From which tick to which the records of a core in a strip are, without the last tick. None if there are no records.
pub(crate) fn times_of_core(shares: &[Share], strip: Strip, view: &CoreView) -> Option<Times> {
    let mut times: Option<Times> = None;
    for (index, share) in shares.iter().enumerate() {
        if share.core == view.core && strip.from <= index && index < strip.to {
            let from = match times {
                Some(times) => times.from,
                None => share.time,
            };
            let to = share.time.saturating_add(1);
            times = Some(Times { from, to });
        }
    }
    times
}
