// What the width of a strip counts.

use crate::layout::LABELS;
use crate::shares::Share;

/// What the width of a strip counts.
#[derive(Clone, Copy, Debug, PartialEq, Eq)]
pub enum Scale {
    /// Records, each at its place.
    Places,
    /// Ticks. Each core has its own time, and the records of one tick share its width.
    Ticks,
}

/// The ticks that a strip shows, from one to another, without the last; and the width of a tick, in pixels like all lengths here.
#[derive(Clone, Copy, Debug)]
pub(crate) struct Ticks {
    pub from: u64,
    pub to: u64,
    pub width: u64,
}

impl Ticks {
    /// Whether a time is shown.
    pub fn has(self, time: u64) -> bool {
        self.from <= time && time < self.to
    }

    /// How many there are.
    pub fn len(self) -> u64 {
        self.to.saturating_sub(self.from)
    }

    /// Where a tick begins, or the nearer edge of the strip.
    pub fn left(self, time: u64) -> u64 {
        let count = time.min(self.to).saturating_sub(self.from);
        LABELS.saturating_add(count.saturating_mul(self.width))
    }

    /// Where the share of a record begins, and where it ends, or the nearer edge of the strip.
    pub fn begin(self, share: &Share) -> u64 {
        self.part(share, share.before)
    }

    pub fn end(self, share: &Share) -> u64 {
        self.part(share, share.before.saturating_add(1))
    }

    // Where this many records of the tick of a record end.
    fn part(self, share: &Share, count: u64) -> u64 {
        let left = self.left(share.time);
        if !self.has(share.time) {
            return left;
        }
        left.saturating_add(self.width.saturating_mul(count) / share.all.max(1))
    }
}
