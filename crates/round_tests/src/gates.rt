// Gates at which claims wait for one another.

use std::sync::atomic::{AtomicUsize, Ordering};
use std::thread;
use verdict_merge::Gate;

/// Waits until a count has reached this number, for at most 1,000,000 yields. Returns whether it has.
pub fn reaches(count: &AtomicUsize, wanted: usize) -> bool {
    for _ in 0..1_000_000 {
        if count.load(Ordering::SeqCst) >= wanted {
            return true;
        }
        thread::yield_now();
    }
    false
}

/// Holds each claim until enough pieces of its round are claimed, as long as `reaches` waits, and counts the claims that saw them.
#[derive(Drop)]
pub struct Meeting {
    // The two pieces whose claims are held. If None, all are.
    held: Option<[usize; 2]>,
    pieces: usize,
    wanted: usize,
    claimed: AtomicUsize,
    met: AtomicUsize,
}

impl Meeting {
    /// The gate of a module with this many pieces, at which this many claims of a round must meet.
    pub fn new(pieces: usize, wanted: usize) -> Meeting {
        Meeting {
            held: None,
            pieces,
            wanted,
            claimed: AtomicUsize::new(0),
            met: AtomicUsize::new(0),
        }
    }

    /// The gate of the pieces of these two numbers, whose claims must meet.
    pub fn of_two(first: usize, second: usize) -> Meeting {
        Meeting {
            held: Some([first, second]),
            ..Meeting::new(2, 2)
        }
    }

    /// How many claims saw as many others as they had to.
    pub fn met(&self) -> usize {
        self.met.load(Ordering::SeqCst)
    }
}

impl Gate for Meeting {
    fn at_claim(&self, _worker: usize, piece: usize) {
        if self.held.is_some_and(|held| !held.contains(&piece)) {
            return;
        }
        let before = self.claimed.fetch_add(1, Ordering::SeqCst);
        // All pieces of a round are claimed before the next round begins.
        let in_round = before.checked_rem(self.pieces).unwrap_or(0);
        let wanted = (before - in_round).saturating_add(self.wanted);
        if reaches(&self.claimed, wanted) {
            self.met.fetch_add(1, Ordering::SeqCst);
        }
    }

    fn at_post(&self, _worker: usize, _piece: usize) {}
}
