// What a search shows while it goes on, and what is noted of it.

use crate::noted::Noted;
use apex_types::{Cause, Ordered};
use module_config::Config;
use order_tip::Watcher;
use piece_check::Piece;
use program_ends::ProgressLine;
use std::alloc::Global;
use std::rt::Clock;

/// How many calls there are between two looks at the clock.
const CALLS: u64 = 1_024;

/// What a person learns of a search: its progress, which is shown at once, and what is noted for the words at its end.
#[derive(Drop)]
pub struct Seen<'a, R> {
    progress: ProgressLine<'a, R>,
    // How many calls there were since the last look at the clock.
    calls: u64,
    /// What is noted.
    pub noted: Noted,
}

impl<'a, R: Clock + Eprint> Seen<'a, R> {
    /// Nothing yet. The progress is shown if that is requested.
    pub fn new(rt: &'a R, alloc: Global, wants_progress: bool) -> Seen<'a, R> {
        Seen {
            progress: ProgressLine::new(rt, wants_progress),
            calls: 0,
            noted: Noted::new(alloc),
        }
    }

    /// Clears the progress that is shown, before other text follows.
    pub fn clear(&self) {
        self.progress.clear();
    }
}

impl<'a, R: Clock + Eprint> Watcher for Seen<'a, R> {
    fn decided(&mut self, count: u64) {
        self.calls = self.calls.saturating_add(1);
        if self.calls >= CALLS {
            self.calls = 0;
            self.progress.show(count);
        }
    }

    fn rejected(&mut self, config: &Config, piece: &Piece, ordered: &Ordered, cause: Cause) {
        self.noted.note_rejected(config, piece, ordered, cause);
    }
}
