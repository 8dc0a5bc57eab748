// What a person sees of a check while it runs.

use crate::awaited::Awaited;
use apex_types::limits::LARGEST_ROUND;
use program_ends::ProgressLine;
use report::Gate;
use std::rt::Clock;
use std::sync::atomic::{AtomicU64, Ordering};
use std::sync::{Arc, Wait};

/// The piece that is claimed once in each round: the module.
const MODULE: usize = 0;

/// How far a check has come, and the files that may hold it up once the answer is known.
///
/// It sees the rounds begin. All of them but the last have the same number of records.
#[derive(Drop)]
pub struct Course<'a, R> {
    rt: &'a R,
    progress: ProgressLine<'a, R>,
    rounds: AtomicU64,
    files: Option<Arc<Awaited>>,
}

impl<'a, R: Clock + Eprint> Course<'a, R> {
    /// The course of a check of these files that begins now. Its progress is shown if that is wanted.
    pub fn new(rt: &'a R, is_wanted: bool, files: Option<Arc<Awaited>>) -> Course<'a, R> {
        Course {
            rt,
            progress: ProgressLine::new(rt, is_wanted),
            rounds: AtomicU64::new(0),
            files,
        }
    }

    /// Clears what is shown, before other text is shown.
    pub fn clear(&self) {
        self.progress.clear();
    }
}

impl<R: Clock + Eprint + Wait> Gate for Course<'_, R> {
    fn at_claim(&self, _worker: usize, piece: usize) {
        if piece == MODULE {
            let rounds = self.rounds.fetch_add(1, Ordering::SeqCst);
            let records = rounds.saturating_mul(LARGEST_ROUND as u64);
            self.progress.show(records);
        }
    }

    fn at_post(&self, _worker: usize, _piece: usize) {}

    fn at_answer(&self) {
        self.progress.clear();
        if let Some(files) = &self.files {
            files.know(self.rt);
        }
    }
}
