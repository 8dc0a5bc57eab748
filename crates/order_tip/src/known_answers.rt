// What the pieces say of each core's next record, as far as it is known.

use order_search::Answer;
use std::alloc::{AllocError, Global};

// What is known of a core's next record.
#[derive(Clone, Copy, Debug)]
struct Known {
    // What the pieces say of it, if that is known.
    answer: Option<Answer>,
    // Whether it was rejected because of the skew.
    is_skewed: bool,
}

/// What the pieces say of each core's next record, as far as it is known.
#[derive(Drop)]
pub struct KnownAnswers {
    list: Vec<Known>,
}

impl KnownAnswers {
    /// Nothing is known of so many cores.
    ///
    /// `AllocError` if memory is refused.
    pub fn none(alloc: Global, cores: usize) -> Result<KnownAnswers, AllocError> {
        let known = Known {
            answer: None,
            is_skewed: false,
        };
        Ok(KnownAnswers {
            list: vec![in alloc; known; cores]?,
        })
    }

    /// What is known of a core's next record.
    pub fn get(&self, core: usize) -> Option<Answer> {
        self.list.get(core)?.answer
    }

    /// Notes what the pieces say of a core's next record, and whether one rejects it because of the skew.
    pub fn note(&mut self, core: usize, answer: Answer, is_skewed: bool) {
        if core < self.list.len() {
            self.list[core] = Known {
                answer: Some(answer),
                is_skewed,
            };
        }
    }

    /// Forgets what a taken record of a core may change: of that core, of every core unless no other core can tell that it was taken, and
    /// of a record that is rejected because of the skew if it is a tick.
    pub fn forget(&mut self, core: usize, is_tick: bool, is_free: bool) {
        for other in 0..self.list.len() {
            if let Some(known) = self.list.get_mut(other) {
                if other == core || !is_free || is_tick && known.is_skewed {
                    known.answer = None;
                }
            }
        }
    }

    /// Forgets everything.
    pub fn forget_all(&mut self) {
        for core in 0..self.list.len() {
            if let Some(known) = self.list.get_mut(core) {
                known.answer = None;
            }
        }
    }
}
