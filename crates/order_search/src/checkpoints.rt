// The machine as it was after some of the undecided records.

use crate::tip_state::TipState;
use std::alloc::{AllocError, Global};

/// The most checkpoints that are kept.
const MOST_CHECKPOINTS: usize = 20;

/// How many records are taken between two checkpoints.
const BETWEEN_CHECKPOINTS: u64 = 512;

/// By how much the gap is scaled before it is divided by the distance.
const SCALE: u64 = 1_024;

/// The machine as it was after so many records.
#[derive(Drop)]
pub struct Checkpoint<'a> {
    /// How many records of all cores it had taken.
    pub level: u64,
    pub state: TipState<'a>,
}

/// The checkpoints, the oldest first: many of the last records, and fewer of the earlier ones.
#[derive(Drop)]
pub struct Checkpoints<'a> {
    list: Vec<Checkpoint<'a>>,
    // How many records were taken since the last one was kept, or gone back to.
    since_last: u64,
}

impl<'a> Checkpoints<'a> {
    /// None.
    pub fn new(alloc: Global) -> Checkpoints<'a> {
        Checkpoints {
            list: Vec::new(alloc),
            since_last: 0,
        }
    }

    /// Whether one more is to be kept: there is none, or the last one is not recent. If not, one more record is counted.
    pub fn is_due(&mut self) -> bool {
        if self.list.is_empty() || self.since_last >= BETWEEN_CHECKPOINTS {
            return true;
        }
        self.since_last = self.since_last.saturating_add(1);
        false
    }

    /// The last one.
    pub fn last(&self) -> Option<&Checkpoint<'a>> {
        self.list.last()
    }

    /// Keeps one more, of the tip. So many records are decided.
    ///
    /// `AllocError` if memory is refused.
    pub fn keep(&mut self, checkpoint: Checkpoint<'a>, decided: u64) -> Result<(), AllocError> {
        self.since_last = 0;
        let tip = checkpoint.level;
        self.list.push(checkpoint)?;
        self.forget_before(decided);
        if self.list.len() > MOST_CHECKPOINTS {
            if let Some(index) = self.least_useful(tip) {
                if index < self.list.len() {
                    drop(self.list.remove(index));
                }
            }
        }
        Ok(())
    }

    /// Forgets those after this level, to go back to the last one.
    pub fn forget_after(&mut self, level: u64) {
        self.since_last = 0;
        while self.list.last().is_some_and(|last| last.level > level) {
            let _ = self.list.pop();
        }
    }

    // Forgets those to which the machine never goes back: the next one is at most at the last decided record.
    fn forget_before(&mut self, decided: u64) {
        while self.list.len() > 1 && self.list[1].level <= decided {
            drop(self.list.remove(0));
        }
    }

    // The one, neither the first nor the last, whose neighbours are nearest to each other for its distance from the tip.
    fn least_useful(&self, tip: u64) -> Option<usize> {
        let mut found: Option<usize> = None;
        let mut least = u64::MAX;
        for index in 1..self.list.len().saturating_sub(1) {
            let score = self.score(index, tip);
            if score < least {
                least = score;
                found = Some(index);
            }
        }
        found
    }

    // How much one is missed: the gap between its neighbours, for its distance from the tip.
    fn score(&self, index: usize, tip: u64) -> u64 {
        let here = self.level(index);
        let after = self.level(index.saturating_add(1));
        let gap = after.saturating_sub(self.level(index.saturating_sub(1)));
        let distance = tip.saturating_sub(here).saturating_add(1);
        gap.saturating_mul(SCALE) / distance
    }

    // The level of one.
    fn level(&self, index: usize) -> u64 {
        match self.list.get(index) {
            Some(checkpoint) => checkpoint.level,
            None => 0,
        }
    }
}
