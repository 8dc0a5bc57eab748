// What the undecided records touched.

ghost use Rattle.std.specs.Prelude.{◌≡◌, OnOk};

use crate::tip::Tip;
use std::alloc::{AllocError, Global};
use std::collections::VecDeque;

/// How many touches are looked at, from the last one back.
const FARTHEST: usize = 20_000;

// That the record of a level touched a thing.
#[derive(Drop)]
struct Touch<Thing> {
    level: u64,
    thing: Thing,
}

/// What the undecided records touched, in their order.
#[derive(Drop)]
pub struct Touches<Thing> {
    list: VecDeque<Touch<Thing>>,
}

impl<Thing: Eq + Drop> Touches<Thing> {
    /// Nothing is touched.
    pub fn new(alloc: Global) -> Touches<Thing> {
        Touches {
            list: VecDeque::new(alloc),
        }
    }

    /// Notes what a core's next record touches, which is that of this level.
    pub fn note<T: Tip<Thing = Thing>>(
        &mut self,
        tip: &mut T,
        alloc: Global,
        level: u64,
        core: usize,
    ) -> Result<(), AllocError>
        ensures undecided { OnOk result (T.undecided tip.new ≡ T.undecided tip.old) }
        ensures decided { OnOk result (T.decided tip.new ≡ T.decided tip.old) }
        ensures input { OnOk result (T.input tip.new ≡ T.input tip.old) }
    {
        let mut things = Vec::new(alloc);
        tip.touched(core, &mut things)?;
        self.enter(level, things)
    }

    // The record of this level touches these things.
    fn enter(&mut self, level: u64, things: Vec<Thing>) -> Result<(), AllocError> {
        for thing in things {
            self.list.push_back(Touch { level, thing })?;
        }
        Ok(())
    }

    /// Forgets the records from this level on.
    pub fn keep_before(&mut self, level: u64) {
        while let Some(last) = self.list.pop_back() {
            if last.level < level {
                // It was there, so there is room for it.
                let _ = self.list.push_back(last);
                break;
            }
        }
    }

    /// Forgets the records before this level.
    pub fn forget_before(&mut self, level: u64) {
        while self.list.front().is_some_and(|first| first.level < level) {
            let _ = self.list.pop_front();
        }
    }

    /// The levels of the last records that touched one of these things, the last one first, at most so many.
    pub fn last_to_touch(
        &self,
        alloc: Global,
        things: &[Thing],
        most: usize,
    ) -> Result<Vec<u64>, AllocError> {
        let mut levels: Vec<u64> = Vec::new(alloc);
        for touch in self.list.iter().rev().take(FARTHEST) {
            if levels.len() >= most {
                break;
            }
            if things.contains(&touch.thing) && levels.last().copied() != Some(touch.level) {
                levels.push(touch.level)?;
            }
        }
        Ok(levels)
    }
}
