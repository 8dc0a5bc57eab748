// Records, and the pieces as they were before them.

ghost use Rattle.std.specs.Prelude.{◌≡◌, ◌≤◌, ◌<◌, ◌+◌, List, [], ◌∷◌, OnOk, length};
ghost use Rattle.verdict_merge.specs.Rounds.{AllRun, AreGoing, parts_in};
ghost use Rattle.shown_run.specs.Kept.{IsKept, IsWhole};
ghost use Rattle.shown_run.specs.Walks.{EachRuns};

use crate::walk::{Walk, WalkFault};
use apex_types::Ordered;
use module_config::Config;
use std::alloc::Global;
use std::collections::VecDeque;

/// Records that follow one another, and the pieces as they were before the first of them.
#[derive(Drop)]
pub struct Span {
    pub before: Walk,
    pub records: VecDeque<Ordered>,
}

impl Span {
    /// No records; these pieces may judge the first one.
    pub(crate) fn new(alloc: Global, before: Walk) -> Span
        ensures before { result.before ≡ before }
        ensures records { result.records.items ≡ [] }
    {
        Span {
            before,
            records: VecDeque::new(alloc),
        }
    }

    /// Gives up the first records until there are no more than this many; the pieces take them again.
    ///
    /// `Memory` if it was refused to a piece.
    pub fn shorten(&mut self, config: &Config, most: usize) -> Result<(), WalkFault>
        requires { IsWhole config.now self.old }
        ensures kept { OnOk result ((taken : List Ordered) → IsKept config.now taken self.old.before self.old.records.items → IsKept config.now taken self.new.before self.new.records.items) }
        ensures few { OnOk result (length self.new.records.items ≤ most) }
        ensures many { OnOk result (most ≤ length self.old.records.items → most ≤ length self.new.records.items) }
    {
        'records: while self.records.len() > most {
            let Some(first) = self.records.pop_front() else {
                return Ok(());
            };
            give_up(&mut self.before, config, first)?;
        }
        Ok(())
    }
}

// Lets the pieces take a record again, which is then given up.
fn give_up(pieces: &mut Walk, config: &Config, ordered: Ordered) -> Result<(), WalkFault>
    requires going { AreGoing config.now ordered.pos pieces.old }
    requires core { ordered.core < config.now.cores }
    requires accepted { EachRuns config.now (parts_in pieces.old) (ordered ∷ []) }
    ensures going { OnOk result (AreGoing config.now (ordered.pos + 1) pieces.new) }
    ensures taken { OnOk result (AllRun config.now (parts_in pieces.old) (ordered ∷ []) (parts_in pieces.new)) }
{
    pieces.take_again(config, &ordered)
}
