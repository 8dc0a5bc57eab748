// The records that are placed and not decided.

ghost use Rattle.std.specs.Prelude.{◌≡◌, ◌<◌, ◌++◌, ◌∷◌, [], All, IfOk, OnOk, IfSome, IfNone, length, take};

use crate::swap::RecordName;
use std::alloc::{AllocError, Global};
use std::collections::VecDeque;

/// The records that are placed and not decided, and how many records of each core are placed.
#[derive(Drop)]
pub struct Placed {
    // How many cores the module has.
    pub(crate) most: usize,
    pub(crate) cores: VecDeque<usize>,
    numbers: VecDeque<u64>,
    counts: Vec<u64>,
    ghost known: { All (λ core. core < most) cores.items },
}

impl Placed {
    /// No record, of so many cores.
    pub fn new(alloc: Global, cores: usize) -> Result<Placed, AllocError>
        ensures none { IfOk result (λ placed. placed.cores.items ≡ []) }
        ensures most { IfOk result (λ placed. placed.most ≡ cores) }
    {
        Ok(Placed {
            most: cores,
            cores: VecDeque::new(alloc),
            numbers: VecDeque::new(alloc),
            counts: vec![in alloc; 0u64; cores]?,
        })
    }

    /// How many there are.
    pub fn len(&self) -> usize
        ensures { result ≡ length self.now.cores.items }
    {
        self.cores.len()
    }

    /// How many records of a core are placed, the decided ones too.
    pub fn count(&self, core: usize) -> u64 {
        self.counts.get(core).copied().unwrap_or(0)
    }

    /// The core of the last one, and core 0 where there is none.
    pub fn last_core(&self) -> usize {
        self.cores.back().copied().unwrap_or(0)
    }

    /// The record of this index.
    pub fn get(&self, index: usize) -> Option<RecordName> {
        let core = *self.cores.get(index)?;
        let number = *self.numbers.get(index)?;
        Some(RecordName { core, number })
    }

    /// The next record of a core is placed.
    pub fn push(&mut self, core: usize) -> Result<(), AllocError>
        requires { core < self.old.most }
        ensures ok { OnOk result (self.new.cores.items ≡ self.old.cores.items ++ core ∷ []) }
        ensures most { self.new.most ≡ self.old.most }
    {
        let number = self.count(core);
        self.numbers.push_back(number)?;
        self.set_count(core, number.saturating_add(1));
        self.cores.push_back(core)?;
        Ok(())
    }

    /// The oldest record is decided: its core.
    pub fn pop_oldest(&mut self) -> Option<usize>
        ensures some { IfSome result (λ core. self.old.cores.items ≡ core ∷ self.new.cores.items) }
        ensures none { IfNone result ((self.old.cores.items ≡ []) × (self.new.cores.items ≡ [])) }
        ensures known { IfSome result (λ core. core < self.old.most) }
        ensures most { self.new.most ≡ self.old.most }
    {
        let _ = self.numbers.pop_front();
        self.cores.pop_front()
    }

    /// Only the first so many stay placed.
    pub fn keep(&mut self, kept: usize)
        ensures kept { self.new.cores.items ≡ take kept self.old.cores.items }
        ensures most { self.new.most ≡ self.old.most }
    {
        self.give_back(kept);
        self.numbers.truncate(kept);
        self.cores.truncate(kept);
    }

    // The counts before the records from an index on were placed.
    fn give_back(&mut self, kept: usize)
        ensures placed { self.new.cores ≡ self.old.cores }
        ensures most { self.new.most ≡ self.old.most }
    {
        for index in kept..self.cores.len() {
            if let Some(name) = self.get(index) {
                let count = self.count(name.core).min(name.number);
                self.set_count(name.core, count);
            }
        }
    }

    fn set_count(&mut self, core: usize, count: u64)
        ensures placed { self.new.cores ≡ self.old.cores }
        ensures most { self.new.most ≡ self.old.most }
    {
        if core < self.counts.len() {
            self.counts[core] = count;
        }
    }
}
