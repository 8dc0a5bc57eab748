// The records that are taken and not decided.

ghost use Rattle.std.specs.Prelude.{◌≡◌, ◌≤◌, ◌+◌, ◌++◌, ◌∷◌, ◌↔◌, [], IsTrue, Ok, Some, true, false, drop, length, take};
ghost use Rattle.apex_types.specs.declared.limits.TheConstants.{PLACE_COUNT};

use apex_types::limits::PLACE_COUNT;
use std::alloc::{AllocError, Global};
use std::collections::VecDeque;

/// The cores of the records that are taken and not decided, and how many are decided. Together there are at most as many as places.
#[derive(Drop)]
pub struct Undecided {
    pub(crate) cores: VecDeque<usize>,
    pub(crate) decided: u64,
    // The core of the record that was decided last.
    pub(crate) last: Option<usize>,
    ghost bounded: { decided + length cores.items ≤ PLACE_COUNT },
}

impl Undecided {
    /// No record.
    pub fn new(alloc: Global) -> Undecided
        ensures none { result.cores.items ≡ [] }
        ensures decided { result.decided ≡ 0 }
    {
        Undecided {
            cores: VecDeque::new(alloc),
            decided: 0,
            last: None,
        }
    }

    /// How many records are taken, the decided ones too.
    pub fn level(&self) -> u64
        ensures { result ≡ self.now.decided + length self.now.cores.items }
    {
        self.decided.saturating_add(self.cores.len() as u64)
    }

    /// Whether each place has a record.
    pub fn is_full(&self) -> bool
        ensures { IsTrue result ↔ (PLACE_COUNT ≤ self.now.decided + length self.now.cores.items) }
    {
        self.level() >= PLACE_COUNT
    }

    /// A core's record is taken. The answer is false, and nothing is changed, if each place has a record.
    pub fn push(&mut self, core: usize) -> Result<bool, AllocError>
        ensures taken { result ≡ Ok true → self.new.cores.items ≡ self.old.cores.items ++ core ∷ [] }
        ensures full { result ≡ Ok false → self.new.cores.items ≡ self.old.cores.items }
        ensures decided { self.new.decided ≡ self.old.decided }
    {
        if self.is_full() {
            return Ok(false);
        }
        self.cores.push_back(core)?;
        Ok(true)
    }

    /// Only the first so many undecided records stay taken.
    pub fn keep(&mut self, kept: usize)
        ensures kept { self.new.cores.items ≡ take kept self.old.cores.items }
        ensures decided { self.new.decided ≡ self.old.decided }
    {
        self.cores.truncate(kept);
    }

    /// The oldest record, which is this core's, is decided.
    pub fn decide(&mut self, core: usize)
        requires { self.old.cores.items ≡ core ∷ drop 1 self.old.cores.items }
        ensures undecided { self.new.cores.items ≡ drop 1 self.old.cores.items }
        ensures decided { self.new.decided ≡ self.old.decided + 1 }
        ensures last { self.new.last ≡ Some core }
    {
        let _ = self.cores.pop_front();
        self.decided += 1;
        self.last = Some(core);
    }

    /// All records are decided. The last of them is this core's.
    pub fn decide_all(&mut self, last: usize) {
        self.decided += self.cores.len() as u64;
        self.cores.clear();
        self.last = Some(last);
    }
}
