// The longest beginning that ended in a dead end.

ghost use Rattle.std.specs.Prelude.{◌≤◌, length};

use crate::placed::Placed;
use std::alloc::{AllocError, Global};

/// The cores of the longest beginning that ended in a dead end, from the oldest undecided record on.
#[derive(Drop)]
pub struct Longest {
    pub(crate) cores: Vec<usize>,
}

impl Longest {
    /// No beginning.
    pub fn new(alloc: Global) -> Longest {
        Longest {
            cores: Vec::new(alloc),
        }
    }

    /// Forgets it.
    pub fn clear(&mut self) {
        self.cores.clear();
    }

    /// The placed records end in a dead end.
    pub fn keep(&mut self, placed: &Placed) -> Result<(), AllocError> {
        if placed.len() <= self.cores.len() {
            return Ok(());
        }
        self.cores.clear();
        for core in placed.cores.iter() {
            self.cores.push(*core)?;
        }
        Ok(())
    }

    /// How many records it has in common with those that are placed, from the oldest on.
    pub fn common(&self, placed: &Placed) -> usize
        ensures { result ≤ length self.now.cores.items }
    {
        let pairs = self.cores.iter().zip(placed.cores.iter());
        pairs.take_while(|pair| *pair.0 == *pair.1).count()
    }
}
