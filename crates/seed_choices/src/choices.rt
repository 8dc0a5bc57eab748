// Random choices.

ghost use Rattle.std.specs.Prelude.{◌≡◌, ◌<◌, ◌≤◌, ◌≤ℤ◌, ◌↔◌, [], true, Contains, IfSome, IsNone, IsPermutation};

use rand::RngExt;
use rand::seq::SliceRandom;
use rand_core::SeedableRng;
use rand_pcg::Pcg32;

/// Random choices, the same ones for the same seed.
#[derive(Drop)]
pub struct Choices {
    words: Pcg32,
}

impl Choices {
    /// The choices of this seed. No contract says which they are, nor that they are the same each time: only that none of them meets a fault.
    pub fn new(seed: u64) -> Choices {
        Choices {
            words: Pcg32::seed_from_u64(seed),
        }
    }

    /// A number below this one; 0 if it is 0.
    pub fn below(&mut self, count: u64) -> u64
        ensures below { 0 < count → result < count }
        ensures least { count ≡ 0 → result ≡ 0 }
    {
        if count == 0 {
            return 0;
        }
        self.words.random_range(0..count)
    }

    /// An index of a list of this length; 0 if it is empty.
    pub fn index(&mut self, length: usize) -> usize
        ensures below { 0 < length → result < length }
        ensures least { length ≡ 0 → result ≡ 0 }
    {
        self.below(length as u64) as usize
    }

    /// A number from the first to the last one; the first if it is above the last.
    pub fn between(&mut self, first: i64, last: i64) -> i64
        ensures within { first ≤ℤ last → (first ≤ℤ result) × (result ≤ℤ last) }
        ensures first { last ≤ℤ first → result ≡ first }
    {
        if first >= last {
            return first;
        }
        self.words.random_range(first..=last)
    }

    /// Whether one of so many cases has come, which are alike: sure for 1 and for 0.
    pub fn one_in(&mut self, cases: u64) -> bool
        ensures { cases ≤ 1 → result ≡ true }
    {
        self.below(cases) == 0
    }

    /// One of these items, if there is one.
    pub fn of<T: Copy>(&mut self, items: &[T]) -> Option<T>
        ensures member { IfSome result (λ item. Contains items.now item) }
        ensures none { IsNone result ↔ (items.now ≡ []) }
    {
        let index = self.index(items.len());
        items.get(index).copied()
    }

    /// Puts these numbers into another order.
    pub fn shuffle(&mut self, numbers: &mut [u64])
        ensures { IsPermutation numbers.old numbers.new }
    {
        numbers.shuffle(&mut self.words);
    }
}
