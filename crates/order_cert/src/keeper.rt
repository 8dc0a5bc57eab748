// The keeper of a proposed order.

ghost use Rattle.std.specs.Prelude.{◌≡◌, ◌<◌, ◌≤◌, ◌↔◌, ◌++◌, ◌∷◌, [], ℕ, suc, List, Some, None, IfOk, IfErr, OnOk, OnErr, IsOk, length, slice_index};
ghost use Rattle.apex_types.specs.declared.limits.TheConstants.{MOST_CORES};
ghost use Rattle.apex_types.specs.declared.record.Pair.{Pair};
ghost use Rattle.order_cert.specs.Kept.{Follows, put, taken_of, none_taken, place_of};
ghost use Rattle.order_cert.specs.Order.{IsLawfulOrder, IsPrefixOfLawful, misplaced, pair_of};

use crate::fault::OrderFault;
use apex_types::Place;
use apex_types::limits::{MOST_CORES, MOST_RECORDS};
use std::marker::Model;

/// How many records of each core the pairs so far have named.
#[derive(Drop)]
pub struct Keeper {
    counts: [u32; MOST_CORES],
    cores: u8,
    total: u64,
}

impl Model for Keeper {
    ghost use Rattle.std.specs.Prelude.{◌≡◌, ◌≤◌, sum};
    ghost use Rattle.apex_types.specs.declared.limits.TheConstants.{MOST_CORES};
    ghost use Rattle.order_cert.specs.Kept.{Kept, AreCounts};

    ghost Value = { Kept };

    ghost view = { λ keeper. record { cores = keeper.cores; counts = keeper.counts } };

    ghost invariant = { λ keeper. (keeper.cores ≤ MOST_CORES) × (keeper.total ≡ sum keeper.counts) × AreCounts keeper.counts };
}

impl Keeper {
    /// A keeper for this many cores, before the first pair. Takes no memory.
    pub fn new(cores: u8) -> Keeper
        requires some { 1 ≤ cores }
        requires few { cores ≤ MOST_CORES }
        ensures cores { result.cores ≡ cores }
        ensures taken { taken_of result ≡ none_taken }
        ensures place { place_of result ≡ 0 }
        ensures follows { Follows result [] }
    {
        Keeper {
            counts: [0; MOST_CORES],
            cores,
            total: 0,
        }
    }

    /// Takes the pair of this core and this number, if it may come next, and returns its place. Takes no memory.
    ///
    /// NoSuchCore if the module has no such core, Repeated if the number was taken before, Skipped if it is above the core's next one; a
    /// core that has 4,294,967,295 records has no next one. A refusal changes nothing.
    pub fn take(&mut self, core: u32, seq: u64) -> Result<Place, OrderFault>
        ensures cores { self.new.cores ≡ self.old.cores }
        ensures refused { IfErr result (λ fault. misplaced self.old.cores (taken_of self.old) (pair_of core seq) ≡ Some fault) }
        ensures unchanged { OnErr result (self.new ≡ self.old) }
        ensures fits { OnOk result (misplaced self.old.cores (taken_of self.old) (pair_of core seq) ≡ None) }
        ensures within { OnOk result (core < self.old.cores) }
        ensures place { IfOk result (λ place. place ≡ place_of self.old) }
        ensures next { OnOk result (place_of self.new ≡ suc (place_of self.old)) }
        ensures taken { OnOk result (taken_of self.new ≡ put (taken_of self.old) core (suc (taken_of self.old core))) }
        ensures follows { IfOk result (λ place. (pairs : List Pair) → Follows self.old pairs → (place ≡ length pairs) × Follows self.new (pairs ++ pair_of core seq ∷ [])) }
        ensures unlawful { OnErr result ((pairs : List Pair) → Follows self.old pairs → ¬ IsPrefixOfLawful self.old.cores (pairs ++ pair_of core seq ∷ [])) }
    {
        if core >= self.cores as u32 {
            return Err(OrderFault::NoSuchCore);
        }
        let taken = self.counts[core as usize];
        if seq < taken as u64 {
            return Err(OrderFault::Repeated);
        }
        if seq > taken as u64 || taken == MOST_RECORDS {
            return Err(OrderFault::Skipped);
        }
        let place = Place::new(self.total);
        self.counts[core as usize] = taken + 1;
        self.total += 1;
        Ok(place)
    }

    /// The place of the next pair: how many pairs were taken. Takes no memory.
    pub fn place(&self) -> u64
        ensures { result ≡ place_of self.now }
    {
        self.total
    }

    /// Whether the pairs taken are a lawful order of recordings of these lengths. Takes no memory.
    ///
    /// Missing if a core has a record left that no pair has named.
    pub fn finish(&self, lens: &[u64]) -> Result<(), OrderFault>
        requires each { length lens.now ≡ self.now.cores }
        requires enough { (core : ℕ) → core < self.now.cores → taken_of self.now core ≤ slice_index lens.now core }
        ensures missing { IfErr result (λ fault. fault ≡ OrderFault.Missing) }
        ensures whole { IsOk result ↔ ((core : ℕ) → core < self.now.cores → taken_of self.now core ≡ slice_index lens.now core) }
        ensures lawful { (pairs : List Pair) → Follows self.now pairs → (IsOk result ↔ IsLawfulOrder self.now.cores (λ core. slice_index lens.now core) pairs) }
    {
        for core in 0..self.cores {
            if self.taken(core as u32) < lens[core as usize] {
                return Err(OrderFault::Missing);
            }
        }
        Ok(())
    }

    /// How many records of this core the pairs so far have named: 0 for a core that the module does not have.
    pub fn taken(&self, core: u32) -> u64
        ensures { result ≡ taken_of self.now core }
    {
        if core < MOST_CORES as u32 {
            self.counts[core as usize] as u64
        } else {
            0
        }
    }
}
