// The search: depth first, with two records swapped when it comes to a dead end.

ghost use Rattle.std.specs.Prelude.{◌≡◌, Some};
ghost use Rattle.order_search.specs.declared.end.End.TheVariants.{EffortUsed};

use crate::budget::{Budget, Effort};
use crate::choice::{Choice, choose};
use crate::end::{End, Step};
use crate::longest::Longest;
use crate::placed::Placed;
use crate::swap::{RecordName, Swap, Wait};
use crate::tip::{Answer, Tip};
use crate::touches::Touches;
use crate::tree::Tree;
use std::alloc::{AllocError, Global};

/// The most records that are looked at for one that is rejected.
const MOST_WRITERS: usize = 24;

/// The most swaps that are kept for a dead end.
const MOST_SWAPS: usize = 16;

/// How far a search may go.
#[derive(Clone, Copy, Debug, PartialEq, Eq)]
pub struct Limits {
    /// How many records may be undecided.
    pub window: usize,
    /// How many records may be tried for each record placed.
    pub effort: u64,
}

/// A search, with the records that it has placed and not decided.
#[derive(Drop)]
pub struct Search<Thing> {
    alloc: Global,
    window: usize,
    // How many records are decided.
    first: u64,
    pub(crate) placed: Placed,
    pub(crate) budget: Budget,
    touches: Touches<Thing>,
    tree: Tree,
    longest: Longest,
    pub(crate) finished: Option<End>,
    ghost used_up: { finished ≡ Some EffortUsed → budget.left ≡ 0 },
}

impl<Thing: Eq + Drop> Search<Thing> {
    ghost use Rattle.std.specs.Prelude.{◌<◌, ◌≤◌, ◌+◌, ◌*◌, [], IfOk, OnOk, Ok, None};
    ghost use Rattle.order_search.specs.Agreement.{Agrees, DecidesNone, HasTriedAll, IsLast, IsOfModule, IsOpen, IsOverWith, IsTry, Spends, cores_of, decided_by, tried_of, undecided_of};
    ghost use Rattle.order_search.specs.declared.end.Step.TheVariants.{Over};

    /// A search for an order of the records of so many cores, at its start.
    pub fn new(alloc: Global, cores: usize, limits: Limits) -> Result<Search<Thing>, AllocError>
        ensures cores { IfOk result (λ search. cores_of search ≡ cores) }
        ensures none { IfOk result (λ search. undecided_of search ≡ []) }
        ensures open { IfOk result (λ search. search.finished ≡ None) }
    {
        Ok(Search {
            alloc,
            window: limits.window,
            first: 0,
            placed: Placed::new(alloc, cores)?,
            budget: Budget::new(limits.effort),
            touches: Touches::new(alloc),
            tree: Tree::new(alloc, cores)?,
            longest: Longest::new(alloc),
            finished: None,
        })
    }

    /// How much it has tried: at most what is allowed for each record that was placed, and once more.
    pub fn effort(&self) -> Effort
        ensures { result.tried ≤ result.allowed * (result.reached + 1) }
    {
        self.budget.effort
    }

    /// What comes next: the oldest undecided record, once as many are undecided as may be, or the end of the search.
    ///
    /// The machine has taken exactly the undecided records, in their order, before and after. If it refuses memory, nothing is
    /// said of the search.
    pub fn next<T: Tip<Thing = Thing>>(&mut self, tip: &mut T) -> Result<Step, AllocError>
        requires agrees { Agrees self.old (T.undecided tip.old) }
        ensures agrees { OnOk result (Agrees self.new (T.undecided tip.new)) }
        ensures decided { IfOk result (λ step. T.decided tip.new ≡ T.decided tip.old + decided_by step) }
        ensures input { OnOk result (T.input tip.new ≡ T.input tip.old) }
        ensures core { IfOk result (IsOfModule (cores_of self.old)) }
        ensures last { IfOk result (IsLast (T.last_decided tip.new)) }
        ensures cores { OnOk result (cores_of self.new ≡ cores_of self.old) }
        ensures none_left { IfOk result (IsOverWith (undecided_of self.new)) }
        ensures effort { result ≡ Ok (Over EffortUsed) → HasTriedAll self.new.budget.effort }
    {
        self.fill(tip)?;
        let Some(core) = self.placed.pop_oldest() else {
            return Ok(Step::Over(self.finished.unwrap_or(End::Stuck)));
        };
        tip.decide(core);
        self.forget_oldest();
        Ok(Step::Next(core))
    }

    // Places records until as many are undecided as may be, or the search is over.
    fn fill<T: Tip<Thing = Thing>>(&mut self, tip: &mut T) -> Result<(), AllocError>
        requires agrees { Agrees self.old (T.undecided tip.old) }
        ensures keeps { OnOk result (DecidesNone self.old (T.decided tip.old) self.new (T.decided tip.new) (T.undecided tip.new)) }
        ensures input { OnOk result (T.input tip.new ≡ T.input tip.old) }
    {
        for _ in 0..u64::MAX {
            if self.placed.len() >= self.window {
                break;
            }
            match self.finished {
                Some(_) => break,
                None => self.advance(tip)?,
            }
        }
        Ok(())
    }

    // The oldest undecided record is decided: what was noted of it is forgotten.
    fn forget_oldest(&mut self)
        ensures placed { self.new.placed ≡ self.old.placed }
        ensures finished { self.new.finished ≡ self.old.finished }
    {
        self.first = self.first.saturating_add(1);
        self.touches.forget_before(self.first);
        self.tree.forget_before(&self.placed, self.first);
        self.longest.clear();
    }

    // One try: places one more record, or goes back from a dead end, or ends the search.
    fn advance<T: Tip<Thing = Thing>>(&mut self, tip: &mut T) -> Result<(), AllocError>
        requires open { IsOpen self.old (T.undecided tip.old) }
        ensures keeps { OnOk result (DecidesNone self.old (T.decided tip.old) self.new (T.decided tip.new) (T.undecided tip.new)) }
        ensures input { OnOk result (T.input tip.new ≡ T.input tip.old) }
        ensures tries { OnOk result (IsTry self.old self.new) }
    {
        if self.budget.is_used_up() {
            return self.give_up(tip, End::EffortUsed);
        }
        self.budget.charge(1);
        match choose(tip, &self.placed, &self.tree)? {
            Choice::Free(core) => self.place(tip, core),
            Choice::Shared(core) => {
                let level = self.level();
                self.touches.note(tip, self.alloc, level, core)?;
                self.place(tip, core)
            }
            Choice::AtEnd => {
                self.finished = Some(End::Whole);
                Ok(())
            }
            Choice::Blocked => self.turn_back(tip),
        }
    }

    // Takes the next record of a core.
    fn place<T: Tip<Thing = Thing>>(&mut self, tip: &mut T, core: usize) -> Result<(), AllocError>
        requires core { core < cores_of self.old }
        requires open { IsOpen self.old (T.undecided tip.old) }
        ensures keeps { OnOk result (DecidesNone self.old (T.decided tip.old) self.new (T.decided tip.new) (T.undecided tip.new)) }
        ensures input { OnOk result (T.input tip.new ≡ T.input tip.old) }
        ensures tried { OnOk result (tried_of self.new ≡ tried_of self.old) }
    {
        if !tip.take(core)? {
            self.finished = Some(End::Stuck);
            return Ok(());
        }
        self.placed.push(core)?;
        let level = self.level();
        self.budget.reach(level);
        Ok(())
    }

    // The level of the next record: how many records come before it.
    fn level(&self) -> u64 {
        self.first.saturating_add(self.placed.len() as u64)
    }

    // At a dead end: goes back to swap two records, or ends the search if no swap is left.
    fn turn_back<T: Tip<Thing = Thing>>(&mut self, tip: &mut T) -> Result<(), AllocError>
        requires open { IsOpen self.old (T.undecided tip.old) }
        ensures keeps { OnOk result (DecidesNone self.old (T.decided tip.old) self.new (T.decided tip.new) (T.undecided tip.new)) }
        ensures input { OnOk result (T.input tip.new ≡ T.input tip.old) }
        ensures spends { OnOk result (Spends self.old self.new) }
    {
        self.longest.keep(&self.placed)?;
        let swaps = self.swaps(tip)?;
        let level = self.level();
        self.tree.enter(&self.placed, level, swaps)?;
        match self.tree.next_swap(self.first)? {
            Some(level) => self.go_back(tip, level),
            None => self.give_up(tip, End::Stuck),
        }
    }

    // The swaps that may lead on from here, the most promising one last: those that the machine names, then that of the last level.
    fn swaps<T: Tip<Thing = Thing>>(&self, tip: &mut T) -> Result<Vec<Swap>, AllocError>
        ensures undecided { OnOk result (T.undecided tip.new ≡ T.undecided tip.old) }
        ensures decided { OnOk result (T.decided tip.new ≡ T.decided tip.old) }
        ensures input { OnOk result (T.input tip.new ≡ T.input tip.old) }
    {
        let mut swaps: Vec<Swap> = Vec::new(self.alloc);
        for core in 0..self.placed.most {
            if !self.tree.holds(&self.placed, core) && tip.judge(core)? == Answer::Refused {
                self.find_swaps(tip, core, &mut swaps)?;
            }
        }
        swaps.sort_unstable_by_key(|swap| (swap.is_named, swap.level));
        while swaps.len() > MOST_SWAPS {
            let _ = swaps.remove(0);
        }
        Ok(swaps)
    }

    // The swaps that may have a core's next record accepted: it comes before the last record that touched what it was rejected
    // for, or that record before the one that did so before, and so on; and what the machine names.
    fn find_swaps<T: Tip<Thing = Thing>>(
        &self,
        tip: &mut T,
        core: usize,
        swaps: &mut Vec<Swap>,
    ) -> Result<(), AllocError>
        ensures undecided { OnOk result (T.undecided tip.new ≡ T.undecided tip.old) }
        ensures decided { OnOk result (T.decided tip.new ≡ T.decided tip.old) }
        ensures input { OnOk result (T.input tip.new ≡ T.input tip.old) }
    {
        let number = self.placed.count(core);
        let next = RecordName { core, number };
        if let Some(rivals) = tip.rivals(core)? {
            let until = match rivals.second {
                Some(level) => self.at(level).unwrap_or(next),
                None => next,
            };
            self.add_swap(rivals.first, until, true, swaps)?;
        }
        let mut things = Vec::new(self.alloc);
        tip.blamed(core, &mut things)?;
        let levels = self
            .touches
            .last_to_touch(self.alloc, &things, MOST_WRITERS)?;
        let mut until = next;
        for level in levels.iter() {
            self.add_swap(*level, until, false, swaps)?;
            until = self.at(*level).unwrap_or(until);
        }
        Ok(())
    }

    // The undecided record of a level.
    fn at(&self, level: u64) -> Option<RecordName> {
        if level < self.first {
            return None;
        }
        self.placed.get((level - self.first) as usize)
    }

    // Adds that the record of a level is to wait for another, unless it is of the same core, or added already.
    fn add_swap(
        &self,
        level: u64,
        until: RecordName,
        is_named: bool,
        swaps: &mut Vec<Swap>,
    ) -> Result<(), AllocError> {
        let Some(held) = self.at(level) else {
            return Ok(());
        };
        let wait = Wait { held, until };
        if held.core == until.core || swaps.iter().any(|swap| swap.wait == wait) {
            return Ok(());
        }
        swaps.push(Swap {
            level,
            wait,
            is_named,
        })?;
        Ok(())
    }

    // Goes back to a level.
    fn go_back<T: Tip<Thing = Thing>>(&mut self, tip: &mut T, level: u64) -> Result<(), AllocError>
        requires open { IsOpen self.old (T.undecided tip.old) }
        ensures open { OnOk result (IsOpen self.new (T.undecided tip.new)) }
        ensures keeps { OnOk result (DecidesNone self.old (T.decided tip.old) self.new (T.decided tip.new) (T.undecided tip.new)) }
        ensures input { OnOk result (T.input tip.new ≡ T.input tip.old) }
        ensures spends { OnOk result (Spends self.old self.new) }
    {
        let kept = level.saturating_sub(self.first);
        if kept >= self.placed.len() as u64 {
            return Ok(());
        }
        let again = tip.back(kept as usize)?;
        self.placed.keep(kept as usize);
        self.budget.charge(again);
        self.touches.keep_before(level);
        Ok(())
    }

    // Ends the search in this way, with the longest beginning that it met.
    fn give_up<T: Tip<Thing = Thing>>(&mut self, tip: &mut T, end: End) -> Result<(), AllocError>
        requires used_up { end ≡ EffortUsed → self.old.budget.left ≡ 0 }
        requires open { IsOpen self.old (T.undecided tip.old) }
        ensures keeps { OnOk result (DecidesNone self.old (T.decided tip.old) self.new (T.decided tip.new) (T.undecided tip.new)) }
        ensures input { OnOk result (T.input tip.new ≡ T.input tip.old) }
        ensures spends { OnOk result (Spends self.old self.new) }
        ensures finished { OnOk result (self.new.finished ≡ Some end) }
    {
        if self.placed.len() < self.longest.cores.len() {
            self.return_to_longest(tip)?;
        }
        self.finished = Some(end);
        Ok(())
    }

    // Goes to the longest beginning.
    fn return_to_longest<T: Tip<Thing = Thing>>(&mut self, tip: &mut T) -> Result<(), AllocError>
        requires open { IsOpen self.old (T.undecided tip.old) }
        ensures undecided { OnOk result (T.undecided tip.new ≡ self.new.placed.cores.items) }
        ensures decided { OnOk result (T.decided tip.new ≡ T.decided tip.old) }
        ensures input { OnOk result (T.input tip.new ≡ T.input tip.old) }
        ensures cores { OnOk result (cores_of self.new ≡ cores_of self.old) }
        ensures spends { OnOk result (Spends self.old self.new) }
        ensures unfinished { OnOk result (self.new.finished ≡ None) }
    {
        let same = self.longest.common(&self.placed);
        let level = self.first.saturating_add(same as u64);
        self.go_back(tip, level)?;
        for index in same..self.longest.cores.len() {
            let Some(core) = self.longest.cores.get(index).copied() else {
                break;
            };
            if core >= self.placed.most || !tip.take(core)? {
                break;
            }
            self.placed.push(core)?;
        }
        Ok(())
    }
}
