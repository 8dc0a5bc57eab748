// How the records that were taken last are kept.

ghost use Rattle.std.specs.Prelude.{◌≡◌, ◌≤◌, ◌+◌, ◌++◌, List, [], IfOk, OnOk, drop, length, max, take};
ghost use Rattle.apex_machine.specs.Configuration.{Configuration};
ghost use Rattle.apex_machine.specs.Runs.{ArePlaced, AreOfCores};
ghost use Rattle.verdict_merge.specs.Rounds.{AllRun, AreGoing, cold_parts, parts_in};
ghost use Rattle.shown_run.specs.Kept.{AreRecent, IsBegun, IsKept, most_of};
ghost use Rattle.shown_run.specs.Walks.{EachRuns};

use crate::recent::Recent;
use crate::span::Span;
use crate::walk::{Walk, WalkFault};
use apex_types::Ordered;
use module_config::Config;
use std::alloc::{AllocError, Global};
use std::collections::VecDeque;
use std::mem;

// How many records are worth a copy of the pieces.
const LEAST_SPAN: usize = 4_096;

impl Recent {
    /// No records: those before the first one of a run. Each span will have at most this many records, or 4,096 if that is more.
    ///
    /// `Memory` if it is refused.
    #[tactic(auto, using(crate::proofs::Kept::recent_none))]
    pub fn start(alloc: Global, config: &Config, most: usize) -> Result<Recent, WalkFault>
        ensures recent { IfOk result (AreRecent config.now []) }
        ensures begun { IfOk result IsBegun }
        ensures most { IfOk result (λ recent. most_of recent ≡ max most 4096) }
    {
        Ok(Recent {
            most: most.max(LEAST_SPAN),
            earlier: Span::new(alloc, Walk::start(alloc, config)?),
            later: Span::new(alloc, Walk::start(alloc, config)?),
        })
    }

    /// Keeps a round, which these pieces have taken, as a span of its own.
    ///
    /// If memory is refused, nothing is promised of the records that are kept, which must be given up.
    pub fn keep_round(
        &mut self,
        alloc: Global,
        records: Vec<Ordered>,
        pieces: &Walk,
    ) -> Result<(), AllocError>
        requires begun { IsBegun self.old }
        requires few { length records.items ≤ most_of self.old }
        ensures recent { OnOk result ((configuration : Configuration) (taken : List Ordered) → AreRecent configuration taken self.old → ArePlaced (length taken) records.items → AreOfCores configuration.cores records.items → AllRun configuration (cold_parts configuration) (taken ++ records.items) (parts_in pieces.now) → AreGoing configuration (length taken + length records.items) pieces.now → AreRecent configuration (taken ++ records.items) self.new) }
        ensures begun { OnOk result (IsBegun self.new) }
        ensures most { most_of self.new ≡ most_of self.old }
    {
        let next = Span::new(alloc, pieces.clone()?);
        self.later.records = VecDeque::from(records);
        self.earlier = mem::replace(&mut self.later, next);
        Ok(())
    }

    /// Keeps the first records of the last round, as many as this, and returns the others.
    ///
    /// If memory is refused, nothing is promised of the records that are kept, which must be given up.
    pub fn keep_last(
        &mut self,
        mut records: Vec<Ordered>,
        count: usize,
    ) -> Result<VecDeque<Ordered>, AllocError>
        requires begun { IsBegun self.old }
        requires few { length records.items ≤ most_of self.old }
        requires count { count ≤ length records.items }
        ensures recent { OnOk result ((configuration : Configuration) (taken : List Ordered) → AreRecent configuration taken self.old → ArePlaced (length taken) records.items → AreOfCores configuration.cores records.items → EachRuns configuration (cold_parts configuration) (taken ++ take count records.items) → AreRecent configuration (taken ++ take count records.items) self.new) }
        ensures left { IfOk result (λ left. left.items ≡ drop count records.items) }
    {
        let left = records.split_off(count)?;
        self.later.records = VecDeque::from(records);
        Ok(VecDeque::from(left))
    }

    /// The records of both spans, as one.
    ///
    /// If memory is refused, the records are given up.
    pub fn into_span(self) -> Result<Span, AllocError>
        ensures { IfOk result (λ span. (configuration : Configuration) (taken : List Ordered) → AreRecent configuration taken self → IsKept configuration taken span.before span.records.items) }
    {
        let Recent {
            most: _,
            mut earlier,
            mut later,
        } = self;
        earlier.records.append(&mut later.records)?;
        Ok(earlier)
    }
}
