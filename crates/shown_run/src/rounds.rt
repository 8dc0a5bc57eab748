// The pieces take many records at once, as in a check.

ghost use Rattle.std.specs.Prelude.{◌+◌, IfOk, length};
ghost use Rattle.apex_machine.specs.Runs.{ArePlaced, AreOfCores};
ghost use Rattle.user_rules.specs.Rules.{requirements_of};
ghost use Rattle.verdict_merge.specs.Rounds.{AreGoing, HaveRunOver, IsTested, parts_in};

use crate::walk::{Walk, WalkFault};
use apex_types::Ordered;
use module_config::Config;
use piece_check::{Touched, Windows};
use std::alloc::{AllocError, Global};
use user_rules::{Rule, RuleMemory};
use verdict_merge::{Breach, Lent, Refused, Remembering, has_any, judge_in_turn, tested_at_once};

/// What became of a round: the least refusal, and the first view before it that breaks a rule.
#[derive(Clone, Copy, Debug)]
pub struct Taken {
    pub found: Option<Refused>,
    pub breach: Option<Breach>,
}

/// Room for sorting rounds out. It keeps its memory from round to round.
#[derive(Drop)]
pub struct Rounds {
    alloc: Global,
    touched: Touched,
    windows: Windows,
}

impl Rounds {
    /// Room for rounds.
    ///
    /// `Memory` if it is refused.
    pub fn new(alloc: Global) -> Result<Rounds, WalkFault> {
        let Ok(touched) = Touched::new(alloc) else {
            return Err(WalkFault::Memory);
        };
        Ok(Rounds {
            alloc,
            touched,
            windows: Windows::new(alloc),
        })
    }

    /// Lets the pieces take the next records, the first of which is at this place. Each piece takes those that touch it, up to the first
    /// that it rejects. The views are tested by the rules, with the values that the memories have. After a refusal, the piece that rejects
    /// the record is as it was before that record, and the others may be before it or after it.
    ///
    /// `Memory` if it was refused; the pieces are then given up.
    pub fn take(
        &mut self,
        config: &Config,
        first: u64,
        records: &[Ordered],
        memories: &[RuleMemory],
        rules: &[Rule],
        walk: &mut Walk,
        remembering: &mut Remembering,
    ) -> Result<Taken, WalkFault>
        requires going { AreGoing config.now first walk.old }
        requires placed { ArePlaced first records.now }
        requires cores { AreOfCores config.now.cores records.now }
        ensures outcome { IfOk result (λ taken. HaveRunOver config.now walk.old records.now taken.found walk.new) }
        ensures tested { IfOk result (λ taken. IsTested config.now (requirements_of memories.now remembering.old rules.now) (parts_in walk.old) records.now taken.found taken.breach remembering.new) }
        ensures going { IfOk result (λ _. AreGoing config.now (first + length records.now) walk.new) }
    {
        if self.touched.sort_out(config, records).is_err()
            || self.windows.look_up(config, records).is_err()
        {
            return Err(WalkFault::Memory);
        }
        let windows = self.windows.as_slice();
        let lent = Lent::with_windows(config, first, records, &self.touched, windows);
        let lent = lent.keeping(has_any(memories));
        let at_once = tested_at_once(memories, rules);
        let Ok(judged) = judge_in_turn(self.alloc, &lent, at_once, walk.take_pieces()) else {
            return Err(WalkFault::Memory);
        };
        let Ok(survey) = remembering.survey(self.alloc, &lent, memories, rules, judged) else {
            return Err(WalkFault::Memory);
        };
        walk.set_pieces(survey.pieces);
        Ok(Taken {
            found: survey.found,
            breach: survey.breach,
        })
    }
}
