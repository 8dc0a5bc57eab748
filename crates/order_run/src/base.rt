// All pieces of a module, which judge what is decided.

ghost use Rattle.std.specs.Prelude.{◌≡◌, ◌<◌, ◌+◌, ℕ, IfOk, length};
ghost use Rattle.apex_machine.specs.Pieces.{pieces};
ghost use Rattle.apex_machine.specs.Runs.{ArePlaced, AreOfCores};
ghost use Rattle.user_rules.specs.Memories.{nothing};
ghost use Rattle.user_rules.specs.Rules.{requirements_of};
ghost use Rattle.verdict_merge.specs.Rounds.{IsReady, IsRound, IsTested, cold_parts, parts_of};

use apex_types::Ordered;
use module_config::Config;
use piece_check::{Piece, Touched};
use std::alloc::Global;
use std::marker::Model;
use std::mem;
use user_rules::{Rule, RuleMemory};
use verdict_merge::{
    Breach, Lent, Memory, Refused, Remembering, has_any, judge_in_turn, start_pieces,
    tested_at_once,
};

/// What became of a round: the least refusal, and the first view before it that breaks a rule.
#[derive(Clone, Copy, Debug)]
pub struct Judgement {
    pub refused: Option<Refused>,
    pub breach: Option<Breach>,
}

/// All pieces of a module, how many records they have judged, and what memories have kept of the views.
#[derive(Drop)]
pub struct Base {
    alloc: Global,
    pieces: Vec<Piece>,
    touched: Touched,
    count: u64,
    remembering: Remembering,
}

impl Model for Base {
    ghost use Rattle.std.specs.Prelude.{None};
    ghost use Rattle.verdict_merge.specs.Rounds.{Judging};

    ghost Value = { Judging };

    ghost view = { λ base. record { count = base.count; pieces = base.pieces.items; breach = None; kept = base.remembering } };
}

impl Base {
    /// All pieces as they are before the first record, and what these memories keep before the first view.
    ///
    /// Memory where a growth is refused.
    pub fn start(alloc: Global, config: &Config, memories: &[RuleMemory]) -> Result<Base, Memory>
        ensures cold { IfOk result (λ base. (number : ℕ) → number < length (pieces config.now) → parts_of base number ≡ cold_parts config.now number) }
        ensures count { IfOk result (λ base. base.count ≡ 0) }
        ensures ready { IfOk result (IsReady config.now) }
        ensures kept { IfOk result (λ base. base.kept ≡ nothing memories.now) }
    {
        let pieces = start_pieces(alloc, config)?;
        let remembering = Remembering::start(alloc, config, memories)?;
        let Ok(touched) = Touched::new(alloc) else {
            return Err(Memory);
        };
        Ok(Base {
            alloc,
            pieces,
            touched,
            count: 0,
            remembering,
        })
    }

    /// How many records were judged.
    pub fn count(&self) -> u64
        ensures { result ≡ self.now.count }
    {
        self.count
    }

    /// Judges the next records under these memories and rules: each piece goes over those that touch it, up to its first refusal. The least
    /// refusal is reported, after which nothing further is judged, and the first view before it that breaks a rule.
    ///
    /// Memory where a growth was refused, after which nothing further is judged.
    pub fn judge(
        &mut self,
        config: &Config,
        memories: &[RuleMemory],
        rules: &[Rule],
        records: &[Ordered],
    ) -> Result<Judgement, Memory>
        requires ready { IsReady config.now self.old }
        requires placed { ArePlaced self.old.count records.now }
        requires cores { AreOfCores config.now.cores records.now }
        ensures round { IfOk result (λ judged. IsRound config.now self.old records.now judged.refused self.new) }
        ensures tested { IfOk result (λ judged. IsTested config.now (requirements_of memories.now self.old.kept rules.now) (parts_of self.old) records.now judged.refused judged.breach self.new.kept) }
    {
        if self.touched.sort_out(config, records).is_err() {
            return Err(Memory);
        }
        let lent = Lent::new(config, self.count, records, &self.touched);
        let lent = lent.keeping(has_any(memories));
        let at_once = tested_at_once(memories, rules);
        let pieces = mem::replace(&mut self.pieces, Vec::new(self.alloc));
        let Ok(judged) = judge_in_turn(self.alloc, &lent, at_once, pieces) else {
            return Err(Memory);
        };
        let surveyed = self
            .remembering
            .survey(self.alloc, &lent, memories, rules, judged)?;
        self.pieces = surveyed.pieces;
        self.count = place_after(self.count, records);
        Ok(Judgement {
            refused: surveyed.found,
            breach: surveyed.breach,
        })
    }
}

// The place after these records, the first of which is at this place.
fn place_after(first: u64, records: &[Ordered]) -> u64
    requires { ArePlaced first records.now }
    ensures { result ≡ first + length records.now }
{
    match records.last() {
        Some(last) => last.pos.number() + 1,
        None => first,
    }
}
