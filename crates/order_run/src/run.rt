// The records of an order, put one after another.

ghost use Rattle.std.specs.Prelude.{◌≡◌, ◌<◌, ◌+◌, ◌++◌, ◌∷◌, [], ℕ, suc, List, None, IfOk, IfSome, OnErr, OnOk, length};
ghost use Rattle.apex_machine.specs.Configuration.{Configuration};
ghost use Rattle.apex_machine.specs.Runs.{ArePlaced, AreOfCores};
ghost use Rattle.apex_types.specs.declared.record.Ordered.{Ordered};
ghost use Rattle.apex_types.specs.declared.record.Pair.{Pair};
ghost use Rattle.order_cert.specs.Kept.{none_taken, place_of, put, taken_of};
ghost use Rattle.order_cert.specs.Order.{misplaced, pair_of};
ghost use Rattle.placement.specs.Scan.{placed_at};
ghost use Rattle.sink.specs.Written.{IsCut, IsWritten};
ghost use Rattle.user_rules.specs.declared.relation.Relation.{Relation};
ghost use Rattle.user_rules.specs.Remembered.{Requirements, required_by};
ghost use Rattle.user_rules.specs.Rules.{required_of, requirements_of};
ghost use Rattle.verdict_merge.specs.Rounds.{IsReady, IsRound, IsTested, parts_of};
ghost use Rattle.verdict_merge.specs.Verdicts.{IsVerdict};
ghost use Rattle.order_run.specs.Proposal.{order_verdict_of, verdict_of};
ghost use Rattle.order_run.specs.UnderWay.{HasPut, HaveJudged, HaveTested, first_broken};

use crate::base::{Base, Judgement};
use crate::proposal::{BrokenRule, Proposal, ProposalFault};
use crate::rows::add_row;
use apex_types::limits::LARGEST_ROUND;
use apex_types::{CoreId, Ordered, Place, Record};
use module_config::Config;
use order_cert::Keeper;
use placement::InputFault;
use sink::{Sink, put_all};
use std::alloc::Global;
use user_rules::{Rule, RuleMemory};
use verdict_merge::{Breach, Memory, Refused};

/// An order that grows: its last records wait in a round until they are judged and their rows are written.
#[derive(Drop)]
pub struct Run {
    pub(crate) keeper: Keeper,
    pub(crate) base: Base,
    pub(crate) round: Vec<Ordered>,
    // The rows of the round.
    pub(crate) text: Vec<u8>,
    pub(crate) refused: Option<Refused>,
    // The first rule that a view of the records before the refused one breaks.
    pub(crate) broken: Option<BrokenRule>,
}

impl Run {
    /// An order of no record.
    ///
    /// Memory where a growth is refused.
    #[tactic(auto, using(crate::proofs::Onward::begun))]
    pub fn start(alloc: Global, config: &Config, memories: &[RuleMemory]) -> Result<Run, Memory>
        ensures so_far { IfOk result (λ run. (relations : List Relation) → HasPut config.now (required_by memories.now relations) run [] [] []) }
        ensures taken { IfOk result (λ run. taken_of run.keeper ≡ none_taken) }
        ensures place { IfOk result (λ run. place_of run.keeper ≡ 0) }
        ensures empty { IfOk result (λ run. run.round.items ≡ []) }
    {
        let base = Base::start(alloc, config, memories)?;
        Ok(Run {
            keeper: Keeper::new(config.cores()),
            base,
            round: Vec::new(alloc),
            text: Vec::new(alloc),
            refused: None,
            broken: None,
        })
    }

    /// Whether the round is full.
    pub fn is_full(&self) -> bool {
        self.round.len() >= LARGEST_ROUND
    }

    /// Puts the next record of a core next.
    pub fn put(&mut self, core: CoreId, rec: Record) -> Result<(), ProposalFault>
        ensures so_far { OnOk result ((config : Configuration) (requirements : Requirements) (settled waiting : List Pair) (before : List Ordered) → HasPut config requirements self.old settled waiting before → HasPut config requirements self.new settled (waiting ++ pair_of core (taken_of self.old.keeper core) ∷ []) before) }
        ensures round { OnOk result (self.new.round.items ≡ self.old.round.items ++ placed_at (place_of self.old.keeper) core rec ∷ []) }
        ensures fits { OnOk result (misplaced self.old.keeper.cores (taken_of self.old.keeper) (pair_of core (taken_of self.old.keeper core)) ≡ None) }
        ensures taken { OnOk result (taken_of self.new.keeper ≡ put (taken_of self.old.keeper) core (suc (taken_of self.old.keeper core))) }
        ensures place { OnOk result (place_of self.new.keeper ≡ suc (place_of self.old.keeper)) }
    {
        let place = self.keeper.place();
        let number = u32::from(core.number());
        let seq = self.keeper.taken(number);
        let pos = match self.keeper.take(number, seq) {
            Ok(pos) => pos,
            Err(fault) => {
                return Err(ProposalFault::Input(InputFault::Order {
                    place,
                    core: number,
                    fault,
                }));
            }
        };
        let _place = pos.number();
        add_row(&mut self.text, number, seq)?;
        match self.round.push(Ordered { pos, core, rec }) {
            Ok(()) => Ok(()),
            Err(_) => Err(ProposalFault::Memory),
        }
    }

    /// Judges the records of the round under these rules, unless one was refused before, and writes their rows.
    pub fn settle<W: Sink>(
        &mut self,
        config: &Config,
        memories: &[RuleMemory],
        rules: &[Rule],
        out: &mut W,
    ) -> Result<(), ProposalFault>
        requires { (settled waiting : List Pair) × (before : List Ordered) × HasPut config.now (required_of memories.now rules.now) self.old settled waiting before }
        ensures so_far { OnOk result ((settled waiting : List Pair) (before : List Ordered) → HasPut config.now (required_of memories.now rules.now) self.old settled waiting before → HasPut config.now (required_of memories.now rules.now) self.new (settled ++ waiting) [] (before ++ self.old.round.items)) }
        ensures kept { self.new.keeper ≡ self.old.keeper }
        ensures empty { OnOk result (self.new.round.items ≡ []) }
        ensures whole { OnOk result (IsWritten (W.bytes out.old) self.old.text.items (W.bytes out.new)) }
        ensures cut { OnErr result (IsCut (W.bytes out.old) self.old.text.items (W.bytes out.new)) }
    {
        self.judge(config, memories, rules)?;
        put_all(out, &self.text)?;
        self.round.clear();
        self.text.clear();
        Ok(())
    }

    // Judges the records of the round under these memories and rules, unless one was refused before. Of the rules that are broken, the first
    // is kept; after it no rule is tested.
    fn judge(
        &mut self,
        config: &Config,
        memories: &[RuleMemory],
        rules: &[Rule],
    ) -> Result<(), Memory>
        requires { (settled waiting : List Pair) × (before : List Ordered) × HasPut config.now (required_of memories.now rules.now) self.old settled waiting before }
        ensures judged { OnOk result ((settled waiting : List Pair) (before : List Ordered) → HasPut config.now (required_of memories.now rules.now) self.old settled waiting before → HaveJudged config.now (before ++ self.old.round.items) self.new.refused self.new.base) }
        ensures tested { OnOk result ((settled waiting : List Pair) (before : List Ordered) → HasPut config.now (required_of memories.now rules.now) self.old settled waiting before → HaveTested config.now (required_of memories.now rules.now) (before ++ self.old.round.items) self.new.refused self.new.broken self.new.base.kept) }
        ensures keeper { self.new.keeper ≡ self.old.keeper }
        ensures round { self.new.round.items ≡ self.old.round.items }
        ensures text { self.new.text.items ≡ self.old.text.items }
    {
        if self.refused.is_some() {
            return Ok(());
        }
        let judged = judge_round(
            &mut self.base,
            config,
            memories,
            rules,
            self.broken,
            &self.round,
        )?;
        self.refused = judged.refused;
        self.broken = first_broken(self.broken, &self.round, judged.breach);
        Ok(())
    }

    /// What is proposed, once every record is judged.
    pub fn proposal(&self) -> Proposal
        ensures verdict { (configuration : Configuration) (requirements : Requirements) (pairs : List Pair) (before : List Ordered) → HasPut configuration requirements self.now pairs [] before → self.now.round.items ≡ [] → IsVerdict configuration requirements before (verdict_of result) }
        ensures order { (configuration : Configuration) (requirements : Requirements) (pairs : List Pair) (before : List Ordered) → HasPut configuration requirements self.now pairs [] before → self.now.round.items ≡ [] → IsVerdict configuration (required_by [] []) before (order_verdict_of result) }
    {
        let broken = self.broken;
        match self.refused {
            Some(refused) => Proposal::NotFound { refused, broken },
            None => Proposal::Found {
                records: self.keeper.place(),
                broken,
            },
        }
    }
}

// Judges the records of a round. The rules are tested, unless one was broken before.
fn judge_round(
    base: &mut Base,
    config: &Config,
    memories: &[RuleMemory],
    rules: &[Rule],
    broken: Option<BrokenRule>,
    records: &[Ordered],
) -> Result<Judgement, Memory>
    requires ready { IsReady config.now base.old }
    requires placed { ArePlaced base.old.count records.now }
    requires cores { AreOfCores config.now.cores records.now }
    ensures round { IfOk result (λ judged. IsRound config.now base.old records.now judged.refused base.new) }
    ensures tested { IfOk result (λ judged. broken ≡ None → IsTested config.now (requirements_of memories.now base.old.kept rules.now) (parts_of base.old) records.now judged.refused judged.breach base.new.kept) }
    ensures within { IfOk result (λ judged. IfSome judged.breach (λ one. one.seen.index < length records.now)) }
{
    match broken {
        Some(_) => base.judge(config, &[], &[], records),
        None => base.judge(config, memories, rules, records),
    }
}

// The first rule that is broken: the one so far, or else that which a view of these records breaks.
fn first_broken(
    so_far: Option<BrokenRule>,
    records: &[Ordered],
    breach: Option<Breach>,
) -> Option<BrokenRule>
    requires { IfSome breach (λ one. one.seen.index < length records.now) }
    ensures { (first : ℕ) → ArePlaced first records.now → result ≡ first_broken so_far first breach }
{
    match so_far {
        Some(broken) => Some(broken),
        None => broken_in(records, breach),
    }
}

// The rule that a view of these records breaks, if one does.
fn broken_in(records: &[Ordered], breach: Option<Breach>) -> Option<BrokenRule>
    requires { IfSome breach (λ one. one.seen.index < length records.now) }
    ensures { (first : ℕ) → ArePlaced first records.now → result ≡ first_broken None first breach }
{
    match breach {
        Some(one) => Some(BrokenRule {
            pos: place_of_record(records, one.seen.index),
            rule: one.rule,
        }),
        None => None,
    }
}

// The place of the record of this index.
#[tactic(auto, using(piece_check::proofs::Reaching::placed_at))]
fn place_of_record(records: &[Ordered], index: usize) -> Place
    requires { index < length records.now }
    ensures { (first : ℕ) → ArePlaced first records.now → result ≡ first + index }
{
    records[index].pos
}
