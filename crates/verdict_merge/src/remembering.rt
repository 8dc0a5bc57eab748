// The test of a round's views with the values of memories.

ghost use Rattle.std.specs.Prelude.{◌≡◌, ◌≤◌, [], ◌∷◌, IfOk, IfSome, List, Some, length, slice_get, true};
ghost use Rattle.apex_machine.specs.Runs.{ArePlaced, AreOfCores};
ghost use Rattle.piece_check.specs.Parts.{Holding};
ghost use Rattle.user_rules.specs.declared.relation.Relation.{Relation};
ghost use Rattle.user_rules.specs.FirstBroken.{IsFirstBroken};
ghost use Rattle.user_rules.specs.Memories.{nothing};
ghost use Rattle.user_rules.specs.Passed.{passed};
ghost use Rattle.user_rules.specs.Remembered.{kept_after};
ghost use Rattle.user_rules.specs.Rules.{relations_of, requirements_of};
ghost use Rattle.verdict_merge.specs.Memories.{IsSurveyedUnder, has_any, tested_at_once};
ghost use Rattle.verdict_merge.specs.Rounds.{AreGoing, AreJudgedOver};
ghost use Rattle.verdict_merge.specs.Views.{broken_of};

use crate::breach::{Breach, Seen};
use crate::fault::Memory;
use crate::gathering::records_before;
use crate::judged::Judged;
use crate::outcome::Lent;
use crate::survey::{Survey, gather_round};
use crate::views::order_views;
use apex_types::View;
use module_config::Config;
use std::alloc::Global;
use std::marker::Model;
use std::slice;
use user_rules::{Holders, Recollection, Rule, RuleMemory, first_broken_remembered};

// The view of no record, where there is none yet.
const BLANK: View = View {
    kind: -1,
    core: -1,
    time: -1,
    part: -1,
    proc: -1,
    service: -1,
    prio: -1,
    out: -1,
    val: -1,
    elapsed: -1,
    woken: 0,
};

/// What memories have kept of the views of the rounds so far, with room for the views of a round and for the values at one of them.
#[derive(Drop)]
pub struct Remembering {
    recollection: Recollection,
    views: Vec<View>,
    values: Vec<i64>,
}

impl Model for Remembering {
    ghost use Rattle.std.specs.Prelude.{List};
    ghost use Rattle.user_rules.specs.declared.memory.Cell.{Cell};

    ghost Value = { List (List Cell) };

    ghost view = { λ remembering. remembering.recollection };
}

impl Remembering {
    /// What these memories keep before the first view. Memory is reserved for all cores, partitions and processes of the configuration.
    pub fn start(
        alloc: Global,
        config: &Config,
        memories: &[RuleMemory],
    ) -> Result<Remembering, Memory>
        ensures { IfOk result (λ remembering. remembering ≡ nothing memories.now) }
    {
        let Ok(recollection) = Recollection::start(alloc, memories, holders_of(config)) else {
            return Err(Memory);
        };
        let Ok(values) = Vec::with_capacity(alloc, memories.len()) else {
            return Err(Memory);
        };
        Ok(Remembering {
            recollection,
            views: Vec::new(alloc),
            values,
        })
    }

    /// What the memories have kept.
    pub fn recollection(&self) -> &Recollection
        ensures { result.now ≡ self.now }
    {
        &self.recollection
    }

    /// Tests the view of the record at this place by the rules, with the values of the memories at it. Returns its breach if it breaks a
    /// rule; else the memories keep the view.
    ///
    /// Memory if memory was refused.
    pub fn test(
        &mut self,
        memories: &[RuleMemory],
        rules: &[Rule],
        place: u64,
        view: &View,
    ) -> Result<Option<Breach>, Memory>
        ensures broken { IfOk result (λ breach. IsFirstBroken (requirements_of memories.now self.old rules.now) (view.now ∷ []) (broken_of breach)) }
        ensures reported { IfOk result (λ breach. IfSome breach (λ one. slice_get (view.now ∷ []) one.seen.index ≡ Some one.seen.view)) }
        ensures kept { IfOk result (λ breach. self.new ≡ kept_after memories.now self.old (passed (broken_of breach) (view.now ∷ []))) }
    {
        first_breach(
            memories,
            rules,
            &mut self.recollection,
            &mut self.values,
            place,
            slice::from_ref(view),
        )
    }

    /// Gathers the outcomes of the pieces of a round, which are in the order of their numbers. Without memories the pieces have tested their
    /// views by the rules. With memories they have kept them, and the views are now tested in the order of their records; the memories keep
    /// those up to the broken one.
    ///
    /// Memory if memory was refused.
    pub fn survey(
        &mut self,
        alloc: Global,
        lent: &Lent,
        memories: &[RuleMemory],
        rules: &[Rule],
        judged: Vec<Judged>,
    ) -> Result<Survey, Memory>
        requires keeps { lent.now.keeps ≡ has_any memories.now }
        requires outcome { (old : List Holding) × AreGoing lent.now.config.now lent.now.first old × AreJudgedOver lent.now.config.now lent.now.first lent.now.records.now (tested_at_once memories.now (relations_of rules.now)) lent.now.keeps old judged.items }
        requires placed { ArePlaced lent.now.first lent.now.records.now }
        requires cores { AreOfCores lent.now.config.now.cores lent.now.records.now }
        ensures { (old : List Holding) → AreGoing lent.now.config.now lent.now.first old → AreJudgedOver lent.now.config.now lent.now.first lent.now.records.now (tested_at_once memories.now (relations_of rules.now)) lent.now.keeps old judged.items → IfOk result (λ survey. IsSurveyedUnder lent.now.config.now lent.now.first lent.now.records.now (requirements_of memories.now self.old rules.now) old survey self.new) }
    {
        if lent.keeps {
            self.survey_in_order(alloc, lent, memories, rules, judged)
        } else {
            gather_round(alloc, lent, judged)
        }
    }

    // The same where the pieces have kept their views.
    fn survey_in_order(
        &mut self,
        alloc: Global,
        lent: &Lent,
        memories: &[RuleMemory],
        rules: &[Rule],
        judged: Vec<Judged>,
    ) -> Result<Survey, Memory>
        requires keeps { lent.now.keeps ≡ true }
        requires outcome { (relations : List Relation) × (old : List Holding) × AreGoing lent.now.config.now lent.now.first old × AreJudgedOver lent.now.config.now lent.now.first lent.now.records.now relations lent.now.keeps old judged.items }
        requires placed { ArePlaced lent.now.first lent.now.records.now }
        requires cores { AreOfCores lent.now.config.now.cores lent.now.records.now }
        ensures { (relations : List Relation) (old : List Holding) → AreGoing lent.now.config.now lent.now.first old → AreJudgedOver lent.now.config.now lent.now.first lent.now.records.now relations lent.now.keeps old judged.items → IfOk result (λ survey. IsSurveyedUnder lent.now.config.now lent.now.first lent.now.records.now (requirements_of memories.now self.old rules.now) old survey self.new) }
    {
        make_room(&mut self.views, lent.records.len())?;
        order_views(&mut self.views, lent, &judged);
        let gathered = gather_round(alloc, lent, judged)?;
        let Survey {
            found,
            breach: _,
            pieces,
        } = gathered;
        let tested = records_before(lent.first, lent.records, &found);
        let breach = first_breach(
            memories,
            rules,
            &mut self.recollection,
            &mut self.values,
            lent.first,
            &self.views[..tested],
        )?;
        Ok(Survey {
            found,
            breach,
            pieces,
        })
    }
}

/// Whether there is a memory.
pub fn has_any(memories: &[RuleMemory]) -> bool
    ensures { result ≡ has_any memories.now }
{
    !memories.is_empty()
}

/// The rules by which pieces test their views at once: none if there are memories.
pub fn tested_at_once<'a>(memories: &[RuleMemory], rules: &'a [Rule]) -> &'a [Rule]
    ensures { relations_of result.now ≡ tested_at_once memories.now (relations_of rules.now) }
{
    if has_any(memories) { &[] } else { rules }
}

// Room for this many views.
fn make_room(views: &mut Vec<View>, count: usize) -> Result<(), Memory>
    ensures { IfOk result (λ _. count ≤ length views.new.items) }
{
    'places: for _ in views.len()..count {
        if views.push(BLANK).is_err() {
            return Err(Memory);
        }
    }
    Ok(())
}

// The breach of the first of the next views that breaks a rule, with the values of the memories at it. The memories keep the views before
// it.
fn first_breach(
    memories: &[RuleMemory],
    rules: &[Rule],
    recollection: &mut Recollection,
    values: &mut Vec<i64>,
    first: u64,
    views: &[View],
) -> Result<Option<Breach>, Memory>
    ensures broken { IfOk result (λ breach. IsFirstBroken (requirements_of memories.now recollection.old rules.now) views.now (broken_of breach)) }
    ensures reported { IfOk result (λ breach. IfSome breach (λ one. slice_get views.now one.seen.index ≡ Some one.seen.view)) }
    ensures kept { IfOk result (λ breach. recollection.new ≡ kept_after memories.now recollection.old (passed (broken_of breach) views.now)) }
{
    match first_broken_remembered(memories, rules, recollection, values, first, views) {
        Ok(Some(broken)) => Ok(Some(Breach {
            seen: Seen {
                index: broken.view,
                view: views[broken.view],
            },
            rule: broken.rule,
        })),
        Ok(None) => Ok(None),
        Err(_) => Err(Memory),
    }
}

// How many cores, partitions and processes a module has at most. Each partition has its initialising process besides.
fn holders_of(config: &Config) -> Holders {
    let mut holders = Holders {
        cores: config.cores() as usize,
        partitions: config.partition_count(),
        processes: 0,
    };
    for index in 0..config.partition_count() {
        let partition = config.partition_number(index);
        let processes = config.process_limit(partition) as usize;
        holders.processes = holders
            .processes
            .saturating_add(processes)
            .saturating_add(1);
    }
    holders
}
