// One piece judges the records of a round, and several threads test the views of those that it judges.

ghost use Rattle.std.specs.Prelude.{◌≡◌, ◌<◌, [], true, IfOk, IfSome, IsTrue, List, OnErr, Option, length, map, suc};
ghost use Rattle.apex_machine.specs.Pieces.{pieces};
ghost use Rattle.apex_machine.specs.Runs.{ArePlaced, AreOfCores};
ghost use Rattle.apex_machine.specs.Views.{view_in};
ghost use Rattle.piece_check.specs.Parts.{HoldsBefore, IsOf, holder};
ghost use Rattle.user_rules.specs.FirstBroken.{IsFirstAmong};
ghost use Rattle.user_rules.specs.Meets.{alone};
ghost use Rattle.user_rules.specs.Rules.{relations_of};
ghost use Rattle.user_rules.specs.declared.relation.Relation.{Relation};
ghost use Rattle.verdict_merge.specs.declared.breach.Breach.{Breach};
ghost use Rattle.verdict_merge.specs.Keeping.{AreRising, HasKept, HasRoom, KeepsRoom, seen_in, view_unless};
ghost use Rattle.verdict_merge.specs.Rounds.{HasJudged, IsGoing, IsJudgedOver, IsPieceJudged, MayGoOver, MayStep};
ghost use Rattle.verdict_merge.specs.Views.{IsFirstBreach};

use crate::breach::{Breach, Seen};
use crate::fault::Memory;
use crate::finding::Refused;
use crate::judged::{Judged, judge_piece};
use crate::kept::Kept;
use crate::outcome::{Lent, PieceOutcome, Seat, step_over};
use apex_types::{Ordered, View};
use piece_check::{Piece, subject_of};
use std::alloc::Global;
use std::thread::Threads;
use user_rules::{Broken, Rule, first_broken, first_broken_in_turn};

// From how many rules on the views of a piece are kept and tested by several threads. With so many, the list of views costs little beside
// their tests.
const MANY_RULES: usize = 16;

impl Kept {
    // No view yet, with room for this many. None if memory is refused.
    fn with_room(alloc: Global, count: usize) -> Option<Kept>
        ensures no_index { IfSome result (λ kept. kept.indices.items ≡ []) }
        ensures no_view { IfSome result (λ kept. kept.views.items ≡ []) }
        ensures room { IfSome result (HasRoom count) }
    {
        let indices = Vec::with_capacity(alloc, count).ok()?;
        let views = Vec::with_capacity(alloc, count).ok()?;
        Some(Kept { indices, views })
    }

    // Keeps the view of the record with this index, if there is one. Takes no memory.
    fn keep(&mut self, index: usize, view: Option<View>)
        requires room { HasRoom (suc (length self.old.indices.items)) self.old }
        ensures kept { HasKept view index self.old self.new }
        ensures room { KeepsRoom self.old self.new }
    {
        if let Some(one) = view {
            self.indices.push_reserved(index);
            self.views.push_reserved(one);
        }
    }

    // The breach of the first view that breaks a rule. Several threads test the views. Takes no memory.
    fn first_breach<R: Threads + Sync>(&self, rt: &R, rules: &[Rule]) -> Option<Breach>
        requires rising { AreRising (seen_in self.now.indices.items self.now.views.items) }
        ensures { IsFirstBreach (relations_of rules.now) (seen_in self.now.indices.items self.now.views.items) result }
    {
        self.breach_at(rules, first_broken(rt, rules, &self.views))
    }

    // The same on the caller's thread alone.
    fn first_breach_in_turn(&self, rules: &[Rule]) -> Option<Breach>
        requires rising { AreRising (seen_in self.now.indices.items self.now.views.items) }
        ensures { IsFirstBreach (relations_of rules.now) (seen_in self.now.indices.items self.now.views.items) result }
    {
        self.breach_at(rules, first_broken_in_turn(rules, &self.views))
    }

    // The breach of the view that breaks a rule first.
    fn breach_at(&self, rules: &[Rule], broken: Option<Broken>) -> Option<Breach>
        requires rising { AreRising (seen_in self.now.indices.items self.now.views.items) }
        requires first { IsFirstAmong (relations_of rules.now) (map alone self.now.views.items) broken }
        ensures { IsFirstBreach (relations_of rules.now) (seen_in self.now.indices.items self.now.views.items) result }
    {
        let broken = broken?;
        let index = self.indices[broken.view];
        let view = self.views[broken.view];
        Some(Breach {
            seen: Seen { index, view },
            rule: broken.rule,
        })
    }
}

/// What `judge_piece` does if the views are kept: they are tested by the rules once the piece has gone over the round.
///
/// Memory if memory was refused; the piece is then given up.
pub(crate) fn judge_and_keep_all(
    alloc: Global,
    lent: &Lent,
    rules: &[Rule],
    number: usize,
    mut piece: Piece,
) -> Result<Judged, Memory>
    requires piece { number < length (pieces lent.now.config.now) }
    requires going { IsGoing lent.now.config.now number lent.now.first piece }
    requires placed { ArePlaced lent.now.first lent.now.records.now }
    requires cores { AreOfCores lent.now.config.now.cores lent.now.records.now }
    ensures { IfOk result (IsPieceJudged lent.now.config.now number lent.now.first lent.now.records.now (relations_of rules.now) true piece) }
{
    let Some(mut kept) = Kept::with_room(alloc, lent.records.len()) else {
        drop(piece);
        return Err(Memory);
    };
    let seat = Seat {
        lent: *lent,
        number,
    };
    match go_over_untested(&seat, &mut piece, &mut kept) {
        Ok(found) => {
            let breach = kept.first_breach_in_turn(rules);
            Ok(Judged {
                piece,
                outcome: PieceOutcome { found, breach },
                kept: Some(kept),
            })
        }
        Err(memory) => {
            drop(piece);
            Err(memory)
        }
    }
}

/// What `judge_piece` does. If there are many rules, the views of the piece are kept, and several threads test them afterwards.
///
/// Memory if the piece was refused memory; it is then given up. If memory for the views is refused, they are tested where they are made.
pub fn judge_piece_by_threads<R: Threads + Sync>(
    rt: &R,
    alloc: Global,
    lent: &Lent,
    rules: &[Rule],
    number: usize,
    mut piece: Piece,
) -> Result<Judged, Memory>
    requires piece { number < length (pieces lent.now.config.now) }
    requires going { IsGoing lent.now.config.now number lent.now.first piece }
    requires placed { ArePlaced lent.now.first lent.now.records.now }
    requires cores { AreOfCores lent.now.config.now.cores lent.now.records.now }
    ensures { IfOk result (IsPieceJudged lent.now.config.now number lent.now.first lent.now.records.now (relations_of rules.now) lent.now.keeps piece) }
{
    if lent.keeps || rules.len() < MANY_RULES {
        return judge_piece(alloc, lent, rules, number, piece);
    }
    let Some(mut kept) = Kept::with_room(alloc, lent.records.len()) else {
        return judge_piece(alloc, lent, rules, number, piece);
    };
    let seat = Seat {
        lent: *lent,
        number,
    };
    match go_over_untested(&seat, &mut piece, &mut kept) {
        Ok(found) => {
            let breach = kept.first_breach(rt, rules);
            Ok(Judged {
                piece,
                outcome: PieceOutcome { found, breach },
                kept: None,
            })
        }
        Err(memory) => {
            drop(piece);
            Err(memory)
        }
    }
}

// Lets the piece of a seat judge the records that touch it, up to the first that it rejects, which leaves the piece as it was
// before that record. Returns its refusal if it rejected a record. The view of each record that it judges is kept, and none is tested.
//
// Memory if the piece was refused memory.
fn go_over_untested(
    seat: &Seat,
    piece: &mut Piece,
    kept: &mut Kept,
) -> Result<Option<Refused>, Memory>
    requires may { MayGoOver seat.now.lent.config.now seat.now.number seat.now.lent.first seat.now.lent.records.now piece.old }
    requires none { kept.old.indices.items ≡ [] }
    requires room { HasRoom (length seat.now.lent.records.now) kept.old }
    ensures outcome { IfOk result (λ found. (relations : List Relation) (breach : Option Breach)
        → IsFirstBreach relations (seen_in kept.new.indices.items kept.new.views.items) breach
        → (over : IsJudgedOver seat.now.lent.config.now seat.now.number seat.now.lent.first seat.now.lent.records.now relations piece.old (record { found = found; breach = breach }) piece.new)
        × (seen_in kept.new.indices.items kept.new.views.items ≡ over.seen)) }
    ensures rising { IfOk result (λ _. AreRising (seen_in kept.new.indices.items kept.new.views.items)) }
    ensures memory { OnErr result (IsTrue piece.new.exhausted) }
{
    let lent = &seat.lent;
    let subject = subject_of(lent.config, seat.number);
    let records = lent.records;
    for index in lent.touched.of(&subject) {
        match judge_and_keep(seat, piece, index, &records[index], kept) {
            Ok(None) => {}
            Ok(Some(refused)) => return Ok(Some(refused)),
            Err(memory) => return Err(memory),
        }
    }
    Ok(None)
}

// Lets the piece of a seat judge a record that touches it. Returns its refusal if it rejects the record. Else the record's view is
// kept, if the piece has one. Memory if the piece was refused memory.
#[tactic(auto, using(crate::proofs::Keeping::none_more))]
fn judge_and_keep(
    seat: &Seat,
    piece: &mut Piece,
    index: usize,
    ordered: &Ordered,
    kept: &mut Kept,
) -> Result<Option<Refused>, Memory>
    requires step { MayStep seat.now.lent.config.now piece.old ordered.now }
    requires room { HasRoom (suc (length kept.old.indices.items)) kept.old }
    ensures judged { IfOk result (λ refused. HasJudged seat.now.lent.config.now seat.now.number ordered.now piece.old refused piece.new) }
    ensures kept { IfOk result (λ refused. HasKept (view_unless refused (view_in piece.old.part ordered.now)) index kept.old kept.new) }
    ensures room { KeepsRoom kept.old kept.new }
    ensures of_module { IfOk result (λ _. IsOf seat.now.lent.config.now piece.new) }
    ensures whose { holder piece.new.part ≡ holder piece.old.part }
    ensures memory { OnErr result (IsTrue piece.new.exhausted) }
{
    if piece.pass_by(ordered) {
        return Ok(None);
    }
    let view = piece.view(ordered);
    match step_over(seat, piece, index, ordered) {
        Ok(None) => {
            kept.keep(index, view);
            Ok(None)
        }
        Ok(Some(refused)) => Ok(Some(refused)),
        Err(memory) => Err(memory),
    }
}
