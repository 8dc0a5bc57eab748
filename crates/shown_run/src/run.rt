// A run, judged by rounds while it is shown.

ghost use Rattle.std.specs.Prelude.{◌≡◌, ◌<◌, ◌+◌, ℕ, List, [], ◌∷◌, All, IfOk, IfSome, None, Some, length, slice_get};
ghost use Rattle.apex_machine.specs.Runs.{ArePlaced, AreOfCores};
ghost use Rattle.apex_machine.specs.Views.{view_in};
ghost use Rattle.piece_check.specs.Parts.{HoldsBefore};
ghost use Rattle.report.specs.Rounds.{IsDecided};
ghost use Rattle.user_rules.specs.FirstBroken.{IsFirstBroken};
ghost use Rattle.user_rules.specs.Memories.{nothing};
ghost use Rattle.user_rules.specs.Passed.{passed};
ghost use Rattle.user_rules.specs.Remembered.{kept_after};
ghost use Rattle.user_rules.specs.Rules.{required_of, requirements_of};
ghost use Rattle.verdict_merge.specs.Rounds.{AllRun, AreGoing, HaveRunOver, IsTested, cold_parts, parts_in};
ghost use Rattle.verdict_merge.specs.Verdicts.{ViewsLead};
ghost use Rattle.verdict_merge.specs.Views.{broken_of};
ghost use Rattle.shown_run.specs.Judged.{judging_of};

use crate::rounds::{Rounds, Taken};
use crate::walk::Walk;
use crate::witness::tell;
use apex_types::{Ordered, View};
use module_config::Config;
use piece_check::Piece;
use report::{Asked, Verdict, Witness};
use std::alloc::{AllocError, Global};
use user_rules::{Rule, RuleMemory};
use verdict_merge::{Breach, Refused, Remembering};

/// A run so far: the pieces, as the records have left them, the memories and the rules under which they are judged, and what the memories
/// have kept.
#[derive(Drop)]
pub struct Run<'a> {
    pub config: &'a Config,
    pub memories: &'a [RuleMemory],
    pub rules: &'a [Rule],
    pub walk: Walk,
    pub kept: Remembering,
    rounds: Rounds,
}

impl<'a> Run<'a> {
    /// The run before its first record.
    ///
    /// `AllocError` if memory is refused.
    pub fn start(
        alloc: Global,
        config: &'a Config,
        memories: &'a [RuleMemory],
        rules: &'a [Rule],
    ) -> Result<Run<'a>, AllocError>
        ensures config { IfOk result (λ run. run.config.now ≡ config.now) }
        ensures memories { IfOk result (λ run. run.memories.now ≡ memories.now) }
        ensures rules { IfOk result (λ run. run.rules.now ≡ rules.now) }
        ensures kept { IfOk result (λ run. run.kept ≡ nothing memories.now) }
        ensures cold { IfOk result (λ run. AllRun config.now (cold_parts config.now) [] (parts_in run.walk)) }
        ensures going { IfOk result (λ run. AreGoing config.now 0 run.walk) }
    {
        let (Ok(walk), Ok(rounds)) = (Walk::start(alloc, config), Rounds::new(alloc)) else {
            return Err(AllocError);
        };
        let Ok(kept) = Remembering::start(alloc, config, memories) else {
            return Err(AllocError);
        };
        Ok(Run {
            config,
            memories,
            rules,
            walk,
            kept,
            rounds,
        })
    }

    /// Judges the next records, the first of which is at this place. Returns the verdict that decides the run, if one of them does; the
    /// witness receives the record at its place. There is then no next round. The piece that rejects a record is as it was before the record.
    /// A single record is judged in place: no piece is moved, and no memory is taken for the round.
    ///
    /// `AllocError` if memory was refused; the pieces are then given up.
    pub fn judge<V: Witness>(
        &mut self,
        first: u64,
        records: &[Ordered],
        witness: &mut V,
    ) -> Result<Option<Verdict>, AllocError>
        requires going { AreGoing self.old.config.now first self.old.walk }
        requires placed { ArePlaced first records.now }
        requires cores { AreOfCores self.old.config.now.cores records.now }
        requires reached { (before : List Ordered) × AllRun self.old.config.now (cold_parts self.old.config.now) before (parts_in self.old.walk) × ViewsLead self.old.config.now (required_of self.old.memories.now self.old.rules.now) (cold_parts self.old.config.now) before (requirements_of self.old.memories.now self.old.kept self.old.rules.now) × (first ≡ length before) }
        ensures decided { IfOk result (λ decided. IsDecided self.old.config.now (requirements_of self.old.memories.now self.old.kept self.old.rules.now) (judging_of first self.old.walk self.old.kept) records.now decided (judging_of (first + length records.now) self.new.walk self.new.kept)) }
        ensures same { self.new.config ≡ self.old.config }
        ensures memories { self.new.memories ≡ self.old.memories }
        ensures rules { self.new.rules ≡ self.old.rules }
    {
        let (config, memories, rules) = (self.config, self.memories, self.rules);
        let Ok(taken) = self.take(first, records) else {
            return Err(AllocError);
        };
        let Taken { found, breach } = taken;
        let verdict = Verdict::against(records, found, breach);
        if let Some(verdict) = &verdict {
            let asked = Asked {
                memories,
                rules,
                recollection: self.kept.recollection(),
            };
            tell(
                witness, config, &asked, &self.walk, verdict, breach, first, records,
            );
        }
        Ok(verdict)
    }

    // Lets the pieces take the next records, the first of which is at this place, and tests their views.
    fn take(&mut self, first: u64, records: &[Ordered]) -> Result<Taken, AllocError>
        requires going { AreGoing self.old.config.now first self.old.walk }
        requires placed { ArePlaced first records.now }
        requires cores { AreOfCores self.old.config.now.cores records.now }
        ensures outcome { IfOk result (λ taken. HaveRunOver self.old.config.now self.old.walk records.now taken.found self.new.walk) }
        ensures tested { IfOk result (λ taken. IsTested self.old.config.now (requirements_of self.old.memories.now self.old.kept self.old.rules.now) (parts_in self.old.walk) records.now taken.found taken.breach self.new.kept) }
        ensures going { IfOk result (λ taken. taken.found ≡ None → AreGoing self.old.config.now (first + length records.now) self.new.walk) }
        ensures same { self.new.config ≡ self.old.config }
        ensures memories { self.new.memories ≡ self.old.memories }
        ensures rules { self.new.rules ≡ self.old.rules }
    {
        if records.len() == 1 {
            return self.take_next(&records[0]);
        }
        match self.rounds.take(
            self.config,
            first,
            records,
            self.memories,
            self.rules,
            &mut self.walk,
            &mut self.kept,
        ) {
            Ok(taken) => Ok(taken),
            Err(_) => Err(AllocError),
        }
    }

    // Lets the pieces take the next record where they are, and tests its view if they accept it.
    fn take_next(&mut self, ordered: &Ordered) -> Result<Taken, AllocError>
        requires going { AreGoing self.old.config.now ordered.now.pos self.old.walk }
        requires core { ordered.now.core < self.old.config.now.cores }
        ensures outcome { IfOk result (λ taken. HaveRunOver self.old.config.now self.old.walk (ordered.now ∷ []) taken.found self.new.walk) }
        ensures tested { IfOk result (λ taken. IsTested self.old.config.now (requirements_of self.old.memories.now self.old.kept self.old.rules.now) (parts_in self.old.walk) (ordered.now ∷ []) taken.found taken.breach self.new.kept) }
        ensures going { IfOk result (λ taken. taken.found ≡ None → AreGoing self.old.config.now (ordered.now.pos + 1) self.new.walk) }
        ensures same { self.new.config ≡ self.old.config }
        ensures memories { self.new.memories ≡ self.old.memories }
        ensures rules { self.new.rules ≡ self.old.rules }
    {
        let view = view_at(self.walk.pieces(), ordered);
        match self.walk.take(self.config, ordered) {
            Ok(None) => {
                let place = ordered.pos.number();
                let breach = test(&mut self.kept, self.memories, self.rules, place, view)?;
                Ok(Taken {
                    found: None,
                    breach,
                })
            }
            Ok(Some(refusal)) => Ok(Taken {
                found: Some(Refused {
                    pos: ordered.pos,
                    piece: refusal.piece,
                    cause: refusal.cause,
                }),
                breach: None,
            }),
            Err(_) => Err(AllocError),
        }
    }
}

// Tests the view of the record at this place, if it has one, by the rules, with the values of the memories at it. Returns its breach if it
// breaks a rule; else the memories keep the view.
fn test(
    kept: &mut Remembering,
    memories: &[RuleMemory],
    rules: &[Rule],
    place: u64,
    view: Option<View>,
) -> Result<Option<Breach>, AllocError>
    ensures broken { IfOk result (λ breach. IfSome view (λ one. IsFirstBroken (requirements_of memories.now kept.old rules.now) (one ∷ []) (broken_of breach))) }
    ensures reported { IfOk result (λ breach. IfSome view (λ one. IfSome breach (λ found. slice_get (one ∷ []) found.seen.index ≡ Some found.seen.view))) }
    ensures kept { IfOk result (λ breach. IfSome view (λ one. kept.new ≡ kept_after memories.now kept.old (passed (broken_of breach) (one ∷ [])))) }
{
    let Some(one) = view else {
        return Ok(None);
    };
    match kept.test(memories, rules, place, &one) {
        Ok(breach) => Ok(breach),
        Err(_) => Err(AllocError),
    }
}

// The view of the next record, which one piece gives if the pieces accept the record.
fn view_at(pieces: &[Piece], ordered: &Ordered) -> Option<View>
    requires { All (λ piece. HoldsBefore ordered.now.pos piece.part) pieces.now }
    ensures given { IfSome result (λ view. (number : ℕ) × (number < length pieces.now) × (view_in (parts_in pieces.now number) ordered.now ≡ Some view)) }
    ensures none { result ≡ None → (number : ℕ) → number < length pieces.now → view_in (parts_in pieces.now number) ordered.now ≡ None }
{
    'pieces: for number in 0..pieces.len() {
        if let Some(view) = pieces[number].view(ordered) {
            return Some(view);
        }
    }
    None
}
