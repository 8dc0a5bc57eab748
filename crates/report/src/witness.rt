// Who receives what is at the place of a No.

ghost use Rattle.std.specs.Prelude.{◌≡◌, ◌-◌, option_copied, slice_get};
ghost use Rattle.apex_machine.specs.Runs.{ArePlaced};
ghost use Rattle.piece_check.specs.Parts.{holder};
ghost use Rattle.user_rules.specs.FirstBroken.{IsFirstRuleBroken};
ghost use Rattle.user_rules.specs.Remembered.{valued_at};
ghost use Rattle.user_rules.specs.Rules.{relations_of, required_of};
ghost use Rattle.verdict_merge.specs.Rounds.{Rejects};
ghost use Rattle.report.specs.Shown.{IsReachedBefore, IsSeenAt, StillBreaks, StillRejects};

use crate::fault::CheckFault;
use apex_types::{Cause, Ordered, Place, View};
use module_config::Config;
use piece_check::Piece;
use user_rules::{Recollection, Rule, RuleMemory};
use verdict_merge::{Judge, Verdict};

/// The memories and the rules of a check, and what the memories have kept of the views before a broken one.
#[derive(Drop)]
pub struct Asked<'a> {
    pub memories: &'a [RuleMemory],
    pub rules: &'a [Rule],
    pub recollection: &'a Recollection,
}

/// Who receives what is at the place of a No or of a broken rule, to explain it to a person. No answer hangs on a witness.
pub trait Witness {
    /// The piece rejects this record for this cause, and is as it was before the record.
    ///
    /// Its part is one that it reaches from the cold state over as many records as the record's place. There the record touches it, and
    /// the first of its demands that fails has the cause.
    fn refused(&mut self, config: &Config, piece: &Piece, ordered: &Ordered, cause: Cause)
        requires reached { IsReachedBefore config.now piece.now.part ordered.now }
        requires rejects { Rejects config.now (holder piece.now.part) piece.now.part ordered.now cause };

    /// The view of this record, with the values of the memories at it, breaks the rule of this number, counted from 0, and meets the rules
    /// before it. The values are those that the memories have by what they have kept of the views before.
    ///
    /// The view is the one that the piece that judges the record has of it, after a run from the cold state over as many records as the
    /// record's place. All pieces run over those records and over this one, and each view of those records meets every rule.
    fn broken(
        &mut self,
        config: &Config,
        asked: &Asked<'_>,
        ordered: &Ordered,
        view: &View,
        rule: usize,
    )
        requires seen { IsSeenAt config.now (required_of asked.now.memories.now asked.now.rules.now) ordered.now view.now asked.now.recollection.now }
        requires broken { IsFirstRuleBroken (relations_of asked.now.rules.now) (valued_at asked.now.memories.now asked.now.recollection.now view.now) rule };
}

/// A witness that does nothing.
#[derive(Clone, Copy, Debug, Drop)]
pub struct Nobody;

impl Witness for Nobody {
    fn refused(&mut self, _config: &Config, _piece: &Piece, _ordered: &Ordered, _cause: Cause) {}

    fn broken(
        &mut self,
        _config: &Config,
        _asked: &Asked<'_>,
        _ordered: &Ordered,
        _view: &View,
        _rule: usize,
    ) {}
}

/// Shows a witness the answer over these records, of which the first is at this place. After a No, its piece must be as it was before
/// the record that it rejects. After a broken rule, its breach must be the one of the last round.
pub(crate) fn tell<V: Witness>(
    witness: &mut V,
    config: &Config,
    memories: &[RuleMemory],
    rules: &[Rule],
    judge: &Judge,
    answer: &Result<Verdict, CheckFault>,
    first: u64,
    records: &[Ordered],
)
    requires placed { ArePlaced first records.now }
    requires rejects { StillRejects config.now records.now answer.now judge.now }
    requires breaks { StillBreaks config.now (required_of memories.now rules.now) records.now answer.now judge.now }
{
    match answer {
        Ok(Verdict::No { pos, piece, cause }) => {
            let found = record_at(*pos, first, records);
            if let (Some(piece), Some(ordered)) = (judge.piece(*piece), found) {
                witness.refused(config, piece, ordered, *cause);
            }
        }
        Ok(Verdict::Broken { pos, rule }) => {
            let found = record_at(*pos, first, records);
            if let (Some(ordered), Some(breach)) = (found, judge.breach()) {
                let asked = Asked {
                    memories,
                    rules,
                    recollection: judge.recollection(),
                };
                witness.broken(config, &asked, ordered, &breach.seen.view, *rule);
            }
        }
        _ => {}
    }
}

// The record at a place, among records the first of which is at this place.
fn record_at(pos: Place, first: u64, records: &[Ordered]) -> Option<&Ordered>
    ensures { option_copied result ≡ slice_get records.now (pos - first) }
{
    records.get(pos.number().saturating_sub(first) as usize)
}
