// The witness is shown what decides a run.

ghost use Rattle.std.specs.Prelude.{◌≡◌, ◌-◌, Ok, option_copied, slice_get};
ghost use Rattle.apex_machine.specs.Runs.{ArePlaced};
ghost use Rattle.report.specs.Shown.{StillBreaks, StillRejects};
ghost use Rattle.user_rules.specs.Rules.{required_of};
ghost use Rattle.shown_run.specs.Judged.{judging_of, judging_with};

use crate::walk::Walk;
use apex_types::{Ordered, Place};
use module_config::Config;
use piece_check::Piece;
use report::{Asked, Verdict, Witness};
use verdict_merge::Breach;

/// Shows a witness the verdict over these records, of which the first is at this place. After a No, its piece must be as it was before
/// the record that it rejects. After a broken rule, the breach must be the one of the record at its place.
pub fn tell<V: Witness>(
    witness: &mut V,
    config: &Config,
    asked: &Asked<'_>,
    walk: &Walk,
    verdict: &Verdict,
    breach: Option<Breach>,
    first: u64,
    records: &[Ordered],
)
    requires placed { ArePlaced first records.now }
    requires rejects { StillRejects config.now records.now (Ok verdict.now) (judging_of first walk.now asked.now.recollection.now) }
    requires breaks { StillBreaks config.now (required_of asked.now.memories.now asked.now.rules.now) records.now (Ok verdict.now) (judging_with first walk.now asked.now.recollection.now breach) }
{
    match verdict {
        Verdict::No { pos, piece, cause } => {
            let found = record_at(*pos, first, records);
            if let (Some(piece), Some(ordered)) = (piece_at(walk, *piece), found) {
                witness.refused(config, piece, ordered, *cause);
            }
        }
        Verdict::Broken { pos, rule } => {
            let found = record_at(*pos, first, records);
            if let (Some(ordered), Some(breach)) = (found, breach) {
                witness.broken(config, asked, ordered, &breach.seen.view, *rule);
            }
        }
        Verdict::Yes { .. } => {}
    }
}

// The record at a place, among records the first of which is at this place.
fn record_at(pos: Place, first: u64, records: &[Ordered]) -> Option<&Ordered>
    ensures { option_copied result ≡ slice_get records.now (pos - first) }
{
    records.get(pos.number().saturating_sub(first) as usize)
}

// The piece of this number.
fn piece_at(walk: &Walk, number: usize) -> Option<&Piece>
    ensures { option_copied result ≡ slice_get walk.now number }
{
    walk.pieces().get(number)
}
