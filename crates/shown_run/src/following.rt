// A run is judged record by record, and a follower sees each.

ghost use Rattle.std.specs.Prelude.{◌≡◌, [], false, length};
ghost use Rattle.order_cert.specs.Kept.{place_of};
ghost use Rattle.placement.specs.Lanes.{AreHonest};
ghost use Rattle.user_rules.specs.Memories.{nothing};
ghost use Rattle.user_rules.specs.Rules.{required_of};
ghost use Rattle.verdict_merge.specs.Rounds.{AllRun, AreGoing, cold_parts, parts_in};
ghost use Rattle.shown_run.specs.Judged.{IsFollowed, followed_by};

use crate::fault::FollowFault;
use crate::round::{Round, next_round};
use crate::run::Run;
use apex_types::{Cause, Ordered};
use csv_rows::TextSource;
use module_config::Config;
use piece_check::Piece;
use placement::Placer;
use report::{CheckFault, Verdict, Witness};
use std::alloc::Global;
use std::sync::Wait;
use user_rules::{Rule, RuleMemory};

/// Who sees each record of a run as it is judged. A follower may stop the run.
pub trait Follower {
    /// Why it stops the run.
    type Stop: Drop;

    /// These are the pieces before the first record.
    fn begin(&mut self, pieces: &[Piece]) -> Result<(), Self::Stop>;

    /// These pieces are about to judge the next record.
    fn meet(&mut self, pieces: &[Piece], ordered: &Ordered) -> Result<(), Self::Stop>;

    /// These pieces have taken the next record. If its view breaks a rule, it is the last one.
    fn accept(&mut self, pieces: &[Piece], ordered: &Ordered) -> Result<(), Self::Stop>;

    /// The next record is rejected for this cause. It is the last one.
    fn reject(&mut self, ordered: &Ordered, cause: Cause) -> Result<(), Self::Stop>;
}

/// Judges all records that are ahead of the placer under these memories and rules, one after another, and shows them to the follower. The
/// witness receives the record at the place of a No or of a broken rule.
///
/// Unless the follower stops the run, the answer is that of a check of what is ahead; it is known once the placer's threads are joined.
pub fn follow<R: Wait, S: TextSource, C: TextSource, V: Witness, F: Follower>(
    rt: &R,
    alloc: Global,
    config: &Config,
    memories: &[RuleMemory],
    rules: &[Rule],
    placer: &mut Placer<S, C>,
    witness: &mut V,
    follower: &mut F,
) -> Result<Verdict, FollowFault<F::Stop>>
    requires going { placer.old.ended ≡ false }
    requires first { place_of placer.old.kept ≡ 0 }
    requires cores { length placer.old.lanes ≡ config.now.cores }
    ensures { AreHonest S.can_fail placer.new.lanes → IsFollowed (record { recordings = S.can_fail; certificate = C.can_fail }) config.now (required_of memories.now rules.now) placer.old result }
{
    let Ok(mut run) = Run::start(alloc, config, memories, rules) else {
        return Err(out_of_memory());
    };
    if let Err(stop) = follower.begin(run.walk.pieces()) {
        return Err(FollowFault::Stopped(stop));
    }
    follow_all(rt, alloc, &mut run, placer, witness, follower)
}

fn follow_all<R: Wait, S: TextSource, C: TextSource, V: Witness, F: Follower>(
    rt: &R,
    alloc: Global,
    run: &mut Run<'_>,
    placer: &mut Placer<S, C>,
    witness: &mut V,
    follower: &mut F,
) -> Result<Verdict, FollowFault<F::Stop>>
    requires going { placer.old.ended ≡ false }
    requires first { place_of placer.old.kept ≡ 0 }
    requires cores { length placer.old.lanes ≡ run.old.config.now.cores }
    requires cold { AllRun run.old.config.now (cold_parts run.old.config.now) [] (parts_in run.old.walk) }
    requires pieces { AreGoing run.old.config.now 0 run.old.walk }
    requires kept { run.old.kept ≡ nothing run.old.memories.now }
    ensures { AreHonest S.can_fail placer.new.lanes → IsFollowed (record { recordings = S.can_fail; certificate = C.can_fail }) run.old.config.now (required_of run.old.memories.now run.old.rules.now) placer.old result }
{
    let mut first = 0u64;
    // There are fewer places than this many records.
    'records: for _ in 0..u64::MAX {
        let Ok(round) = next_round(rt, alloc, placer, first, 1) else {
            return Err(out_of_memory());
        };
        if let Err(stop) = meet(follower, run.walk.pieces(), &round) {
            return Err(FollowFault::Stopped(stop));
        }
        let Ok(verdict) = run.judge(first, &round.records, witness) else {
            return Err(out_of_memory());
        };
        if let Err(stop) = show(follower, run.walk.pieces(), &round.records, &verdict) {
            return Err(FollowFault::Stopped(stop));
        }
        if let Some(answer) = round.answer(&verdict) {
            return followed(answer);
        }
        first = round.next;
    }
    Err(out_of_memory())
}

// The answer of a run that is followed.
fn followed<Stop>(answer: Result<Verdict, CheckFault>) -> Result<Verdict, FollowFault<Stop>>
    ensures { result ≡ followed_by answer }
{
    match answer {
        Ok(verdict) => Ok(verdict),
        Err(fault) => Err(FollowFault::Refused(fault)),
    }
}

// The end by a lack of memory.
fn out_of_memory<Stop>() -> FollowFault<Stop>
    ensures { result ≡ FollowFault.Refused CheckFault.Memory }
{
    FollowFault::Refused(CheckFault::Memory)
}

// Shows the follower a round of at most one record before it is judged.
fn meet<F: Follower>(follower: &mut F, pieces: &[Piece], round: &Round) -> Result<(), F::Stop> {
    for ordered in round.records.iter() {
        follower.meet(pieces, ordered)?;
    }
    Ok(())
}

// Shows the follower a round of at most one record, over which this is the verdict, if one decides.
fn show<F: Follower>(
    follower: &mut F,
    pieces: &[Piece],
    records: &[Ordered],
    verdict: &Option<Verdict>,
) -> Result<(), F::Stop> {
    for ordered in records {
        match verdict {
            Some(Verdict::No { cause, .. }) => follower.reject(ordered, *cause)?,
            _ => follower.accept(pieces, ordered)?,
        }
    }
    Ok(())
}
