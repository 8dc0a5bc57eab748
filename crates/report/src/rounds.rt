// The recording, judged in rounds.

ghost use Rattle.std.specs.Prelude.{◌≡◌, ◌⊎◌, ◌≤◌, [], Err, IfOk, IfSome, Ok, length, false};
ghost use Rattle.std.specs.Thread.{IsSync};
ghost use Rattle.order_cert.specs.Kept.{place_of};
ghost use Rattle.placement.specs.Lanes.{AreHonest, IsAhead};
ghost use Rattle.placement.specs.Scan.{Scan};
ghost use Rattle.user_rules.specs.Rules.{required_of, requirements_of};
ghost use Rattle.verdict_merge.specs.declared.verdict.Verdict.TheVariants.{Yes};
ghost use Rattle.report.specs.Last.{last_of};
ghost use Rattle.report.specs.Outcome.{IsJudged, answer_with};
ghost use Rattle.report.specs.Rounds.{IsDecided, IsLastAnswer, IsPlaced, LeavesItsBreach, LeavesItsPiece, MayJudge};

use crate::fault::CheckFault;
use crate::last::Last;
use crate::options::Options;
use crate::witness::{Witness, tell};
use apex_types::Ordered;
use csv_rows::TextSource;
use module_config::Config;
use placement::{Filled, InputFault, Placer};
use std::alloc::Global;
use std::mem;
use std::sync::Wait;
use std::thread::{Threads, join_mut};
use user_rules::{Rule, RuleMemory};
use verdict_merge::{Gate, Judge, Memory, Verdict};

/// What records are judged under: the configuration, the memories and the rules, and how the check is carried out.
#[derive(Drop)]
pub struct Terms<'a, G> {
    pub config: &'a Config,
    pub memories: &'a [RuleMemory],
    pub rules: &'a [Rule],
    pub options: &'a Options<'a, G>,
}

/// Judges all records that are ahead of the placer, in rounds. While a round is judged the next one is filled; after a round with
/// a finding nothing further is taken than that one.
///
/// What is promised holds once the placer's threads are joined, since it is known then what they read. After a No and after a broken
/// rule the last records before its place are kept, and the witness receives what is there.
pub fn judge_all<
    T: Threads + Wait + Sync,
    R: TextSource,
    C: TextSource,
    G: Gate + Sync,
    V: Witness,
>(
    rt: &T,
    alloc: Global,
    terms: &Terms<'_, G>,
    placer: &mut Placer<R, C>,
    last: &mut Last,
    witness: &mut V,
) -> Result<Verdict, CheckFault>
    requires going { placer.old.ended ≡ false }
    requires first { place_of placer.old.kept ≡ 0 }
    requires cores { length placer.old.lanes ≡ terms.now.config.now.cores }
    ensures { AreHonest R.can_fail placer.new.lanes → (result ≡ Err CheckFault.Memory) ⊎ ((scanned : Scan) × IsAhead (record { recordings = R.can_fail; certificate = C.can_fail }) placer.old scanned × IsJudged terms.now.config.now (required_of terms.now.memories.now terms.now.rules.now) scanned result × (last.new ≡ last_of result scanned.placed)) }
{
    let size = terms.options.size;
    last.clear();
    let Ok(mut judge) = Judge::start(alloc, terms.config, terms.memories) else {
        return Err(CheckFault::Memory);
    };
    let Ok(mut round) = Vec::with_capacity(alloc, size) else {
        return Err(CheckFault::Memory);
    };
    let Ok(mut next) = Vec::with_capacity(alloc, size) else {
        return Err(CheckFault::Memory);
    };
    let mut filled = placer.fill(rt, &mut round, size);
    // There are fewer places than this many rounds.
    'rounds: for _ in 0..u64::MAX {
        let first = judge.count();
        match filled {
            Filled::Full => {}
            Filled::Memory => return Err(CheckFault::Memory),
            Filled::Ended(end) => {
                let answer = judge_last(rt, terms, &mut judge, &round, end);
                last.keep_after_answer(&answer, first, &round);
                tell(
                    witness,
                    terms.config,
                    terms.memories,
                    terms.rules,
                    &judge,
                    &answer,
                    first,
                    &round,
                );
                return answer;
            }
        }
        next.clear();
        let (decided, coming) = judge_and_fill(rt, terms, &mut judge, &round, placer, &mut next);
        match decided {
            Ok(None) => last.keep(&round),
            Ok(Some(verdict)) => {
                let answer = Ok(verdict);
                last.keep_after_answer(&answer, first, &round);
                tell(
                    witness,
                    terms.config,
                    terms.memories,
                    terms.rules,
                    &judge,
                    &answer,
                    first,
                    &round,
                );
                return answer;
            }
            Err(_) => return Err(CheckFault::Memory),
        }
        mem::swap(&mut round, &mut next);
        filled = coming;
    }
    Err(CheckFault::Memory)
}

// Judges a round and fills the next one: at the same time in another thread if there are several workers, and afterwards if there is one.
fn judge_and_fill<T: Threads + Wait + Sync, R: TextSource, C: TextSource, G: Gate + Sync>(
    rt: &T,
    terms: &Terms<'_, G>,
    judge: &mut Judge,
    round: &[Ordered],
    placer: &mut Placer<R, C>,
    next: &mut Vec<Ordered>,
) -> (Result<Option<Verdict>, Memory>, Filled)
    requires may { MayJudge terms.now.config.now judge.old round.now }
    requires going { placer.old.ended ≡ false }
    requires empty { next.old.items ≡ [] }
    ensures decided { IfOk result.0 (λ decided. IsDecided terms.now.config.now (requirements_of terms.now.memories.now judge.old.kept terms.now.rules.now) judge.old round.now decided judge.new) }
    ensures breach { IfOk result.0 (λ decided. IfSome decided (λ verdict. LeavesItsBreach terms.now.config.now (requirements_of terms.now.memories.now judge.old.kept terms.now.rules.now) judge.old round.now (Ok verdict) judge.new)) }
    ensures placed { IsPlaced (record { recordings = R.can_fail; certificate = C.can_fail }) placer.old next.new.items result.1 placer.new }
{
    let size = terms.options.size;
    if terms.options.settings.workers == 1 {
        let decided = judge_and_tell(rt, terms, judge, round);
        return (decided, fill(rt, placer, next, size));
    }
    let Terms {
        config,
        memories,
        rules,
        options,
    } = *terms;
    join_mut(
        rt,
        &mut ||
            requires { IsSync T.row × IsSync G.row × MayJudge config.now judge.now round.now }
            ensures decided { IfOk result (λ decided. IsDecided config.entry.now (requirements_of memories.entry.now judge.entry.now.kept rules.entry.now) judge.entry.now round.entry.now decided judge.exit.now) }
            ensures breach { IfOk result (λ decided. IfSome decided (λ verdict. LeavesItsBreach config.entry.now (requirements_of memories.entry.now judge.entry.now.kept rules.entry.now) judge.entry.now round.entry.now (Ok verdict) judge.exit.now)) }
        {
            judge_and_tell(
                rt,
                &Terms {
                    config,
                    memories,
                    rules,
                    options,
                },
                judge,
                round,
            )
        },
        &mut ||
            requires { (placer.now.ended ≡ false) × (next.now.items ≡ []) }
            ensures { IsPlaced (record { recordings = R.can_fail; certificate = C.can_fail }) placer.entry.now next.exit.now.items result placer.exit.now }
        { fill(rt, placer, next, size) },
    )
}

// Judges a round, and tells the gate if that decides: the next round may be waiting for a reader then.
fn judge_and_tell<T: Threads + Wait + Sync, G: Gate + Sync>(
    rt: &T,
    terms: &Terms<'_, G>,
    judge: &mut Judge,
    round: &[Ordered],
) -> Result<Option<Verdict>, Memory>
    requires may { MayJudge terms.now.config.now judge.old round.now }
    ensures decided { IfOk result (λ decided. IsDecided terms.now.config.now (requirements_of terms.now.memories.now judge.old.kept terms.now.rules.now) judge.old round.now decided judge.new) }
    ensures breach { IfOk result (λ decided. IfSome decided (λ verdict. LeavesItsBreach terms.now.config.now (requirements_of terms.now.memories.now judge.old.kept terms.now.rules.now) judge.old round.now (Ok verdict) judge.new)) }
{
    let decided = judge_round(rt, terms, judge, round);
    if !matches!(decided, Ok(None)) {
        terms.options.gate.at_answer();
    }
    decided
}

// Fills a round with the next records, up to this many of them.
fn fill<T: Wait, R: TextSource, C: TextSource>(
    rt: &T,
    placer: &mut Placer<R, C>,
    round: &mut Vec<Ordered>,
    size: usize,
) -> Filled
    requires going { placer.old.ended ≡ false }
    requires empty { round.old.items ≡ [] }
    ensures { IsPlaced (record { recordings = R.can_fail; certificate = C.can_fail }) placer.old round.new.items result placer.new }
{
    placer.fill(rt, round, size)
}

// Judges the last round, after which the input ends so.
fn judge_last<T: Threads + Wait + Sync, G: Gate + Sync>(
    rt: &T,
    terms: &Terms<'_, G>,
    judge: &mut Judge,
    round: &[Ordered],
    end: Result<(), InputFault>,
) -> Result<Verdict, CheckFault>
    requires may { MayJudge terms.now.config.now judge.old round.now }
    ensures answer { IsLastAnswer terms.now.config.now (requirements_of terms.now.memories.now judge.old.kept terms.now.rules.now) judge.old round.now end result }
    ensures leaves { LeavesItsPiece terms.now.config.now judge.old round.now result judge.new }
    ensures breach { LeavesItsBreach terms.now.config.now (requirements_of terms.now.memories.now judge.old.kept terms.now.rules.now) judge.old round.now result judge.new }
{
    match judge_round(rt, terms, judge, round) {
        Ok(Some(verdict)) => Ok(verdict),
        Ok(None) => answer_at(end, judge.count()),
        Err(_) => Err(CheckFault::Memory),
    }
}

// The answer if nothing decides against the records: Yes with the number of those judged, or the refusal after them.
fn answer_at(end: Result<(), InputFault>, count: u64) -> Result<Verdict, CheckFault>
    ensures { result ≡ answer_with (Yes count) end }
{
    match end {
        Ok(()) => Ok(Verdict::Yes { records: count }),
        Err(fault) => Err(CheckFault::Input(fault)),
    }
}

// Judges the records of a round: what decides against them, if anything does.
//
// Memory if memory or a thread was refused.
fn judge_round<T: Threads + Wait + Sync, G: Gate + Sync>(
    rt: &T,
    terms: &Terms<'_, G>,
    judge: &mut Judge,
    round: &[Ordered],
) -> Result<Option<Verdict>, Memory>
    requires may { MayJudge terms.now.config.now judge.old round.now }
    ensures decided { IfOk result (λ decided. IsDecided terms.now.config.now (requirements_of terms.now.memories.now judge.old.kept terms.now.rules.now) judge.old round.now decided judge.new) }
    ensures breach { IfOk result (λ decided. IfSome decided (λ verdict. LeavesItsBreach terms.now.config.now (requirements_of terms.now.memories.now judge.old.kept terms.now.rules.now) judge.old round.now (Ok verdict) judge.new)) }
{
    let options = terms.options;
    let workers = options.settings.workers;
    match judge.round(
        rt,
        terms.config,
        round,
        terms.memories,
        terms.rules,
        workers,
        options.gate,
    ) {
        Ok(found) => Ok(Verdict::against(round, found, judge.breach())),
        Err(_) => Err(Memory),
    }
}
