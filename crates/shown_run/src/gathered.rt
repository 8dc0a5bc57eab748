// A run is judged, and the stretch that a picture shows is kept.

ghost use Rattle.std.specs.Prelude.{◌≡◌, ◌⊎◌, [], Err, IfOk, OnOk, false, length, true};
ghost use Rattle.order_cert.specs.Kept.{place_of};
ghost use Rattle.placement.specs.Lanes.{AreHonest};
ghost use Rattle.user_rules.specs.Memories.{nothing};
ghost use Rattle.user_rules.specs.Rules.{required_of};
ghost use Rattle.verdict_merge.specs.Rounds.{AllRun, AreGoing, cold_parts, parts_in};
ghost use Rattle.shown_run.specs.Judged.{IsAnswerOf, IsGatheredOf, IsShownOf};
ghost use Rattle.shown_run.specs.Stretches.{GoesOn, IsGatheredOfSome, IsWhole, KeepsSame, answer_of};

use crate::gathering::Gathering;
use crate::round::next_round;
use crate::run::Run;
use crate::stretch::{Asked, Stretch};
use csv_rows::TextSource;
use module_config::Config;
use placement::Placer;
use report::{CheckFault, Verdict, Witness};
use std::alloc::Global;
use std::sync::Wait;
use user_rules::{Rule, RuleMemory};

/// Judges all records that are ahead of the placer under these memories and rules, and keeps the stretch that is asked for. The witness
/// receives the record at the place of a No or of a broken rule.
///
/// The answer is that of a check of what is ahead; it is known once the placer's threads are joined. The stretch ends with the last record
/// that the run accepts, or at the last place that is asked for if that is before. If the input is refused or memory is, no stretch is kept.
pub fn gather<R: Wait, S: TextSource, C: TextSource, V: Witness>(
    rt: &R,
    alloc: Global,
    config: &Config,
    memories: &[RuleMemory],
    rules: &[Rule],
    asked: Asked,
    placer: &mut Placer<S, C>,
    witness: &mut V,
) -> Result<(Verdict, Stretch), CheckFault>
    requires going { placer.old.ended ≡ false }
    requires first { place_of placer.old.kept ≡ 0 }
    requires cores { length placer.old.lanes ≡ config.now.cores }
    ensures answer { AreHonest S.can_fail placer.new.lanes → IsAnswerOf (record { recordings = S.can_fail; certificate = C.can_fail }) config.now (required_of memories.now rules.now) placer.old (answer_of result) }
    ensures shown { AreHonest S.can_fail placer.new.lanes → IsShownOf (record { recordings = S.can_fail; certificate = C.can_fail }) config.now (required_of memories.now rules.now) placer.old asked.at result }
    ensures whole { IfOk result (λ found. IsWhole config.now found.1) }
{
    let Ok(mut run) = Run::start(alloc, config, memories, rules) else {
        return Err(CheckFault::Memory);
    };
    let Ok(mut gathering) = Gathering::start(alloc, config, asked) else {
        return Err(CheckFault::Memory);
    };
    match gather_all(rt, alloc, &mut run, &mut gathering, placer, witness) {
        Ok(verdict) => match gathering.end(config) {
            Ok(stretch) => Ok((verdict, stretch)),
            Err(_) => Err(CheckFault::Memory),
        },
        Err(fault) => Err(fault),
    }
}

// The same, with more records than are asked for.
fn gather_all<R: Wait, S: TextSource, C: TextSource, V: Witness>(
    rt: &R,
    alloc: Global,
    run: &mut Run<'_>,
    gathering: &mut Gathering,
    placer: &mut Placer<S, C>,
    witness: &mut V,
) -> Result<Verdict, CheckFault>
    requires going { placer.old.ended ≡ false }
    requires first { place_of placer.old.kept ≡ 0 }
    requires cores { length placer.old.lanes ≡ run.old.config.now.cores }
    requires cold { AllRun run.old.config.now (cold_parts run.old.config.now) [] (parts_in run.old.walk) }
    requires pieces { AreGoing run.old.config.now 0 run.old.walk }
    requires kept { run.old.kept ≡ nothing run.old.memories.now }
    requires gathered { GoesOn run.old.config.now [] gathering.old }
    ensures shown { AreHonest S.can_fail placer.new.lanes → IsGatheredOf (record { recordings = S.can_fail; certificate = C.can_fail }) run.old.config.now (required_of run.old.memories.now run.old.rules.now) placer.old result gathering.new }
    ensures gathered { OnOk result (IsGatheredOfSome run.old.config.now gathering.new) }
    ensures asked { OnOk result (gathering.new.asked ≡ gathering.old.asked) }
{
    let mut first = 0u64;
    // There are fewer places than this many rounds.
    'rounds: for _ in 0..u64::MAX {
        let Ok(round) = next_round(rt, alloc, placer, first, gathering.recent.most) else {
            return Err(CheckFault::Memory);
        };
        let Ok(verdict) = run.judge(first, &round.records, witness) else {
            return Err(CheckFault::Memory);
        };
        let answer = round.answer(&verdict);
        let goes_on = round.end.is_none();
        let next = round.next;
        let Ok(()) = gathering.add(alloc, &run.walk, round, &verdict) else {
            return Err(CheckFault::Memory);
        };
        if let Some(answer) = answer {
            return end_with(rt, alloc, gathering, placer, goes_on, answer);
        }
        first = next;
    }
    Err(CheckFault::Memory)
}

// Ends with this answer, after the next records have been added as not judged, if the input goes on.
fn end_with<R: Wait, S: TextSource, C: TextSource>(
    rt: &R,
    alloc: Global,
    gathering: &mut Gathering,
    placer: &mut Placer<S, C>,
    goes_on: bool,
    answer: Result<Verdict, CheckFault>,
) -> Result<Verdict, CheckFault>
    requires { goes_on ≡ true → placer.old.ended ≡ false }
    ensures answer { (result ≡ answer) ⊎ (result ≡ Err CheckFault.Memory) }
    ensures same { KeepsSame gathering.old gathering.new }
    ensures honest { AreHonest S.can_fail placer.new.lanes → AreHonest S.can_fail placer.old.lanes }
{
    if goes_on && gathering.add_after(rt, alloc, placer).is_err() {
        return Err(CheckFault::Memory);
    }
    answer
}
