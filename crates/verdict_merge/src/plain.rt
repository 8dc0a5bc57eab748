// The verdict over one order of records, on one thread.

ghost use Rattle.std.specs.Prelude.{[], IfOk};
ghost use Rattle.apex_machine.specs.Runs.{ArePlaced, AreOfCores};
ghost use Rattle.user_rules.specs.Rules.{required_of};
ghost use Rattle.verdict_merge.specs.Refusals.{IsRunUpToNo};
ghost use Rattle.verdict_merge.specs.Verdicts.{IsRunWhereYes, IsVerdict};

use crate::fault::Memory;
use crate::judged::judge_in_turn;
use crate::outcome::Lent;
use crate::start::start_pieces;
use crate::survey::gather_round;
use crate::verdict::Verdict;
use apex_types::Ordered;
use module_config::Config;
use piece_check::Touched;
use std::alloc::Global;
use user_rules::Rule;

/// The verdict over the records in this order, which are at the places 0, 1, 2, .. and of configured cores. It is Yes if each piece
/// makes its local steps over all of them and each view meets every rule. Otherwise it reports what comes first: the least refusal of
/// the pieces, or a view before it that breaks a rule. There are no memories.
///
/// For the machine, from its cold state, a No means that the records before the place are a run in which each view meets every rule,
/// and that there is no step for the record at the place. A broken rule means that the records up to the place are a run, and that the
/// view there is the first that breaks a rule.
///
/// Memory if memory is refused.
pub fn check_plain(
    alloc: Global,
    config: &Config,
    records: &[Ordered],
    rules: &[Rule],
) -> Result<Verdict, Memory>
    requires placed { ArePlaced 0 records.now }
    requires cores { AreOfCores config.now.cores records.now }
    ensures verdict { IfOk result (IsVerdict config.now (required_of [] rules.now) records.now) }
    ensures run { IfOk result (IsRunWhereYes config.now (required_of [] rules.now) records.now) }
    ensures no { IfOk result (IsRunUpToNo config.now (required_of [] rules.now) records.now) }
{
    config.keeps_limits();
    let pieces = start_pieces(alloc, config)?;
    let Ok(mut touched) = Touched::new(alloc) else {
        return Err(Memory);
    };
    if touched.sort_out(config, records).is_err() {
        return Err(Memory);
    }
    // All records are one round, which the pieces judge one after another.
    let lent = Lent::new(config, 0, records, &touched);
    let judged = judge_in_turn(alloc, &lent, rules, pieces)?;
    let surveyed = gather_round(alloc, &lent, judged)?;
    match Verdict::against(records, surveyed.found, surveyed.breach) {
        Some(verdict) => Ok(verdict),
        None => Ok(Verdict::Yes {
            records: records.len() as u64,
        }),
    }
}
