// The error conditions of REPLENISH.

ghost use Rattle.std.specs.Prelude.{◌≡◌, ◌<◌, Some};
ghost use Rattle.std.specs.Option.{option_copied};
ghost use Rattle.apex_machine.specs.Conditions as shared;
ghost use Rattle.apex_machine.specs.Deadlines as deadlines;
ghost use Rattle.apex_machine.specs.DueTimes as due_times;
ghost use Rattle.apex_machine.specs.ProcessConditions as processes;
ghost use Rattle.piece_check.specs.Limits.{sum_limit};

use super::preemption::preemption;
use crate::arguments::is_time_capacity;
use apex_machine::{Condition, Process};
use apex_types::Who;
use partition_state::PartitionState;
use wait_set::Conditions;

/// REPLENISH at this time of the caller's core, in ticks: the mode NORMAL; a caller that is not the initialising process; a budget in range,
/// which for a periodic process does not end after its next release.
pub(super) fn replenish(now: u64, state: &PartitionState, who: Who, budget: i64) -> Conditions
    ensures { result ≡ processes.replenish_conditions now who state.now budget }
{
    let caller = state.processes().proc(who.proc);
    preemption(state, who)
        .with(!is_time_capacity(budget), Condition::BudgetOutOfRange)
        .with(
            caller_replenishes_beyond(now, budget, caller),
            Condition::BudgetAboveRelease,
        )
}

// Whether there is a caller that is periodic, and the budget does not end by its next release.
fn caller_replenishes_beyond(now: u64, budget: i64, caller: Option<&Process>) -> bool
    ensures { result ≡ shared.of_caller (processes.replenishes_beyond now budget) (option_copied caller.entry) }
{
    match caller {
        Some(process) => replenishes_beyond(now, budget, process),
        None => false,
    }
}

// Whether a process is periodic, and a budget that counts from this time ends after its next release, all in ticks.
fn replenishes_beyond(now: u64, budget: i64, process: &Process) -> bool
    ensures { result ≡ processes.replenishes_beyond now budget process.now }
{
    match process.period {
        Some(period) => ends_after(now, budget, next_release(process.last_release, period)),
        None => false,
    }
}

// The release a period after the last one, in ticks; the sum may have more than 64 bits.
fn next_release(last: u64, period: u64) -> u128
    ensures value { result ≡ due_times.release_after last (Some period) }
    ensures bound { result < sum_limit }
{
    last as u128 + period as u128
}

// Whether a budget that counts from this time ends after a release, all in ticks. A budget of -1 does not end.
fn ends_after(now: u64, budget: i64, release: u128) -> bool
    requires { release < sum_limit }
    ensures { result ≡ deadlines.ends_after now budget release }
{
    if budget >= 0 {
        return release < now as u128 + budget as u128;
    }
    if budget == -1 {
        return true;
    }
    release + (budget.unsigned_abs() as u128) < now as u128
}
