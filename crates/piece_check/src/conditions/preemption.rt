// The error conditions of LOCK_PREEMPTION and UNLOCK_PREEMPTION.

ghost use Rattle.std.specs.Prelude.{◌≡◌, ◌≤◌, ◌&&◌, length, nat_le, ℕ};
ghost use Rattle.apex_types.specs.declared.limits.TheConstants.{GREATEST_LOCK_LEVEL as greatest_level};
ghost use Rattle.apex_types.specs.declared.request.Request.TheVariants as request;
ghost use Rattle.apex_machine.specs.Configuration.{Configuration};
ghost use Rattle.apex_machine.specs.Locks.{owns_lock};
ghost use Rattle.apex_machine.specs.ProcessConditions as processes;
ghost use Rattle.apex_machine.specs.ServiceConditions.{conditions_of};

use super::is_normal;
use apex_machine::Condition;
use apex_types::limits::GREATEST_LOCK_LEVEL;
use apex_types::{LockOperation, ProcId, Who};
use partition_state::PartitionState;
use wait_set::Conditions;

/// LOCK_PREEMPTION and UNLOCK_PREEMPTION.
pub(super) fn preemption_conditions(
    state: &PartitionState,
    who: Who,
    operation: &LockOperation,
) -> Conditions
    ensures { (configuration : Configuration) (now : ℕ) → result ≡ conditions_of configuration now who state.now (request.Preemption operation.now) }
{
    match operation {
        LockOperation::Lock => lock(state, who),
        LockOperation::Unlock => unlock(state, who),
    }
}

// LOCK_PREEMPTION: the mode NORMAL; a caller that is not the initialising process, does not own the lock at its greatest level, and owns no
// mutex.
fn lock(state: &PartitionState, who: Who) -> Conditions
    ensures { result ≡ processes.lock_conditions who state.now }
{
    let caller = who.proc;
    preemption(state, who)
        .with(
            is_at_greatest_level(state, caller),
            Condition::LevelIsGreatest,
        )
        .with(state.owns_mutex(caller), Condition::OwnsMutex)
}

// UNLOCK_PREEMPTION: the mode NORMAL; a caller that is not the initialising process and owns the lock.
fn unlock(state: &PartitionState, who: Who) -> Conditions
    ensures { result ≡ processes.unlock_conditions who state.now }
{
    let caller = who.proc;
    preemption(state, who).with(!state.owns_lock(caller), Condition::NotLockOwner)
}

/// Both, and REPLENISH: the mode NORMAL; a caller that is not the initialising process.
pub(super) fn preemption(state: &PartitionState, who: Who) -> Conditions
    ensures value { result ≡ processes.preemption_conditions who state.now }
    ensures few { length result ≤ 2 }
{
    Conditions::none()
        .with(!is_normal(state.processes().mode()), Condition::NotNormal)
        .with(who.proc.number() == 0, Condition::NotForInitialising)
}

// Whether a process owns the lock, and the lock's level is the greatest.
fn is_at_greatest_level(state: &PartitionState, process: ProcId) -> bool
    ensures { result ≡ owns_lock state.now process && nat_le greatest_level state.now.lock.level }
{
    state.owns_lock(process) && GREATEST_LOCK_LEVEL <= state.lock().level()
}
