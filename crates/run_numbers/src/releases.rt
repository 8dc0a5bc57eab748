// What releases give, and what ends the work after them.

ghost use Rattle.std.specs.Prelude.{◌≡◌, ◌++◌, OnOk};
ghost use Rattle.run_numbers.specs.Releases.{ran, released, responded, slack_left, worked, worked_by};
ghost use Rattle.apex_types.specs.declared.request.Request.TheVariants as request;

use crate::figure::Figure;
use crate::observation::{Observation, add, add_if};
use apex_machine::{Process, Wait};
use apex_types::{Call, CallerOperation, CoreId, Out, PartId, Request, Who};
use partition_state::PartitionState;
use scheduling::{Clock, is_done};
use std::alloc::AllocError;

/// Adds a release, if the wait that ends was for one.
pub(crate) fn observe_release(
    observed: &mut Vec<Observation>,
    who: &Who,
    wait: Wait,
) -> Result<(), AllocError>
    ensures { OnOk result (observed.new.items ≡ observed.old.items ++ released who.now wait) }
{
    match wait {
        Wait::FirstRelease(time) | Wait::PeriodicRelease(time) => {
            add(observed, Observation::Value(Figure::Releases(*who), 1))?;
            add(observed, Observation::Begins(Figure::Lateness(*who), time))
        }
        _ => Ok(()),
    }
}

/// Adds that a periodic process of this partition runs, if a dispatch gives it this core.
pub(crate) fn observe_run(
    observed: &mut Vec<Observation>,
    part: PartId,
    clock: &Clock,
    core: CoreId,
    state: &PartitionState,
    who: &Option<Who>,
) -> Result<(), AllocError>
    ensures { OnOk result (observed.new.items ≡ observed.old.items ++ ran part clock.now.cores core state.now.table who.now) }
{
    let Some(who) = who else {
        return Ok(());
    };
    if who.part != part {
        return Ok(());
    }
    let is_periodic = match state.processes().proc(who.proc) {
        Some(process) => process.period.is_some(),
        None => false,
    };
    let time = clock.now(core);
    add_if(
        observed,
        is_periodic,
        Observation::Ends(Figure::Lateness(*who), time),
    )
}

/// Adds what a call of a process gives to its releases and its work, at this time of its core.
pub(crate) fn observe_work(
    observed: &mut Vec<Observation>,
    now: u64,
    process: &Process,
    call: &Call,
) -> Result<(), AllocError>
    ensures { OnOk result (observed.new.items ≡ observed.old.items ++ worked now process.now call.now) }
{
    if !is_done(call.claim.out) {
        return Ok(());
    }
    match &call.request {
        Request::Caller(operation) => observe_end(observed, now, process, call, operation),
        _ => Ok(()),
    }
}

// Adds what the operation of a call gives by which a process may end its work.
fn observe_end(
    observed: &mut Vec<Observation>,
    now: u64,
    process: &Process,
    call: &Call,
    operation: &CallerOperation,
) -> Result<(), AllocError>
    ensures { OnOk result (observed.new.items ≡ observed.old.items ++ worked_by now process.now call.now (request.Caller operation.now)) }
{
    match operation {
        CallerOperation::PeriodicWait => {
            observe_slack(observed, now, process, &call.who)?;
            observe_response(observed, now, process, call)
        }
        CallerOperation::Replenish { .. } | CallerOperation::StopSelf => {
            observe_slack(observed, now, process, &call.who)
        }
        _ => Ok(()),
    }
}

// Adds the ticks that are left until the deadline of a process, if it has one.
fn observe_slack(
    observed: &mut Vec<Observation>,
    now: u64,
    process: &Process,
    who: &Who,
) -> Result<(), AllocError>
    ensures { OnOk result (observed.new.items ≡ observed.old.items ++ slack_left now who.now process.now.deadline) }
{
    let Some(deadline) = process.deadline else {
        return Ok(());
    };
    let left = deadline.saturating_sub(now);
    add(observed, Observation::Value(Figure::Slack(*who), left))
}

// Adds the ticks since the release of a process, and its next release, if the call finds that reached.
fn observe_response(
    observed: &mut Vec<Observation>,
    now: u64,
    process: &Process,
    call: &Call,
) -> Result<(), AllocError>
    ensures { OnOk result (observed.new.items ≡ observed.old.items ++ responded now process.now call.now) }
{
    let who = &call.who;
    let since = now.saturating_sub(process.last_release);
    add(observed, Observation::Value(Figure::Response(*who), since))?;
    if call.claim.out == Out::Waits {
        return Ok(());
    }
    let late = match process.period {
        Some(period) => since.saturating_sub(period),
        None => since,
    };
    add(observed, Observation::Value(Figure::Releases(*who), 1))?;
    add(observed, Observation::Value(Figure::Lateness(*who), late))
}
