// What a record gives to the figures of the processes and mutexes of a partition.

ghost use Rattle.std.specs.Prelude.{◌≡◌, ◌++◌, OnOk};
ghost use Rattle.run_numbers.specs.Partitions.{observed_of_partition, reported};

use crate::calls::observe_call;
use crate::figure::Figure;
use crate::observation::{Observation, add_if};
use crate::releases::observe_run;
use crate::ticks::observe_activities;
use crate::waits::{Moment, observe_ended};
use apex_types::{Body, ErrorCode, ErrorReport, Ordered, PartId};
use partition_state::PartitionState;
use scheduling::Clock;
use std::alloc::AllocError;

/// Adds what a record gives to the figures of the processes and mutexes of a partition, by the clock and the partition before it.
pub(crate) fn observe_partition(
    observed: &mut Vec<Observation>,
    part: PartId,
    clock: &Clock,
    state: &PartitionState,
    ordered: &Ordered,
) -> Result<(), AllocError>
    ensures { OnOk result (observed.new.items ≡ observed.old.items ++ observed_of_partition part clock.now.cores ordered.now.core state.now ordered.now.rec.body) }
{
    let moment = Moment {
        part,
        clock,
        state,
        is_tick: false,
    };
    match &ordered.rec.body {
        Body::Tick(woken) => {
            observe_activities(observed, part, clock, ordered.core, state)?;
            let tick = Moment {
                part,
                clock,
                state,
                is_tick: true,
            };
            observe_ended(observed, &tick, woken.as_slice())
        }
        Body::Disp(who) => observe_run(observed, part, clock, ordered.core, state, who),
        Body::Call(call) => {
            observe_call(observed, &moment, ordered.core, call)?;
            observe_ended(observed, &moment, call.claim.woken.as_slice())
        }
        Body::Arrive(crossing) | Body::Depart(crossing) => {
            observe_ended(observed, &moment, crossing.woken.as_slice())
        }
        Body::Error(report) => observe_error(observed, part, report),
        Body::Ret(_) => Ok(()),
    }
}

// Adds a missed deadline that is reported, if the process is of this partition.
fn observe_error(
    observed: &mut Vec<Observation>,
    part: PartId,
    report: &ErrorReport,
) -> Result<(), AllocError>
    ensures { OnOk result (observed.new.items ≡ observed.old.items ++ reported part report.now) }
{
    let is_missed = report.who.part == part && report.error == ErrorCode::DeadlineMissed;
    add_if(
        observed,
        is_missed,
        Observation::Value(Figure::Missed(report.who), 1),
    )
}
