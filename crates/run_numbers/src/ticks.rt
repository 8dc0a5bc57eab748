// What a tick gives to the figures of processes.

ghost use Rattle.std.specs.Prelude.{◌≡◌, ◌++◌, [], slice_get, OnOk};
ghost use Rattle.std.specs.List.{flat_map};
ghost use Rattle.std.specs.Option.{option_map_or};
ghost use Rattle.run_numbers.specs.Activities.{spent};

use crate::activity::activity_of;
use crate::figure::Figure;
use crate::observation::{Observation, add_if};
use apex_machine::Process;
use apex_types::{CoreId, PartId, Who};
use partition_state::PartitionState;
use scheduling::{Clock, ProcTable};
use std::alloc::AllocError;

/// Adds what each process of a partition does while a tick of this core passes.
pub(crate) fn observe_activities(
    observed: &mut Vec<Observation>,
    part: PartId,
    clock: &Clock,
    core: CoreId,
    state: &PartitionState,
) -> Result<(), AllocError>
    ensures { OnOk result (observed.new.items ≡ observed.old.items ++ flat_map (spent part clock.now.cores core) state.now.table) }
{
    let table = state.processes();
    // All but the first are counted.
    let last = table.len();
    for index in 0..last {
        observe_one(observed, part, clock, core, table, index)?;
    }
    observe_one(observed, part, clock, core, table, last)
}

// Adds what the process of this index does while a tick of this core passes, if there is one.
fn observe_one(
    observed: &mut Vec<Observation>,
    part: PartId,
    clock: &Clock,
    core: CoreId,
    table: &ProcTable,
    index: usize,
) -> Result<(), AllocError>
    ensures { OnOk result (observed.new.items ≡ observed.old.items ++ option_map_or (spent part clock.now.cores core) (slice_get table.now.table index) []) }
{
    let Some((number, process)) = table.at(index) else {
        return Ok(());
    };
    let who = Who {
        part,
        proc: *number,
    };
    observe_activity(observed, &who, clock, core, process)
}

// Adds what a process does while a tick of this core passes, if it is the process's own core.
fn observe_activity(
    observed: &mut Vec<Observation>,
    who: &Who,
    clock: &Clock,
    core: CoreId,
    process: &Process,
) -> Result<(), AllocError>
    ensures { OnOk result (observed.new.items ≡ observed.old.items ++ spent who.now.part clock.now.cores core (who.now.proc, process.now)) }
{
    let activity = activity_of(clock.on(core), who, process);
    let is_own = process.affinity == core;
    add_if(
        observed,
        is_own,
        Observation::Value(Figure::Spent(*who, activity), 1),
    )
}
