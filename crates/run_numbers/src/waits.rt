// What the end of a wait gives.

ghost use Rattle.std.specs.Prelude.{◌≡◌, ◌++◌, OnOk};
ghost use Rattle.std.specs.List.{flat_map};
ghost use Rattle.apex_machine.specs.Processes.{service_of_wait};
ghost use Rattle.run_numbers.specs.Releases.{released};
ghost use Rattle.run_numbers.specs.Waits.{end_time, ended_of, ended_of_process, outranked, outranks_owner, times_out, waited};

use crate::figure::{Figure, Thing};
use crate::observation::{Observation, add, add_if};
use crate::releases::observe_release;
use apex_machine::{Process, Wait};
use apex_types::{CoreId, ObjectKind, PartId, Service, Who};
use partition_state::PartitionState;
use scheduling::Clock;
use std::alloc::AllocError;

/// A partition before a record, and whether the record is a tick.
#[derive(Clone, Copy)]
pub(crate) struct Moment<'a> {
    pub part: PartId,
    pub clock: &'a Clock,
    pub state: &'a PartitionState,
    pub is_tick: bool,
}

/// Adds what the ends of the waits of these processes give, as far as they are of this partition.
pub(crate) fn observe_ended(
    observed: &mut Vec<Observation>,
    moment: &Moment<'_>,
    woken: &[Who],
) -> Result<(), AllocError>
    ensures { OnOk result (observed.new.items ≡ observed.old.items ++ flat_map (ended_of moment.now.part moment.now.clock.now.cores moment.now.state.now moment.now.is_tick) woken.now) }
{
    for who in woken {
        observe_named(observed, moment, who)?;
    }
    Ok(())
}

// Adds what the end of the wait of a process gives, if it is of this partition.
fn observe_named(
    observed: &mut Vec<Observation>,
    moment: &Moment<'_>,
    who: &Who,
) -> Result<(), AllocError>
    ensures { OnOk result (observed.new.items ≡ observed.old.items ++ ended_of moment.now.part moment.now.clock.now.cores moment.now.state.now moment.now.is_tick who.now) }
{
    if who.part != moment.part {
        return Ok(());
    }
    let Some(process) = moment.state.processes().proc(who.proc) else {
        return Ok(());
    };
    observe_end(observed, moment, who, process)
}

// Adds what the end of the wait of this process gives.
fn observe_end(
    observed: &mut Vec<Observation>,
    moment: &Moment<'_>,
    who: &Who,
    process: &Process,
) -> Result<(), AllocError>
    ensures { OnOk result (observed.new.items ≡ observed.old.items ++ ended_of_process moment.now.clock.now.cores moment.now.state.now moment.now.is_tick who.now process.now) }
{
    let now = end_time(moment.clock, process.affinity, moment.is_tick);
    let ticks = now.saturating_sub(process.called_at);
    observe_waited(observed, who, process.wait, ticks, moment.is_tick)?;
    observe_release(observed, who, process.wait)?;
    observe_outranked(observed, who.part, moment.state, process, ticks)
}

// The time of a core after a record that ends a wait there: a tick that does is one of the core.
fn end_time(clock: &Clock, core: CoreId, is_tick: bool) -> u64
    ensures { result ≡ end_time is_tick clock.now.cores core }
{
    if is_tick {
        clock.now(core).saturating_add(1)
    } else {
        clock.now(core)
    }
}

// Adds how long a process has waited in a service, and whether that timed out.
fn observe_waited(
    observed: &mut Vec<Observation>,
    who: &Who,
    wait: Wait,
    ticks: u64,
    is_tick: bool,
) -> Result<(), AllocError>
    ensures { OnOk result (observed.new.items ≡ observed.old.items ++ waited who.now ticks (times_out is_tick wait) (service_of_wait wait)) }
{
    let Some(service) = service_of(wait) else {
        return Ok(());
    };
    let number = service.number();
    add(
        observed,
        Observation::Value(Figure::Waited(*who, number), ticks),
    )?;
    let timed_out = times_out(is_tick, wait);
    add_if(
        observed,
        timed_out,
        Observation::Value(Figure::TimeOuts(*who, number), 1),
    )
}

// Whether a wait that ends times out: it falls due, and was for something else than a time.
fn times_out(is_tick: bool, wait: Wait) -> bool
    ensures { result ≡ times_out is_tick wait }
{
    match wait {
        Wait::Suspended(_) | Wait::At(..) | Wait::ForLock => is_tick,
        _ => false,
    }
}

// The service whose call began a wait, if one did.
fn service_of(wait: Wait) -> Option<Service>
    ensures { result ≡ service_of_wait wait }
{
    match wait {
        Wait::Until(_) => Some(Service::TimedWait),
        Wait::PeriodicRelease(_) => Some(Service::PeriodicWait),
        Wait::Suspended(_) => Some(Service::SuspendSelf),
        Wait::At(set, _) => set.service(),
        Wait::ForLock => Some(Service::LockPreemption),
        Wait::Nothing | Wait::NormalMode(_) | Wait::FirstRelease(_) | Wait::Delay(_) => None,
    }
}

// Adds how long a process has waited for a mutex, if its owner has retained a lower priority.
fn observe_outranked(
    observed: &mut Vec<Observation>,
    part: PartId,
    state: &PartitionState,
    process: &Process,
    ticks: u64,
) -> Result<(), AllocError>
    ensures { OnOk result (observed.new.items ≡ observed.old.items ++ outranked part state.now ticks process.now) }
{
    let Wait::At(set, _) = process.wait else {
        return Ok(());
    };
    if set.kind != ObjectKind::Mutex {
        return Ok(());
    }
    let outranks = outranks_owner(state, set.number, process.current_priority);
    let mutex = Thing::Mutex(part, set.number);
    add_if(
        observed,
        outranks,
        Observation::Value(Figure::Outranked(mutex), ticks),
    )
}

// Whether this priority is above the one that the owner of a mutex has retained.
fn outranks_owner(state: &PartitionState, mutex: u32, priority: u8) -> bool
    ensures { result ≡ outranks_owner state.now mutex priority }
{
    let Some(mutex) = state.mutexes().at(mutex) else {
        return false;
    };
    let Some(owner) = mutex.owner() else {
        return false;
    };
    match state.processes().proc(owner) {
        Some(owner) => owner.retained_priority < priority,
        None => false,
    }
}
