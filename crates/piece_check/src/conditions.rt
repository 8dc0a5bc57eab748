// The error conditions that hold for a call.

ghost use Rattle.std.specs.Prelude.{◌≡◌, ◌<◌, ◌≤◌, ◌++◌, length, nat_le};
ghost use Rattle.apex_machine.specs.Conditions as shared;
ghost use Rattle.apex_machine.specs.Conditions.{creation_conditions, time_out_conditions, waiting_conditions};
ghost use Rattle.apex_machine.specs.ServiceConditions as services;

mod creations;
mod deadlines;
mod errors;
mod objects;
mod port_services;
mod preemption;
mod processes;
mod reported;

use crate::arguments::{is_over, is_time_out};
use apex_machine::{Condition, Mode};
use apex_types::{Call, Request, Who};
use creations::create_conditions;
use errors::health_conditions;
use module_config::Config;
use objects::object_conditions;
use partition_state::PartitionState;
use port_services::{queuing_conditions, sampling_conditions};
use preemption::preemption_conditions;
use processes::{Scheduling, caller_conditions, create_process, process_conditions, set_mode};
use reported::{id_conditions, status_conditions};
use wait_set::Conditions;

/// The error conditions that hold for a call of one of the partition's processes at this time of its core, in ticks.
pub(crate) fn conditions_of(
    config: &Config,
    now: u64,
    state: &PartitionState,
    call: &Call,
) -> Conditions
    ensures { result ≡ services.conditions_of config.now now call.now.who state.now call.now.request }
{
    let who = call.who;
    match &call.request {
        Request::CreateProcess {
            name,
            priority,
            period,
            time_capacity,
        } => {
            let scheduling = Scheduling {
                priority: *priority,
                period: *period,
                time_capacity: *time_capacity,
            };
            create_process(config, who.part, state, name, scheduling)
        }
        Request::Process(process, operation) => {
            process_conditions(config, state, who, *process, operation)
        }
        Request::Caller(operation) => caller_conditions(now, state, who, operation),
        Request::SetPartitionMode(mode) => set_mode(state.processes().mode(), *mode),
        Request::Create(name, object) => create_conditions(config, who.part, state, name, object),
        Request::Object(number, operation) => object_conditions(state, who, *number, operation),
        Request::SamplingPort(port, operation) => sampling_conditions(state, *port, operation),
        Request::QueuingPort(port, operation) => {
            queuing_conditions(state, who, *port, operation)
        }
        Request::GetId(kind, name) => id_conditions(state, *kind, name),
        Request::GetStatus(kind, object) => status_conditions(state, *kind, *object),
        Request::Health(operation) => health_conditions(config, state, who, operation),
        Request::Preemption(operation) => preemption_conditions(state, who, operation),
    }
}

// These conditions, and those of a wait: the time-out must be valid, and the caller must be allowed to wait or give a time-out of 0.
fn with_wait(conditions: Conditions, who: Who, state: &PartitionState, time_out: i64) -> Conditions
    requires { length conditions < 5 }
    ensures { result ≡ conditions ++ time_out_conditions time_out ++ waiting_conditions who state.now time_out }
{
    conditions
        .with(!is_time_out(time_out), Condition::TimeOutOutOfRange)
        .with(
            !is_over(time_out) && may_not_wait(state, who),
            Condition::MayNotWait,
        )
}

// The conditions of each creation: the mode is not NORMAL, the name is not yet taken in its kind, and no more are created than configured.
fn creation(state: &PartitionState, is_taken: bool, is_full: bool) -> Conditions
    ensures value { result ≡ creation_conditions state.now is_taken is_full }
    ensures few { length result ≤ 3 }
{
    Conditions::none()
        .with(is_normal(state.processes().mode()), Condition::InNormal)
        .with(is_taken, Condition::NameTaken)
        .with(is_full, Condition::AllCreated)
}

// Whether a process may not wait: it is the initialising process, or the owner of a mutex or of the lock.
fn may_not_wait(state: &PartitionState, who: Who) -> bool
    ensures { result ≡ shared.may_not_wait who state.now }
{
    who.proc.number() == 0 || state.owns_mutex(who.proc) || state.owns_lock(who.proc)
}

// Whether a mode is NORMAL.
fn is_normal(mode: Mode) -> bool
    ensures { result ≡ shared.is_normal mode }
{
    mode == Mode::Normal
}

// Whether the configured number is reached.
fn is_reached(limit: u32, count: usize) -> bool
    ensures { result ≡ nat_le limit count }
{
    limit as usize <= count
}
