// The error conditions of CREATE_BUFFER and its counterparts.

ghost use Rattle.std.specs.Prelude.{◌≡◌, ◌≤◌, ◌++◌, length, option_map};
ghost use Rattle.apex_machine.specs.CreationConditions as creations;
ghost use Rattle.apex_machine.specs.PortConditions as configured;
ghost use Rattle.module_config.specs.Ports.{configured_queuing, configured_sampling};

use super::{creation, is_reached};
use crate::arguments::{
    direction_number, discipline_number, is_capacity, is_discipline, is_maximum, is_number,
    is_priority, is_size, suits_maximum,
};
use apex_machine::{Condition, Direction};
use apex_types::{Name, NewObject, ObjectKind, PartId};
use module_config::{Config, QueuingPort, SamplingPort};
use partition_state::PartitionState;
use wait_set::Conditions;

/// CREATE_BUFFER and its counterparts: the conditions of every creation, and those on its parameters.
pub(super) fn create_conditions(
    config: &Config,
    number: PartId,
    state: &PartitionState,
    name: &Name,
    object: &NewObject,
) -> Conditions
    ensures { result ≡ creations.create_conditions config.now number state.now name.now object.now }
{
    let kind = object.kind();
    let is_taken = state.object_number_of(kind, name).is_some();
    let is_full = is_full(config, number, state, kind);
    with_parameters(
        creation(state, is_taken, is_full),
        config,
        number,
        name,
        object,
    )
}

// Whether as many objects of a kind are created as are configured. Ports have no such limit: each configured port may be created once.
fn is_full(config: &Config, number: PartId, state: &PartitionState, kind: ObjectKind) -> bool
    ensures { result ≡ creations.is_full config.now number state.now kind }
{
    match kind {
        ObjectKind::Buffer => is_reached(config.buffer_limit(number), state.buffers().len()),
        ObjectKind::Blackboard => {
            is_reached(config.blackboard_limit(number), state.blackboards().len())
        }
        ObjectKind::Semaphore => is_reached(
            config.semaphore_limit(number),
            state.semaphores().len(),
        ),
        ObjectKind::Event => is_reached(config.event_limit(number), state.events().len()),
        ObjectKind::Mutex => is_reached(config.mutex_limit(number), state.mutexes().len()),
        ObjectKind::SamplingPort | ObjectKind::QueuingPort => false,
    }
}

// These conditions, and those on the parameters of a creation: for a buffer a size, a capacity and a discipline in range; for a blackboard
// a size; for a semaphore a maximum and a discipline, and a value that suits the maximum; for a mutex a priority and a discipline; for a
// port what is configured.
fn with_parameters(
    conditions: Conditions,
    config: &Config,
    number: PartId,
    name: &Name,
    object: &NewObject,
) -> Conditions
    requires { length conditions ≤ 3 }
    ensures { result ≡ conditions ++ creations.parameter_conditions config.now number name.now object.now }
{
    match object {
        NewObject::Buffer {
            size,
            capacity,
            discipline,
        } => conditions
            .with(!is_size(*size), Condition::SizeOutOfRange)
            .with(!is_capacity(*capacity), Condition::CapacityOutOfRange)
            .with(!is_discipline(*discipline), Condition::DisciplineOutOfRange),
        NewObject::Blackboard { size } => conditions.with(
            !is_size(*size),
            Condition::SizeOutOfRange,
        ),
        NewObject::Semaphore {
            value,
            maximum,
            discipline,
        } => conditions
            .with(!is_maximum(*maximum), Condition::MaximumOutOfRange)
            .with(!suits_maximum(*maximum, *value), Condition::ValueOutOfRange)
            .with(!is_discipline(*discipline), Condition::DisciplineOutOfRange),
        NewObject::Event => conditions,
        NewObject::Mutex {
            priority,
            discipline,
        } => conditions
            .with(!is_priority(*priority), Condition::PriorityOutOfRange)
            .with(!is_discipline(*discipline), Condition::DisciplineOutOfRange),
        NewObject::SamplingPort {
            size,
            direction,
            refresh,
        } => {
            let port = config.sampling_port(number, name);
            let is_configured = is_sampling_port(port, *size, *direction, *refresh);
            conditions.with(!is_configured, Condition::NotAsConfigured)
        }
        NewObject::QueuingPort {
            size,
            capacity,
            direction,
            discipline,
        } => {
            let port = config.queuing_port(number, name);
            let is_configured = is_queuing_port(port, *size, *capacity, *direction, *discipline);
            conditions.with(!is_configured, Condition::NotAsConfigured)
        }
    }
}

// Whether a sampling port is created as it is configured. The refresh period counts only at a destination.
fn is_sampling_port(port: Option<SamplingPort>, size: i64, direction: i64, refresh: i64) -> bool
    ensures { result ≡ configured.is_sampling_port (option_map configured_sampling port) size direction refresh }
{
    let Some(port) = port else {
        return false;
    };
    let suits_refresh = port.direction == Direction::Source || is_number(refresh, port.refresh);
    is_number(size, u64::from(port.size))
        && is_number(direction, direction_number(port.direction))
        && suits_refresh
}

// Whether a queuing port is created as it is configured.
fn is_queuing_port(
    port: Option<QueuingPort>,
    size: i64,
    capacity: i64,
    direction: i64,
    discipline: i64,
) -> bool
    ensures { result ≡ configured.is_queuing_port (option_map configured_queuing port) size capacity direction discipline }
{
    let Some(port) = port else {
        return false;
    };
    is_number(size, u64::from(port.size))
        && is_number(capacity, u64::from(port.capacity))
        && is_number(direction, direction_number(port.direction))
        && is_number(discipline, discipline_number(port.discipline))
}
