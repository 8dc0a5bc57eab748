// The error conditions of the services that report the number of what has a name, or the status of an object.

ghost use Rattle.std.specs.Prelude.{◌≡◌};
ghost use Rattle.apex_machine.specs.Names.{get_id_conditions, number_of};
ghost use Rattle.apex_machine.specs.Statuses.{get_status_conditions};

use super::objects::use_of;
use apex_machine::Condition;
use apex_types::{Name, NamedKind, ObjectKind};
use partition_state::PartitionState;
use wait_set::Conditions;

/// GET_PROCESS_ID, GET_BUFFER_ID and its counterparts: a process, or an object or port of the kind, has the name.
pub(super) fn id_conditions(state: &PartitionState, kind: NamedKind, name: &Name) -> Conditions
    ensures { result ≡ get_id_conditions (number_of state.now kind name.now) }
{
    Conditions::none().with(state.number_of(kind, name).is_none(), Condition::NoSuchName)
}

/// GET_BUFFER_STATUS and its counterparts: a created object or port of the kind.
pub(super) fn status_conditions(state: &PartitionState, kind: ObjectKind, object: i64) -> Conditions
    ensures { result ≡ get_status_conditions state.now kind object }
{
    match kind {
        ObjectKind::Buffer => use_of(state.buffers().given(object)),
        ObjectKind::Blackboard => use_of(state.blackboards().given(object)),
        ObjectKind::Semaphore => use_of(state.semaphores().given(object)),
        ObjectKind::Event => use_of(state.events().given(object)),
        ObjectKind::Mutex => use_of(state.mutexes().given(object)),
        ObjectKind::SamplingPort => use_of(state.sampling_ports().given(object)),
        ObjectKind::QueuingPort => use_of(state.queuing_ports().given(object)),
    }
}
