// The error conditions of uses of sampling ports and queuing ports.

ghost use Rattle.std.specs.Prelude.{◌≡◌, ◌≤◌, ℕ, List, Option, length as count_of};
ghost use Rattle.apex_types.specs.declared.record.Who.{Who as WhoValue};
ghost use Rattle.apex_types.specs.declared.request.Request.TheVariants as request;
ghost use Rattle.apex_machine.specs.declared.condition.Condition.{Condition};
ghost use Rattle.apex_machine.specs.Configuration.{Configuration};
ghost use Rattle.apex_machine.specs.PortConditions as meets;
ghost use Rattle.apex_machine.specs.ServiceConditions.{conditions_of};
ghost use Rattle.apex_machine.specs.State.{given_object};
ghost use Rattle.partition_objects.specs.Guards.{IsGuard};

use super::with_wait;
use apex_types::{QueuingOperation, SamplingOperation, Who};
use partition_objects::{Guard, PortTable};
use partition_state::PartitionState;
use wait_set::Conditions;

/// WRITE_SAMPLING_MESSAGE and READ_SAMPLING_MESSAGE: a created port; to write, a source port whose size is enough for the message; to read,
/// a destination port.
pub(super) fn sampling_conditions(
    state: &PartitionState,
    port: i64,
    operation: &SamplingOperation,
) -> Conditions
    ensures { (configuration : Configuration) (now : ℕ) (who : WhoValue) → result ≡ conditions_of configuration now who state.now (request.SamplingPort port operation.now) }
{
    match operation {
        SamplingOperation::Write { length, .. } => put_in(state.sampling_ports(), port, *length),
        SamplingOperation::Read => taken_from(state.sampling_ports(), port),
    }
}

/// SEND_QUEUING_MESSAGE, RECEIVE_QUEUING_MESSAGE and CLEAR_QUEUING_PORT: a created port; to send, a source port whose size is enough for the
/// message; to receive and to clear, a destination port; to send and to receive, a time-out in range and a caller that may wait.
pub(super) fn queuing_conditions(
    state: &PartitionState,
    who: Who,
    port: i64,
    operation: &QueuingOperation,
) -> Conditions
    ensures { (configuration : Configuration) (now : ℕ) → result ≡ conditions_of configuration now who state.now (request.QueuingPort port operation.now) }
{
    match operation {
        QueuingOperation::Send {
            length,
            time_out,
            ..
        } => with_wait(
            put_in(state.queuing_ports(), port, *length),
            who,
            state,
            *time_out,
        ),
        QueuingOperation::Receive { time_out } => with_wait(
            taken_from(state.queuing_ports(), port),
            who,
            state,
            *time_out,
        ),
        QueuingOperation::Clear => taken_from(state.queuing_ports(), port),
    }
}

// A message into a port: a created source port whose size is enough for the message.
fn put_in(ports: &PortTable, port: i64, length: i64) -> Conditions
    ensures value { result ≡ meets.source_conditions (given_object ports.now port) length }
    ensures few { count_of result ≤ 3 }
{
    conditions_in(ports.guard_source(port, length))
}

// A message from a port: a created destination port.
fn taken_from(ports: &PortTable, port: i64) -> Conditions
    ensures value { result ≡ meets.destination_conditions (given_object ports.now port) }
    ensures few { count_of result ≤ 3 }
{
    conditions_in(ports.guard_destination(port))
}

// The error conditions that a guard reports; none if it gives a channel.
fn conditions_in(guard: Guard) -> Conditions
    ensures { (conditions : List Condition) (channel : Option ℕ) → IsGuard conditions channel guard → result ≡ conditions }
{
    match guard {
        Guard::Errors(conditions) => conditions,
        Guard::Chan(_) => Conditions::none(),
    }
}
