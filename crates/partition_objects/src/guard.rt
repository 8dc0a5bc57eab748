// What is judged before a call through a port.

ghost use Rattle.std.specs.Prelude.{◌≡◌, ◌≢◌, [], None};
ghost use Rattle.std.specs.Option.{option_copied};
ghost use Rattle.apex_machine.specs.PortConditions as meets;
ghost use Rattle.apex_machine.specs.Ports.{channel_by};
ghost use Rattle.apex_machine.specs.State.{given_object};
ghost use Rattle.partition_objects.specs.Guards.{IsGuard};

use crate::port::Port;
use crate::port_table::PortTable;
use apex_machine::{Condition, Direction};
use apex_types::ChanId;
use wait_set::Conditions;

/// The result for a call through a port, before the channel judges it: the error conditions that hold, if any do; else the channel of the
/// call.
#[derive(Drop)]
pub enum Guard {
    Errors(Conditions),
    Chan(ChanId),
}

impl PortTable {
    /// The result for a call that puts a message of this length, in bytes, into the port of the number that a caller gives. The port must
    /// be a created source port, whose size is enough for the message.
    pub fn guard_source(&self, number: i64, length: i64) -> Guard
        ensures { IsGuard (meets.source_conditions (given_object self.now number) length) (channel_by (given_object self.now number)) result }
    {
        let port = self.given(number);
        guard_by(port, source_conditions(port, length))
    }

    /// The result for a call that takes a message from the port of the number that a caller gives. The port must be a created destination
    /// port.
    pub fn guard_destination(&self, number: i64) -> Guard
        ensures { IsGuard (meets.destination_conditions (given_object self.now number)) (channel_by (given_object self.now number)) result }
    {
        let port = self.given(number);
        guard_by(port, destination_conditions(port))
    }
}

// The result for a call through a port, from the error conditions that hold. A port that is not created meets a condition.
fn guard_by(port: Option<&Port>, conditions: Conditions) -> Guard
    requires { option_copied port ≡ None → conditions ≢ [] }
    ensures { IsGuard conditions (channel_by (option_copied port.entry)) result }
{
    match port {
        Some(found) if conditions.is_empty() => Guard::Chan(found.channel()),
        _ => Guard::Errors(conditions),
    }
}

// A message into a port: a created source port whose size is enough for the message; at least one byte.
fn source_conditions(port: Option<&Port>, length: i64) -> Conditions
    ensures { result ≡ meets.source_conditions (option_copied port.entry) length }
{
    let of_port = match port {
        Some(found) => Conditions::none()
            .with(length > i64::from(found.size()), Condition::LongerThanPort)
            .with(!is_source(found), Condition::NotSource),
        None => Conditions::none().with(true, Condition::NotCreated),
    };
    of_port.with(length <= 0, Condition::EmptyMessage)
}

// A message from a port: a created destination port.
fn destination_conditions(port: Option<&Port>) -> Conditions
    ensures { result ≡ meets.destination_conditions (option_copied port.entry) }
{
    match port {
        Some(found) => Conditions::none().with(is_source(found), Condition::NotDestination),
        None => Conditions::none().with(true, Condition::NotCreated),
    }
}

// Whether a port is the source of its channel.
fn is_source(port: &Port) -> bool
    ensures { result ≡ meets.is_source port.now.direction }
{
    port.direction() == Direction::Source
}
