// A port, and the settings with which it is created.

ghost use Rattle.std.specs.Prelude.{◌≡◌, false};
ghost use Rattle.apex_machine.specs.Statuses.{sampling_port_status};
ghost use Rattle.partition_objects.specs.Ports.{port_of, read_at};

use crate::marked::Marked;
use apex_machine::{Direction, Status};
use apex_types::{ChanId, Name};
use std::alloc::AllocError;
use std::marker::Model;
use wait_set::Named;

/// The settings with which a port is created: the greatest size of its messages in bytes, its direction, and its channel.
#[derive(Clone, Copy, Debug, PartialEq, Eq)]
pub struct PortSettings {
    pub size: u16,
    pub direction: Direction,
    pub channel: ChanId,
}

/// A created port. A contract sees it as the port of the definitions.
#[derive(Debug, Drop)]
pub struct Port {
    name: Name,
    settings: PortSettings,
    valid: bool,
}

impl Model for Port {
    ghost use Rattle.apex_machine.specs.State.{Port as Seen};
    ghost use Rattle.partition_objects.specs.Ports.{port_of};

    ghost Value = { Seen };

    ghost view = { λ port. port_of port.name port.settings port.valid };
}

impl Port {
    /// The port of this name with these settings, at which no process has read. Takes no memory.
    pub fn new(name: Name, settings: PortSettings) -> Port
        ensures { result ≡ port_of name settings false }
    {
        Port {
            name,
            settings,
            valid: false,
        }
    }

    /// The greatest size of its messages, in bytes.
    pub(crate) fn size(&self) -> u16
        ensures { result ≡ self.now.size }
    {
        self.settings.size
    }

    /// Its direction.
    pub(crate) fn direction(&self) -> Direction
        ensures { result ≡ self.now.direction }
    {
        self.settings.direction
    }

    /// Its channel.
    pub fn channel(&self) -> ChanId
        ensures { result ≡ self.now.channel }
    {
        self.settings.channel
    }

    /// GET_SAMPLING_PORT_STATUS: whether the last read at it gave a valid sample. Takes no memory.
    pub fn status(&self) -> Status
        ensures { result ≡ sampling_port_status self.now }
    {
        Status {
            val: u64::from(self.valid),
            val2: None,
            val3: None,
        }
    }
}

impl Marked for Port {
    ghost marked = { read_at };

    fn mark(&mut self, claimed: Option<i64>) {
        self.valid = claimed == Some(1);
    }
}

impl Named for Port {
    ghost name_of = { λ port. port.name };

    fn name(&self) -> &Name {
        &self.name
    }
}

impl Clone for Port {
    ghost is_clone = { λ port copy. copy ≡ port };

    fn clone(&self) -> Result<Port, AllocError> {
        Ok(Port {
            name: self.name.clone()?,
            settings: self.settings,
            valid: self.valid,
        })
    }
}
