// The names of the ports, which a configuration gives at the ends of its channels. An end outside the module has no port.

use crate::choices::Choices;
use apex_types::{Name, ObjectKind, PartId};
use std::alloc::{AllocError, Global};
use toml::{Table, Value};

// A port: its partition, its kind and its name.
#[derive(Debug, Drop)]
struct PortName {
    part: PartId,
    kind: ObjectKind,
    name: Name,
}

/// The names of all ports of a module.
#[derive(Debug, Drop)]
pub struct PortNames {
    ports: Vec<PortName>,
}

impl PortNames {
    /// The ports that the text of a configuration names; none if it is no configuration. No contract says which they are: a name only makes a
    /// request more sensible.
    ///
    /// `AllocError` if memory is refused.
    pub fn read(alloc: Global, text: &[u8]) -> Result<PortNames, AllocError> {
        let mut names = PortNames {
            ports: Vec::new(alloc),
        };
        let keys = match toml::table_from_slice(alloc, text) {
            Ok(keys) => keys,
            Err(fault) => {
                if fault.is_memory() {
                    return Err(AllocError);
                }
                return Ok(names);
            }
        };
        for channel in tables(&keys, "sampling") {
            names.add_source(alloc, ObjectKind::SamplingPort, channel)?;
            names.add_ends(alloc, ObjectKind::SamplingPort, channel, "destinations")?;
        }
        for channel in tables(&keys, "queuing") {
            names.add_source(alloc, ObjectKind::QueuingPort, channel)?;
            if !is_outside(channel, "DESTINATION") {
                names.add_end(alloc, ObjectKind::QueuingPort, channel, "destination")?;
            }
        }
        Ok(names)
    }

    // Adds the port at the source of a channel, if the source is inside the module.
    fn add_source(
        &mut self,
        alloc: Global,
        kind: ObjectKind,
        channel: &Value,
    ) -> Result<(), AllocError> {
        if is_outside(channel, "SOURCE") {
            return Ok(());
        }
        self.add_end(alloc, kind, channel, "source")
    }

    // Adds the port at the end of a channel that is under this key.
    fn add_end(
        &mut self,
        alloc: Global,
        kind: ObjectKind,
        channel: &Value,
        key: &str,
    ) -> Result<(), AllocError> {
        match member(channel, key) {
            Some(end) => self.add_port(alloc, kind, end),
            None => Ok(()),
        }
    }

    // Adds the ports at the ends of a channel that are listed under this key.
    fn add_ends(
        &mut self,
        alloc: Global,
        kind: ObjectKind,
        channel: &Value,
        key: &str,
    ) -> Result<(), AllocError> {
        let Some(ends) = member(channel, key) else {
            return Ok(());
        };
        let Some(ends) = ends.as_array() else {
            return Ok(());
        };
        for end in ends {
            self.add_port(alloc, kind, end)?;
        }
        Ok(())
    }

    // Adds the port of an end.
    fn add_port(&mut self, alloc: Global, kind: ObjectKind, end: &Value) -> Result<(), AllocError> {
        let Some(part) = part_of(end) else {
            return Ok(());
        };
        let Some(port) = member(end, "port") else {
            return Ok(());
        };
        let Some(port) = port.as_str() else {
            return Ok(());
        };
        let name = Name::new(Vec::from_slice(alloc, port.as_bytes())?);
        self.ports.push(PortName { part, kind, name })?;
        Ok(())
    }

    /// One of the ports of this kind in a partition, if there is one.
    pub(crate) fn of(
        &self,
        choices: &mut Choices,
        part: PartId,
        kind: ObjectKind,
    ) -> Option<&Name> {
        let count = self.count(part, kind);
        let chosen = choices.below(count);
        let mut index = 0_u64;
        for port in &self.ports {
            if port.part == part && port.kind == kind {
                if index == chosen {
                    return Some(&port.name);
                }
                index = index.saturating_add(1);
            }
        }
        None
    }

    /// How many ports of this kind a partition has.
    pub(crate) fn count(&self, part: PartId, kind: ObjectKind) -> u64 {
        let mut count = 0_u64;
        for port in &self.ports {
            if port.part == part && port.kind == kind {
                count = count.saturating_add(1);
            }
        }
        count
    }
}

// The tables of a list.
fn tables<'a>(keys: &'a Table, key: &str) -> &'a [Value] {
    let Some(value) = keys.get(key) else {
        return &[];
    };
    match value.as_array() {
        Some(items) => items.as_slice(),
        None => &[],
    }
}

// The value under a key of a table.
fn member<'a>(value: &'a Value, key: &str) -> Option<&'a Value> {
    let table = value.as_table()?;
    table.get(key)
}

// Whether this end of a channel is outside the module.
fn is_outside(channel: &Value, end: &str) -> bool {
    let Some(outside) = member(channel, "outside") else {
        return false;
    };
    outside.as_str() == Some(end)
}

// The partition of an end.
fn part_of(end: &Value) -> Option<PartId> {
    let number = member(end, "partition")?.as_integer()?;
    match u8::try_from(number) {
        Ok(number) => Some(PartId::new(number)),
        Err(_) => None,
    }
}
