// The ends of channels: ports of partitions.

ghost use Rattle.std.specs.Prelude.{◌≡◌, ◌≤◌, IfOk, length, nat_eq};
ghost use Rattle.std.specs.List.{list_all, list_any};
ghost use Rattle.std.specs.Option.{option_copied};
ghost use Rattle.toml.specs.Data.{get_member};
ghost use Rattle.toml.specs.View.{view, table_view, items_view};
ghost use Rattle.apex_types.specs.declared.limits.TheConstants.{MOST_DESTINATIONS};
ghost use Rattle.apex_machine.specs.Channels.{is_port};
ghost use Rattle.module_config.specs.ChannelWalk.{destination_in, destinations_if_there, destinations_under, end_by, end_under, ends_if_there_at, some_ends_at};
ghost use Rattle.module_config.specs.Ends.{count_alike, goes_to, has_number, is_alike, is_joined};
ghost use Rattle.module_config.specs.Keys.{Reads, each_item};

use crate::fault::ConfigFault;
use crate::keys::{ItemType, member, short_bytes, some_items, table};
use crate::partition::Partition;
use crate::place::{ConfigKey, ConfigTable};
use crate::placed::{PlacedKeys, placed};
use crate::refusal::ConfigRefusal;
use crate::whole::find_partition;
use apex_types::limits::{GREATEST_PARTITION, LONGEST_NAME, MOST_DESTINATIONS};
use apex_types::{Name, PartId};
use arrayvec::ArrayVec;
use std::marker::Model;
use toml::{Table, Value};

/// In what two ends are alike: they are of the same partition, or they are the same port of it.
#[derive(Clone, Copy)]
pub(crate) enum Likeness {
    Partition,
    Port,
}

/// An end of a channel: a partition's port, by its name.
#[derive(Debug, Drop)]
pub(crate) struct PortEnd {
    pub(crate) partition: PartId,
    port: ArrayVec<u8, LONGEST_NAME>,
}

impl Model for PortEnd {
    ghost use Rattle.apex_machine.specs.Configuration.{ChannelEnd};

    ghost Value = { ChannelEnd };

    ghost view = { λ place. record { partition = place.partition; port = place.port.items } };
}

// The value at places of a list of ends that are not in use.
impl Default for PortEnd {
    fn default() -> PortEnd {
        PortEnd {
            partition: PartId::new(0),
            port: ArrayVec::new(),
        }
    }
}

impl PortEnd {
    /// Reads the end under a key of the channel at an index of a list.
    pub(crate) fn under(
        keys: &Table,
        list: ConfigKey,
        index: usize,
        end: ConfigKey,
    ) -> Result<PortEnd, ConfigRefusal>
        ensures { result ≡ end_under list index (table_view keys.now) end }
    {
        let channel = PlacedKeys {
            keys,
            table: ConfigTable::Item { list, index },
        };
        PortEnd::read(&PlacedKeys {
            keys: channel.table(end)?,
            table: ConfigTable::End { list, index, end },
        })
    }

    // Reads one destination of a sampling channel, by its index.
    fn read_destination(
        value: &Value,
        channel: usize,
        index: usize,
    ) -> Result<PortEnd, ConfigRefusal>
        ensures { result ≡ destination_in channel index (view value.now) }
    {
        let list = ConfigTable::Item {
            list: ConfigKey::Sampling,
            index: channel,
        };
        PortEnd::read(&PlacedKeys {
            keys: placed(list, ConfigKey::Destinations, table(value))?,
            table: ConfigTable::Destination { channel, index },
        })
    }

    // Reads the end that a table describes.
    fn read(keys: &PlacedKeys) -> Result<PortEnd, ConfigRefusal>
        ensures { result ≡ end_by keys.now.table (table_view keys.now.keys.now) }
    {
        let partition = keys.integer(ConfigKey::Partition, 0, GREATEST_PARTITION as u64)?;
        let port = keys.name(ConfigKey::Port)?;
        Ok(PortEnd {
            partition: PartId::new(partition as u8),
            port,
        })
    }

    /// The partition of the end.
    pub(crate) fn partition(&self) -> PartId
        ensures { result ≡ self.now.partition }
    {
        self.partition
    }

    /// The name of the port.
    pub(crate) fn name(&self) -> ArrayVec<u8, LONGEST_NAME>
        ensures { result.items ≡ self.now.port }
    {
        short_bytes(&self.port)
    }

    /// Whether the end is the partition's port of this name.
    pub(crate) fn is_port(&self, part: PartId, name: &Name) -> bool
        ensures { result ≡ is_port part name.now self.now }
    {
        self.partition == part && name.as_bytes() == self.port.as_slice()
    }

    /// Whether another end is alike this one.
    pub(crate) fn is_alike(&self, likeness: Likeness, other: &PortEnd) -> bool
        ensures { result ≡ is_alike likeness self.now other.now }
    {
        match likeness {
            Likeness::Partition => other.partition == self.partition,
            Likeness::Port => {
                other.partition == self.partition && self.port.as_slice() == other.port.as_slice()
            }
        }
    }

    /// How many of these ends are alike this one.
    pub(crate) fn count_alike(&self, likeness: Likeness, others: &[PortEnd]) -> usize
        ensures value { result ≡ count_alike likeness self.now others.now }
        ensures most { result ≤ length others.now }
    {
        others
            .iter()
            .filter(|other| self.is_alike(likeness, other))
            .count()
    }

    // Whether the end's partition is configured.
    fn is_configured(&self, partitions: &[Partition]) -> bool
        ensures { result ≡ has_number self.now.partition partitions.now }
    {
        find_partition(partitions, self.partition).is_some()
    }
}

/// Whether a channel between these ends joins configured partitions: the partition of each end is configured, and no destination is of the
/// source's partition. A source is None if it is outside.
pub(crate) fn is_joined(
    partitions: &[Partition],
    source: Option<&PortEnd>,
    destinations: &[PortEnd],
) -> bool
    ensures { result ≡ is_joined partitions.now (option_copied source.entry) destinations.now }
{
    source.is_none_or(|end| end.is_configured(partitions))
        && goes_to_each(partitions, source, destinations)
}

// Whether a channel from this source may go to each of these.
fn goes_to_each(
    partitions: &[Partition],
    source: Option<&PortEnd>,
    destinations: &[PortEnd],
) -> bool
    ensures { result ≡ list_all (goes_to partitions.now (option_copied source.entry)) destinations.now }
{
    destinations
        .iter()
        .all(|destination| goes_to(partitions, source, destination))
}

// Whether a channel from this source may go to a destination: its partition is configured, and is not the source's.
fn goes_to(partitions: &[Partition], source: Option<&PortEnd>, destination: &PortEnd) -> bool
    ensures { result ≡ goes_to partitions.now (option_copied source.entry) destination.now }
{
    destination.is_configured(partitions)
        && !source.is_some_and(|end| end.partition == destination.partition)
}

/// Whether a partition is at one of these ends.
pub(crate) fn has_end_of(ends: &[PortEnd], part: PartId) -> bool
    ensures { result ≡ list_any (λ place. nat_eq place.partition part) ends.now }
{
    ends.iter().any(|end| end.partition() == part)
}

/// Whether one of these ends is the partition's port of this name.
pub(crate) fn has_port(ends: &[PortEnd], part: PartId, name: &Name) -> bool
    ensures { result ≡ list_any (is_port part name.now) ends.now }
{
    ends.iter().any(|end| end.is_port(part, name))
}

/// The destinations of the sampling channel at an index, whose list may be missing: there are none then.
pub(crate) fn destinations_if_there(
    keys: &Table,
    channel: usize,
) -> Result<ArrayVec<PortEnd, MOST_DESTINATIONS>, ConfigRefusal>
    ensures { Reads (λ ends. ends.items) result (destinations_if_there channel (table_view keys.now)) }
{
    if member(keys, ConfigKey::Destinations.text()).is_none() {
        return Ok(ArrayVec::new());
    }
    destinations_under(keys, channel)
}

/// The destinations of the sampling channel at an index: a list of 1 to 32 tables.
pub(crate) fn destinations_under(
    keys: &Table,
    channel: usize,
) -> Result<ArrayVec<PortEnd, MOST_DESTINATIONS>, ConfigRefusal>
    ensures { Reads (λ ends. ends.items) result (destinations_under channel (table_view keys.now)) }
{
    let key = ConfigKey::Destinations;
    let table = ConfigTable::Item {
        list: ConfigKey::Sampling,
        index: channel,
    };
    let items = placed(table, key, some_ends(keys, key.text()))?;
    read_destinations(items, channel)
}

// The items of the list under a key: 1 to 32 tables.
fn some_ends<'a>(keys: &'a Table, key: &str) -> Result<&'a [Value], ConfigFault>
    ensures value { Reads (λ items. items_view items.now) result (some_ends_at (get_member key.now (table_view keys.now))) }
    ensures most { IfOk result (λ items. length items.now ≤ MOST_DESTINATIONS) }
{
    let items = some_items(keys, key, ItemType::Table)?;
    if items.len() > MOST_DESTINATIONS {
        return Err(ConfigFault::OutOfRange);
    }
    Ok(items)
}

// The destinations that the items of a list describe.
fn read_destinations(
    items: &[Value],
    channel: usize,
) -> Result<ArrayVec<PortEnd, MOST_DESTINATIONS>, ConfigRefusal>
    requires { length items.now ≤ MOST_DESTINATIONS }
    ensures { Reads (λ ends. ends.items) result (each_item (destination_in channel) (items_view items.now)) }
{
    let mut ends = ArrayVec::new();
    for (index, item) in items.iter().enumerate() {
        ends.push(PortEnd::read_destination(item, channel, index)?);
    }
    Ok(ends)
}
