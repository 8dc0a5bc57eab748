// Queuing channels, in the order of the text.

ghost use Rattle.std.specs.Prelude.{◌≡◌, None};
ghost use Rattle.apex_types.specs.declared.discipline.Discipline.TheVariants as discipline;
ghost use Rattle.toml.specs.View.{table_view};
ghost use Rattle.module_config.specs.declared.place.ConfigKey.TheVariants as key;
ghost use Rattle.module_config.specs.declared.place.ConfigTable.TheVariants.{Item};
ghost use Rattle.module_config.specs.ChannelWalk.{queuing_end_under};
ghost use Rattle.module_config.specs.Keys.{Reads};

use crate::configured::ConfiguredChannel;
use crate::described::{Described, ModuleSize};
use crate::ends::PortEnd;
use crate::number::Numbered;
use crate::place::{ConfigKey, ConfigTable};
use crate::placed::{PlacedKeys, item};
use crate::refusal::ConfigRefusal;
use apex_machine::Direction;
use apex_types::limits::{GREATEST_CHANNEL, LONGEST_MESSAGE, MOST_MESSAGES};
use apex_types::{ChanId, Discipline};
use std::marker::Model;
use toml::Value;

/// A queuing channel: the greatest size of its messages in bytes, how many it holds, and its two ends, each with its port's discipline. An
/// end is None if it is outside the module; its discipline then means nothing.
#[derive(Debug, Drop)]
pub(crate) struct QueuedChannel {
    pub(crate) number: ChanId,
    pub(crate) size: u16,
    pub(crate) capacity: u16,
    pub(crate) source: Option<PortEnd>,
    pub(crate) source_discipline: Discipline,
    pub(crate) destination: Option<PortEnd>,
    pub(crate) destination_discipline: Discipline,
}

// An end of a queuing channel, with its port's discipline.
#[derive(Drop)]
struct End {
    port: Option<PortEnd>,
    discipline: Discipline,
}

impl End {
    // The end outside the module. No process waits there.
    fn outside() -> End
        ensures port { result.port ≡ None }
        ensures discipline { result.discipline ≡ discipline.Fifo }
    {
        End {
            port: None,
            discipline: Discipline::Fifo,
        }
    }

    // Reads the end and its port's discipline, each under its key.
    fn under(
        keys: &PlacedKeys<'_>,
        index: usize,
        end: ConfigKey,
        discipline: ConfigKey,
    ) -> Result<End, ConfigRefusal>
        requires { keys.now.table ≡ Item key.Queuing index }
        ensures { Reads (λ read. (read.port, read.discipline)) result (queuing_end_under index (table_view keys.now.keys.now) end discipline) }
    {
        let port = PortEnd::under(keys.keys, ConfigKey::Queuing, index, end)?;
        let discipline = keys.discipline(discipline)?;
        Ok(End {
            port: Some(port),
            discipline,
        })
    }
}

impl Model for QueuedChannel {
    ghost use Rattle.apex_machine.specs.Configuration.{QueuingChannel};

    ghost Value = { QueuingChannel };

    ghost view = { λ channel. record {
      number = channel.number;
      size = channel.size;
      capacity = channel.capacity;
      source = channel.source;
      source_discipline = channel.source_discipline;
      destination = channel.destination;
      destination_discipline = channel.destination_discipline;
    } };
}

impl Numbered for QueuedChannel {
    ghost number_of = { λ channel. channel.number };

    fn number(&self) -> u16 {
        self.number.number()
    }
}

impl Described for QueuedChannel {
    ghost use Rattle.module_config.specs.ChannelWalk.{queuing_in};
    ghost use Rattle.module_config.specs.Limits.{AreQueuingLimits};

    ghost described = { λ _. queuing_in };

    ghost keeps = { λ _. AreQueuingLimits };

    fn read(
        value: &Value,
        index: usize,
        _size: ModuleSize,
    ) -> Result<QueuedChannel, ConfigRefusal> {
        let list = ConfigKey::Queuing;
        let table = item(list, value)?;
        let keys = PlacedKeys {
            keys: table,
            table: ConfigTable::Item { list, index },
        };
        let number = keys.integer(ConfigKey::Channel, 0, GREATEST_CHANNEL as u64)?;
        let size = keys.integer(ConfigKey::Size, 1, LONGEST_MESSAGE as u64)?;
        let capacity = keys.integer(ConfigKey::Capacity, 1, MOST_MESSAGES as u64)?;
        let outside = keys.outside(ConfigKey::Outside)?;
        let source = match outside {
            Some(Direction::Source) => End::outside(),
            Some(Direction::Destination) | None => {
                End::under(&keys, index, ConfigKey::Source, ConfigKey::SourceDiscipline)?
            }
        };
        let destination = match outside {
            Some(Direction::Destination) => End::outside(),
            Some(Direction::Source) | None => End::under(
                &keys,
                index,
                ConfigKey::Destination,
                ConfigKey::DestinationDiscipline,
            )?,
        };
        Ok(QueuedChannel {
            number: ChanId::new(number as u16),
            size: size as u16,
            capacity: capacity as u16,
            source: source.port,
            source_discipline: source.discipline,
            destination: destination.port,
            destination_discipline: destination.discipline,
        })
    }
}

impl ConfiguredChannel for QueuedChannel {
    ghost use Rattle.apex_machine.specs.Channels.{ends_inside};

    ghost source_of = { λ channel. channel.source };

    ghost destinations_of = { λ channel. ends_inside channel.destination };

    fn source(&self) -> Option<&PortEnd> {
        self.source.as_ref()
    }

    fn destinations(&self) -> &[PortEnd] {
        match &self.destination {
            Some(end) => std::slice::from_ref(end),
            None => &[],
        }
    }
}
