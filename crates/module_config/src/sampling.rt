// Sampling channels, in the order of the text.

use crate::configured::ConfiguredChannel;
use crate::described::{Described, ModuleSize};
use crate::ends::{PortEnd, destinations_if_there, destinations_under};
use crate::number::Numbered;
use crate::place::{ConfigKey, ConfigTable};
use crate::placed::{PlacedKeys, item};
use crate::refusal::ConfigRefusal;
use apex_machine::Direction;
use apex_types::ChanId;
use apex_types::limits::{GREATEST_CHANNEL, LONGEST_MESSAGE, MOST_DESTINATIONS};
use arrayvec::ArrayVec;
use std::marker::Model;
use toml::Value;

/// A sampling channel: the greatest size of its message in bytes, its refresh period in ticks, its source, unless that is outside the
/// module, and its destinations inside.
#[derive(Debug, Drop)]
pub(crate) struct SampledChannel {
    pub(crate) number: ChanId,
    pub(crate) size: u16,
    pub(crate) refresh: u64,
    pub(crate) source: Option<PortEnd>,
    pub(crate) destinations: ArrayVec<PortEnd, MOST_DESTINATIONS>,
}

impl Model for SampledChannel {
    ghost use Rattle.apex_machine.specs.Configuration.{SamplingChannel};

    ghost Value = { SamplingChannel };

    ghost view = { λ channel. record {
      number = channel.number;
      size = channel.size;
      refresh = channel.refresh;
      source = channel.source;
      destinations = channel.destinations.items;
    } };
}

impl Numbered for SampledChannel {
    ghost number_of = { λ channel. channel.number };

    fn number(&self) -> u16 {
        self.number.number()
    }
}

impl Described for SampledChannel {
    ghost use Rattle.module_config.specs.ChannelWalk.{sampling_in};
    ghost use Rattle.module_config.specs.Limits.{AreSamplingLimits};

    ghost described = { λ _. sampling_in };

    ghost keeps = { λ _. AreSamplingLimits };

    fn read(
        value: &Value,
        index: usize,
        _size: ModuleSize,
    ) -> Result<SampledChannel, ConfigRefusal> {
        let list = ConfigKey::Sampling;
        let table = item(list, value)?;
        let keys = PlacedKeys {
            keys: table,
            table: ConfigTable::Item { list, index },
        };
        let number = keys.integer(ConfigKey::Channel, 0, GREATEST_CHANNEL as u64)?;
        let size = keys.integer(ConfigKey::Size, 1, LONGEST_MESSAGE as u64)?;
        let refresh = keys.ticks(ConfigKey::Refresh)?;
        let outside = keys.outside(ConfigKey::Outside)?;
        let source = match outside {
            Some(Direction::Source) => None,
            Some(Direction::Destination) | None => {
                Some(PortEnd::under(table, list, index, ConfigKey::Source)?)
            }
        };
        let destinations = match outside {
            Some(Direction::Destination) => destinations_if_there(table, index)?,
            Some(Direction::Source) | None => destinations_under(table, index)?,
        };
        Ok(SampledChannel {
            number: ChanId::new(number as u16),
            size: size as u16,
            refresh,
            source,
            destinations,
        })
    }
}

impl ConfiguredChannel for SampledChannel {
    ghost source_of = { λ channel. channel.source };

    ghost destinations_of = { λ channel. channel.destinations };

    fn source(&self) -> Option<&PortEnd> {
        self.source.as_ref()
    }

    fn destinations(&self) -> &[PortEnd] {
        &self.destinations
    }
}
