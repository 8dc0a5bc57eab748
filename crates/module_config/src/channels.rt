// The channels of a configuration, and the ports at their ends.

ghost use Rattle.std.specs.Prelude.{◌≡◌, ◌<◌, ◌≤◌, length, option_map, slice_index, true};
ghost use Rattle.apex_types.specs.declared.limits.TheConstants.{MOST_CHANNELS};
ghost use Rattle.apex_machine.specs.Channels.{channel_numbers, has_channel, is_at_end, queuing_port, sampling_port};
ghost use Rattle.module_config.specs.Ports.{kind_of, configured_queuing, configured_sampling};

use crate::config::Config;
use crate::configured::{find_end, has_end};
use crate::number::find;
use crate::port::{ChannelKind, QueuingPort, SamplingPort};
use apex_machine::Direction;
use apex_types::{ChanId, Name, PartId};

impl Config {
    /// How many channels are configured, of both kinds.
    pub fn channel_count(&self) -> usize
        ensures value { result ≡ length (channel_numbers self.now) }
        ensures most { result ≤ MOST_CHANNELS }
    {
        self.numbers.len()
    }

    /// The number of the channel at an index, in rising order over both kinds.
    pub fn channel_number(&self, index: usize) -> ChanId
        requires { index < length (channel_numbers self.now) }
        ensures value { result ≡ slice_index (channel_numbers self.now) index }
        ensures configured { has_channel self.now result ≡ true }
    {
        ChanId::new(self.numbers[index])
    }

    /// Whether a channel of this number is configured, of either kind.
    pub fn has_channel(&self, chan: ChanId) -> bool
        ensures { result ≡ has_channel self.now chan }
    {
        self.numbers.binary_search(&chan.number()).is_ok()
    }

    /// What is configured of the channel of this number, or None if there is none.
    pub fn channel_kind(&self, chan: ChanId) -> Option<ChannelKind>
        ensures { result ≡ kind_of self.now chan }
    {
        if let Some(channel) = find(&self.layout.queuing, chan.number()) {
            return Some(ChannelKind::Queuing {
                size: channel.size,
                capacity: channel.capacity,
                sending: channel.source_discipline,
                receiving: channel.destination_discipline,
                source: channel.source.as_ref().map(|end| end.partition),
                destination: channel.destination.as_ref().map(|end| end.partition),
            });
        }
        let channel = find(&self.layout.sampling, chan.number())?;
        Some(ChannelKind::Sampling {
            size: channel.size,
            refresh: channel.refresh,
            from_outside: channel.source.is_none(),
        })
    }

    /// Whether a partition is at an end of the channel of this number.
    pub fn is_at_end(&self, chan: ChanId, part: PartId) -> bool
        ensures { result ≡ is_at_end self.now chan part }
    {
        has_end(&self.layout.queuing, chan, part) || has_end(&self.layout.sampling, chan, part)
    }

    /// What is configured of the sampling port that a partition has under this name, or None if it has none.
    pub fn sampling_port(&self, part: PartId, name: &Name) -> Option<SamplingPort>
        ensures { option_map configured_sampling result ≡ sampling_port self.now part name.now }
    {
        let (channel, direction) = find_end(&self.layout.sampling, part, name)?;
        Some(SamplingPort {
            channel: channel.number,
            size: channel.size,
            direction,
            refresh: channel.refresh,
        })
    }

    /// What is configured of the queuing port that a partition has under this name, or None if it has none.
    pub fn queuing_port(&self, part: PartId, name: &Name) -> Option<QueuingPort>
        ensures { option_map configured_queuing result ≡ queuing_port self.now part name.now }
    {
        let (channel, direction) = find_end(&self.layout.queuing, part, name)?;
        let discipline = match direction {
            Direction::Source => channel.source_discipline,
            Direction::Destination => channel.destination_discipline,
        };
        Some(QueuingPort {
            channel: channel.number,
            size: channel.size,
            capacity: channel.capacity,
            direction,
            discipline,
        })
    }
}
