// What channels of both kinds have in common: a number, a source and destinations.

ghost use Rattle.std.specs.Prelude.{◌≡◌, ◌+◌, ◌*◌, ◌≤◌, ◌&&◌, ◌++◌, List, Option, length, nat_eq, not, option_map};
ghost use Rattle.std.specs.List.{find, flat_map, list_any};
ghost use Rattle.apex_types.specs.declared.limits.TheConstants.{MOST_CHANNELS, MOST_DESTINATIONS};
ghost use Rattle.std.specs.Option.{option_copied};
ghost use Rattle.apex_machine.specs.Channels.{end_among, ends_inside};
ghost use Rattle.apex_machine.specs.Configuration.{ChannelEnd};
ghost use Rattle.module_config.specs.Ends.{count_alike, is_joined};

use crate::ends::{Likeness, PortEnd, has_end_of, has_port, is_joined};
use crate::number::Numbered;
use crate::partition::Partition;
use apex_machine::Direction;
use apex_types::{ChanId, Name, PartId};

/// A channel of one kind, by its ends.
pub(crate) trait ConfiguredChannel {
    // The end that sends, unless it is outside.
    ghost source_of: { Self → Option ChannelEnd };

    // The ends inside that receive.
    ghost destinations_of: { Self → List ChannelEnd };

    /// The end that sends, unless it is outside.
    fn source(&self) -> Option<&PortEnd>
        ensures { option_copied result ≡ source_of self.now };

    /// The ends inside that receive.
    fn destinations(&self) -> &[PortEnd]
        ensures value { result.now ≡ destinations_of self.now }
        ensures most { length result.now ≤ MOST_DESTINATIONS };
}

// How many ends of a channel are alike this one.
fn count_of<Channel: ConfiguredChannel>(
    channel: &Channel,
    likeness: Likeness,
    end: &PortEnd,
) -> usize
    ensures value { result ≡ count_alike likeness end.now (ends_inside (Channel.source_of channel.now) ++ Channel.destinations_of channel.now) }
    ensures most { result ≤ MOST_DESTINATIONS + 1 }
{
    let others = end.count_alike(likeness, channel.destinations());
    match channel.source() {
        Some(source) if end.is_alike(likeness, source) => others + 1,
        Some(_) | None => others,
    }
}

/// How many ends of these channels are alike this one.
pub(crate) fn count_alike<Channel: ConfiguredChannel>(
    channels: &[Channel],
    likeness: Likeness,
    end: &PortEnd,
) -> usize
    requires { length channels.now ≤ MOST_CHANNELS }
    ensures value { result ≡ count_alike likeness end.now (flat_map (λ channel. ends_inside (Channel.source_of channel) ++ Channel.destinations_of channel) channels.now) }
    ensures most { result ≤ (MOST_DESTINATIONS + 1) * MOST_CHANNELS }
{
    let mut count = 0;
    for channel in channels {
        count += count_of(channel, likeness, end);
    }
    count
}

/// The first channel that does not join configured partitions, if there is one.
pub(crate) fn find_unjoined<'a, Channel: ConfiguredChannel>(
    channels: &'a [Channel],
    partitions: &[Partition],
) -> Option<&'a Channel>
    ensures { option_map (λ channel. channel.now) result ≡ find (λ channel. not (is_joined partitions.now (Channel.source_of channel) (Channel.destinations_of channel))) channels.now }
{
    channels.iter().find(|channel| {
        !is_joined(partitions, channel.source(), channel.destinations())
    })
}

/// The first of these channels that has the partition's port of this name at an end, and the direction there.
pub(crate) fn find_end<'a, Channel: ConfiguredChannel>(
    channels: &'a [Channel],
    part: PartId,
    name: &Name,
) -> Option<(&'a Channel, Direction)>
    ensures { option_map (λ found. (found.0.now, found.1)) result ≡ end_among Channel.source_of Channel.destinations_of part name.now channels.now }
{
    for channel in channels {
        if channel
            .source()
            .is_some_and(|source| source.is_port(part, name))
        {
            return Some((channel, Direction::Source));
        }
        if has_port(channel.destinations(), part, name) {
            return Some((channel, Direction::Destination));
        }
    }
    None
}

/// Whether a partition is at an end of a channel of this number.
pub(crate) fn has_end<Channel: Numbered + ConfiguredChannel>(
    channels: &[Channel],
    number: ChanId,
    part: PartId,
) -> bool
    ensures { result ≡ list_any (λ channel. nat_eq (Channel.number_of channel) number && list_any (λ place. nat_eq place.partition part) (ends_inside (Channel.source_of channel) ++ Channel.destinations_of channel)) channels.now }
{
    channels.iter().any(|channel| channel.number() == number.number() && is_at_end(channel, part))
}

// Whether a partition is at an end of a channel.
fn is_at_end<Channel: ConfiguredChannel>(channel: &Channel, part: PartId) -> bool
    ensures { result ≡ list_any (λ place. nat_eq place.partition part) (ends_inside (Channel.source_of channel.now) ++ Channel.destinations_of channel.now) }
{
    channel
        .source()
        .is_some_and(|source| source.partition() == part)
        || has_end_of(channel.destinations(), part)
}
