// The numbers of the channels, and their ends, counted over both kinds.

ghost use Rattle.std.specs.Prelude.{◌≡◌, ◌+◌, ◌≤◌, ◌++◌, length, map, nat_lt, option_map};
ghost use Rattle.std.specs.List.{find, flat_map};
ghost use Rattle.arrayvec.specs.ArrayVec.{array_vec_len};
ghost use Rattle.apex_types.specs.declared.limits.TheConstants.{MOST_CHANNELS};
ghost use Rattle.apex_machine.specs.Channels.{channel_numbers, ends_inside, in_order};
ghost use Rattle.module_config.specs.Ends.{ends_of, is_exceeded};
ghost use Rattle.module_config.specs.Laid.{laid_out};

use crate::configured::{ConfiguredChannel, count_alike};
use crate::ends::{Likeness, PortEnd};
use crate::layout::Layout;
use crate::number::{Numbered, place_among};
use crate::queuing::QueuedChannel;
use crate::sampling::SampledChannel;
use apex_types::limits::MOST_CHANNELS;
use arrayvec::ArrayVec;

/// The numbers of the channels of both kinds, in rising order.
pub(crate) fn channel_numbers(layout: &Layout) -> ArrayVec<u16, MOST_CHANNELS>
    requires { length layout.now.sampling.items + length layout.now.queuing.items ≤ MOST_CHANNELS }
    ensures { result.items ≡ channel_numbers (laid_out layout.now) }
{
    let mut numbers = ArrayVec::new();
    put_numbers(&mut numbers, &layout.queuing);
    put_numbers(&mut numbers, &layout.sampling);
    numbers
}

// Puts the number of each channel among those in rising order.
fn put_numbers<Channel: Numbered>(numbers: &mut ArrayVec<u16, MOST_CHANNELS>, channels: &[Channel])
    requires { array_vec_len numbers.old + length channels.now ≤ MOST_CHANNELS }
    ensures value { numbers.new.items ≡ in_order nat_lt numbers.old.items (map Channel.number_of channels.now) }
    ensures as_many { array_vec_len numbers.new ≡ array_vec_len numbers.old + length channels.now }
{
    for channel in channels {
        let place = place_among(numbers.as_slice(), channel.number());
        numbers.insert(place, channel.number());
    }
}

/// How many ends of some channels may be alike, and in what.
#[derive(Clone, Copy)]
pub(crate) struct EndCount<'a> {
    pub(crate) sampling: &'a [SampledChannel],
    pub(crate) queuing: &'a [QueuedChannel],
    pub(crate) likeness: Likeness,
    pub(crate) most: usize,
}

impl<'a> EndCount<'a> {
    /// The first end that has more than `most` ends alike it, itself among them, if there is one.
    pub(crate) fn find_exceeded(&self) -> Option<&'a PortEnd>
        requires { length self.now.sampling.now + length self.now.queuing.now ≤ MOST_CHANNELS }
        ensures { option_map (λ end. end.now) result ≡ find (is_exceeded self.now.likeness self.now.most (ends_of self.now.sampling.now self.now.queuing.now)) (ends_of self.now.sampling.now self.now.queuing.now) }
    {
        match self.find_exceeded_in(self.sampling) {
            Some(end) => Some(end),
            None => self.find_exceeded_in(self.queuing),
        }
    }

    // The first end of these channels that has more than `most` ends alike it, if there is one.
    fn find_exceeded_in<Channel: ConfiguredChannel>(
        &self,
        channels: &'a [Channel],
    ) -> Option<&'a PortEnd>
        requires { length self.now.sampling.now + length self.now.queuing.now ≤ MOST_CHANNELS }
        ensures { option_map (λ end. end.now) result ≡ find (is_exceeded self.now.likeness self.now.most (ends_of self.now.sampling.now self.now.queuing.now)) (flat_map (λ channel. ends_inside (Channel.source_of channel) ++ Channel.destinations_of channel) channels.now) }
    {
        for channel in channels {
            if let Some(end) = self.find_exceeded_of(channel) {
                return Some(end);
            }
        }
        None
    }

    // The first end of a channel that has more than `most` ends alike it, if there is one.
    fn find_exceeded_of<Channel: ConfiguredChannel>(
        &self,
        channel: &'a Channel,
    ) -> Option<&'a PortEnd>
        requires { length self.now.sampling.now + length self.now.queuing.now ≤ MOST_CHANNELS }
        ensures { option_map (λ end. end.now) result ≡ find (is_exceeded self.now.likeness self.now.most (ends_of self.now.sampling.now self.now.queuing.now)) (ends_inside (Channel.source_of channel.now) ++ Channel.destinations_of channel.now) }
    {
        match channel.source() {
            Some(source) if self.is_exceeded_at(source) => Some(source),
            Some(_) | None => self.find_exceeded_among(channel.destinations()),
        }
    }

    // The first of these ends that has more than `most` ends alike it, if there is one.
    fn find_exceeded_among(&self, ends: &'a [PortEnd]) -> Option<&'a PortEnd>
        requires { length self.now.sampling.now + length self.now.queuing.now ≤ MOST_CHANNELS }
        ensures { option_map (λ end. end.now) result ≡ find (is_exceeded self.now.likeness self.now.most (ends_of self.now.sampling.now self.now.queuing.now)) ends.now }
    {
        ends.iter().find(|end| self.is_exceeded_at(end))
    }

    // Whether an end has more than `most` ends alike it.
    fn is_exceeded_at(&self, end: &PortEnd) -> bool
        requires { length self.now.sampling.now + length self.now.queuing.now ≤ MOST_CHANNELS }
        ensures { result ≡ is_exceeded self.now.likeness self.now.most (ends_of self.now.sampling.now self.now.queuing.now) end.now }
    {
        let count = count_alike(self.sampling, self.likeness, end)
            + count_alike(self.queuing, self.likeness, end);
        count > self.most
    }
}
