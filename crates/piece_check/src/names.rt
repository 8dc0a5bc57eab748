// The partitions and channels that a record names.

ghost use Rattle.std.specs.Prelude.{◌≡◌, ◌↔◌, IsTrue};
ghost use Rattle.apex_machine.specs.State.{names_one_of};
ghost use Rattle.apex_machine.specs.Step.{AllConfigured, OneConfigured, ChannelConfigured};

use apex_types::{ChanId, PartId, Who};
use module_config::Config;

/// Whether each of these processes is of a configured partition.
pub(crate) fn all_configured(config: &Config, named: &[Who]) -> bool
    ensures { IsTrue result ↔ AllConfigured config.now named.now }
{
    named.iter().all(|who| config.has_partition(who.part))
}

/// Whether the process, if one is named, is of a configured partition.
pub(crate) fn one_configured(config: &Config, named: Option<Who>) -> bool
    ensures { IsTrue result ↔ OneConfigured config.now named }
{
    match named {
        Some(who) => config.has_partition(who.part),
        None => true,
    }
}

/// Whether the channel, if one is named, is configured.
pub(crate) fn channel_configured(config: &Config, named: Option<ChanId>) -> bool
    ensures { IsTrue result ↔ ChannelConfigured config.now named }
{
    match named {
        Some(channel) => config.has_channel(channel),
        None => true,
    }
}

/// Whether one of these processes is of this partition.
pub(crate) fn names_one_of(named: &[Who], number: PartId) -> bool
    ensures { result ≡ names_one_of number named.now }
{
    named.iter().any(|who| who.part == number)
}
