// Why the parts of a configuration are not consistent.

ghost use Rattle.std.specs.Prelude.{◌≡◌};
ghost use Rattle.module_config.specs.Misfits.{fault_of};

use crate::fault::ConfigFault;
use apex_types::limits::LONGEST_NAME;
use apex_types::{ChanId, CoreId, PartId};
use arrayvec::ArrayVec;

/// What shows that the parts of a configuration are not consistent, although each of its keys is right by itself.
#[derive(Debug, Drop)]
pub enum Misfit {
    /// There are more partitions than a module may have: `TooMany`.
    Partitions,
    /// There are more windows than a module may have: `TooMany`.
    Windows,
    /// There are more channels, of both kinds together, than a module may have: `TooMany`.
    Channels,
    /// This partition has more sampling ports than it may have: `TooMany`.
    SamplingPorts(PartId),
    /// This partition has more queuing ports than it may have: `TooMany`.
    QueuingPorts(PartId),
    /// This number is given to two partitions: `Duplicate`.
    PartitionTwice(PartId),
    /// This number is given to two channels: `Duplicate`.
    ChannelTwice(ChanId),
    /// This port is at two ends of channels: `Duplicate`.
    PortTwice {
        partition: PartId,
        name: ArrayVec<u8, LONGEST_NAME>,
    },
    /// A window gives this core to this partition, which is not configured or does not have the core:
    /// `CoreNotOfPartition`.
    StrayWindow {
        core: CoreId,
        start: u64,
        partition: PartId,
    },
    /// Two windows of this core, which begin at these times, share a tick: `Overlap`.
    Overlap {
        core: CoreId,
        start: u64,
        later: u64,
    },
    /// The channel of this number does not join configured partitions: `ChannelEnds`.
    StrayChannel(ChanId),
}

impl Misfit {
    /// The fault that this shows.
    pub fn fault(&self) -> ConfigFault
        ensures { result ≡ fault_of self.now }
    {
        match self {
            Misfit::Partitions
            | Misfit::Windows
            | Misfit::Channels
            | Misfit::SamplingPorts(_)
            | Misfit::QueuingPorts(_) => ConfigFault::TooMany,
            Misfit::PartitionTwice(_) | Misfit::ChannelTwice(_) | Misfit::PortTwice { .. } => {
                ConfigFault::Duplicate
            }
            Misfit::StrayWindow { .. } => ConfigFault::CoreNotOfPartition,
            Misfit::Overlap { .. } => ConfigFault::Overlap,
            Misfit::StrayChannel(_) => ConfigFault::ChannelEnds,
        }
    }
}
