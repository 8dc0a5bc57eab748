// Why a text is not a configuration.

ghost use Rattle.std.specs.Prelude.{◌≡◌, ◌↔◌, IsTrue};
ghost use Rattle.module_config.specs.declared.fault.ConfigFault.TheVariants.{Memory};

use std::alloc::AllocFailed;
use thiserror::Error;

/// Why a text is not a configuration that this checker accepts.
///
/// Under a key, `Missing` comes before `WrongType`, and that before `OutOfRange`. The variants from `TooMany` to `ChannelEnds` are judged
/// over the whole configuration, once each key has been read; but a text that is too long is `TooMany` at once.
#[derive(Clone, Copy, Debug, Drop, PartialEq, Eq, Error)]
pub enum ConfigFault {
    /// The text is not UTF-8 or not TOML.
    #[error("the text is not TOML")]
    NotToml,
    /// A required key is missing.
    #[error("a key is missing")]
    Missing,
    /// The value of a key has the wrong type.
    #[error("a value has the wrong type")]
    WrongType,
    /// A value of the right type is not one that its key allows.
    #[error("a value is out of range")]
    OutOfRange,
    /// There is more of something than the checker accepts: bytes of text, partitions, windows, channels or ports.
    #[error("a limit is exceeded")]
    TooMany,
    /// Two partitions have the same number, or two channels of either kind, or a partition has two ports of the same name.
    #[error("a number or a port is given twice")]
    Duplicate,
    /// A window's partition is not configured, or does not have the window's core.
    #[error("a window's partition is not configured, or does not have the window's core")]
    CoreNotOfPartition,
    /// Two windows of one core have a tick in common.
    #[error("two windows of a core overlap")]
    Overlap,
    /// An end of a channel is in a partition that is not configured, or the source and a destination are in the same partition.
    #[error("a channel does not join different configured partitions")]
    ChannelEnds,
    /// Memory ran out.
    #[error("out of memory")]
    Memory,
}

impl ConfigFault {
    /// Whether memory ran out, which says nothing about the text.
    pub fn is_memory(&self) -> bool
        ensures { IsTrue result ↔ (self.now ≡ Memory) }
    {
        *self == ConfigFault::Memory
    }
}

impl<T: Drop> From<AllocFailed<T>> for ConfigFault {
    ghost use Rattle.std.specs.Prelude.{◌≡◌};
    ghost use Rattle.module_config.specs.declared.fault.ConfigFault.TheVariants.{Memory};

    ghost from_gives = { λ _ fault. fault ≡ Memory };

    fn from(_refused: AllocFailed<T>) -> ConfigFault {
        ConfigFault::Memory
    }
}
