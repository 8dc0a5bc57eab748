// Why there is no verdict.

ghost use Rattle.std.specs.Prelude.{◌≡◌};
ghost use Rattle.report.specs.Outcome.{config_refusal_of};

use module_config::ConfigFault;
use placement::InputFault;
use thiserror::Error;

/// What is wrong with the arguments of a check. The faults are looked for in this order, and those of the configuration before the last
/// of these.
#[derive(Clone, Copy, Debug, Drop, PartialEq, Eq, Error)]
pub enum ArgumentFault {
    /// 0 workers are asked for.
    #[error("the number of workers is 0")]
    NoWorkers,
    /// More than 64 workers are asked for.
    #[error("the number of workers is above 64")]
    TooManyWorkers,
    /// A depth of 0 is asked for: no record of a core could be read ahead.
    #[error("the depth is 0")]
    NoDepth,
    /// A depth above 4,096 records of a core is asked for.
    #[error("the depth is above 4,096")]
    TooDeep,
    /// The number of recordings is not the number of cores.
    #[error("the number of recordings is not the number of cores")]
    ReaderCount,
}

/// Why there is no verdict. The least place decides. At one place the certificate comes first, then the order, then the recording.
#[derive(Clone, Copy, Debug, Drop, PartialEq, Eq, Error)]
pub enum CheckFault {
    /// The arguments are refused.
    #[error("{0}")]
    Arguments(ArgumentFault),
    /// The configuration is refused.
    #[error("the configuration: {0}")]
    Config(ConfigFault),
    /// The certificate, the order or a recording is refused.
    #[error("{0}")]
    Input(InputFault),
    /// Memory was refused, whichever part of the check asked for it. This says nothing about what was read, so another run may have a
    /// verdict.
    #[error("out of memory")]
    Memory,
}

// The refusal that a fault of the configuration means.
pub(crate) fn config_refusal(fault: ConfigFault) -> CheckFault
    ensures { result ≡ config_refusal_of fault }
{
    match fault {
        ConfigFault::Memory => CheckFault::Memory,
        _ => CheckFault::Config(fault),
    }
}
