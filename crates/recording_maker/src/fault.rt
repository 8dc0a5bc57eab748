// Why no recording was made.

use module_config::ConfigFault;
use recording_walk::WalkFault;
use report::{CheckFault, Verdict};
use std::alloc::AllocError;
use thiserror::Error;

/// Why no recording was made.
#[derive(Clone, Copy, Debug, PartialEq, Eq, Error)]
pub enum MakeFault {
    /// The text of the configuration is refused.
    #[error("the configuration is refused")]
    Config(ConfigFault),
    /// No record of the run can be spoilt so that a piece rejects it for the wanted cause.
    #[error("no record can be spoilt for this cause")]
    NotSpoilt,
    /// At some point, no record was found that the machine accepts next.
    #[error("no record was found that can follow")]
    Stuck,
    /// The check of what was made has another answer than the one that was asked for.
    #[error("the check has another answer")]
    Judged(Result<Verdict, CheckFault>),
    /// A recording is in another format than the one that was asked for.
    #[error("a recording is in another format")]
    OtherFormat,
    /// Memory was refused.
    #[error("out of memory")]
    Memory,
}

impl From<AllocError> for MakeFault {
    ghost use Rattle.std.specs.Prelude.{◌≡◌};
    ghost use Rattle.recording_maker.specs.declared.fault.MakeFault.TheVariants.{Memory};

    ghost from_gives = { λ _ fault. fault ≡ Memory };

    fn from(_: AllocError) -> MakeFault {
        MakeFault::Memory
    }
}

impl From<WalkFault> for MakeFault {
    ghost use Rattle.std.specs.Prelude.{◌≡◌};
    ghost use Rattle.recording_maker.specs.Refused.{fault_of_walk};

    ghost from_gives = { λ walk fault. fault ≡ fault_of_walk walk };

    fn from(fault: WalkFault) -> MakeFault {
        match fault {
            WalkFault::Memory => MakeFault::Memory,
            WalkFault::Stuck => MakeFault::Stuck,
        }
    }
}
