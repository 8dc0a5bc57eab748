// A refusal of a configuration with its place.

ghost use Rattle.std.specs.Prelude.{◌≡◌};
ghost use Rattle.module_config.specs.Places.{nowhere};

use crate::fault::ConfigFault;
use crate::misfit::Misfit;
use crate::place::ConfigPlace;
use std::alloc::AllocFailed;

/// Why and where a text is not a configuration.
///
/// `place` is the key at which the walk over the keys ends: the key is missing, its value has the wrong type, or its value is out of range.
/// It is None for every other fault, which no single key has.
#[derive(Clone, Copy, Debug, Drop, PartialEq, Eq)]
pub struct ConfigRefusal {
    pub fault: ConfigFault,
    pub place: Option<ConfigPlace>,
}

impl ConfigRefusal {
    /// A refusal at no key.
    pub(crate) fn nowhere(fault: ConfigFault) -> ConfigRefusal
        ensures { result ≡ nowhere fault }
    {
        ConfigRefusal { fault, place: None }
    }
}

impl<T: Drop> From<AllocFailed<T>> for ConfigRefusal {
    ghost use Rattle.std.specs.Prelude.{◌≡◌};
    ghost use Rattle.module_config.specs.declared.fault.ConfigFault.TheVariants.{Memory};
    ghost use Rattle.module_config.specs.Places.{nowhere};

    ghost from_gives = { λ _ refusal. refusal ≡ nowhere Memory };

    fn from(_refused: AllocFailed<T>) -> ConfigRefusal {
        ConfigRefusal::nowhere(ConfigFault::Memory)
    }
}

/// A refusal of a configuration, with what shows it.
///
/// There is a misfit if each key is right by itself and the parts are not consistent: for the faults from `TooMany` to `ChannelEnds`, of a
/// text that is not too long.
#[derive(Debug, Drop)]
pub struct ExplainedRefusal {
    pub refusal: ConfigRefusal,
    pub misfit: Option<Misfit>,
}

impl From<ConfigRefusal> for ExplainedRefusal {
    ghost use Rattle.std.specs.Prelude.{◌≡◌, None};

    ghost from_gives = { λ refusal explained. explained ≡ record { refusal = refusal; misfit = None } };

    fn from(refusal: ConfigRefusal) -> ExplainedRefusal {
        ExplainedRefusal {
            refusal,
            misfit: None,
        }
    }
}
