// A module whose text is a configuration.

ghost use Rattle.std.specs.Prelude.{IfOk, IsOk, string_bytes};
ghost use Rattle.module_config.specs.Reading.{configuration_of};

use crate::choices::Choices;
use crate::module_plan::ModulePlan;
use crate::plan_text::text_of;
use module_config::{Config, ConfigFault};
use std::alloc::{AllocError, Global};
use thiserror::Error;

/// Why no configuration was made.
#[derive(Clone, Copy, Debug, PartialEq, Eq, Error)]
pub enum ModuleFault {
    /// The text that was made is no configuration.
    #[error("what was made is no configuration")]
    Refused(ConfigFault),
    /// Memory was refused.
    #[error("out of memory")]
    Memory,
}

impl From<AllocError> for ModuleFault {
    fn from(_: AllocError) -> ModuleFault {
        ModuleFault::Memory
    }
}

/// A text that configures a module, by the choices of a seed. The same seed gives the same text.
///
/// `Refused` if the text that was made is no configuration, and `Memory` if it is refused.
pub fn module_text(alloc: Global, seed: u64) -> Result<String, ModuleFault>
    ensures { IfOk result (λ text. IsOk (configuration_of (string_bytes text))) }
{
    let plan = ModulePlan::new(alloc, &mut Choices::new(seed))?;
    let text = text_of(alloc, &plan)?;
    match Config::read(alloc, text.as_bytes()) {
        Ok(_) => Ok(text),
        Err(ConfigFault::Memory) => Err(ModuleFault::Memory),
        Err(fault) => Err(ModuleFault::Refused(fault)),
    }
}
