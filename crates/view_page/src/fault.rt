// Why a picture is not written completely.

ghost use Rattle.std.specs.Prelude.{◌≡◌};

use std::alloc::AllocError;

/// Why a picture is not written completely.
#[derive(Clone, Copy, Debug, PartialEq, Eq)]
pub enum PageFault {
    /// Memory was refused.
    Memory,
    /// The sink failed.
    Unwritten,
}

impl From<AllocError> for PageFault {
    ghost use Rattle.view_page.specs.declared.fault.PageFault.TheVariants.{Memory};

    ghost from_gives = { λ _ fault. fault ≡ Memory };

    fn from(_: AllocError) -> PageFault {
        PageFault::Memory
    }
}
