// The change of a mutex's owner.

ghost use Rattle.std.specs.Prelude.{◌≡◌, None};

use apex_types::ProcId;

/// What a call makes of the owners of a mutex: the process that stops being the owner, the process that becomes the owner, and the mutex's
/// priority.
#[derive(Clone, Copy, Debug)]
pub struct Transfer {
    pub from: Option<ProcId>,
    pub to: Option<ProcId>,
    pub priority: u8,
}

impl Transfer {
    /// No mutex changes its owner.
    pub fn none() -> Transfer
        ensures from { result.from ≡ None }
        ensures to { result.to ≡ None }
    {
        Transfer {
            from: None,
            to: None,
            priority: 0,
        }
    }
}
