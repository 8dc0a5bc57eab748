// What a record changes.

ghost use Rattle.std.specs.Prelude.{◌≡◌, ◌++◌, [], ◌∷◌, OnOk};

use crate::cores::CoreView;
use crate::process::ProcessView;
use crate::thing::ThingKey;
use apex_machine::Mode;
use apex_types::{PartId, Who};
use std::alloc::AllocError;

/// Something that is no longer as it was last seen. What an object or a channel now holds is read from its piece.
#[derive(Clone, Copy, Debug, PartialEq, Eq)]
pub enum Change {
    Core(CoreView),
    Mode(PartId, Mode),
    /// A process is new, or is no longer as it was.
    Process(Who, ProcessView),
    /// A process no longer exists: it ended with a restart of its partition.
    Ended(Who),
    Thing(ThingKey),
    /// An object no longer exists: it ended with a restart of its partition.
    Removed(ThingKey),
}

// Adds a change.
pub(crate) fn add(changes: &mut Vec<Change>, change: Change) -> Result<(), AllocError>
    ensures { OnOk result (changes.new.items ≡ changes.old.items ++ change ∷ []) }
{
    changes.extend_from_slice(&[change])
}
