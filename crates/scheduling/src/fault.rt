// The change of who is faulted.

ghost use Rattle.std.specs.Prelude.{◌≡◌};
ghost use Rattle.apex_machine.specs.Errors as errors;
ghost use Rattle.scheduling.specs.Faults as faults;

use apex_machine::{ErrorHandler, ListedError};
use apex_types::ProcId;

/// What a call makes of who is faulted in its partition.
#[derive(Clone, Copy)]
pub enum FaultChange<'a> {
    /// Nothing.
    Unchanged,
    /// The call is an error of its caller, which this handler takes.
    Raises(ErrorHandler),
    /// The call is the handler's STOP_SELF. These errors are left.
    Ends(&'a [ListedError]),
}

impl FaultChange<'_> {
    /// Whether it leaves its caller ready: the caller is the handler, and has more errors to take.
    pub fn handles_more(&self) -> bool
        ensures { result ≡ faults.leaves_ready self.now }
    {
        match self {
            FaultChange::Ends(left) => !left.is_empty(),
            FaultChange::Unchanged | FaultChange::Raises(_) => false,
        }
    }
}

/// Whether an error of this process is in the list.
pub fn has_error(number: ProcId, listed: &[ListedError]) -> bool
    ensures { result ≡ errors.has_error number listed.now }
{
    listed.iter().any(|error| error.process == number)
}
