// Why figures are not written.

use sink::WriteFault;
use std::alloc::{AllocError, AllocFailed};

/// Why figures are not written.
#[derive(Clone, Copy, Debug, PartialEq, Eq)]
pub enum NumbersFault {
    /// Memory was refused.
    Memory,
    /// The sink failed.
    Unwritten,
}

impl From<AllocError> for NumbersFault {
    fn from(_: AllocError) -> NumbersFault {
        NumbersFault::Memory
    }
}

impl<T: Drop> From<AllocFailed<T>> for NumbersFault {
    fn from(_: AllocFailed<T>) -> NumbersFault {
        NumbersFault::Memory
    }
}

impl From<WriteFault> for NumbersFault {
    fn from(_: WriteFault) -> NumbersFault {
        NumbersFault::Unwritten
    }
}
