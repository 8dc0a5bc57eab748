// Why a trace ends before its run does.

use sink::WriteFault;
use std::alloc::{AllocError, AllocFailed};

/// Why a trace ends before its run does.
#[derive(Clone, Copy, Debug, PartialEq, Eq)]
pub enum TraceFault {
    /// Memory was refused.
    Memory,
    /// The sink failed.
    Unwritten,
}

impl From<AllocError> for TraceFault {
    fn from(_: AllocError) -> TraceFault {
        TraceFault::Memory
    }
}

impl<T: Drop> From<AllocFailed<T>> for TraceFault {
    fn from(_: AllocFailed<T>) -> TraceFault {
        TraceFault::Memory
    }
}

impl From<WriteFault> for TraceFault {
    fn from(_: WriteFault) -> TraceFault {
        TraceFault::Unwritten
    }
}
