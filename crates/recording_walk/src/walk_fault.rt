// Why a walk ends early.

use std::alloc::AllocError;
use thiserror::Error;

/// Why a walk ends before it has made its records.
#[derive(Clone, Copy, Debug, PartialEq, Eq, Error)]
pub enum WalkFault {
    /// Memory was refused.
    #[error("out of memory")]
    Memory,
    /// No record was found that the machine accepts next.
    #[error("no record was found that can follow")]
    Stuck,
}

impl From<AllocError> for WalkFault {
    fn from(_: AllocError) -> WalkFault {
        WalkFault::Memory
    }
}
