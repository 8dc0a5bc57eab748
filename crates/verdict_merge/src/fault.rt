// Why a round has no answer.

use thiserror::Error;

/// Memory was refused.
#[derive(Clone, Copy, Debug, Drop, PartialEq, Eq, Error)]
#[error("out of memory")]
pub struct Memory;
