// Why a step of a piece is refused.

use apex_types::{Cause, Place};
use thiserror::Error;

/// Why a step of a piece is refused.
#[derive(Clone, Copy, Debug, PartialEq, Eq, Error)]
pub enum PieceFault {
    /// The piece rejects the record at this place. The cause is that of the first demand that fails.
    #[error("the piece rejects the record")]
    Rejected { pos: Place, cause: Cause },
    /// Memory was refused, at this step or an earlier one.
    #[error("out of memory")]
    Memory,
}
