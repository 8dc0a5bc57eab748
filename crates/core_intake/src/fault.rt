// Why recordings could not be opened.

use thiserror::Error;

/// Why the recordings could not be opened.
#[derive(Clone, Copy, Debug, Drop, PartialEq, Eq, Error)]
pub enum IntakeFault {
    /// The depth is 0: no record could wait.
    #[error("the depth is 0")]
    NoDepth,
    /// Memory or a thread was refused.
    #[error("out of memory")]
    Memory,
}
