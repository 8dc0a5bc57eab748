// Why a row is not a record.

use thiserror::Error;

/// Why a recording gives no record.
#[derive(Clone, Copy, Debug, Drop, PartialEq, Eq, Error)]
pub enum RowFault {
    /// The reader of the recording returned an error.
    #[error("the recording could not be read")]
    Read,
    /// Memory was refused.
    #[error("out of memory")]
    Memory,
    /// The row comes after the 4,294,967,295 that a recording can have.
    #[error("the recording has too many rows")]
    TooMany,
    /// The row has more or fewer fields than the recording's format.
    #[error("the row has more or fewer fields than the recording's format")]
    FieldCount,
    /// A number is not in canonical decimal, or out of its range.
    #[error("a number is malformed or out of range")]
    BadNumber,
    /// The row's number is not the next one.
    #[error("the row's sequence number is not the next one")]
    SeqGap,
    /// The kind is not known, or the recording's format does not have it.
    #[error("unknown kind of row")]
    BadKind,
    /// A field that must be empty is filled, or one that must be filled is empty.
    #[error("a field is filled but must be empty, or is empty but must be filled")]
    FieldNotForKind,
    /// The service is not known, or the recording's format does not have it.
    #[error("unknown service")]
    BadService,
    /// The name is too long or has a byte that is not printable.
    #[error("a name is too long, or has a byte that is not printable")]
    BadName,
    /// The message is not hexadecimal.
    #[error("a message is not in hexadecimal")]
    BadHex,
    /// The message is too long, or not as long as its length argument says.
    #[error("a message has the wrong length")]
    BadLength,
    /// The outcome is not one that the row can have.
    #[error("unknown outcome")]
    BadOut,
    /// The list of processes is malformed, or not in rising order.
    #[error("a list of processes is malformed or out of order")]
    BadWoken,
    /// The error is not one that the row can report.
    #[error("unknown error")]
    BadError,
    /// A fault was reported before.
    #[error("an earlier fault has ended the recording")]
    Ended,
}
