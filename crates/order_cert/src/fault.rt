// Why a certificate cannot be read, and why a pair may not come next.

use thiserror::Error;

/// Why a certificate gives no pair.
#[derive(Clone, Copy, Debug, Drop, PartialEq, Eq, Error)]
pub enum CertFault {
    /// The reader of the certificate returned an error.
    #[error("the certificate could not be read")]
    Read,
    /// Memory was refused.
    #[error("out of memory")]
    Memory,
    /// The row comes after the 68,719,476,720 that there can be.
    #[error("the certificate has too many rows")]
    TooMany,
    /// The row does not have two fields.
    #[error("the row does not have two fields")]
    FieldCount,
    /// A field is not the canonical decimal of a number from 0 to 4,294,967,295.
    #[error("a number is malformed or out of range")]
    BadNumber,
    /// A fault was reported before.
    #[error("an earlier fault has ended the certificate")]
    Ended,
}

/// Why a pair may not come where it does, or why an order may not end where it ends.
#[derive(Clone, Copy, Debug, Drop, PartialEq, Eq, Error)]
pub enum OrderFault {
    /// The module has no such core.
    #[error("there is no such core")]
    NoSuchCore,
    /// The number is above the core's next one.
    #[error("a record is skipped")]
    Skipped,
    /// The number was taken before.
    #[error("a record is named a second time")]
    Repeated,
    /// The core's recording ended before this record. A keeper, which sees no recording, never reports this.
    #[error("the recording has no such record")]
    Absent,
    /// A core has records left that no pair names.
    #[error("the certificate does not name every record")]
    Missing,
}
