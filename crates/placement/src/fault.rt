// Why no further record is placed.

use order_cert::{CertFault, OrderFault};
use record_read::RowFault;
use thiserror::Error;

/// Why the certificate and the recordings cannot be followed further.
#[derive(Clone, Copy, Debug, Drop, PartialEq, Eq, Error)]
pub enum InputFault {
    /// The row of the certificate for this place has a fault.
    #[error("the certificate at place {place}: {fault}")]
    Cert {
        place: u64,
        fault: CertFault,
    },
    /// The pair of the certificate for this place, of this core, may not be there.
    #[error("the order at place {place}, core {core}: {fault}")]
    Order {
        place: u64,
        core: u32,
        fault: OrderFault,
    },
    /// The recording of this core has a fault after this many records.
    #[error("the recording of core {core} after {seq} records: {fault}")]
    Row {
        core: u32,
        seq: u64,
        fault: RowFault,
    },
}

/// Why the next record is not placed.
#[derive(Clone, Copy, Debug, Drop, PartialEq, Eq, Error)]
pub enum PlacingFault {
    /// The input ends with this fault.
    #[error("{0}")]
    Input(InputFault),
    /// Memory was refused, which says nothing about the input.
    #[error("out of memory")]
    Memory,
}
