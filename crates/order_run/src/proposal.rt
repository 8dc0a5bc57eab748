// What is proposed, and why nothing is.

use apex_types::Place;
use placement::{InputFault, PlacingFault};
use sink::WriteFault;
use std::alloc::AllocError;
use thiserror::Error;
use verdict_merge::{Memory, Refused};

/// The first rule that is broken: the view of the record at this place breaks the rule of this number, counted from 0.
#[derive(Clone, Copy, Debug, PartialEq, Eq)]
pub struct BrokenRule {
    pub pos: Place,
    pub rule: usize,
}

/// The outcome of a search for an order.
#[derive(Clone, Copy, Debug, PartialEq, Eq)]
pub enum Proposal {
    /// An order was found: all records, of which there are so many, are a run of the machine in it. Their views meet every rule, or the
    /// first rule is broken there.
    Found {
        records: u64,
        broken: Option<BrokenRule>,
    },
    /// No order was found: in the order that was written, a piece refuses the record at a place, and the records before it are a run of
    /// the machine. Their views meet every rule, or the first rule is broken there.
    NotFound {
        refused: Refused,
        broken: Option<BrokenRule>,
    },
}

/// Why there is no proposal.
#[derive(Clone, Copy, Debug, Drop, PartialEq, Eq, Error)]
pub enum ProposalFault {
    /// A recording is refused.
    #[error("{0}")]
    Input(InputFault),
    /// A growth of memory was refused.
    #[error("out of memory")]
    Memory,
    /// The output took no more.
    #[error("the output could not be written")]
    Output,
}

impl From<AllocError> for ProposalFault {
    fn from(_refused: AllocError) -> ProposalFault {
        ProposalFault::Memory
    }
}

impl From<WriteFault> for ProposalFault {
    fn from(_fault: WriteFault) -> ProposalFault {
        ProposalFault::Output
    }
}

impl From<Memory> for ProposalFault {
    fn from(_memory: Memory) -> ProposalFault {
        ProposalFault::Memory
    }
}

impl From<PlacingFault> for ProposalFault {
    fn from(fault: PlacingFault) -> ProposalFault {
        match fault {
            PlacingFault::Input(fault) => ProposalFault::Input(fault),
            PlacingFault::Memory => ProposalFault::Memory,
        }
    }
}
