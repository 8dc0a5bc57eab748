// A lane of a picture.

use crate::bars::Bars;
use crate::lane_key::LaneKey;
use crate::role::Role;
use apex_types::CoreId;
use std::alloc::Global;

/// What is in a lane at a column.
#[derive(Clone, Copy, Debug, PartialEq, Eq)]
pub enum MarkKind {
    Tick,
    Dispatch,
    Call,
    Return,
    /// A message arrives from outside, or departs to it.
    Crossing,
    /// An error of the process is reported.
    Error,
    /// The partition restarts.
    Restart,
    /// What the rejected record says.
    Rejected,
    /// What would have been lawful.
    Lawful,
    /// What is unlawful.
    Unlawful,
}

impl MarkKind {
    /// Whether the mark has its text beside it, like those in the column of a rejected record.
    pub fn is_box(self) -> bool {
        match self {
            MarkKind::Rejected | MarkKind::Lawful | MarkKind::Unlawful => true,
            MarkKind::Tick
            | MarkKind::Dispatch
            | MarkKind::Call
            | MarkKind::Return
            | MarkKind::Crossing
            | MarkKind::Error
            | MarkKind::Restart => false,
        }
    }
}

/// A mark in a lane at a column, with its text.
#[derive(Debug, Drop)]
pub struct Mark {
    pub column: usize,
    pub kind: MarkKind,
    pub text: String,
}

/// A lane: its subject, its label, its bars and its marks. The windows of a core are bars of their own.
#[derive(Drop)]
pub struct Lane {
    pub key: LaneKey,
    pub label: String,
    /// The core whose time it has: itself, or that of a process; none for a partition, an object, a lock or a channel.
    pub core: Option<CoreId>,
    // What process 0 is, in its lane.
    pub(crate) role: Option<Role>,
    pub windows: Bars,
    pub bars: Bars,
    pub marks: Vec<Mark>,
    /// The columns at which it acts or is affected, in rising order.
    pub concerned: Vec<usize>,
    /// Whether the record that is rejected or breaks a rule touches it.
    pub is_touched: bool,
}

impl Lane {
    /// A lane with nothing in it.
    pub fn new(alloc: Global, key: LaneKey, label: String) -> Lane {
        Lane {
            key,
            label,
            core: match key {
                LaneKey::Core(core) => Some(core),
                LaneKey::Partition(_) | LaneKey::Process(_) | LaneKey::Thing(_) => None,
            },
            role: None,
            windows: Bars::new(alloc),
            bars: Bars::new(alloc),
            marks: Vec::new(alloc),
            concerned: Vec::new(alloc),
            is_touched: false,
        }
    }

    /// Whether it acts or is affected at one of these columns.
    pub fn is_concerned(&self, from: usize, to: usize) -> bool {
        self.concerned
            .iter()
            .any(|column| from <= *column && *column < to)
    }
}
