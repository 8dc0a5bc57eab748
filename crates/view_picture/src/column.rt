// A column of a picture: a record.

use apex_types::{CoreId, Place};
use std::alloc::{AllocError, Global};

/// What is known of a record.
#[derive(Clone, Copy, Debug, PartialEq, Eq)]
pub enum Status {
    /// It is accepted.
    Accepted,
    /// It is rejected, or its view breaks a rule.
    Rejected,
    Broken,
    /// It comes after a record that is rejected or breaks a rule, so it is not judged.
    After,
    /// It comes after the place at which the picture ends on request, so its states are not shown.
    Beyond,
}

impl Status {
    /// Whether the record is judged.
    pub fn is_judged(self) -> bool {
        match self {
            Status::Accepted | Status::Rejected | Status::Broken => true,
            Status::After | Status::Beyond => false,
        }
    }

    /// Whether the record is rejected or breaks a rule.
    pub fn is_fault(self) -> bool {
        match self {
            Status::Rejected | Status::Broken => true,
            Status::Accepted | Status::After | Status::Beyond => false,
        }
    }
}

/// Where a record is: its file, its line if it is known, and its row there.
#[derive(Clone, Copy, Debug)]
pub struct Source<'a> {
    pub file: &'a str,
    pub line: Option<u64>,
    pub row: &'a str,
}

/// A record in a picture: where it is in the order and in its file, its label, itself in words, and what it changed.
#[derive(Drop)]
pub struct Column {
    pub place: Place,
    pub core: CoreId,
    /// The time of its core after it, in ticks, if it is judged.
    pub time: Option<u64>,
    pub status: Status,
    pub label: String,
    /// Its file and, if it is known, its line; and the same with its row.
    pub location: String,
    pub source: String,
    pub words: String,
    pub changes: String,
}

// The file of a record and, if it is known, its line.
pub(crate) fn location_text(alloc: Global, source: &Source<'_>) -> Result<String, AllocError> {
    match source.line {
        Some(line) => format!(in alloc; "{}, line {line}", source.file),
        None => String::from_str(alloc, source.file),
    }
}

// Where a record is, with its row if that is known.
pub(crate) fn source_text(alloc: Global, source: &Source<'_>) -> Result<String, AllocError> {
    match source.line {
        Some(line) => format!(in alloc; "{}, line {line}: {}", source.file, source.row),
        None => String::from_str(alloc, source.file),
    }
}
