// The columns of a recording.

ghost use Rattle.std.specs.Prelude.{◌≡◌};
ghost use Rattle.record_read.specs.Column.{greatest_of, place_of};

use apex_types::limits::{
    GREATEST_CHANNEL, GREATEST_NUMBER, GREATEST_PARTITION, GREATEST_PRIORITY, MOST_RECORDS,
};

/// A column of a recording: a field of each row, in the order of the fields. The rows of format 1 end at `Woken`, those of format 2 at
/// `ThirdValue`.
#[derive(Clone, Copy, Debug, PartialEq, Eq)]
pub enum Column {
    Sequence,
    Kind,
    Partition,
    Process,
    Service,
    FirstNumber,
    SecondNumber,
    ThirdNumber,
    Name,
    Message,
    Priority,
    Outcome,
    Value,
    Data,
    Channel,
    Woken,
    SecondValue,
    ThirdValue,
    Error,
}

/// The columns in their order, with their names.
pub const COLUMNS: [(Column, &'static str); 19] = [
    (Column::Sequence, "seq"),
    (Column::Kind, "kind"),
    (Column::Partition, "part"),
    (Column::Process, "proc"),
    (Column::Service, "service"),
    (Column::FirstNumber, "n1"),
    (Column::SecondNumber, "n2"),
    (Column::ThirdNumber, "n3"),
    (Column::Name, "name"),
    (Column::Message, "msg"),
    (Column::Priority, "prio"),
    (Column::Outcome, "out"),
    (Column::Value, "val"),
    (Column::Data, "data"),
    (Column::Channel, "chan"),
    (Column::Woken, "woken"),
    (Column::SecondValue, "val2"),
    (Column::ThirdValue, "val3"),
    (Column::Error, "err"),
];

/// The columns in their order.
pub const EVERY_COLUMN: [Column; 19] = [
    Column::Sequence,
    Column::Kind,
    Column::Partition,
    Column::Process,
    Column::Service,
    Column::FirstNumber,
    Column::SecondNumber,
    Column::ThirdNumber,
    Column::Name,
    Column::Message,
    Column::Priority,
    Column::Outcome,
    Column::Value,
    Column::Data,
    Column::Channel,
    Column::Woken,
    Column::SecondValue,
    Column::ThirdValue,
    Column::Error,
];

impl Column {
    /// The name of the column.
    pub fn name(self) -> &'static str {
        let row = &COLUMNS[self as usize];
        row.1
    }

    /// Its place in a row, from 0.
    pub fn place(self) -> usize
        ensures { result ≡ place_of self }
    {
        self as usize
    }

    /// The greatest number that its field can have, if its numbers are those from 0 on.
    pub fn greatest(self) -> Option<u64>
        ensures { result ≡ greatest_of self }
    {
        match self {
            Column::Sequence => Some(MOST_RECORDS as u64 - 1),
            Column::Partition => Some(GREATEST_PARTITION as u64),
            Column::Process => Some(GREATEST_NUMBER as u64),
            Column::Priority => Some(GREATEST_PRIORITY as u64),
            Column::Channel => Some(GREATEST_CHANNEL as u64),
            _ => None,
        }
    }
}
