// How a search goes on, and how it ends.

/// How a search ends.
#[derive(Clone, Copy, Debug, PartialEq, Eq)]
pub enum End {
    /// Every record has its place.
    Whole,
    /// No way to go on was found.
    Stuck,
    /// As many records were tried as may be.
    EffortUsed,
}

/// What comes next.
#[derive(Clone, Copy, Debug, PartialEq, Eq)]
pub enum Step {
    /// The next record of the order is this core's next one.
    Next(usize),
    /// There is no further record.
    Over(End),
}
