// What the horizontal axis of a picture or a trace counts.

/// What the horizontal axis of a picture or a trace counts. In a trace, one of what it counts is a microsecond.
#[derive(Clone, Copy, Debug, PartialEq, Eq)]
pub enum Axis {
    /// Records, each at its place.
    Place,
    /// Ticks: each record is at the time of its core.
    Time,
}
