// How a bar looks.

/// How a bar looks. The bar's text says the same.
#[derive(Clone, Copy, Debug, PartialEq, Eq)]
pub enum Look {
    /// A core is in a window, or in none.
    Window,
    NoWindow,
    /// A core has an occupant, or none.
    Occupied,
    Idle,
    /// The mode of a partition: NORMAL, or another one.
    Normal,
    OtherMode,
    Running,
    /// It runs, with a priority above its own.
    Raised,
    Ready,
    /// It is ready, and another process of its partition took its core.
    Preempted,
    Waiting,
    Suspended,
    /// It has an error that its partition's handler has not dealt with.
    Faulted,
    Dormant,
    /// An object or a channel at which nobody waits, and one at which a process waits.
    Free,
    Awaited,
}
