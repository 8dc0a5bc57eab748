// Why a record is not lawful.

/// Why a record is not lawful, in the order in which a piece tests.
#[derive(Clone, Copy, Debug, PartialEq, Eq)]
pub enum Cause {
    /// The record names a partition or a channel that is not configured.
    Names,
    /// The tick takes its core more than the skew ahead of another core.
    Skew,
    /// The core is in no window, but the record speaks of a process.
    Idle,
    /// The window of the core is another partition's.
    Window,
    /// A process of the core has missed its deadline, which is not reported; or a deadline is reported that is not missed.
    Deadline,
    /// The process is not the choice of its core, or not its occupant.
    Choice,
    /// An outcome is due and not returned, or is returned and not due.
    Return,
    /// The call is outside the profile.
    OutsideProfile,
    /// The priority is not the caller's current one.
    Prio,
    /// The channel is not the port's.
    Chan,
    /// The outcome is not one that the call can have.
    Out,
    /// The value is not the one that goes with the outcome.
    Val,
    /// The message is not the one that goes with the outcome.
    Data,
    /// The processes named are not those whose waits end.
    Woken,
}
