// Why a run that is followed has no verdict.

use report::CheckFault;

/// Why a run that is followed has no verdict.
#[derive(Clone, Copy, Debug, PartialEq, Eq)]
pub enum FollowFault<Stop> {
    /// The input is refused, or memory is.
    Refused(CheckFault),
    /// The follower stopped it, for this reason.
    Stopped(Stop),
}
