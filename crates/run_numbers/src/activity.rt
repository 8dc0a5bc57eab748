// What a process does.

ghost use Rattle.std.specs.Prelude.{◌≡◌};
ghost use Rattle.apex_machine.specs.State.{is_occupant};
ghost use Rattle.run_numbers.specs.Activities.{activity_by, activity_of};

use crate::figure::Activity;
use apex_machine::{Process, Wait};
use apex_types::Who;

/// What a process does while its core has this occupant.
pub(crate) fn activity_of(occupant: Option<Who>, who: &Who, process: &Process) -> Activity
    ensures { result ≡ activity_of occupant who.now process.now }
{
    if is_running(occupant, who) {
        Activity::Running
    } else if !process.alive {
        Activity::Dormant
    } else if process.faulted {
        Activity::Faulted
    } else if process.suspended {
        Activity::Suspended
    } else {
        activity_by(process.wait)
    }
}

// Whether the process is the occupant of a core.
fn is_running(occupant: Option<Who>, who: &Who) -> bool
    ensures { result ≡ is_occupant who.now occupant }
{
    match occupant {
        Some(occupant) => *who == occupant,
        None => false,
    }
}

// What a process does that is neither dormant, nor faulted, nor suspended by another one, by what it waits for.
fn activity_by(wait: Wait) -> Activity
    ensures { result ≡ activity_by wait }
{
    match wait {
        Wait::Nothing => Activity::Ready,
        Wait::Suspended(_) => Activity::Suspended,
        _ => Activity::Waiting,
    }
}
