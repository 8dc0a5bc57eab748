// A process, as its partition holds it.

ghost use Rattle.std.specs.Prelude.{◌≡◌};
ghost use Rattle.run_view.specs.Processes.{shown_process, state_of};

use apex_machine::{Process, Wait};
use apex_types::{CoreId, Service};

/// The state of a process. Which of the ready processes a core runs is in the view of the core.
#[derive(Clone, Copy, Debug, PartialEq, Eq)]
pub enum ProcessState {
    Dormant,
    Ready,
    Waiting(Wait),
    /// Another process suspended it, whatever else it waits for.
    Suspended(Wait),
    /// It has an error that its partition's handler has not dealt with, whatever else it waits for.
    Faulted(Wait),
}

/// A process: its state, its priorities, its core, its ready position, the service from which it must return before its next call, and its
/// deadline, in ticks, if it has one.
#[derive(Clone, Copy, Debug, PartialEq, Eq)]
pub struct ProcessView {
    pub state: ProcessState,
    pub current_priority: u8,
    pub base_priority: u8,
    pub affinity: CoreId,
    pub ready_position: u64,
    pub due: Option<Service>,
    pub deadline: Option<u64>,
}

/// What a partition holds of a process.
pub fn process_view(process: &Process) -> ProcessView
    ensures { result ≡ shown_process process.now }
{
    ProcessView {
        state: state_of(process),
        current_priority: process.current_priority,
        base_priority: process.base_priority,
        affinity: process.affinity,
        ready_position: process.ready_position,
        due: match &process.due {
            Some(outcome) => Some(outcome.service),
            None => None,
        },
        deadline: process.deadline,
    }
}

// The state of a process.
fn state_of(process: &Process) -> ProcessState
    ensures { result ≡ state_of process.now }
{
    if !process.alive {
        ProcessState::Dormant
    } else if process.faulted {
        ProcessState::Faulted(process.wait)
    } else if process.suspended {
        ProcessState::Suspended(process.wait)
    } else {
        match process.wait {
            Wait::Nothing => ProcessState::Ready,
            wait => ProcessState::Waiting(wait),
        }
    }
}
