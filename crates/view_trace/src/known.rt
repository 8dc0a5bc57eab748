// What was last shown of cores and processes.

use apex_machine::Wait;
use apex_types::Who;
use run_view::{CoreView, ProcessState, ProcessView};

/// A process, with what was last shown of it, the number of its last wait, and whether a slice of it is open.
#[derive(Clone, Copy)]
pub struct TracedProcess {
    pub who: Who,
    pub view: ProcessView,
    pub runs: bool,
    pub wait: u64,
    pub is_open: bool,
}

impl TracedProcess {
    /// What it was last shown to wait for.
    pub fn waits_for(&self) -> Wait {
        if self.is_open {
            wait_of(&self.view)
        } else {
            Wait::Nothing
        }
    }
}

// What a process waits for, whatever else keeps it from running.
fn wait_of(view: &ProcessView) -> Wait {
    match view.state {
        ProcessState::Waiting(wait) | ProcessState::Suspended(wait) | ProcessState::Faulted(wait) =>
            wait,
        ProcessState::Dormant | ProcessState::Ready => Wait::Nothing,
    }
}

/// Keeps what is known of the core with this index. Returns whether its occupant is another one.
pub fn renew_core(cores: &mut Vec<CoreView>, index: usize, view: &CoreView) -> bool {
    match cores.get_mut(index) {
        Some(last) => {
            let is_other = last.occupant != view.occupant;
            *last = *view;
            is_other
        }
        None => false,
    }
}

/// A process, as it was known, and as it is known now.
#[derive(Clone, Copy)]
pub struct Renewed {
    pub last: TracedProcess,
    pub now: TracedProcess,
}

/// Keeps what is known of the process with this index. Returns it, with what was known. If it now waits for something else, that wait has
/// this number.
pub fn renew_process(
    processes: &mut Vec<TracedProcess>,
    index: usize,
    view: &ProcessView,
    runs: bool,
    wait: u64,
) -> Option<Renewed> {
    let process = processes.get_mut(index)?;
    let last = *process;
    process.view = *view;
    process.runs = runs;
    process.is_open = true;
    if process.waits_for() != last.waits_for() {
        process.wait = wait;
    }
    Some(Renewed {
        last,
        now: *process,
    })
}

/// Keeps that a process has ended. Returns what was known of it, if a slice of it is open.
pub fn close_process(processes: &mut Vec<TracedProcess>, who: &Who) -> Option<TracedProcess> {
    let process = processes.iter_mut().find(|traced| traced.who == *who)?;
    let last = *process;
    process.is_open = false;
    if last.is_open { Some(last) } else { None }
}
