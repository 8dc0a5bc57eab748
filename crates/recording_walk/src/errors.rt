// Errors of processes, and their reports.

use crate::machine::Machine;
use apex_types::{Body, CoreId, ErrorCode, ErrorReport, Who};
use std::alloc::{AllocError, Global};

/// The errors that are reported of the occupant of a core.
pub const OF_OCCUPANT: [ErrorCode; 6] = [
    ErrorCode::NumericError,
    ErrorCode::IllegalRequest,
    ErrorCode::StackOverflow,
    ErrorCode::MemoryViolation,
    ErrorCode::HardwareFault,
    ErrorCode::PowerFail,
];

/// The processes of a core whose deadlines are missed in the window of their partition. Each must be reported before the core goes on.
///
/// `AllocError` if memory is refused.
pub fn missed_on(
    alloc: Global,
    machine: &Machine<'_>,
    core: CoreId,
) -> Result<Vec<Who>, AllocError> {
    let mut missed = Vec::new(alloc);
    let now = machine.core(core);
    let Some(part) = now.owner else {
        return Ok(missed);
    };
    let Some(partition) = machine.partition(part) else {
        return Ok(missed);
    };
    let table = partition.state.processes();
    if !table.is_some_missed(core, now.time) {
        return Ok(missed);
    }
    for index in 1..=table.len() {
        if let Some((proc, _)) = table.at(index) {
            if table.is_missed(*proc, core, now.time) {
                missed.push(Who { part, proc: *proc })?;
            }
        }
    }
    Ok(missed)
}

/// Whether this is the report of a missed deadline.
pub fn reports_missed(body: &Body) -> bool {
    match body {
        Body::Error(report) => report.error == ErrorCode::DeadlineMissed,
        _ => false,
    }
}

/// The report of an error of a process. It says that the partition restarts if the error restarts it.
pub fn report_of(machine: &Machine<'_>, who: Who, error: ErrorCode) -> Body {
    let restarts = match machine.partition(who.part) {
        Some(partition) => {
            let config = machine.config();
            partition
                .state
                .restarts_by_error(config, who.part, who.proc)
        }
        None => false,
    };
    Body::Error(ErrorReport {
        who,
        error,
        restarts,
    })
}
