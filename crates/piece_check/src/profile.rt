// The profile: how services may be used.

ghost use Rattle.std.specs.Prelude.{◌≡◌, ◌↔◌, IsTrue};
ghost use Rattle.apex_machine.specs.Services as services;
ghost use Rattle.apex_machine.specs.Step.{WhereNone};

use apex_machine::Mode;
use apex_types::{CallerOperation, ProcessOperation, Request, Who};
use partition_state::PartitionState;
use wait_set::Conditions;

/// Whether a call is within the profile, if these error conditions hold: if none holds, the service is used as the profile allows.
pub(crate) fn is_within(
    conditions: &Conditions,
    state: &PartitionState,
    who: Who,
    request: &Request,
) -> bool
    ensures { IsTrue result ↔ WhereNone conditions.now (IsTrue (services.in_profile who state.now request.now)) }
{
    !conditions.is_empty() || in_profile(state, who, request)
}

/// Whether the profile allows a request on which no error condition holds: no process stops the owner of a mutex, process 0 does not stop
/// itself before NORMAL, and no process suspends the owner of a mutex or a process that waits for a mutex, or sets its priority.
fn in_profile(state: &PartitionState, who: Who, request: &Request) -> bool
    ensures { result ≡ services.in_profile who state.now request.now }
{
    match request {
        Request::Process(process, operation) => match operation {
            ProcessOperation::Stop => !state.numbered_owns_mutex(*process),
            ProcessOperation::Suspend | ProcessOperation::SetPriority { .. } => {
                !state.numbered_owns_mutex(*process) && !state.processes().waits_for_mutex(*process)
            }
            _ => true,
        },
        Request::Caller(CallerOperation::StopSelf) => {
            let is_initialising = who.proc.number() == 0
                && state.processes().mode() != Mode::Normal;
            !is_initialising && !state.owns_mutex(who.proc)
        }
        _ => true,
    }
}
