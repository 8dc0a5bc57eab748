// A restart of the partition.

ghost use Rattle.std.specs.Prelude.{◌≡◌, ℕ};
ghost use Rattle.apex_machine.specs.Arguments as arguments;
ghost use Rattle.apex_machine.specs.Configuration.{Configuration, first_core as first_core_of};
ghost use Rattle.apex_machine.specs.After as after;
ghost use Rattle.apex_machine.specs.Errors as errors;
ghost use Rattle.apex_machine.specs.Waiting as waiting;

use crate::state::PartitionState;
use apex_machine::{ErrorPolicy, Mode, Restart, StartCondition};
use apex_types::{Call, CoreId, ErrorReport, HealthOperation, Out, PartId, Place, Request};
use module_config::Config;
use partition_objects::{ObjectTable, PortTable, PreemptionLock};

/// Whether a call restarts its caller's partition: SET_PARTITION_MODE to IDLE, COLD_START or WARM_START, or RAISE_APPLICATION_ERROR, that does
/// not return.
pub fn is_restart(call: &Call) -> bool
    ensures { result ≡ waiting.is_restart call.now }
{
    match (&call.request, call.claim.out) {
        (Request::SetPartitionMode(mode), Out::Never) => restart_given(*mode).is_some(),
        (Request::Health(HealthOperation::RaiseError { .. }), Out::Never) => true,
        _ => false,
    }
}

/// The restart that a call makes of its caller's partition, if it makes one: SET_PARTITION_MODE to IDLE, COLD_START or WARM_START, or
/// RAISE_APPLICATION_ERROR, that does not return. For the latter the configuration gives the mode.
pub fn restart_of(config: &Config, call: &Call) -> Option<Restart>
    ensures { result ≡ after.restart_of config.now call.now }
{
    match (&call.request, call.claim.out) {
        (Request::SetPartitionMode(mode), Out::Never) => {
            let mode = restart_given(*mode)?;
            Some(Restart {
                start: StartCondition::PartitionRestart,
                mode,
            })
        }
        (Request::Health(HealthOperation::RaiseError { .. }), Out::Never) => {
            restart_by_error(config, call.who.part)
        }
        _ => None,
    }
}

/// The restart of the partition of this number after an error that no handler takes, if the configuration says so.
fn restart_by_error(config: &Config, part: PartId) -> Option<Restart>
    ensures { result ≡ after.restart_by_error config.now part }
{
    let mode = error_mode(config, part)?;
    Some(Restart {
        start: StartCondition::ErrorRestart,
        mode,
    })
}

/// The mode in which an error that no handler takes restarts the partition of this number, if the configuration says so.
pub(crate) fn error_mode(config: &Config, part: PartId) -> Option<Mode>
    ensures { result ≡ errors.error_mode config.now part }
{
    match config.error_policy(part) {
        ErrorPolicy::Ignore => None,
        ErrorPolicy::Idle => Some(Mode::Idle),
        ErrorPolicy::ColdStart => Some(Mode::ColdStart),
        ErrorPolicy::WarmStart => Some(Mode::WarmStart),
    }
}

/// The restart that the report of an error makes of the partition of its process, if it makes one.
pub(crate) fn restart_reported(config: &Config, report: &ErrorReport) -> Option<Restart>
    ensures { result ≡ after.restart_reported config.now report.now }
{
    if report.restarts {
        restart_by_error(config, report.who.part)
    } else {
        None
    }
}

// The mode of this number in which a partition is restarted, if the number is one of such a mode.
fn restart_given(mode: i64) -> Option<Mode>
    ensures { result ≡ arguments.restart_given mode }
{
    match mode {
        0 => Some(Mode::Idle),
        1 => Some(Mode::ColdStart),
        2 => Some(Mode::WarmStart),
        _ => None,
    }
}

impl PartitionState {
    /// The partition as a restart leaves it, at this place: its lock is free, it has no error handler, no error, no object and no port, and of
    /// its processes only the initialising one, which IDLE does not have. Takes no memory.
    pub(crate) fn restart(&mut self, restart: Restart, first_core: CoreId, place: Place)
        ensures { (configuration : Configuration) (number : ℕ) → first_core_of configuration number ≡ first_core → self.new ≡ after.restarted restart configuration number place }
    {
        self.start = restart.start;
        self.handler = None;
        self.errors.clear();
        self.lock = PreemptionLock::new(self.alloc);
        self.processes.restart(restart.mode, first_core, place);
        self.buffers = ObjectTable::new(self.alloc);
        self.blackboards = ObjectTable::new(self.alloc);
        self.semaphores = ObjectTable::new(self.alloc);
        self.events = ObjectTable::new(self.alloc);
        self.mutexes = ObjectTable::new(self.alloc);
        self.sampling_ports = PortTable::new(self.alloc);
        self.queuing_ports = PortTable::new(self.alloc);
    }
}
