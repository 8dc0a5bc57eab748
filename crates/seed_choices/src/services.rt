// The choice of a service by weights.

ghost use Rattle.std.specs.Prelude.{◌≡◌, ◌<◌, true};
ghost use Rattle.apex_types.specs.Services.{is_in};

use crate::choices::Choices;
use crate::situation::Situation;
use apex_types::{ObjectKind, SERVICES, Service};

// How often the owner of the lock is to lock it. It keeps it for a while, so that others wait for it.
const LOCK_WEIGHT: u64 = 90;

// How often it is to unlock it: less often, so that the level now and then becomes the greatest.
const UNLOCK_WEIGHT: u64 = 60;

impl Situation<'_> {
    /// The service of the caller's next request, which the format has.
    #[tactic(auto, using(crate::proofs::Named::time_is_in))]
    pub(crate) fn service(&self, choices: &mut Choices) -> Service
        ensures { is_in self.now.format result ≡ true }
    {
        let mut total = 0_u64;
        for row in &SERVICES {
            total = total.saturating_add(self.weight(row.service));
        }
        let mut left = choices.below(total);
        for row in &SERVICES {
            let weight = self.weight(row.service);
            if left < weight {
                return row.service;
            }
            left = left.saturating_sub(weight);
        }
        Service::GetTime
    }

    // How often a service is chosen, beside the others: never if the format lacks it.
    fn weight(&self, service: Service) -> u64
        ensures { 0 < result → is_in self.now.format service ≡ true }
    {
        if !self.format.names(service) {
            return 0;
        }
        if !self.is_normal() {
            self.weight_at_start(service)
        } else if self.is_handler() {
            self.weight_for_handler(service)
        } else {
            self.weight_in_normal(service)
        }
    }

    // The same while the partition starts, when its initialising process calls.
    fn weight_at_start(&self, service: Service) -> u64 {
        let has_processes = self.keeper().is_some();
        match service {
            Service::CreateProcess => {
                let limit = u64::from(self.config.process_limit(self.who.part));
                if (self.state.processes().len() as u64) < limit {
                    50
                } else {
                    2
                }
            }
            Service::Start if has_processes => 40,
            Service::DelayedStart | Service::InitializeProcessCoreAffinity if has_processes => 12,
            Service::SetPartitionMode if self.keeper_is_started() => 20,
            // Without a process that keeps it going, the partition must not leave this mode.
            Service::SetPartitionMode => 0,
            Service::CreateErrorHandler if !self.has_handler() => 20,
            Service::ConfigureErrorHandler if self.has_handler() => 12,
            // An error may start the partition again, before it has left this mode.
            Service::RaiseApplicationError => 1,
            _ => match Situation::kind_of(service) {
                Some(kind) if service == kind.services().creation => self.weight_of_creation(kind),
                _ => 2,
            },
        }
    }

    // How often an object or a port of this kind is created while the partition starts.
    fn weight_of_creation(&self, kind: ObjectKind) -> u64 {
        match kind {
            ObjectKind::SamplingPort | ObjectKind::QueuingPort => {
                self.limit(kind).saturating_mul(12).saturating_add(2)
            }
            _ if self.count(kind) < self.limit(kind) => 25,
            _ => 2,
        }
    }

    // The same for the error handler, which takes the errors and then ends.
    fn weight_for_handler(&self, service: Service) -> u64 {
        match service {
            Service::GetErrorStatus if self.has_errors() => 120,
            Service::StopSelf if self.has_errors() => 6,
            Service::StopSelf => 160,
            Service::Stop | Service::Start => 8,
            Service::SetPartitionMode | Service::RaiseApplicationError => 1,
            _ => 2,
        }
    }

    // The same for any other process in the mode NORMAL.
    fn weight_in_normal(&self, service: Service) -> u64 {
        match service {
            Service::CreateProcess | Service::InitializeProcessCoreAffinity => 1,
            Service::StopSelf if self.is_keeper() => 0,
            // The lock goes to who waits for it if its owner is stopped.
            Service::StopSelf if self.owns_lock() && self.lock_is_awaited() => 40,
            Service::Stop if self.another_owns_lock() && self.lock_is_awaited() => 200,
            Service::Stop if self.another_owns_lock() => 40,
            Service::SetPartitionMode => 2,
            Service::Stop | Service::StopSelf => 5,
            Service::Start => 24,
            Service::DelayedStart => 8,
            Service::Suspend | Service::SetPriority => 4,
            Service::SuspendSelf | Service::GetMyId | Service::GetTime => 4,
            Service::GetProcessId | Service::GetProcessStatus => 3,
            Service::GetProcessMutexState | Service::ReportApplicationMessage => 3,
            Service::RaiseApplicationError => self.weight_of_raising(),
            Service::Replenish => 6,
            Service::Resume => 10,
            Service::TimedWait => 16,
            Service::PeriodicWait => 8,
            // A mutex is kept for a while, so that others find it taken.
            Service::ReleaseMutex if self.owned_mutex().is_some() => 20,
            Service::AcquireMutex if self.another_owns_mutex() => 60,
            Service::ResetMutex if self.another_owns_mutex() => 5,
            Service::LockPreemption => self.weight_of_locking(),
            Service::UnlockPreemption if self.owns_lock() => UNLOCK_WEIGHT,
            _ => self.weight_of_use(service),
        }
    }

    // How often an error is raised in the mode NORMAL.
    fn weight_of_raising(&self) -> u64 {
        if self.has_handler() {
            8
        } else if self.restarts_by_error() {
            2
        } else {
            4
        }
    }

    // How often the lock of the partition is locked in the mode NORMAL. The process that keeps the partition going does not wait for it,
    // since that wait has no time-out.
    fn weight_of_locking(&self) -> u64 {
        if self.owns_lock() {
            LOCK_WEIGHT
        } else if self.is_keeper() {
            // It is never stopped, so the lock does not go on from it in each way.
            if self.another_owns_lock() { 0 } else { 2 }
        } else if self.another_owns_lock() {
            100
        } else {
            12
        }
    }

    // How often a service of objects or ports is chosen in the mode NORMAL.
    fn weight_of_use(&self, service: Service) -> u64 {
        let Some(kind) = Situation::kind_of(service) else {
            return 1;
        };
        let services = kind.services();
        if service == services.creation || self.count(kind) == 0 {
            1
        } else if service == services.id || service == services.status {
            3
        } else if service == Service::SendQueuingMessage {
            30
        } else if service == Service::ClearQueuingPort {
            14
        } else {
            10
        }
    }
}
