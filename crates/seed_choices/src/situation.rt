// What a caller's next request is chosen by.

use crate::port_names::PortNames;
use apex_machine::Mode;
use apex_types::{Format, ObjectKind, ProcId, Service, Who};
use module_config::Config;
use partition_state::PartitionState;

/// What a caller's next request is chosen by: the caller, its partition and the configuration.
#[derive(Clone, Copy)]
pub struct Situation<'a> {
    pub config: &'a Config,
    pub ports: &'a PortNames,
    pub state: &'a PartitionState,
    pub who: Who,
    /// The format that must have the service.
    pub format: Format,
    /// Whether another partition is not in the mode IDLE.
    pub others_run: bool,
}

impl<'a> Situation<'a> {
    /// Whether the partition is in the mode NORMAL.
    pub(crate) fn is_normal(&self) -> bool {
        self.state.processes().mode() == Mode::Normal
    }

    /// The first process that was created, which keeps its partition going: it never waits without end, and nobody stops it.
    pub(crate) fn keeper(&self) -> Option<ProcId> {
        let (number, _) = self.state.processes().at(1)?;
        Some(*number)
    }

    /// Whether the caller is that process.
    pub(crate) fn is_keeper(&self) -> bool {
        self.keeper() == Some(self.who.proc)
    }

    /// Whether that process is started.
    pub(crate) fn keeper_is_started(&self) -> bool {
        match self.state.processes().at(1) {
            Some((_, process)) => process.alive,
            None => false,
        }
    }

    /// The number of the mutex that the caller owns, if it owns one.
    pub(crate) fn owned_mutex(&self) -> Option<u32> {
        for (number, mutex) in self.state.mutexes().iter() {
            if mutex.is_owned_by(self.who.proc) {
                return Some(*number);
            }
        }
        None
    }

    /// Whether another process owns a mutex.
    pub(crate) fn another_owns_mutex(&self) -> bool {
        for (_, mutex) in self.state.mutexes().iter() {
            if mutex.owner().is_some() && !mutex.is_owned_by(self.who.proc) {
                return true;
            }
        }
        false
    }

    /// Whether another process owns the lock of the partition.
    pub(crate) fn another_owns_lock(&self) -> bool {
        let lock = self.state.lock();
        lock.owner().is_some() && !lock.is_owned_by(self.who.proc)
    }

    /// Whether the caller owns the lock of the partition.
    pub(crate) fn owns_lock(&self) -> bool {
        self.state.lock().is_owned_by(self.who.proc)
    }

    /// Whether a process waits for the lock of the partition.
    pub(crate) fn lock_is_awaited(&self) -> bool {
        self.state.lock().next_owner().is_some()
    }

    /// Whether the partition has an error handler.
    pub(crate) fn has_handler(&self) -> bool {
        self.state.handler().is_some()
    }

    /// Whether the caller is the error handler.
    pub(crate) fn is_handler(&self) -> bool {
        self.state.is_handler(self.who.proc)
    }

    /// Whether an error is listed that the error handler has still to take.
    pub(crate) fn has_errors(&self) -> bool {
        !self.state.errors().is_empty()
    }

    /// Whether an error of the caller restarts the partition.
    pub(crate) fn restarts_by_error(&self) -> bool {
        let Who { part, proc } = self.who;
        self.state.restarts_by_error(self.config, part, proc)
    }

    /// How many objects or ports of a kind the partition may create.
    pub(crate) fn limit(&self, kind: ObjectKind) -> u64 {
        let part = self.who.part;
        match kind {
            ObjectKind::Buffer => u64::from(self.config.buffer_limit(part)),
            ObjectKind::Blackboard => u64::from(self.config.blackboard_limit(part)),
            ObjectKind::Semaphore => u64::from(self.config.semaphore_limit(part)),
            ObjectKind::Event => u64::from(self.config.event_limit(part)),
            ObjectKind::Mutex => u64::from(self.config.mutex_limit(part)),
            ObjectKind::SamplingPort | ObjectKind::QueuingPort => self.ports.count(part, kind),
        }
    }

    /// How many objects of a kind the partition has created; for ports, how many it may.
    pub(crate) fn count(&self, kind: ObjectKind) -> u64 {
        match kind {
            ObjectKind::Buffer => self.state.buffers().len() as u64,
            ObjectKind::Blackboard => self.state.blackboards().len() as u64,
            ObjectKind::Semaphore => self.state.semaphores().len() as u64,
            ObjectKind::Event => self.state.events().len() as u64,
            ObjectKind::Mutex => self.state.mutexes().len() as u64,
            ObjectKind::SamplingPort | ObjectKind::QueuingPort => self.limit(kind),
        }
    }

    /// The kind of objects or ports that a service creates, uses or reports on, if it does.
    pub(crate) fn kind_of(service: Service) -> Option<ObjectKind> {
        match service {
            Service::CreateBuffer
            | Service::SendBuffer
            | Service::ReceiveBuffer
            | Service::GetBufferId
            | Service::GetBufferStatus => Some(ObjectKind::Buffer),
            Service::CreateBlackboard
            | Service::DisplayBlackboard
            | Service::ReadBlackboard
            | Service::ClearBlackboard
            | Service::GetBlackboardId
            | Service::GetBlackboardStatus => Some(ObjectKind::Blackboard),
            Service::CreateSemaphore
            | Service::WaitSemaphore
            | Service::SignalSemaphore
            | Service::GetSemaphoreId
            | Service::GetSemaphoreStatus => Some(ObjectKind::Semaphore),
            Service::CreateEvent
            | Service::SetEvent
            | Service::ResetEvent
            | Service::WaitEvent
            | Service::GetEventId
            | Service::GetEventStatus => Some(ObjectKind::Event),
            Service::CreateMutex
            | Service::AcquireMutex
            | Service::ReleaseMutex
            | Service::ResetMutex
            | Service::GetMutexId
            | Service::GetMutexStatus => Some(ObjectKind::Mutex),
            Service::CreateSamplingPort
            | Service::WriteSamplingMessage
            | Service::ReadSamplingMessage
            | Service::GetSamplingPortId
            | Service::GetSamplingPortStatus => Some(ObjectKind::SamplingPort),
            Service::CreateQueuingPort
            | Service::SendQueuingMessage
            | Service::ReceiveQueuingMessage
            | Service::ClearQueuingPort
            | Service::GetQueuingPortId
            | Service::GetQueuingPortStatus => Some(ObjectKind::QueuingPort),
            Service::CreateProcess
            | Service::InitializeProcessCoreAffinity
            | Service::Start
            | Service::DelayedStart
            | Service::Stop
            | Service::StopSelf
            | Service::Suspend
            | Service::SuspendSelf
            | Service::Resume
            | Service::SetPriority
            | Service::GetMyId
            | Service::TimedWait
            | Service::PeriodicWait
            | Service::GetTime
            | Service::SetPartitionMode
            | Service::GetPartitionStatus
            | Service::GetProcessId
            | Service::GetProcessStatus
            | Service::GetProcessMutexState
            | Service::ReportApplicationMessage
            | Service::CreateErrorHandler
            | Service::LockPreemption
            | Service::UnlockPreemption
            | Service::Replenish
            | Service::RaiseApplicationError
            | Service::GetErrorStatus
            | Service::ConfigureErrorHandler => None,
        }
    }
}
