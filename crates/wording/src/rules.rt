// The places in the specification where the rules of a service are.

use apex_types::{Request, Service};

// Where the rules of a service are.
#[derive(Clone, Copy)]
struct Rules {
    // What it gives if no error condition holds.
    answer: &'static str,
    // The definition of its error conditions.
    conditions: &'static str,
}

const ANSWER: &str = "part 7, what a service gives (IsAnswer)";

const SENDING: &str = "part 4, Sending (IsSending)";

const RECEIVING: &str = "part 4, Receiving (IsReceiving)";

// Definitions that give the error conditions of several services.

const SHARED: &str = "conditions_of";

const MESSAGE: &str = "message_conditions";

const OBJECT: &str = "object_conditions";

const SOURCE: &str = "source_conditions";

const DESTINATION: &str = "destination_conditions";

const STATUS: &str = "get_status_conditions";

/// Where the specification says what a service gives that meets no error condition.
pub fn answer_rule(request: &Request) -> &'static str {
    rules_of(request.service()).answer
}

/// The definition that gives the error conditions of a service.
pub fn conditions_rule(request: &Request) -> &'static str {
    rules_of(request.service()).conditions
}

// The rules of each service.
fn rules_of(service: Service) -> Rules {
    match service {
        Service::CreateProcess => row(ANSWER, "create_process_conditions"),
        Service::InitializeProcessCoreAffinity => row(ANSWER, "affinity_conditions"),
        Service::Start => row(ANSWER, "start_conditions"),
        Service::Stop => row(ANSWER, "stop_conditions"),
        Service::StopSelf | Service::GetTime => row(ANSWER, SHARED),
        Service::Suspend => row(ANSWER, "suspend_conditions"),
        Service::SuspendSelf => row(ANSWER, "suspend_self_conditions"),
        Service::Resume => row("part 7, RESUME (IsResuming)", "resume_conditions"),
        Service::SetPriority => row(ANSWER, "set_priority_conditions"),
        Service::GetMyId => row(ANSWER, "get_my_id_conditions"),
        Service::TimedWait => row(ANSWER, "timed_wait_conditions"),
        Service::PeriodicWait => row(ANSWER, "periodic_wait_conditions"),
        Service::Replenish => row(ANSWER, "replenish_conditions"),
        Service::SetPartitionMode => row(ANSWER, "set_mode_conditions"),
        Service::CreateBuffer
        | Service::CreateBlackboard
        | Service::CreateSemaphore
        | Service::CreateEvent
        | Service::CreateMutex
        | Service::CreateSamplingPort
        | Service::CreateQueuingPort => row(ANSWER, "create_conditions"),
        Service::SendBuffer => row(SENDING, MESSAGE),
        Service::ReceiveBuffer => row(RECEIVING, OBJECT),
        Service::DisplayBlackboard => row("part 4, DISPLAY_BLACKBOARD (IsDisplay)", MESSAGE),
        Service::ReadBlackboard => row("part 4, READ_BLACKBOARD (IsReading)", OBJECT),
        Service::ClearBlackboard => row("part 4, CLEAR_BLACKBOARD (IsClearing)", SHARED),
        Service::WaitSemaphore => row("part 4, WAIT_SEMAPHORE (IsSemaphoreWait)", OBJECT),
        Service::SignalSemaphore => row("part 4, SIGNAL_SEMAPHORE (IsSignal)", SHARED),
        Service::SetEvent => row("part 4, SET_EVENT (IsSetting)", SHARED),
        Service::ResetEvent => row("part 4, RESET_EVENT (IsResetting)", SHARED),
        Service::WaitEvent => row("part 4, WAIT_EVENT (IsEventWait)", OBJECT),
        Service::AcquireMutex => row("part 4, ACQUIRE_MUTEX (IsAcquiring)", "acquire_conditions"),
        Service::ReleaseMutex => row("part 4, RELEASE_MUTEX (IsReleasing)", "release_conditions"),
        Service::WriteSamplingMessage => row("part 5, WRITE_SAMPLING_MESSAGE (IsWriting)", SOURCE),
        Service::ReadSamplingMessage => row(
            "part 5, READ_SAMPLING_MESSAGE (IsSampling)",
            DESTINATION,
        ),
        Service::SendQueuingMessage => row(SENDING, SOURCE),
        Service::ReceiveQueuingMessage => row(RECEIVING, DESTINATION),
        Service::ClearQueuingPort => row("part 4, CLEAR_QUEUING_PORT (emptied)", DESTINATION),
        Service::DelayedStart => row(ANSWER, "delayed_start_conditions"),
        Service::ReportApplicationMessage => row(ANSWER, "report_conditions"),
        Service::CreateErrorHandler => row(ANSWER, "create_handler_conditions"),
        Service::ConfigureErrorHandler => row(ANSWER, "configure_handler_conditions"),
        Service::RaiseApplicationError => row(
            "part 8, RAISE_APPLICATION_ERROR (IsRaising)",
            "raise_conditions",
        ),
        Service::GetErrorStatus => row(
            "part 8, GET_ERROR_STATUS (IsErrorStatus)",
            "error_status_conditions",
        ),
        Service::LockPreemption => row("part 4, LOCK_PREEMPTION (IsLocking)", "lock_conditions"),
        Service::UnlockPreemption => row(
            "part 4, UNLOCK_PREEMPTION (IsUnlocking)",
            "unlock_conditions",
        ),
        Service::ResetMutex => row("part 4, RESET_MUTEX (handed_on)", "reset_conditions"),
        Service::GetPartitionStatus => row(
            "part 7, the status of a partition (partition_status)",
            SHARED,
        ),
        Service::GetProcessStatus => row(
            "part 7, the status of a process (process_status)",
            "named_conditions",
        ),
        Service::GetProcessMutexState => row(
            "part 7, the mutex of a process (mutex_state)",
            "named_conditions",
        ),
        Service::GetProcessId
        | Service::GetBufferId
        | Service::GetBlackboardId
        | Service::GetSemaphoreId
        | Service::GetEventId
        | Service::GetMutexId
        | Service::GetSamplingPortId
        | Service::GetQueuingPortId => row(
            "part 7, the number under a name (number_of)",
            "get_id_conditions",
        ),
        Service::GetQueuingPortStatus => row(
            "part 5, GET_QUEUING_PORT_STATUS (channel_status)",
            STATUS,
        ),
        Service::GetBufferStatus
        | Service::GetBlackboardStatus
        | Service::GetSemaphoreStatus
        | Service::GetEventStatus
        | Service::GetMutexStatus
        | Service::GetSamplingPortStatus => row(
            "part 7, the status of an object (status_of)",
            STATUS,
        ),
    }
}

fn row(answer: &'static str, conditions: &'static str) -> Rules {
    Rules { answer, conditions }
}
