// The error handler, and the errors of processes that it takes.

ghost use Rattle.std.specs.Prelude.{◌≡◌, ℕ, Some, true, false, IfNone, IfSome, IsTrue, OnErr, OnOk};
ghost use Rattle.apex_types.specs.declared.request.Request.TheVariants as request;
ghost use Rattle.apex_machine.specs.After as after;
ghost use Rattle.apex_machine.specs.Arguments.{is_number, natural_of};
ghost use Rattle.apex_machine.specs.Errors as errors;
ghost use Rattle.apex_machine.specs.State.{Partition, is_handler};
ghost use Rattle.scheduling.specs.Changes.{with_each};
ghost use Rattle.scheduling.specs.Faults.{IsFaultChangeOf, leaves_ready};
ghost use Rattle.scheduling.specs.Processes.{processes_of};
ghost use Rattle.scheduling.specs.Sound.{is_core_number};
ghost use Rattle.wait_set.specs.Givens.{answer_given};
ghost use Rattle.partition_state.specs.Calls.{NamesCore};

use crate::restarting::{error_mode, restart_reported};
use crate::state::PartitionState;
use apex_machine::{ErrorHandler, ListedError, Mode};
use apex_types::limits::MOST_ERRORS;
use apex_types::{
    Call, CallerOperation, Code, CoreId, ErrorCode, ErrorReport, HealthOperation, Message, Out,
    PartId, Place, ProcId, Request,
};
use module_config::Config;
use scheduling::{FaultChange, ProcTable};
use std::alloc::AllocError;
use wait_set::{Ended, Given, GivenValue};

impl PartitionState {
    /// The error handler, if the partition has created one.
    pub fn handler(&self) -> Option<ErrorHandler>
        ensures { result ≡ self.now.handler }
    {
        self.handler
    }

    /// The errors that the handler has still to take, the oldest first.
    pub fn errors(&self) -> &[ListedError]
        ensures { result.now ≡ self.now.errors }
    {
        &self.errors
    }

    /// Whether a process is the error handler: process 0, in NORMAL.
    pub fn is_handler(&self, process: ProcId) -> bool
        ensures { result ≡ is_handler self.now process }
    {
        self.processes.mode() == Mode::Normal && process.number() == 0
    }

    /// The handler that takes the errors of this process, or None if none does: before NORMAL, without a handler, and for the handler itself.
    pub fn taker(&self, process: ProcId) -> Option<ErrorHandler>
        ensures some { IfSome result (λ handler. (errors.is_handled self.now process ≡ true) × (self.now.handler ≡ Some handler)) }
        ensures none { IfNone result (errors.is_handled self.now process ≡ false) }
    {
        if self.takes(process) {
            self.handler()
        } else {
            None
        }
    }

    // Whether the handler takes the errors of this process.
    fn takes(&self, process: ProcId) -> bool
        ensures { result ≡ errors.is_handled self.now process }
    {
        self.processes.mode() == Mode::Normal && self.handler.is_some() && process.number() != 0
    }

    /// Whether an error of this process restarts the partition, whose number is given: no handler takes it, and the configuration says so.
    pub fn restarts_by_error(&self, config: &Config, part: PartId, process: ProcId) -> bool
        ensures { result ≡ errors.restarts_by_error config.now part self.now process }
    {
        !self.takes(process) && error_mode(config, part).is_some()
    }

    // What a request of the health monitor or the error handler gives this caller of the partition of this number.
    pub(crate) fn health_answer(
        &self,
        config: &Config,
        part: PartId,
        caller: ProcId,
        operation: &HealthOperation,
    ) -> Given<'_>
        ensures { answer_given result ≡ errors.health_answer config.now part self.now caller operation.now }
    {
        match operation {
            HealthOperation::RaiseError { .. } => {
                if self.restarts_by_error(config, part, caller) {
                    Given::never()
                } else {
                    Given::done()
                }
            }
            HealthOperation::GetErrorStatus => oldest_reported(&self.errors),
            HealthOperation::ReportMessage { .. }
            | HealthOperation::CreateHandler
            | HealthOperation::ConfigureHandler { .. } => Given::done(),
        }
    }

    // What a request of this caller, whose claim is what the service gives, makes of the handler and of the list of errors.
    //
    // AllocError if memory for an error is refused; nothing has changed then.
    pub(crate) fn change_errors(
        &mut self,
        config: &Config,
        part: PartId,
        caller: ProcId,
        operation: &HealthOperation,
    ) -> Result<(), AllocError>
        requires { NamesCore operation.now }
        ensures ok { OnOk result (self.new ≡ record self.old { handler = errors.handler_by config.now part (request.Health operation.now) self.old.handler; errors = errors.errors_by caller (request.Health operation.now) self.old }) }
        ensures unchanged { OnErr result (self.new ≡ self.old) }
    {
        match operation {
            HealthOperation::ReportMessage { .. } => Ok(()),
            HealthOperation::CreateHandler => {
                self.handler = Some(ErrorHandler {
                    pauses: true,
                    core: config.first_core(part),
                });
                Ok(())
            }
            HealthOperation::ConfigureHandler { concurrency, core } => {
                self.handler = Some(configured(*concurrency, *core));
                Ok(())
            }
            HealthOperation::RaiseError { message, .. } => {
                self.list(ErrorCode::ApplicationError, caller, message)
            }
            HealthOperation::GetErrorStatus => {
                take_oldest(&mut self.errors);
                Ok(())
            }
        }
    }

    // An error of this process with this message: if the handler takes it, it is listed, unless the list is full.
    //
    // AllocError if memory is refused; nothing has changed then.
    fn list(
        &mut self,
        error: ErrorCode,
        process: ProcId,
        message: &Message,
    ) -> Result<(), AllocError>
        ensures ok { OnOk result (self.new ≡ record self.old { errors = errors.listed_if_handled self.old (record { error = error; process = process; message = message.now }) }) }
        ensures unchanged { OnErr result (self.new ≡ self.old) }
    {
        if !self.takes(process) {
            return Ok(());
        }
        add_listed(&mut self.errors, error, process, message)?;
        Ok(())
    }

    /// The report of an error of one of the partition's processes, at this place: it restarts the partition, or it is reported to the
    /// handler, if that takes the errors of the process. A missed deadline is taken away.
    ///
    /// AllocError if memory for the list of errors is refused; nothing has changed then. A restart and an error that no handler takes need
    /// none.
    pub fn tell(
        &mut self,
        config: &Config,
        place: Place,
        report: &ErrorReport,
    ) -> Result<(), AllocError>
        ensures ok { OnOk result (self.new ≡ after.partition_errored (after.restart_reported config.now report.now) config.now place report.now self.old) }
        ensures unchanged { OnErr result (self.new ≡ self.old) }
    {
        match restart_reported(config, report) {
            Some(restart) => {
                self.restart(restart, config.first_core(report.who.part), place);
                Ok(())
            }
            None => self.note_error(place, report),
        }
    }

    // The same for an error that does not restart the partition.
    fn note_error(&mut self, place: Place, report: &ErrorReport) -> Result<(), AllocError>
        ensures ok { OnOk result (self.new ≡ after.partition_reported place report.now self.old) }
        ensures unchanged { OnErr result (self.new ≡ self.old) }
    {
        let taker = self.taker(report.who.proc);
        self.list(report.error, report.who.proc, &Message::empty(self.alloc))?;
        tell_processes(&mut self.processes, place, report, taker);
        Ok(())
    }
}

// The processes after the report of an error that does not restart their partition and that this handler takes, if one does.
fn tell_processes(
    processes: &mut ProcTable,
    place: Place,
    report: &ErrorReport,
    taker: Option<ErrorHandler>,
)
    ensures { (partition : Partition) → processes_of partition ≡ processes.old → IfSome taker (λ handler. (errors.is_handled partition report.now.who.proc ≡ true) × (partition.handler ≡ Some handler)) → IfNone taker (errors.is_handled partition report.now.who.proc ≡ false) → processes.new ≡ with_each (errors.reported place partition report.now) (processes_of partition) }
{
    let process = report.who.proc;
    match report.error {
        ErrorCode::DeadlineMissed => processes.take_deadline(process),
        _ => {}
    }
    if let Some(handler) = taker {
        processes.hand_over(process, place, handler);
    }
}

// The handler that CONFIGURE_ERROR_HANDLER makes of this concurrency and this core.
fn configured(concurrency: i64, core: i64) -> ErrorHandler
    requires { IsTrue (is_core_number core) }
    ensures { result ≡ record { pauses = is_number concurrency 0; core = natural_of core } }
{
    ErrorHandler {
        pauses: concurrency == 0,
        core: CoreId::new(core as u8),
    }
}

// Puts an error of this process with this message at the end of a list, unless the list is full.
//
// AllocError if memory is refused; nothing has changed then.
fn add_listed(
    list: &mut Vec<ListedError>,
    error: ErrorCode,
    process: ProcId,
    message: &Message,
) -> Result<(), AllocError>
    ensures ok { OnOk result (list.new.items ≡ errors.listed (record { error = error; process = process; message = message.now }) list.old.items) }
    ensures unchanged { OnErr result (list.new.items ≡ list.old.items) }
{
    if list.len() >= MOST_ERRORS {
        return Ok(());
    }
    let message = message.clone()?;
    list.push(ListedError {
        error,
        process,
        message,
    })?;
    Ok(())
}

// Takes the oldest error out of a list, if there is one.
fn take_oldest(list: &mut Vec<ListedError>)
    ensures { list.new.items ≡ errors.without_oldest list.old.items }
{
    if !list.is_empty() {
        list.remove(0);
    }
}

/// What a call makes of who is faulted in its partition: by the handler that takes its caller's errors, if one does, by whether its caller is
/// the handler, and by the errors that are left.
pub(crate) fn fault_change<'a>(
    taker: Option<ErrorHandler>,
    handles: bool,
    left: &'a [ListedError],
    call: &Call,
) -> FaultChange<'a>
    ensures processes { (partition : Partition) → IfSome taker (λ handler. (errors.is_handled partition call.now.who.proc ≡ true) × (partition.handler ≡ Some handler)) → IfNone taker (errors.is_handled partition call.now.who.proc ≡ false) → is_handler partition call.now.who.proc ≡ handles → (errors.ends_handler partition call.now.who.proc call.now.request ≡ true → partition.errors ≡ left.now) → IsFaultChangeOf partition call.now.who.proc call.now.request result }
    ensures more { (partition : Partition) → is_handler partition call.now.who.proc ≡ handles → (errors.ends_handler partition call.now.who.proc call.now.request ≡ true → partition.errors ≡ left.now) → errors.handles_more partition call.now.who.proc call.now.request ≡ leaves_ready result }
{
    match &call.request {
        Request::Health(operation) => raised_change(taker, operation),
        Request::Caller(operation) => ended_change(handles, left, operation),
        _ => FaultChange::Unchanged,
    }
}

// What a request of the health monitor or the error handler makes of who is faulted: an error of its caller is the handler's that takes it.
fn raised_change<'a>(taker: Option<ErrorHandler>, operation: &HealthOperation) -> FaultChange<'a>
    ensures processes { (partition : Partition) (caller : ℕ) → IfSome taker (λ handler. (errors.is_handled partition caller ≡ true) × (partition.handler ≡ Some handler)) → IfNone taker (errors.is_handled partition caller ≡ false) → IsFaultChangeOf partition caller (request.Health operation.now) result }
    ensures more { leaves_ready result ≡ false }
{
    match operation {
        HealthOperation::RaiseError { .. } => match taker {
            Some(handler) => FaultChange::Raises(handler),
            None => FaultChange::Unchanged,
        },
        _ => FaultChange::Unchanged,
    }
}

// What a request of a process for itself makes of who is faulted: the handler's STOP_SELF ends its work, and these errors are left.
fn ended_change<'a>(
    handles: bool,
    left: &'a [ListedError],
    operation: &CallerOperation,
) -> FaultChange<'a>
    ensures processes { (partition : Partition) (caller : ℕ) → is_handler partition caller ≡ handles → (errors.ends_handler partition caller (request.Caller operation.now) ≡ true → partition.errors ≡ left.now) → IsFaultChangeOf partition caller (request.Caller operation.now) result }
    ensures more { (partition : Partition) (caller : ℕ) → is_handler partition caller ≡ handles → (errors.ends_handler partition caller (request.Caller operation.now) ≡ true → partition.errors ≡ left.now) → errors.handles_more partition caller (request.Caller operation.now) ≡ leaves_ready result }
{
    match operation {
        CallerOperation::StopSelf => {
            if handles {
                FaultChange::Ends(left)
            } else {
                FaultChange::Unchanged
            }
        }
        _ => FaultChange::Unchanged,
    }
}

// What GET_ERROR_STATUS gives by this list: the number of the oldest error, its process and its message.
fn oldest_reported(listed: &[ListedError]) -> Given<'_>
    ensures { answer_given result ≡ errors.oldest_reported listed.now }
{
    match listed.first() {
        Some(oldest) => Given {
            out: Out::Answer(Code::NoError),
            val: Some(GivenValue::Natural(u64::from(oldest.error.number()))),
            val2: Some(GivenValue::Natural(u64::from(oldest.process.number()))),
            val3: None,
            bytes: oldest.message.as_bytes(),
            woken: Ended::Nobody,
        },
        None => Given::done(),
    }
}
