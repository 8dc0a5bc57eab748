// The error conditions of the services of health monitoring.

ghost use Rattle.std.specs.Prelude.{◌≡◌, ℕ};
ghost use Rattle.apex_types.specs.declared.request.Request.TheVariants as request;
ghost use Rattle.apex_machine.specs.Errors.{is_some_listed};
ghost use Rattle.apex_machine.specs.ProcessConditions as processes;
ghost use Rattle.apex_machine.specs.ServiceConditions.{conditions_of};

use super::is_normal;
use crate::arguments::{is_application_error, is_concurrency, is_report_length};
use apex_machine::Condition;
use apex_types::{HealthOperation, PartId, Who};
use module_config::Config;
use partition_state::PartitionState;
use wait_set::Conditions;

/// REPORT_APPLICATION_MESSAGE, RAISE_APPLICATION_ERROR and the services of the error handler.
pub(super) fn health_conditions(
    config: &Config,
    state: &PartitionState,
    who: Who,
    operation: &HealthOperation,
) -> Conditions
    ensures { (now : ℕ) → result ≡ conditions_of config.now now who state.now (request.Health operation.now) }
{
    match operation {
        HealthOperation::ReportMessage { length, .. } => report_message(*length),
        HealthOperation::CreateHandler => create_handler(state),
        HealthOperation::ConfigureHandler { concurrency, core } => {
            configure_handler(config, who.part, state, *concurrency, *core)
        }
        HealthOperation::RaiseError { error, length, .. } => raise_error(*error, *length),
        HealthOperation::GetErrorStatus => error_status(state, who),
    }
}

// REPORT_APPLICATION_MESSAGE: a length in range.
fn report_message(length: i64) -> Conditions
    ensures { result ≡ processes.report_conditions length }
{
    Conditions::none().with(!is_report_length(length), Condition::LengthOutOfRange)
}

// CREATE_ERROR_HANDLER: a mode other than NORMAL, and no handler yet.
fn create_handler(state: &PartitionState) -> Conditions
    ensures { result ≡ processes.create_handler_conditions state.now }
{
    Conditions::none()
        .with(is_normal(state.processes().mode()), Condition::InNormal)
        .with(state.handler().is_some(), Condition::HandlerCreated)
}

// CONFIGURE_ERROR_HANDLER: a mode other than NORMAL, and a created handler; a concurrency of 0 or 1, and one of the partition's cores.
fn configure_handler(
    config: &Config,
    part: PartId,
    state: &PartitionState,
    concurrency: i64,
    core: i64,
) -> Conditions
    ensures { result ≡ processes.configure_handler_conditions config.now part state.now concurrency core }
{
    Conditions::none()
        .with(is_normal(state.processes().mode()), Condition::InNormal)
        .with(state.handler().is_none(), Condition::NoHandler)
        .with(
            !is_concurrency(concurrency),
            Condition::ConcurrencyOutOfRange,
        )
        .with(
            !config.has_core(part, core),
            Condition::HandlerCoreNotOfPartition,
        )
}

// RAISE_APPLICATION_ERROR: the number of APPLICATION_ERROR, and a length in range.
fn raise_error(error: i64, length: i64) -> Conditions
    ensures { result ≡ processes.raise_conditions error length }
{
    Conditions::none()
        .with(
            !is_application_error(error),
            Condition::ErrorNotOfApplication,
        )
        .with(!is_report_length(length), Condition::LengthOutOfRange)
}

// GET_ERROR_STATUS: the error handler, and an error that it has still to take.
fn error_status(state: &PartitionState, who: Who) -> Conditions
    ensures { result ≡ processes.error_status_conditions who state.now }
{
    Conditions::none()
        .with(!state.is_handler(who.proc), Condition::NotHandler)
        .with(!has_errors(state), Condition::NoErrorListed)
}

// Whether the handler has an error to take.
fn has_errors(state: &PartitionState) -> bool
    ensures { result ≡ is_some_listed state.now.errors }
{
    !state.errors().is_empty()
}
