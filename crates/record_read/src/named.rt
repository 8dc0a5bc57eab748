// Kinds of rows, services, codes and outcomes by their names.

ghost use Rattle.std.specs.Prelude.{◌≡◌, ◌≤◌, ◌==◌, IfErr, IsTrue, drop, length, not, take};
ghost use Rattle.std.specs.List.{list_all};
ghost use Rattle.std.specs.Str.{bytes_eq};
ghost use Rattle.record_read.specs.Field.{read_at};
ghost use Rattle.record_read.specs.Named.{code_named, code_of, kind_in, kind_named, kind_of, name_lengths, out_named, out_of, service_among, service_in, service_named, service_of, error_named, error_of, restart_of};
ghost use Rattle.record_read.specs.Steps.{IsOfRow};

use crate::column::Column;
use crate::fault::RowFault;
use crate::field::{required, text};
use crate::kind::Kind;
use crate::misread::Misread;
use apex_types::{Code, ErrorCode, Format, Out, SERVICES, Service, ServiceRow};
use csv_rows::RowFields;

// All codes, the most frequent one first.
const CODES: [Code; 7] = [
    Code::NoError,
    Code::NoAction,
    Code::NotAvailable,
    Code::InvalidParam,
    Code::InvalidConfig,
    Code::InvalidMode,
    Code::TimedOut,
];

// All errors that a row can report: APPLICATION_ERROR is raised by a call.
const ERRORS: [ErrorCode; 7] = [
    ErrorCode::DeadlineMissed,
    ErrorCode::NumericError,
    ErrorCode::IllegalRequest,
    ErrorCode::StackOverflow,
    ErrorCode::MemoryViolation,
    ErrorCode::HardwareFault,
    ErrorCode::PowerFail,
];

/// The kind of a row of this format, which must be given.
#[tactic(auto, unfolding(crate::specs::Named::kind_of))]
pub fn read_kind(format: Format, fields: &RowFields) -> Result<Kind, Misread>
    ensures value { result ≡ read_at (kind_of format) fields.now Column.Kind }
    ensures own { IfErr result (λ misread. IsOfRow misread.fault) }
{
    let name = text(fields, Column::Kind);
    required(
        Column::Kind,
        name,
        find_kind_in(format, name),
        RowFault::BadKind,
    )
}

// The kind of rows that has this name, if the format has it.
#[tactic(auto, unfolding(crate::specs::Named::kind_in))]
fn find_kind_in(format: Format, text: &[u8]) -> Option<Kind>
    ensures { result ≡ kind_in format text.now }
{
    let kind = find_kind(text)?;
    if kind.since().number() <= format.number() {
        Some(kind)
    } else {
        None
    }
}

/// The kind of rows that has this name, if there is one. Takes no memory.
#[tactic(auto, unfolding(crate::specs::Named::kind_named))]
pub fn find_kind(text: &[u8]) -> Option<Kind>
    ensures { result ≡ kind_named text.now }
{
    if text == b"call".as_slice() {
        Some(Kind::Call)
    } else if text == b"ret".as_slice() {
        Some(Kind::Ret)
    } else if text == b"disp".as_slice() {
        Some(Kind::Disp)
    } else if text == b"tick".as_slice() {
        Some(Kind::Tick)
    } else if text == b"arrive".as_slice() {
        Some(Kind::Arrive)
    } else if text == b"depart".as_slice() {
        Some(Kind::Depart)
    } else if text == b"err".as_slice() {
        Some(Kind::Error)
    } else {
        None
    }
}

/// The service of a row of this format, which must be given.
#[tactic(auto, unfolding(crate::specs::Named::service_of))]
pub fn read_service(format: Format, fields: &RowFields) -> Result<Service, Misread>
    ensures value { result ≡ read_at (service_of format) fields.now Column.Service }
    ensures own { IfErr result (λ misread. IsOfRow misread.fault) }
{
    let name = text(fields, Column::Service);
    required(
        Column::Service,
        name,
        find_service_in(format, name),
        RowFault::BadService,
    )
}

// The service of this name, if the format has it.
#[tactic(auto, unfolding(crate::specs::Named::service_in))]
fn find_service_in(format: Format, text: &[u8]) -> Option<Service>
    ensures { result ≡ service_in format text.now }
{
    let service = find_service(text)?;
    if format.names(service) {
        Some(service)
    } else {
        None
    }
}

/// The outcome of a call, which must be given.
#[tactic(auto, unfolding(crate::specs::Named::out_of))]
pub fn read_out(fields: &RowFields) -> Result<Out, Misread>
    ensures value { result ≡ read_at out_of fields.now Column.Outcome }
    ensures own { IfErr result (λ misread. IsOfRow misread.fault) }
{
    let name = text(fields, Column::Outcome);
    required(Column::Outcome, name, find_out(name), RowFault::BadOut)
}

/// The code of a return, which must be given.
#[tactic(auto, unfolding(crate::specs::Named::code_of))]
pub fn read_code(fields: &RowFields) -> Result<Code, Misread>
    ensures value { result ≡ read_at code_of fields.now Column.Outcome }
    ensures own { IfErr result (λ misread. IsOfRow misread.fault) }
{
    let name = text(fields, Column::Outcome);
    required(Column::Outcome, name, find_code(name), RowFault::BadOut)
}

/// Whether an error restarts its partition: its outcome is then `none`, and else empty.
#[tactic(auto, unfolding(crate::specs::Named::restart_of))]
pub fn read_restart(fields: &RowFields) -> Result<bool, Misread>
    ensures value { result ≡ read_at restart_of fields.now Column.Outcome }
    ensures own { IfErr result (λ misread. IsOfRow misread.fault) }
{
    let name = text(fields, Column::Outcome);
    if name.is_empty() {
        Ok(false)
    } else if name == b"none".as_slice() {
        Ok(true)
    } else {
        Err(Misread::at(Column::Outcome, RowFault::BadOut))
    }
}

/// The error of a row, which must be given.
#[tactic(auto, unfolding(crate::specs::Named::error_of))]
pub fn read_error_code(fields: &RowFields) -> Result<ErrorCode, Misread>
    ensures value { result ≡ read_at error_of fields.now Column.Error }
    ensures own { IfErr result (λ misread. IsOfRow misread.fault) }
{
    let name = text(fields, Column::Error);
    required(Column::Error, name, find_error(name), RowFault::BadError)
}

// The error of this name.
fn find_error(text: &[u8]) -> Option<ErrorCode>
    ensures { result ≡ error_named text.now }
{
    ERRORS.iter().copied().find(|error| error.name() == text)
}

/// The outcome that has this name in rows, if there is one. Takes no memory.
#[tactic(auto, unfolding(crate::specs::Named::out_named))]
pub fn find_out(text: &[u8]) -> Option<Out>
    ensures { result ≡ out_named text.now }
{
    if text == b"wait".as_slice() {
        return Some(Out::Waits);
    }
    if text == b"none".as_slice() {
        return Some(Out::Never);
    }
    find_code(text).map(Out::Answer)
}

// The code of this name.
fn find_code(text: &[u8]) -> Option<Code>
    ensures { result ≡ code_named text.now }
{
    CODES.iter().copied().find(|code| code.name() == text)
}

/// The service that has this name in rows, if there is one. Takes no memory.
#[tactic(auto, unfolding(crate::specs::Named::service_named))]
pub fn find_service(text: &[u8]) -> Option<Service>
    ensures { result ≡ service_named text.now }
{
    service_from(first_of_length(text.len()), &SERVICES, text)
}

// The place in the table of the first name of each length, or 63 for a length that no name has.
const FIRST_OF_LENGTH: [u8; 33] = [
    63, 63, 63, 63, 3, 2, 7, 5, 12, 4, 10, 15, 6, 11, 0, 19, 20, 17, 13, 34, 31, 33, 32, 36, 48,
    63, 58, 63, 63, 63, 63, 63, 1,
];

// The place at which the search for a name of this length begins, so that few names are compared.
fn first_of_length(len: usize) -> usize
    ensures bound { result ≤ length name_lengths }
    ensures earlier { IsTrue (list_all (λ other. not (other == len)) (take result name_lengths)) }
{
    match FIRST_OF_LENGTH.get(len) {
        Some(first) => *first as usize,
        None => 0,
    }
}

// The service of the first of the rows from a place on that has this name.
#[tactic(auto, unfolding(crate::specs::Named::service_among))]
fn service_from(first: usize, rows: &[ServiceRow<&'static [u8]>], text: &[u8]) -> Option<Service>
    requires { first ≤ length rows.now }
    ensures { result ≡ service_among (λ name. name.now) (drop first rows.now) text.now }
{
    for row in &rows[first..] {
        if is_name(row.name, text) {
            return Some(row.service);
        }
    }
    None
}

// Whether the text is the name. Most names have another length, and that is known without a call.
#[tactic(auto, using(crate::proofs::Lengths::other_name))]
fn is_name(name: &[u8], text: &[u8]) -> bool
    ensures { result ≡ bytes_eq name.now text.now }
{
    name.len() == text.len() && are_same(name, text)
}

// Whether they are the same. A function of its own, so that the search puts the two texts into memory only if their lengths agree.
fn are_same(name: &[u8], text: &[u8]) -> bool
    ensures { result ≡ bytes_eq name.now text.now }
{
    name == text
}
