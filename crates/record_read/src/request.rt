// The requests of rows.

ghost use Rattle.std.specs.Prelude.{◌≡◌, ◌≢◌, ◌⊎◌, [], true, IfOk, IfErr, OnErr, Ok, Err};
ghost use Rattle.apex_types.specs.Arguments.{request_of};
ghost use Rattle.apex_types.specs.Services.{arguments_of};
ghost use Rattle.record_read.specs.Payload.{IsHex, hex_bytes};
ghost use Rattle.record_read.specs.Row.{request_in};
ghost use Rattle.record_read.specs.Steps.{IsOfRow};

use crate::column::Column;
use crate::field::read_argument;
use crate::misread::Misread;
use crate::named::read_service;
use crate::payload::{copy_message, copy_name, read_message, read_name};
use apex_types::{ArgumentValues, Format, Request, Service};
use csv_rows::RowFields;
use std::alloc::{AllocError, Global};

/// What a call requests, judged, with its name and its message as the row has them.
#[derive(Clone, Copy)]
pub struct RequestText<'a> {
    pub service: Service,
    pub n1: i64,
    pub n2: i64,
    pub n3: i64,
    pub name: &'a [u8],
    pub message: &'a [u8],
}

/// Judges the request of a call in a recording of this format: its service and the service's arguments.
#[tactic(auto, unfolding(crate::specs::Row::request_in))]
pub fn judge_request(format: Format, fields: &RowFields) -> Result<RequestText<'_>, Misread>
    ensures value { IfOk result (λ given. request_in format fields.now ≡ Ok (request_of given.service given.n1 given.n2 given.n3 given.name.now (hex_bytes given.message.now))) }
    ensures hex { IfOk result (λ given. IsHex given.message.now) }
    ensures name { IfOk result (λ given. given.name.now ≢ [] → (arguments_of given.service).name ≡ true) }
    ensures message { IfOk result (λ given. hex_bytes given.message.now ≢ [] → (arguments_of given.service).message ≡ true) }
    ensures refused { IfErr result (λ misread. request_in format fields.now ≡ Err misread) }
    ensures own { IfErr result (λ misread. IsOfRow misread.fault) }
{
    let service = read_service(format, fields)?;
    let takes = service.arguments();
    let n1 = read_argument(format, fields, Column::FirstNumber, takes.numbers.first)?;
    let n2 = read_argument(format, fields, Column::SecondNumber, takes.numbers.second)?;
    let n3 = read_argument(format, fields, Column::ThirdNumber, takes.numbers.third)?;
    let name = read_name(fields, takes.name)?;
    let message = read_message(fields, takes.message, n2)?;
    Ok(RequestText {
        service,
        n1,
        n2,
        n3,
        name,
        message,
    })
}

/// The request. Memory can be refused only if it has a name or a message.
pub fn make_request(alloc: Global, given: RequestText<'_>) -> Result<Request, AllocError>
    requires { IsHex given.message.now }
    ensures value { IfOk result (λ request. request ≡ request_of given.entry.service given.entry.n1 given.entry.n2 given.entry.n3 given.entry.name.now (hex_bytes given.entry.message.now)) }
    ensures memory { OnErr result ((given.entry.name.now ≢ []) ⊎ (hex_bytes given.entry.message.now ≢ [])) }
{
    let name = copy_name(alloc, given.name)?;
    let message = copy_message(alloc, given.message)?;
    let values = ArgumentValues {
        n1: given.n1,
        n2: given.n2,
        n3: given.n3,
        name,
        message,
    };
    Ok(Request::new(given.service, values))
}
