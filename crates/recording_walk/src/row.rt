// The rows of recordings and of certificates.

use crate::arguments::Arguments;
use apex_types::{
    Body, Call, ChanId, Crossing, ErrorCode, ErrorReport, Format, Out, Record, Return, Service, Who,
};
use itoa::Buffer;
use std::alloc::AllocError;

// What a row says of its record. What a record does not have is an empty field.
#[derive(Clone, Copy)]
struct Row<'a> {
    kind: &'static [u8],
    who: Option<Who>,
    service: Option<Service>,
    numbers: [Option<i64>; 3],
    name: &'a [u8],
    message: &'a [u8],
    priority: Option<u8>,
    out: Option<Out>,
    values: [Option<i64>; 3],
    data: &'a [u8],
    channel: Option<ChanId>,
    woken: &'a [Who],
    error: Option<ErrorCode>,
}

/// Adds the row of a record to the text of a recording in this format. A second and a third value have fields from format 2 on, and an error
/// in format 3.
///
/// `AllocError` if memory is refused; the text then ends within the row.
pub fn add_record(text: &mut Vec<u8>, format: Format, record: &Record) -> Result<(), AllocError> {
    let row = row_of(record);
    add_number(text, Some(i64::from(record.seq)))?;
    add_field(text, row.kind)?;
    text.push(b',')?;
    add_number(text, row.who.map(|who| i64::from(who.part.number())))?;
    text.push(b',')?;
    add_number(text, row.who.map(|who| i64::from(who.proc.number())))?;
    add_field(text, row.service.map_or(&[], |service| service.name()))?;
    add_numbers(text, &row.numbers)?;
    text.push(b',')?;
    add_name(text, row.name)?;
    add_bytes(text, row.message)?;
    text.push(b',')?;
    add_number(text, row.priority.map(i64::from))?;
    add_field(text, row.out.map_or(&[], name_of_out))?;
    let [first, second, third] = row.values;
    add_numbers(text, &[first])?;
    add_bytes(text, row.data)?;
    text.push(b',')?;
    add_number(text, row.channel.map(|channel| i64::from(channel.number())))?;
    text.push(b',')?;
    add_woken(text, row.woken)?;
    if format != Format::One {
        add_numbers(text, &[second, third])?;
    }
    if format == Format::Three {
        add_field(text, row.error.map_or(&[], |error| error.name()))?;
    }
    text.push(b'\n')?;
    Ok(())
}

/// Adds the row of a core's record of this number to the text of a certificate.
///
/// `AllocError` if memory is refused; the text then ends within the row.
pub fn add_pair(text: &mut Vec<u8>, core: u8, seq: u32) -> Result<(), AllocError> {
    add_number(text, Some(i64::from(core)))?;
    add_numbers(text, &[Some(i64::from(seq))])?;
    text.push(b'\n')?;
    Ok(())
}

// The row of a record.
fn row_of(record: &Record) -> Row<'_> {
    match &record.body {
        Body::Call(call) => row_of_call(call),
        Body::Ret(ret) => row_of_return(ret),
        Body::Disp(who) => Row {
            who: *who,
            ..empty_row(b"disp")
        },
        Body::Tick(woken) => Row {
            woken: woken.as_slice(),
            ..empty_row(b"tick")
        },
        Body::Arrive(crossing) => Row {
            message: crossing.message.as_bytes(),
            ..row_of_crossing(b"arrive", crossing)
        },
        Body::Depart(crossing) => Row {
            data: crossing.message.as_bytes(),
            ..row_of_crossing(b"depart", crossing)
        },
        Body::Error(report) => row_of_error(report),
    }
}

// The row of this kind of a message that passes an end outside the module, without the message.
fn row_of_crossing<'a>(kind: &'static [u8], crossing: &'a Crossing) -> Row<'a> {
    Row {
        channel: Some(crossing.chan),
        woken: crossing.woken.as_slice(),
        ..empty_row(kind)
    }
}

// A row of this kind with no other field.
fn empty_row<'a>(kind: &'static [u8]) -> Row<'a> {
    Row {
        kind,
        who: None,
        service: None,
        numbers: [None; 3],
        name: &[],
        message: &[],
        priority: None,
        out: None,
        values: [None; 3],
        data: &[],
        channel: None,
        woken: &[],
        error: None,
    }
}

// The row of a call.
fn row_of_call(call: &Call) -> Row<'_> {
    let arguments = Arguments::of(&call.request);
    let claim = &call.claim;
    Row {
        kind: b"call",
        who: Some(call.who),
        service: Some(call.request.service()),
        numbers: arguments.numbers,
        name: arguments.name,
        message: arguments.message,
        priority: Some(claim.prio),
        out: Some(claim.out),
        values: [claim.val, claim.val2, claim.val3],
        data: claim.bytes.as_bytes(),
        channel: claim.chan,
        woken: claim.woken.as_slice(),
        error: None,
    }
}

// The row of a return.
fn row_of_return(ret: &Return) -> Row<'_> {
    Row {
        who: Some(ret.who),
        service: Some(ret.service),
        out: Some(Out::Answer(ret.code)),
        values: [ret.val, ret.val2, ret.val3],
        data: ret.bytes.as_bytes(),
        ..empty_row(b"ret")
    }
}

// The row of an error.
fn row_of_error<'a>(report: &ErrorReport) -> Row<'a> {
    Row {
        who: Some(report.who),
        out: if report.restarts {
            Some(Out::Never)
        } else {
            None
        },
        error: Some(report.error),
        ..empty_row(b"err")
    }
}

// The name that rows give an outcome.
fn name_of_out(out: Out) -> &'static [u8] {
    match out {
        Out::Waits => b"wait",
        Out::Never => b"none",
        Out::Answer(code) => code.name(),
    }
}

// Adds a further field with these bytes.
fn add_field(text: &mut Vec<u8>, bytes: &[u8]) -> Result<(), AllocError> {
    text.push(b',')?;
    text.extend_from_slice(bytes)?;
    Ok(())
}

// Adds a number, if there is one.
fn add_number(text: &mut Vec<u8>, number: Option<i64>) -> Result<(), AllocError> {
    if let Some(number) = number {
        let mut buffer = Buffer::new();
        text.extend_from_slice(buffer.format(number).as_bytes())?;
    }
    Ok(())
}

// Adds further fields with these numbers.
fn add_numbers(text: &mut Vec<u8>, numbers: &[Option<i64>]) -> Result<(), AllocError> {
    for number in numbers {
        text.push(b',')?;
        add_number(text, *number)?;
    }
    Ok(())
}

// Adds a name, in quotes if it has a comma or a quote.
fn add_name(text: &mut Vec<u8>, name: &[u8]) -> Result<(), AllocError> {
    if !name.contains(&b',') && !name.contains(&b'"') {
        text.extend_from_slice(name)?;
        return Ok(());
    }
    text.push(b'"')?;
    for byte in name {
        if *byte == b'"' {
            text.push(b'"')?;
        }
        text.push(*byte)?;
    }
    text.push(b'"')?;
    Ok(())
}

// Adds a further field with these bytes in hexadecimal digits.
fn add_bytes(text: &mut Vec<u8>, bytes: &[u8]) -> Result<(), AllocError> {
    const DIGITS: &[u8; 16] = b"0123456789abcdef";
    text.push(b',')?;
    for byte in bytes {
        text.push(DIGITS[usize::from(*byte / 16)])?;
        text.push(DIGITS[usize::from(*byte % 16)])?;
    }
    Ok(())
}

// Adds a list of processes.
fn add_woken(text: &mut Vec<u8>, woken: &[Who]) -> Result<(), AllocError> {
    let mut is_first = true;
    for who in woken {
        if !is_first {
            text.push(b';')?;
        }
        is_first = false;
        add_number(text, Some(i64::from(who.part.number())))?;
        text.push(b':')?;
        add_number(text, Some(i64::from(who.proc.number())))?;
    }
    Ok(())
}
