// The faults of rows in words: which field, what it holds, and what was expected.

use crate::likeness::tell_recording_likeness;
use apex_types::Format;
use apex_types::limits::{LONGEST_MESSAGE, LONGEST_NAME};
use csv_rows::RowFields;
use record_read::{
    Column, Kind, Misread, RowFault, find_kind, find_service, read_record_explained, text,
};
use std::alloc::Global;
use std::fmt::Display;
use wording::{Count, Found, Part, Words};

/// The row of a recording: its format, its number, counted from 0, and its fields.
#[derive(Clone, Copy)]
pub struct Row<'a> {
    pub format: Format,
    pub number: u32,
    pub fields: &'a RowFields,
}

/// Reports the fault of a row, if the row was found again: its reader reads it again, and reports the field that has the fault.
pub fn tell_row_fault(words: &mut Words, alloc: Global, fault: RowFault, row: Option<Row<'_>>) {
    words.say(fault);
    let Some(row) = row else {
        return;
    };
    match read_record_explained(alloc, row.format, row.number, row.fields) {
        // A row that has changed in the meantime may have another fault.
        Err(misread) if misread.fault == fault => tell_misread(words, misread, row),
        Err(misread) if misread.fault == RowFault::Memory => words.note_lack_of_memory(),
        _ => {}
    }
    if row.number == 0 {
        tell_recording_likeness(words, row.fields);
    }
    words.next_line();
    words.say("the rows: ");
    words.say_document("FORMATS.md", "Refusals of a row");
}

// Reports the field that has the fault, or how many fields there are, and what was expected.
fn tell_misread(words: &mut Words, misread: Misread, row: Row<'_>) {
    if let Some(column) = misread.column {
        words.next_line();
        words.say(format_args!("the field {} is ", column.name()));
        words.say_part(Part::Recorded, Found(text(row.fields, column)));
        tell_expected(words, misread.fault, column, row);
    } else if misread.fault == RowFault::FieldCount {
        words.next_line();
        words.say("it has ");
        words.say_part(Part::Recorded, Count(row.fields.len(), "field"));
        expect_field_count(words, row);
    }
}

// Reports what was expected in the field of a column that has this fault.
fn tell_expected(words: &mut Words, fault: RowFault, column: Column, row: Row<'_>) {
    let given = text(row.fields, column);
    match fault {
        RowFault::BadNumber => expect_number(words, column),
        RowFault::SeqGap => expect(words, row.number),
        RowFault::BadKind => expect(words, kinds_of(row.format)),
        RowFault::FieldNotForKind => words.say(if given.is_empty() {
            " and must be filled"
        } else {
            " and must be empty"
        }),
        RowFault::BadService => tell_service(words, given),
        RowFault::BadName => expect(
            words,
            format_args!("1 to {LONGEST_NAME} bytes from 0x20 to 0x7E"),
        ),
        RowFault::BadHex => expect(words, "hexadecimal digits, two for each byte"),
        RowFault::BadLength => expect_length(words, column, row.fields),
        RowFault::BadOut => expect(words, outcomes_of(text(row.fields, Column::Kind))),
        RowFault::BadWoken => expect(
            words,
            "processes as part:proc in strictly ascending order, separated by semicolons, each proc 1 or more",
        ),
        RowFault::BadError => expect(
            words,
            "DEADLINE_MISSED, NUMERIC_ERROR, ILLEGAL_REQUEST, STACK_OVERFLOW, MEMORY_VIOLATION, HARDWARE_FAULT or POWER_FAIL",
        ),
        // No field has any of these.
        RowFault::Read
        | RowFault::Memory
        | RowFault::TooMany
        | RowFault::FieldCount
        | RowFault::Ended => {}
    }
}

// The outcomes that a row of this kind can have.
fn outcomes_of(kind: &[u8]) -> &'static str {
    if kind == b"err".as_slice() {
        "none, or an empty field"
    } else {
        "the name of a code, or in a call also wait or none"
    }
}

// The kinds of rows that a format has.
fn kinds_of(format: Format) -> &'static str {
    match format {
        Format::One | Format::Two => "call, ret, disp or tick",
        Format::Three => "call, ret, disp, tick, arrive, depart or err",
    }
}

// Reports why a service may not be named: the format of the recording does not have it, or there is none of this name.
fn tell_service(words: &mut Words, given: &[u8]) {
    match find_service(given) {
        Some(service) => match service.since() {
            Format::Three => words.say(", a service of format 3 only"),
            Format::One | Format::Two => words.say(", a service of format 2 and later"),
        },
        None => words.say(", which is not the name of a service"),
    }
}

// Reports what was expected.
fn expect(words: &mut Words, expected: impl Display + Drop) {
    words.say("; expected ");
    words.say_part(Part::Expected, expected);
}

// Reports how many fields a row must have: as many as the first row, which has the number of its format.
fn expect_field_count(words: &mut Words, row: Row<'_>) {
    if row.number == 0 {
        expect(
            words,
            format_args!(
                "{}, {} in format 2, or {} in format 3",
                Count(Format::One.field_count(), "field"),
                Format::Two.field_count(),
                Format::Three.field_count()
            ),
        );
    } else {
        expect(
            words,
            format_args!("{}, as the first row has", row.format.field_count()),
        );
    }
}

// Reports which numbers a column can have.
fn expect_number(words: &mut Words, column: Column) {
    match column.greatest() {
        Some(most) => expect(
            words,
            format_args!("a number in its shortest form, from 0 to {most}"),
        ),
        None => expect(words, "a signed 64-bit number in its shortest form"),
    }
}

// Reports how many bytes the message in a column can have.
fn expect_length(words: &mut Words, column: Column, fields: &RowFields) {
    if column == Column::Message && find_kind(text(fields, Column::Kind)) == Some(Kind::Call) {
        let length = text(fields, Column::SecondNumber);
        expect(
            words,
            format_args!(
                "as many bytes as n2 says, or none if n2 is not from 1 to {LONGEST_MESSAGE}; n2 is {}",
                Found(length)
            ),
        );
    } else {
        expect(words, format_args!("at most {LONGEST_MESSAGE} bytes"));
    }
}
