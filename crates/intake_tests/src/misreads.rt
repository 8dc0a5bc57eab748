// The fault of a row with the field that has it, and the record of a row that has none.

use apex_types::{Format, Record};
use csv_rows::{CsvRows, RowFields};
use record_read::{Column, Misread, RowFault, format_by, read_record_explained};
use std::alloc::Global;
use std::test::Fail;

// What the first row of a text gives, in a recording that begins with it.
fn first_of(alloc: Global, text: &'static str, number: u32) -> Option<Result<Record, Misread>> {
    let mut fields = RowFields::new(alloc);
    let mut rows = CsvRows::new(alloc, text.as_bytes());
    match rows.read(&mut fields) {
        Ok(true) => {
            let format = format_by(None, &fields);
            Some(read_record_explained(alloc, format, number, &fields))
        }
        _ => None,
    }
}

// Each row with its fault and the field that has it; of several faulty fields, the first.
const MISREADS: [(&'static str, RowFault, Option<Column>); 19] = [
    ("0,tick", RowFault::FieldCount, None),
    ("0,x,32,,,,,,,,,,,,", RowFault::FieldCount, None),
    (
        "00,x,,,,,,,,,,,,,,",
        RowFault::BadNumber,
        Some(Column::Sequence),
    ),
    (
        "1,x,,,,,,,,,,,,,,",
        RowFault::SeqGap,
        Some(Column::Sequence),
    ),
    (
        ",x,,,,,,,,,,,,,,",
        RowFault::FieldNotForKind,
        Some(Column::Sequence),
    ),
    ("0,x,32,,,,,,,,,,,,,", RowFault::BadKind, Some(Column::Kind)),
    (
        "0,disp,32,,,,,,,,,,,,,",
        RowFault::BadNumber,
        Some(Column::Partition),
    ),
    (
        "0,disp,3,,,1,,,,,,,,,,",
        RowFault::FieldNotForKind,
        Some(Column::Process),
    ),
    (
        "0,disp,,,,1,2,,,,,,,,,",
        RowFault::FieldNotForKind,
        Some(Column::FirstNumber),
    ),
    (
        "0,tick,,,,,,,,,,,,0,,0:0",
        RowFault::FieldNotForKind,
        Some(Column::Data),
    ),
    (
        "0,tick,,,,,,,,,,,,,,0:0",
        RowFault::BadWoken,
        Some(Column::Woken),
    ),
    (
        "0,tick,,,,,,,,,,,,,,0:1,,0",
        RowFault::FieldNotForKind,
        Some(Column::ThirdValue),
    ),
    (
        "0,call,0,1,SEND_BUFFER,1,2,0,,aa,x,,,b,,",
        RowFault::BadLength,
        Some(Column::Message),
    ),
    (
        "0,call,0,1,SEND_BUFFER,1,1,0,,aa,1,wait,,b,,",
        RowFault::BadHex,
        Some(Column::Data),
    ),
    (
        "0,call,0,1,GET_TIME,,,,,,1,no,x,,,",
        RowFault::BadOut,
        Some(Column::Outcome),
    ),
    (
        "0,ret,0,1,GET_TIME,,,,A,,1,no,x,,,",
        RowFault::FieldNotForKind,
        Some(Column::Name),
    ),
    (
        "0,call,0,1,GET_TIME,,,,,,1,wait,,,,,x,y",
        RowFault::BadNumber,
        Some(Column::SecondValue),
    ),
    (
        "0,err,0,1,,,,,,,,wait,,,,,,,x",
        RowFault::BadOut,
        Some(Column::Outcome),
    ),
    (
        "0,err,0,1,,,,,,,,none,,,,,,,x",
        RowFault::BadError,
        Some(Column::Error),
    ),
];

#[test]
fn the_first_faulty_field_is_reported(rt: HostRuntime) -> Result<(), Fail> {
    let alloc = rt.alloc();
    for (text, fault, column) in MISREADS {
        let is_reported = match first_of(alloc, text, 0) {
            Some(Err(misread)) => misread.fault == fault && misread.column == column,
            _ => false,
        };
        assert!(rt; is_reported, "{text}");
    }
    Ok(())
}

#[test]
fn a_sound_row_is_its_record(rt: HostRuntime) -> Result<(), Fail> {
    let alloc = rt.alloc();
    let text = "7,call,0,1,SEND_BUFFER,1,1,0,,aa,1,wait,,,,";
    let is_read = match first_of(alloc, text, 7) {
        Some(Ok(record)) => record.seq == 7,
        _ => false,
    };
    assert!(rt; is_read);
    Ok(())
}

#[test]
fn columns_have_their_greatest_numbers(rt: HostRuntime) -> Result<(), Fail> {
    assert!(rt; Column::Partition.greatest() == Some(31));
    assert!(rt; Column::Channel.greatest() == Some(255));
    assert!(rt; Column::Value.greatest().is_none());
    assert!(rt; Misread::of_no_field(RowFault::FieldCount).column.is_none());
    assert!(rt; Misread::at(Column::Name, RowFault::BadName).column == Some(Column::Name));
    Ok(())
}
