// What is found in the rows of recordings alone.

use record_read::RowFault;
use rows_check::{RowsFound, find_in_each, record_count};
use std::test::Fail;

// Texts of recordings, each with how many sound records it begins with, and with the fault after them.
const TEXTS: [(&'static str, u64, Option<RowFault>); 5] = [
    ("", 0, None),
    ("0,tick,,,,,,,,,,,,,,\n1,disp,,,,,,,,,,,,,,\n", 2, None),
    (
        "0,tick,,,,,,,,,,,,,,\n1,tick\n2,none\n",
        1,
        Some(RowFault::FieldCount),
    ),
    ("1,tick,,,,,,,,,,,,,,\n", 0, Some(RowFault::SeqGap)),
    ("0,err,0,0,,,,,,,,,,,,,,,POWER_FAIL\n", 1, None),
];

#[test]
fn each_recording_is_read_to_its_end_or_first_fault(rt: HostRuntime) -> Result<(), Fail> {
    let alloc = rt.alloc();
    let mut sources = Vec::new(alloc);
    for (text, _, _) in TEXTS {
        sources.push(text.as_bytes())?;
    }
    let found = find_in_each(alloc, sources)?;
    assert!(rt; found.len() == TEXTS.len());
    for ((text, records, fault), one) in TEXTS.iter().zip(&found) {
        let expected = RowsFound {
            records: *records,
            fault: *fault,
        };
        assert!(rt; *one == expected, "{text}");
    }
    assert!(rt; record_count(&found) == 4);
    Ok(())
}
