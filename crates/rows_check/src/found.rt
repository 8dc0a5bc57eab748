// The records and the first fault of a recording.

ghost use Rattle.std.specs.Prelude.{◌≡◌, IfOk, IfSome, IsErr, Some};
ghost use Rattle.std.specs.List.{AllZip};
ghost use Rattle.record_read.specs.Row.{records_of};
ghost use Rattle.rows_check.specs.Found.{IsFoundIn, record_count};

use apex_types::limits::MOST_RECORDS;
use csv_rows::TextSource;
use record_read::{RowFault, RowSource};
use std::alloc::{AllocError, Global};

/// What the rows of a recording are found to be: how many sound records it begins with, and the fault that comes after them. If there is
/// no fault, these are all its records.
#[derive(Clone, Copy, Debug, PartialEq, Eq)]
pub struct RowsFound {
    pub records: u64,
    pub fault: Option<RowFault>,
}

/// Reads a recording to its end or to its first fault.
///
/// `AllocError` if memory is refused.
pub fn find_in<R: TextSource + Drop>(alloc: Global, source: R) -> Result<RowsFound, AllocError>
    ensures { IfOk result (λ found. IfSome (R.remaining source) (λ text. IsFoundIn R.can_fail (records_of text) found)) }
{
    let mut rows = RowSource::new(alloc, source);
    for records in 0..MOST_RECORDS as u64 + 1 {
        match rows.next() {
            Ok(Some(_)) => {}
            Ok(None) => return Ok(RowsFound {
                records,
                fault: None,
            }),
            Err(fault) => return found_before(records, fault),
        }
    }
    // No recording has more sound records than these.
    Ok(RowsFound {
        records: MOST_RECORDS as u64,
        fault: Some(RowFault::TooMany),
    })
}

// What is found in a recording whose next row after so many sound records has this fault. A lack of memory is no fault of a row.
fn found_before(records: u64, fault: RowFault) -> Result<RowsFound, AllocError>
    ensures found { IfOk result (λ found. found ≡ record { records = records; fault = Some fault }) }
    ensures starved { fault ≡ RowFault.Memory → IsErr result }
{
    match fault {
        RowFault::Memory => Err(AllocError),
        fault => Ok(RowsFound {
            records,
            fault: Some(fault),
        }),
    }
}

/// Reads each of these recordings to its end or to its first fault.
///
/// `AllocError` if memory is refused.
pub fn find_in_each<R: TextSource + Drop>(
    alloc: Global,
    sources: Vec<R>,
) -> Result<Vec<RowsFound>, AllocError>
    ensures { IfOk result (λ found. AllZip (λ source one. IfSome (R.remaining source) (λ text. IsFoundIn R.can_fail (records_of text) one)) sources.items found.items) }
{
    let mut found = Vec::new(alloc);
    for source in sources {
        found.push(find_in(alloc, source)?)?;
    }
    Ok(found)
}

/// How many sound records these recordings begin with together.
pub fn record_count(found: &[RowsFound]) -> u128
    ensures { result ≡ record_count found.now }
{
    let mut count = 0_u128;
    for one in found {
        count += u128::from(one.records);
    }
    count
}
