// What is printed of the rows of recordings, and the exit status.

ghost use Rattle.std.specs.Prelude.{◌≡◌, ◌<◌, OnErr, OnOk};
ghost use Rattle.check_result.specs.RowsText.{are_sound, fault_line, fault_lines, rows_status, rows_text};
ghost use Rattle.sink.specs.Written.{IsCut, IsWritten};

use itoa::Buffer;
use report::name_of_row_fault;
use rows_check::{RowsFound, record_count};
use sink::{Sink, WriteFault, put_parts};

/// The exit status of what was found in recordings: 0, or 2 if one has a fault. Takes no memory.
pub fn status_of_rows(found: &[RowsFound]) -> u8
    ensures { result ≡ rows_status found.now }
{
    if are_sound(found) { 0 } else { 2 }
}

// Whether no recording has a fault.
fn are_sound(found: &[RowsFound]) -> bool
    ensures { result ≡ are_sound found.now }
{
    for one in found {
        if one.fault.is_some() {
            return false;
        }
    }
    true
}

/// Writes what was found in recordings: how many records they have, or a line for each recording that has a fault. Takes no memory.
pub fn write_rows<W: Sink>(w: &mut W, found: &[RowsFound]) -> Result<(), WriteFault>
    ensures whole { OnOk result (IsWritten (W.bytes w.old) (rows_text found.now) (W.bytes w.new)) }
    ensures same { OnOk result (W.failures w.new ≡ W.failures w.old) }
    ensures cut { OnErr result (IsCut (W.bytes w.old) (rows_text found.now) (W.bytes w.new)) }
    ensures failed { OnErr result (W.failures w.old < W.failures w.new) }
{
    if !are_sound(found) {
        return write_faults(w, found);
    }
    let mut count = Buffer::new();
    put_parts(
        w,
        &[
            b"ROWS records=",
            count.format(record_count(found)).as_bytes(),
            b"\n",
        ],
    )
}

// Writes a line for each recording that has a fault.
fn write_faults<W: Sink>(w: &mut W, found: &[RowsFound]) -> Result<(), WriteFault>
    ensures whole { OnOk result (IsWritten (W.bytes w.old) (fault_lines 0 found.now) (W.bytes w.new)) }
    ensures same { OnOk result (W.failures w.new ≡ W.failures w.old) }
    ensures cut { OnErr result (IsCut (W.bytes w.old) (fault_lines 0 found.now) (W.bytes w.new)) }
    ensures failed { OnErr result (W.failures w.old < W.failures w.new) }
{
    for (core, one) in found.iter().enumerate() {
        write_fault(w, core, *one)?;
    }
    Ok(())
}

// Writes the line for the fault of the recording of this number, if it has one: that of a check.
fn write_fault<W: Sink>(w: &mut W, core: usize, one: RowsFound) -> Result<(), WriteFault>
    ensures whole { OnOk result (IsWritten (W.bytes w.old) (fault_line core one.records one.fault) (W.bytes w.new)) }
    ensures same { OnOk result (W.failures w.new ≡ W.failures w.old) }
    ensures cut { OnErr result (IsCut (W.bytes w.old) (fault_line core one.records one.fault) (W.bytes w.new)) }
    ensures failed { OnErr result (W.failures w.old < W.failures w.new) }
{
    let Some(fault) = one.fault else {
        return Ok(());
    };
    let mut number = Buffer::new();
    let mut records = Buffer::new();
    put_parts(
        w,
        &[
            b"REFUSED row core=",
            number.format(core).as_bytes(),
            b" seq=",
            records.format(one.records).as_bytes(),
            b" fault=",
            name_of_row_fault(fault),
            b"\n",
        ],
    )
}
