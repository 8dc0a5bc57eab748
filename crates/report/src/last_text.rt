// The text of the last records: a line for each.

ghost use Rattle.std.specs.Prelude.{◌≡◌, ◌<◌, OnErr, OnOk};
ghost use Rattle.sink.specs.Written.{IsCut, IsWritten};
ghost use Rattle.report.specs.Last.{last_line, last_lines};

use crate::last::{Last, LastItem};
use crate::names::name_of_kind;
use itoa::Buffer;
use sink::{Sink, WriteFault, put_parts};

/// Writes the last records, one line each, the earliest first. Takes no memory.
///
/// If the sink fails, it has only the first bytes of the lines.
pub fn write_last<W: Sink>(w: &mut W, last: &Last) -> Result<(), WriteFault>
    ensures whole { OnOk result (IsWritten (W.bytes w.old) (last_lines last.now) (W.bytes w.new)) }
    ensures same { OnOk result (W.failures w.new ≡ W.failures w.old) }
    ensures cut { OnErr result (IsCut (W.bytes w.old) (last_lines last.now) (W.bytes w.new)) }
    ensures failed { OnErr result (W.failures w.old < W.failures w.new) }
{
    'items: for index in 0..last.len() {
        if let Some(item) = last.get(index) {
            write_item(w, item)?;
        }
    }
    Ok(())
}

// Writes the line of one record.
fn write_item<W: Sink>(w: &mut W, item: &LastItem) -> Result<(), WriteFault>
    ensures whole { OnOk result (IsWritten (W.bytes w.old) (last_line item.now) (W.bytes w.new)) }
    ensures same { OnOk result (W.failures w.new ≡ W.failures w.old) }
    ensures cut { OnErr result (IsCut (W.bytes w.old) (last_line item.now) (W.bytes w.new)) }
    ensures failed { OnErr result (W.failures w.old < W.failures w.new) }
{
    let mut place = Buffer::new();
    let mut core = Buffer::new();
    let mut seq = Buffer::new();
    put_parts(
        w,
        &[
            b"LAST place=",
            place.format(item.place.number()).as_bytes(),
            b" core=",
            core.format(item.core.number()).as_bytes(),
            b" seq=",
            seq.format(item.seq).as_bytes(),
            b" kind=",
            name_of_kind(item.kind),
            b"\n",
        ],
    )
}
