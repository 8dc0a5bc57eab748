// The rows of a certificate.

ghost use Rattle.std.specs.Prelude.{◌≡◌, ◌++◌, OnOk};
ghost use Rattle.order_cert.specs.Order.{pair_of};
ghost use Rattle.order_run.specs.Rows.{row_of};

use itoa::Buffer;
use std::alloc::AllocError;

/// Adds the row of a core's record of this number.
pub fn add_row(text: &mut Vec<u8>, core: u32, seq: u64) -> Result<(), AllocError>
    ensures { OnOk result (text.new.items ≡ text.old.items ++ row_of (pair_of core seq)) }
{
    let mut buffer = Buffer::new();
    text.extend_from_slice(buffer.format(core).as_bytes())?;
    text.push(b',')?;
    text.extend_from_slice(buffer.format(seq).as_bytes())?;
    text.push(b'\n')?;
    Ok(())
}
