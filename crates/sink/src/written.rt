// Texts that are written whole.

ghost use Rattle.std.specs.Prelude.{◌≡◌, ◌<◌, OnOk, OnErr};
ghost use Rattle.sink.specs.Written.{IsWritten, IsCut, joined};

use crate::output::Sink;

/// The sink failed before it had taken the whole text.
#[derive(Clone, Copy, Debug, PartialEq, Eq)]
pub struct WriteFault;

/// Writes all bytes of `text`.
///
/// # Errors
///
/// `WriteFault` if the sink failed. Then the first bytes of the text went out, and no others.
pub fn put_all<W: Sink>(w: &mut W, text: &[u8]) -> Result<(), WriteFault>
    ensures whole { OnOk result (IsWritten (W.bytes w.old) text.now (W.bytes w.new)) }
    ensures same { OnOk result (W.failures w.new ≡ W.failures w.old) }
    ensures cut { OnErr result (IsCut (W.bytes w.old) text.now (W.bytes w.new)) }
    ensures failed { OnErr result (W.failures w.old < W.failures w.new) }
{
    let mut left = text;
    while !left.is_empty() {
        match w.put(left) {
            Err(_) => return Err(WriteFault),
            Ok(0) => return Err(WriteFault),
            Ok(count) => left = &left[count..],
        }
    }
    Ok(())
}

/// Writes all bytes of each of `parts`, in their order.
///
/// # Errors
///
/// `WriteFault` if the sink failed. Then the first bytes of the joined parts went out, and no others.
pub fn put_parts<W: Sink>(w: &mut W, parts: &[&[u8]]) -> Result<(), WriteFault>
    ensures whole { OnOk result (IsWritten (W.bytes w.old) (joined parts.now) (W.bytes w.new)) }
    ensures same { OnOk result (W.failures w.new ≡ W.failures w.old) }
    ensures cut { OnErr result (IsCut (W.bytes w.old) (joined parts.now) (W.bytes w.new)) }
    ensures failed { OnErr result (W.failures w.old < W.failures w.new) }
{
    for part in parts {
        put_all(w, part)?;
    }
    Ok(())
}
