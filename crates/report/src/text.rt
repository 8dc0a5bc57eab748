// The text of an outcome, and its exit status.

ghost use Rattle.std.specs.Prelude.{◌≡◌, ◌<◌, ℕ, List, OnOk, OnErr};
ghost use Rattle.sink.specs.Written.{IsCut, IsWritten};
ghost use Rattle.report.specs.declared.fault.CheckFault.TheVariants.{Input};
ghost use Rattle.report.specs.Text.{outcome_status_of, report_of};

use crate::fault::CheckFault;
use crate::names::{
    name_of_argument_fault, name_of_cause, name_of_cert_fault, name_of_config_fault,
    name_of_order_fault, name_of_row_fault,
};
use itoa::Buffer;
use placement::InputFault;
use sink::{Sink, WriteFault, put_parts};
use verdict_merge::Verdict;

/// Writes the report of an outcome, one line. Takes no memory.
///
/// If the sink fails, it has only the first bytes of the line.
pub fn write_report<W: Sink>(
    w: &mut W,
    outcome: &Result<Verdict, CheckFault>,
) -> Result<(), WriteFault>
    ensures whole { OnOk result (IsWritten (W.bytes w.old) (report_of outcome.now) (W.bytes w.new)) }
    ensures same { OnOk result (W.failures w.new ≡ W.failures w.old) }
    ensures cut { OnErr result (IsCut (W.bytes w.old) (report_of outcome.now) (W.bytes w.new)) }
    ensures failed { OnErr result (W.failures w.old < W.failures w.new) }
{
    match outcome {
        Ok(verdict) => write_verdict(w, verdict),
        Err(fault) => write_refusal(w, fault),
    }
}

/// The exit status of an outcome: 0 yes, 1 no, 2 refused, 3 out of memory. Takes no memory.
pub fn status_of_outcome(outcome: &Result<Verdict, CheckFault>) -> u8
    ensures { result ≡ outcome_status_of outcome.now }
{
    match outcome {
        Ok(Verdict::Yes { .. }) => 0,
        Ok(Verdict::No { .. } | Verdict::Broken { .. }) => 1,
        Err(CheckFault::Memory) => 3,
        Err(_) => 2,
    }
}

// Writes the report of a verdict.
fn write_verdict<W: Sink>(w: &mut W, verdict: &Verdict) -> Result<(), WriteFault>
    ensures whole { OnOk result (IsWritten (W.bytes w.old) (report_of (Ok verdict.now)) (W.bytes w.new)) }
    ensures same { OnOk result (W.failures w.new ≡ W.failures w.old) }
    ensures cut { OnErr result (IsCut (W.bytes w.old) (report_of (Ok verdict.now)) (W.bytes w.new)) }
    ensures failed { OnErr result (W.failures w.old < W.failures w.new) }
{
    let mut first = Buffer::new();
    let mut second = Buffer::new();
    match verdict {
        Verdict::Yes { records } => put_parts(
            w,
            &[b"YES records=", first.format(*records).as_bytes(), b"\n"],
        ),
        Verdict::No { pos, piece, cause } => put_parts(
            w,
            &[
                b"NO place=",
                first.format(pos.number()).as_bytes(),
                b" piece=",
                second.format(*piece).as_bytes(),
                b" cause=",
                name_of_cause(*cause),
                b"\n",
            ],
        ),
        Verdict::Broken { pos, rule } => put_parts(
            w,
            &[
                b"NO place=",
                first.format(pos.number()).as_bytes(),
                b" rule=",
                second.format(*rule).as_bytes(),
                b"\n",
            ],
        ),
    }
}

// Writes the report of a refusal.
fn write_refusal<W: Sink>(w: &mut W, fault: &CheckFault) -> Result<(), WriteFault>
    ensures whole { OnOk result (IsWritten (W.bytes w.old) (report_of (Err fault.now)) (W.bytes w.new)) }
    ensures same { OnOk result (W.failures w.new ≡ W.failures w.old) }
    ensures cut { OnErr result (IsCut (W.bytes w.old) (report_of (Err fault.now)) (W.bytes w.new)) }
    ensures failed { OnErr result (W.failures w.old < W.failures w.new) }
{
    match fault {
        CheckFault::Arguments(fault) => put_parts(
            w,
            &[b"REFUSED arguments=", name_of_argument_fault(*fault), b"\n"],
        ),
        CheckFault::Config(fault) => put_parts(
            w,
            &[b"REFUSED config=", name_of_config_fault(*fault), b"\n"],
        ),
        CheckFault::Input(fault) => write_input_refusal(w, fault),
        CheckFault::Memory => put_parts(w, &[b"MEMORY\n"]),
    }
}

// Writes the report of a refusal of the certificate, the order or a recording.
fn write_input_refusal<W: Sink>(w: &mut W, fault: &InputFault) -> Result<(), WriteFault>
    ensures whole { OnOk result (IsWritten (W.bytes w.old) (report_of (Err (Input fault.now))) (W.bytes w.new)) }
    ensures same { OnOk result (W.failures w.new ≡ W.failures w.old) }
    ensures cut { OnErr result (IsCut (W.bytes w.old) (report_of (Err (Input fault.now))) (W.bytes w.new)) }
    ensures failed { OnErr result (W.failures w.old < W.failures w.new) }
{
    let mut first = Buffer::new();
    let mut second = Buffer::new();
    match fault {
        InputFault::Cert { place, fault } => put_parts(
            w,
            &[
                b"REFUSED cert place=",
                first.format(*place).as_bytes(),
                b" fault=",
                name_of_cert_fault(*fault),
                b"\n",
            ],
        ),
        InputFault::Order { place, core, fault } => put_parts(
            w,
            &[
                b"REFUSED order place=",
                first.format(*place).as_bytes(),
                b" core=",
                second.format(*core).as_bytes(),
                b" fault=",
                name_of_order_fault(*fault),
                b"\n",
            ],
        ),
        InputFault::Row { core, seq, fault } => put_parts(
            w,
            &[
                b"REFUSED row core=",
                first.format(*core).as_bytes(),
                b" seq=",
                second.format(*seq).as_bytes(),
                b" fault=",
                name_of_row_fault(*fault),
                b"\n",
            ],
        ),
    }
}
