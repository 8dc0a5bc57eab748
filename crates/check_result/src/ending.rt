// The ends that only `apexcheck` has: their texts on standard output and their exit statuses.

ghost use Rattle.std.specs.Prelude.{◌≡◌, ◌≢◌, ◌<◌, ◌++◌, OnErr, OnOk};
ghost use Rattle.program_ends.specs.Endings.{exit_status_of, text_of};
ghost use Rattle.report.specs.Text.{report_of};
ghost use Rattle.check_result.specs.declared.ending.CheckEnd.TheVariants.{Few, Version};
ghost use Rattle.check_result.specs.Endings.{end_of_check, lines_after, own_status_of, own_text_of, refusing};
ghost use Rattle.sink.specs.Written.{IsCut, IsWritten};

use crate::rows_text::{status_of_rows, write_rows};
use itoa::Buffer;
use program_ends::{Ending, OwnEnd, UNWRITTEN, status_of, write_text};
use report::{CheckFault, Last, Verdict, status_of_outcome, write_last, write_report};
use rows_check::RowsFound;
use sink::{Sink, WriteFault, WriterSink, put_parts};
use std::io::Write;

/// The version of `apexcheck`.
pub const VERSION: &str = "1.0.0";

/// How a run ends that was not kept from what was requested.
#[derive(Drop)]
pub enum CheckEnd {
    /// The check reached an outcome. A lack of memory before the check counts as the check's own `Memory`.
    Checked {
        outcome: Result<Verdict, CheckFault>,
        /// The last records before the place of a No, if they are requested.
        last: Option<Last>,
    },
    /// The answer is a Yes, but for fewer records than are required.
    Few {
        records: u64,
    },
    /// The rows of recordings were read: what was found in each, core 0 first.
    Rows(Vec<RowsFound>),
    /// The version was requested.
    Version,
}

impl OwnEnd for CheckEnd {
    ghost refusing = { refusing };

    ghost status_of = { own_status_of };

    ghost text_of = { own_text_of };

    fn refusing(fault: CheckFault) -> CheckEnd {
        CheckEnd::Checked {
            outcome: Err(fault),
            last: None,
        }
    }

    fn status(&self) -> u8 {
        match self {
            CheckEnd::Checked { outcome, .. } => status_of_outcome(outcome),
            CheckEnd::Few { .. } => 2,
            CheckEnd::Rows(found) => status_of_rows(found),
            CheckEnd::Version => 0,
        }
    }

    fn write_text<W: Sink>(&self, w: &mut W) -> Result<(), WriteFault> {
        match self {
            CheckEnd::Checked { outcome, last } => write_outcome(w, outcome, last),
            CheckEnd::Few { records } => write_few(w, *records),
            CheckEnd::Rows(found) => write_rows(w, found),
            CheckEnd::Version => write_version(w),
        }
    }
}

/// The end of a check by its outcome, with the last records if they are requested. A Yes for fewer records than are required is refused.
pub fn end_of_check(
    at_least: Option<u64>,
    outcome: Result<Verdict, CheckFault>,
    last: Option<Last>,
) -> Ending<CheckEnd>
    ensures { result ≡ end_of_check at_least outcome last }
{
    match (at_least, outcome) {
        (Some(least), Ok(Verdict::Yes { records })) if records < least => {
            Ending::Own(CheckEnd::Few { records })
        }
        (_, outcome) => Ending::Own(CheckEnd::Checked { outcome, last }),
    }
}

// Writes the report of an outcome, followed by a line for each of the last records if they are requested.
fn write_outcome<W: Sink>(
    w: &mut W,
    outcome: &Result<Verdict, CheckFault>,
    last: &Option<Last>,
) -> Result<(), WriteFault>
    ensures whole { OnOk result (IsWritten (W.bytes w.old) (report_of outcome.now ++ lines_after last.now) (W.bytes w.new)) }
    ensures same { OnOk result (W.failures w.new ≡ W.failures w.old) }
    ensures cut { OnErr result (IsCut (W.bytes w.old) (report_of outcome.now ++ lines_after last.now) (W.bytes w.new)) }
    ensures failed { OnErr result (W.failures w.old < W.failures w.new) }
{
    write_report(w, outcome)?;
    match last {
        Some(last) => write_last(w, last),
        None => Ok(()),
    }
}

// Writes the refusal of a Yes for this number of records.
fn write_few<W: Sink>(w: &mut W, records: u64) -> Result<(), WriteFault>
    ensures whole { OnOk result (IsWritten (W.bytes w.old) (own_text_of (Few records)) (W.bytes w.new)) }
    ensures same { OnOk result (W.failures w.new ≡ W.failures w.old) }
    ensures cut { OnErr result (IsCut (W.bytes w.old) (own_text_of (Few records)) (W.bytes w.new)) }
    ensures failed { OnErr result (W.failures w.old < W.failures w.new) }
{
    let mut number = Buffer::new();
    put_parts(
        w,
        &[
            b"REFUSED few records=",
            number.format(records).as_bytes(),
            b"\n",
        ],
    )
}

// Writes the version.
fn write_version<W: Sink>(w: &mut W) -> Result<(), WriteFault>
    ensures whole { OnOk result (IsWritten (W.bytes w.old) (own_text_of Version) (W.bytes w.new)) }
    ensures same { OnOk result (W.failures w.new ≡ W.failures w.old) }
    ensures cut { OnErr result (IsCut (W.bytes w.old) (own_text_of Version) (W.bytes w.new)) }
    ensures failed { OnErr result (W.failures w.old < W.failures w.new) }
{
    put_parts(w, &[b"apexcheck ", VERSION.as_bytes(), b"\n"])
}

/// Writes the text of an end through a writer, flushes the writer, and returns the exit status of the run. Takes no memory.
///
/// This is the status of the end if the whole text went out, and `UNWRITTEN` if the writer failed. Then the first bytes of the text went
/// out, and no others.
pub fn conclude<W: Write + Drop>(output: &mut WriterSink<W>, ending: &Ending<CheckEnd>) -> u8
    ensures status { result ≢ UNWRITTEN → result ≡ exit_status_of own_status_of ending.now }
    ensures whole { result ≢ UNWRITTEN → IsWritten output.old.bytes (text_of own_text_of ending.now) output.new.bytes }
    ensures same { result ≢ UNWRITTEN → output.new.failures ≡ output.old.failures }
    ensures cut { result ≡ UNWRITTEN → IsCut output.old.bytes (text_of own_text_of ending.now) output.new.bytes }
    ensures failed { result ≡ UNWRITTEN → output.old.failures < output.new.failures }
{
    match write_and_flush(output, ending) {
        Ok(()) => status_of(ending),
        Err(WriteFault) => UNWRITTEN,
    }
}

fn write_and_flush<W: Write + Drop>(
    output: &mut WriterSink<W>,
    ending: &Ending<CheckEnd>,
) -> Result<(), WriteFault>
    ensures whole { OnOk result (IsWritten output.old.bytes (text_of own_text_of ending.now) output.new.bytes) }
    ensures same { OnOk result (output.new.failures ≡ output.old.failures) }
    ensures cut { OnErr result (IsCut output.old.bytes (text_of own_text_of ending.now) output.new.bytes) }
    ensures failed { OnErr result (output.old.failures < output.new.failures) }
{
    write_text(output, ending)?;
    output.flush()
}
