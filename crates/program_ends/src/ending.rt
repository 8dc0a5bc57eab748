// How a run ends, and its exit status.

ghost use Rattle.std.specs.Prelude.{◌≡◌, ◌<◌, OnErr, OnOk};
ghost use Rattle.program_ends.specs.Endings.{exit_status_of};
ghost use Rattle.sink.specs.Written.{IsCut, IsWritten};

use asked_rules::RuleFault;
use report::CheckFault;
use sink::{Sink, WriteFault};

/// The exit status if standard output could not be written.
pub const UNWRITTEN: u8 = 4;

/// How a run ends.
#[derive(Drop)]
pub enum Ending<End> {
    /// It ends in a way of the program's own. A lack of memory is one.
    Own(End),
    /// The words of the command line are not those of the usage.
    BadUsage,
    /// A file could not be opened, or the configuration or the rules file could not be read.
    Unopened,
    /// The rules file has this fault, outside of its memories and rules.
    BadRules(RuleFault),
    /// The memory with this number in the rules file, counted from 0, has this fault.
    BadMemory { memory: usize, fault: RuleFault },
    /// The rule with this number in the rules file, counted from 0, has this fault.
    BadRule { rule: usize, fault: RuleFault },
}

/// The ends that only one program has.
pub trait OwnEnd {
    ghost use Rattle.std.specs.Prelude.{ℕ, List};
    ghost use Rattle.report.specs.declared.fault.CheckFault.{CheckFault as Fault};

    // The end by a refusal of an input, or by a lack of memory.
    ghost refusing: { Fault → Self };

    // Its exit status.
    ghost status_of: { Self → ℕ };

    // Its text.
    ghost text_of: { Self → List ℕ };

    /// The end by a refusal of an input, or by a lack of memory.
    fn refusing(fault: CheckFault) -> Self
        ensures { result ≡ refusing fault };

    /// Its exit status. Takes no memory.
    fn status(&self) -> u8
        ensures { result ≡ status_of self.now };

    /// Writes its text. Takes no memory.
    ///
    /// # Errors
    ///
    /// `WriteFault` if the sink failed. Then the first bytes of the text went out, and no others.
    fn write_text<W: Sink>(&self, w: &mut W) -> Result<(), WriteFault>
        ensures whole { OnOk result (IsWritten (W.bytes w.old) (text_of self.now) (W.bytes w.new)) }
        ensures same { OnOk result (W.failures w.new ≡ W.failures w.old) }
        ensures cut { OnErr result (IsCut (W.bytes w.old) (text_of self.now) (W.bytes w.new)) }
        ensures failed { OnErr result (W.failures w.old < W.failures w.new) };
}

/// The exit status of an end: that of the program's own end, or 2. Takes no memory.
pub fn status_of<End: OwnEnd>(ending: &Ending<End>) -> u8
    ensures value { result ≡ exit_status_of End.status_of ending.now }
{
    match ending {
        Ending::Own(end) => end.status(),
        Ending::BadUsage
        | Ending::Unopened
        | Ending::BadRules(_)
        | Ending::BadMemory { .. }
        | Ending::BadRule { .. } => 2,
    }
}
