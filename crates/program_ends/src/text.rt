// The text of an end.

ghost use Rattle.std.specs.Prelude.{◌≡◌, ◌<◌, OnErr, OnOk};
ghost use Rattle.program_ends.specs.Endings.{memory_text, rule_fault_name, rule_text, rules_text, text_of};
ghost use Rattle.sink.specs.Written.{IsCut, IsWritten};

use crate::ending::{Ending, OwnEnd};
use asked_rules::RuleFault;
use itoa::Buffer;
use sink::{Sink, WriteFault, put_all, put_parts};

// The name of a fault of a memory, of a rule, or of a rules file.
fn name_of_rule_fault(fault: RuleFault) -> &'static [u8]
    ensures { result.now ≡ rule_fault_name fault }
{
    match fault {
        RuleFault::NotToml => b"NotToml",
        RuleFault::TooMany => b"TooMany",
        RuleFault::UnknownKey => b"UnknownKey",
        RuleFault::Missing => b"Missing",
        RuleFault::WrongType => b"WrongType",
        RuleFault::BadName => b"BadName",
        RuleFault::UnknownField => b"UnknownField",
        RuleFault::UnknownName => b"UnknownName",
        RuleFault::UnknownMemory => b"UnknownMemory",
        RuleFault::SameName => b"SameName",
        RuleFault::UnknownHolder => b"UnknownHolder",
        RuleFault::Empty => b"Empty",
        RuleFault::TooDeep => b"TooDeep",
    }
}

/// Writes the text of an end. Takes no memory.
///
/// # Errors
///
/// `WriteFault` if the sink failed. Then the first bytes of the text went out, and no others.
pub fn write_text<End: OwnEnd, W: Sink>(w: &mut W, ending: &Ending<End>) -> Result<(), WriteFault>
    ensures whole { OnOk result (IsWritten (W.bytes w.old) (text_of End.text_of ending.now) (W.bytes w.new)) }
    ensures same { OnOk result (W.failures w.new ≡ W.failures w.old) }
    ensures cut { OnErr result (IsCut (W.bytes w.old) (text_of End.text_of ending.now) (W.bytes w.new)) }
    ensures failed { OnErr result (W.failures w.old < W.failures w.new) }
{
    match ending {
        Ending::Own(end) => end.write_text(w),
        Ending::BadUsage => put_all(w, b"REFUSED usage\n"),
        Ending::Unopened => put_all(w, b"REFUSED open\n"),
        Ending::BadRules(fault) => write_bad_rules(w, *fault),
        Ending::BadMemory { memory, fault } => write_bad_memory(w, *memory, *fault),
        Ending::BadRule { rule, fault } => write_bad_rule(w, *rule, *fault),
    }
}

// Writes the refusal of a rules file for this fault.
fn write_bad_rules<W: Sink>(w: &mut W, fault: RuleFault) -> Result<(), WriteFault>
    ensures whole { OnOk result (IsWritten (W.bytes w.old) (rules_text fault) (W.bytes w.new)) }
    ensures same { OnOk result (W.failures w.new ≡ W.failures w.old) }
    ensures cut { OnErr result (IsCut (W.bytes w.old) (rules_text fault) (W.bytes w.new)) }
    ensures failed { OnErr result (W.failures w.old < W.failures w.new) }
{
    put_parts(
        w,
        &[b"REFUSED rules fault=", name_of_rule_fault(fault), b"\n"],
    )
}

// Writes the refusal of the memory with this number for this fault.
fn write_bad_memory<W: Sink>(w: &mut W, memory: usize, fault: RuleFault) -> Result<(), WriteFault>
    ensures whole { OnOk result (IsWritten (W.bytes w.old) (memory_text memory fault) (W.bytes w.new)) }
    ensures same { OnOk result (W.failures w.new ≡ W.failures w.old) }
    ensures cut { OnErr result (IsCut (W.bytes w.old) (memory_text memory fault) (W.bytes w.new)) }
    ensures failed { OnErr result (W.failures w.old < W.failures w.new) }
{
    let mut number = Buffer::new();
    put_parts(
        w,
        &[
            b"REFUSED rules memory=",
            number.format(memory).as_bytes(),
            b" fault=",
            name_of_rule_fault(fault),
            b"\n",
        ],
    )
}

// Writes the refusal of the rule with this number for this fault.
fn write_bad_rule<W: Sink>(w: &mut W, rule: usize, fault: RuleFault) -> Result<(), WriteFault>
    ensures whole { OnOk result (IsWritten (W.bytes w.old) (rule_text rule fault) (W.bytes w.new)) }
    ensures same { OnOk result (W.failures w.new ≡ W.failures w.old) }
    ensures cut { OnErr result (IsCut (W.bytes w.old) (rule_text rule fault) (W.bytes w.new)) }
    ensures failed { OnErr result (W.failures w.old < W.failures w.new) }
{
    let mut number = Buffer::new();
    put_parts(
        w,
        &[
            b"REFUSED rules rule=",
            number.format(rule).as_bytes(),
            b" fault=",
            name_of_rule_fault(fault),
            b"\n",
        ],
    )
}
