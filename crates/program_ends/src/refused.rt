// The ends of runs that are refused, or that lack memory.

ghost use Rattle.std.specs.Prelude.{◌≡◌};
ghost use Rattle.program_ends.specs.Endings.{out_of_memory, refused_rules, refused_words};

use crate::ending::{Ending, OwnEnd};
use asked_rules::RulesFault;
use report::CheckFault;
use std::alloc::{AllocError, AllocFailed};

/// Why a command line requests nothing that can be done.
#[derive(Clone, Copy, Debug, PartialEq, Eq)]
pub enum UsageFault {
    /// The words are not those of the usage. A word that is not UTF-8 is not one of them.
    Usage,
    /// Memory was refused.
    Memory,
}

impl From<AllocError> for UsageFault {
    fn from(_: AllocError) -> UsageFault {
        UsageFault::Memory
    }
}

impl<T: Drop> From<AllocFailed<T>> for UsageFault {
    fn from(_: AllocFailed<T>) -> UsageFault {
        UsageFault::Memory
    }
}

/// The end by a lack of memory.
pub fn out_of_memory<End: OwnEnd>() -> Ending<End>
    ensures { result ≡ out_of_memory End.refusing }
{
    Ending::Own(End::refusing(CheckFault::Memory))
}

/// The end by a refusal of the command line. A lack of memory counts as the program's own.
pub fn refused_words<End: OwnEnd>(fault: UsageFault) -> Ending<End>
    ensures { result ≡ refused_words End.refusing fault }
{
    match fault {
        UsageFault::Usage => Ending::BadUsage,
        UsageFault::Memory => out_of_memory(),
    }
}

/// The end by a refusal of a rules file. A lack of memory counts as the program's own.
pub fn refused_rules<End: OwnEnd>(fault: RulesFault) -> Ending<End>
    ensures { result ≡ refused_rules End.refusing fault }
{
    match fault {
        RulesFault::File(fault) => Ending::BadRules(fault),
        RulesFault::RuleMemory { memory, fault } => Ending::BadMemory { memory, fault },
        RulesFault::Rule { rule, fault } => Ending::BadRule { rule, fault },
        RulesFault::Memory => out_of_memory(),
    }
}
