// Numbers of processes as callers give them.

ghost use Rattle.std.specs.Prelude.{◌≡◌, None, MatchOption, pos};
ghost use Rattle.apex_machine.specs.Arguments.{natural_of};
ghost use Rattle.scheduling.specs.Numbers.{number_of};

use apex_types::ProcId;

/// The process number that a caller's number gives: 0 to 4,294,967,295; None for any other.
pub fn process_number(given: i64) -> Option<ProcId>
    ensures { result ≡ number_of given }
{
    if given >= 0 && given <= u32::MAX as i64 {
        Some(ProcId::new(given as u32))
    } else {
        None
    }
}

/// The same for a number as the definitions read it: 0 for a number below 0.
pub fn natural_number(given: i64) -> Option<ProcId>
    ensures { result ≡ number_of (pos (natural_of given)) }
{
    process_number(if given < 0 { 0 } else { given })
}

/// The process number that a call claims; None also if it claims none.
pub fn claimed_number(claimed: Option<i64>) -> Option<ProcId>
    ensures { MatchOption claimed (result ≡ None) (λ given. result ≡ number_of given) }
{
    match claimed {
        Some(given) => process_number(given),
        None => None,
    }
}
