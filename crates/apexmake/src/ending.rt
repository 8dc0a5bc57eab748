// How a run of the program ends.

ghost use Rattle.std.specs.Prelude.{◌≡◌};
ghost use Rattle.apexmake.specs.Endings.{ending_of_fault, ending_of_words, status_of};

use crate::usage::UsageFault;
use module_config::ConfigFault;
use recording_maker::MakeFault;
use report::{CheckFault, Verdict};

/// How a run of the program ends.
#[derive(Clone, Copy, Debug)]
pub enum Ending {
    /// Recordings were made, and their check answers with this verdict.
    Made(Verdict),
    /// A configuration was made.
    Module,
    /// The configuration is refused.
    BadConfig(ConfigFault),
    /// No record can be spoilt for the wanted cause.
    NotSpoilt,
    /// At some point, no record was found that the machine accepts next.
    Stuck,
    /// The check of what was made has another answer than the one that was asked for.
    Judged(Result<Verdict, CheckFault>),
    /// A recording that was made is in another format than the one that was asked for.
    OtherFormat,
    /// What was made is no configuration.
    NoModule(ConfigFault),
    /// The words of the command line are not those of the usage.
    BadUsage,
    /// The configuration could not be opened or read.
    Unopened,
    /// The folder has files, or cannot be looked at.
    NotFree,
    /// A file of the folder, or standard output, could not be written.
    Unwritten,
    /// Memory was refused.
    Memory,
    /// The version was requested.
    Version,
    /// The help was requested.
    Help,
}

impl Ending {
    /// The exit status: 0 if something was made, for the version and for the help, 2 for a refusal, 3 if memory is refused, and 4 if a file
    /// or standard output could not be written.
    pub fn status(&self) -> u8
        ensures { result ≡ status_of self.now }
    {
        match self {
            Ending::Made(_) | Ending::Module | Ending::Version | Ending::Help => 0,
            Ending::BadConfig(_) | Ending::NotSpoilt | Ending::Stuck => 2,
            Ending::Judged(_) | Ending::OtherFormat | Ending::NoModule(_) => 2,
            Ending::BadUsage | Ending::Unopened | Ending::NotFree => 2,
            Ending::Memory => 3,
            Ending::Unwritten => 4,
        }
    }
}

/// The end if no recordings were made.
pub fn refused_by(fault: MakeFault) -> Ending
    ensures { result ≡ ending_of_fault fault }
{
    match fault {
        MakeFault::Config(fault) => Ending::BadConfig(fault),
        MakeFault::NotSpoilt => Ending::NotSpoilt,
        MakeFault::Stuck => Ending::Stuck,
        MakeFault::Judged(outcome) => Ending::Judged(outcome),
        MakeFault::OtherFormat => Ending::OtherFormat,
        MakeFault::Memory => Ending::Memory,
    }
}

/// The end by a refusal of the command line.
pub fn refused_words(fault: UsageFault) -> Ending
    ensures { result ≡ ending_of_words fault }
{
    match fault {
        UsageFault::Usage => Ending::BadUsage,
        UsageFault::Memory => Ending::Memory,
    }
}
