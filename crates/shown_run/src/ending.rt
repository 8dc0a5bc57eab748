// The ends that only a run that is shown has.

ghost use Rattle.shown_run.specs.Endings.{own_status_of, own_text_of, refusing};

use program_ends::{OwnEnd, UNWRITTEN};
use report::{CheckFault, Verdict, status_of_outcome, write_report};
use sink::{Sink, WriteFault, put_all};

/// How a run ends that was not kept from what was requested.
#[derive(Drop)]
pub enum ViewEnd {
    /// The check came to an outcome. A lack of memory before it or after it counts as the check's own `Memory`.
    Checked(Result<Verdict, CheckFault>),
    /// Standard output could not be written.
    Unwritten,
    /// The version was requested.
    Version,
    /// The help was requested.
    Help,
}

impl OwnEnd for ViewEnd {
    ghost refusing = { refusing };

    ghost status_of = { own_status_of };

    ghost text_of = { own_text_of };

    fn refusing(fault: CheckFault) -> ViewEnd {
        ViewEnd::Checked(Err(fault))
    }

    fn status(&self) -> u8 {
        match self {
            ViewEnd::Checked(outcome) => status_of_outcome(outcome),
            ViewEnd::Version | ViewEnd::Help => 0,
            ViewEnd::Unwritten => UNWRITTEN,
        }
    }

    // The line of a check, as `apexcheck` prints it.
    fn write_text<W: Sink>(&self, w: &mut W) -> Result<(), WriteFault> {
        match self {
            ViewEnd::Checked(outcome) => write_report(w, outcome),
            ViewEnd::Version | ViewEnd::Help => put_all(w, b""),
            ViewEnd::Unwritten => put_all(w, b"apexview: standard output could not be written\n"),
        }
    }
}
