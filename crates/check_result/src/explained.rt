// The end of a run with what explains it.

use crate::ending::CheckEnd;
use answer_words::{Explainer, Reason};
use program_ends::Ending;

/// What is written of the end of a run over files, as a log or as data.
#[derive(Drop)]
pub struct Explained<'e, 'a> {
    /// How the run ends.
    pub ending: &'e Ending<CheckEnd>,
    /// What explains the end: what was noted of it, and the last records before the place of a No.
    pub explainer: &'a Explainer,
    /// Why the answer is not Yes. None after a Yes, or if only a note says why.
    pub reason: Option<Reason<'a>>,
    /// The exit status of the program.
    pub status: u8,
}
