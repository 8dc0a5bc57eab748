// The history of a board.

ghost use Rattle.std.specs.Prelude.{◌≡◌};
ghost use Rattle.verdict_merge.specs.Logs.{claimant, is_posted, refusal_of};

use crate::round_fault::PostRefusal;

/// An event at a board: a worker claimed a piece, or posted its result. A piece is given by its number.
#[derive(Clone, Copy, Debug, PartialEq, Eq)]
pub enum Event {
    Claim { worker: usize, piece: usize },
    Post { worker: usize, piece: usize },
}

// The worker that has claimed the piece, if any.
fn find_claimant(log: &[Event], number: usize) -> Option<usize>
    ensures { result ≡ claimant log.now number }
{
    for event in log {
        if let Event::Claim { worker, piece } = *event {
            if piece == number {
                return Some(worker);
            }
        }
    }
    None
}

// Whether the piece is posted.
fn has_post(log: &[Event], number: usize) -> bool
    ensures { result ≡ is_posted log.now number }
{
    for event in log {
        if let Event::Post { worker: _, piece } = *event {
            if piece == number {
                return true;
            }
        }
    }
    false
}

// Why this worker's post of the piece is refused, if it is.
pub(crate) fn refusal(log: &[Event], worker: usize, number: usize) -> Option<PostRefusal>
    ensures { result ≡ refusal_of log.now worker number }
{
    match find_claimant(log, number) {
        None => Some(PostRefusal::NotClaimed),
        Some(by) => {
            if by != worker {
                Some(PostRefusal::Foreign)
            } else if has_post(log, number) {
                Some(PostRefusal::Repeated)
            } else {
                None
            }
        }
    }
}
