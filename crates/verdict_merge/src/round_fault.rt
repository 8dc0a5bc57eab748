// Why a board refuses a result, and why a round has none.

ghost use Rattle.std.specs.Prelude.{◌≡◌};

use crate::done::Done;
use crate::round::Naming;
use thiserror::Error;

/// Why a board refuses the result of a piece.
#[derive(Clone, Copy, Debug, Drop, PartialEq, Eq, Error)]
pub enum PostRefusal {
    /// Nobody has claimed the piece.
    #[error("no worker has claimed the piece")]
    NotClaimed,
    /// Another worker has claimed the piece.
    #[error("another worker has claimed the piece")]
    Foreign,
    /// The worker has posted the piece before.
    #[error("the piece is already posted")]
    Repeated,
}

/// A result that a board refused, and why.
pub struct PostFault<J: Naming> {
    pub refusal: PostRefusal,
    /// The refused result.
    pub done: Done<J>,
}

impl<J: Naming> PostFault<J> {
    /// Gives up the refused result, and returns the reason.
    pub fn give_up(self) -> PostRefusal
        ensures { result ≡ self.refusal }
    {
        let PostFault { refusal, done } = self;
        drop(done.into_judged());
        refusal
    }
}

/// Why a round has no results.
#[derive(Clone, Copy, Debug, Drop, PartialEq, Eq, Error)]
pub enum RoundFault {
    /// There is no worker.
    #[error("there is no worker")]
    NoWorkers,
    /// Memory or a thread was refused.
    #[error("out of memory")]
    Memory,
}
