// The result of a piece that a worker had claimed.

ghost use Rattle.std.specs.Prelude.{◌≡◌, ◌<◌, length};
ghost use Rattle.verdict_merge.specs.Contents.{IsJudged};

use crate::judged::Judged;
use crate::round::Naming;
use std::marker::{Model, PhantomData};

/// The result of a piece of the round. By its type, it is what this very piece made of the records. It cannot be dropped: a board
/// takes it by `post`, or it is given up with the fault that `post` returns.
pub struct Done<J: Naming> {
    pub(crate) worker: usize,
    pub(crate) number: usize,
    pub(crate) judged: Judged,
    pub(crate) of: PhantomData<J>,
}

impl<J: Naming> Model for Done<J> {
    ghost use Rattle.std.specs.Prelude.{◌<◌, length};
    ghost use Rattle.verdict_merge.specs.Contents.{Finished, IsJudged};

    ghost Value = { Finished };

    ghost view = { λ done. record { worker = done.worker; number = done.number; judged = done.judged } };

    ghost invariant = { λ done. (done.number < length J.round.parts) × IsJudged J.round done.number done.judged };
}

impl<J: Naming> Done<J> {
    /// The number of the worker that has claimed the piece.
    pub fn worker(&self) -> usize
        ensures { result ≡ self.now.worker }
    {
        self.worker
    }

    /// The number of the piece.
    pub fn number(&self) -> usize
        ensures number { result ≡ self.now.number }
        ensures within { result < length J.round.parts }
    {
        self.number
    }

    /// The result of the piece.
    pub(crate) fn into_judged(self) -> Judged
        ensures value { result ≡ self.judged }
        ensures judged { IsJudged J.round self.number result }
    {
        let Done {
            worker: _,
            number: _,
            judged: outcome,
            of: _,
        } = self;
        outcome
    }
}
