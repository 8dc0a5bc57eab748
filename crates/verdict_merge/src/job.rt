// A piece that a worker has claimed.

ghost use Rattle.std.specs.Prelude.{◌≡◌, IfOk};
ghost use Rattle.user_rules.specs.Rules.{relations_of};
ghost use Rattle.verdict_merge.specs.Contents.{IsJudged};

use crate::by_threads::judge_piece_by_threads;
use crate::done::Done;
use crate::fault::Memory;
use crate::judged::judge_piece;
use crate::outcome::Lent;
use crate::round::Naming;
use piece_check::Piece;
use std::alloc::Global;
use std::marker::{Model, PhantomData};
use std::thread::Threads;
use user_rules::Rule;

/// A piece of the round that a worker has claimed.
#[derive(Drop)]
pub struct Job<'a, J: Naming> {
    pub(crate) worker: usize,
    pub(crate) number: usize,
    pub(crate) piece: Piece,
    pub(crate) lent: Lent<'a>,
    pub(crate) of: PhantomData<J>,
}

impl<'a, J: Naming> Model for Job<'a, J> {
    ghost use Rattle.std.specs.Prelude.{◌≡◌, ◌<◌, length};
    ghost use Rattle.verdict_merge.specs.Rounds.{IsGoing};
    ghost use Rattle.verdict_merge.specs.Contents.{Claimed, IsOpen, content_of, part_at};

    ghost Value = { Claimed };

    ghost view = { λ job. record { worker = job.worker; number = job.number; piece = job.piece } };

    ghost invariant = { λ job. (job.number < length J.round.parts) × (job.piece.part ≡ part_at J.round.parts job.number) × IsGoing J.round.configuration job.number J.round.first job.piece × (content_of job.lent J.round.relations J.round.parts ≡ J.round) × IsOpen J.round };
}

impl<'a, J: Naming> Job<'a, J> {
    /// The number of the piece.
    pub fn number(&self) -> usize
        ensures { result ≡ self.now.number }
    {
        self.number
    }

    /// Lets the piece judge the records of the round, and tests its views by the rules, which must mean the same as those of the round.
    ///
    /// Memory if the piece was refused memory; it is then given up.
    pub fn run(self, alloc: Global, rules: &[Rule]) -> Result<Done<J>, Memory>
        requires { relations_of rules.now ≡ J.round.relations }
        ensures worker { IfOk result (λ done. done.worker ≡ self.entry.worker) }
        ensures number { IfOk result (λ done. done.number ≡ self.entry.number) }
        ensures judged { IfOk result (λ done. IsJudged J.round done.number done.judged) }
    {
        let Job {
            worker,
            number,
            piece,
            lent,
            of: _,
        } = self;
        match judge_piece(alloc, &lent, rules, number, piece) {
            Ok(judged) => Ok(Done {
                worker,
                number,
                judged,
                of: PhantomData,
            }),
            Err(memory) => Err(memory),
        }
    }

    /// What `run` does. If there are many rules, several threads test the views.
    ///
    /// Memory if the piece was refused memory; it is then given up.
    pub fn run_by_threads<R: Threads + Sync>(
        self,
        rt: &R,
        alloc: Global,
        rules: &[Rule],
    ) -> Result<Done<J>, Memory>
        requires { relations_of rules.now ≡ J.round.relations }
        ensures worker { IfOk result (λ done. done.worker ≡ self.entry.worker) }
        ensures number { IfOk result (λ done. done.number ≡ self.entry.number) }
        ensures judged { IfOk result (λ done. IsJudged J.round done.number done.judged) }
    {
        let Job {
            worker,
            number,
            piece,
            lent,
            of: _,
        } = self;
        let judged = judge_piece_by_threads(rt, alloc, &lent, rules, number, piece);
        match judged {
            Ok(judged) => Ok(Done {
                worker,
                number,
                judged,
                of: PhantomData,
            }),
            Err(memory) => Err(memory),
        }
    }
}
