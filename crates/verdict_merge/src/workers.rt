// Workers that claim the pieces of a round, let them judge its records, and post their results.

ghost use Rattle.std.specs.Prelude.{◌≡◌, ◌↔◌, Err, IfOk};
ghost use Rattle.apex_machine.specs.Runs.{ArePlaced, AreOfCores};
ghost use Rattle.user_rules.specs.Rules.{relations_of};
ghost use Rattle.verdict_merge.specs.Rounds.{AreGoing, AreJudgedOver};
ghost use Rattle.verdict_merge.specs.Contents.{AreGoingFrom, AreJudged, IsOpen, content_of, parts_held};

use crate::board::Board;
use crate::done::Done;
use crate::fault::Memory;
use crate::judged::Judged;
use crate::outcome::Lent;
use crate::round::{Naming, Round};
use crate::round_fault::RoundFault;
use piece_check::Piece;
use std::alloc::Global;
use std::marker::Brand;
use std::sync::{Mutex, Wait};
use std::thread;
use std::thread::Threads;
use user_rules::Rule;

/// Sees each claim and each post of a worker, while the board is free for the others.
pub trait Gate {
    /// This worker has claimed the piece of this number. It goes on once the call returns.
    fn at_claim(&self, worker: usize, piece: usize);

    /// This worker has posted the piece of this number. It goes on once the call returns.
    fn at_post(&self, worker: usize, piece: usize);

    /// The answer of the check is known, and nothing further is judged.
    fn at_answer(&self) {}
}

/// The gate that lets every worker through at once.
#[derive(Clone, Copy, Debug)]
pub struct Open;

impl Gate for Open {
    fn at_claim(&self, _worker: usize, _piece: usize) {}

    fn at_post(&self, _worker: usize, _piece: usize) {}
}

/// Lets the pieces judge the records of a round with this number of workers, each in a thread of its own if there are several. Returns
/// one result for each piece, at its number. A worker tests the views of its pieces by the rules.
///
/// NoWorkers if there is no worker. Memory if memory or a thread was refused. All threads are joined before the call returns.
pub fn run_round<G: Gate + Sync, R: Threads + Wait + Sync>(
    rt: &R,
    alloc: Global,
    lent: &Lent,
    rules: &[Rule],
    pieces: Vec<Piece>,
    workers: usize,
    gate: &G,
) -> Result<Vec<Judged>, RoundFault>
    requires going { AreGoing lent.now.config.now lent.now.first pieces.items }
    requires placed { ArePlaced lent.now.first lent.now.records.now }
    requires cores { AreOfCores lent.now.config.now.cores lent.now.records.now }
    ensures judged { IfOk result (λ judged. AreJudgedOver lent.now.config.now lent.now.first lent.now.records.now (relations_of rules.now) lent.now.keeps pieces.items judged.items) }
    ensures no_workers { result ≡ Err RoundFault.NoWorkers ↔ workers ≡ 0 }
{
    if workers == 0 {
        return Err(RoundFault::NoWorkers);
    }
    match judge_named::<Brand, G, R>(rt, alloc, lent, rules, pieces, workers, gate) {
        Ok(judged) => Ok(judged),
        Err(_) => Err(RoundFault::Memory),
    }
}

// The same of the round that J names.
fn judge_named<J: Naming + Send + Sync, G: Gate + Sync, R: Threads + Wait + Sync>(
    rt: &R,
    alloc: Global,
    lent: &Lent,
    rules: &[Rule],
    pieces: Vec<Piece>,
    workers: usize,
    gate: &G,
) -> Result<Vec<Judged>, Memory>
    requires named { content_of lent.now (relations_of rules.now) (parts_held pieces.items) ≡ J.round }
    requires open { IsOpen J.round }
    requires going { AreGoingFrom J.round.configuration J.round.first 0 pieces.items }
    ensures { IfOk result (λ judged. AreJudged J.round judged.items) }
{
    let board = match Board::new(alloc, Round::<J>::new(*lent, pieces)) {
        Ok(board) => Mutex::new(board),
        Err(memory) => return Err(memory),
    };
    let shared = &board;
    let worked = thread::map_indices(
        rt,
        alloc,
        workers,
        &|worker: usize|
            requires { relations_of rules.now ≡ J.round.relations }
        { work(rt, alloc, shared, rules, workers, worker, gate) },
    );
    if worked.is_err() {
        return Err(Memory);
    }
    board.into_inner().finish(alloc)
}

// One of this number of workers claims a piece, lets it judge the records, tests its views by the rules and posts its result, until no
// piece is left. If it is the only worker, no thread is started. Memory if memory was refused; the piece is then never posted.
fn work<J: Naming, G: Gate, R: Threads + Wait + Sync>(
    rt: &R,
    alloc: Global,
    board: &Mutex<Board<J>>,
    rules: &[Rule],
    workers: usize,
    worker: usize,
    gate: &G,
) -> Result<(), Memory>
    requires { relations_of rules.now ≡ J.round.relations }
{
    for _ in rt.forever() {
        let claimed = board.lock(rt).claim(worker);
        let Some(job) = claimed else {
            break;
        };
        let number = job.number();
        gate.at_claim(worker, number);
        let judged = if workers > 1 {
            job.run_by_threads(rt, alloc, rules)
        } else {
            job.run(alloc, rules)
        };
        let done = match judged {
            Ok(done) => done,
            Err(memory) => return Err(memory),
        };
        post(rt, board, done)?;
        gate.at_post(worker, number);
    }
    Ok(())
}

// Posts the result of a piece that its worker has claimed.
fn post<J: Naming, R: Wait>(rt: &R, board: &Mutex<Board<J>>, done: Done<J>) -> Result<(), Memory> {
    let posted = board.lock(rt).post(done);
    match posted {
        Ok(()) => Ok(()),
        Err(fault) => {
            fault.give_up();
            Err(Memory)
        }
    }
}
