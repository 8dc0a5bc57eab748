// What no clause says: that several threads claim pieces at the same time, and what a board says when it refuses.

ghost use Rattle.std.specs.Prelude.{◌≡◌, [], IfOk, IfSome};
ghost use Rattle.apex_machine.specs.Runs.{ArePlaced, AreOfCores};
ghost use Rattle.piece_check.specs.Touching.{AreSortedOut, indices_of};
ghost use Rattle.verdict_merge.specs.Contents.{AreGoingFrom, IsOpen, content_of, parts_held};

use crate::gates::Meeting;
use crate::records::{config_of, records_of};
use crate::rule;
use crate::texts::{BOTH, MODULE, RECEIVER, SENDER};
use apex_types::{Body, Cause, CoreId, Field, Ordered, PartId, Place, ProcId, Record, Who, Woken};
use module_config::Config;
use piece_check::{Piece, Touched};
use std::alloc::{AllocError, Global};
use std::marker::Brand;
use std::sync::Wait;
use std::test::Fail;
use std::thread::Threads;
use user_rules::{Quantity, Relation, Rule};
use verdict_merge::{
    Board, Done, Gate, Judged, Lent, Naming, Open, PostFault, PostRefusal, Refused, Round,
    RoundFault, run_round, start_pieces,
};

// A record at its place.
fn ordered(pos: Place, core: u8, body: Body) -> Ordered
    ensures place { result.pos ≡ pos }
    ensures core { result.core ≡ core }
{
    Ordered {
        pos,
        core: CoreId::new(core),
        rec: Record { seq: 0, body },
    }
}

// The core is given to the process of this number.
fn dispatch(pos: Place, core: u8, process: u32) -> Ordered
    ensures place { result.pos ≡ pos }
    ensures core { result.core ≡ core }
{
    let who = Who {
        part: PartId::new(core),
        proc: ProcId::new(process),
    };
    ordered(pos, core, Body::Disp(Some(who)))
}

// A tick of core 0.
fn tick(alloc: Global, pos: Place) -> Ordered
    ensures place { result.pos ≡ pos }
    ensures core { result.core ≡ 0 }
{
    ordered(pos, 0, Body::Tick(Woken::none(alloc)))
}

// Partition 1 has no process 3, so it rejects place 1; and the seventh tick is one ahead of the skew, so the module rejects place 8.
fn refused_records(alloc: Global) -> Result<Vec<Ordered>, AllocError>
    ensures placed { IfOk result (λ records. ArePlaced 0 records.items) }
    ensures cores { IfOk result (λ records. AreOfCores 2 records.items) }
{
    let records = vec![in alloc;
        dispatch(Place::new(0), 0, 0),
        dispatch(Place::new(1), 1, 3),
        tick(alloc, Place::new(2)),
        tick(alloc, Place::new(3)),
        tick(alloc, Place::new(4)),
        tick(alloc, Place::new(5)),
        tick(alloc, Place::new(6)),
        tick(alloc, Place::new(7)),
        tick(alloc, Place::new(8)),
    ]?;
    Ok(records)
}

// Which records touch each piece.
fn sort_out(alloc: Global, config: &Config, records: &[Ordered]) -> Option<Touched>
    ensures { IfSome result (λ touched. AreSortedOut config.now records.now (indices_of touched)) }
{
    let mut touched = Touched::new(alloc).ok()?;
    touched.sort_out(config, records).ok()?;
    Some(touched)
}

// What the round of these records makes of each piece under these rules, with this many workers.
fn judge_all<G: Gate + Sync, R: Threads + Wait + Sync>(
    rt: &R,
    alloc: Global,
    records: &[Ordered],
    rules: &[Rule],
    workers: usize,
    gate: &G,
) -> Result<Vec<Judged>, RoundFault>
    requires placed { ArePlaced 0 records.now }
    requires cores { AreOfCores 2 records.now }
{
    let config = config_of(alloc, MODULE, 2).ok_or(RoundFault::Memory)?;
    let touched = sort_out(alloc, &config, records).ok_or(RoundFault::Memory)?;
    let Ok(pieces) = start_pieces(alloc, &config) else {
        return Err(RoundFault::Memory);
    };
    let lent = Lent::new(&config, 0, records, &touched);
    run_round(rt, alloc, &lent, rules, pieces, workers, gate)
}

// What is expected of the piece of this number: its refusal, and the index of the first record whose view breaks the rule, if there is one.
// The module sees dispatches and ticks, the first tick at index 2; the other pieces see none of these.
fn has_come(number: usize, ruled: bool, one: &Judged) -> bool {
    let (place, cause) = match number {
        0 => (8, Cause::Skew),
        2 => (1, Cause::Choice),
        _ => return one.outcome.found.is_none() && one.outcome.breach.is_none(),
    };
    let found = Refused {
        pos: Place::new(place),
        piece: number,
        cause,
    };
    let index = one.outcome.breach.map(|breach| breach.seen.index);
    let first_tick = if ruled && number == 0 { Some(2) } else { None };
    one.outcome.found == Some(found) && index == first_tick
}

// Whether what is expected of all five pieces was reported.
fn have_come(ruled: bool, all: &[Judged]) -> bool {
    all.len() == 5
        && all
            .iter()
            .enumerate()
            .all(|(number, one)| has_come(number, ruled, one))
}

// With a rule that each tick breaks, and with none.
#[test]
fn any_number_of_workers_gives_the_same(rt: HostRuntime) -> Result<(), Fail> {
    let alloc = rt.alloc();
    let records = refused_records(alloc)?;
    let mut rules = Vec::new(alloc);
    rules.push(rule!(
        alloc,
        Relation::Less(Quantity::Field(Field::Kind), Quantity::Number(3))
    ))?;
    for workers in [1, 2, 5] {
        let ruled = judge_all(&rt, alloc, &records, &rules, workers, &Open)?;
        assert!(rt; have_come(true, &ruled), "workers under a rule: {workers}");
        let all = judge_all(&rt, alloc, &records, &[], workers, &Open)?;
        assert!(rt; have_come(false, &all), "workers: {workers}");
    }
    Ok(())
}

#[test]
fn no_worker_is_refused(rt: HostRuntime) -> Result<(), Fail> {
    let judged = judge_all(&rt, rt.alloc(), &[], &[], 0, &Open);
    assert!(rt; matches!(judged, Err(RoundFault::NoWorkers)));
    Ok(())
}

// Whether no piece rejects a record.
fn all_went(all: &[Judged]) -> bool {
    all.len() == 5 && all.iter().all(|one| one.outcome.found.is_none())
}

// A worker that is held makes no claim. So if all five claims saw this many others, as many threads held a piece at the same time.
#[test]
fn two_claims_meet(rt: HostRuntime) -> Result<(), Fail> {
    let alloc = rt.alloc();
    let recordings = vec![in alloc; SENDER.as_bytes(), RECEIVER.as_bytes()]?;
    let records = records_of(rt, alloc, recordings, BOTH)?;
    for workers in [2, 5] {
        let gate = Meeting::new(5, workers);
        let judged = judge_all(&rt, alloc, &records, &[], workers, &gate)?;
        assert!(rt; all_went(&judged), "workers: {workers}");
        assert_eq!(rt; gate.met(), 5, "workers: {workers}");
    }
    Ok(())
}

// Two workers hold any two of the five pieces at the same time.
#[test]
fn every_two_claims_meet(rt: HostRuntime) -> Result<(), Fail> {
    let alloc = rt.alloc();
    let recordings = vec![in alloc; SENDER.as_bytes(), RECEIVER.as_bytes()]?;
    let records = records_of(rt, alloc, recordings, BOTH)?;
    for first in 0..5 {
        for second in first + 1..5 {
            let gate = Meeting::of_two(first, second);
            let judged = judge_all(&rt, alloc, &records, &[], 2, &gate)?;
            assert!(rt; all_went(&judged), "{first} and {second}");
            assert_eq!(rt; gate.met(), 2, "{first} and {second}");
        }
    }
    Ok(())
}

// What a board says of what it refuses, and how many events its history then has.
#[derive(Clone, Copy, Debug, PartialEq, Eq)]
struct RefusedPost {
    refusal: PostRefusal,
    worker: usize,
    number: usize,
    events: usize,
}

// Posts what is refused, and returns it with what the board says; none if it is not refused.
fn refuse<J: Naming>(board: &mut Board<J>, done: Done<J>) -> Option<(RefusedPost, PostFault<J>)> {
    match board.post(done) {
        Ok(()) => None,
        Err(fault) => {
            let refused = RefusedPost {
                refusal: fault.refusal,
                worker: fault.done.worker(),
                number: fault.done.number(),
                events: board.log().len(),
            };
            Some((refused, fault))
        }
    }
}

// What a board says of what it refuses, which is given up.
fn refusal_by<J: Naming>(board: &mut Board<J>, done: Done<J>) -> Option<RefusedPost> {
    let (refused, fault) = refuse(board, done)?;
    fault.give_up();
    Some(refused)
}

// The outcome of the next piece of the board, claimed by this worker.
fn finish_next<J: Naming>(alloc: Global, board: &mut Board<J>, worker: usize) -> Option<Done<J>>
    requires { J.round.relations ≡ [] }
{
    board.claim(worker)?.run(alloc, &[]).ok()
}

// Claims the next piece of the board by this worker, and posts its outcome.
fn post_next<J: Naming>(alloc: Global, board: &mut Board<J>, worker: usize) -> bool
    requires { J.round.relations ≡ [] }
{
    match finish_next(alloc, board, worker) {
        Some(done) => refusal_by(board, done).is_none(),
        None => false,
    }
}

// Posts to a board what another board's worker 1 made of the first piece, before and after that piece is claimed and posted by a
// worker 1 of its own.
fn refuse_first<J: Naming>(
    alloc: Global,
    board: &mut Board<J>,
    other: &mut Board<J>,
) -> Option<[RefusedPost; 2]>
    requires { J.round.relations ≡ [] }
{
    let done = finish_next(alloc, other, 1)?;
    let (not_claimed, PostFault { refusal: _, done }) = refuse(board, done)?;
    let posted = post_next(alloc, board, 1);
    match refusal_by(board, done) {
        Some(repeated) if posted => Some([not_claimed, repeated]),
        _ => None,
    }
}

// Posts to a board, where worker 3 has claimed the next piece, what another board's worker 2 made of it.
fn refuse_next<J: Naming>(
    alloc: Global,
    board: &mut Board<J>,
    other: &mut Board<J>,
) -> Option<RefusedPost>
    requires { J.round.relations ≡ [] }
{
    drop(board.claim(3)?);
    let done = finish_next(alloc, other, 2)?;
    refusal_by(board, done)
}

// The three refusals, by two boards of one round under no rule.
fn refuse_all<J: Naming>(
    alloc: Global,
    lent: &Lent,
    pieces: Vec<Piece>,
    others: Vec<Piece>,
) -> Option<[RefusedPost; 3]>
    requires named { content_of lent.now [] (parts_held pieces.items) ≡ J.round }
    requires other_named { content_of lent.now [] (parts_held others.items) ≡ J.round }
    requires open { IsOpen J.round }
    requires going { AreGoingFrom J.round.configuration J.round.first 0 pieces.items }
    requires other_going { AreGoingFrom J.round.configuration J.round.first 0 others.items }
{
    let mut board = Board::new(alloc, Round::<J>::new(*lent, pieces)).ok()?;
    let mut other = Board::new(alloc, Round::<J>::new(*lent, others)).ok()?;
    let [not_claimed, repeated] = refuse_first(alloc, &mut board, &mut other)?;
    let foreign = refuse_next(alloc, &mut board, &mut other)?;
    Some([not_claimed, repeated, foreign])
}

// The same, for the round that the tests judge.
fn refuse_in_round(alloc: Global) -> Option<[RefusedPost; 3]> {
    let config = config_of(alloc, MODULE, 2)?;
    let records = refused_records(alloc).ok()?;
    let touched = sort_out(alloc, &config, &records)?;
    let Ok(pieces) = start_pieces(alloc, &config) else {
        return None;
    };
    let Ok(others) = start_pieces(alloc, &config) else {
        return None;
    };
    let lent = Lent::new(&config, 0, &records, &touched);
    refuse_all::<Brand>(alloc, &lent, pieces, others)
}

#[test]
fn a_board_gives_back_what_it_refuses(rt: HostRuntime) -> Result<(), Fail> {
    let refused = refuse_in_round(rt.alloc());
    let wanted = [
        (PostRefusal::NotClaimed, 1, 0, 0),
        (PostRefusal::Repeated, 1, 0, 2),
        (PostRefusal::Foreign, 2, 1, 3),
    ];
    let wanted = wanted.map(|(refusal, worker, number, events)| RefusedPost {
        refusal,
        worker,
        number,
        events,
    });
    assert_eq!(rt; refused, Some(wanted));
    Ok(())
}
