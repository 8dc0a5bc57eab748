// The board of a round: which pieces are left, which worker has claimed which piece, and what was posted.

ghost use Rattle.std.specs.Prelude.{◌≡◌, ◌<◌, ◌*◌, ◌≤◌, ◌++◌, [], ◌∷◌, All, IfErr, IfNone, IfOk, IfSome, None, OnErr, OnOk, Some, false, length};
ghost use Rattle.std.specs.Vec.{vec_capacity};
ghost use Rattle.verdict_merge.specs.Contents.{AreJudged, part_at};
ghost use Rattle.verdict_merge.specs.Logs.{AreAllClaimed, IsFirstLeft, IsLegal, claimant, is_posted, refusal_of};
ghost use Rattle.verdict_merge.specs.declared.log.Event.TheVariants.{Claim, Post};

use crate::done::Done;
use crate::fault::Memory;
use crate::job::Job;
use crate::judged::Judged;
use crate::log::{Event, refusal};
use crate::outcome::Lent;
use crate::round::{Naming, Round};
use crate::round_fault::PostFault;
use piece_check::Piece;
use std::alloc::Global;
use std::collections::VecDeque;
use std::marker::{Model, PhantomData};

/// The board of a round. A contract sees its history, which is legal.
#[derive(Drop)]
pub struct Board<'a, J: Naming> {
    lent: Lent<'a>,
    left: VecDeque<Piece>,
    claimed: usize,
    log: Vec<Event>,
    places: Vec<Option<Judged>>,
    of: PhantomData<J>,
}

impl<'a, J: Naming> Model for Board<'a, J> {
    ghost use Rattle.std.specs.Prelude.{◌≡◌, ◌≤◌, ◌*◌, List, length};
    ghost use Rattle.std.specs.Vec.{vec_capacity};
    ghost use Rattle.verdict_merge.specs.declared.log.Event.{Event};
    ghost use Rattle.verdict_merge.specs.Boards.{IsBoard};
    ghost use Rattle.verdict_merge.specs.Contents.{AreGoingFrom, IsOpen, content_of, parts_held};

    ghost Value = { List Event };

    ghost view = { λ board. board.log.items };

    ghost invariant = { λ board. (content_of board.lent J.round.relations J.round.parts ≡ J.round) × IsOpen J.round × (2 * length J.round.parts ≤ vec_capacity board.log) × AreGoingFrom J.round.configuration J.round.first board.claimed board.left.items × IsBoard J.round (parts_held board.left.items) board.claimed board.log.items board.places.items };
}

impl<'a, J: Naming> Board<'a, J> {
    /// The board of a round in which no piece is claimed. Its room is reserved, so claims and posts take no memory.
    ///
    /// Memory if memory was refused; the round is then given up.
    pub fn new(alloc: Global, round: Round<'a, J>) -> Result<Board<'a, J>, Memory>
        ensures { IfOk result (λ board. board ≡ []) }
    {
        let Round {
            lent,
            pieces,
            of: _,
        } = round;
        let Ok(log) = log_for(alloc, pieces.len()) else {
            return Err(Memory);
        };
        let Ok(places) = empty_places(alloc, pieces.len()) else {
            return Err(Memory);
        };
        Ok(Board {
            lent,
            left: VecDeque::from_vec(pieces),
            claimed: 0,
            log,
            places,
            of: PhantomData,
        })
    }

    /// The history so far.
    pub fn log(&self) -> &[Event]
        ensures log { result.now ≡ self.now }
        ensures legal { IsLegal (length J.round.parts) self.now }
    {
        self.log.as_slice()
    }

    /// Gives a worker the first piece that nobody has claimed, or None if every piece has been claimed. Takes no memory.
    pub fn claim(&mut self, worker: usize) -> Option<Job<'a, J>>
        ensures claimed { IfSome result (λ job. self.new ≡ self.old ++ Claim worker job.number ∷ []) }
        ensures first { IfSome result (λ job. IsFirstLeft (length J.round.parts) self.old job.number) }
        ensures piece { IfSome result (λ job. job.piece.part ≡ part_at J.round.parts job.number) }
        ensures worker { IfSome result (λ job. job.worker ≡ worker) }
        ensures all_claimed { IfNone result (AreAllClaimed (length J.round.parts) self.old) }
        ensures unchanged { IfNone result (self.new ≡ self.old) }
    {
        let piece = self.left.pop_front()?;
        let number = self.claimed;
        self.claimed += 1;
        self.log.push_reserved(Event::Claim {
            worker,
            piece: number,
        });
        Some(Job {
            worker,
            number,
            piece,
            lent: self.lent,
            of: PhantomData,
        })
    }

    /// Keeps the result of a piece. Takes no memory.
    ///
    /// A refused result is given back, and nothing is changed: NotClaimed if nobody has claimed the piece, Foreign if another worker
    /// has, and Repeated if its worker has posted it before.
    pub fn post(&mut self, done: Done<J>) -> Result<(), PostFault<J>>
        ensures posted { OnOk result (self.new ≡ self.old ++ Post done.worker done.number ∷ []) }
        ensures may { OnOk result (refusal_of self.old done.worker done.number ≡ None) }
        ensures refused { IfErr result (λ fault. refusal_of self.old done.worker done.number ≡ Some fault.refusal) }
        ensures given_back { IfErr result (λ fault. fault.done ≡ done) }
        ensures unchanged { OnErr result (self.new ≡ self.old) }
    {
        if let Some(refusal) = refusal(&self.log, done.worker(), done.number()) {
            return Err(PostFault { refusal, done });
        }
        self.keep(done);
        Ok(())
    }

    // Keeps the result of a piece that its worker has claimed and that is not posted yet.
    fn keep(&mut self, done: Done<J>)
        requires claimed { claimant self.old done.number ≡ Some done.worker }
        requires first { is_posted self.old done.number ≡ false }
        ensures { self.new ≡ self.old ++ Post done.worker done.number ∷ [] }
    {
        let number = done.number();
        self.log.push_reserved(Event::Post {
            worker: done.worker(),
            piece: number,
        });
        // An assignment would drop the former value part by part, and each part would be a step of this proof.
        drop(self.places[number].replace(done.into_judged()));
    }

    /// The results of all pieces, each at its number.
    ///
    /// Memory if memory was refused, here or to a worker that has left a piece without a post.
    pub fn finish(self, alloc: Global) -> Result<Vec<Judged>, Memory>
        ensures { IfOk result (λ judged. AreJudged J.round judged.items) }
    {
        let Board {
            lent: _,
            left: _,
            claimed: _,
            log: _,
            places,
            of: _,
        } = self;
        let Ok(mut judged) = Vec::with_capacity(alloc, places.len()) else {
            return Err(Memory);
        };
        'places: for place in places {
            match place {
                Some(one) => judged.push_reserved(one),
                None => return Err(Memory),
            }
        }
        Ok(judged)
    }
}

// A history with room for a claim and a post of each of this many pieces.
fn log_for(alloc: Global, count: usize) -> Result<Vec<Event>, Memory>
    ensures none { IfOk result (λ log. log.items ≡ []) }
    ensures room { IfOk result (λ log. 2 * count ≤ vec_capacity log) }
{
    let Some(room) = count.checked_mul(2) else {
        return Err(Memory);
    };
    match Vec::with_capacity(alloc, room) {
        Ok(log) => Ok(log),
        Err(_) => Err(Memory),
    }
}

// A place without a value for each of this many pieces.
fn empty_places(alloc: Global, count: usize) -> Result<Vec<Option<Judged>>, Memory>
    ensures count { IfOk result (λ places. length places.items ≡ count) }
    ensures none { IfOk result (λ places. All (λ place. place ≡ None) places.items) }
{
    let Ok(mut places) = Vec::with_capacity(alloc, count) else {
        return Err(Memory);
    };
    'places: for _place in 0..count {
        places.push_reserved(None);
    }
    Ok(places)
}
