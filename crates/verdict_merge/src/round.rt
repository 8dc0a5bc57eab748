// The round whose pieces are judged.

ghost use Rattle.std.specs.Prelude.{◌≡◌};
ghost use Rattle.verdict_merge.specs.Contents.{AreGoingFrom, IsOpen, content_of, parts_held};

use crate::outcome::Lent;
use piece_check::Piece;
use std::marker::{Brand, Model, PhantomData};

/// Names a round in the types of its board, its jobs and their results, so that a result of one round is not a result of another. The
/// caller that judges a round chooses it.
pub trait Naming {
    ghost use Rattle.verdict_merge.specs.Contents.{Content};

    ghost round: { Content };
}

impl Naming for Brand {
    ghost use Rattle.verdict_merge.specs.Contents.{no_content};

    ghost round = { no_content };
}

/// A round: the pieces, and what is lent to them. A contract sees which round it is.
#[derive(Drop)]
pub struct Round<'a, J: Naming> {
    pub(crate) lent: Lent<'a>,
    pub(crate) pieces: Vec<Piece>,
    pub(crate) of: PhantomData<J>,
}

impl<'a, J: Naming> Model for Round<'a, J> {
    ghost use Rattle.std.specs.Coded.{codes};
    ghost use Rattle.std.specs.Prelude.{◌≡◌};
    ghost use Rattle.user_rules.specs.contracts.relation.Relation as relation;
    ghost use Rattle.verdict_merge.specs.Contents.{AreGoingFrom, Content, IsOpen, content_of, parts_held};

    ghost Value = { Content };

    ghost coded = { Prim.hlevel (codes, relation.the_row.coded) };

    ghost view = { λ round. content_of round.lent J.round.relations (parts_held round.pieces.items) };

    ghost invariant = { λ round. (content_of round.lent J.round.relations (parts_held round.pieces.items) ≡ J.round) × IsOpen J.round × AreGoingFrom J.round.configuration J.round.first 0 round.pieces.items };
}

impl<'a, J: Naming> Round<'a, J> {
    /// The round in which these pieces judge the lent records. Takes no memory.
    pub fn new(lent: Lent<'a>, pieces: Vec<Piece>) -> Round<'a, J>
        requires named { content_of lent J.round.relations (parts_held pieces.items) ≡ J.round }
        requires open { IsOpen J.round }
        requires going { AreGoingFrom J.round.configuration J.round.first 0 pieces.items }
        ensures { result ≡ content_of lent.entry J.round.relations (parts_held pieces.items) }
    {
        Round {
            lent,
            pieces,
            of: PhantomData,
        }
    }
}
