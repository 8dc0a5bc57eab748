// Each piece judges the records of a round by itself.

ghost use Rattle.std.specs.Prelude.{◌<◌, IfOk, length};
ghost use Rattle.apex_machine.specs.Pieces.{pieces};
ghost use Rattle.apex_machine.specs.Runs.{ArePlaced, AreOfCores};
ghost use Rattle.user_rules.specs.Rules.{relations_of};
ghost use Rattle.verdict_merge.specs.Rounds.{AreGoing, AreJudgedOver, IsGoing, IsPieceJudged};

use crate::by_threads::judge_and_keep_all;
use crate::fault::Memory;
use crate::kept::Kept;
use crate::outcome::{Lent, PieceOutcome, go_over};
use piece_check::Piece;
use std::alloc::Global;
use user_rules::Rule;

/// A piece after the records of a round, with its outcome, and the views of the records that it judged, if it keeps them.
#[derive(Drop)]
pub struct Judged {
    pub piece: Piece,
    pub outcome: PieceOutcome,
    pub kept: Option<Kept>,
}

/// Lets the piece of this number judge the records of the round that touch it, up to the first that it rejects, and tests its views by
/// the rules. The views are kept if the round says so.
///
/// Memory if memory was refused; the piece is then given up.
pub fn judge_piece(
    alloc: Global,
    lent: &Lent,
    rules: &[Rule],
    number: usize,
    mut piece: Piece,
) -> Result<Judged, Memory>
    requires piece { number < length (pieces lent.now.config.now) }
    requires going { IsGoing lent.now.config.now number lent.now.first piece }
    requires placed { ArePlaced lent.now.first lent.now.records.now }
    requires cores { AreOfCores lent.now.config.now.cores lent.now.records.now }
    ensures { IfOk result (IsPieceJudged lent.now.config.now number lent.now.first lent.now.records.now (relations_of rules.now) lent.now.keeps piece) }
{
    if lent.keeps {
        return judge_and_keep_all(alloc, lent, rules, number, piece);
    }
    match go_over(lent, rules, number, &mut piece) {
        Ok(outcome) => Ok(Judged {
            piece,
            outcome,
            kept: None,
        }),
        Err(memory) => {
            drop(piece);
            Err(memory)
        }
    }
}

/// Lets each piece in turn judge the records that touch it, and tests its views by the rules. The answers are in the order of the
/// pieces' numbers.
///
/// Memory if memory was refused; the pieces are then given up.
pub fn judge_in_turn(
    alloc: Global,
    lent: &Lent,
    rules: &[Rule],
    pieces: Vec<Piece>,
) -> Result<Vec<Judged>, Memory>
    requires going { AreGoing lent.now.config.now lent.now.first pieces.items }
    requires placed { ArePlaced lent.now.first lent.now.records.now }
    requires cores { AreOfCores lent.now.config.now.cores lent.now.records.now }
    ensures { IfOk result (λ judged. AreJudgedOver lent.now.config.now lent.now.first lent.now.records.now (relations_of rules.now) lent.now.keeps pieces.items judged.items) }
{
    let Ok(mut judged) = Vec::with_capacity(alloc, pieces.len()) else {
        return Err(Memory);
    };
    'pieces: for piece in pieces {
        match judge_piece(alloc, lent, rules, judged.len(), piece) {
            Ok(one) => judged.push_reserved(one),
            Err(memory) => return Err(memory),
        }
    }
    Ok(judged)
}
