// The outcome of a round over all pieces.

ghost use Rattle.std.specs.Prelude.{◌≡◌, List, IfOk};
ghost use Rattle.apex_machine.specs.Runs.{ArePlaced, AreOfCores};
ghost use Rattle.piece_check.specs.Parts.{Holding};
ghost use Rattle.user_rules.specs.declared.relation.Relation.{Relation};
ghost use Rattle.verdict_merge.specs.Rounds.{AreGoing, AreJudgedOver, IsSurveyed, pieces_in};

use crate::breach::Breach;
use crate::fault::Memory;
use crate::finding::Refused;
use crate::gathering::Gathering;
use crate::judged::Judged;
use crate::outcome::Lent;
use piece_check::Piece;
use std::alloc::Global;

/// The outcome of a round over all pieces.
#[derive(Drop)]
pub struct Survey {
    /// The least refusal, if a piece rejected a record.
    pub found: Option<Refused>,
    /// The first view that breaks a rule, among the records up to the rejected one.
    pub breach: Option<Breach>,
    /// The pieces after the round.
    pub pieces: Vec<Piece>,
}

/// Gathers the outcomes of the pieces of a round, which are in the order of their numbers.
///
/// Memory if memory was refused.
pub fn gather_round(alloc: Global, lent: &Lent, judged: Vec<Judged>) -> Result<Survey, Memory>
    requires outcome { (relations : List Relation) × (old : List Holding) × AreGoing lent.now.config.now lent.now.first old × AreJudgedOver lent.now.config.now lent.now.first lent.now.records.now relations lent.now.keeps old judged.items }
    requires placed { ArePlaced lent.now.first lent.now.records.now }
    requires cores { AreOfCores lent.now.config.now.cores lent.now.records.now }
    ensures { (relations : List Relation) (old : List Holding) → AreGoing lent.now.config.now lent.now.first old → AreJudgedOver lent.now.config.now lent.now.first lent.now.records.now relations lent.now.keeps old judged.items → IfOk result (IsSurveyed lent.now.config.now lent.now.first lent.now.records.now relations old) }
{
    let mut gathering = Gathering::new();
    'pieces: for number in 0..judged.len() {
        gathering.take_in(&judged[number].outcome);
    }
    let breach = gathering.breach_in(lent.first, lent.records);
    let found = gathering.found;
    match pieces_left(alloc, judged) {
        Ok(pieces) => Ok(Survey {
            found,
            breach,
            pieces,
        }),
        Err(memory) => Err(memory),
    }
}

// The pieces after the round. Memory if memory is refused for their list.
fn pieces_left(alloc: Global, judged: Vec<Judged>) -> Result<Vec<Piece>, Memory>
    ensures { IfOk result (λ left. left.items ≡ pieces_in judged.items) }
{
    let Ok(mut left) = Vec::with_capacity(alloc, judged.len()) else {
        return Err(Memory);
    };
    'judged: for one in judged {
        let Judged {
            piece,
            outcome: _,
            kept,
        } = one;
        drop(kept);
        left.push_reserved(piece);
    }
    Ok(left)
}
