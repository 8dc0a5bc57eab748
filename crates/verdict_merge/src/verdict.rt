// The verdict, and what decides against a recording in a round.

ghost use Rattle.std.specs.Prelude.{◌≡◌, ◌<◌, ℕ, IfSome, length};
ghost use Rattle.apex_machine.specs.Runs.{ArePlaced};
ghost use Rattle.verdict_merge.specs.Verdicts.{against, no_of};
ghost use Rattle.verdict_merge.specs.Views.{broken_of};

use crate::breach::Breach;
use crate::finding::Refused;
use apex_types::{Cause, Ordered, Place};

/// The verdict over a recording.
#[derive(Clone, Copy, Debug, PartialEq, Eq)]
pub enum Verdict {
    /// The recording is lawful and each rule holds, with the number of its records.
    Yes {
        records: u64,
    },
    /// The record at this place is not lawful: this piece rejects it, for this cause.
    No {
        pos: Place,
        piece: usize,
        cause: Cause,
    },
    /// The view of the record at this place breaks the rule of this number, counted from 0.
    Broken {
        pos: Place,
        rule: usize,
    },
}

impl Verdict {
    /// The No that a piece's refusal gives.
    pub fn no(found: Refused) -> Verdict
        ensures { result ≡ no_of found }
    {
        Verdict::No {
            pos: found.pos,
            piece: found.piece,
            cause: found.cause,
        }
    }

    /// What decides against a recording in a round: the rule that a view breaks, since only views before the rejected record count;
    /// else the refusal, if there is one.
    pub fn against(
        records: &[Ordered],
        found: Option<Refused>,
        breach: Option<Breach>,
    ) -> Option<Verdict>
        requires { IfSome breach (λ one. one.seen.index < length records.now) }
        ensures { (first : ℕ) → ArePlaced first records.now → result ≡ against first found (broken_of breach) }
    {
        if let Some(one) = breach {
            return Some(Verdict::Broken {
                pos: records[one.seen.index].pos,
                rule: one.rule,
            });
        }
        match found {
            Some(refused) => Some(Verdict::no(refused)),
            None => None,
        }
    }
}
