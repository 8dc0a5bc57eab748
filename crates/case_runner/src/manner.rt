// How a case is checked: in which rounds, by how many workers, and how far ahead its recordings are read.

ghost use Rattle.std.specs.Prelude.{◌≡◌, ◌≤◌, IfSome, None, Some};
ghost use Rattle.apex_types.specs.declared.limits.TheConstants.{LARGEST_ROUND};
ghost use Rattle.std.specs.Option.{unwrap_or};
ghost use Rattle.apex_types.specs.declared.limits.TheConstants.{LARGEST_ROUND};
ghost use Rattle.report.specs.Outcome.{argument_fault_of};

use apex_types::limits::{GREATEST_DEPTH, LARGEST_ROUND};
use report::Settings;

/// How many records each round of a check holds.
#[derive(Clone, Copy, Debug)]
pub enum Rounds {
    OfOne,
    OfSeven,
    /// As many as a round can hold.
    OfMost,
}

impl Rounds {
    /// The most records of such a round.
    pub fn size(self) -> usize
        ensures least { 1 ≤ result }
        ensures most { result ≤ LARGEST_ROUND }
    {
        match self {
            Rounds::OfOne => 1,
            Rounds::OfSeven => 7,
            Rounds::OfMost => LARGEST_ROUND,
        }
    }

    // The settings of a check in such rounds, if its case names none.
    fn settings(self) -> Settings
        ensures { argument_fault_of result ≡ None }
    {
        let (workers, depth) = match self {
            Rounds::OfOne => (1, 1),
            Rounds::OfSeven => (2, 2),
            Rounds::OfMost => (7, GREATEST_DEPTH),
        };
        Settings { workers, depth }
    }
}

/// The settings that a case names. They may be some that a check refuses.
#[derive(Clone, Copy, Debug)]
pub struct Named {
    /// How many workers judge.
    pub workers: Option<usize>,
    /// The most records of a core that wait until they are judged.
    pub depth: Option<usize>,
}

impl Named {
    /// As these name, but with one worker if they name none.
    pub fn by_one_worker(self) -> Named
        ensures workers { result.workers ≡ Some (unwrap_or self.workers 1) }
        ensures depth { result.depth ≡ self.depth }
    {
        Named {
            workers: Some(self.workers.unwrap_or(1)),
            depth: self.depth,
        }
    }

    /// How a check of the case is run in these rounds: with the settings that it names, and otherwise with those of the rounds.
    pub fn in_rounds(self, rounds: Rounds) -> Manner
        ensures rounds { result.rounds ≡ rounds }
        ensures workers { IfSome self.workers (λ workers. result.settings.workers ≡ workers) }
        ensures depth { IfSome self.depth (λ depth. result.settings.depth ≡ depth) }
    {
        let usual = rounds.settings();
        let settings = Settings {
            workers: self.workers.unwrap_or(usual.workers),
            depth: self.depth.unwrap_or(usual.depth),
        };
        Manner { rounds, settings }
    }
}

/// How a check is run.
#[derive(Clone, Copy, Debug)]
pub struct Manner {
    pub rounds: Rounds,
    pub settings: Settings,
}
