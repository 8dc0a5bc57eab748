// All pieces of a module, which judge the records round by round.

ghost use Rattle.std.specs.Prelude.{◌≡◌, ◌↔◌, ◌<◌, ◌+◌, ℕ, Err, IfOk, length, slice_get};
ghost use Rattle.std.specs.Option.{option_copied};
ghost use Rattle.apex_machine.specs.Pieces.{pieces};
ghost use Rattle.apex_machine.specs.Runs.{ArePlaced, AreOfCores};
ghost use Rattle.user_rules.specs.Memories.{nothing};
ghost use Rattle.user_rules.specs.Rules.{requirements_of};
ghost use Rattle.verdict_merge.specs.Rounds.{IsReady, IsRound, IsTested, cold_parts, parts_of};

use crate::breach::Breach;
use crate::fault::Memory;
use crate::finding::Refused;
use crate::outcome::Lent;
use crate::remembering::{Remembering, has_any, tested_at_once};
use crate::round_fault::RoundFault;
use crate::start::start_pieces;
use crate::workers::{Gate, run_round};
use apex_types::Ordered;
use module_config::Config;
use piece_check::{Piece, Touched, Windows};
use std::alloc::Global;
use std::marker::Model;
use std::mem;
use std::sync::Wait;
use std::thread::Threads;
use user_rules::{Recollection, Rule, RuleMemory};

/// All pieces of a module, the number of records that they have judged, the breach of a rule in the last round, and what memories have kept
/// of the views.
#[derive(Drop)]
pub struct Judge {
    alloc: Global,
    count: u64,
    pieces: Vec<Piece>,
    touched: Touched,
    windows: Windows,
    breach: Option<Breach>,
    remembering: Remembering,
}

impl Model for Judge {
    ghost use Rattle.verdict_merge.specs.Rounds.{Judging};

    ghost Value = { Judging };

    ghost view = { λ judge. record { count = judge.count; pieces = judge.pieces.items; breach = judge.breach; kept = judge.remembering } };
}

impl Judge {
    /// All pieces as they are before the first record, and what these memories keep before the first view.
    ///
    /// Memory if memory is refused.
    pub fn start(alloc: Global, config: &Config, memories: &[RuleMemory]) -> Result<Judge, Memory>
        ensures cold { IfOk result (λ judge. (number : ℕ) → number < length (pieces config.now) → parts_of judge number ≡ cold_parts config.now number) }
        ensures count { IfOk result (λ judge. judge.count ≡ 0) }
        ensures ready { IfOk result (IsReady config.now) }
        ensures kept { IfOk result (λ judge. judge.kept ≡ nothing memories.now) }
    {
        let pieces = start_pieces(alloc, config)?;
        let remembering = Remembering::start(alloc, config, memories)?;
        let Ok(touched) = Touched::new(alloc) else {
            return Err(Memory);
        };
        Ok(Judge {
            alloc,
            count: 0,
            pieces,
            touched,
            windows: Windows::new(alloc),
            breach: None,
            remembering,
        })
    }

    /// The number of records that were judged.
    pub fn count(&self) -> u64
        ensures { result ≡ self.now.count }
    {
        self.count
    }

    /// The piece of this number, or None if there is no such piece. After a round in which a record was rejected, the piece that rejected
    /// it is as it was before that record, as `round` promises.
    pub fn piece(&self, number: usize) -> Option<&Piece>
        ensures { option_copied result ≡ slice_get self.now.pieces number }
    {
        self.pieces.get(number)
    }

    /// The first view of the last round that breaks a rule, among the records up to the rejected one, with the first rule that it
    /// breaks.
    pub fn breach(&self) -> Option<Breach>
        ensures { result ≡ self.now.breach }
    {
        self.breach
    }

    /// What the memories have kept of the views of all rounds, or of those before a broken one.
    pub fn recollection(&self) -> &Recollection
        ensures { result.now ≡ self.now.kept }
    {
        self.remembering.recollection()
    }

    /// Judges the next records with this number of workers. Each piece judges the records that touch it, up to the first that it
    /// rejects, and each view is tested by the rules, with the values of the memories at it. Returns None if no piece rejects a record, and
    /// else the least refusal. After a refusal no further round is judged, and its piece is left as it was before the rejected record.
    /// `breach` gives the first view before it that breaks a rule; after one no further round is judged either. The gate sees each claim and
    /// each post.
    ///
    /// NoWorkers if there is no worker; then nothing is changed. Memory if memory or a thread was refused; then no further round is
    /// judged.
    pub fn round<G: Gate + Sync, R: Threads + Wait + Sync>(
        &mut self,
        rt: &R,
        config: &Config,
        records: &[Ordered],
        memories: &[RuleMemory],
        rules: &[Rule],
        workers: usize,
        gate: &G,
    ) -> Result<Option<Refused>, RoundFault>
        requires ready { IsReady config.now self.old }
        requires placed { ArePlaced self.old.count records.now }
        requires cores { AreOfCores config.now.cores records.now }
        ensures judged { IfOk result (λ found. IsRound config.now self.old records.now found self.new) }
        ensures tested { IfOk result (λ found. IsTested config.now (requirements_of memories.now self.old.kept rules.now) (parts_of self.old) records.now found self.new.breach self.new.kept) }
        ensures no_workers { result ≡ Err RoundFault.NoWorkers ↔ workers ≡ 0 }
        ensures unchanged { result ≡ Err RoundFault.NoWorkers → self.new ≡ self.old }
    {
        if workers == 0 {
            return Err(RoundFault::NoWorkers);
        }
        if self.touched.sort_out(config, records).is_err()
            || self.windows.look_up(config, records).is_err()
        {
            return Err(RoundFault::Memory);
        }
        let windows = self.windows.as_slice();
        let lent = Lent::with_windows(config, self.count, records, &self.touched, windows);
        let lent = lent.keeping(has_any(memories));
        let at_once = tested_at_once(memories, rules);
        let pieces = mem::replace(&mut self.pieces, Vec::new(self.alloc));
        let Ok(judged) = run_round(rt, self.alloc, &lent, at_once, pieces, workers, gate) else {
            return Err(RoundFault::Memory);
        };
        let Ok(surveyed) = self
            .remembering
            .survey(self.alloc, &lent, memories, rules, judged)
        else {
            return Err(RoundFault::Memory);
        };
        self.pieces = surveyed.pieces;
        self.breach = surveyed.breach;
        self.count = place_after(self.count, records);
        Ok(surveyed.found)
    }
}

// The place after these records, the first of which is at this place.
fn place_after(first: u64, records: &[Ordered]) -> u64
    requires { ArePlaced first records.now }
    ensures { result ≡ first + length records.now }
{
    match records.last() {
        Some(last) => last.pos.number() + 1,
        None => first,
    }
}
