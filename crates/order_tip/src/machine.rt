// The machine at the tip of a search.

ghost use Rattle.std.specs.Prelude.{◌≡◌, ◌<◌, [], IfOk, OnOk, length};
ghost use Rattle.order_run.specs.Left.{IsTaken};

use crate::outlook::Outlook;
use crate::undecided::Undecided;
use crate::watcher::Watcher;
use apex_types::{Cause, Record};
use csv_rows::TextSource;
use module_config::Config;
use order_run::Lanes;
use order_search::{Answer, Rivals, Thing, Tip};
use placement::PlacingFault;
use std::alloc::{AllocError, Global};

/// How many records are taken again before the tip gets a checkpoint of its own.
const MANY_AGAIN: u64 = 16;

/// The machine at the tip of a search: what is ahead of it, and the records that it has taken.
#[derive(Drop)]
pub struct Machine<'a, R: TextSource> {
    pub(crate) outlook: Outlook<'a, R>,
    pub(crate) undecided: Undecided,
}

impl<'a, R: TextSource + Drop> Machine<'a, R> {
    /// The machine before the first record.
    pub fn start(
        alloc: Global,
        config: &'a Config,
        lanes: Lanes<R>,
    ) -> Result<Machine<'a, R>, AllocError>
        ensures lanes { IfOk result (λ machine. machine.outlook.lanes ≡ lanes) }
        ensures none { IfOk result (λ machine. machine.undecided.cores.items ≡ []) }
    {
        Ok(Machine {
            outlook: Outlook::start(alloc, config, lanes)?,
            undecided: Undecided::new(alloc),
        })
    }

    /// How many records are decided.
    pub fn decided(&self) -> u64 {
        self.undecided.decided
    }

    /// Why a call answered AllocError.
    pub fn fault(&self) -> PlacingFault {
        self.outlook.fault()
    }

    /// Hands out the next record of a core, or None if its recording has ended.
    pub fn hand_out(&mut self, core: usize) -> Result<Option<Record>, PlacingFault>
        requires { core < length self.old.outlook.lanes }
        ensures taken { IfOk result (λ made. IsTaken core self.old.outlook.lanes made self.new.outlook.lanes) }
        ensures undecided { self.new.undecided ≡ self.old.undecided }
    {
        self.outlook.hand_out(core)
    }

    /// Takes the next record of the first core whose next record the pieces accept, and decides it. None if there is no such core.
    pub fn follow(&mut self) -> Result<Option<usize>, AllocError>
        ensures { OnOk result (self.new.outlook.lanes ≡ self.old.outlook.lanes) }
    {
        for core in 0..self.outlook.cores() {
            if self.follow_core(core)? {
                return Ok(Some(core));
            }
        }
        Ok(None)
    }

    // Takes a core's next record and decides it, if the pieces accept it.
    fn follow_core(&mut self, core: usize) -> Result<bool, AllocError>
        ensures { OnOk result (self.new.outlook.lanes ≡ self.old.outlook.lanes) }
    {
        let answer = self.judge(core)?;
        if !matches!(answer, Answer::Free | Answer::Shared { .. }) {
            return Ok(false);
        }
        if !self.take(core)? {
            return Ok(false);
        }
        self.undecided.decide_all(core);
        Ok(true)
    }

    /// Shows the watcher each core's next record that a piece rejects. Returns the core whose record is to be at the place that is
    /// reported: the first, but a record that waits for another core's time only if there is no other.
    pub fn stop<V: Watcher>(
        &mut self,
        config: &Config,
        watcher: &mut V,
    ) -> Result<Option<usize>, AllocError>
        ensures { OnOk result (self.new.outlook.lanes ≡ self.old.outlook.lanes) }
    {
        let mut found: Option<usize> = None;
        let mut is_skewed = true;
        for core in 0..self.outlook.cores() {
            let level = self.undecided.level();
            self.outlook.look(core, level)?;
            if let Some(cause) = self.show_rejected(config, watcher, core) {
                if found.is_none() || is_skewed && cause != Cause::Skew {
                    found = Some(core);
                    is_skewed = cause == Cause::Skew;
                }
            }
        }
        Ok(found)
    }

    // Shows the watcher a core's next record if a piece rejects it, and returns the cause.
    fn show_rejected<V: Watcher>(
        &self,
        config: &Config,
        watcher: &mut V,
        core: usize,
    ) -> Option<Cause> {
        let (ordered, rejection) = self.outlook.rejected(core)?;
        let piece = self.outlook.pieces().get(rejection.piece)?;
        watcher.rejected(config, piece, ordered, rejection.cause);
        Some(rejection.cause)
    }
}

impl<'a, R: TextSource + Drop> Tip for Machine<'a, R> {
    type Thing = Thing;

    ghost use Rattle.order_run.specs.Left.{Lefts};

    ghost undecided = { λ machine. machine.undecided.cores.items };

    ghost decided = { λ machine. machine.undecided.decided };

    ghost last_decided = { λ machine. machine.undecided.last };

    ghost Input = { Lefts };

    ghost input = { λ machine. machine.outlook.lanes };

    fn judge(&mut self, core: usize) -> Result<Answer, AllocError> {
        let level = self.undecided.level();
        self.outlook.judge(core, level)
    }

    fn take(&mut self, core: usize) -> Result<bool, AllocError> {
        let level = self.undecided.level();
        self.outlook.keep_some(level, self.undecided.decided)?;
        if self.undecided.is_full() {
            return Ok(false);
        }
        if !self.outlook.take(core, &self.undecided)? {
            return Ok(false);
        }
        self.undecided.push(core)
    }

    fn back(&mut self, kept: usize) -> Result<u64, AllocError> {
        let decided = self.undecided.decided;
        let level = decided.saturating_add(kept as u64);
        let again = self.outlook.back(&self.undecided, level)?;
        self.undecided.keep(kept);
        if again <= MANY_AGAIN {
            return Ok(again);
        }
        self.outlook.keep(level, decided)?;
        Ok(again)
    }

    fn decide(&mut self, core: usize) {
        self.undecided.decide(core);
    }

    fn touched(&mut self, core: usize, things: &mut Vec<Thing>) -> Result<(), AllocError> {
        let level = self.undecided.level();
        self.outlook.touched(core, level, things)
    }

    fn blamed(&mut self, core: usize, things: &mut Vec<Thing>) -> Result<(), AllocError> {
        let level = self.undecided.level();
        self.outlook.blamed(core, level, things)
    }

    fn rivals(&mut self, core: usize) -> Result<Option<Rivals>, AllocError> {
        let level = self.undecided.level();
        self.outlook.rivals(core, level)
    }
}
