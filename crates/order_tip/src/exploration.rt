// The search over the machine, and what comes after it.

ghost use Rattle.std.specs.Prelude.{◌≡◌, ◌<◌, IfOk, OnOk, length};
ghost use Rattle.order_run.specs.Left.{IsTaken};
ghost use Rattle.order_search.specs.Agreement.{undecided_of};
ghost use Rattle.order_tip.specs.declared.exploration.Stage.TheVariants.{Searching};

use crate::machine::Machine;
use crate::watcher::Watcher;
use apex_types::Record;
use csv_rows::TextSource;
use module_config::Config;
use order_search::{Search, Step, Thing};
use placement::PlacingFault;
use std::alloc::AllocError;

/// How far the exploration is.
#[derive(Clone, Copy, Debug, PartialEq, Eq)]
pub enum Stage {
    /// The search goes on.
    Searching,
    /// The search is over: any record that the pieces accept is next.
    Following,
    /// The pieces accept no further record.
    Over,
}

/// The search over the machine. Once it is over, the exploration goes on with any record that the pieces accept.
#[derive(Drop)]
pub struct Exploration<'a, R: TextSource> {
    pub(crate) search: Search<Thing>,
    pub(crate) machine: Machine<'a, R>,
    pub(crate) stage: Stage,
    ghost taken: { stage ≡ Searching → machine.undecided.cores.items ≡ undecided_of search },
}

impl<'a, R: TextSource + Drop> Exploration<'a, R> {
    /// A search that begins over a machine that has taken the records that the search has placed.
    pub fn new(search: Search<Thing>, machine: Machine<'a, R>) -> Exploration<'a, R>
        requires { machine.undecided.cores.items ≡ undecided_of search }
        ensures { result.machine ≡ machine.entry }
    {
        Exploration {
            search,
            machine,
            stage: Stage::Searching,
        }
    }

    /// How many records are decided.
    pub fn decided(&self) -> u64 {
        self.machine.decided()
    }

    /// Why `next` answered AllocError.
    pub fn fault(&self) -> PlacingFault {
        self.machine.fault()
    }

    /// The core whose record is next. Where the exploration goes no further, the watcher receives each core's next record; the core
    /// is then the one whose record is to be at the place that is reported. None after that.
    pub fn next<V: Watcher>(
        &mut self,
        config: &Config,
        watcher: &mut V,
    ) -> Result<Option<usize>, AllocError>
        ensures { OnOk result (self.new.machine.outlook.lanes ≡ self.old.machine.outlook.lanes) }
    {
        match self.stage {
            Stage::Searching => self.search_or_follow(config, watcher),
            Stage::Following => self.follow_or_stop(config, watcher),
            Stage::Over => Ok(None),
        }
    }

    // The core of the next record that the search decides. If the search is over, any record that the pieces accept is next.
    fn search_or_follow<V: Watcher>(
        &mut self,
        config: &Config,
        watcher: &mut V,
    ) -> Result<Option<usize>, AllocError>
        requires { self.old.stage ≡ Searching }
        ensures { OnOk result (self.new.machine.outlook.lanes ≡ self.old.machine.outlook.lanes) }
    {
        match self.search.next(&mut self.machine) {
            Ok(Step::Next(core)) => Ok(Some(core)),
            Ok(Step::Over(_)) => self.follow_or_stop(config, watcher),
            Err(e) => {
                self.stage = Stage::Over;
                Err(e)
            }
        }
    }

    // The core of a record that the pieces accept. If there is none, the exploration is over.
    fn follow_or_stop<V: Watcher>(
        &mut self,
        config: &Config,
        watcher: &mut V,
    ) -> Result<Option<usize>, AllocError>
        ensures { OnOk result (self.new.machine.outlook.lanes ≡ self.old.machine.outlook.lanes) }
    {
        self.stage = Stage::Over;
        if let Some(core) = self.machine.follow()? {
            self.stage = Stage::Following;
            return Ok(Some(core));
        }
        self.machine.stop(config, watcher)
    }

    /// Hands out the next record of a core, or None if its recording has ended.
    pub fn hand_out(&mut self, core: usize) -> Result<Option<Record>, PlacingFault>
        requires { core < length self.old.machine.outlook.lanes }
        ensures { IfOk result (λ made. IsTaken core self.old.machine.outlook.lanes made self.new.machine.outlook.lanes) }
    {
        self.machine.hand_out(core)
    }
}
