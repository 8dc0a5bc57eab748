// The windows of the records of a round, each looked up once for all pieces.

ghost use Rattle.std.specs.Prelude.{◌≡◌, All, IfSome, OnOk, []};
ghost use Rattle.apex_machine.specs.Demands.{window_now};
ghost use Rattle.piece_check.specs.Found.{IsWindowAt};

use apex_types::limits::MOST_CORES;
use apex_types::{Body, CoreId, Ordered, PartId};
use module_config::Config;
use scheduling::Clock;
use std::alloc::{AllocError, Global};
use std::marker::Model;

/// The window that a core is in at a time. It is looked up once, and serves every piece that judges a record of the core at that time.
#[derive(Clone, Copy, Debug)]
pub struct WindowAt {
    pub core: CoreId,
    /// The time of the core, in ticks.
    pub time: u64,
    /// The partition that owns the window, or None if the core is in no window at that time.
    pub owner: Option<PartId>,
}

/// The windows of a round's records. The list keeps its memory from round to round, and stays empty where there is one partition, which
/// looks a window up as cheaply by itself.
///
/// Each window is what the configuration says of its core and its time. No clause says which cores and times these are: a piece that needs
/// another window looks it up.
#[derive(Drop)]
pub struct Windows {
    found: Vec<WindowAt>,
    // Where to look, for each core: its time, how many windows have begun, and the index of its last record in the round.
    times: [u64; MOST_CORES],
    begun: [usize; MOST_CORES],
    last: [usize; MOST_CORES],
}

impl Model for Windows {
    ghost use Rattle.std.specs.Prelude.{List};
    ghost use Rattle.piece_check.specs.declared.windows.WindowAt.{WindowAt};

    ghost Value = { List WindowAt };

    ghost view = { λ windows. windows.found.items };
}

impl Windows {
    /// No windows, before the first record.
    pub fn new(alloc: Global) -> Windows
        ensures { result ≡ [] }
    {
        Windows {
            found: Vec::new(alloc),
            times: [0; MOST_CORES],
            begun: [0; MOST_CORES],
            last: [0; MOST_CORES],
        }
    }

    /// The windows that were looked up.
    pub fn as_slice(&self) -> &[WindowAt]
        ensures { result.now ≡ self.now }
    {
        &self.found
    }

    /// Looks up the windows of the next records. What was found before is forgotten.
    ///
    /// AllocError if the list could not grow; nothing is then known about the windows.
    pub fn look_up(&mut self, config: &Config, records: &[Ordered]) -> Result<(), AllocError>
        ensures { OnOk result (All (IsWindowAt config.now) self.new) }
    {
        self.found.clear();
        if config.partition_count() < 2 {
            return Ok(());
        }
        'records: for ordered in records {
            self.enter(config, ordered)?;
        }
        Ok(())
    }

    // Adds the window of a record's core.
    fn enter(&mut self, config: &Config, ordered: &Ordered) -> Result<(), AllocError>
        requires { All (IsWindowAt config.now) self.old }
        ensures { OnOk result (All (IsWindowAt config.now) self.new) }
    {
        let window = self.window_of(config, ordered);
        let owner: Option<PartId> = window.owner;
        self.found.push(WindowAt { owner, ..window })?;
        Ok(())
    }

    // The window that a record's core is in before the record. A tick moves the time of its core on.
    fn window_of(&mut self, config: &Config, ordered: &Ordered) -> WindowAt
        requires { All (IsWindowAt config.now) self.old }
        ensures window { IsWindowAt config.now result }
        ensures unchanged { self.new ≡ self.old }
    {
        let core = ordered.core;
        let index = core.number() as usize;
        if index >= MOST_CORES {
            return looked_up(config, 0, core, 0);
        }
        let time = self.times[index];
        let last = self.last[index];
        self.last[index] = self.found.len();
        if matches!(&ordered.rec.body, Body::Tick(_)) {
            let next = time.saturating_add(1);
            self.times[index] = next;
            self.begun[index] = config.windows_begun(self.begun[index], core, next);
        }
        match found_at(config, &self.found, last, core, time) {
            Some(window) => window,
            None => looked_up(config, self.begun[index], core, time),
        }
    }
}

// The window at an index of the list, if it is of this core and time.
fn found_at(
    config: &Config,
    found: &[WindowAt],
    index: usize,
    core: CoreId,
    time: u64,
) -> Option<WindowAt>
    requires { All (IsWindowAt config.now) found.now }
    ensures { IfSome result (IsWindowAt config.now) }
{
    let window = found.get(index)?;
    if window.core == core && window.time == time {
        Some(*window)
    } else {
        None
    }
}

// The window of a core at a time, looked up from a guess of how many windows have begun by then.
fn looked_up(config: &Config, guess: usize, core: CoreId, time: u64) -> WindowAt
    ensures { IsWindowAt config.now result }
{
    WindowAt {
        core,
        time,
        owner: config.window_near(guess, core, time),
    }
}

/// The partition whose window a core is in now, as `Clock::window_now` answers. A window that was found for the present time of the core is
/// not looked up again.
#[tactic(auto, using(crate::proofs::Found::owner_there))]
pub(crate) fn window_by(
    config: &Config,
    clock: &Clock,
    core: CoreId,
    found: Option<WindowAt>,
) -> Option<PartId>
    requires { IfSome found (IsWindowAt config.now) }
    ensures { result ≡ window_now config.now clock.now.cores core }
{
    if let Some(window) = found {
        if window.core == core && window.time == clock.now(core) {
            return window.owner;
        }
    }
    clock.window_now(config, core)
}
