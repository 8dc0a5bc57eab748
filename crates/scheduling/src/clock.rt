// The clocks of the cores.

ghost use Rattle.std.specs.Prelude.{◌≡◌, ◌≤◌, ◌<◌, ◌-◌, ◌↔◌, IsTrue, OnOk, OnErr, length, nat_le};
ghost use Rattle.std.specs.List.{list_all};
ghost use Rattle.apex_types.specs.declared.limits.TheConstants.{MOST_CORES, PLACE_COUNT};
ghost use Rattle.apex_machine.specs.State.{time_of, occupant_of};
ghost use Rattle.apex_machine.specs.Demands.{window_now};
ghost use Rattle.scheduling.specs.Clocks.{cold_clocks, advanced, dispatched, MayTick};

use apex_machine::CoreState;
use apex_types::limits::MOST_CORES;
use apex_types::{CoreId, PartId, Who};
use module_config::Config;
use std::alloc::AllocError;
use std::marker::Model;
use thiserror::Error;

/// A core before its first record: idle, at time 0.
const COLD: CoreState = CoreState {
    time: 0,
    occupant: None,
};

/// The guess of a core's window is renewed at each tick whose time is a multiple of this number. Between two of them few windows begin, and
/// a guess that is one too small spares the search as well.
const RENEWAL: u64 = 4;

/// A tick that would take its core further ahead of another than the skew allows.
#[derive(Clone, Copy, Debug, PartialEq, Eq, Error)]
#[error("the core would run ahead of another by more than the skew")]
pub struct Skew;

/// The time of each core in ticks, the process to which the last dispatch gave it, and the skew.
#[derive(Debug, Drop)]
pub struct Clock {
    cores: [CoreState; MOST_CORES],
    // For each core, a guess of how many windows have begun, renewed every few ticks. With it, the core's window is found without a search.
    begun: [usize; MOST_CORES],
    count: usize,
    skew: u64,
}

impl Model for Clock {
    ghost use Rattle.std.specs.Prelude.{◌≤◌, take};
    ghost use Rattle.apex_types.specs.declared.limits.TheConstants.{MOST_CORES};
    ghost use Rattle.scheduling.specs.Clocks.{Clocks};

    ghost Value = { Clocks };

    ghost view = { λ clock. record { cores = take clock.count clock.cores; skew = clock.skew } };

    ghost invariant = { λ clock. clock.count ≤ MOST_CORES };
}

impl Clock {
    /// The clock of this many idle cores at time 0, none of which may be further ahead of another than the skew, in ticks.
    pub fn new(cores: u8, skew: u64) -> Clock
        requires { cores ≤ MOST_CORES }
        ensures { result ≡ cold_clocks cores skew }
    {
        Clock {
            cores: [COLD; MOST_CORES],
            begun: [0; MOST_CORES],
            count: cores as usize,
            skew,
        }
    }

    /// The time of a core, in ticks, or 0 if the clock has no such core.
    #[tactic(auto, using(crate::proofs::Cores::time_of_there, crate::proofs::Cores::time_of_past))]
    pub fn now(&self, core: CoreId) -> u64
        ensures { result ≡ time_of self.now.cores core }
    {
        match self.states().get(core.number() as usize) {
            Some(state) => state.time,
            None => 0,
        }
    }

    /// The process to which the last dispatch gave a core, or none if the core is idle or does not exist.
    #[tactic(auto, using(crate::proofs::Cores::occupant_of_there, crate::proofs::Cores::occupant_of_past))]
    pub fn on(&self, core: CoreId) -> Option<Who>
        ensures { result ≡ occupant_of self.now.cores core }
    {
        match self.states().get(core.number() as usize) {
            Some(state) => state.occupant,
            None => None,
        }
    }

    /// The partition whose window a core is in now, or none if it is in no window.
    pub fn window_now(&self, config: &Config, core: CoreId) -> Option<PartId>
        ensures { result ≡ window_now config.now self.now.cores core }
    {
        let guess = match self.begun.get(core.number() as usize) {
            Some(begun) => *begun,
            None => 0,
        };
        config.window_near(guess, core, self.now(core))
    }

    /// Whether the core may tick under this skew, in ticks: after the tick it is at most the skew ahead of each core.
    pub fn may_tick(&self, core: CoreId, skew: u64) -> bool
        requires { time_of self.now.cores core < PLACE_COUNT }
        ensures { IsTrue result ↔ MayTick core skew self.now.cores }
    {
        let next = self.now(core) + 1;
        keeps_skew(next, skew, self.states())
    }

    /// Adds one to the time of a core, for callers of the library that let the clock judge the skew.
    ///
    /// Refused, with nothing changed, if the core would then be more than the clock's skew ahead of another.
    pub fn tick(&mut self, config: &Config, core: CoreId) -> Result<(), Skew>
        requires core { core < length self.old.cores }
        requires time { time_of self.old.cores core < PLACE_COUNT }
        ensures within { OnOk result (MayTick core self.old.skew self.old.cores) }
        ensures ok { OnOk result (self.new ≡ advanced core self.old) }
        ensures refused { OnErr result (¬ MayTick core self.old.skew self.old.cores) }
        ensures unchanged { OnErr result (self.new ≡ self.old) }
    {
        if !self.may_tick(core, self.skew) {
            return Err(Skew);
        }
        self.advance(config, core);
        Ok(())
    }

    /// Adds one to the time of a core, whatever the times of the others. For use once the skew has been judged: only the module judges it,
    /// and the pieces of the partitions follow. The configuration shows where to look for the core's window from now on, and changes no
    /// time.
    pub fn advance(&mut self, config: &Config, core: CoreId)
        requires core { core < length self.old.cores }
        requires time { time_of self.old.cores core < PLACE_COUNT }
        ensures { self.new ≡ advanced core self.old }
    {
        let index = core.number() as usize;
        let state = self.cores[index];
        let time = state.time + 1;
        self.cores[index] = CoreState {
            time,
            occupant: state.occupant,
        };
        self.begun[index] = renewed(config, self.begun[index], core, time);
    }

    /// Gives a core to a process, or leaves it idle.
    pub fn dispatch(&mut self, core: CoreId, who: Option<Who>)
        requires { core < length self.old.cores }
        ensures { self.new ≡ dispatched core who self.old }
    {
        let index = core.number() as usize;
        let state = self.cores[index];
        self.cores[index] = CoreState {
            time: state.time,
            occupant: who,
        };
    }

    /// The cores, in the order of their numbers.
    pub fn states(&self) -> &[CoreState]
        ensures { result.now ≡ self.now.cores }
    {
        &self.cores[..self.count]
    }
}

// The guess of a core's window once the core has reached this time: renewed now and then, and as it was otherwise.
fn renewed(config: &Config, guess: usize, core: CoreId, time: u64) -> usize {
    if time % RENEWAL == 0 {
        config.windows_begun(guess, core, time)
    } else {
        guess
    }
}

fn keeps_skew(time: u64, skew: u64, states: &[CoreState]) -> bool
    ensures { result ≡ list_all (λ state. nat_le (time - state.time) skew) states.now }
{
    states
        .iter()
        .all(|state| time.saturating_sub(state.time) <= skew)
}

impl Clone for Clock {
    ghost is_clone = { λ clock copy. copy ≡ clock };

    fn clone(&self) -> Result<Clock, AllocError> {
        let mut cores = [COLD; MOST_CORES];
        cores.copy_from_slice(&self.cores);
        Ok(Clock {
            cores,
            begun: self.begun,
            count: self.count,
            skew: self.skew,
        })
    }
}
