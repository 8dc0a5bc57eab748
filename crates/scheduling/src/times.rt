// The times of the cores alone.

ghost use Rattle.std.specs.Prelude.{◌≡◌, ◌≤◌, ◌<◌, length, replicate};
ghost use Rattle.apex_types.specs.declared.limits.TheConstants.{MOST_CORES, PLACE_COUNT};
ghost use Rattle.apex_machine.specs.Pieces.{one_more, time_at};

use apex_types::CoreId;
use apex_types::limits::MOST_CORES;
use std::alloc::AllocError;
use std::marker::Model;

/// The time of each core, in ticks, for callers that need neither occupants nor windows. A contract sees the list of them.
#[derive(Debug, Drop)]
pub struct Times {
    times: [u64; MOST_CORES],
    count: usize,
}

impl Model for Times {
    ghost use Rattle.std.specs.Prelude.{ℕ, List, ◌≤◌, take};
    ghost use Rattle.apex_types.specs.declared.limits.TheConstants.{MOST_CORES};

    ghost Value = { List ℕ };

    ghost view = { λ all. take all.count all.times };

    ghost invariant = { λ all. all.count ≤ MOST_CORES };
}

impl Times {
    /// This many cores at time 0.
    pub fn new(cores: u8) -> Times
        requires { cores ≤ MOST_CORES }
        ensures { result ≡ replicate cores 0 }
    {
        Times {
            times: [0; MOST_CORES],
            count: cores as usize,
        }
    }

    /// The time of a core, in ticks, or 0 if there is no such core.
    #[tactic(auto, using(crate::proofs::Timing::time_at_there, crate::proofs::Timing::time_at_past))]
    pub fn now(&self, core: CoreId) -> u64
        ensures { result ≡ time_at self.now core }
    {
        match self.times[..self.count].get(core.number() as usize) {
            Some(time) => *time,
            None => 0,
        }
    }

    /// Adds one to the time of a core.
    pub fn advance(&mut self, core: CoreId)
        requires core { core < length self.old }
        requires time { time_at self.old core < PLACE_COUNT }
        ensures { self.new ≡ one_more core self.old }
    {
        self.times[core.number() as usize] += 1;
    }
}

impl Clone for Times {
    ghost is_clone = { λ all copy. copy ≡ all };

    fn clone(&self) -> Result<Times, AllocError> {
        Ok(Times {
            times: self.times,
            count: self.count,
        })
    }
}
