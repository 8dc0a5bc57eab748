// When a record comes.

ghost use Rattle.std.specs.Prelude.{◌≡◌};
ghost use Rattle.apex_machine.specs.State as rules;

use apex_machine::CoreState;
use apex_types::{CoreId, Place, Who};

/// When a record comes: its place in the order, its core, and the state of the cores at that time.
#[derive(Clone, Copy, Debug)]
pub struct Moment<'a> {
    pub place: Place,
    pub core: CoreId,
    pub cores: &'a [CoreState],
}

impl<'a> Moment<'a> {
    /// The time of its core, in ticks.
    pub fn time(&self) -> u64
        ensures { result ≡ rules.time_of self.now.cores.now self.now.core }
    {
        time_of(self.cores, self.core)
    }

    /// The occupant of a core; None if the core is idle, or if there is none of this number.
    #[tactic(auto, using(crate::proofs::CoreTimes::occupant_of_there, crate::proofs::CoreTimes::occupant_of_past))]
    pub fn occupant_of(&self, core: CoreId) -> Option<Who>
        ensures { result ≡ rules.occupant_of self.now.cores.now core }
    {
        let state = self.cores.get(core.number() as usize)?;
        state.occupant
    }
}

/// The time of a core, in ticks, or 0 if there is no such core.
#[tactic(auto, using(crate::proofs::CoreTimes::time_of_there, crate::proofs::CoreTimes::time_of_past))]
pub(crate) fn time_of(cores: &[CoreState], core: CoreId) -> u64
    ensures { result ≡ rules.time_of cores.now core }
{
    match cores.get(core.number() as usize) {
        Some(state) => state.time,
        None => 0,
    }
}
