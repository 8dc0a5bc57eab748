// A core, as the clock of the module knows it.

ghost use Rattle.std.specs.Prelude.{◌≡◌};
ghost use Rattle.run_view.specs.Cores.{shown_core};

use apex_types::{CoreId, PartId, Who};
use module_config::Config;
use scheduling::Clock;

/// A core: its time in ticks, the process to which the last dispatch gave it, and the partition whose window it is in.
#[derive(Clone, Copy, Debug, PartialEq, Eq)]
pub struct CoreView {
    pub core: CoreId,
    pub time: u64,
    pub occupant: Option<Who>,
    pub window: Option<PartId>,
}

/// A core of this clock.
pub fn core_view(config: &Config, clock: &Clock, core: CoreId) -> CoreView
    ensures { result ≡ shown_core config.now clock.now.cores core }
{
    CoreView {
        core,
        time: clock.now(core),
        occupant: clock.on(core),
        window: clock.window_now(config, core),
    }
}
