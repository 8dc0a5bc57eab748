// The rule by which a core is given to a process.

ghost use Rattle.std.specs.Prelude.{◌≡◌, ◌↔◌, IsTrue};
ghost use Rattle.apex_machine.specs.State.{occupant_of};
ghost use Rattle.scheduling.specs.Windows.{owns_window, choice_within};

use crate::clock::Clock;
use crate::table::ProcTable;
use apex_types::{CoreId, PartId, ProcId, Who};
use module_config::Config;

/// Whether the present window of a core is this partition's.
pub fn owns_window(config: &Config, clock: &Clock, part: PartId, core: CoreId) -> bool
    ensures { result ≡ owns_window config.now clock.now part core }
{
    match clock.window_now(config, core) {
        Some(owner) => owner == part,
        None => false,
    }
}

/// The process of this partition that the core is to run now, if this process owns the partition's lock, or if none does; none if no process
/// is ready there, or if the present window is not the partition's.
///
/// This is the whole rule, for callers of the library. The pieces test the window first, since a table is consulted only in the partition's
/// own windows.
pub fn choice(
    config: &Config,
    clock: &Clock,
    table: &ProcTable,
    owner: Option<ProcId>,
    part: PartId,
    core: CoreId,
) -> Option<Who>
    ensures { result ≡ choice_within config.now clock.now table.now.table owner part core }
{
    if owns_window(config, clock, part, core) {
        table.choice_on(part, core, owner)
    } else {
        None
    }
}

/// Whether the core runs what it is to run now for this partition: its occupant is the choice. For callers of the library, like [`choice`].
pub fn settled(
    config: &Config,
    clock: &Clock,
    table: &ProcTable,
    owner: Option<ProcId>,
    part: PartId,
    core: CoreId,
) -> bool
    ensures { IsTrue result ↔ (choice_within config.now clock.now table.now.table owner part core ≡ occupant_of clock.now.cores core) }
{
    choice(config, clock, table, owner, part, core) == clock.on(core)
}
