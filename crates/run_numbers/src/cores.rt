// What a record gives to the figures of cores and windows.

ghost use Rattle.std.specs.Prelude.{◌≡◌, ◌++◌, ◌∷◌, OnOk};
ghost use Rattle.run_numbers.specs.declared.figure.Figure.TheVariants.{BusyTicks, WindowTicks};
ghost use Rattle.run_numbers.specs.declared.observation.Observation.TheVariants.{Value};
ghost use Rattle.run_numbers.specs.Cores.{core_ticked, observed_of_cores, window_ticked};
ghost use Rattle.run_numbers.specs.Observed.{when};

use crate::figure::{Figure, WindowKey};
use crate::observation::{Observation, add, add_if};
use apex_types::{Body, CoreId, Ordered};
use module_config::Config;
use scheduling::Clock;
use std::alloc::AllocError;

/// Adds what a record gives to the figures of cores and windows, by the clock before it.
pub(crate) fn observe_cores(
    observed: &mut Vec<Observation>,
    config: &Config,
    clock: &Clock,
    ordered: &Ordered,
) -> Result<(), AllocError>
    ensures { OnOk result (observed.new.items ≡ observed.old.items ++ observed_of_cores config.now clock.now.cores ordered.now.core ordered.now.rec.body) }
{
    match &ordered.rec.body {
        Body::Tick(_) => observe_tick(observed, config, clock, ordered.core),
        _ => Ok(()),
    }
}

// Adds what a tick of a core gives.
fn observe_tick(
    observed: &mut Vec<Observation>,
    config: &Config,
    clock: &Clock,
    core: CoreId,
) -> Result<(), AllocError>
    ensures { OnOk result (observed.new.items ≡ observed.old.items ++ core_ticked config.now clock.now.cores core) }
{
    add(observed, Observation::Value(Figure::CoreTicks(core), 1))?;
    let is_idle = clock.on(core).is_none();
    add_if(
        observed,
        is_idle,
        Observation::Value(Figure::IdleTicks(core), 1),
    )?;
    observe_window(observed, config, clock, core)
}

// Adds what a tick of a core gives to the window that it is in.
fn observe_window(
    observed: &mut Vec<Observation>,
    config: &Config,
    clock: &Clock,
    core: CoreId,
) -> Result<(), AllocError>
    ensures { OnOk result (observed.new.items ≡ observed.old.items ++ window_ticked config.now clock.now.cores core) }
{
    let time = clock.now(core);
    let Some(part) = clock.window_now(config, core) else {
        return Ok(());
    };
    let window = WindowKey {
        core,
        number: config.windows_begun(0, core, time),
        part,
    };
    let offset = time % config.frame();
    let is_busy = clock.on(core).is_some();
    observe_ticked(observed, &window, offset, is_busy)
}

// Adds a tick of a window, at this offset in the major frame, while the core runs a process or none.
fn observe_ticked(
    observed: &mut Vec<Observation>,
    window: &WindowKey,
    offset: u64,
    is_busy: bool,
) -> Result<(), AllocError>
    ensures { OnOk result (observed.new.items ≡ observed.old.items ++ Value (WindowTicks window.now) offset ∷ when is_busy (Value (BusyTicks window.now) 1)) }
{
    add(
        observed,
        Observation::Value(Figure::WindowTicks(*window), offset),
    )?;
    add_if(
        observed,
        is_busy,
        Observation::Value(Figure::BusyTicks(*window), 1),
    )
}
