// The cores, as they were last seen.

ghost use Rattle.std.specs.Prelude.{◌≡◌, IfOk, OnOk};
ghost use Rattle.run_view.specs.Adds.{Adds, IsOfAny};
ghost use Rattle.run_view.specs.CoreChanges.{IsItsChange};
ghost use Rattle.run_view.specs.Cores.{shown_cores};

use crate::among::is_among;
use crate::change::{Change, add};
use crate::cores::{CoreView, core_view};
use apex_types::CoreId;
use module_config::Config;
use scheduling::Clock;
use std::alloc::{AllocError, Global};

// Adds the cores that are no longer as they were seen. They are then seen as they are.
pub(crate) fn look_at_cores(
    alloc: Global,
    seen: &mut Vec<CoreView>,
    config: &Config,
    clock: &Clock,
    changes: &mut Vec<Change>,
) -> Result<(), AllocError>
    ensures seen { OnOk result (seen.new.items ≡ shown_cores config.now clock.now.cores) }
    ensures changes { OnOk result (Adds (IsOfAny (IsItsChange seen.old.items) seen.new.items) changes.old.items changes.new.items) }
{
    let now = shown_cores(alloc, config, clock)?;
    add_changed(seen.as_slice(), now.as_slice(), changes)?;
    *seen = now;
    Ok(())
}

// The cores as they are shown, by their numbers.
fn shown_cores(alloc: Global, config: &Config, clock: &Clock) -> Result<Vec<CoreView>, AllocError>
    ensures { IfOk result (λ shown. shown.items ≡ shown_cores config.now clock.now.cores) }
{
    let mut shown = Vec::new(alloc);
    for number in 0..config.cores() {
        let view = core_view(config, clock, CoreId::new(number));
        shown.extend_from_slice(&[view])?;
    }
    Ok(shown)
}

// Adds the cores that are no longer as they were seen.
fn add_changed(
    before: &[CoreView],
    now: &[CoreView],
    changes: &mut Vec<Change>,
) -> Result<(), AllocError>
    ensures { OnOk result (Adds (IsOfAny (IsItsChange before.now) now.now) changes.old.items changes.new.items) }
{
    for index in 0..now.len() {
        add_if_changed(before, index, now[index], changes)?;
    }
    Ok(())
}

// Adds the core that now has this index, if it is no longer as it was seen.
fn add_if_changed(
    before: &[CoreView],
    index: usize,
    view: CoreView,
    changes: &mut Vec<Change>,
) -> Result<(), AllocError>
    ensures { OnOk result (Adds (IsItsChange before.now view) changes.old.items changes.new.items) }
{
    if is_among(before, index, &view) {
        return Ok(());
    }
    add(changes, Change::Core(view))
}
