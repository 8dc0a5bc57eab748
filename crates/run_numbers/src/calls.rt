// What a call gives to the figures of its caller.

ghost use Rattle.std.specs.Prelude.{◌≡◌, ◌++◌, OnOk};
ghost use Rattle.run_numbers.specs.Calls.{called, served};

use crate::figure::Figure;
use crate::mutexes::observe_mutex;
use crate::observation::{Observation, add, add_if};
use crate::releases::observe_work;
use crate::waits::Moment;
use apex_types::{Call, CoreId, Out};
use std::alloc::AllocError;

/// Adds what a call of a core gives, before it, if its caller is of this partition.
pub(crate) fn observe_call(
    observed: &mut Vec<Observation>,
    moment: &Moment<'_>,
    core: CoreId,
    call: &Call,
) -> Result<(), AllocError>
    ensures { OnOk result (observed.new.items ≡ observed.old.items ++ called moment.now.part moment.now.clock.now.cores core moment.now.state.now call.now) }
{
    if call.who.part != moment.part {
        return Ok(());
    }
    let Some(process) = moment.state.processes().proc(call.who.proc) else {
        return Ok(());
    };
    observe_service(observed, call)?;
    observe_work(observed, moment.clock.now(core), process, call)?;
    observe_mutex(observed, moment, core, call)
}

// Adds a call of a service, and whether it waits.
fn observe_service(observed: &mut Vec<Observation>, call: &Call) -> Result<(), AllocError>
    ensures { OnOk result (observed.new.items ≡ observed.old.items ++ served call.now) }
{
    let who = &call.who;
    let number = call.request.service().number();
    add(observed, Observation::Value(Figure::Calls(*who, number), 1))?;
    let waits = call.claim.out == Out::Waits;
    add_if(
        observed,
        waits,
        Observation::Value(Figure::Waits(*who, number), 1),
    )
}
