// What ends: slices and waits that are open.

ghost use Rattle.std.specs.Prelude.{OnOk};
ghost use Rattle.view_trace.specs.Trace.{AddsOthers};
ghost use Rattle.view_trace.specs.Traced.{timed};

use crate::fault::TraceFault;
use crate::known::TracedProcess;
use crate::said::wait_name;
use crate::timeline::Timeline;
use crate::tracks::{core_track, mode_track, process_track};
use apex_machine::Wait;
use apex_types::PartId;
use run_view::CoreView;
use sink::Sink;
use std::alloc::Global;

/// Ends the slices of cores.
pub fn end_cores<W: Sink>(
    timeline: &mut Timeline<'_, W>,
    cores: &[CoreView],
) -> Result<(), TraceFault>
    ensures { OnOk result (AddsOthers (timed W.bytes timeline.old) (timed W.bytes timeline.new)) }
{
    for core in cores {
        timeline.end_slice(core_track(core.core))?;
    }
    Ok(())
}

/// Ends the slices of modes.
pub fn end_modes<W: Sink>(
    timeline: &mut Timeline<'_, W>,
    modes: &[PartId],
) -> Result<(), TraceFault>
    ensures { OnOk result (AddsOthers (timed W.bytes timeline.old) (timed W.bytes timeline.new)) }
{
    for part in modes {
        timeline.end_slice(mode_track(*part))?;
    }
    Ok(())
}

/// Ends the slices and the waits of processes.
pub fn end_processes<W: Sink>(
    timeline: &mut Timeline<'_, W>,
    alloc: Global,
    processes: &[TracedProcess],
) -> Result<(), TraceFault>
    ensures { OnOk result (AddsOthers (timed W.bytes timeline.old) (timed W.bytes timeline.new)) }
{
    for process in processes {
        end_process(timeline, alloc, process)?;
    }
    Ok(())
}

/// Ends the slice and the wait of a process, if they are open.
#[tactic(auto, using(crate::proofs::Traces::others_none, crate::proofs::Traces::others_last))]
pub fn end_process<W: Sink>(
    timeline: &mut Timeline<'_, W>,
    alloc: Global,
    process: &TracedProcess,
) -> Result<(), TraceFault>
    ensures { OnOk result (AddsOthers (timed W.bytes timeline.old) (timed W.bytes timeline.new)) }
{
    if !process.is_open {
        return Ok(());
    }
    end_wait(timeline, alloc, process)?;
    timeline.end_slice(process_track(process.who))
}

/// Ends the wait of a process, if it waits.
#[tactic(auto, using(crate::proofs::Traces::others_none))]
pub fn end_wait<W: Sink>(
    timeline: &mut Timeline<'_, W>,
    alloc: Global,
    process: &TracedProcess,
) -> Result<(), TraceFault>
    ensures { OnOk result (AddsOthers (timed W.bytes timeline.old) (timed W.bytes timeline.new)) }
{
    let wait = process.waits_for();
    if wait == Wait::Nothing {
        return Ok(());
    }
    let name = wait_name(alloc, wait)?;
    timeline.end_wait(process.wait, process_track(process.who), name.as_str())
}
