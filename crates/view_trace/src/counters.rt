// What is counted: what objects and channels hold and how many wait there, and the priorities of processes.

ghost use Rattle.std.specs.Prelude.{OnOk};
ghost use Rattle.view_trace.specs.Trace.{AddsOthers};
ghost use Rattle.view_trace.specs.Traced.{timed};

use crate::event::Arguments;
use crate::fault::TraceFault;
use crate::known::TracedProcess;
use crate::said::{counter_name, held_number};
use crate::timeline::Timeline;
use crate::tracks::{CHANNELS, process_of};
use piece_check::Piece;
use run_view::{ThingKey, view_of};
use sink::Sink;
use std::alloc::Global;

/// Counts what an object or a channel holds, and how many wait there.
#[tactic(auto, using(crate::proofs::Traces::others_none))]
pub fn count_thing<W: Sink>(
    timeline: &mut Timeline<'_, W>,
    alloc: Global,
    pieces: &[Piece],
    key: &ThingKey,
) -> Result<(), TraceFault>
    ensures { OnOk result (AddsOthers (timed W.bytes timeline.old) (timed W.bytes timeline.new)) }
{
    let Some(view) = view_of(alloc, pieces, key)? else {
        return Ok(());
    };
    let waiting = usize::saturating_add(view.senders.len(), view.waiters.len());
    count_held(
        timeline,
        alloc,
        key,
        held_number(&view.contents),
        waiting as u64,
    )
}

/// Counts that an object no longer exists.
pub fn count_nothing<W: Sink>(
    timeline: &mut Timeline<'_, W>,
    alloc: Global,
    key: &ThingKey,
) -> Result<(), TraceFault>
    ensures { OnOk result (AddsOthers (timed W.bytes timeline.old) (timed W.bytes timeline.new)) }
{
    count_held(timeline, alloc, key, 0, 0)
}

fn count_held<W: Sink>(
    timeline: &mut Timeline<'_, W>,
    alloc: Global,
    key: &ThingKey,
    held: u64,
    waiting: u64,
) -> Result<(), TraceFault>
    ensures { OnOk result (AddsOthers (timed W.bytes timeline.old) (timed W.bytes timeline.new)) }
{
    let process = match key {
        ThingKey::Object { part, .. } | ThingKey::Lock(part) => process_of(*part),
        ThingKey::Channel(_) => CHANNELS,
    };
    let name = counter_name(alloc, key)?;
    let arguments = Arguments::Held { held, waiting };
    timeline.count(process, name.as_str(), arguments)
}

/// Counts the priority of a process.
pub fn count_priority<W: Sink>(
    timeline: &mut Timeline<'_, W>,
    alloc: Global,
    process: &TracedProcess,
) -> Result<(), TraceFault>
    ensures { OnOk result (AddsOthers (timed W.bytes timeline.old) (timed W.bytes timeline.new)) }
{
    let who = process.who;
    let name = format!(in alloc; "priority of process {}", who.proc.number())?;
    let arguments = Arguments::Priority(u64::from(process.view.current_priority));
    timeline.count(process_of(who.part), name.as_str(), arguments)
}
