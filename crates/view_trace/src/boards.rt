// Messages that stay until another one replaces them: those of blackboards and of sampling channels.

ghost use Rattle.std.specs.Prelude.{OnOk};
ghost use Rattle.view_trace.specs.Trace.{AddsOthers};
ghost use Rattle.view_trace.specs.Traced.{timed};

use crate::event::{FlowKind, Track};
use crate::fault::TraceFault;
use crate::said::{counter_name, message_name};
use crate::showing::{Act, Showing};
use crate::timeline::Timeline;
use crate::tracks::{blackboards_of, message_track, slice_of};
use apex_types::{Body, Ordered, PartId};
use run_view::ThingKey;
use sink::Sink;
use std::alloc::Global;

/// What blackboards and sampling channels show. A message is a slice of its track, from the record that shows it to the one that replaces
/// it: a flow leads to it from its sender's call, and from it to each call that reads it.
#[derive(Drop)]
pub struct Boards {
    alloc: Global,
    boards: Vec<Board>,
}

// The track of a blackboard or a channel, and whether its slice is open.
#[derive(Clone, Copy)]
struct Board {
    track: Track,
    is_open: bool,
}

impl Boards {
    /// Nothing was shown yet. Takes no memory.
    pub fn new(alloc: Global) -> Boards {
        Boards {
            alloc,
            boards: Vec::new(alloc),
        }
    }

    /// Adds what a record does with a message that stays. Its core then has this time.
    #[tactic(auto, using(crate::proofs::Traces::others_none, crate::proofs::Traces::others_last))]
    pub fn follow<W: Sink>(
        &mut self,
        timeline: &mut Timeline<'_, W>,
        ordered: &Ordered,
        showing: &Showing,
        time: u64,
    ) -> Result<(), TraceFault>
        ensures { OnOk result (AddsOthers (timed W.bytes timeline.old) (timed W.bytes timeline.new)) }
    {
        let Some(track) = message_track(&showing.key) else {
            return Ok(());
        };
        match showing.act {
            Act::Shows => {
                self.find(timeline, &showing.key, track)?;
                self.show(timeline, ordered, track, time)
            }
            Act::Clears => self.clear(timeline, track),
            Act::Reads => self.read(timeline, ordered, track),
        }
    }

    /// Ends what an object shows that no longer exists.
    #[tactic(auto, using(crate::proofs::Traces::others_none))]
    pub fn remove<W: Sink>(
        &mut self,
        timeline: &mut Timeline<'_, W>,
        key: &ThingKey,
    ) -> Result<(), TraceFault>
        ensures { OnOk result (AddsOthers (timed W.bytes timeline.old) (timed W.bytes timeline.new)) }
    {
        match message_track(key) {
            Some(track) => self.clear(timeline, track),
            None => Ok(()),
        }
    }

    /// Ends the slices that are open.
    pub fn end_shown<W: Sink>(&self, timeline: &mut Timeline<'_, W>) -> Result<(), TraceFault>
        ensures { OnOk result (AddsOthers (timed W.bytes timeline.old) (timed W.bytes timeline.new)) }
    {
        for board in self.boards.iter() {
            end_if_open(timeline, board)?;
        }
        Ok(())
    }

    // Makes sure that a track is known. One of a blackboard that is new gets its names.
    #[tactic(auto, using(crate::proofs::Traces::others_none))]
    fn find<W: Sink>(
        &mut self,
        timeline: &mut Timeline<'_, W>,
        key: &ThingKey,
        track: Track,
    ) -> Result<(), TraceFault>
        ensures { OnOk result (AddsOthers (timed W.bytes timeline.old) (timed W.bytes timeline.new)) }
    {
        if self.boards.iter().any(|board| board.track == track) {
            return Ok(());
        }
        self.boards.push(Board {
            track,
            is_open: false,
        })?;
        match key {
            ThingKey::Object { part, .. } => self.name(timeline, *part, key, track),
            ThingKey::Lock(_) | ThingKey::Channel(_) => Ok(()),
        }
    }

    // Names the track of a blackboard.
    fn name<W: Sink>(
        &self,
        timeline: &mut Timeline<'_, W>,
        part: PartId,
        key: &ThingKey,
        track: Track,
    ) -> Result<(), TraceFault>
        ensures { OnOk result (AddsOthers (timed W.bytes timeline.old) (timed W.bytes timeline.new)) }
    {
        let partition = format!(in self.alloc; "blackboards of partition {}", part.number())?;
        timeline.name_process(blackboards_of(part), partition.as_str())?;
        let name = counter_name(self.alloc, key)?;
        timeline.name_thread(track, name.as_str())
    }

    // Shows the message of a record, in place of the last one.
    #[tactic(auto, using(crate::proofs::Traces::others_then, crate::proofs::Traces::others_last))]
    fn show<W: Sink>(
        &mut self,
        timeline: &mut Timeline<'_, W>,
        ordered: &Ordered,
        track: Track,
        time: u64,
    ) -> Result<(), TraceFault>
        ensures { OnOk result (AddsOthers (timed W.bytes timeline.old) (timed W.bytes timeline.new)) }
    {
        self.clear(timeline, track)?;
        set_open(&mut self.boards, track, true);
        let name = message_name(self.alloc, ordered)?;
        timeline.begin_slice(track, name.as_str(), time, "")?;
        match &ordered.rec.body {
            Body::Call(_) => lead(timeline, ordered, slice_of(ordered), track),
            _ => Ok(()),
        }
    }

    // Ends the slice of a track, if it is open.
    #[tactic(auto, using(crate::proofs::Traces::others_none))]
    fn clear<W: Sink>(
        &mut self,
        timeline: &mut Timeline<'_, W>,
        track: Track,
    ) -> Result<(), TraceFault>
        ensures { OnOk result (AddsOthers (timed W.bytes timeline.old) (timed W.bytes timeline.new)) }
    {
        if !set_open(&mut self.boards, track, false) {
            return Ok(());
        }
        timeline.end_slice(track)
    }

    // Leads from the message of a track to the call that reads it.
    #[tactic(auto, using(crate::proofs::Traces::others_none))]
    fn read<W: Sink>(
        &self,
        timeline: &mut Timeline<'_, W>,
        ordered: &Ordered,
        track: Track,
    ) -> Result<(), TraceFault>
        ensures { OnOk result (AddsOthers (timed W.bytes timeline.old) (timed W.bytes timeline.new)) }
    {
        if !self
            .boards
            .iter()
            .any(|board| board.track == track && board.is_open)
        {
            return Ok(());
        }
        lead(timeline, ordered, track, slice_of(ordered))
    }
}

// Adds the flow of a record from one track to another. Its number is the place of the record.
#[tactic(auto, using(crate::proofs::Traces::others_last))]
fn lead<W: Sink>(
    timeline: &mut Timeline<'_, W>,
    ordered: &Ordered,
    from: Track,
    to: Track,
) -> Result<(), TraceFault>
    ensures { OnOk result (AddsOthers (timed W.bytes timeline.old) (timed W.bytes timeline.new)) }
{
    let place = ordered.pos.number();
    let time = timeline.begin_flow(FlowKind::Message, place, from)?;
    timeline.end_flow(FlowKind::Message, place, to, time)
}

#[tactic(auto, using(crate::proofs::Traces::others_none))]
fn end_if_open<W: Sink>(timeline: &mut Timeline<'_, W>, board: &Board) -> Result<(), TraceFault>
    ensures { OnOk result (AddsOthers (timed W.bytes timeline.old) (timed W.bytes timeline.new)) }
{
    if !board.is_open {
        return Ok(());
    }
    timeline.end_slice(board.track)
}

// Keeps whether the slice of a track is open. Returns whether it was.
fn set_open(boards: &mut Vec<Board>, track: Track, is_open: bool) -> bool {
    match boards.iter_mut().find(|board| board.track == track) {
        Some(board) => {
            let was_open = board.is_open;
            board.is_open = is_open;
            was_open
        }
        None => false,
    }
}
