// Flows: from a record to each process whose wait it ends, and from a record that sends a message to the one that receives it.

ghost use Rattle.std.specs.Prelude.{◌≡◌, ◌<◌, IfSome, OnOk, length};
ghost use Rattle.view_trace.specs.Trace.{AddsOthers};
ghost use Rattle.view_trace.specs.Traced.{timed};

use crate::event::FlowKind;
use crate::fault::TraceFault;
use crate::timeline::Timeline;
use crate::tracks::{core_track, process_track, slice_of, woken_by};
use apex_types::{CoreId, Ordered};
use run_view::Followed;
use sink::Sink;
use std::alloc::Global;

/// The flows of waits that end, and those of messages in queues.
#[derive(Drop)]
pub struct Flows {
    // The messages that are sent and not received.
    sent: Vec<SentMessage>,
    // How many waits have ended by a record.
    wakes: u64,
}

// A message: the place at which it was sent, on which core, and when.
#[derive(Clone, Copy)]
struct SentMessage {
    place: u64,
    core: CoreId,
    time: u64,
}

impl Flows {
    /// No flow has begun. Takes no memory.
    pub fn new(alloc: Global) -> Flows {
        Flows {
            sent: Vec::new(alloc),
            wakes: 0,
        }
    }

    /// Begins a flow to each process whose wait a record ends.
    pub fn begin_wakes<W: Sink>(
        &self,
        timeline: &mut Timeline<'_, W>,
        ordered: &Ordered,
    ) -> Result<(), TraceFault>
        ensures { OnOk result (AddsOthers (timed W.bytes timeline.old) (timed W.bytes timeline.new)) }
    {
        let track = slice_of(ordered);
        for index in 0..woken_by(ordered).len() {
            let number = self.wakes.saturating_add(index as u64);
            timeline.begin_flow(FlowKind::Wake, number, track)?;
        }
        Ok(())
    }

    /// Ends those flows.
    pub fn end_wakes<W: Sink>(
        &mut self,
        timeline: &mut Timeline<'_, W>,
        ordered: &Ordered,
    ) -> Result<(), TraceFault>
        ensures { OnOk result (AddsOthers (timed W.bytes timeline.old) (timed W.bytes timeline.new)) }
    {
        for who in woken_by(ordered) {
            timeline.end_flow(FlowKind::Wake, self.wakes, process_track(*who), 0)?;
            self.wakes = self.wakes.saturating_add(1);
        }
        Ok(())
    }

    /// Adds what a record does with the messages of queues.
    #[tactic(auto, using(crate::proofs::Traces::others_last))]
    pub fn follow<W: Sink>(
        &mut self,
        timeline: &mut Timeline<'_, W>,
        ordered: &Ordered,
        followed: &Followed,
    ) -> Result<(), TraceFault>
        ensures { OnOk result (AddsOthers (timed W.bytes timeline.old) (timed W.bytes timeline.new)) }
    {
        self.send(timeline, ordered, followed)?;
        self.receive(timeline, followed)
    }

    // Begins the flow of a message, if one is sent.
    #[tactic(auto, using(crate::proofs::Traces::others_none))]
    fn send<W: Sink>(
        &mut self,
        timeline: &mut Timeline<'_, W>,
        ordered: &Ordered,
        followed: &Followed,
    ) -> Result<(), TraceFault>
        ensures { OnOk result (AddsOthers (timed W.bytes timeline.old) (timed W.bytes timeline.new)) }
    {
        if !followed.is_sent {
            return Ok(());
        }
        let place = ordered.pos.number();
        let time = timeline.begin_flow(FlowKind::Message, place, slice_of(ordered))?;
        self.sent.push(SentMessage {
            place,
            core: ordered.core,
            time,
        })?;
        Ok(())
    }

    // Ends the flow of a message that is received, if it has one.
    #[tactic(auto, using(crate::proofs::Traces::others_none))]
    fn receive<W: Sink>(
        &mut self,
        timeline: &mut Timeline<'_, W>,
        followed: &Followed,
    ) -> Result<(), TraceFault>
        ensures { OnOk result (AddsOthers (timed W.bytes timeline.old) (timed W.bytes timeline.new)) }
    {
        let Some(received) = followed.received else {
            return Ok(());
        };
        let Some(index) = index_of(self.sent.as_slice(), received.sent.place.number()) else {
            return Ok(());
        };
        let message = self.sent.remove(index);
        let track = process_track(received.by);
        timeline.end_flow(FlowKind::Message, message.place, track, message.time)
    }

    /// Ends the flows of messages that nobody received, at what is then on the cores of those who sent them.
    pub fn end_sent<W: Sink>(&self, timeline: &mut Timeline<'_, W>) -> Result<(), TraceFault>
        ensures { OnOk result (AddsOthers (timed W.bytes timeline.old) (timed W.bytes timeline.new)) }
    {
        for message in self.sent.iter() {
            let track = core_track(message.core);
            timeline.end_flow(FlowKind::Message, message.place, track, message.time)?;
        }
        Ok(())
    }
}

// The index of the message that was sent at this place.
fn index_of(sent: &[SentMessage], place: u64) -> Option<usize>
    ensures { IfSome result (λ index. index < length sent.now) }
{
    for index in 0..sent.len() {
        if sent[index].place == place {
            return Some(index);
        }
    }
    None
}
