// The events of a trace, each at the moment of the record from which it comes.

ghost use Rattle.std.specs.Prelude.{◌≡◌, ◌<◌, ◌++◌, [], OnErr, OnOk, codes, true};
ghost use Rattle.sink.specs.Written.{IsCut, IsWritten};
ghost use Rattle.view_trace.specs.ObjectText.{text_of};
ghost use Rattle.view_trace.specs.declared.events.TheConstants.{MOST_HELD};

use crate::axis::Axis;
use crate::event::{Arguments, Event, FlowKind, Moment, Phase, Track};
use crate::events::Events;
use crate::fault::TraceFault;
use crate::stamps::Stamps;
use crate::tracks::{CORES, counters_of};
use sink::Sink;
use std::alloc::Global;

/// The events of a trace, each at the moment of the record from which it comes.
#[derive(Drop)]
pub struct Timeline<'a, W> {
    pub events: Events<'a, W>,
    pub stamps: Stamps,
}

impl<'a, W: Sink> Timeline<'a, W> {
    ghost use Rattle.view_trace.specs.Trace.{AddsFault, AddsInstant, AddsOthers, begun};
    ghost use Rattle.view_trace.specs.Traced.{timed};

    /// No events on this axis; those to come go to this sink. Takes no memory.
    pub fn new(alloc: Global, axis: Axis, output: &'a mut W) -> Timeline<'a, W>
        ensures { timed W.bytes result ≡ record { axis = axis; taken = W.bytes output.old; held = []; is_first = true } }
    {
        Timeline {
            events: Events::new(alloc, axis, output),
            stamps: Stamps::new(alloc, axis),
        }
    }

    /// Names a process of the trace.
    pub fn name_process(&mut self, process: u64, name: &str) -> Result<(), TraceFault>
        ensures { OnOk result (AddsOthers (timed W.bytes self.old) (timed W.bytes self.new)) }
    {
        self.events.add_mark(&Event::process_name(process, name))
    }

    /// Names a thread of the trace.
    pub fn name_thread(&mut self, track: Track, name: &str) -> Result<(), TraceFault>
        ensures { OnOk result (AddsOthers (timed W.bytes self.old) (timed W.bytes self.new)) }
    {
        self.events.add_mark(&Event::thread_name(track, name))
    }

    /// Begins a slice, at this time of the core that it concerns.
    pub fn begin_slice(
        &mut self,
        track: Track,
        name: &str,
        time: u64,
        detail: &str,
    ) -> Result<(), TraceFault>
        ensures { OnOk result (AddsOthers (timed W.bytes self.old) (timed W.bytes self.new)) }
    {
        let moment = self.stamps.moment_on(track)?;
        self.events
            .add_mark(&Event::slice(track, moment, name, time, detail))
    }

    /// Ends the slice of a track that was begun last.
    pub fn end_slice(&mut self, track: Track) -> Result<(), TraceFault>
        ensures { OnOk result (AddsOthers (timed W.bytes self.old) (timed W.bytes self.new)) }
    {
        let moment = self.stamps.moment_on(track)?;
        self.events.add_mark(&Event::slice_end(track, moment))
    }

    /// Begins the wait with this number, at this time of the core that it concerns.
    pub fn begin_wait(
        &mut self,
        number: u64,
        track: Track,
        name: &str,
        time: u64,
        detail: &str,
    ) -> Result<(), TraceFault>
        ensures { OnOk result (AddsOthers (timed W.bytes self.old) (timed W.bytes self.new)) }
    {
        let moment = self.stamps.moment_on(track)?;
        self.events
            .add_mark(&Event::wait(number, track, moment, name, time, detail))
    }

    /// Ends the wait with this number, which has this name.
    pub fn end_wait(&mut self, number: u64, track: Track, name: &str) -> Result<(), TraceFault>
        ensures { OnOk result (AddsOthers (timed W.bytes self.old) (timed W.bytes self.new)) }
    {
        let moment = self.stamps.moment_on(track)?;
        self.events
            .add_mark(&Event::wait_end(number, track, moment, name))
    }

    /// Adds what a process of the trace counts.
    pub fn count(
        &mut self,
        process: u64,
        name: &str,
        arguments: Arguments<'_>,
    ) -> Result<(), TraceFault>
        ensures { OnOk result (AddsOthers (timed W.bytes self.old) (timed W.bytes self.new)) }
    {
        let track = counters_of(process);
        let moment = self.stamps.moment_on(track)?;
        self.events
            .add_mark(&Event::counter(track, moment, name, arguments))
    }

    /// Begins a flow. The events of the record that follow are not before it. Returns its time.
    pub fn begin_flow(
        &mut self,
        kind: FlowKind,
        number: u64,
        track: Track,
    ) -> Result<u64, TraceFault>
        ensures { OnOk result (AddsOthers (timed W.bytes self.old) (timed W.bytes self.new)) }
    {
        let moment = self.stamps.moment_on(track)?;
        self.stamps.wait_for(moment.time);
        let phase = Phase::BeginFlow(number);
        self.events
            .add_mark(&Event::flow(kind, phase, track, moment))?;
        Ok(moment.time)
    }

    /// Ends a flow that began at this time.
    pub fn end_flow(
        &mut self,
        kind: FlowKind,
        number: u64,
        track: Track,
        since: u64,
    ) -> Result<(), TraceFault>
        ensures { OnOk result (AddsOthers (timed W.bytes self.old) (timed W.bytes self.new)) }
    {
        self.stamps.wait_for(since);
        let moment = self.stamps.moment_on(track)?;
        let phase = Phase::EndFlow(number);
        self.events
            .add_mark(&Event::flow(kind, phase, track, moment))
    }

    /// Adds the record at this place, after which its core has this time.
    pub fn add_record(
        &mut self,
        place: u64,
        track: Track,
        name: &str,
        time: u64,
        words: &str,
    ) -> Result<(), TraceFault>
        ensures { OnOk result (AddsInstant place (timed W.bytes self.old) (timed W.bytes self.new)) }
    {
        let now = self.stamps.moment_on(track)?;
        let moment = Moment {
            place,
            time: now.time,
        };
        let event = Event::record(track, moment, name, time, words);
        self.events.add(&event)
    }

    /// Adds the fault at this place, by the line of the answer and with an explanation.
    pub fn add_fault(
        &mut self,
        place: u64,
        answer: &str,
        explanation: &str,
    ) -> Result<(), TraceFault>
        ensures { OnOk result (AddsFault place answer.entry explanation.entry (timed W.bytes self.old) (timed W.bytes self.new)) }
    {
        let track = counters_of(CORES);
        let now = self.stamps.moment_on(track)?;
        let moment = Moment {
            place,
            time: now.time,
        };
        let event = Event::fault(track, moment, answer, explanation);
        self.events.add(&event)
    }
}
