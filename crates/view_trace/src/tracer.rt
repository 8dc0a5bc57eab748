// A run as a trace, record by record.

ghost use Rattle.std.specs.Prelude.{◌≡◌, ◌<◌, [], OnOk, true};
ghost use Rattle.view_trace.specs.declared.events.TheConstants.{MOST_HELD};

use crate::axis::Axis;
use crate::boards::Boards;
use crate::counters::{count_nothing, count_thing};
use crate::fault::TraceFault;
use crate::flows::Flows;
use crate::said::{record_name, words_of};
use crate::showing::showing_of;
use crate::states::States;
use crate::timeline::Timeline;
use crate::tracks::{CHANNELS, CORES, actor_of, channel_track, process_of};
use apex_types::{CoreId, Ordered};
use piece_check::{Piece, Seen};
use run_view::{Change, Followed};
use sink::Sink;
use std::alloc::Global;

/// A run as a trace.
#[derive(Drop)]
pub struct Tracer<'a, W> {
    alloc: Global,
    timeline: Timeline<'a, W>,
    states: States,
    flows: Flows,
    boards: Boards,
}

impl<'a, W: Sink> Tracer<'a, W> {
    ghost use Rattle.view_trace.specs.Trace.{AddsFault, AddsInstant, AddsOthers, AddsRecord, Ends, begun};
    ghost use Rattle.view_trace.specs.Traced.{traced};

    /// A trace on this axis without an event, which goes to this sink.
    pub fn new(alloc: Global, axis: Axis, output: &'a mut W) -> Tracer<'a, W>
        ensures { traced W.bytes result ≡ record { axis = axis; taken = W.bytes output.old; held = []; is_first = true } }
    {
        Tracer {
            alloc,
            timeline: Timeline::new(alloc, axis, output),
            states: States::new(alloc),
            flows: Flows::new(alloc),
            boards: Boards::new(alloc),
        }
    }

    /// How many events are held, and not yet written.
    pub fn held(&self) -> usize
        ensures { result < MOST_HELD }
    {
        self.timeline.events.held()
    }

    /// Begins the trace with what the pieces hold before the first record: all of it is among the changes.
    pub fn begin(&mut self, pieces: &[Piece], changes: &[Change]) -> Result<(), TraceFault>
        ensures { OnOk result (AddsOthers (begun (traced W.bytes self.old)) (traced W.bytes self.new)) }
    {
        self.timeline.events.begin()?;
        self.name_processes(pieces)?;
        self.apply(pieces, changes)
    }

    fn name_processes(&mut self, pieces: &[Piece]) -> Result<(), TraceFault>
        ensures { OnOk result (AddsOthers (traced W.bytes self.old) (traced W.bytes self.new)) }
    {
        self.timeline.name_process(CORES, "cores")?;
        self.timeline.name_process(CHANNELS, "channels")?;
        self.name_pieces(pieces)
    }

    fn name_pieces(&mut self, pieces: &[Piece]) -> Result<(), TraceFault>
        ensures { OnOk result (AddsOthers (traced W.bytes self.old) (traced W.bytes self.new)) }
    {
        for piece in pieces {
            self.name_piece(piece)?;
        }
        Ok(())
    }

    // Names the process of a partition, if the piece is one, and the track of a channel that is a sampling channel or has an end outside.
    #[tactic(auto, using(crate::proofs::Traces::others_none))]
    fn name_piece(&mut self, piece: &Piece) -> Result<(), TraceFault>
        ensures { OnOk result (AddsOthers (traced W.bytes self.old) (traced W.bytes self.new)) }
    {
        match piece.seen() {
            Seen::Partition { number, .. } => {
                let name = format!(in self.alloc; "partition {}", number.number())?;
                self.timeline
                    .name_process(process_of(number), name.as_str())
            }
            Seen::Channel { channel, .. }
                if channel.queue().is_none()
                    || channel.is_from_outside()
                    || channel.is_to_outside() => {
                let number = channel.number();
                let name = format!(in self.alloc; "channel {}", number.number())?;
                self.timeline
                    .name_thread(channel_track(number), name.as_str())
            }
            Seen::Module { .. } | Seen::Channel { .. } => Ok(()),
        }
    }

    /// Adds a record that is accepted, with what it changed, and what it does with messages.
    pub fn accept(
        &mut self,
        pieces: &[Piece],
        ordered: &Ordered,
        changes: &[Change],
        followed: &Followed,
    ) -> Result<(), TraceFault>
        ensures { OnOk result (AddsRecord ordered.now.pos (traced W.bytes self.old) (traced W.bytes self.new)) }
    {
        let time = self.time_after(ordered.core, changes);
        self.timeline.stamps.go_to(ordered.pos.number(), time);
        self.flows.begin_wakes(&mut self.timeline, ordered)?;
        self.apply(pieces, changes)?;
        self.add_record(ordered)?;
        self.flows.end_wakes(&mut self.timeline, ordered)?;
        self.follow(pieces, ordered, followed)
    }

    // The time of a core after these changes.
    fn time_after(&self, core: CoreId, changes: &[Change]) -> u64 {
        for change in changes {
            if let Change::Core(view) = change
                && view.core == core
            {
                return view.time;
            }
        }
        self.states.time_of(core)
    }

    /// Adds the record that is rejected, and the name of the cause.
    pub fn reject(&mut self, ordered: &Ordered, cause: &str) -> Result<(), TraceFault>
        ensures { OnOk result (AddsInstant ordered.now.pos (traced W.bytes self.old) (traced W.bytes self.new)) }
    {
        let time = self.states.time_of(ordered.core);
        self.timeline.stamps.go_to(ordered.pos.number(), time);
        let name = format!(in self.alloc; "rejected: {cause}")?;
        self.add_instant(ordered, name.as_str())
    }

    /// Adds the fault at this place, which ends the run before its last record: by the line of the answer, and why it is so.
    pub fn add_fault(
        &mut self,
        place: u64,
        answer: &str,
        explanation: &str,
    ) -> Result<(), TraceFault>
        ensures { OnOk result (AddsFault place answer.entry explanation.entry (traced W.bytes self.old) (traced W.bytes self.new)) }
    {
        self.timeline.add_fault(place, answer, explanation)
    }

    /// Ends the trace: what is open ends with it.
    pub fn end(&mut self) -> Result<(), TraceFault>
        ensures { OnOk result (Ends (traced W.bytes self.old) (W.bytes self.new.timeline.events.output.now)) }
    {
        self.timeline.stamps.go_on();
        self.flows.end_sent(&mut self.timeline)?;
        self.boards.end_shown(&mut self.timeline)?;
        self.states.end_open(&mut self.timeline)?;
        self.timeline.events.end()
    }

    // Adds what a record does.
    fn add_record(&mut self, ordered: &Ordered) -> Result<(), TraceFault>
        ensures { OnOk result (AddsInstant ordered.now.pos (traced W.bytes self.old) (traced W.bytes self.new)) }
    {
        let name = record_name(self.alloc, ordered)?;
        self.add_instant(ordered, name.as_str())
    }

    // Adds the instant of a record.
    fn add_instant(&mut self, ordered: &Ordered, name: &str) -> Result<(), TraceFault>
        ensures { OnOk result (AddsInstant ordered.now.pos (traced W.bytes self.old) (traced W.bytes self.new)) }
    {
        let words = words_of(self.alloc, ordered)?;
        let time = self.states.time_of(ordered.core);
        let place = ordered.pos.number();
        self.timeline
            .add_record(place, actor_of(ordered), name, time, words.as_str())
    }

    // Adds what a record does with messages.
    fn follow(
        &mut self,
        pieces: &[Piece],
        ordered: &Ordered,
        followed: &Followed,
    ) -> Result<(), TraceFault>
        ensures { OnOk result (AddsOthers (traced W.bytes self.old) (traced W.bytes self.new)) }
    {
        let time = self.states.time_of(ordered.core);
        match showing_of(pieces, ordered) {
            Some(showing) => self
                .boards
                .follow(&mut self.timeline, ordered, &showing, time),
            None => self.flows.follow(&mut self.timeline, ordered, followed),
        }
    }

    // Adds what has changed.
    #[tactic(auto, using(crate::proofs::Traces::others_last))]
    fn apply(&mut self, pieces: &[Piece], changes: &[Change]) -> Result<(), TraceFault>
        ensures { OnOk result (AddsOthers (traced W.bytes self.old) (traced W.bytes self.new)) }
    {
        if self.apply_all(pieces, changes)? {
            return self.states.renew_running(&mut self.timeline);
        }
        Ok(())
    }

    // Adds each change. Returns whether a core has another occupant.
    fn apply_all(&mut self, pieces: &[Piece], changes: &[Change]) -> Result<bool, TraceFault>
        ensures { OnOk result (AddsOthers (traced W.bytes self.old) (traced W.bytes self.new)) }
    {
        let mut is_moved = false;
        for change in changes {
            is_moved |= self.apply_change(pieces, change)?;
        }
        Ok(is_moved)
    }

    // Adds a change. Returns whether a core has another occupant.
    fn apply_change(&mut self, pieces: &[Piece], change: &Change) -> Result<bool, TraceFault>
        ensures { OnOk result (AddsOthers (traced W.bytes self.old) (traced W.bytes self.new)) }
    {
        if let Change::Core(view) = change {
            return self.states.show_core(&mut self.timeline, view);
        }
        self.apply_other(pieces, change)?;
        Ok(false)
    }

    // Adds a change that is not of a core.
    #[tactic(auto, using(crate::proofs::Traces::others_none, crate::proofs::Traces::others_last))]
    fn apply_other(&mut self, pieces: &[Piece], change: &Change) -> Result<(), TraceFault>
        ensures { OnOk result (AddsOthers (traced W.bytes self.old) (traced W.bytes self.new)) }
    {
        let timeline = &mut self.timeline;
        match change {
            Change::Core(_) => Ok(()),
            Change::Mode(part, mode) => self.states.show_mode(timeline, *part, *mode),
            Change::Process(who, view) => self.states.show_process(timeline, pieces, who, view),
            Change::Ended(who) => self.states.end_process(timeline, who),
            Change::Thing(key) => count_thing(timeline, self.alloc, pieces, key),
            Change::Removed(key) => {
                count_nothing(timeline, self.alloc, key)?;
                self.boards.remove(timeline, key)
            }
        }
    }
}
