// The events of a trace, which go to a sink. Fewer than 256 of them are held at a time, as text.

ghost use Rattle.std.specs.Prelude.{◌≡◌, ◌<◌, ◌++◌, [], ◌∷◌, OnOk, OnErr, codes, false, true};
ghost use Rattle.sink.specs.Written.{IsWritten, IsCut};
ghost use Rattle.view_trace.specs.declared.events.TheConstants.{MOST_HELD};

use crate::axis::Axis;
use crate::event::Event;
use crate::fault::TraceFault;
use crate::object_text::ObjectText;
use sink::{Sink, put_all};
use std::alloc::{AllocError, Global};

/// How many events are held before they are written together.
pub const MOST_HELD: usize = 256;

/// The events of a trace, which go to a sink. Fewer than 256 of them are held at a time, as text.
#[derive(Drop)]
pub struct Events<'a, W> {
    axis: Axis,
    output: &'a mut W,
    text: ObjectText,
    // How many events the text has.
    held: usize,
    is_first: bool,
    ghost few: { held < MOST_HELD },
}

impl<'a, W: Sink> Events<'a, W> {
    ghost use Rattle.view_trace.specs.ObjectText.{text_of};
    ghost use Rattle.view_trace.specs.Event.{shows_record};
    ghost use Rattle.view_trace.specs.Trace.{Adds, AddsOthers, IsCutIn, begun, comma_before, event_texts, trace_of};

    /// No events on this axis; those to come go to this sink. Takes no memory.
    pub fn new(alloc: Global, axis: Axis, output: &'a mut W) -> Events<'a, W>
        ensures { trace_of W.bytes result ≡ record { axis = axis; taken = W.bytes output.old; held = []; is_first = true } }
    {
        Events {
            axis,
            output,
            text: ObjectText::new(alloc),
            held: 0,
            is_first: true,
        }
    }

    /// How many events are held.
    pub fn held(&self) -> usize
        ensures { result < MOST_HELD }
    {
        self.held
    }

    /// Begins the trace.
    pub fn begin(&mut self) -> Result<(), AllocError>
        ensures { OnOk result (trace_of W.bytes self.new ≡ begun (trace_of W.bytes self.old)) }
    {
        self.text
            .add_between("{\"displayTimeUnit\":\"ns\",\"traceEvents\":[\n")
    }

    /// Ends the trace, and writes what is held.
    pub fn end(&mut self) -> Result<(), TraceFault>
        ensures written { OnOk result (IsWritten (W.bytes self.old.output.now) (text_of self.old.text ++ codes "\n]}\n") (W.bytes self.new.output.now)) }
        ensures cut { OnErr result (IsCut (W.bytes self.old.output.now) (text_of self.old.text ++ codes "\n]}\n") (W.bytes self.new.output.now)) }
    {
        self.text.add_between("\n]}\n")?;
        self.write()
    }

    /// Adds an event, and writes the events that are held if they are many.
    pub fn add(&mut self, event: &Event<'_>) -> Result<(), TraceFault>
        ensures added { OnOk result (Adds (event.now ∷ []) (trace_of W.bytes self.old) (trace_of W.bytes self.new)) }
        ensures cut { OnErr result (IsCutIn (event.now ∷ []) (trace_of W.bytes self.old) (trace_of W.bytes self.new)) }
    {
        self.add_text(event)?;
        if self.held + 1 < MOST_HELD {
            self.held += 1;
            return Ok(());
        }
        self.write()
    }

    /// Adds an event that shows no record.
    pub fn add_mark(&mut self, event: &Event<'_>) -> Result<(), TraceFault>
        requires { shows_record event.now.phase ≡ false }
        ensures { OnOk result (AddsOthers (trace_of W.bytes self.old) (trace_of W.bytes self.new)) }
    {
        self.add(event)
    }

    // Adds an event to what is held. Each but the first comes after a comma.
    fn add_text(&mut self, event: &Event<'_>) -> Result<(), AllocError>
        ensures held { OnOk result (text_of self.new.text ≡ text_of self.old.text ++ event_texts self.old.axis self.old.is_first (event.now ∷ [])) }
        ensures next { OnOk result (self.new.is_first ≡ false) }
        ensures axis { self.new.axis ≡ self.old.axis }
        ensures taken { W.bytes self.new.output.now ≡ W.bytes self.old.output.now }
    {
        self.add_comma()?;
        self.text.add_event(self.axis, event)
    }

    fn add_comma(&mut self) -> Result<(), AllocError>
        ensures held { OnOk result (text_of self.new.text ≡ text_of self.old.text ++ comma_before self.old.is_first) }
        ensures next { OnOk result (self.new.is_first ≡ false) }
        ensures axis { self.new.axis ≡ self.old.axis }
        ensures taken { W.bytes self.new.output.now ≡ W.bytes self.old.output.now }
    {
        if self.is_first {
            self.is_first = false;
            return Ok(());
        }
        self.text.add_between(",\n")
    }

    // Writes what is held, and forgets it.
    fn write(&mut self) -> Result<(), TraceFault>
        ensures written { OnOk result (IsWritten (W.bytes self.old.output.now) (text_of self.old.text) (W.bytes self.new.output.now)) }
        ensures cut { OnErr result (IsCut (W.bytes self.old.output.now) (text_of self.old.text) (W.bytes self.new.output.now)) }
        ensures nothing { text_of self.new.text ≡ [] }
        ensures next { self.new.is_first ≡ self.old.is_first }
        ensures axis { self.new.axis ≡ self.old.axis }
    {
        let written = put_all(self.output, self.text.as_bytes());
        self.text.clear();
        self.held = 0;
        written?;
        Ok(())
    }
}
