// An event of a trace, as the Chrome trace format has it.

ghost use Rattle.std.specs.Prelude.{◌≡◌, Some, true, false};

use crate::axis::Axis;

/// Where an event is: the number of a process and of a thread of the trace.
#[derive(Clone, Copy, Debug, PartialEq, Eq, Hash)]
pub struct Track {
    pub process: u64,
    pub thread: u64,
}

/// When an event is: the place of its record, and its time on the axis of times.
#[derive(Clone, Copy, Debug, PartialEq, Eq)]
pub struct Moment {
    pub place: u64,
    pub time: u64,
}

/// An event.
#[derive(Clone, Copy)]
pub struct Event<'a> {
    /// What a viewer shows of it. The end of a slice has none.
    pub name: Option<&'a str>,
    /// What it belongs to. Flows and waits have one.
    pub category: Option<&'static str>,
    pub phase: Phase,
    pub track: Track,
    /// A name of a process or a thread has none.
    pub moment: Option<Moment>,
    pub arguments: Option<Arguments<'a>>,
}

/// What an event is.
#[derive(Clone, Copy, Debug, PartialEq, Eq)]
pub enum Phase {
    /// The name of a process or a thread.
    Metadata,
    BeginSlice,
    EndSlice,
    /// A record, at one time and on one thread.
    Instant,
    /// What ends the run before its last record, at one time of the whole trace.
    Fault,
    /// The flow with this number begins.
    BeginFlow(u64),
    EndFlow(u64),
    /// The wait with this number begins.
    BeginWait(u64),
    EndWait(u64),
    Counter,
}

impl Phase {
    ghost use Rattle.view_trace.specs.Parts.{id_of, phase_head};

    /// The letter of the format with what it has beside it, up to the number of a flow or a wait, or else to that of a process.
    pub fn head(self) -> &'static str
        ensures { result.now ≡ phase_head self }
    {
        match self {
            Phase::Metadata => "\"ph\":\"M\",\"pid\":",
            Phase::BeginSlice => "\"ph\":\"B\",\"pid\":",
            Phase::EndSlice => "\"ph\":\"E\",\"pid\":",
            Phase::Instant => "\"ph\":\"i\",\"s\":\"t\",\"pid\":",
            Phase::Fault => "\"ph\":\"i\",\"s\":\"g\",\"pid\":",
            Phase::BeginFlow(_) => "\"ph\":\"s\",\"id\":",
            Phase::EndFlow(_) => "\"ph\":\"f\",\"bp\":\"e\",\"id\":",
            Phase::BeginWait(_) => "\"ph\":\"b\",\"id\":",
            Phase::EndWait(_) => "\"ph\":\"e\",\"id\":",
            Phase::Counter => "\"ph\":\"C\",\"pid\":",
        }
    }

    /// The number of a flow or a wait.
    pub fn id(self) -> Option<u64>
        ensures { result ≡ id_of self }
    {
        match self {
            Phase::BeginFlow(id) | Phase::EndFlow(id) | Phase::BeginWait(id) | Phase::EndWait(id) =>
                Some(id),
            Phase::Metadata
            | Phase::BeginSlice
            | Phase::EndSlice
            | Phase::Instant
            | Phase::Fault
            | Phase::Counter => None,
        }
    }
}

/// What an event says besides.
#[derive(Clone, Copy)]
pub enum Arguments<'a> {
    /// The name of a process or a thread.
    Name(&'a str),
    /// Of a slice or a wait: the time of the core that it concerns, and a detail.
    Slice { time: u64, detail: &'a str },
    /// Of a record: the time of its core, and the record in words.
    Record { time: u64, words: &'a str },
    /// Of a fault: why the answer is not a Yes.
    Explanation(&'a str),
    /// The priority of a process.
    Priority(u64),
    /// How many are held, and how many wait.
    Held { held: u64, waiting: u64 },
}

/// What a flow shows.
#[derive(Clone, Copy, Debug, PartialEq, Eq)]
pub enum FlowKind {
    Wake,
    Message,
}

impl FlowKind {
    fn name(self) -> &'static str {
        match self {
            FlowKind::Wake => "ends a wait",
            FlowKind::Message => "message",
        }
    }
}

/// The category of waits.
const WAIT: &str = "wait";

impl<'a> Event<'a> {
    ghost use Rattle.view_trace.specs.Event.{place_of, place_shown, shows_record, stamp_of};

    /// Its time on this axis.
    pub fn stamp(&self, axis: Axis) -> Option<u64>
        ensures { result ≡ stamp_of axis self.now.moment }
    {
        let moment = self.moment?;
        match axis {
            Axis::Place => Some(moment.place),
            Axis::Time => Some(moment.time),
        }
    }

    /// Its place, if its time on this axis does not say it.
    pub fn place_shown(&self, axis: Axis) -> Option<u64>
        ensures { result ≡ place_shown axis self.now.moment }
    {
        match axis {
            Axis::Place => None,
            Axis::Time => Some(self.moment?.place),
        }
    }

    /// Names a process of the trace.
    pub fn process_name(process: u64, name: &'a str) -> Event<'a>
        ensures { shows_record result.phase ≡ false }
    {
        let track = Track { process, thread: 0 };
        Event::naming("process_name", track, name)
    }

    /// Names a thread of the trace.
    pub fn thread_name(track: Track, name: &'a str) -> Event<'a>
        ensures { shows_record result.phase ≡ false }
    {
        Event::naming("thread_name", track, name)
    }

    fn naming(what: &'static str, track: Track, name: &'a str) -> Event<'a>
        ensures { shows_record result.phase ≡ false }
    {
        Event {
            name: Some(what),
            category: None,
            phase: Phase::Metadata,
            track,
            moment: None,
            arguments: Some(Arguments::Name(name)),
        }
    }

    /// Begins a slice, at this time of the core that it concerns.
    pub fn slice(
        track: Track,
        moment: Moment,
        name: &'a str,
        time: u64,
        detail: &'a str,
    ) -> Event<'a>
        ensures { shows_record result.phase ≡ false }
    {
        Event {
            name: Some(name),
            category: None,
            phase: Phase::BeginSlice,
            track,
            moment: Some(moment),
            arguments: Some(Arguments::Slice { time, detail }),
        }
    }

    /// Ends the slice of a track that was begun last.
    pub fn slice_end(track: Track, moment: Moment) -> Event<'a>
        ensures { shows_record result.phase ≡ false }
    {
        Event {
            name: None,
            category: None,
            phase: Phase::EndSlice,
            track,
            moment: Some(moment),
            arguments: None,
        }
    }

    /// A record, after which its core has this time.
    pub fn record(
        track: Track,
        moment: Moment,
        name: &'a str,
        time: u64,
        words: &'a str,
    ) -> Event<'a>
        ensures record { shows_record result.phase ≡ true }
        ensures place { place_of result ≡ Some moment.place }
    {
        Event {
            name: Some(name),
            category: None,
            phase: Phase::Instant,
            track,
            moment: Some(moment),
            arguments: Some(Arguments::Record { time, words }),
        }
    }

    /// What ends the run before its last record: the line of the answer, and why it is not a Yes.
    pub fn fault(track: Track, moment: Moment, answer: &'a str, explanation: &'a str) -> Event<'a>
        ensures fault { result.phase ≡ Phase.Fault }
        ensures place { place_of result ≡ Some moment.place }
        ensures answer { result.name ≡ Some answer.entry }
        ensures explanation { result.arguments ≡ Some (Arguments.Explanation explanation.entry) }
    {
        Event {
            name: Some(answer),
            category: None,
            phase: Phase::Fault,
            track,
            moment: Some(moment),
            arguments: Some(Arguments::Explanation(explanation)),
        }
    }

    /// A flow that begins or ends, as the phase says.
    pub fn flow(kind: FlowKind, phase: Phase, track: Track, moment: Moment) -> Event<'a>
        requires { shows_record phase ≡ false }
        ensures { shows_record result.phase ≡ false }
    {
        let name = kind.name();
        Event {
            name: Some(name),
            category: Some(name),
            phase,
            track,
            moment: Some(moment),
            arguments: None,
        }
    }

    /// The wait with this number begins, at this time of the core that it concerns.
    pub fn wait(
        number: u64,
        track: Track,
        moment: Moment,
        name: &'a str,
        time: u64,
        detail: &'a str,
    ) -> Event<'a>
        ensures { shows_record result.phase ≡ false }
    {
        Event {
            name: Some(name),
            category: Some(WAIT),
            phase: Phase::BeginWait(number),
            track,
            moment: Some(moment),
            arguments: Some(Arguments::Slice { time, detail }),
        }
    }

    /// The wait with this number, and of this name, ends.
    pub fn wait_end(number: u64, track: Track, moment: Moment, name: &'a str) -> Event<'a>
        ensures { shows_record result.phase ≡ false }
    {
        Event {
            name: Some(name),
            category: Some(WAIT),
            phase: Phase::EndWait(number),
            track,
            moment: Some(moment),
            arguments: None,
        }
    }

    /// Something that a process of the trace counts.
    pub fn counter(
        track: Track,
        moment: Moment,
        name: &'a str,
        arguments: Arguments<'a>,
    ) -> Event<'a>
        ensures { shows_record result.phase ≡ false }
    {
        Event {
            name: Some(name),
            category: None,
            phase: Phase::Counter,
            track,
            moment: Some(moment),
            arguments: Some(arguments),
        }
    }
}
