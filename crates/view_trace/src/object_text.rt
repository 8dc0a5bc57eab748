// The text of events, written one after another.

ghost use Rattle.std.specs.Prelude.{◌≡◌, ◌-◌, ◌≤◌, ◌++◌, [], OnOk, decimal, drop, length, take};
ghost use Rattle.json.specs.Print.{escape};

use crate::axis::Axis;
use crate::escapes::has_escape;
use crate::event::{Arguments, Event, Phase};
use itoa::Buffer;
use serde_json::Value;
use std::alloc::{AllocError, Global};

/// The text of events, which grows part by part.
#[derive(Drop)]
pub struct ObjectText {
    alloc: Global,
    text: Vec<u8>,
}

impl ObjectText {
    ghost use Rattle.view_trace.specs.Event.{event_text};
    ghost use Rattle.view_trace.specs.ObjectText.{text_of};
    ghost use Rattle.view_trace.specs.Parts.{arguments_part, category_part, enclosed, end_part, explained_part, id_of, id_part, name_part, numbered, phase_head, stamp_part, time_part};

    /// No text. Takes no memory.
    pub fn new(alloc: Global) -> ObjectText
        ensures { text_of result ≡ [] }
    {
        ObjectText {
            alloc,
            text: Vec::new(alloc),
        }
    }

    /// The text so far.
    pub fn as_bytes(&self) -> &[u8]
        ensures { result.now ≡ text_of self.now }
    {
        self.text.as_slice()
    }

    /// Forgets the text so far.
    pub fn clear(&mut self)
        ensures { text_of self.new ≡ [] }
    {
        self.text.clear();
    }

    /// Adds what is between objects.
    pub fn add_between(&mut self, text: &'static str) -> Result<(), AllocError>
        ensures { OnOk result (text_of self.new ≡ text_of self.old ++ text.now) }
    {
        self.put(text)
    }

    /// Adds an event: an object with the members that the event has on this axis.
    pub fn add_event(&mut self, axis: Axis, event: &Event<'_>) -> Result<(), AllocError>
        ensures { OnOk result (text_of self.new ≡ text_of self.old ++ event_text axis event.now) }
    {
        self.add_name(event.name)?;
        self.add_category(event.category)?;
        self.add_phase(event.phase)?;
        self.add_digits(event.track.process)?;
        self.add_number(",\"tid\":", event.track.thread)?;
        self.add_stamp(event.stamp(axis))?;
        self.add_end(event.place_shown(axis), &event.arguments)
    }

    fn add_name(&mut self, name: Option<&str>) -> Result<(), AllocError>
        ensures { OnOk result (text_of self.new ≡ text_of self.old ++ name_part name.entry) }
    {
        match name {
            Some(name) => self.add_text("{\"name\":\"", name, "\","),
            None => self.put("{"),
        }
    }

    fn add_category(&mut self, category: Option<&str>) -> Result<(), AllocError>
        ensures { OnOk result (text_of self.new ≡ text_of self.old ++ category_part category.entry) }
    {
        match category {
            Some(category) => self.add_text("\"cat\":\"", category, "\","),
            None => Ok(()),
        }
    }

    // Adds what an event is, with its number if it has one, up to the number of its process.
    fn add_phase(&mut self, phase: Phase) -> Result<(), AllocError>
        ensures { OnOk result (text_of self.new ≡ text_of self.old ++ (phase_head phase ++ id_part (id_of phase))) }
    {
        self.put(phase.head())?;
        match phase.id() {
            Some(id) => {
                self.add_digits(id)?;
                self.put(",\"pid\":")
            }
            None => Ok(()),
        }
    }

    fn add_stamp(&mut self, stamp: Option<u64>) -> Result<(), AllocError>
        ensures { OnOk result (text_of self.new ≡ text_of self.old ++ stamp_part stamp) }
    {
        match stamp {
            Some(stamp) => self.add_number(",\"ts\":", stamp),
            None => Ok(()),
        }
    }

    // Adds what an event says besides, if it says anything, and its end.
    fn add_end(
        &mut self,
        place: Option<u64>,
        arguments: &Option<Arguments<'_>>,
    ) -> Result<(), AllocError>
        ensures { OnOk result (text_of self.new ≡ text_of self.old ++ end_part place arguments.now) }
    {
        match arguments {
            Some(arguments) => self.add_arguments(place, arguments),
            None => self.put("}"),
        }
    }

    fn add_arguments(
        &mut self,
        place: Option<u64>,
        arguments: &Arguments<'_>,
    ) -> Result<(), AllocError>
        ensures { OnOk result (text_of self.new ≡ text_of self.old ++ arguments_part place arguments.now) }
    {
        match arguments {
            Arguments::Name(name) => self.add_text(",\"args\":{\"name\":\"", name, "\"}}"),
            Arguments::Slice { time, detail } => {
                self.add_time(place, *time)?;
                self.add_text(",\"detail\":\"", detail, "\"}}")
            }
            Arguments::Record { time, words } => {
                self.add_time(place, *time)?;
                self.add_text(",\"record\":\"", words, "\"}}")
            }
            Arguments::Explanation(words) => {
                self.begin_explanation(place)?;
                self.add_text("", words, "\"}}")
            }
            Arguments::Priority(priority) => {
                self.add_number(",\"args\":{\"priority\":", *priority)?;
                self.put("}}")
            }
            Arguments::Held { held, waiting } => {
                self.add_number(",\"args\":{\"held\":", *held)?;
                self.add_number(",\"waiting\":", *waiting)?;
                self.put("}}")
            }
        }
    }

    // Begins the arguments with the place, if it is shown, and a time of a core.
    fn add_time(&mut self, place: Option<u64>, time: u64) -> Result<(), AllocError>
        ensures { OnOk result (text_of self.new ≡ text_of self.old ++ time_part place time) }
    {
        match place {
            Some(place) => {
                self.add_number(",\"args\":{\"place\":", place)?;
                self.add_number(",\"time\":", time)
            }
            None => self.add_number(",\"args\":{\"time\":", time),
        }
    }

    // Begins the arguments with the place, if it is shown, up to an explanation.
    fn begin_explanation(&mut self, place: Option<u64>) -> Result<(), AllocError>
        ensures { OnOk result (text_of self.new ≡ text_of self.old ++ explained_part place) }
    {
        match place {
            Some(place) => {
                self.add_number(",\"args\":{\"place\":", place)?;
                self.put(",\"explanation\":\"")
            }
            None => self.put(",\"args\":{\"explanation\":\""),
        }
    }

    // Adds a text in a string, after what leads to it and before what ends it.
    fn add_text(
        &mut self,
        before: &'static str,
        text: &str,
        after: &'static str,
    ) -> Result<(), AllocError>
        ensures { OnOk result (text_of self.new ≡ text_of self.old ++ enclosed before.now text.now after.now) }
    {
        self.put(before)?;
        self.add_escaped(text)?;
        self.put(after)
    }

    // Adds a text as it is in a string of JSON. One without a character that JSON escapes is added as it is.
    fn add_escaped(&mut self, text: &str) -> Result<(), AllocError>
        ensures { OnOk result (text_of self.new ≡ text_of self.old ++ escape text.now) }
    {
        if has_escape(text) {
            let json = Value::String(String::from_str(self.alloc, text)?).to_string(self.alloc)?;
            return self.put_inside(json.as_bytes());
        }
        self.put(text)
    }

    // Adds what is between the quotation marks of a string of JSON.
    fn put_inside(&mut self, json: &[u8]) -> Result<(), AllocError>
        requires { 2 ≤ length json.now }
        ensures { OnOk result (text_of self.new ≡ text_of self.old ++ take (length json.now - 2) (drop 1 json.now)) }
    {
        self.text.extend_from_slice(&json[1..json.len() - 1])
    }

    // Adds a number, after what leads to it.
    fn add_number(&mut self, before: &'static str, value: u64) -> Result<(), AllocError>
        ensures { OnOk result (text_of self.new ≡ text_of self.old ++ numbered before.now value) }
    {
        self.put(before)?;
        self.add_digits(value)
    }

    fn add_digits(&mut self, value: u64) -> Result<(), AllocError>
        ensures { OnOk result (text_of self.new ≡ text_of self.old ++ decimal value) }
    {
        let mut digits = Buffer::new();
        self.put(digits.format(value))
    }

    fn put(&mut self, text: &str) -> Result<(), AllocError>
        ensures { OnOk result (text_of self.new ≡ text_of self.old ++ text.now) }
    {
        self.text.extend_from_slice(text.as_bytes())
    }
}
