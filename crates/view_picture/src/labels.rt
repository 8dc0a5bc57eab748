// The labels of lanes and records, and records in words.

use crate::lane_key::LaneKey;
use crate::process_bars::Short;
use crate::role::Role;
use crate::thing_bars::KeyName;
use apex_types::{Body, Code, Ordered, Out, Who};
use piece_check::{Piece, Seen};
use std::alloc::{AllocError, Global};
use std::fmt::Display;
use wording::{Ascii, Look, Words, code_name, out_name, tell_record};

/// The occupant of a core, in a few words.
#[derive(Clone, Copy)]
pub struct ShortOccupant(pub Option<Who>);

impl Display for ShortOccupant {
    fn fmt<W: std::fmt::Write>(&self, f: &mut std::fmt::Formatter<W>) -> std::fmt::Result {
        match self.0 {
            Some(who) => write!(f, "{}", Short(who)),
            None => write!(f, "nobody"),
        }
    }
}

/// The label of a lane.
pub fn label_of_lane(alloc: Global, key: &LaneKey, name: &str) -> Result<String, AllocError> {
    match key {
        LaneKey::Core(core) => format!(in alloc; "core {}", core.number()),
        LaneKey::Partition(part) => format!(in alloc; "partition {}", part.number()),
        LaneKey::Process(who) if who.proc.number() == 0 => {
            String::from_str(alloc, Role::Initialising.label())
        }
        LaneKey::Process(who) => format!(in alloc; "process {}{name}", who.proc.number()),
        LaneKey::Thing(key) => format!(in alloc; "{}{name}", KeyName(*key)),
    }
}

/// The name of a process in quotes, with a space before it; nothing if it has no name.
pub fn process_name(alloc: Global, pieces: &[Piece], who: &Who) -> Result<String, AllocError> {
    for piece in pieces {
        let Seen::Partition { number, state, .. } = piece.seen() else {
            continue;
        };
        if number == who.part {
            if let Some(process) = state.processes().proc(who.proc) {
                return quoted(alloc, process.name.as_bytes());
            }
        }
    }
    Ok(String::new(alloc))
}

/// A name in quotes, with a space before it; nothing if it is empty.
pub fn quoted(alloc: Global, name: &[u8]) -> Result<String, AllocError> {
    if name.is_empty() {
        return Ok(String::new(alloc));
    }
    format!(in alloc; " \"{}\"", Ascii(name))
}

/// The label of a record.
pub fn label_of(alloc: Global, ordered: &Ordered, time: Option<u64>) -> Result<String, AllocError> {
    match &ordered.rec.body {
        Body::Tick(_) => match time {
            Some(time) => format!(in alloc; "tick, time {time}"),
            None => String::from_str(alloc, "tick"),
        },
        Body::Arrive(crossing) => {
            format!(in alloc; "arrive at channel {}", crossing.chan.number())
        }
        Body::Depart(crossing) => {
            format!(in alloc; "depart from channel {}", crossing.chan.number())
        }
        Body::Error(report) => {
            format!(in alloc; "{} of {}", Ascii(report.error.name()), Short(report.who))
        }
        Body::Disp(Some(who)) => format!(in alloc; "dispatch {}", Short(*who)),
        Body::Disp(None) => String::from_str(alloc, "dispatch nobody"),
        Body::Ret(ret) if ret.code == Code::NoError => {
            format!(in alloc; "return {}", Ascii(ret.service.name()))
        }
        Body::Ret(ret) => {
            format!(in alloc;
                "return {}: {}",
                Ascii(ret.service.name()),
                code_name(ret.code)
            )
        }
        Body::Call(call) => {
            let service = call.request.service();
            match call.claim.out {
                Out::Answer(Code::NoError) | Out::Never => {
                    format!(in alloc; "{}", Ascii(service.name()))
                }
                Out::Waits => format!(in alloc; "{}: waits", Ascii(service.name())),
                Out::Answer(code) => {
                    format!(in alloc; "{}: {}", Ascii(service.name()), code_name(code))
                }
            }
        }
    }
}

/// What follows the words of a record while they grow. The words of a record are ASCII, so they do not have it.
const END: char = '\u{25a0}';

/// A record in words.
///
/// If memory is refused to words, they lack all that is said afterwards, and so the end: that is `AllocError` here. The words of a record
/// are far shorter than a text may be, so the end is missing for no other cause.
pub fn words_of(alloc: Global, ordered: &Ordered) -> Result<String, AllocError> {
    let mut words = Words::new(alloc);
    tell_record(&mut words, ordered);
    words.say(END);
    let mut text = format!(in alloc; "{}", words.shown(Look::plain()))?;
    match text.pop() {
        Some(END) => Ok(text),
        _ => Err(AllocError),
    }
}

/// Adds words to others.
pub fn add_words(hover: &mut String, words: impl Display + Drop) -> Result<(), AllocError> {
    if !hover.is_empty() {
        hover.push_str("; ")?;
    }
    write!(hover, "{words}")
}
