// What events say: the names of slices, waits, counters and records, and their details.

use apex_machine::{Mode, Wait};
use apex_types::{Body, Ordered, Who};
use piece_check::{Piece, Seen};
use run_view::{Contents, ProcessState, ProcessView, ThingKey};
use std::alloc::{AllocError, Global};
use std::{fmt, str};
use wording::{Ascii, Look, Numbered, Set, Words, kind_name, tell_record};

/// A name: one that is always the same, or one that was made.
#[derive(Drop)]
pub enum Named {
    Always(&'static str),
    Made(String),
}

impl Named {
    pub fn as_str(&self) -> &str {
        match self {
            Named::Always(name) => name,
            Named::Made(name) => name.as_str(),
        }
    }
}

/// What a process does, as the name of its slice.
pub fn state_name(alloc: Global, view: &ProcessView, runs: bool) -> Result<Named, AllocError> {
    match view.state {
        ProcessState::Dormant => Ok(Named::Always("dormant")),
        ProcessState::Ready if runs => Ok(Named::Always("running")),
        ProcessState::Ready => Ok(Named::Always("ready")),
        ProcessState::Waiting(wait) => Ok(Named::Made(wait_name(alloc, wait)?)),
        ProcessState::Suspended(_) => Ok(Named::Always("suspended")),
        ProcessState::Faulted(_) => Ok(Named::Always("faulted")),
    }
}

// What a process waits for.
#[derive(Clone, Copy)]
struct Waits(Wait);

impl fmt::Display for Waits {
    fn fmt<W: fmt::Write>(&self, f: &mut fmt::Formatter<W>) -> fmt::Result {
        match self.0 {
            Wait::Nothing => write!(f, "ready"),
            Wait::NormalMode(_) => write!(f, "waits for NORMAL"),
            Wait::Delay(_) => write!(f, "waits for its delay"),
            Wait::FirstRelease(_) => write!(f, "waits for its first release"),
            Wait::Until(_) => write!(f, "waits in TIMED_WAIT"),
            Wait::PeriodicRelease(_) => write!(f, "waits for its release"),
            Wait::Suspended(_) => write!(f, "suspended itself"),
            Wait::At(set, _) => write!(f, "waits {}", Set(set)),
            Wait::ForLock => write!(f, "waits for the lock"),
        }
    }
}

/// What a process waits for, as the name of its wait.
pub fn wait_name(alloc: Global, wait: Wait) -> Result<String, AllocError> {
    format!(in alloc; "{}", Waits(wait))
}

/// When a wait is over at the latest, in words; empty if no time is known.
pub fn due_text(alloc: Global, wait: Wait) -> Result<String, AllocError> {
    let due = match wait {
        Wait::Nothing | Wait::NormalMode(_) | Wait::ForLock => None,
        Wait::FirstRelease(time)
        | Wait::Delay(time)
        | Wait::Until(time)
        | Wait::PeriodicRelease(time) => Some(time),
        Wait::Suspended(due) | Wait::At(_, due) => due,
    };
    match due {
        Some(time) => format!(in alloc; "until time {time}"),
        None => Ok(String::new(alloc)),
    }
}

/// The name of a mode.
pub fn mode_name(mode: Mode) -> &'static str {
    match mode {
        Mode::Idle => "IDLE",
        Mode::ColdStart => "COLD_START",
        Mode::WarmStart => "WARM_START",
        Mode::Normal => "NORMAL",
    }
}

/// The name of the counter of an object or a channel.
pub fn counter_name(alloc: Global, key: &ThingKey) -> Result<String, AllocError> {
    match key {
        ThingKey::Object { kind, number, .. } => {
            format!(in alloc; "{} {number}", kind_name(*kind))
        }
        ThingKey::Lock(_) => format!(in alloc; "the lock"),
        ThingKey::Channel(channel) => format!(in alloc; "channel {}", channel.number()),
    }
}

/// What an object or a channel holds, as a number: its messages, its value, 1 for an event that is up, or how often the
/// owner of a mutex or a lock has acquired it.
pub fn held_number(contents: &Contents) -> u64 {
    match contents {
        Contents::Queue { count, .. } => *count as u64,
        Contents::Board { shown: Some(_) } | Contents::Sampled { written: Some(_) } => 1,
        Contents::Board { shown: None } | Contents::Sampled { written: None } => 0,
        Contents::Semaphore { value, .. } => u64::from(*value),
        Contents::Event { is_up: true } => 1,
        Contents::Event { is_up: false } => 0,
        Contents::Mutex { count, .. } => *count,
        Contents::Lock { level, .. } => u64::from(*level),
    }
}

/// The name of the message of a record: whose it is.
pub fn message_name(alloc: Global, ordered: &Ordered) -> Result<String, AllocError> {
    match &ordered.rec.body {
        Body::Call(call) => format!(in alloc; "message of {}", Numbered(call.who)),
        _ => String::from_str(alloc, "message from outside"),
    }
}

/// The name of a process.
pub fn name_of(alloc: Global, pieces: &[Piece], who: &Who) -> Result<String, AllocError> {
    let number = who.proc.number();
    for piece in pieces {
        if let Some(name) = name_in(piece, who) {
            return format!(in alloc; "process {number} {}", Ascii(name));
        }
    }
    format!(in alloc; "process {number}")
}

// The name that a piece gives a process, if it is of its partition and has one.
fn name_in<'a>(piece: &'a Piece, who: &Who) -> Option<&'a [u8]> {
    let Seen::Partition { number, state, .. } = piece.seen() else {
        return None;
    };
    if number != who.part {
        return None;
    }
    let name = state.processes().proc(who.proc)?.name.as_bytes();
    if name.is_empty() { None } else { Some(name) }
}

/// The name of a record that is accepted.
pub fn record_name(alloc: Global, ordered: &Ordered) -> Result<Named, AllocError> {
    let made = match &ordered.rec.body {
        Body::Call(call) => return Ok(Named::Always(ascii(call.request.service().name()))),
        Body::Disp(_) => return Ok(Named::Always("dispatch")),
        Body::Tick(_) => return Ok(Named::Always("tick")),
        Body::Ret(ret) => format!(in alloc; "return {}", ascii(ret.service.name()))?,
        Body::Arrive(crossing) => {
            format!(in alloc; "arrive at channel {}", crossing.chan.number())?
        }
        Body::Depart(crossing) => {
            format!(in alloc; "depart from channel {}", crossing.chan.number())?
        }
        Body::Error(report) => format!(in alloc; "{}", Ascii(report.error.name()))?,
    };
    Ok(Named::Made(made))
}

// The name of a service, which is ASCII.
fn ascii(name: &'static [u8]) -> &'static str {
    str::from_utf8(name).unwrap_or("?")
}

/// A record in words.
pub fn words_of(alloc: Global, ordered: &Ordered) -> Result<String, AllocError> {
    let mut words = Words::new(alloc);
    tell_record(&mut words, ordered);
    if words.lacks_memory() {
        return Err(AllocError);
    }
    format!(in alloc; "{}", words.shown(Look::plain()))
}
