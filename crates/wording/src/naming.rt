// How things are named: processes, texts, messages, outcomes and waiting sets.

use apex_machine::WaitingSet;
use apex_types::{Code, End, ObjectKind, Out, Who};
use std::fmt::Write;
use std::{fmt, str};

/// How many bytes of a message are shown.
const MOST_BYTES: usize = 16;

/// How many bytes of a text from outside are shown.
const MOST_TEXT: usize = 60;

/// A process with its partition.
#[derive(Clone, Copy)]
pub struct Numbered(pub Who);

impl fmt::Display for Numbered {
    fn fmt<W: fmt::Write>(&self, f: &mut fmt::Formatter<W>) -> fmt::Result {
        let (process, partition) = (self.0.proc.number(), self.0.part.number());
        write!(f, "process {process} of partition {partition}")
    }
}

/// The occupant of a core: a process, or none.
#[derive(Clone, Copy)]
pub struct Occupant(pub Option<Who>);

impl fmt::Display for Occupant {
    fn fmt<W: fmt::Write>(&self, f: &mut fmt::Formatter<W>) -> fmt::Result {
        match self.0 {
            Some(who) => write!(f, "{}", Numbered(who)),
            None => write!(f, "no process"),
        }
    }
}

/// A text of printable ASCII, such as the name of a service or an object.
#[derive(Clone, Copy)]
pub struct Ascii<'a>(pub &'a [u8]);

impl fmt::Display for Ascii<'_> {
    fn fmt<W: fmt::Write>(&self, f: &mut fmt::Formatter<W>) -> fmt::Result {
        write!(f, "{}", str::from_utf8(self.0).unwrap_or("?"))
    }
}

/// A text from outside in quotes: its first bytes, with `?` for each that is not printable.
#[derive(Clone, Copy)]
pub struct Found<'a>(pub &'a [u8]);

impl fmt::Display for Found<'_> {
    fn fmt<W: fmt::Write>(&self, f: &mut fmt::Formatter<W>) -> fmt::Result {
        write!(f, "'")?;
        for byte in self.0.iter().take(MOST_TEXT) {
            if 0x20 <= *byte && *byte <= 0x7E {
                f.write_char(char::from(*byte))?;
            } else {
                f.write_char('?')?;
            }
        }
        if self.0.len() > MOST_TEXT {
            write!(f, "..")?;
        }
        write!(f, "'")
    }
}

/// A message: its first bytes in hexadecimal digits, and how many it has.
#[derive(Clone, Copy)]
pub struct Bytes<'a>(pub &'a [u8]);

impl fmt::Display for Bytes<'_> {
    fn fmt<W: fmt::Write>(&self, f: &mut fmt::Formatter<W>) -> fmt::Result {
        let count = self.0.len();
        if count == 0 {
            return write!(f, "no message");
        }
        write!(f, "the message ")?;
        for byte in self.0.iter().take(MOST_BYTES) {
            write!(f, "{byte:02x}")?;
        }
        if count > MOST_BYTES {
            write!(f, "..")?;
        }
        write!(f, " ({})", Count(count, "byte"))
    }
}

/// A number of things, whose plural ends in `s`, or in `es` after an `s`.
#[derive(Clone, Copy)]
pub struct Count(pub usize, pub &'static str);

impl fmt::Display for Count {
    fn fmt<W: fmt::Write>(&self, f: &mut fmt::Formatter<W>) -> fmt::Result {
        let (count, what) = (self.0, self.1);
        if count == 1 {
            write!(f, "1 {what}")
        } else if what.ends_with("s") {
            write!(f, "{count} {what}es")
        } else {
            write!(f, "{count} {what}s")
        }
    }
}

/// That there is this number of things: `there is 1 recording`, `there are 2 recordings`.
#[derive(Clone, Copy)]
pub struct ThereAre(pub usize, pub &'static str);

impl fmt::Display for ThereAre {
    fn fmt<W: fmt::Write>(&self, f: &mut fmt::Formatter<W>) -> fmt::Result {
        let verb = if self.0 == 1 { "is" } else { "are" };
        write!(f, "there {verb} {}", Count(self.0, self.1))
    }
}

/// The name of a code.
pub fn code_name(code: Code) -> &'static str {
    match code {
        Code::NoError => "NO_ERROR",
        Code::NoAction => "NO_ACTION",
        Code::NotAvailable => "NOT_AVAILABLE",
        Code::InvalidParam => "INVALID_PARAM",
        Code::InvalidConfig => "INVALID_CONFIG",
        Code::InvalidMode => "INVALID_MODE",
        Code::TimedOut => "TIMED_OUT",
    }
}

/// An outcome by its word in a recording.
pub fn out_name(out: Out) -> &'static str {
    match out {
        Out::Waits => "wait",
        Out::Never => "none",
        Out::Answer(code) => code_name(code),
    }
}

/// The name of a kind of objects or ports.
pub fn kind_name(kind: ObjectKind) -> &'static str {
    match kind {
        ObjectKind::Buffer => "buffer",
        ObjectKind::Blackboard => "blackboard",
        ObjectKind::Semaphore => "semaphore",
        ObjectKind::Event => "event",
        ObjectKind::Mutex => "mutex",
        ObjectKind::SamplingPort => "sampling port",
        ObjectKind::QueuingPort => "queuing port",
    }
}

/// A waiting set.
#[derive(Clone, Copy)]
pub struct Set(pub WaitingSet);

impl fmt::Display for Set {
    fn fmt<W: fmt::Write>(&self, f: &mut fmt::Formatter<W>) -> fmt::Result {
        let WaitingSet { kind, number, end } = self.0;
        let name = kind_name(kind);
        match (kind, end) {
            (ObjectKind::QueuingPort, End::Senders) => {
                write!(f, "to send through channel {number}")
            }
            (ObjectKind::QueuingPort, End::Receivers) => {
                write!(f, "to receive through channel {number}")
            }
            (_, End::Senders) => write!(f, "to send to {name} {number}"),
            (ObjectKind::Buffer, End::Receivers) => write!(f, "to receive from {name} {number}"),
            (ObjectKind::Blackboard, End::Receivers) => write!(f, "to read {name} {number}"),
            (_, End::Receivers) => write!(f, "for {name} {number}"),
        }
    }
}
