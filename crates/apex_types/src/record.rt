// The records of a recording.

ghost use Rattle.std.specs.Prelude.{◌≡◌, []};
ghost use Rattle.apex_types.specs.Numbers.{out_number};
ghost use Rattle.apex_types.specs.Rising.{IsRising};

use crate::code::Code;
use crate::error::ErrorCode;
use crate::number::{ChanId, CoreId, PartId, Place, ProcId};
use crate::request::Request;
use crate::service::Service;
use crate::text::Message;
use std::alloc::Global;
use std::marker::Model;

/// A process of a partition.
#[derive(Clone, Copy, Debug, PartialEq, Eq, PartialOrd, Ord, Hash)]
pub struct Who {
    pub part: PartId,
    pub proc: ProcId,
}

/// The processes whose waits a record ends, in rising order of partition and process, so that no process is listed twice.
#[derive(Debug, Drop)]
pub struct Woken {
    named: Vec<Who>,
}

impl Model for Woken {
    ghost use Rattle.std.specs.Prelude.{List};
    ghost use Rattle.apex_types.specs.declared.record.Who.{Who};
    ghost use Rattle.apex_types.specs.Rising.{IsRising};

    ghost Value = { List Who };

    ghost view = { λ woken. woken.named.items };

    ghost invariant = { λ woken. IsRising woken.named.items };
}

impl Woken {
    /// The list of these processes, each after the one before. Takes no memory.
    pub fn new(named: Vec<Who>) -> Woken
        requires { IsRising named.items }
        ensures { result ≡ named.items }
    {
        Woken { named }
    }

    /// The empty list. Takes no memory.
    pub fn none(alloc: Global) -> Woken
        ensures { result ≡ [] }
    {
        Woken {
            named: Vec::new(alloc),
        }
    }

    /// The processes, in their order.
    pub fn as_slice(&self) -> &[Who]
        ensures list { result.now ≡ self.now }
        ensures rising { IsRising result.now }
    {
        &self.named
    }
}

/// What a call says of its outcome.
#[derive(Clone, Copy, Debug, PartialEq, Eq)]
pub enum Out {
    /// The caller waits; its outcome comes later.
    Waits,
    /// The call does not return.
    Never,
    /// The outcome is due at once, with this code.
    Answer(Code),
}

impl Out {
    /// The number by which views give the outcome: that of its code, 7 for a call that waits, 8 for one that does not return.
    pub fn number(self) -> u8
        ensures { result ≡ out_number self }
    {
        match self {
            Out::Answer(code) => code.number(),
            Out::Waits => 7,
            Out::Never => 8,
        }
    }
}

/// What a call claims of the machine: the caller's current priority, the outcome with its values and its message, the channel of the port,
/// and the processes whose waits end.
#[derive(Debug, Drop)]
pub struct Claim {
    pub prio: u8,
    pub out: Out,
    pub val: Option<i64>,
    pub val2: Option<i64>,
    pub val3: Option<i64>,
    pub bytes: Message,
    pub chan: Option<ChanId>,
    pub woken: Woken,
}

/// A call of a service, which is one atomic moment.
#[derive(Debug, Drop)]
pub struct Call {
    pub who: Who,
    pub request: Request,
    pub claim: Claim,
}

/// The return of a service to its caller, with the outcome that was due.
#[derive(Debug, Drop)]
pub struct Return {
    pub who: Who,
    pub service: Service,
    pub code: Code,
    pub val: Option<i64>,
    pub val2: Option<i64>,
    pub val3: Option<i64>,
    pub bytes: Message,
}

/// A message that passes an end of a channel outside the module, with the processes whose waits end.
#[derive(Debug, Drop)]
pub struct Crossing {
    pub chan: ChanId,
    pub message: Message,
    pub woken: Woken,
}

/// An error of a process, and whether it restarts the process's partition.
#[derive(Clone, Copy, Debug, PartialEq, Eq)]
pub struct ErrorReport {
    pub who: Who,
    pub error: ErrorCode,
    pub restarts: bool,
}

/// What happened on a core.
#[derive(Debug, Drop)]
pub enum Body {
    Call(Call),
    Ret(Return),
    /// The core is given to this process, or is idle.
    Disp(Option<Who>),
    /// The core's time rises by one tick, and the waits of these processes end.
    Tick(Woken),
    /// A message arrives at a channel whose source is outside.
    Arrive(Crossing),
    /// A message departs from a queuing channel whose destination is outside.
    Depart(Crossing),
    /// An error of a process is reported.
    Error(ErrorReport),
}

/// A record of a core's recording, with its number there.
#[derive(Debug, Drop)]
pub struct Record {
    pub seq: u32,
    pub body: Body,
}

/// A record at its place in the proposed order.
#[derive(Debug, Drop)]
pub struct Ordered {
    pub pos: Place,
    pub core: CoreId,
    pub rec: Record,
}

/// A row of an order certificate: which record of which core comes next.
#[derive(Clone, Copy, Debug, PartialEq, Eq)]
pub struct Pair {
    pub core: u32,
    pub seq: u64,
}
