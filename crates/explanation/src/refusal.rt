// A record that a piece rejects, and what is read from the piece to explain it.

use apex_types::{Body, Call, Cause, CoreId, Ordered, PartId, Who};
use module_config::Config;
use partition_state::PartitionState;
use piece_check::{Evidence, Piece, Seen};
use scheduling::Clock;

/// A record that a piece rejects for a cause. The piece is as it was before the record.
#[derive(Clone, Copy)]
pub struct Refusal<'a> {
    pub config: &'a Config,
    pub piece: &'a Piece,
    pub ordered: &'a Ordered,
    pub cause: Cause,
}

/// A partition that rejects a record: its number and its state.
#[derive(Clone, Copy)]
pub struct Refusing<'a> {
    pub number: PartId,
    pub state: &'a PartitionState,
}

impl<'a> Refusal<'a> {
    /// What shows that the demand fails.
    pub fn evidence(&self) -> Evidence<'a> {
        self.piece.evidence(self.config, self.ordered, self.cause)
    }

    /// The core of the record.
    pub fn core(&self) -> CoreId {
        self.ordered.core
    }

    /// The time of the record's core, in ticks.
    pub fn time(&self) -> u64 {
        match self.piece.seen() {
            Seen::Module { clock } => clock.now(self.ordered.core),
            Seen::Partition { clock, .. } => clock.now(self.ordered.core),
            Seen::Channel { times, .. } => times.now(self.ordered.core),
        }
    }

    /// The clock of the module; None if another piece rejects the record.
    pub fn module_clock(&self) -> Option<&'a Clock> {
        match self.piece.seen() {
            Seen::Module { clock } => Some(clock),
            Seen::Partition { .. } | Seen::Channel { .. } => None,
        }
    }

    /// The partition that rejects the record; None if another piece does.
    pub fn partition(&self) -> Option<Refusing<'a>> {
        match self.piece.seen() {
            Seen::Partition { number, state, .. } => Some(Refusing { number, state }),
            Seen::Module { .. } | Seen::Channel { .. } => None,
        }
    }

    /// The call that is rejected; None if the record is not a call.
    pub fn call(&self) -> Option<&'a Call> {
        match &self.ordered.rec.body {
            Body::Call(call) => Some(call),
            Body::Ret(_)
            | Body::Disp(_)
            | Body::Tick(_)
            | Body::Arrive(_)
            | Body::Depart(_)
            | Body::Error(_) => None,
        }
    }

    /// The process that runs on the core by the record: the one that calls or returns, or that is dispatched. None if there is none.
    pub fn runner(&self) -> Option<Who> {
        match &self.ordered.rec.body {
            Body::Disp(who) => *who,
            Body::Call(_) | Body::Ret(_) => self.actor(),
            Body::Tick(_) | Body::Arrive(_) | Body::Depart(_) | Body::Error(_) => None,
        }
    }

    /// The process that calls or returns, or that has the error; None for any other record.
    pub fn actor(&self) -> Option<Who> {
        match &self.ordered.rec.body {
            Body::Call(call) => Some(call.who),
            Body::Ret(ret) => Some(ret.who),
            Body::Error(report) => Some(report.who),
            Body::Disp(_) | Body::Tick(_) | Body::Arrive(_) | Body::Depart(_) => None,
        }
    }
}
