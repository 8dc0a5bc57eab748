// What can happen next on a core.

use crate::claims::{bare_claim, claim_what_is_given};
use crate::crossings::crossing;
use crate::errors::{OF_OCCUPANT, missed_on, report_of};
use crate::machine::{Machine, PartitionNow};
use crate::walk_fault::WalkFault;
use crate::woken::woken_of;
use apex_machine::{Mode, Outcome};
use apex_types::{
    Body, Call, CoreId, ErrorCode, Format, Ordered, PartId, Place, Record, Return, Who, Woken,
};
use piece_check::{Misnaming, Piece, Seen};
use seed_choices::{Choices, PortNames, Situation};
use std::alloc::{AllocError, Global};

// A tick comes in place of one in so many calls and returns.
const TICK_IN: u64 = 12;

// A dispatch that changes nothing comes in place of one in so many other records.
const REPEAT_IN: u64 = 60;

// An error of the process that a core runs comes in place of one in so many of its records.
const ERROR_IN: u64 = 160;

// A message from or to the outside comes in place of one in so many records, if a channel has an end there.
const CROSSING_IN: u64 = 20;

/// A place for a record: its place in the order, its core, and its number there.
#[derive(Clone, Copy, Debug)]
pub struct Spot {
    pub place: Place,
    pub core: CoreId,
    pub seq: u32,
}

/// By what the next record is chosen.
#[derive(Clone, Copy)]
pub struct Chooser<'a> {
    pub alloc: Global,
    pub ports: &'a PortNames,
    pub format: Format,
}

impl Spot {
    /// The record of this body there.
    pub fn record(&self, body: Body) -> Ordered {
        Ordered {
            pos: self.place,
            core: self.core,
            rec: Record {
                seq: self.seq,
                body,
            },
        }
    }
}

impl Chooser<'_> {
    /// What can happen next on a core, if something is found: in format 3 now and then a message from or to the outside; else the report of
    /// a deadline that is missed, a dispatch that is due, in format 3 now and then the report of another error, a tick, a return that is due,
    /// or a call.
    ///
    /// `AllocError` if memory is refused.
    pub fn propose(
        &self,
        choices: &mut Choices,
        machine: &Machine<'_>,
        spot: Spot,
    ) -> Result<Option<Ordered>, AllocError> {
        if self.format == Format::Three && choices.one_in(CROSSING_IN) {
            if let Some(body) = crossing(self.alloc, choices, machine)? {
                return Ok(Some(spot.record(body)));
            }
        }
        if let Some(body) = self.missed(choices, machine, spot.core)? {
            return Ok(Some(spot.record(body)));
        }
        let now = machine.core(spot.core);
        let choice = choice_of(machine, spot.core);
        if choice != now.occupant || choices.one_in(REPEAT_IN) {
            return Ok(Some(spot.record(Body::Disp(choice))));
        }
        match choice {
            Some(who) if self.format == Format::Three && choices.one_in(ERROR_IN) => {
                let error = choices.of(&OF_OCCUPANT).unwrap_or(ErrorCode::NumericError);
                Ok(Some(spot.record(report_of(machine, who, error))))
            }
            Some(who) if !choices.one_in(TICK_IN) => self.propose_of(choices, machine, spot, who),
            _ => Ok(Some(spot.record(self.tick(machine, spot.core)?))),
        }
    }

    /// The report of a deadline that is missed on a core, or else the dispatch that is due there, or else a tick of it.
    ///
    /// `AllocError` if memory is refused.
    pub fn idle(
        &self,
        choices: &mut Choices,
        machine: &Machine<'_>,
        spot: Spot,
    ) -> Result<Ordered, AllocError> {
        if let Some(body) = self.missed(choices, machine, spot.core)? {
            return Ok(spot.record(body));
        }
        let choice = choice_of(machine, spot.core);
        if choice != machine.core(spot.core).occupant {
            return Ok(spot.record(Body::Disp(choice)));
        }
        Ok(spot.record(self.tick(machine, spot.core)?))
    }

    // The report of a deadline that is missed on a core, if there is one: of several, one that is chosen.
    fn missed(
        &self,
        choices: &mut Choices,
        machine: &Machine<'_>,
        core: CoreId,
    ) -> Result<Option<Body>, AllocError> {
        let missed = missed_on(self.alloc, machine, core)?;
        match choices.of(&missed) {
            Some(who) => Ok(Some(report_of(machine, who, ErrorCode::DeadlineMissed))),
            None => Ok(None),
        }
    }

    // The return that is due to a process, or else a call of it.
    fn propose_of(
        &self,
        choices: &mut Choices,
        machine: &Machine<'_>,
        spot: Spot,
        who: Who,
    ) -> Result<Option<Ordered>, AllocError> {
        let Who { part, proc } = who;
        let Some(partition) = machine.partition(part) else {
            return Ok(None);
        };
        let Some(process) = partition.state.processes().proc(proc) else {
            return Ok(None);
        };
        if let Some(outcome) = &process.due {
            let ret = return_of(Who { part, proc }, outcome)?;
            return Ok(Some(spot.record(Body::Ret(ret))));
        }
        let prio = process.current_priority;
        let situation = Situation {
            config: machine.config(),
            ports: self.ports,
            state: partition.state,
            who: Who { part, proc },
            format: self.format,
            others_run: others_run(machine, part),
        };
        let request = situation.request(self.alloc, choices)?;
        let mut ordered = spot.record(Body::Call(Call {
            who: Who { part, proc },
            request,
            claim: bare_claim(self.alloc, prio),
        }));
        if claim_what_is_given(self.alloc, choices, machine, &mut ordered)? {
            return Ok(Some(ordered));
        }
        Ok(None)
    }

    // A tick of a core, which names the processes whose waits it ends.
    fn tick(&self, machine: &Machine<'_>, core: CoreId) -> Result<Body, AllocError> {
        let nobody = Woken::none(self.alloc);
        let mut named = Vec::new(self.alloc);
        for number in 0..machine.piece_count() {
            if let Some(piece) = machine.piece(number) {
                add_due(&mut named, piece, core, &nobody)?;
            }
        }
        Ok(Body::Tick(woken_of(self.alloc, named)?))
    }
}

// The process that a core is to run now: none if it is in no window, or if none is ready.
fn choice_of(machine: &Machine<'_>, core: CoreId) -> Option<Who> {
    let owner = machine.core(core).owner?;
    let PartitionNow { state, .. } = machine.partition(owner)?;
    state.choice_on(owner, core)
}

// Adds the processes of a piece's partition whose waits the next tick of a core ends.
fn add_due(
    named: &mut Vec<Who>,
    piece: &Piece,
    core: CoreId,
    nobody: &Woken,
) -> Result<(), AllocError> {
    let Seen::Partition {
        number,
        clock,
        state,
    } = piece.seen()
    else {
        return Ok(());
    };
    let table = state.processes();
    let next = clock.now(core).saturating_add(1);
    if table.names_those_due(number, core, next, nobody) {
        return Ok(());
    }
    for index in 0..=table.len() {
        if let Some((process, _)) = table.at(index) {
            if piece.misnamed_at_tick(core, nobody, *process) == Some(Misnaming::Missing) {
                named.push(Who {
                    part: number,
                    proc: *process,
                })?;
            }
        }
    }
    Ok(())
}

// The return of a pending outcome.
fn return_of(who: Who, outcome: &Outcome) -> Result<Return, AllocError> {
    Ok(Return {
        who,
        service: outcome.service,
        code: outcome.code,
        val: outcome.val,
        val2: outcome.val2,
        val3: outcome.val3,
        bytes: outcome.bytes.clone()?,
    })
}

// Whether another partition than this one is not in the mode IDLE.
fn others_run(machine: &Machine<'_>, part: PartId) -> bool {
    for number in 0..machine.piece_count() {
        if let Some(piece) = machine.piece(number) {
            if is_of_another(piece, part) {
                return true;
            }
        }
    }
    false
}

// Whether a piece is of another partition than this one that is not in the mode IDLE.
fn is_of_another(piece: &Piece, part: PartId) -> bool {
    match piece.seen() {
        Seen::Partition { number, state, .. } => {
            number != part && state.processes().mode() != Mode::Idle
        }
        Seen::Module { .. } | Seen::Channel { .. } => false,
    }
}
