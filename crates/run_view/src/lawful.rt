// What would have been lawful if a piece rejects a record.

ghost use Rattle.std.specs.Prelude.{◌≡◌, ◌++◌, [], ◌∷◌, IfOk, OnOk, map};
ghost use Rattle.apex_machine.specs.Answer.{NamesExactly};
ghost use Rattle.wait_set.specs.Givens.{answer_given};
ghost use Rattle.piece_check.specs.Parts.{AgreesOn};
ghost use Rattle.run_view.specs.Lawful.{IsLawful, IsLawfulCall, IsLawfulClaim, PutsRight, all_put_right, if_misnamed, lawful_names, lawful_priority, put_right, put_right_at_tick};

use crate::waiter::{Waiter, waiters_of};
use apex_types::{Body, Call, Cause, CoreId, Ordered, Out, Who, Woken};
use module_config::Config;
use piece_check::{Evidence, Misnaming, Piece, Seen, misnamed_by};
use std::alloc::{AllocError, Global};
use wait_set::{Ended, Given};

/// What would have been lawful, or what is unlawful, as far as a picture can show it.
#[derive(Clone, Copy, Debug, PartialEq, Eq)]
pub enum Lawful {
    /// The core should run this process, or none.
    Runs(CoreId, Option<Who>),
    /// The wait of this process ends here, and the record does not name it.
    Wakes(Who),
    /// The record names this process, and no wait of it ends here.
    Sleeps(Who),
    /// This process has this current priority.
    HasPriority(Who, u8),
    /// This process gets this outcome.
    Gets(Who, Out),
    /// This process has missed this deadline, in ticks, which must be reported first.
    Misses(Who, u64),
}

/// What would have been lawful for a record that this piece rejects for this cause, by the evidence of the piece. The piece is as it was
/// before the record.
///
/// `AllocError` if memory is refused.
pub fn lawful_of(
    alloc: Global,
    config: &Config,
    piece: &Piece,
    ordered: &Ordered,
    cause: Cause,
) -> Result<Vec<Lawful>, AllocError>
    ensures { AgreesOn config.now piece.now.part piece.now.settings → IfOk result (λ lawful. IsLawful config.now piece.now.part ordered.now cause lawful.items) }
{
    let body = &ordered.rec.body;
    match piece.evidence(config, ordered, cause) {
        Evidence::Choice { choice, .. } => only(alloc, Lawful::Runs(ordered.core, choice)),
        Evidence::Missed { who, deadline } => only(alloc, Lawful::Misses(who, deadline)),
        Evidence::Priority { current, .. } => lawful_priority(alloc, body, current),
        Evidence::Answer(given) => lawful_claim(alloc, &given, body, cause),
        Evidence::Named => lawful_names(alloc, piece, ordered.core, body),
        _ => Ok(Vec::new(alloc)),
    }
}

// This alone.
fn only(alloc: Global, lawful: Lawful) -> Result<Vec<Lawful>, AllocError>
    ensures { IfOk result (λ shown. shown.items ≡ lawful ∷ []) }
{
    Ok(vec![in alloc; lawful]?)
}

// The current priority of the caller of a call.
fn lawful_priority(alloc: Global, body: &Body, current: u8) -> Result<Vec<Lawful>, AllocError>
    ensures { IfOk result (λ lawful. lawful.items ≡ lawful_priority body.now current) }
{
    match body {
        Body::Call(call) => only(alloc, Lawful::HasPriority(call.who, current)),
        Body::Ret(_)
        | Body::Disp(_)
        | Body::Tick(_)
        | Body::Arrive(_)
        | Body::Depart(_)
        | Body::Error(_) => Ok(Vec::new(alloc)),
    }
}

// What a call can claim, by what it gives its caller; of an arrival and a departure whose waits end.
fn lawful_claim(
    alloc: Global,
    given: &Given<'_>,
    body: &Body,
    cause: Cause,
) -> Result<Vec<Lawful>, AllocError>
    ensures { IfOk result (λ lawful. IsLawfulClaim (answer_given given.now) body.now cause lawful.items) }
{
    match body {
        Body::Call(call) => lawful_call(alloc, given, call, cause),
        Body::Arrive(crossing) | Body::Depart(crossing) => match cause {
            Cause::Woken => put_right_by(alloc, given, &crossing.woken),
            _ => Ok(Vec::new(alloc)),
        },
        Body::Ret(_) | Body::Disp(_) | Body::Tick(_) | Body::Error(_) => Ok(Vec::new(alloc)),
    }
}

// Which processes of a partition a tick of this core must name.
fn lawful_names(
    alloc: Global,
    piece: &Piece,
    core: CoreId,
    body: &Body,
) -> Result<Vec<Lawful>, AllocError>
    ensures { IfOk result (λ lawful. lawful.items ≡ lawful_names piece.now.part core body.now) }
{
    match body {
        Body::Tick(woken) => put_right_at_tick(alloc, piece, core, woken),
        Body::Call(_)
        | Body::Ret(_)
        | Body::Disp(_)
        | Body::Arrive(_)
        | Body::Depart(_)
        | Body::Error(_) => Ok(Vec::new(alloc)),
    }
}

// What a call can claim, by what it gives its caller: the outcome, or whose waits end.
fn lawful_call(
    alloc: Global,
    given: &Given<'_>,
    call: &Call,
    cause: Cause,
) -> Result<Vec<Lawful>, AllocError>
    ensures { IfOk result (λ lawful. IsLawfulCall (answer_given given.now) call.now cause lawful.items) }
{
    match cause {
        Cause::Out => only(alloc, Lawful::Gets(call.who, given.out)),
        Cause::Woken => put_right_by(alloc, given, &call.claim.woken),
        Cause::Names
        | Cause::Skew
        | Cause::Idle
        | Cause::Window
        | Cause::Deadline
        | Cause::Choice
        | Cause::Return
        | Cause::OutsideProfile
        | Cause::Prio
        | Cause::Chan
        | Cause::Val
        | Cause::Data => Ok(Vec::new(alloc)),
    }
}

// Corrects which processes a record names wrongly: first among those whose waits it ends, and then among those that it names.
fn put_right_by(alloc: Global, given: &Given<'_>, woken: &Woken) -> Result<Vec<Lawful>, AllocError>
    ensures { IfOk result (λ lawful. PutsRight (answer_given given.now).woken woken.now lawful.items) }
{
    let ended = ended_by(alloc, given)?;
    let mut lawful = Vec::new(alloc);
    add_put_right(given, woken, ended.as_slice(), &mut lawful)?;
    add_put_right(given, woken, woken.as_slice(), &mut lawful)?;
    Ok(lawful)
}

// The processes whose waits an operation ends.
fn ended_by(alloc: Global, given: &Given<'_>) -> Result<Vec<Who>, AllocError>
    ensures { IfOk result (λ ended. NamesExactly (answer_given given.now).woken ended.items) }
{
    match given.woken {
        Ended::Nobody => Ok(Vec::new(alloc)),
        Ended::One(who) => Ok(vec![in alloc; who]?),
        Ended::All(set) => {
            let waiters = waiters_of(alloc, set)?;
            processes_of(alloc, waiters.as_slice())
        }
        Ended::First(set, count) => {
            let waiters = waiters_of(alloc, set)?;
            let first = count.min(waiters.len());
            processes_of(alloc, &waiters.as_slice()[..first])
        }
    }
}

// The processes that wait.
fn processes_of(alloc: Global, waiters: &[Waiter]) -> Result<Vec<Who>, AllocError>
    ensures { IfOk result (λ processes. processes.items ≡ map (λ waiter. waiter.who) waiters.now) }
{
    waiters.iter().map(|waiter| waiter.who).collect(alloc)
}

// Adds the processes of a list that a call names wrongly.
fn add_put_right(
    given: &Given<'_>,
    woken: &Woken,
    listed: &[Who],
    lawful: &mut Vec<Lawful>,
) -> Result<(), AllocError>
    ensures { OnOk result (lawful.new.items ≡ lawful.old.items ++ all_put_right (answer_given given.now).woken woken.now listed.now) }
{
    for who in listed {
        add_misnamed(lawful, *who, misnamed_by(given, woken, who))?;
    }
    Ok(())
}

// Adds a process, if a record names it wrongly.
fn add_misnamed(
    lawful: &mut Vec<Lawful>,
    who: Who,
    wrong: Option<Misnaming>,
) -> Result<(), AllocError>
    ensures { OnOk result (lawful.new.items ≡ lawful.old.items ++ if_misnamed who wrong) }
{
    if let Some(misnaming) = wrong {
        lawful.push(put_right(who, misnaming))?;
    }
    Ok(())
}

// The correction of a process that a record names wrongly.
fn put_right(who: Who, misnaming: Misnaming) -> Lawful
    ensures { result ≡ put_right who misnaming }
{
    match misnaming {
        Misnaming::Missing => Lawful::Wakes(who),
        Misnaming::Unexpected => Lawful::Sleeps(who),
    }
}

// Corrects which processes of a partition a tick of this core names wrongly, in the order of their creation.
fn put_right_at_tick(
    alloc: Global,
    piece: &Piece,
    core: CoreId,
    woken: &Woken,
) -> Result<Vec<Lawful>, AllocError>
    ensures { IfOk result (λ lawful. lawful.items ≡ put_right_at_tick piece.now.part core woken.now) }
{
    let mut lawful = Vec::new(alloc);
    let Seen::Partition { number, state, .. } = piece.seen() else {
        return Ok(lawful);
    };
    let table = state.processes();
    for index in 0..=table.len() {
        let Some((process, _)) = table.at(index) else {
            return Ok(lawful);
        };
        let who = Who {
            part: number,
            proc: *process,
        };
        add_misnamed(
            &mut lawful,
            who,
            piece.misnamed_at_tick(core, woken, *process),
        )?;
    }
    Ok(lawful)
}
