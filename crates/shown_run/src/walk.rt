// The pieces of a module, which take one record after another.

ghost use Rattle.std.specs.Prelude.{◌≡◌, ◌<◌, ◌+◌, [], ◌∷◌, All, IfOk, IfSome, None, OnOk};
ghost use Rattle.piece_check.specs.Found.{IsWindowAt};
ghost use Rattle.piece_check.specs.Parts.{HoldsBefore, IsOf};
ghost use Rattle.verdict_merge.specs.Rounds.{AllRun, AreGoing, cold_parts, parts_in};
ghost use Rattle.shown_run.specs.Walks.{EachRuns, HasTaken, Takes};

use apex_types::{Cause, Ordered};
use module_config::Config;
use piece_check::{Piece, PieceFault, WindowAt, Windows};
use std::alloc::{AllocError, Global};
use std::marker::Model;
use std::{mem, slice};
use thiserror::Error;
use verdict_merge::start_pieces;

/// Why a walk ends before its records do.
#[derive(Clone, Copy, Debug, PartialEq, Eq, Error)]
pub enum WalkFault {
    /// Memory was refused.
    #[error("out of memory")]
    Memory,
}

/// The piece with this number rejects a record for this cause. It is the first that does.
#[derive(Clone, Copy, Debug, PartialEq, Eq)]
pub struct Refusal {
    pub piece: usize,
    pub cause: Cause,
}

/// The pieces of a module, as the records so far have left them.
#[derive(Drop)]
pub struct Walk {
    alloc: Global,
    pieces: Vec<Piece>,
    // The window of the next record's core, once for all pieces.
    windows: Windows,
}

impl Model for Walk {
    ghost use Rattle.std.specs.Prelude.{List};
    ghost use Rattle.piece_check.specs.Parts.{Holding};

    ghost Value = { List Holding };

    ghost view = { λ walk. walk.pieces.items };
}

impl Walk {
    /// The pieces before the first record.
    ///
    /// `Memory` if it is refused.
    pub fn start(alloc: Global, config: &Config) -> Result<Walk, WalkFault>
        ensures cold { IfOk result (λ walk. AllRun config.now (cold_parts config.now) [] (parts_in walk)) }
        ensures going { IfOk result (AreGoing config.now 0) }
    {
        match start_pieces(alloc, config) {
            Ok(pieces) => Ok(Walk {
                alloc,
                pieces,
                windows: Windows::new(alloc),
            }),
            Err(_) => Err(WalkFault::Memory),
        }
    }

    // The pieces; none are left in the walk.
    pub(crate) fn take_pieces(&mut self) -> Vec<Piece>
        ensures { result.items ≡ self.old }
    {
        mem::replace(&mut self.pieces, Vec::new(self.alloc))
    }

    // The walk has these pieces from now on.
    pub(crate) fn set_pieces(&mut self, pieces: Vec<Piece>)
        ensures { self.new ≡ pieces.items }
    {
        self.pieces = pieces;
    }

    /// The pieces, in the order of their numbers.
    pub fn pieces(&self) -> &[Piece]
        ensures { result.now ≡ self.now }
    {
        self.pieces.as_slice()
    }

    /// Takes the next record: each piece that it touches takes it, or the first that rejects it is reported. That piece and those with
    /// greater numbers are then as they were before the record.
    ///
    /// `Memory` if it was refused to a piece.
    pub fn take(&mut self, config: &Config, ordered: &Ordered) -> Result<Option<Refusal>, WalkFault>
        requires going { AreGoing config.now ordered.now.pos self.old }
        requires core { ordered.now.core < config.now.cores }
        ensures going { IfOk result (λ refusal. refusal ≡ None → AreGoing config.now (ordered.now.pos + 1) self.new) }
        ensures takes { IfOk result (λ refusal. Takes config.now ordered.now self.old refusal self.new) }
    {
        let windows = look_up(&mut self.windows, config, ordered);
        take_in_turn(self.pieces.as_mut_slice(), config, ordered, windows)
    }

    /// Takes the next record again, over which the pieces have a run. So no piece rejects it.
    ///
    /// `Memory` if it was refused to a piece.
    pub fn take_again(&mut self, config: &Config, ordered: &Ordered) -> Result<(), WalkFault>
        requires going { AreGoing config.now ordered.now.pos self.old }
        requires core { ordered.now.core < config.now.cores }
        requires accepted { EachRuns config.now (parts_in self.old) (ordered.now ∷ []) }
        ensures going { OnOk result (AreGoing config.now (ordered.now.pos + 1) self.new) }
        ensures taken { OnOk result (AllRun config.now (parts_in self.old) (ordered.now ∷ []) (parts_in self.new)) }
    {
        let _refusal = self.take(config, ordered)?;
        Ok(())
    }
}

impl Clone for Walk {
    // A copy has the same pieces.
    ghost is_clone = { λ walk copy. copy ≡ walk };

    #[tactic(auto, using(crate::proofs::Copies::same_all))]
    fn clone(&self) -> Result<Walk, AllocError> {
        Ok(Walk {
            alloc: self.alloc,
            pieces: self.pieces.clone()?,
            windows: Windows::new(self.alloc),
        })
    }
}

// The window of a record's core, or none if it is not looked up; each piece then does so by itself.
fn look_up<'a>(windows: &'a mut Windows, config: &Config, ordered: &Ordered) -> &'a [WindowAt]
    ensures { All (IsWindowAt config.now) result.now }
{
    match windows.look_up(config, slice::from_ref(ordered)) {
        Ok(()) => windows.as_slice(),
        Err(_) => &[],
    }
}

// The window that was looked up, if one was.
fn window_in(config: &Config, windows: &[WindowAt]) -> Option<WindowAt>
    requires { All (IsWindowAt config.now) windows.now }
    ensures { IfSome result (IsWindowAt config.now) }
{
    let window = windows.first()?;
    Some(*window)
}

// Lets each of these pieces take a record, in the order of their numbers, up to the first that rejects it.
fn take_in_turn(
    pieces: &mut [Piece],
    config: &Config,
    ordered: &Ordered,
    windows: &[WindowAt],
) -> Result<Option<Refusal>, WalkFault>
    requires going { AreGoing config.now ordered.now.pos pieces.old }
    requires core { ordered.now.core < config.now.cores }
    requires windows { All (IsWindowAt config.now) windows.now }
    ensures going { IfOk result (λ refusal. refusal ≡ None → AreGoing config.now (ordered.now.pos + 1) pieces.new) }
    ensures takes { IfOk result (λ refusal. Takes config.now ordered.now pieces.old refusal pieces.new) }
{
    for (number, piece) in pieces.iter_mut().enumerate() {
        if let Some(cause) = take_one(piece, config, ordered, windows)? {
            return Ok(Some(Refusal {
                piece: number,
                cause,
            }));
        }
    }
    Ok(None)
}

// Lets a piece take a record, if the record touches it. Returns the cause if the piece rejects the record.
fn take_one(
    piece: &mut Piece,
    config: &Config,
    ordered: &Ordered,
    windows: &[WindowAt],
) -> Result<Option<Cause>, WalkFault>
    requires core { ordered.now.core < config.now.cores }
    requires windows { All (IsWindowAt config.now) windows.now }
    requires of_module { IsOf config.now piece.old }
    requires holds_before { HoldsBefore ordered.now.pos piece.old.part }
    ensures { IfOk result (λ cause. HasTaken config.now ordered.now piece.old cause piece.new) }
{
    if !piece.subject().is_touched(config, ordered) {
        return Ok(None);
    }
    if piece.pass_by(ordered) {
        return Ok(None);
    }
    match piece.step_at(config, ordered, window_in(config, windows)) {
        Ok(()) => Ok(None),
        Err(PieceFault::Rejected { cause, .. }) => Ok(Some(cause)),
        Err(PieceFault::Memory) => Err(WalkFault::Memory),
    }
}
