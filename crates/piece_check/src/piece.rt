// A piece: its start and its step.

ghost use Rattle.std.specs.Prelude.{◌≡◌, ◌<◌, ◌+◌, ◌↔◌, ◌⊎◌, Err, IsTrue, IfOk, OnOk, OnErr, IfErr, IfSome, None, false, true, length};
ghost use Rattle.apex_machine.specs.Configuration.{Configuration};
ghost use Rattle.apex_machine.specs.State.{cold_state};
ghost use Rattle.apex_machine.specs.Demands.{AllHold, LocalStep, demands};
ghost use Rattle.apex_machine.specs.Pieces.{part, pieces};
ghost use Rattle.apex_machine.specs.Views.{view_in};
ghost use Rattle.apex_laws.specs.PartBounds.{PeriodFits};
ghost use Rattle.piece_check.specs.Parts.{CallerFits, HoldsBefore, MayTakeMemory, IsOf, IsPartOf, cores_of, holder, piece_at};
ghost use Rattle.piece_check.specs.Quiet.{passes_by};
ghost use Rattle.piece_check.specs.Refused.{IsRefused};
ghost use Rattle.piece_check.specs.Found.{IsWindowAt};

use crate::fault::PieceFault;
use crate::held::Held;
use crate::windows::WindowAt;
use apex_types::{Body, Ordered, Request, View};
use module_config::Config;
use std::alloc::{AllocError, Global};
use std::marker::Model;
use wait_set::ObjFault;

/// A piece: the module, a partition or a channel. It judges the records that touch it, each at its place.
#[derive(Drop)]
pub struct Piece {
    pub(crate) held: Held,
    exhausted: bool,
}

impl Model for Piece {
    ghost use Rattle.piece_check.specs.Parts.{Holding};

    ghost Value = { Holding };

    ghost use Rattle.piece_check.specs.Held.{part_of, settings_of};

    ghost view = { λ piece. record { part = part_of piece.held; settings = settings_of piece.held; exhausted = piece.exhausted } };
}

impl Piece {
    /// The piece of this number, with its part of the cold state.
    ///
    /// AllocError if memory is refused.
    pub fn start(alloc: Global, config: &Config, piece: usize) -> Result<Piece, AllocError>
        requires { piece < length (pieces config.now) }
        ensures part { IfOk result (λ started. started.part ≡ part (piece_at config.now piece) (cold_state config.now)) }
        ensures whose { IfOk result (λ started. IsPartOf (piece_at config.now piece) started.part) }
        ensures fresh { IfOk result (λ started. started.exhausted ≡ false) }
        ensures of_module { IfOk result (IsOf config.now) }
        ensures holds_before { IfOk result (λ started. HoldsBefore 0 started.part) }
    {
        let held = Held::start(alloc, config, piece)?;
        Ok(Piece {
            held,
            exhausted: false,
        })
    }

    /// What a user's relation sees of a record, from the part before it: a partition gives the view of its own calls and returns, the
    /// module that of all other records; otherwise there is none. Takes no memory.
    pub fn view(&self, ordered: &Ordered) -> Option<View>
        requires holds_before { HoldsBefore ordered.now.pos self.now.part }
        ensures { result ≡ view_in self.now.part ordered.now }
    {
        let _place = ordered.pos.number();
        self.held.view(ordered)
    }

    /// Judges a record that touches the piece as `step` does, and changes nothing. Takes no memory.
    ///
    /// If it accepts the record, `step` refuses it at most for a lack of memory; if it rejects the record, `step` does so for the same
    /// cause. If memory was refused at an earlier step, it answers Memory.
    pub fn judge(&self, config: &Config, ordered: &Ordered) -> Result<(), PieceFault>
        requires of_module { IsOf config.now self.now }
        requires holds_before { HoldsBefore ordered.now.pos self.now.part }
        ensures ok { OnOk result (AllHold (demands config.now self.now.part ordered.now)) }
        ensures refused { IfErr result (λ fault. IsRefused (demands config.now self.now.part ordered.now) ordered.now.pos fault) }
        ensures exhausted { IsTrue self.now.exhausted ↔ (result ≡ Err PieceFault.Memory) }
    {
        let pos = ordered.pos;
        let _place = pos.number();
        if !self.exhausted {
            return self
                .held
                .judge(config, ordered)
                .map_err(|cause| PieceFault::Rejected { pos, cause });
        }
        Err(PieceFault::Memory)
    }

    /// Lets a channel pass by a tick that ends no wait: the time of the tick's core rises, and nothing else changes. Returns whether it
    /// did. Takes no memory.
    ///
    /// Leaves any other piece as it was, and the channel at any other record: `step` judges the record.
    pub fn pass_by(&mut self, ordered: &Ordered) -> bool
        requires core { ordered.now.core < length (cores_of self.old.part) }
        requires holds_before { HoldsBefore ordered.now.pos self.old.part }
        ensures value { result ≡ passes_by self.old.part ordered.now }
        ensures passed { result ≡ true → (configuration : Configuration) → LocalStep configuration self.old.part ordered.now self.new.part }
        ensures silent { result ≡ true → view_in self.old.part ordered.now ≡ None }
        ensures unchanged { result ≡ false → self.new ≡ self.old }
        ensures of_module { (configuration : Configuration) → IsOf configuration self.old → IsOf configuration self.new }
        ensures whose { holder self.new.part ≡ holder self.old.part }
        ensures holds_before { result ≡ true → HoldsBefore (ordered.now.pos + 1) self.new.part }
    {
        let _place = ordered.pos.number();
        self.held.pass_by(ordered)
    }

    /// Judges a record that touches the piece, and changes the part as the record says.
    ///
    /// If a demand fails, nothing is changed. If memory was refused, the part is as it was, and every later step answers Memory.
    pub fn step(&mut self, config: &Config, ordered: &Ordered) -> Result<(), PieceFault>
        requires core { ordered.now.core < config.now.cores }
        requires of_module { IsOf config.now self.old }
        requires holds_before { HoldsBefore ordered.now.pos self.old.part }
        ensures ok { OnOk result (LocalStep config.now self.old.part ordered.now self.new.part) }
        ensures refused { IfErr result (λ fault. IsRefused (demands config.now self.old.part ordered.now) ordered.now.pos fault) }
        ensures unchanged { OnErr result (self.new.part ≡ self.old.part) }
        ensures whose { holder self.new.part ≡ holder self.old.part }
        ensures settings { OnErr result (self.new.settings ≡ self.old.settings) }
        ensures exhausted { IsTrue self.new.exhausted ↔ (result ≡ Err PieceFault.Memory) }
        ensures stays_exhausted { IsTrue self.old.exhausted → result ≡ Err PieceFault.Memory }
        ensures memory { result ≡ Err PieceFault.Memory → IsTrue self.old.exhausted ⊎ MayTakeMemory ordered.now.rec.body }
        ensures of_module { OnOk result (IsOf config.now self.new) }
        ensures holds_before { OnOk result (HoldsBefore (ordered.now.pos + 1) self.new.part) }
    {
        self.step_at(config, ordered, None)
    }

    /// Judges a record that touches the piece, and changes the part, as `step` does. The window of the record's core may have been looked up
    /// before; if it was looked up for the present time of the core, it is not looked up again.
    pub fn step_at(
        &mut self,
        config: &Config,
        ordered: &Ordered,
        window: Option<WindowAt>,
    ) -> Result<(), PieceFault>
        requires core { ordered.now.core < config.now.cores }
        requires window { IfSome window (IsWindowAt config.now) }
        requires of_module { IsOf config.now self.old }
        requires holds_before { HoldsBefore ordered.now.pos self.old.part }
        ensures ok { OnOk result (LocalStep config.now self.old.part ordered.now self.new.part) }
        ensures refused { IfErr result (λ fault. IsRefused (demands config.now self.old.part ordered.now) ordered.now.pos fault) }
        ensures unchanged { OnErr result (self.new.part ≡ self.old.part) }
        ensures whose { holder self.new.part ≡ holder self.old.part }
        ensures settings { OnErr result (self.new.settings ≡ self.old.settings) }
        ensures exhausted { IsTrue self.new.exhausted ↔ (result ≡ Err PieceFault.Memory) }
        ensures stays_exhausted { IsTrue self.old.exhausted → result ≡ Err PieceFault.Memory }
        ensures memory { result ≡ Err PieceFault.Memory → IsTrue self.old.exhausted ⊎ MayTakeMemory ordered.now.rec.body }
        ensures of_module { OnOk result (IsOf config.now self.new) }
        ensures holds_before { OnOk result (HoldsBefore (ordered.now.pos + 1) self.new.part) }
    {
        if self.exhausted {
            return Err(PieceFault::Memory);
        }
        let _place = ordered.pos.number();
        fits(&ordered.rec.body);
        match self.held.step(config, ordered, window) {
            Ok(()) => Ok(()),
            Err(ObjFault::Unlawful(cause)) => Err(PieceFault::Rejected {
                pos: ordered.pos,
                cause,
            }),
            Err(ObjFault::Memory) => {
                self.exhausted = true;
                Err(PieceFault::Memory)
            }
        }
    }
}

impl Clone for Piece {
    // A copy is the same piece: its part, what was given for it, and whether memory was refused to it.
    ghost is_clone = { λ piece copy. copy ≡ piece };

    fn clone(&self) -> Result<Piece, AllocError> {
        Ok(Piece {
            held: self.held.clone()?,
            exhausted: self.exhausted,
        })
    }
}

// States what the numbers of a record are: the period that it gives has 63 bits, like each number of a caller, and the number of a caller
// has 32. Does nothing.
fn fits(body: &Body)
    ensures period { PeriodFits body.now }
    ensures caller { CallerFits body.now }
{
    if let Body::Call(call) = body {
        let _caller: u32 = call.who.proc.number();
        if let Request::CreateProcess { period, .. } = &call.request {
            let _period: i64 = *period;
        }
    }
}
