// What a piece holds: the part of the module, of a partition or of a channel.

ghost use Rattle.std.specs.Prelude.{◌<◌, IfErr, IfOk, IfSome, OnErr, OnOk, ◌≡◌, false, true, length};
ghost use Rattle.apex_types.specs.declared.limits.TheConstants.{PLACE_COUNT};
ghost use Rattle.apex_machine.specs.Configuration.{Configuration};
ghost use Rattle.apex_machine.specs.Demands.{Judges, LocalStep, demands};
ghost use Rattle.apex_machine.specs.Pieces.{part, pieces};
ghost use Rattle.apex_machine.specs.State.{cold_state, time_of};
ghost use Rattle.apex_machine.specs.Views.{view_in};
ghost use Rattle.partition_state.specs.Calls.{RefusesOrWants};
ghost use Rattle.piece_check.specs.Held.{part_of, settings_of};
ghost use Rattle.piece_check.specs.Parts.{AgreesOn, HoldsBefore, WantsWhereAllowed, cores_of, holder, piece_at};
ghost use Rattle.piece_check.specs.Quiet.{passes_by};
ghost use Rattle.piece_check.specs.Found.{IsWindowAt};

use crate::channel_piece::ChannelPiece;
use crate::module_piece::ModulePiece;
use crate::partition_piece::PartitionPiece;
use crate::subject::{Subject, subject_of};
use crate::windows::WindowAt;
use apex_types::{Cause, Ordered, View};
use module_config::Config;
use std::alloc::{AllocError, Global};
use wait_set::ObjFault;

/// What a piece holds.
#[derive(Clone, Drop)]
pub(crate) enum Held {
    Module(ModulePiece),
    Partition(PartitionPiece),
    Channel(ChannelPiece),
}

impl Held {
    /// What the piece of this number holds: its part of the cold state.
    ///
    /// AllocError if memory is refused.
    pub(crate) fn start(alloc: Global, config: &Config, piece: usize) -> Result<Held, AllocError>
        requires { piece < length (pieces config.now) }
        ensures part { IfOk result (λ held. part_of held ≡ part (piece_at config.now piece) (cold_state config.now)) }
        ensures agrees { IfOk result (λ held. AgreesOn config.now (part_of held) (settings_of held)) }
    {
        match subject_of(config, piece) {
            Subject::Module => Ok(Held::Module(ModulePiece::start(config))),
            Subject::Partition(number) => {
                let piece = PartitionPiece::start(alloc, config, number)?;
                Ok(Held::Partition(piece))
            }
            Subject::Channel(number) => {
                let piece = ChannelPiece::start(alloc, config, number)?;
                Ok(Held::Channel(piece))
            }
        }
    }

    /// Judges a record, and changes the part as the record says. The window of its core may have been found before.
    ///
    /// Refused, with nothing changed, if a demand fails, with the cause of the first that does; or if memory is refused.
    pub(crate) fn step(
        &mut self,
        config: &Config,
        ordered: &Ordered,
        window: Option<WindowAt>,
    ) -> Result<(), ObjFault>
        requires window { IfSome window (IsWindowAt config.now) }
        requires core { ordered.now.core < length (cores_of (part_of self.old)) }
        requires place { ordered.now.pos < PLACE_COUNT }
        requires holds_before { HoldsBefore ordered.now.pos (part_of self.old) }
        requires agrees { AgreesOn config.now (part_of self.old) (settings_of self.old) }
        ensures ok { OnOk result (LocalStep config.now (part_of self.old) ordered.now (part_of self.new)) }
        ensures refused { IfErr result (RefusesOrWants (demands config.now (part_of self.old) ordered.now)) }
        ensures unchanged { OnErr result (self.new ≡ self.old) }
        ensures memory { IfErr result (WantsWhereAllowed ordered.now.rec.body) }
        ensures agrees { AgreesOn config.now (part_of self.new) (settings_of self.new) }
    {
        match self {
            Held::Module(piece) => piece.step(config, ordered, window),
            Held::Partition(piece) => piece.step(config, ordered, window),
            Held::Channel(piece) => piece.step(config, ordered),
        }
    }

    /// Lets a channel pass by a tick that ends no wait, and says whether it did. Takes no memory.
    pub(crate) fn pass_by(&mut self, ordered: &Ordered) -> bool
        requires core { ordered.now.core < length (cores_of (part_of self.old)) }
        requires place { ordered.now.pos < PLACE_COUNT }
        requires holds_before { HoldsBefore ordered.now.pos (part_of self.old) }
        ensures value { result ≡ passes_by (part_of self.old) ordered.now }
        ensures passed { result ≡ true → (configuration : Configuration) → LocalStep configuration (part_of self.old) ordered.now (part_of self.new) }
        ensures unchanged { result ≡ false → self.new ≡ self.old }
        ensures settings { settings_of self.new ≡ settings_of self.old }
        ensures whose { holder (part_of self.new) ≡ holder (part_of self.old) }
    {
        match self {
            Held::Channel(piece) => piece.pass_by(ordered),
            Held::Module(_) | Held::Partition(_) => false,
        }
    }

    /// Judges a record as `step` does, and changes nothing. Takes no memory.
    pub(crate) fn judge(&self, config: &Config, ordered: &Ordered) -> Result<(), Cause>
        requires place { ordered.now.pos < PLACE_COUNT }
        requires holds_before { HoldsBefore ordered.now.pos (part_of self.now) }
        requires agrees { AgreesOn config.now (part_of self.now) (settings_of self.now) }
        ensures { Judges (demands config.now (part_of self.now) ordered.now) result }
    {
        match self {
            Held::Module(piece) => piece.judge(config, ordered, None),
            Held::Partition(piece) => piece.judge(config, ordered),
            Held::Channel(piece) => piece.judge(config, ordered),
        }
    }

    /// What a user's relation sees of a record, from the part before it. Takes no memory.
    pub(crate) fn view(&self, ordered: &Ordered) -> Option<View>
        requires time { time_of (cores_of (part_of self.now)) ordered.now.core < PLACE_COUNT }
        ensures { result ≡ view_in (part_of self.now) ordered.now }
    {
        match self {
            Held::Module(piece) => piece.view(ordered),
            Held::Partition(piece) => piece.view(ordered),
            Held::Channel(_) => None,
        }
    }
}
