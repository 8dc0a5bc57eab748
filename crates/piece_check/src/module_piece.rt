// The piece of the module: configured names, the skew, and idle cores outside all windows.

ghost use Rattle.std.specs.Prelude.{◌≡◌, ◌<◌, ◌∷◌, [], IfErr, IfSome, OnErr, OnOk, is_none, length, ℕ};
ghost use Rattle.apex_types.specs.declared.limits.TheConstants.{PLACE_COUNT};
ghost use Rattle.apex_types.specs.declared.record.Body.TheVariants as body;
ghost use Rattle.apex_machine.specs.State.{cold_state, time_of};
ghost use Rattle.apex_machine.specs.Demands.{LocalStep, crossing_names, demands, window_now};
ghost use Rattle.apex_machine.specs.Pieces.{Module, ModulePart, part};
ghost use Rattle.apex_machine.specs.Views.{view_in};
ghost use Rattle.partition_state.specs.Calls.{RefusesOrWants};
ghost use Rattle.piece_check.specs.Judged.{Judges, asked_by_module};
ghost use Rattle.piece_check.specs.Parts.{HoldsBefore, WantsWhereAllowed};
ghost use Rattle.piece_check.specs.Found.{IsWindowAt};
ghost use Rattle.piece_check.specs.declared.module_piece.ModulePiece.{ModulePiece as ModulePieceValue};

use crate::names::{all_configured, channel_configured, one_configured};
use crate::views::{crossing_view, dispatch_view, error_view, tick_view};
use crate::windows::{WindowAt, window_by};
use apex_types::{
    Body, Call, Cause, CoreId, Crossing, ErrorReport, Ordered, Return, View, Who, Woken,
};
use module_config::Config;
use scheduling::Clock;
use wait_set::ObjFault;

/// The piece of the module: the cores.
#[derive(Clone, Debug, Drop)]
pub(crate) struct ModulePiece {
    pub(crate) clock: Clock,
}

impl ModulePiece {
    /// The piece of the module, with its part of the cold state.
    pub(crate) fn start(config: &Config) -> ModulePiece
        ensures { ModulePart result.clock.cores ≡ part Module (cold_state config.now) }
    {
        ModulePiece {
            clock: Clock::new(config.cores(), config.skew()),
        }
    }

    /// Judges a record, and changes the part as the record says. The window of its core may have been found before. Takes no memory.
    ///
    /// Refused, with nothing changed, if a demand fails, with the cause of the first that does.
    pub(crate) fn step(
        &mut self,
        config: &Config,
        ordered: &Ordered,
        window: Option<WindowAt>,
    ) -> Result<(), ObjFault>
        requires core { ordered.now.core < length self.old.clock.cores }
        requires window { IfSome window (IsWindowAt config.now) }
        requires place { ordered.now.pos < PLACE_COUNT }
        requires holds_before { HoldsBefore ordered.now.pos (ModulePart self.old.clock.cores) }
        ensures ok { OnOk result (LocalStep config.now (ModulePart self.old.clock.cores) ordered.now (ModulePart self.new.clock.cores)) }
        ensures refused { IfErr result (RefusesOrWants (demands config.now (ModulePart self.old.clock.cores) ordered.now)) }
        ensures unchanged { OnErr result (self.new ≡ self.old) }
        ensures memory { IfErr result (WantsWhereAllowed ordered.now.rec.body) }
    {
        self.judge(config, ordered, window)
            .map_err(ObjFault::Unlawful)?;
        match &ordered.rec.body {
            Body::Call(_) | Body::Ret(_) | Body::Arrive(_) | Body::Depart(_) | Body::Error(_) => Ok(
                (),
            ),
            Body::Disp(who) => {
                self.clock.dispatch(ordered.core, *who);
                Ok(())
            }
            Body::Tick(_) => {
                self.clock.advance(config, ordered.core);
                Ok(())
            }
        }
    }

    /// Judges a record. The window of its core may have been found before. Takes no memory.
    ///
    /// Refused with the cause of the first demand that fails.
    pub(crate) fn judge(
        &self,
        config: &Config,
        ordered: &Ordered,
        window: Option<WindowAt>,
    ) -> Result<(), Cause>
        requires window { IfSome window (IsWindowAt config.now) }
        requires place { ordered.now.pos < PLACE_COUNT }
        requires holds_before { HoldsBefore ordered.now.pos (ModulePart self.now.clock.cores) }
        ensures { Judges (demands config.now (ModulePart self.now.clock.cores) ordered.now) result }
    {
        let core = ordered.core;
        match &ordered.rec.body {
            Body::Call(call) => self.judge_call(config, core, window, call),
            Body::Ret(ret) => self.judge_return(config, core, window, ret),
            Body::Disp(who) => self.judge_dispatch(config, core, window, *who),
            Body::Tick(woken) => self.judge_tick(config, core, window, woken),
            Body::Arrive(crossing) | Body::Depart(crossing) => judge_crossing(config, crossing),
            Body::Error(report) => judge_error(config, report),
        }
    }

    /// The view of a dispatch, a tick, an arrival, a departure or an error, from the part before it. Takes no memory.
    pub(crate) fn view(&self, ordered: &Ordered) -> Option<View>
        requires { time_of self.now.clock.cores ordered.now.core < PLACE_COUNT }
        ensures { result ≡ view_in (ModulePart self.now.clock.cores) ordered.now }
    {
        let core = ordered.core;
        let now = self.clock.now(core);
        match &ordered.rec.body {
            Body::Disp(who) => Some(dispatch_view(core, now, who)),
            Body::Tick(woken) => Some(tick_view(core, now + 1, woken)),
            Body::Arrive(crossing) => Some(crossing_view(4, core, now, crossing)),
            Body::Depart(crossing) => Some(crossing_view(5, core, now, crossing)),
            Body::Error(report) => Some(error_view(core, now, report)),
            Body::Call(_) | Body::Ret(_) => None,
        }
    }

    fn judge_call(
        &self,
        config: &Config,
        core: CoreId,
        window: Option<WindowAt>,
        call: &Call,
    ) -> Result<(), Cause>
        requires { IfSome window (IsWindowAt config.now) }
        ensures { Judges (asked_by_module config.now self.now core (body.Call call.now)) result }
    {
        let are_configured = config.has_partition(call.who.part)
            && all_configured(config, call.claim.woken.as_slice())
            && channel_configured(config, call.claim.chan);
        if !are_configured {
            return Err(Cause::Names);
        }
        if self.is_in_no_window(config, core, window) {
            return Err(Cause::Idle);
        }
        Ok(())
    }

    fn judge_return(
        &self,
        config: &Config,
        core: CoreId,
        window: Option<WindowAt>,
        ret: &Return,
    ) -> Result<(), Cause>
        requires { IfSome window (IsWindowAt config.now) }
        ensures { Judges (asked_by_module config.now self.now core (body.Ret ret.now)) result }
    {
        if !config.has_partition(ret.who.part) {
            return Err(Cause::Names);
        }
        if self.is_in_no_window(config, core, window) {
            return Err(Cause::Idle);
        }
        Ok(())
    }

    fn judge_dispatch(
        &self,
        config: &Config,
        core: CoreId,
        window: Option<WindowAt>,
        who: Option<Who>,
    ) -> Result<(), Cause>
        requires { IfSome window (IsWindowAt config.now) }
        ensures { Judges (asked_by_module config.now self.now core (body.Disp who)) result }
    {
        if !one_configured(config, who) {
            return Err(Cause::Names);
        }
        if who.is_some() && self.is_in_no_window(config, core, window) {
            return Err(Cause::Idle);
        }
        Ok(())
    }

    fn judge_tick(
        &self,
        config: &Config,
        core: CoreId,
        window: Option<WindowAt>,
        woken: &Woken,
    ) -> Result<(), Cause>
        requires window { IfSome window (IsWindowAt config.now) }
        requires time { time_of self.now.clock.cores core < PLACE_COUNT }
        ensures { Judges (asked_by_module config.now self.now core (body.Tick woken.now)) result }
    {
        if !all_configured(config, woken.as_slice()) {
            return Err(Cause::Names);
        }
        if !self.clock.may_tick(core, config.skew()) {
            return Err(Cause::Skew);
        }
        if self.clock.on(core).is_some() && self.is_in_no_window(config, core, window) {
            return Err(Cause::Idle);
        }
        Ok(())
    }

    // Whether the core is outside all windows now.
    fn is_in_no_window(&self, config: &Config, core: CoreId, window: Option<WindowAt>) -> bool
        requires { IfSome window (IsWindowAt config.now) }
        ensures { result ≡ is_none (window_now config.now self.now.clock.cores core) }
    {
        window_by(config, &self.clock, core, window).is_none()
    }
}

// An arrival and a departure name configured partitions and a configured channel. They may come at any time.
fn judge_crossing(config: &Config, crossing: &Crossing) -> Result<(), Cause>
    ensures { Judges (crossing_names config.now crossing.now ∷ []) result }
{
    let are_configured = all_configured(config, crossing.woken.as_slice())
        && config.has_channel(crossing.chan);
    if are_configured {
        Ok(())
    } else {
        Err(Cause::Names)
    }
}

// An error is of a configured partition. The partition judges when it may be reported.
fn judge_error(config: &Config, report: &ErrorReport) -> Result<(), Cause>
    ensures { (piece : ModulePieceValue) (core : ℕ) → Judges (asked_by_module config.now piece core (body.Error report.now)) result }
{
    if config.has_partition(report.who.part) {
        Ok(())
    } else {
        Err(Cause::Names)
    }
}
