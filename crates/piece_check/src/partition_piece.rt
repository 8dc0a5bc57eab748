// The piece of a partition: its windows, its deadlines, its choices, and the claims of its own calls and returns.

ghost use Rattle.std.specs.Prelude.{◌≡◌, ◌<◌, ◌↔◌, [], nat_eq, IfErr, IfOk, IfSome, IsTrue, Some, None, OnOk, OnErr, length, false};
ghost use Rattle.std.specs.Option.{option_copied};
ghost use Rattle.apex_types.specs.declared.limits.TheConstants.{PLACE_COUNT};
ghost use Rattle.apex_types.specs.declared.record.Body.TheVariants as body;
ghost use Rattle.apex_machine.specs.State.{cold_state, item_at, time_of};
ghost use Rattle.apex_machine.specs.Step.{HasNoneDue, HasPriority, due_of, NoneMissed};
ghost use Rattle.apex_machine.specs.Demands.{AllHold, FirstFails, IsRunning, LocalStep, ReturnsValues, WakesHere, demands, foreign_call_demands, window_now};
ghost use Rattle.apex_machine.specs.After.{partition_by, partition_woken};
ghost use Rattle.apex_machine.specs.Pieces.{OfPartition, PartitionPart, part};
ghost use Rattle.apex_machine.specs.Ports.{channel_of};
ghost use Rattle.apex_machine.specs.ServiceConditions as services;
ghost use Rattle.apex_machine.specs.Views.{view_in};
ghost use Rattle.wait_set.specs.declared.object.ObjFault.TheVariants.{Memory};
ghost use Rattle.partition_state.specs.Calls.{LeavesObjects, RefusesOrWants};
ghost use Rattle.piece_check.specs.Held.{partition_part};
ghost use Rattle.piece_check.specs.Judged.{GoesOn, Judges, asked_by_partition, crossing_demands, own_caller_demands, own_demands, part_called};
ghost use Rattle.piece_check.specs.Moments.{IsMomentOf};
ghost use Rattle.piece_check.specs.Parts.{HoldsBefore, WantsWhereAllowed};
ghost use Rattle.piece_check.specs.Found.{IsWindowAt};

mod reports;

use crate::conditions::conditions_of;
use crate::outcome::{judge_refused, judge_through};
use crate::profile::is_within;
use crate::views::{call_view, return_view};
use crate::waking::set_woken_by;
use crate::windows::{WindowAt, window_by};
use apex_machine::{Outcome, WaitingSet};
use apex_types::{
    Body, Call, Cause, CoreId, Crossing, End, Ordered, PartId, Place, ProcId, Return, Service,
    View, Who, Woken,
};
use module_config::Config;
use partition_state::PartitionState;
use scheduling::{Clock, Moment, message_of};
use std::alloc::{AllocError, Global};
use wait_set::{Conditions, ObjFault};

// What is left of an own call once everything is judged except what its service gives.
#[derive(Clone, Copy)]
enum Course {
    /// Nothing is left to judge, and the objects of the partition stay: an error condition holds, or the call goes through a channel.
    Noted,
    /// The service judges the claim: no error condition holds, and the call goes through no channel.
    Served,
}

/// The piece of a partition: its number, the cores, and its state.
#[derive(Clone, Drop)]
pub(crate) struct PartitionPiece {
    pub(crate) number: PartId,
    pub(crate) clock: Clock,
    pub(crate) state: PartitionState,
}

impl PartitionPiece {
    /// The piece of this partition, with its part of the cold state.
    ///
    /// AllocError if memory for its initialising process is refused.
    pub(crate) fn start(
        alloc: Global,
        config: &Config,
        number: PartId,
    ) -> Result<PartitionPiece, AllocError>
        ensures { IfOk result (λ piece. partition_part piece ≡ part (OfPartition number) (cold_state config.now)) }
    {
        Ok(PartitionPiece {
            number,
            clock: Clock::new(config.cores(), config.skew()),
            state: PartitionState::new(alloc, config.first_core(number))?,
        })
    }

    /// Judges a record, and changes the part as the record says. The window of its core may have been found before.
    ///
    /// Refused, with nothing changed, if a demand fails, with the cause of the first that does; or if memory is refused.
    pub(crate) fn step(
        &mut self,
        config: &Config,
        ordered: &Ordered,
        window: Option<WindowAt>,
    ) -> Result<(), ObjFault>
        requires core { ordered.now.core < length self.old.clock.cores }
        requires window { IfSome window (IsWindowAt config.now) }
        requires place { ordered.now.pos < PLACE_COUNT }
        requires holds_before { HoldsBefore ordered.now.pos (partition_part self.old) }
        ensures ok { OnOk result (LocalStep config.now (partition_part self.old) ordered.now (partition_part self.new)) }
        ensures refused { IfErr result (RefusesOrWants (demands config.now (partition_part self.old) ordered.now)) }
        ensures unchanged { OnErr result (self.new ≡ self.old) }
        ensures memory { IfErr result (WantsWhereAllowed ordered.now.rec.body) }
    {
        let core = ordered.core;
        match &ordered.rec.body {
            Body::Call(call) => {
                if call.who.part == self.number {
                    self.own_call(config, ordered, window, call)
                } else {
                    self.foreign_call(config, ordered, window, call)
                }
            }
            Body::Ret(ret) => match self.judge_return(config, core, window, ret) {
                Ok(()) => {
                    if ret.who.part == self.number {
                        self.state.ret(ret.who.proc);
                    }
                    Ok(())
                }
                Err(cause) => Err(ObjFault::Unlawful(cause)),
            },
            Body::Disp(who) => match self.judge_dispatch(config, core, window, *who) {
                Ok(()) => {
                    self.clock.dispatch(core, *who);
                    Ok(())
                }
                Err(cause) => Err(ObjFault::Unlawful(cause)),
            },
            Body::Arrive(crossing) => {
                let message = crossing.message.as_bytes();
                self.wake_at(End::Receivers, ordered.pos, crossing, message)
            }
            Body::Depart(crossing) => self.wake_at(End::Senders, ordered.pos, crossing, &[]),
            Body::Error(report) => self.take_error(config, ordered, window, report),
            Body::Tick(woken) => match self.judge_tick(config, core, window, woken) {
                Ok(()) => {
                    self.state.tick(self.number, ordered.pos, woken);
                    self.clock.advance(config, core);
                    Ok(())
                }
                Err(cause) => Err(ObjFault::Unlawful(cause)),
            },
        }
    }

    /// Judges a record. Takes no memory.
    ///
    /// Refused with the cause of the first demand that fails.
    pub(crate) fn judge(&self, config: &Config, ordered: &Ordered) -> Result<(), Cause>
        requires place { ordered.now.pos < PLACE_COUNT }
        requires holds_before { HoldsBefore ordered.now.pos (partition_part self.now) }
        ensures { Judges (demands config.now (partition_part self.now) ordered.now) result }
    {
        let core = ordered.core;
        match &ordered.rec.body {
            Body::Call(call) => {
                if call.who.part == self.number {
                    self.judge_own_call(config, ordered, call)
                } else {
                    self.judge_foreign_call(config, core, None, call)
                }
            }
            Body::Ret(ret) => self.judge_return(config, core, None, ret),
            Body::Disp(who) => self.judge_dispatch(config, core, None, *who),
            Body::Tick(woken) => self.judge_tick(config, core, None, woken),
            Body::Arrive(crossing) => self.judge_crossing(End::Receivers, crossing),
            Body::Depart(crossing) => self.judge_crossing(End::Senders, crossing),
            Body::Error(report) => self.judge_error(config, core, None, report),
        }
    }

    /// The view of one of the partition's own calls or returns, from the part before it. Takes no memory.
    pub(crate) fn view(&self, ordered: &Ordered) -> Option<View>
        requires { time_of self.now.clock.cores ordered.now.core < PLACE_COUNT }
        ensures { result ≡ view_in (partition_part self.now) ordered.now }
    {
        let core = ordered.core;
        let now = self.clock.now(core);
        match &ordered.rec.body {
            Body::Call(call) => {
                if self.is_own(call.who) {
                    Some(call_view(core, now, call))
                } else {
                    None
                }
            }
            Body::Ret(ret) => {
                if self.is_own(ret.who) {
                    let returner = self.state.processes().proc(ret.who.proc);
                    Some(return_view(core, now, returner, ret))
                } else {
                    None
                }
            }
            Body::Disp(_) | Body::Tick(_) | Body::Arrive(_) | Body::Depart(_) | Body::Error(_) =>
                None,
        }
    }

    // When a record comes.
    pub(crate) fn moment(&self, ordered: &Ordered) -> Moment<'_>
        ensures { IsMomentOf self.now.clock.cores ordered.now result }
    {
        Moment {
            place: ordered.pos,
            core: ordered.core,
            cores: self.clock.states(),
        }
    }

    // Whether a process is the partition's.
    fn is_own(&self, who: Who) -> bool
        ensures { result ≡ nat_eq who.part self.now.number }
    {
        who.part == self.number
    }

    // A call of one of the partition's own processes is judged, and carried out. The channel judges the outcome of a call through a
    // channel, except for what the partition sees of it.
    fn own_call(
        &mut self,
        config: &Config,
        ordered: &Ordered,
        window: Option<WindowAt>,
        call: &Call,
    ) -> Result<(), ObjFault>
        requires window { IfSome window (IsWindowAt config.now) }
        requires own { call.now.who.part ≡ self.old.number }
        requires place { ordered.now.pos < PLACE_COUNT }
        requires holds_before { HoldsBefore ordered.now.pos (partition_part self.old) }
        ensures ok { OnOk result (AllHold (own_demands config.now self.old ordered.now.core call.now)) }
        ensures after { OnOk result (partition_part self.new ≡ part_called config.now self.old ordered.now call.now) }
        ensures refused { IfErr result (RefusesOrWants (own_demands config.now self.old ordered.now.core call.now)) }
        ensures unchanged { OnErr result (self.new ≡ self.old) }
    {
        let course = self
            .judge_before_service(config, ordered.core, window, call)
            .map_err(ObjFault::Unlawful)?;
        match course {
            Course::Noted => self.note(config, ordered, call),
            Course::Served => self.serve(config, ordered, call),
        }
    }

    // Judges a call of one of the partition's own processes, as `own_call` does.
    fn judge_own_call(&self, config: &Config, ordered: &Ordered, call: &Call) -> Result<(), Cause>
        ensures { Judges (own_demands config.now self.now ordered.now.core call.now) result }
    {
        match self.judge_before_service(config, ordered.core, None, call)? {
            Course::Noted => Ok(()),
            Course::Served => self.state.judge(config, &self.moment(ordered), call),
        }
    }

    // Judges everything in an own call except what its service gives, and says what is left. If an error condition holds, the whole outcome
    // is judged; if the call goes through a channel, everything that the partition sees of the outcome is judged.
    fn judge_before_service(
        &self,
        config: &Config,
        core: CoreId,
        window: Option<WindowAt>,
        call: &Call,
    ) -> Result<Course, Cause>
        requires { IfSome window (IsWindowAt config.now) }
        ensures ok { IfOk result (GoesOn config.now self.now core call.now) }
        ensures refused { IfErr result (FirstFails (own_demands config.now self.now core call.now)) }
    {
        let conditions = self.judge_caller(config, core, window, call)?;
        if !conditions.is_empty() {
            judge_refused(&conditions, &call.claim)?;
            return Ok(Course::Noted);
        }
        if let Some(channel) = self.state.channel_of(&call.request) {
            judge_through(channel, self.number, call)?;
            return Ok(Course::Noted);
        }
        if call.claim.chan.is_some() {
            return Err(Cause::Chan);
        }
        Ok(Course::Served)
    }

    // Judges what is demanded of one of the partition's own calls before its outcome, and gives the error conditions that hold.
    fn judge_caller(
        &self,
        config: &Config,
        core: CoreId,
        window: Option<WindowAt>,
        call: &Call,
    ) -> Result<Conditions, Cause>
        requires { IfSome window (IsWindowAt config.now) }
        ensures ok { OnOk result (AllHold (own_caller_demands config.now self.now core call.now)) }
        ensures conditions { IfOk result (λ conditions. conditions ≡ services.conditions_of config.now (time_of self.now.clock.cores core) call.now.who self.now.state call.now.request) }
        ensures refused { IfErr result (FirstFails (own_caller_demands config.now self.now core call.now)) }
    {
        if !self.is_in_window(config, core, window) {
            return Err(Cause::Window);
        }
        if !self.misses_none(core) {
            return Err(Cause::Deadline);
        }
        if !self.is_running(core, call.who) {
            return Err(Cause::Choice);
        }
        if !self.has_none_due(call.who.proc) {
            return Err(Cause::Return);
        }
        let conditions = conditions_of(config, self.clock.now(core), &self.state, call);
        if !is_within(&conditions, &self.state, call.who, &call.request) {
            return Err(Cause::OutsideProfile);
        }
        if !self.has_priority(call.who.proc, call.claim.prio) {
            return Err(Cause::Prio);
        }
        Ok(conditions)
    }

    // An own call that is left to its service: the partition serves it.
    fn serve(&mut self, config: &Config, ordered: &Ordered, call: &Call) -> Result<(), ObjFault>
        requires own { call.now.who.part ≡ self.old.number }
        requires place { ordered.now.pos < PLACE_COUNT }
        requires holds_before { HoldsBefore ordered.now.pos (partition_part self.old) }
        requires caller { AllHold (own_caller_demands config.now self.old ordered.now.core call.now) }
        requires clear { services.conditions_of config.now (time_of self.old.clock.cores ordered.now.core) call.now.who self.old.state call.now.request ≡ [] }
        requires through { channel_of self.old.state call.now.request ≡ None }
        requires apart { call.now.claim.chan ≡ None }
        ensures ok { OnOk result (AllHold (own_demands config.now self.old ordered.now.core call.now)) }
        ensures after { OnOk result (partition_part self.new ≡ part_called config.now self.old ordered.now call.now) }
        ensures refused { IfErr result (RefusesOrWants (own_demands config.now self.old ordered.now.core call.now)) }
        ensures unchanged { OnErr result (self.new ≡ self.old) }
    {
        let moment = Moment {
            place: ordered.pos,
            core: ordered.core,
            cores: self.clock.states(),
        };
        self.state.serve(config, &moment, call)
    }

    // An own call whose demands all hold and that changes no object: the partition's processes change.
    fn note(&mut self, config: &Config, ordered: &Ordered, call: &Call) -> Result<(), ObjFault>
        requires own { call.now.who.part ≡ self.old.number }
        requires place { ordered.now.pos < PLACE_COUNT }
        requires holds_before { HoldsBefore ordered.now.pos (partition_part self.old) }
        requires lawful { AllHold (own_demands config.now self.old ordered.now.core call.now) }
        requires leaves { LeavesObjects call.now }
        ensures after { OnOk result (partition_part self.new ≡ part_called config.now self.old ordered.now call.now) }
        ensures memory { IfErr result (λ fault. fault ≡ Memory) }
        ensures unchanged { OnErr result (self.new ≡ self.old) }
    {
        let moment = Moment {
            place: ordered.pos,
            core: ordered.core,
            cores: self.clock.states(),
        };
        self.state
            .note(config, &moment, call)
            .map_err(|_| ObjFault::Memory)
    }

    // A call of another partition's process is judged, and the waits of the processes of this partition that it names end.
    fn foreign_call(
        &mut self,
        config: &Config,
        ordered: &Ordered,
        window: Option<WindowAt>,
        call: &Call,
    ) -> Result<(), ObjFault>
        requires window { IfSome window (IsWindowAt config.now) }
        requires foreign { nat_eq call.now.who.part self.old.number ≡ false }
        ensures ok { OnOk result (AllHold (foreign_call_demands config.now self.old.number self.old.clock.cores self.old.state ordered.now.core call.now)) }
        ensures after { OnOk result (partition_part self.new ≡ PartitionPart self.old.number self.old.clock.cores (partition_by config.now self.old.clock.cores ordered.now.pos ordered.now.core self.old.number (body.Call call.now) self.old.state)) }
        ensures refused { IfErr result (RefusesOrWants (foreign_call_demands config.now self.old.number self.old.clock.cores self.old.state ordered.now.core call.now)) }
        ensures unchanged { OnErr result (self.new ≡ self.old) }
    {
        self.judge_foreign_call(config, ordered.core, window, call)
            .map_err(ObjFault::Unlawful)?;
        let message = message_of(&call.request);
        self.state
            .wake_named(self.number, ordered.pos, message, &call.claim.woken)
            .map_err(|_| ObjFault::Memory)
    }

    // An arrival or a departure that names processes of this partition is judged, and their waits at this end of the channel end: each gets
    // the message.
    fn wake_at(
        &mut self,
        end: End,
        place: Place,
        crossing: &Crossing,
        message: &[u8],
    ) -> Result<(), ObjFault>
        ensures ok { OnOk result (AllHold (crossing_demands self.old.number end self.old.state crossing.now)) }
        ensures after { OnOk result (partition_part self.new ≡ PartitionPart self.old.number self.old.clock.cores (partition_woken place self.old.number message.now crossing.now.woken self.old.state)) }
        ensures refused { IfErr result (RefusesOrWants (crossing_demands self.old.number end self.old.state crossing.now)) }
        ensures unchanged { OnErr result (self.new ≡ self.old) }
    {
        self.judge_crossing(end, crossing)
            .map_err(ObjFault::Unlawful)?;
        self.state
            .wake_named(self.number, place, message, &crossing.woken)
            .map_err(|_| ObjFault::Memory)
    }

    // An arrival ends only waits to receive from its channel, a departure only waits to send to it.
    fn judge_crossing(&self, end: End, crossing: &Crossing) -> Result<(), Cause>
        ensures { Judges (crossing_demands self.now.number end self.now.state crossing.now) result }
    {
        let wanted = WaitingSet::of_channel(crossing.chan, end);
        let woken = crossing.woken.as_slice();
        if self
            .state
            .processes()
            .all_wait_at(wanted, self.number, woken)
        {
            Ok(())
        } else {
            Err(Cause::Woken)
        }
    }

    // In the partition's windows a dispatch finds no missed deadline, and names the partition's choice. Most ticks and dispatches are outside
    // the windows of a partition, so its test is where they are judged.
    #[inline(always)]
    fn judge_dispatch(
        &self,
        config: &Config,
        core: CoreId,
        window: Option<WindowAt>,
        who: Option<Who>,
    ) -> Result<(), Cause>
        requires { IfSome window (IsWindowAt config.now) }
        ensures { Judges (asked_by_partition config.now self.now core (body.Disp who)) result }
    {
        if !self.is_in_window(config, core, window) {
            return Ok(());
        }
        if !self.misses_none(core) {
            return Err(Cause::Deadline);
        }
        if self.state.choice_on(self.number, core) != who {
            return Err(Cause::Choice);
        }
        Ok(())
    }

    // In the partition's windows a tick finds no missed deadline, and the partition's choice as the occupant. Of the partition's processes it
    // names those that fall due.
    fn judge_tick(
        &self,
        config: &Config,
        core: CoreId,
        window: Option<WindowAt>,
        woken: &Woken,
    ) -> Result<(), Cause>
        requires window { IfSome window (IsWindowAt config.now) }
        requires time { time_of self.now.clock.cores core < PLACE_COUNT }
        ensures { Judges (asked_by_partition config.now self.now core (body.Tick woken.now)) result }
    {
        self.judge_dispatch(config, core, window, self.clock.on(core))?;
        let next = self.clock.now(core) + 1;
        if !self
            .state
            .processes()
            .names_those_due(self.number, core, next, woken)
        {
            return Err(Cause::Woken);
        }
        Ok(())
    }

    // A call of another partition's process ends only waits at this partition's end of a queuing channel.
    fn judge_foreign_call(
        &self,
        config: &Config,
        core: CoreId,
        window: Option<WindowAt>,
        call: &Call,
    ) -> Result<(), Cause>
        requires { IfSome window (IsWindowAt config.now) }
        ensures { Judges (foreign_call_demands config.now self.now.number self.now.clock.cores self.now.state core call.now) result }
    {
        if self.is_in_window(config, core, window) {
            if !self.misses_none(core) {
                return Err(Cause::Deadline);
            }
            if !self.is_running(core, call.who) {
                return Err(Cause::Choice);
            }
        }
        if !self.wakes_here(call) {
            return Err(Cause::Woken);
        }
        Ok(())
    }

    // Whether a call of another partition ends only waits at its channel: a send ends waits to receive, a receive and CLEAR_QUEUING_PORT end
    // waits to send.
    fn wakes_here(&self, call: &Call) -> bool
        ensures { IsTrue result ↔ WakesHere call.now.request call.now.claim.chan self.now.number self.now.state.table call.now.claim.woken }
    {
        let Some(wanted) = set_woken_by(call) else {
            return false;
        };
        self.state
            .processes()
            .all_wait_at(wanted, self.number, call.claim.woken.as_slice())
    }

    // A return must give back the outcome that is due.
    fn judge_return(
        &self,
        config: &Config,
        core: CoreId,
        window: Option<WindowAt>,
        ret: &Return,
    ) -> Result<(), Cause>
        requires { IfSome window (IsWindowAt config.now) }
        ensures { Judges (asked_by_partition config.now self.now core (body.Ret ret.now)) result }
    {
        if !self.is_in_window(config, core, window) {
            return Err(Cause::Window);
        }
        if !self.misses_none(core) {
            return Err(Cause::Deadline);
        }
        if !self.is_running(core, ret.who) {
            return Err(Cause::Choice);
        }
        let Some(due) = self.due_to(ret.who.proc) else {
            return Err(Cause::Return);
        };
        if !is_same_service(due.service, ret.service) {
            return Err(Cause::Return);
        }
        if due.code != ret.code {
            return Err(Cause::Out);
        }
        if !returns_values(due, ret) {
            return Err(Cause::Val);
        }
        if due.bytes.as_bytes() != ret.bytes.as_bytes() {
            return Err(Cause::Data);
        }
        Ok(())
    }

    // Whether no process of the partition that runs on this core has missed its deadline.
    fn misses_none(&self, core: CoreId) -> bool
        ensures { IsTrue result ↔ NoneMissed self.now.clock.cores core self.now.state }
    {
        let now = self.clock.now(core);
        !self.state.processes().is_some_missed(core, now)
    }

    // Whether the core's present window is the partition's.
    fn is_in_window(&self, config: &Config, core: CoreId, window: Option<WindowAt>) -> bool
        requires { IfSome window (IsWindowAt config.now) }
        ensures { IsTrue result ↔ (window_now config.now self.now.clock.cores core ≡ Some self.now.number) }
    {
        window_by(config, &self.clock, core, window) == Some(self.number)
    }

    // Whether this process is the core's occupant and the partition's choice.
    fn is_running(&self, core: CoreId, who: Who) -> bool
        ensures { IsTrue result ↔ IsRunning self.now.number self.now.clock.cores self.now.state core who }
    {
        let running = Some(who);
        self.clock.on(core) == running && self.state.choice_on(self.number, core) == running
    }

    // The outcome that is due to the process, if the process exists and an outcome is due.
    fn due_to(&self, number: ProcId) -> Option<&Outcome>
        ensures { option_copied result ≡ due_of (item_at self.now.state.table number) }
    {
        match self.state.processes().proc(number) {
            Some(process) => process.due.as_ref(),
            None => None,
        }
    }

    // Whether the process exists and no outcome is due to it.
    fn has_none_due(&self, number: ProcId) -> bool
        ensures { IsTrue result ↔ HasNoneDue (item_at self.now.state.table number) }
    {
        match self.state.processes().proc(number) {
            Some(process) => process.due.is_none(),
            None => false,
        }
    }

    // Whether the process exists and has this current priority.
    fn has_priority(&self, number: ProcId, priority: u8) -> bool
        ensures { IsTrue result ↔ HasPriority priority (item_at self.now.state.table number) }
    {
        match self.state.processes().proc(number) {
            Some(process) => process.current_priority == priority,
            None => false,
        }
    }
}

fn is_same_service(one: Service, other: Service) -> bool
    ensures { IsTrue result ↔ (one ≡ other) }
{
    one == other
}

// Whether a return has the values of the outcome that is due.
fn returns_values(due: &Outcome, ret: &Return) -> bool
    ensures { IsTrue result ↔ ReturnsValues due.now ret.now }
{
    due.val == ret.val && due.val2 == ret.val2 && due.val3 == ret.val3
}
