// What shows that a demand of a piece fails.

ghost use Rattle.std.specs.Prelude.{◌≡◌, ◌↔◌, ◌+◌, ◌∷◌, ◌||◌, ℕ, List, [], Some, IsTrue, nat_le, not};
ghost use Rattle.std.specs.List.{position_from, find};
ghost use Rattle.apex_types.specs.declared.record.Who.{Who as WhoValue};
ghost use Rattle.apex_types.specs.declared.request.Request.TheVariants as requests;
ghost use Rattle.apex_machine.specs.Configuration.{Configuration};
ghost use Rattle.apex_machine.specs.Deadlines.{has_missed};
ghost use Rattle.apex_machine.specs.Demands.{has_entry_in};
ghost use Rattle.apex_machine.specs.Objects.{is_owner};
ghost use Rattle.apex_machine.specs.Pieces.{time_at};
ghost use Rattle.apex_machine.specs.Ports.{Ask, channel_effect, channel_of, departed, suits_use, use_of};
ghost use Rattle.apex_machine.specs.ServiceConditions as services;
ghost use Rattle.apex_machine.specs.Services.{answer_of};
ghost use Rattle.apex_machine.specs.State.{item_at, time_of};
ghost use Rattle.apex_machine.specs.Step.{due_of};
ghost use Rattle.channel.specs.Held.{IsConfigured};
ghost use Rattle.partition_state.specs.Calls.{creates};
ghost use Rattle.piece_check.specs.Evidence.{IsEvidence, ShowsClaim, ShowsArrival, ShowsDeparted, ShowsDeparture, ShowsEnd, ShowsNames, ShowsOfBody, ShowsOfCall, ShowsOfModule, ShowsOutside, ShowsPending, ShowsPriority, ShowsSkew, ShowsThrough, ShowsWaits, channel_named, first_mutex, first_unknown, is_elsewhere, leaves_back, processes_named, ShowsDeadline, ShowsMissed, ShowsOfDeadlines};
ghost use Rattle.piece_check.specs.Held.{channel_part, partition_part};
ghost use Rattle.piece_check.specs.Parts.{AgreesOn};

use crate::channel_piece::ChannelPiece;
use crate::conditions::conditions_of;
use crate::held::Held;
use crate::module_piece::ModulePiece;
use crate::partition_piece::PartitionPiece;
use crate::piece::Piece;
use apex_machine::{CoreState, Outcome};
use apex_types::{
    Body, Call, CallerOperation, Cause, ChanId, CoreId, ObjectKind, Ordered, PartId, ProcId,
    ProcessOperation, Request, Who,
};
use module_config::Config;
use partition_objects::{Mutex653, ObjectTable};
use partition_state::PartitionState;
use wait_set::{Conditions, Given};

/// What shows that a demand of a piece fails. Each variant names the causes to which it belongs.
#[derive(Drop)]
pub enum Evidence<'a> {
    /// The demand holds, or the piece does not make it.
    Nothing,
    /// Names: the record names a process of this partition, and the partition is not configured.
    UnknownPartition(PartId),
    /// Names: the record names this channel, and the channel is not configured.
    UnknownChannel(ChanId),
    /// Skew: after the tick its core would be more than the skew ahead of the core of this number.
    LeftBack(usize),
    /// Idle and Window: the partition whose window the core is in, if it is in one, and the core's occupant.
    Window {
        owner: Option<PartId>,
        occupant: Option<Who>,
    },
    /// Deadline, of a record that no missed deadline may come before: the first process of the core that has missed its deadline, and the
    /// deadline, in ticks.
    Missed {
        who: Who,
        deadline: u64,
    },
    /// Deadline, of an error: the core on which the process runs, and its deadline, in ticks, if it has one.
    Deadline {
        affinity: CoreId,
        deadline: Option<u64>,
    },
    /// Choice: the choice of the core among the processes of the partition, and the core's occupant.
    Choice {
        choice: Option<Who>,
        occupant: Option<Who>,
    },
    /// Choice, of a channel: the caller waits at one of its ends.
    Waits,
    /// Return, and the fields of a return: the pending outcome.
    Pending(&'a Outcome),
    /// Return, and the fields of a return: there is no pending outcome.
    NothingPending,
    /// Out, of an error: whether it restarts the partition of its process.
    Restart(bool),
    /// OutsideProfile: the caller is the initialising process, and stops itself.
    Initialising,
    /// OutsideProfile: the process that is stopped, suspended or given a priority owns a mutex.
    OwnsMutex,
    /// OutsideProfile: the process that is suspended or given a priority waits for a mutex.
    WaitsForMutex,
    /// Prio: the caller's current and base priority; the priority that it had before it acquired its mutex; the number of the first mutex
    /// that it owns; and the number of the first mutex that has the recorded priority and that it does not own.
    Priority {
        current: u8,
        base: u8,
        before: u8,
        owned: Option<u32>,
        elsewhere: Option<u32>,
    },
    /// A claim: these error conditions hold.
    Conditions(Conditions),
    /// A claim, of the caller's partition: no error condition holds, and the port is of this channel.
    Through(ChanId),
    /// A claim: what the call gives its caller. Data and Woken, of a message that arrives or departs: the message that departs, and the
    /// process whose wait ends.
    Answer(Given<'a>),
    /// A claim: the call gives a new number, whichever it is.
    NewNumber,
    /// A claim, of a channel: the service is not of the channel's kind.
    OtherKind,
    /// A claim, of a channel: the partition that asks for the status is at neither end.
    AtNeitherEnd,
    /// Woken, of a tick or of a record of others: `Piece::misnamed_at_tick` or `Piece::may_wake` answers for each process.
    Named,
    /// Chan, of a message that arrives or departs: the end of the channel is inside the module.
    Inside,
    /// Data, of a message that arrives: the greatest size of the channel's messages, in bytes.
    Size(u16),
}

impl Piece {
    /// What shows that the demand with this cause fails, if the piece rejects a record for it. A step that rejects a record leaves the
    /// piece as it was, so the evidence is that of the step. Takes no memory.
    pub fn evidence(&self, config: &Config, ordered: &Ordered, cause: Cause) -> Evidence<'_>
        ensures { AgreesOn config.now self.now.part self.now.settings → IsEvidence config.now self.now.part ordered.now cause result }
    {
        match &self.held {
            Held::Module(piece) => piece.evidence(config, ordered, cause),
            Held::Partition(piece) => piece.evidence(config, ordered, cause),
            Held::Channel(piece) => piece.evidence(ordered, cause),
        }
    }
}

impl ModulePiece {
    // What the module shows.
    fn evidence(&self, config: &Config, ordered: &Ordered, cause: Cause) -> Evidence<'_>
        ensures { ShowsOfModule config.now self.now.clock.cores ordered.now.core ordered.now.rec.body cause result }
    {
        let core = ordered.core;
        match cause {
            Cause::Names => shown_names(config, &ordered.rec.body),
            Cause::Skew => self.shown_skew(config, core),
            Cause::Idle => Evidence::Window {
                owner: self.clock.window_now(config, core),
                occupant: self.clock.on(core),
            },
            Cause::Window
            | Cause::Deadline
            | Cause::Choice
            | Cause::Return
            | Cause::OutsideProfile
            | Cause::Prio
            | Cause::Chan
            | Cause::Out
            | Cause::Val
            | Cause::Data
            | Cause::Woken => Evidence::Nothing,
        }
    }

    // The core that this one would be more than the skew ahead of after a tick.
    fn shown_skew(&self, config: &Config, core: CoreId) -> Evidence<'_>
        ensures { ShowsSkew (position_from (leaves_back config.now (time_of self.now.clock.cores core)) 0 self.now.clock.cores) result }
    {
        match first_left_back(config, self.clock.now(core), self.clock.states()) {
            Some(other) => Evidence::LeftBack(other),
            None => Evidence::Nothing,
        }
    }
}

impl PartitionPiece {
    // What a partition shows.
    fn evidence(&self, config: &Config, ordered: &Ordered, cause: Cause) -> Evidence<'_>
        ensures { IsEvidence config.now (partition_part self.now) ordered.now cause result }
    {
        let core = ordered.core;
        match cause {
            Cause::Window => Evidence::Window {
                owner: self.clock.window_now(config, core),
                occupant: self.clock.on(core),
            },
            Cause::Choice => Evidence::Choice {
                choice: self.state.choice_on(self.number, core),
                occupant: self.clock.on(core),
            },
            Cause::Deadline => self.shown_deadline(ordered),
            Cause::Names | Cause::Skew | Cause::Idle => Evidence::Nothing,
            Cause::Return
            | Cause::OutsideProfile
            | Cause::Prio
            | Cause::Chan
            | Cause::Out
            | Cause::Val
            | Cause::Data
            | Cause::Woken => self.shown_of_body(config, ordered, cause),
        }
    }

    // What is shown of the deadlines of the partition: of an error the deadline of its process, of any other record the first that is missed.
    fn shown_deadline(&self, ordered: &Ordered) -> Evidence<'_>
        ensures { ShowsOfDeadlines self.now.number self.now.clock.cores self.now.state.table ordered.now.core ordered.now.rec.body result }
    {
        match &ordered.rec.body {
            Body::Error(report) => shown_deadline_of(&self.state, report.who.proc),
            Body::Call(_)
            | Body::Ret(_)
            | Body::Disp(_)
            | Body::Tick(_)
            | Body::Arrive(_)
            | Body::Depart(_) => {
                let now = self.clock.now(ordered.core);
                shown_missed(&self.state, self.number, ordered.core, now)
            }
        }
    }

    // What is shown of a record, apart from its window, the deadlines and its choice.
    fn shown_of_body(&self, config: &Config, ordered: &Ordered, cause: Cause) -> Evidence<'_>
        ensures { ShowsOfBody config.now self.now.number self.now.clock.cores self.now.state ordered.now.core ordered.now.rec.body cause result }
    {
        match &ordered.rec.body {
            Body::Call(call) => {
                if call.who.part == self.number {
                    self.shown_of_call(config, ordered, call, cause)
                } else {
                    Evidence::Named
                }
            }
            Body::Ret(ret) => shown_pending(&self.state, ret.who.proc),
            Body::Tick(_) | Body::Arrive(_) | Body::Depart(_) => Evidence::Named,
            Body::Error(report) => {
                let process = report.who.proc;
                Evidence::Restart(self.state.restarts_by_error(config, self.number, process))
            }
            Body::Disp(_) => Evidence::Nothing,
        }
    }

    // What is shown of a call of one of the partition's own processes.
    fn shown_of_call(
        &self,
        config: &Config,
        ordered: &Ordered,
        call: &Call,
        cause: Cause,
    ) -> Evidence<'_>
        ensures { ShowsOfCall config.now self.now.clock.cores self.now.state ordered.now.core call.now cause result }
    {
        match cause {
            Cause::Return => shown_pending(&self.state, call.who.proc),
            Cause::OutsideProfile => shown_outside(&self.state, call.who, &call.request),
            Cause::Prio => shown_priority(&self.state, call.who.proc, call.claim.prio),
            Cause::Chan
            | Cause::Out
            | Cause::Val
            | Cause::Data
            | Cause::Woken
            // No demand that comes after the choice has these.
            | Cause::Names
            | Cause::Skew
            | Cause::Idle
            | Cause::Window
            | Cause::Deadline
            | Cause::Choice => self.shown_claim(config, ordered, call),
        }
    }

    // What a call can claim.
    fn shown_claim(&self, config: &Config, ordered: &Ordered, call: &Call) -> Evidence<'_>
        ensures { ShowsClaim (services.conditions_of config.now (time_of self.now.clock.cores ordered.now.core) call.now.who self.now.state call.now.request) (channel_of self.now.state call.now.request) (creates call.now.request) (answer_of config.now self.now.clock.cores ordered.now.core call.now.who self.now.state call.now.request) result }
    {
        let conditions = conditions_of(config, self.clock.now(ordered.core), &self.state, call);
        if !conditions.is_empty() {
            return Evidence::Conditions(conditions);
        }
        if let Some(channel) = self.state.channel_of(&call.request) {
            return Evidence::Through(channel);
        }
        match self.state.answer(config, &self.moment(ordered), call) {
            Some(given) => Evidence::Answer(given),
            None => Evidence::NewNumber,
        }
    }
}

impl ChannelPiece {
    // What a channel shows.
    fn evidence(&self, ordered: &Ordered, cause: Cause) -> Evidence<'_>
        ensures { (configuration : Configuration) → IsConfigured configuration self.now.channel → IsEvidence configuration (channel_part self.now) ordered.now cause result }
    {
        match &ordered.rec.body {
            Body::Call(call) => match cause {
                Cause::Choice => self.shown_waits(call.who),
                Cause::Chan
                | Cause::Out
                | Cause::Val
                | Cause::Data
                | Cause::Woken
                // A channel makes no demand of these.
                | Cause::Names
                | Cause::Skew
                | Cause::Idle
                | Cause::Window
                | Cause::Deadline
                | Cause::Return
                | Cause::OutsideProfile
                | Cause::Prio => self.shown_through(ordered.core, call),
            },
            Body::Arrive(_) => self.shown_of_arrival(cause),
            Body::Depart(_) => self.shown_of_departure(cause),
            Body::Ret(_) | Body::Disp(_) | Body::Tick(_) | Body::Error(_) => Evidence::Nothing,
        }
    }

    // Whether the caller waits at an end of the channel.
    fn shown_waits(&self, who: Who) -> Evidence<'_>
        ensures { ShowsWaits (has_entry_in who self.now.channel.channel.senders || has_entry_in who self.now.channel.channel.receivers) result }
    {
        if self.channel.has(who) {
            Evidence::Waits
        } else {
            Evidence::Nothing
        }
    }

    // What the channel shows of a message that arrives.
    fn shown_of_arrival(&self, cause: Cause) -> Evidence<'_>
        ensures { (configuration : Configuration) (now : ℕ) (message : List ℕ) → IsConfigured configuration self.now.channel → ShowsArrival configuration now self.now.channel.number self.now.channel.channel message cause result }
    {
        match cause {
            Cause::Chan => shown_end(self.channel.is_from_outside()),
            Cause::Data => Evidence::Size(self.channel.size()),
            Cause::Woken => Evidence::Answer(self.channel.answer_to_arrival()),
            Cause::Names
            | Cause::Skew
            | Cause::Idle
            | Cause::Window
            | Cause::Deadline
            | Cause::Choice
            | Cause::Return
            | Cause::OutsideProfile
            | Cause::Prio
            | Cause::Out
            | Cause::Val => Evidence::Nothing,
        }
    }

    // What the channel shows of a message that departs.
    fn shown_of_departure(&self, cause: Cause) -> Evidence<'_>
        ensures { (configuration : Configuration) (now : ℕ) → IsConfigured configuration self.now.channel → ShowsDeparture configuration now self.now.channel.number self.now.channel.channel cause result }
    {
        match cause {
            Cause::Chan => shown_end(self.channel.is_to_outside()),
            Cause::Data | Cause::Woken => self.shown_departing(),
            Cause::Names
            | Cause::Skew
            | Cause::Idle
            | Cause::Window
            | Cause::Deadline
            | Cause::Choice
            | Cause::Return
            | Cause::OutsideProfile
            | Cause::Prio
            | Cause::Out
            | Cause::Val => Evidence::Nothing,
        }
    }

    // What a message that departs gives. Nothing departs from a sampling channel.
    fn shown_departing(&self) -> Evidence<'_>
        ensures { (configuration : Configuration) (now : ℕ) → IsConfigured configuration self.now.channel → ShowsDeparted self.now.channel.channel.content (departed configuration now self.now.channel.number self.now.channel.channel).answer result }
    {
        let Some(_) = self.channel.queue() else {
            return Evidence::Nothing;
        };
        match self.channel.answer_to_departure() {
            Some(given) => Evidence::Answer(given),
            None => Evidence::Nothing,
        }
    }

    // What a call through the channel can claim.
    fn shown_through(&self, core: CoreId, call: &Call) -> Evidence<'_>
        ensures { (configuration : Configuration) → IsConfigured configuration self.now.channel → ShowsThrough (suits_use configuration self.now.channel.number call.now.who.part (use_of call.now.request) self.now.channel.channel) (channel_effect configuration (time_at self.now.times core) self.now.channel.number call.now.who.part (use_of call.now.request) self.now.channel.channel).answer call.now.request self.now.channel.channel result }
    {
        match self.channel.answer(self.times.now(core), call) {
            Some(given) => Evidence::Answer(given),
            None => {
                if asks(&call.request) && self.channel.queue().is_some() {
                    Evidence::AtNeitherEnd
                } else {
                    Evidence::OtherKind
                }
            }
        }
    }
}

// Whether an end is inside the module.
fn shown_end<'a>(is_outside: bool) -> Evidence<'a>
    ensures { ShowsEnd is_outside result }
{
    if is_outside {
        Evidence::Nothing
    } else {
        Evidence::Inside
    }
}

// The partition or the channel of a record that is not configured.
fn shown_names<'a>(config: &Config, body: &Body) -> Evidence<'a>
    ensures { ShowsNames config.now (first_unknown config.now (processes_named body.now)) (channel_named body.now) result }
{
    match first_unknown_of(config, body) {
        Some(who) => Evidence::UnknownPartition(who.part),
        None => match channel_of_body(body) {
            Some(channel) => {
                if config.has_channel(channel) {
                    Evidence::Nothing
                } else {
                    Evidence::UnknownChannel(channel)
                }
            }
            None => Evidence::Nothing,
        },
    }
}

// The first process that a record names and whose partition is not configured.
fn first_unknown_of(config: &Config, body: &Body) -> Option<Who>
    ensures { result ≡ first_unknown config.now (processes_named body.now) }
{
    match body {
        Body::Call(call) => {
            if config.has_partition(call.who.part) {
                first_unknown_among(config, call.claim.woken.as_slice())
            } else {
                Some(call.who)
            }
        }
        Body::Ret(ret) => unless_known(config, ret.who),
        Body::Error(report) => unless_known(config, report.who),
        Body::Disp(Some(who)) => unless_known(config, *who),
        Body::Disp(None) => None,
        Body::Tick(woken) => first_unknown_among(config, woken.as_slice()),
        Body::Arrive(crossing) | Body::Depart(crossing) => {
            first_unknown_among(config, crossing.woken.as_slice())
        }
    }
}

// The first of these processes whose partition is not configured.
fn first_unknown_among(config: &Config, named: &[Who]) -> Option<Who>
    ensures { result ≡ first_unknown config.now named.now }
{
    named
        .iter()
        .copied()
        .find(|who| !config.has_partition(who.part))
}

// This process, unless its partition is configured.
fn unless_known(config: &Config, who: Who) -> Option<Who>
    ensures { result ≡ first_unknown config.now (who ∷ []) }
{
    if config.has_partition(who.part) {
        None
    } else {
        Some(who)
    }
}

// The channel that a record names.
fn channel_of_body(body: &Body) -> Option<ChanId>
    ensures { result ≡ channel_named body.now }
{
    match body {
        Body::Call(call) => call.claim.chan,
        Body::Arrive(crossing) | Body::Depart(crossing) => Some(crossing.chan),
        Body::Ret(_) | Body::Disp(_) | Body::Tick(_) | Body::Error(_) => None,
    }
}

// The number of the first core that a core at this time would be more than the skew ahead of after a tick.
fn first_left_back(config: &Config, now: u64, states: &[CoreState]) -> Option<usize>
    ensures { result ≡ position_from (leaves_back config.now now) 0 states.now }
{
    let skew = config.skew();
    states
        .iter()
        .position(|other| is_left_back(now, skew, other))
}

// Whether a core at this time would be more than the skew ahead of another core after a tick.
fn is_left_back(now: u64, skew: u64, other: &CoreState) -> bool
    ensures { result ≡ not (nat_le (now + 1) (other.now.time + skew)) }
{
    if now < other.time {
        return false;
    }
    now - other.time >= skew
}

// The core and the deadline of a process.
fn shown_deadline_of<'a>(state: &PartitionState, process: ProcId) -> Evidence<'a>
    ensures { ShowsDeadline (item_at state.now.table process) result }
{
    match state.processes().proc(process) {
        Some(found) => Evidence::Deadline {
            affinity: found.affinity,
            deadline: found.deadline,
        },
        None => Evidence::Nothing,
    }
}

// The first process of a core that has missed its deadline at this time.
fn shown_missed<'a>(state: &PartitionState, part: PartId, core: CoreId, now: u64) -> Evidence<'a>
    ensures { ShowsMissed part (find (λ entry. has_missed core now entry.1) state.now.table) result }
{
    let Some((proc, found)) = state.processes().first_missed(core, now) else {
        return Evidence::Nothing;
    };
    match found.deadline {
        Some(deadline) => Evidence::Missed {
            who: Who { part, proc: *proc },
            deadline,
        },
        None => Evidence::Nothing,
    }
}

// The pending outcome of a process.
fn shown_pending(state: &PartitionState, process: ProcId) -> Evidence<'_>
    ensures { ShowsPending (due_of (item_at state.now.table process)) result }
{
    match state.processes().proc(process) {
        Some(found) => match &found.due {
            Some(outcome) => Evidence::Pending(outcome),
            None => Evidence::NothingPending,
        },
        None => Evidence::NothingPending,
    }
}

// Why a request is outside the profile.
fn shown_outside<'a>(state: &PartitionState, who: Who, request: &Request) -> Evidence<'a>
    ensures { ShowsOutside who state.now request.now result }
{
    match request {
        Request::Process(process, operation) => shown_target(state, *process, operation),
        Request::Caller(CallerOperation::StopSelf) => {
            if who.proc.number() == 0 && !state.is_handler(who.proc) {
                Evidence::Initialising
            } else if state.owns_mutex(who.proc) {
                Evidence::OwnsMutex
            } else {
                Evidence::Nothing
            }
        }
        _ => Evidence::Nothing,
    }
}

// Why a process may not be stopped, suspended or given a priority.
fn shown_target<'a>(
    state: &PartitionState,
    process: i64,
    operation: &ProcessOperation,
) -> Evidence<'a>
    ensures { (who : WhoValue) → ShowsOutside who state.now (requests.Process process operation.now) result }
{
    match operation {
        ProcessOperation::Stop => {
            if state.numbered_owns_mutex(process) {
                Evidence::OwnsMutex
            } else {
                Evidence::Nothing
            }
        }
        ProcessOperation::Suspend | ProcessOperation::SetPriority { .. } => {
            if state.numbered_owns_mutex(process) {
                Evidence::OwnsMutex
            } else if state.processes().waits_for_mutex(process) {
                Evidence::WaitsForMutex
            } else {
                Evidence::Nothing
            }
        }
        ProcessOperation::InitializeCoreAffinity { .. }
        | ProcessOperation::Start
        | ProcessOperation::DelayedStart { .. }
        | ProcessOperation::Resume
        | ProcessOperation::GetStatus
        | ProcessOperation::GetMutexState => Evidence::Nothing,
    }
}

// The caller, and the mutexes that its priority may come from.
fn shown_priority<'a>(state: &PartitionState, process: ProcId, recorded: u8) -> Evidence<'a>
    ensures { ShowsPriority state.now.mutexes process recorded (item_at state.now.table process) result }
{
    match state.processes().proc(process) {
        Some(caller) => Evidence::Priority {
            current: caller.current_priority,
            base: caller.base_priority,
            before: caller.retained_priority,
            owned: first_owned(state.mutexes(), process),
            elsewhere: first_elsewhere(state.mutexes(), process, recorded),
        },
        None => Evidence::Nothing,
    }
}

// The number of the first mutex that a process owns.
fn first_owned(mutexes: &ObjectTable<Mutex653>, process: ProcId) -> Option<u32>
    ensures { result ≡ first_mutex (λ mutex. is_owner mutex.owner process) mutexes.now }
{
    let (number, _) = mutexes
        .iter()
        .find(|(_, mutex)| mutex.is_owned_by(process))?;
    Some(*number)
}

// The number of the first mutex that has this priority and that a process does not own.
fn first_elsewhere(mutexes: &ObjectTable<Mutex653>, process: ProcId, priority: u8) -> Option<u32>
    ensures { result ≡ first_mutex (is_elsewhere priority process) mutexes.now }
{
    let (number, _) = mutexes.iter().find(|(_, mutex)| mutex.priority() == priority
        && !mutex.is_owned_by(process))?;
    Some(*number)
}

// Whether a request asks for the status of a queuing port.
fn asks(request: &Request) -> bool
    ensures { IsTrue result ↔ (use_of request.now ≡ Some Ask) }
{
    matches!(request, Request::GetStatus(ObjectKind::QueuingPort, _))
}
