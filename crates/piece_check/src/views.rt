// The views of records: the numbers that a user's relation sees of each.

ghost use Rattle.std.specs.Prelude.{◌≡◌, ◌<◌, ◌≤◌, ℕ, None, length, pos};
ghost use Rattle.std.specs.Option.{option_copied};
ghost use Rattle.apex_types.specs.declared.limits.TheConstants.{PLACE_COUNT};
ghost use Rattle.apex_machine.specs.Views as rules;
ghost use Rattle.apex_machine.specs.Views.{core_view, elapsed_field, priority_field, value_number, who_field};

use apex_machine::Process;
use apex_types::{Call, CoreId, Crossing, ErrorReport, Out, Return, View, Who, Woken};

/// The number of a field that the record does not have.
const ABSENT: i64 = -1;

/// The view of a call, at this time of its core.
pub(crate) fn call_view(core: CoreId, now: u64, call: &Call) -> View
    requires { now < PLACE_COUNT }
    ensures { result ≡ rules.call_view core now call.now }
{
    View {
        kind: 0,
        core: i64::from(core.number()),
        time: now as i64,
        part: i64::from(call.who.part.number()),
        proc: i64::from(call.who.proc.number()),
        service: i64::from(call.request.service().number()),
        prio: i64::from(call.claim.prio),
        out: i64::from(call.claim.out.number()),
        val: value_field(call.claim.val),
        elapsed: ABSENT,
        woken: count_field(&call.claim.woken),
    }
}

/// The view of a return, at this time of its core, with what is known of the process that returns.
pub(crate) fn return_view(core: CoreId, now: u64, returner: Option<&Process>, ret: &Return) -> View
    requires { now < PLACE_COUNT }
    ensures { result ≡ rules.return_view core now (option_copied returner.entry) ret.now }
{
    View {
        kind: 1,
        core: i64::from(core.number()),
        time: now as i64,
        part: i64::from(ret.who.part.number()),
        proc: i64::from(ret.who.proc.number()),
        service: i64::from(ret.service.number()),
        prio: priority_of(returner),
        out: i64::from(ret.code.number()),
        val: value_field(ret.val),
        elapsed: elapsed_since(now, returner),
        woken: 0,
    }
}

/// The view of a dispatch, at this time of its core.
pub(crate) fn dispatch_view(core: CoreId, now: u64, who: &Option<Who>) -> View
    requires { now < PLACE_COUNT }
    ensures { result ≡ core_view 2 core now who.now 0 }
{
    View {
        kind: 2,
        core: i64::from(core.number()),
        time: now as i64,
        part: part_of(who),
        proc: proc_of(who),
        service: ABSENT,
        prio: ABSENT,
        out: ABSENT,
        val: ABSENT,
        elapsed: ABSENT,
        woken: 0,
    }
}

/// The view of a tick, at the time that its core has after it.
pub(crate) fn tick_view(core: CoreId, after: u64, woken: &Woken) -> View
    requires { after ≤ PLACE_COUNT }
    ensures { result ≡ core_view 3 core after None (length woken.now) }
{
    View {
        kind: 3,
        core: i64::from(core.number()),
        time: after as i64,
        part: ABSENT,
        proc: ABSENT,
        service: ABSENT,
        prio: ABSENT,
        out: ABSENT,
        val: ABSENT,
        elapsed: ABSENT,
        woken: count_field(woken),
    }
}

/// The view of an arrival, which has the kind 4, or of a departure, which has the kind 5, at this time of its core.
pub(crate) fn crossing_view(kind: i64, core: CoreId, now: u64, crossing: &Crossing) -> View
    requires { now < PLACE_COUNT }
    ensures { (number : ℕ) → kind ≡ pos number → result ≡ core_view number core now None (length crossing.now.woken) }
{
    View {
        kind,
        core: i64::from(core.number()),
        time: now as i64,
        part: ABSENT,
        proc: ABSENT,
        service: ABSENT,
        prio: ABSENT,
        out: ABSENT,
        val: ABSENT,
        elapsed: ABSENT,
        woken: count_field(&crossing.woken),
    }
}

/// The view of an error, at this time of its core.
pub(crate) fn error_view(core: CoreId, now: u64, report: &ErrorReport) -> View
    requires { now < PLACE_COUNT }
    ensures { result ≡ rules.error_view core now report.now }
{
    View {
        kind: 6,
        core: i64::from(core.number()),
        time: now as i64,
        part: i64::from(report.who.part.number()),
        proc: i64::from(report.who.proc.number()),
        service: ABSENT,
        prio: ABSENT,
        out: restart_field(report.restarts),
        val: ABSENT,
        elapsed: ABSENT,
        woken: 0,
    }
}

// The outcome of an error: that of a call that does not return, if the error restarts its partition.
fn restart_field(restarts: bool) -> i64
    ensures { result ≡ rules.restart_field restarts }
{
    if restarts {
        i64::from(Out::Never.number())
    } else {
        ABSENT
    }
}

// The partition of the process to which a core is given.
fn part_of(who: &Option<Who>) -> i64
    ensures { result ≡ who_field (λ one. one.part) who.now }
{
    match who {
        Some(who) => i64::from(who.part.number()),
        None => ABSENT,
    }
}

// The number of the process to which a core is given.
fn proc_of(who: &Option<Who>) -> i64
    ensures { result ≡ who_field (λ one. one.proc) who.now }
{
    match who {
        Some(who) => i64::from(who.proc.number()),
        None => ABSENT,
    }
}

// The value that a record claims, if it claims one.
fn value_field(val: Option<i64>) -> i64
    ensures { result ≡ value_number val }
{
    match val {
        Some(value) => value,
        None => ABSENT,
    }
}

// The number of processes that a record names.
fn count_field(woken: &Woken) -> i64
    ensures { result ≡ pos (length woken.now) }
{
    woken.as_slice().len() as i64
}

// The current priority of the process that returns.
fn priority_of(returner: Option<&Process>) -> i64
    ensures { result ≡ priority_field (option_copied returner.entry) }
{
    match returner {
        Some(process) => i64::from(process.current_priority),
        None => ABSENT,
    }
}

// The time since the last call of the process that returns.
fn elapsed_since(now: u64, returner: Option<&Process>) -> i64
    requires { now < PLACE_COUNT }
    ensures { result ≡ elapsed_field now (option_copied returner.entry) }
{
    match returner {
        Some(process) => now.saturating_sub(process.called_at) as i64,
        None => ABSENT,
    }
}
