// The deadlines of processes.

ghost use Rattle.std.specs.Prelude.{◌≡◌, ◌≤◌, ◌<◌, Some};
ghost use Rattle.apex_types.specs.declared.limits.TheConstants.{GREATEST_SPAN, PLACE_COUNT};
ghost use Rattle.apex_machine.specs.Arguments.{natural_of};
ghost use Rattle.apex_machine.specs.Deadlines as deadlines;

use crate::wait;
use apex_machine::Process;
use apex_types::CoreId;
use apex_types::limits::LATEST_DEADLINE;

/// The deadline that a time capacity or a budget sets, if it counts from this time, both in ticks: none without one, and none that would be
/// later than a status can report.
pub fn deadline_from(time: u64, span: Option<u64>) -> Option<u64>
    ensures { result ≡ deadlines.deadline_from time span }
{
    match time.checked_add(span?) {
        Some(deadline) if deadline <= LATEST_DEADLINE => Some(deadline),
        _ => None,
    }
}

/// The deadline of a process that is started in NORMAL with a delay, when its core's time is `now`. The period is the partition's. All are
/// in ticks.
pub fn on_entry(process: &Process, period: u64, now: u64, delay: i64) -> Option<u64>
    requires least { 1 ≤ period }
    requires most { period ≤ GREATEST_SPAN }
    requires time { now < PLACE_COUNT }
    ensures { result ≡ deadlines.entry_deadline period now (natural_of delay) process.now }
{
    let time = wait::entry_time(period, now, delay, process.period);
    deadline_from(time, process.time_capacity)
}

/// Whether the process runs on this core and has missed its deadline: this time, in ticks, has reached it.
pub fn has_missed(process: &Process, core: CoreId, now: u64) -> bool
    ensures { result ≡ deadlines.is_missed core now (Some process.now) }
{
    match process.deadline {
        Some(deadline) => process.affinity == core && deadline <= now,
        None => false,
    }
}
