// What services report of processes and of the partition itself.

ghost use Rattle.std.specs.Prelude.{◌≡◌, true, false};
ghost use Rattle.apex_machine.specs.Arguments as arguments;
ghost use Rattle.apex_machine.specs.Choice.{is_ready};
ghost use Rattle.apex_machine.specs.Services as services;
ghost use Rattle.apex_machine.specs.Services.{peer};
ghost use Rattle.apex_machine.specs.State.{created};
ghost use Rattle.apex_machine.specs.Statuses as statuses;
ghost use Rattle.wait_set.specs.GivenNumbers.{value_given};
ghost use Rattle.wait_set.specs.Givens.{answer_given};

use crate::state::PartitionState;
use apex_machine::{Mode, Process, StartCondition, Wait};
use apex_types::Who;
use scheduling::Moment;
use wait_set::{Given, GivenValue};

impl PartitionState {
    /// What GET_PARTITION_STATUS gives: the mode, the lock level, and the start condition. Takes no memory.
    pub(crate) fn status_answer<'a>(&self) -> Given<'a>
        ensures { answer_given result ≡ statuses.partition_status self.now }
    {
        Given::values(
            GivenValue::Natural(mode_number(self.processes.mode())),
            Some(GivenValue::Natural(u64::from(self.lock.level()))),
            Some(GivenValue::Natural(start_number(self.start))),
        )
    }

    /// What GET_PROCESS_STATUS gives this caller for the created process of the number that it gives: the state, the current priority, and
    /// the deadline, if there is one. Done, if there is no such process. Takes no memory.
    pub(crate) fn process_answer<'a>(
        &self,
        moment: &Moment<'_>,
        who: Who,
        process: i64,
    ) -> Given<'a>
        ensures { answer_given result ≡ services.answer_by (created self.now.table process) (statuses.process_status moment.now.cores.now (peer who process)) }
    {
        let Some(number) = self.processes.created_number(process) else {
            return Given::done();
        };
        let Some(found) = self.processes.proc(number) else {
            return Given::done();
        };
        let own = Who {
            part: who.part,
            proc: number,
        };
        Given::values(
            GivenValue::Natural(state_number(moment, own, found)),
            Some(GivenValue::Natural(u64::from(found.current_priority))),
            Some(deadline_value(found.deadline)),
        )
    }
}

// The number of a mode, as services report it.
fn mode_number(mode: Mode) -> u64
    ensures { result ≡ arguments.mode_number mode }
{
    match mode {
        Mode::Idle => 0,
        Mode::ColdStart => 1,
        Mode::WarmStart => 2,
        Mode::Normal => 3,
    }
}

// The number of a start condition, as services report it.
fn start_number(start: StartCondition) -> u64
    ensures { result ≡ arguments.start_number start }
{
    match start {
        StartCondition::NormalStart => 0,
        StartCondition::PartitionRestart => 1,
        StartCondition::ErrorRestart => 3,
    }
}

// A deadline, as services report it: -1 if there is none.
fn deadline_value(deadline: Option<u64>) -> GivenValue
    ensures { value_given result ≡ statuses.deadline_number deadline }
{
    match deadline {
        Some(deadline) => GivenValue::Natural(deadline),
        None => GivenValue::BelowZero(-1),
    }
}

// The number of the state of a process, as services report it: 0 DORMANT, 1 READY, 2 RUNNING, 3 WAITING, 4 FAULTED.
fn state_number(moment: &Moment<'_>, who: Who, process: &Process) -> u64
    ensures { result ≡ statuses.state_number moment.now.cores.now who process.now }
{
    if !process.alive {
        0
    } else if process.faulted {
        4
    } else if !is_ready(process) {
        3
    } else if moment.occupant_of(process.affinity) == Some(who) {
        2
    } else {
        1
    }
}

// Whether a process that is neither dormant nor faulted is ready on its core: it is not suspended, and waits for nothing.
fn is_ready(process: &Process) -> bool
    requires alive { process.now.alive ≡ true }
    requires sound { process.now.faulted ≡ false }
    ensures { result ≡ is_ready process.now.affinity process.now }
{
    !process.suspended && matches!(process.wait, Wait::Nothing)
}
