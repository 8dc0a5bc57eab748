// The reports of errors.

ghost use Rattle.std.specs.Prelude.{◌≡◌, [], ◌∷◌, IfErr, IfSome, OnErr, OnOk};
ghost use Rattle.apex_types.specs.declared.record.Body.TheVariants as body;
ghost use Rattle.apex_machine.specs.After.{partition_by};
ghost use Rattle.apex_machine.specs.Demands.{AllHold, process_demand};
ghost use Rattle.apex_machine.specs.Pieces.{PartitionPart};
ghost use Rattle.partition_state.specs.Calls.{RefusesOrWants};
ghost use Rattle.piece_check.specs.Held.{partition_part};
ghost use Rattle.piece_check.specs.Judged.{Judges, asked_by_partition};
ghost use Rattle.piece_check.specs.Found.{IsWindowAt};

use super::PartitionPiece;
use crate::windows::WindowAt;
use apex_types::{Cause, CoreId, ErrorCode, ErrorReport, Ordered};
use module_config::Config;
use wait_set::ObjFault;

impl PartitionPiece {
    // The report of an error is judged, and the error is reported to the partition of the process that has it.
    pub(super) fn take_error(
        &mut self,
        config: &Config,
        ordered: &Ordered,
        window: Option<WindowAt>,
        report: &ErrorReport,
    ) -> Result<(), ObjFault>
        requires window { IfSome window (IsWindowAt config.now) }
        ensures ok { OnOk result (AllHold (asked_by_partition config.now self.old ordered.now.core (body.Error report.now))) }
        ensures after { OnOk result (partition_part self.new ≡ PartitionPart self.old.number self.old.clock.cores (partition_by config.now self.old.clock.cores ordered.now.pos ordered.now.core self.old.number (body.Error report.now) self.old.state)) }
        ensures refused { IfErr result (RefusesOrWants (asked_by_partition config.now self.old ordered.now.core (body.Error report.now))) }
        ensures unchanged { OnErr result (self.new ≡ self.old) }
    {
        self.judge_error(config, ordered.core, window, report)
            .map_err(ObjFault::Unlawful)?;
        if report.who.part != self.number {
            return Ok(());
        }
        self.state
            .tell(config, ordered.pos, report)
            .map_err(|_| ObjFault::Memory)
    }

    // An error is reported in a window of the partition. It is of a process that runs on the core and has missed its deadline, or else of the
    // occupant, which is the choice. It restarts the partition exactly if no handler takes it and the configuration says so.
    pub(super) fn judge_error(
        &self,
        config: &Config,
        core: CoreId,
        window: Option<WindowAt>,
        report: &ErrorReport,
    ) -> Result<(), Cause>
        requires { IfSome window (IsWindowAt config.now) }
        ensures { Judges (asked_by_partition config.now self.now core (body.Error report.now)) result }
    {
        if !self.is_in_window(config, core, window) {
            return Err(Cause::Window);
        }
        self.judge_process(core, report)?;
        let process = report.who.proc;
        if self.state.restarts_by_error(config, self.number, process) != report.restarts {
            return Err(Cause::Out);
        }
        Ok(())
    }

    // A missed deadline is that of a process that runs on the core; any other error is the occupant's, which is the choice.
    fn judge_process(&self, core: CoreId, report: &ErrorReport) -> Result<(), Cause>
        ensures { Judges (process_demand report.now.error self.now.number self.now.clock.cores self.now.state core report.now.who ∷ []) result }
    {
        match report.error {
            ErrorCode::DeadlineMissed => {
                let now = self.clock.now(core);
                if self.state.processes().is_missed(report.who.proc, core, now) {
                    Ok(())
                } else {
                    Err(Cause::Deadline)
                }
            }
            _ => {
                if self.is_running(core, report.who) {
                    Ok(())
                } else {
                    Err(Cause::Choice)
                }
            }
        }
    }
}
