// What cores, partitions and processes do: the slices of their tracks, and the waits of processes.

ghost use Rattle.std.specs.Prelude.{OnOk};
ghost use Rattle.view_trace.specs.Trace.{AddsOthers};
ghost use Rattle.view_trace.specs.Traced.{timed};

use crate::counters::count_priority;
use crate::ends::{end_cores, end_modes, end_process, end_processes, end_wait};
use crate::fault::TraceFault;
use crate::known::{Renewed, TracedProcess, close_process, renew_core, renew_process};
use crate::said::{due_text, mode_name, name_of, state_name, wait_name};
use crate::timeline::Timeline;
use crate::tracks::{core_track, mode_track, process_track};
use apex_machine::{Mode, Wait};
use apex_types::{CoreId, PartId, Who};
use piece_check::Piece;
use run_view::{CoreView, ProcessState, ProcessView};
use sink::Sink;
use std::alloc::Global;
use wording::Numbered;

/// What was last shown of cores, partitions and processes.
#[derive(Drop)]
pub struct States {
    alloc: Global,
    cores: Vec<CoreView>,
    modes: Vec<PartId>,
    processes: Vec<TracedProcess>,
    // How many waits may have begun.
    waits: u64,
}

impl States {
    /// Nothing was shown yet. Takes no memory.
    pub fn new(alloc: Global) -> States {
        States {
            alloc,
            cores: Vec::new(alloc),
            modes: Vec::new(alloc),
            processes: Vec::new(alloc),
            waits: 0,
        }
    }

    /// The last time of a core that is known.
    pub fn time_of(&self, core: CoreId) -> u64 {
        match self.cores.iter().find(|view| view.core == core) {
            Some(view) => view.time,
            None => 0,
        }
    }

    /// Shows the occupant of a core. Returns whether it is another one.
    #[tactic(auto, using(crate::proofs::Traces::others_none, crate::proofs::Traces::others_then))]
    pub fn show_core<W: Sink>(
        &mut self,
        timeline: &mut Timeline<'_, W>,
        view: &CoreView,
    ) -> Result<bool, TraceFault>
        ensures { OnOk result (AddsOthers (timed W.bytes timeline.old) (timed W.bytes timeline.new)) }
    {
        let track = core_track(view.core);
        match self.cores.iter().position(|last| last.core == view.core) {
            Some(index) => {
                if !renew_core(&mut self.cores, index, view) {
                    return Ok(false);
                }
                timeline.end_slice(track)?;
                self.begin_occupant(timeline, view)?;
                Ok(true)
            }
            None => {
                self.cores.push(*view)?;
                let name = format!(in self.alloc; "core {}", view.core.number())?;
                timeline.name_thread(track, name.as_str())?;
                self.begin_occupant(timeline, view)?;
                Ok(true)
            }
        }
    }

    fn begin_occupant<W: Sink>(
        &self,
        timeline: &mut Timeline<'_, W>,
        view: &CoreView,
    ) -> Result<(), TraceFault>
        ensures { OnOk result (AddsOthers (timed W.bytes timeline.old) (timed W.bytes timeline.new)) }
    {
        let name = match &view.occupant {
            Some(who) => format!(in self.alloc; "{}", Numbered(*who))?,
            None => String::from_str(self.alloc, "idle")?,
        };
        let window = match &view.window {
            Some(part) => format!(in self.alloc; "window of partition {}", part.number())?,
            None => String::from_str(self.alloc, "no window")?,
        };
        let (name, window) = (name.as_str(), window.as_str());
        timeline.begin_slice(core_track(view.core), name, view.time, window)
    }

    /// Shows the mode of a partition.
    #[tactic(auto, using(crate::proofs::Traces::others_last))]
    pub fn show_mode<W: Sink>(
        &mut self,
        timeline: &mut Timeline<'_, W>,
        part: PartId,
        mode: Mode,
    ) -> Result<(), TraceFault>
        ensures { OnOk result (AddsOthers (timed W.bytes timeline.old) (timed W.bytes timeline.new)) }
    {
        let track = mode_track(part);
        if self.modes.as_slice().contains(&part) {
            timeline.end_slice(track)?;
            return timeline.begin_slice(track, mode_name(mode), 0, "");
        }
        self.modes.push(part)?;
        timeline.name_thread(track, "mode")?;
        timeline.begin_slice(track, mode_name(mode), 0, "")
    }

    /// Shows what a process does.
    pub fn show_process<W: Sink>(
        &mut self,
        timeline: &mut Timeline<'_, W>,
        pieces: &[Piece],
        who: &Who,
        view: &ProcessView,
    ) -> Result<(), TraceFault>
        ensures { OnOk result (AddsOthers (timed W.bytes timeline.old) (timed W.bytes timeline.new)) }
    {
        let runs = self.is_running(who, view);
        match self.processes.iter().position(|traced| traced.who == *who) {
            Some(index) => self.renew(timeline, index, view, runs),
            None => {
                let name = name_of(self.alloc, pieces, who)?;
                self.begin_process(timeline, who, name.as_str(), view, runs)
            }
        }
    }

    fn begin_process<W: Sink>(
        &mut self,
        timeline: &mut Timeline<'_, W>,
        who: &Who,
        name: &str,
        view: &ProcessView,
        runs: bool,
    ) -> Result<(), TraceFault>
        ensures { OnOk result (AddsOthers (timed W.bytes timeline.old) (timed W.bytes timeline.new)) }
    {
        let process = TracedProcess {
            who: *who,
            view: *view,
            runs,
            wait: self.waits,
            is_open: true,
        };
        self.processes.push(process)?;
        timeline.name_thread(process_track(*who), name)?;
        self.begin_all(timeline, &process)
    }

    // Shows what a process that is known does now.
    #[tactic(auto, using(crate::proofs::Traces::others_none, crate::proofs::Traces::others_last))]
    fn renew<W: Sink>(
        &mut self,
        timeline: &mut Timeline<'_, W>,
        index: usize,
        view: &ProcessView,
        runs: bool,
    ) -> Result<(), TraceFault>
        ensures { OnOk result (AddsOthers (timed W.bytes timeline.old) (timed W.bytes timeline.new)) }
    {
        let Some(renewed) = renew_process(&mut self.processes, index, view, runs, self.waits) else {
            return Ok(());
        };
        if !renewed.last.is_open {
            return self.begin_all(timeline, &renewed.now);
        }
        self.renew_priority(timeline, &renewed)?;
        self.renew_state(timeline, &renewed)?;
        self.renew_wait(timeline, &renewed)
    }

    // Shows all that there is of a process.
    fn begin_all<W: Sink>(
        &mut self,
        timeline: &mut Timeline<'_, W>,
        process: &TracedProcess,
    ) -> Result<(), TraceFault>
        ensures { OnOk result (AddsOthers (timed W.bytes timeline.old) (timed W.bytes timeline.new)) }
    {
        count_priority(timeline, self.alloc, process)?;
        self.begin_state(timeline, process)?;
        self.begin_wait(timeline, process)
    }

    // Shows the priority of a process, if it is another one.
    #[tactic(auto, using(crate::proofs::Traces::others_none))]
    fn renew_priority<W: Sink>(
        &self,
        timeline: &mut Timeline<'_, W>,
        renewed: &Renewed,
    ) -> Result<(), TraceFault>
        ensures { OnOk result (AddsOthers (timed W.bytes timeline.old) (timed W.bytes timeline.new)) }
    {
        let Renewed { last, now } = renewed;
        if last.view.current_priority == now.view.current_priority {
            return Ok(());
        }
        count_priority(timeline, self.alloc, now)
    }

    // Shows the state of a process, if it is another one.
    #[tactic(auto, using(crate::proofs::Traces::others_none, crate::proofs::Traces::others_last))]
    fn renew_state<W: Sink>(
        &self,
        timeline: &mut Timeline<'_, W>,
        renewed: &Renewed,
    ) -> Result<(), TraceFault>
        ensures { OnOk result (AddsOthers (timed W.bytes timeline.old) (timed W.bytes timeline.new)) }
    {
        let Renewed { last, now } = renewed;
        if last.view.state == now.view.state && last.runs == now.runs {
            return Ok(());
        }
        timeline.end_slice(process_track(now.who))?;
        self.begin_state(timeline, now)
    }

    // Shows what a process waits for, if it is something else.
    #[tactic(auto, using(crate::proofs::Traces::others_none, crate::proofs::Traces::others_last))]
    fn renew_wait<W: Sink>(
        &mut self,
        timeline: &mut Timeline<'_, W>,
        renewed: &Renewed,
    ) -> Result<(), TraceFault>
        ensures { OnOk result (AddsOthers (timed W.bytes timeline.old) (timed W.bytes timeline.new)) }
    {
        let Renewed { last, now } = renewed;
        if last.waits_for() == now.waits_for() {
            return Ok(());
        }
        end_wait(timeline, self.alloc, last)?;
        self.begin_wait(timeline, now)
    }

    fn begin_state<W: Sink>(
        &self,
        timeline: &mut Timeline<'_, W>,
        process: &TracedProcess,
    ) -> Result<(), TraceFault>
        ensures { OnOk result (AddsOthers (timed W.bytes timeline.old) (timed W.bytes timeline.new)) }
    {
        let view = &process.view;
        let name = state_name(self.alloc, view, process.runs)?;
        let due = due_text(self.alloc, process.waits_for())?;
        let time = self.time_of(view.affinity);
        let track = process_track(process.who);
        timeline.begin_slice(track, name.as_str(), time, due.as_str())
    }

    // Begins the wait of a process, if it waits.
    #[tactic(auto, using(crate::proofs::Traces::others_none))]
    fn begin_wait<W: Sink>(
        &mut self,
        timeline: &mut Timeline<'_, W>,
        process: &TracedProcess,
    ) -> Result<(), TraceFault>
        ensures { OnOk result (AddsOthers (timed W.bytes timeline.old) (timed W.bytes timeline.new)) }
    {
        let wait = process.waits_for();
        if wait == Wait::Nothing {
            return Ok(());
        }
        self.waits = self.waits.saturating_add(1);
        let name = wait_name(self.alloc, wait)?;
        let due = due_text(self.alloc, wait)?;
        let time = self.time_of(process.view.affinity);
        let track = process_track(process.who);
        timeline.begin_wait(process.wait, track, name.as_str(), time, due.as_str())
    }

    /// Ends what is shown of a process that no longer exists.
    #[tactic(auto, using(crate::proofs::Traces::others_none))]
    pub fn end_process<W: Sink>(
        &mut self,
        timeline: &mut Timeline<'_, W>,
        who: &Who,
    ) -> Result<(), TraceFault>
        ensures { OnOk result (AddsOthers (timed W.bytes timeline.old) (timed W.bytes timeline.new)) }
    {
        match close_process(&mut self.processes, who) {
            Some(last) => end_process(timeline, self.alloc, &last),
            None => Ok(()),
        }
    }

    // Whether a core runs a process.
    fn is_running(&self, who: &Who, view: &ProcessView) -> bool {
        view.state == ProcessState::Ready
            && self.cores.iter().any(|core| core.core == view.affinity
                && core.occupant == Some(*who))
    }

    /// Shows the processes that have begun or stopped to run.
    pub fn renew_running<W: Sink>(
        &mut self,
        timeline: &mut Timeline<'_, W>,
    ) -> Result<(), TraceFault>
        ensures { OnOk result (AddsOthers (timed W.bytes timeline.old) (timed W.bytes timeline.new)) }
    {
        for index in 0..self.processes.len() {
            self.renew_runner(timeline, index)?;
        }
        Ok(())
    }

    #[tactic(auto, using(crate::proofs::Traces::others_none))]
    fn renew_runner<W: Sink>(
        &mut self,
        timeline: &mut Timeline<'_, W>,
        index: usize,
    ) -> Result<(), TraceFault>
        ensures { OnOk result (AddsOthers (timed W.bytes timeline.old) (timed W.bytes timeline.new)) }
    {
        let Some(process) = self.processes.get(index) else {
            return Ok(());
        };
        let view = process.view;
        let runs = self.is_running(&process.who, &view);
        if !process.is_open || runs == process.runs {
            return Ok(());
        }
        self.renew(timeline, index, &view, runs)
    }

    /// Ends all slices and waits that are open.
    pub fn end_open<W: Sink>(&self, timeline: &mut Timeline<'_, W>) -> Result<(), TraceFault>
        ensures { OnOk result (AddsOthers (timed W.bytes timeline.old) (timed W.bytes timeline.new)) }
    {
        end_cores(timeline, self.cores.as_slice())?;
        end_modes(timeline, self.modes.as_slice())?;
        end_processes(timeline, self.alloc, self.processes.as_slice())
    }
}
