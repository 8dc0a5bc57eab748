// The changes of a record, shown in a picture.

use crate::labels::{add_words, process_name, quoted};
use crate::lane_key::LaneKey;
use crate::look::Look;
use crate::picture::{Picture, ProcessNow};
use crate::process_bars::{
    Hold, mode_saying, occupant_saying, process_saying, verb_of, window_saying,
};
use crate::role::Role;
use crate::thing_bars::{KeyName, thing_saying};
use apex_machine::Mode;
use apex_types::{PartId, Who};
use piece_check::Piece;
use run_view::{Change, CoreView, ProcessState, ProcessView, ThingKey, view_of};
use std::alloc::AllocError;
use wording::Numbered;

impl Picture {
    // Shows changes from this column on, and adds them in words.
    pub(crate) fn apply(
        &mut self,
        pieces: &[Piece],
        changes: &[Change],
        column: usize,
        hover: &mut String,
    ) -> Result<(), AllocError> {
        for change in changes {
            match change {
                Change::Core(view) => self.apply_core(column, view, hover)?,
                Change::Mode(part, mode) => self.apply_mode(column, part, *mode, hover)?,
                Change::Process(who, view) => {
                    self.apply_process(pieces, column, who, view, hover)?;
                }
                Change::Ended(who) => {
                    add_words(hover, format_args!("{} is no longer there", Numbered(*who)))?;
                    self.processes.retain(|process| process.who != *who);
                    self.end_lane(LaneKey::Process(*who), column)?;
                }
                Change::Thing(key) => self.apply_thing(pieces, column, key, hover)?,
                Change::Removed(key) => {
                    add_words(hover, format_args!("{} is no longer there", KeyName(*key)))?;
                    self.end_lane(LaneKey::Thing(*key), column)?;
                }
            }
        }
        self.say_processes(column)
    }

    fn end_lane(&mut self, key: LaneKey, column: usize) -> Result<(), AllocError> {
        let lane = self.lane(key, "")?;
        lane.bars.end(column);
        lane.concerned.push(column)?;
        Ok(())
    }

    fn apply_mode(
        &mut self,
        column: usize,
        part: &PartId,
        mode: Mode,
        hover: &mut String,
    ) -> Result<(), AllocError> {
        let saying = mode_saying(self.alloc, *part, mode, false)?;
        add_words(hover, format_args!("{}", saying.title))?;
        let lane = self.lane(LaneKey::Partition(*part), "")?;
        lane.bars.say(column, saying)?;
        lane.concerned.push(column)?;
        Ok(())
    }

    fn apply_core(
        &mut self,
        column: usize,
        view: &CoreView,
        hover: &mut String,
    ) -> Result<(), AllocError> {
        let window = window_saying(self.alloc, view)?;
        let occupant = occupant_saying(self.alloc, view)?;
        let last = match self.cores.iter().find(|last| last.core == view.core) {
            Some(last) => Some(*last),
            None => None,
        };
        let has_window = matches!(&last, Some(last) if last.window == view.window);
        let has_occupant = matches!(&last, Some(last) if last.occupant == view.occupant);
        if !has_window {
            add_words(hover, format_args!("{}", window.title))?;
        }
        if !has_occupant {
            add_words(hover, format_args!("{}", occupant.title))?;
        }
        self.keep_core(view)?;
        let lane = self.lane(LaneKey::Core(view.core), "")?;
        if !has_window || !has_occupant {
            lane.concerned.push(column)?;
        }
        lane.windows.say(column, window)?;
        lane.bars.say(column, occupant)
    }

    // Keeps what is known of a core.
    fn keep_core(&mut self, view: &CoreView) -> Result<(), AllocError> {
        match self.cores.iter().position(|last| last.core == view.core) {
            Some(index) => self.cores[index] = *view,
            None => self.cores.push(*view)?,
        }
        Ok(())
    }

    fn apply_process(
        &mut self,
        pieces: &[Piece],
        column: usize,
        who: &Who,
        view: &ProcessView,
        hover: &mut String,
    ) -> Result<(), AllocError> {
        let is_affected = self.is_affected(who, view);
        let name = process_name(self.alloc, pieces, who)?;
        let lane = self.lane(LaneKey::Process(*who), name.as_str())?;
        if is_affected {
            lane.concerned.push(column)?;
            self.tell_process(who, name.as_str(), view, hover)?;
        }
        self.keep_process(who, name, view)
    }

    // Says what a process does from now on.
    fn tell_process(
        &self,
        who: &Who,
        name: &str,
        view: &ProcessView,
        hover: &mut String,
    ) -> Result<(), AllocError> {
        let saying = process_saying(self.alloc, who, name, view, Hold::Waits)?;
        let verb = verb_of(saying.look);
        add_words(
            hover,
            format_args!("{}{name} {verb}{}", Numbered(*who), saying.text),
        )?;
        if self.has_moved(who, view) {
            add_words(
                hover,
                format_args!("its core is {}", view.affinity.number()),
            )?;
        }
        let (current, base) = (view.current_priority, view.base_priority);
        if current != base {
            add_words(
                hover,
                format_args!("its priority is {current}, and its own {base}"),
            )?;
        }
        match view.deadline {
            Some(deadline) => add_words(hover, format_args!("its deadline is at time {deadline}")),
            None if self.had_deadline(who) => {
                add_words(hover, format_args!("it has no deadline now"))
            }
            None => Ok(()),
        }
    }

    // Whether a process had a deadline as it was last seen.
    fn had_deadline(&self, who: &Who) -> bool {
        self.processes
            .iter()
            .find(|process| process.who == *who)
            .is_some_and(|process| process.view.deadline.is_some())
    }

    // Whether a process had another core as it was last seen.
    fn has_moved(&self, who: &Who, view: &ProcessView) -> bool {
        self.processes
            .iter()
            .find(|process| process.who == *who)
            .is_some_and(|process| process.view.affinity != view.affinity)
    }

    // Whether a process is new, does something else, or has another core, priority or deadline.
    fn is_affected(&self, who: &Who, view: &ProcessView) -> bool {
        match self.processes.iter().find(|process| process.who == *who) {
            Some(last) => {
                last.view.state != view.state
                    || last.view.affinity != view.affinity
                    || last.view.current_priority != view.current_priority
                    || last.view.deadline != view.deadline
            }
            None => true,
        }
    }

    // Keeps what is known of a process.
    fn keep_process(
        &mut self,
        who: &Who,
        name: String,
        view: &ProcessView,
    ) -> Result<(), AllocError> {
        match self
            .processes
            .iter()
            .position(|process| process.who == *who)
        {
            Some(index) => {
                self.processes[index].name = name;
                self.processes[index].view = *view;
            }
            None => self.processes.push(ProcessNow {
                who: *who,
                name,
                view: *view,
                hold: Hold::Waits,
            })?,
        }
        Ok(())
    }

    fn apply_thing(
        &mut self,
        pieces: &[Piece],
        column: usize,
        key: &ThingKey,
        hover: &mut String,
    ) -> Result<(), AllocError> {
        let Some(view) = view_of(self.alloc, pieces, key)? else {
            return Ok(());
        };
        let saying = thing_saying(self.alloc, key, &view)?;
        add_words(hover, format_args!("{}", saying.title))?;
        let name = quoted(self.alloc, view.name.as_slice())?;
        let lane = self.lane(LaneKey::Thing(*key), name.as_str())?;
        lane.bars.say(column, saying)?;
        lane.concerned.push(column)?;
        Ok(())
    }

    // Shows what each process does from this column on.
    fn say_processes(&mut self, column: usize) -> Result<(), AllocError> {
        for index in 0..self.processes.len() {
            self.say_process(column, index)?;
        }
        Ok(())
    }

    // Shows what the process with this index does from this column on.
    fn say_process(&mut self, column: usize, index: usize) -> Result<(), AllocError> {
        let Some(process) = self.processes.get(index) else {
            return Ok(());
        };
        let before = process.hold;
        let now = self.hold_of(process);
        let saying = process_saying(
            self.alloc,
            &process.who,
            process.name.as_str(),
            &process.view,
            now,
        )?;
        let who = process.who;
        let core = process.view.affinity;
        if let Some(process) = self.processes.get_mut(index) {
            process.hold = now;
        }
        if who.proc.number() == 0 {
            self.name_first_process(&who, saying.look)?;
        }
        let lane = self.lane(LaneKey::Process(who), "")?;
        lane.core = Some(core);
        if before != now {
            lane.concerned.push(column)?;
        }
        lane.bars.say(column, saying)
    }

    // Labels the lane of process 0 of a partition, which now looks like this. It has a role from the first on, and then each time that it is
    // not dormant.
    fn name_first_process(&mut self, who: &Who, look: Look) -> Result<(), AllocError> {
        let alloc = self.alloc;
        let mode = self.lane(LaneKey::Partition(who.part), "")?.bars.look();
        let now = Role::of(mode == Some(Look::Normal));
        let lane = self.lane(LaneKey::Process(*who), "")?;
        let role = match lane.role {
            None => now,
            Some(before) if look == Look::Dormant => before,
            Some(before) => before.then(now),
        };
        if lane.role != Some(role) {
            lane.label = String::from_str(alloc, role.label())?;
            lane.role = Some(role);
        }
        Ok(())
    }

    // What a process now has of its core.
    fn hold_of(&self, process: &ProcessNow) -> Hold {
        if process.view.state != ProcessState::Ready {
            return Hold::Waits;
        }
        let affinity = &process.view.affinity;
        let Some(core) = self.cores.iter().find(|core| core.core == *affinity) else {
            return Hold::Waits;
        };
        let Some(occupant) = &core.occupant else {
            return Hold::Waits;
        };
        if *occupant == process.who {
            return Hold::Runs;
        }
        match process.hold {
            Hold::Runs | Hold::Lost if occupant.part == process.who.part => Hold::Lost,
            Hold::Runs | Hold::Lost | Hold::Waits => Hold::Waits,
        }
    }
}
