// A picture as it grows, record by record.

ghost use Rattle.std.specs.Prelude.{◌≡◌, ◌<◌, IfOk, OnOk, length, nat_eq};
ghost use Rattle.std.specs.List.{list_any};
ghost use Rattle.view_picture.specs.Records.{named_places, record_count};

use crate::arrow::Arrow;
use crate::column::{Column, Source, Status, location_text, source_text};
use crate::labels::{label_of, label_of_lane, words_of};
use crate::lane::{Lane, MarkKind};
use crate::lane_key::LaneKey;
use crate::marks::actor_of;
use crate::process_bars::Hold;
use crate::touched::{furthest_behind, is_at_core, names, process_at};
use apex_types::{Body, Cause, CoreId, Ordered, Place, Who};
use piece_check::Piece;
use run_view::{Change, CoreView, Followed, Lawful, ProcessState, ProcessView};
use std::alloc::{AllocError, Global};

/// A stretch of a run as a picture.
#[derive(Drop)]
pub struct Picture {
    pub(crate) alloc: Global,
    // How many ticks a major frame has.
    frame: u64,
    pub(crate) columns: Vec<Column>,
    // The places that the explanation of the answer names.
    named: Vec<u64>,
    // In the order in which they are shown.
    pub(crate) lanes: Vec<Lane>,
    pub(crate) arrows: Vec<Arrow>,
    pub(crate) cores: Vec<CoreView>,
    // The cores before the first record.
    first_cores: Vec<CoreView>,
    pub(crate) processes: Vec<ProcessNow>,
}

// A process as it is now, with its name in quotes after a space; the name is empty if it has none.
#[derive(Drop)]
pub(crate) struct ProcessNow {
    pub(crate) who: Who,
    pub(crate) name: String,
    pub(crate) view: ProcessView,
    pub(crate) hold: Hold,
}

/// A record that is added to a picture.
#[derive(Clone, Copy)]
pub struct Added<'a> {
    pub ordered: &'a Ordered,
    pub source: Source<'a>,
    pub status: Status,
}

impl Picture {
    /// A picture without a record, of a module whose major frame has this many ticks.
    pub fn new(alloc: Global, frame: u64) -> Picture {
        Picture {
            alloc,
            frame,
            columns: Vec::new(alloc),
            named: Vec::new(alloc),
            lanes: Vec::new(alloc),
            arrows: Vec::new(alloc),
            cores: Vec::new(alloc),
            first_cores: Vec::new(alloc),
            processes: Vec::new(alloc),
        }
    }

    /// Shows what the pieces hold before the first record: all of it is among the changes.
    pub fn begin(&mut self, pieces: &[Piece], changes: &[Change]) -> Result<(), AllocError> {
        let mut hover = String::new(self.alloc);
        self.apply(pieces, changes, 0, &mut hover)?;
        for lane in self.lanes.iter_mut() {
            lane.concerned.clear();
        }
        for core in self.cores.iter() {
            self.first_cores.push(*core)?;
        }
        Ok(())
    }

    /// Adds a record that is accepted, with what it changed, and the message that it receives.
    pub fn accept(
        &mut self,
        pieces: &[Piece],
        added: &Added<'_>,
        changes: &[Change],
        followed: &Followed,
    ) -> Result<(), AllocError> {
        let column = self.columns.len();
        let mut hover = String::new(self.alloc);
        self.apply(pieces, changes, column, &mut hover)?;
        self.mark_record(column, added.ordered)?;
        self.add_wakes(column, added.ordered)?;
        if let Some(received) = &followed.received {
            self.add_message(column, added.ordered, &received.sent)?;
        }
        self.add_column(added, hover)
    }

    /// Adds the record that is rejected, the cause with its name, and what would have been lawful. No state is shown from there on.
    pub fn reject(
        &mut self,
        added: &Added<'_>,
        cause: Cause,
        name: &str,
        lawful: &[Lawful],
    ) -> Result<(), AllocError> {
        let column = self.columns.len();
        self.end_bars(column);
        let actor = actor_of(added.ordered);
        let text = format!(in self.alloc; "rejected: {name}")?;
        self.add_mark(actor, column, MarkKind::Rejected, text)?;
        if let Body::Disp(Some(who)) = &added.ordered.rec.body {
            let text = String::from_str(self.alloc, "is dispatched")?;
            self.add_mark(LaneKey::Process(*who), column, MarkKind::Unlawful, text)?;
        }
        for one in lawful {
            self.add_lawful(column, one)?;
        }
        self.add_column(added, String::new(self.alloc))?;
        if cause == Cause::Skew {
            let behind = furthest_behind(self.cores.as_slice());
            self.note_core(behind);
        }
        Ok(())
    }

    /// Adds a record after the last one whose states are shown.
    pub fn follow(&mut self, added: &Added<'_>) -> Result<(), AllocError> {
        let column = self.columns.len();
        self.end_bars(column);
        self.add_column(added, String::new(self.alloc))
    }

    /// The explanation of the answer names these places, and no others.
    pub fn mark_named(&mut self, places: &[u64]) -> Result<(), AllocError>
        ensures count { record_count self.new ≡ record_count self.old }
        ensures named { OnOk result (named_places self.new ≡ places.now) }
    {
        self.named = places.to_vec(self.alloc)?;
        Ok(())
    }

    /// Whether the explanation of the answer names this place.
    pub fn is_named(&self, place: Place) -> bool
        ensures { result ≡ list_any (λ named. nat_eq named place) (named_places self.now) }
    {
        self.named.contains(&place.number())
    }

    /// How many records there are.
    pub fn len(&self) -> usize
        ensures { result ≡ record_count self.now }
    {
        self.columns.len()
    }

    /// The records in their order.
    pub fn columns(&self) -> &[Column]
        ensures { length result.now ≡ record_count self.now }
    {
        self.columns.as_slice()
    }

    /// The lanes, in the order in which they are shown.
    pub fn lanes(&self) -> &[Lane] {
        self.lanes.as_slice()
    }

    /// The arrows between lanes.
    pub fn arrows(&self) -> &[Arrow] {
        self.arrows.as_slice()
    }

    /// The cores before the first record.
    pub fn first_cores(&self) -> &[CoreView] {
        self.first_cores.as_slice()
    }

    /// How many ticks a major frame has.
    pub fn frame(&self) -> u64 {
        self.frame
    }

    /// Where its memory comes from.
    pub fn alloc(&self) -> Global {
        self.alloc
    }

    // The open bars end before this column.
    fn end_bars(&mut self, column: usize) {
        for lane in self.lanes.iter_mut() {
            lane.windows.end(column);
            lane.bars.end(column);
        }
    }

    // Notes which lanes this record touches: those that act or are affected in its column, those of what it names, and those of what is
    // on its core.
    fn note_touched(&mut self, column: usize, ordered: &Ordered) {
        let core = match self.cores.iter().find(|view| view.core == ordered.core) {
            Some(view) => Some(*view),
            None => None,
        };
        for lane in self.lanes.iter_mut() {
            lane.is_touched = lane.is_concerned(column, column.saturating_add(1))
                || names(ordered, &lane.key)
                || is_at_core(&core, &lane.key);
        }
    }

    // Notes that this record touches the core of the process that makes it or gets a core, and the core of the error handler or the
    // initialising process of its partition.
    fn note_cores(&mut self, ordered: &Ordered) {
        let own = self.core_of(process_at(&ordered.rec.body));
        self.note_core(own);
        let handling = self.core_of_handling(&ordered.core);
        self.note_core(handling);
    }

    // Notes that a record touches the lane of this core too.
    fn note_core(&mut self, core: Option<CoreId>) {
        let Some(core) = core else {
            return;
        };
        for lane in self.lanes.iter_mut() {
            if lane.key == LaneKey::Core(core) {
                lane.is_touched = true;
            }
        }
    }

    // The core on which a process runs, if the process is known.
    fn core_of(&self, who: Option<Who>) -> Option<CoreId> {
        let who = who?;
        match self.processes.iter().find(|process| process.who == who) {
            Some(process) => Some(process.view.affinity),
            None => None,
        }
    }

    // The core of process 0 of the partition in whose window a core is, while it is ready: the partition's other cores may wait for it.
    fn core_of_handling(&self, core: &CoreId) -> Option<CoreId> {
        let part = self.cores.iter().find(|view| view.core == *core)?.window?;
        let handling = self.processes.iter().find(|process| process.who.part == part
            && process.who.proc.number() == 0)?;
        match handling.view.state {
            ProcessState::Ready => Some(handling.view.affinity),
            ProcessState::Dormant
            | ProcessState::Waiting(_)
            | ProcessState::Suspended(_)
            | ProcessState::Faulted(_) => None,
        }
    }

    fn add_column(&mut self, added: &Added<'_>, changes: String) -> Result<(), AllocError> {
        let ordered = added.ordered;
        let time = match added.status {
            Status::Accepted | Status::Broken => self.time_of(&ordered.core),
            Status::Rejected | Status::After | Status::Beyond => None,
        };
        let column = self.columns.len();
        if added.status.is_judged() {
            self.lane(LaneKey::Core(ordered.core), "")?
                .concerned
                .push(column)?;
        }
        if added.status.is_fault() {
            self.note_touched(column, ordered);
            self.note_cores(ordered);
        }
        let label = label_of(self.alloc, ordered, time)?;
        let location = location_text(self.alloc, &added.source)?;
        let source = source_text(self.alloc, &added.source)?;
        self.columns.push(Column {
            place: ordered.pos,
            core: ordered.core,
            time,
            status: added.status,
            label,
            location,
            source,
            words: words_of(self.alloc, ordered)?,
            changes,
        })?;
        Ok(())
    }

    fn time_of(&self, core: &CoreId) -> Option<u64> {
        match self.cores.iter().find(|view| view.core == *core) {
            Some(view) => Some(view.time),
            None => None,
        }
    }

    // The lane of this key, which is added if there is none; the name is added to its label.
    pub(crate) fn lane(&mut self, key: LaneKey, name: &str) -> Result<&mut Lane, AllocError> {
        let index = self.lane_index(&key, name)?;
        Ok(&mut self.lanes[index])
    }

    // The index of that lane.
    fn lane_index(&mut self, key: &LaneKey, name: &str) -> Result<usize, AllocError>
        ensures { IfOk result (λ index. index < length self.new.lanes.items) }
    {
        let rank = key.rank();
        let before = self
            .lanes
            .iter()
            .filter(|lane| lane.key.rank() < rank)
            .count();
        let index = before.min(self.lanes.len());
        if let Some(lane) = self.lanes.get(index) {
            if lane.key == *key {
                return Ok(index);
            }
        }
        let label = label_of_lane(self.alloc, key, name)?;
        self.lanes
            .insert(index, Lane::new(self.alloc, *key, label))?;
        Ok(index)
    }
}
