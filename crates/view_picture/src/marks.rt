// The marks and arrows of a record in a picture.

use crate::arrow::{Arrow, ArrowEnd, ArrowKind};
use crate::labels::{ShortOccupant, words_of};
use crate::lane::{Mark, MarkKind};
use crate::lane_key::LaneKey;
use crate::picture::Picture;
use crate::process_bars::{mode_saying, restart_saying};
use crate::saying::Saying;
use apex_machine::Mode;
use apex_types::{Body, Ordered, PartId, Request};
use partition_state::is_restart;
use run_view::{Lawful, Sent, ThingKey};
use std::alloc::AllocError;
use wording::out_name;

impl Picture {
    // Marks what a record does, in the lane of the core or the process that makes it; an arrival and a departure in the lane of their channel,
    // and an error in that of its process.
    pub(crate) fn mark_record(
        &mut self,
        column: usize,
        ordered: &Ordered,
    ) -> Result<(), AllocError> {
        let words = words_of(self.alloc, ordered)?;
        match &ordered.rec.body {
            Body::Tick(_) => {
                self.add_mark(LaneKey::Core(ordered.core), column, MarkKind::Tick, words)
            }
            Body::Disp(_) => {
                self.add_mark(
                    LaneKey::Core(ordered.core),
                    column,
                    MarkKind::Dispatch,
                    words,
                )
            }
            Body::Ret(ret) => {
                self.add_mark(LaneKey::Process(ret.who), column, MarkKind::Return, words)
            }
            Body::Arrive(_) | Body::Depart(_) => {
                self.add_mark(actor_of(ordered), column, MarkKind::Crossing, words)
            }
            Body::Error(report) => {
                self.add_mark(actor_of(ordered), column, MarkKind::Error, words)?;
                if !report.restarts {
                    return Ok(());
                }
                let saying = restart_saying(self.alloc, report.who.part)?;
                self.mark_restart(column, &report.who.part, saying)
            }
            Body::Call(call) => {
                self.add_mark(LaneKey::Process(call.who), column, MarkKind::Call, words)?;
                if !is_restart(call) {
                    return Ok(());
                }
                let saying = match &call.request {
                    Request::SetPartitionMode(mode) => {
                        mode_saying(self.alloc, call.who.part, restart_mode(*mode), true)?
                    }
                    _ => restart_saying(self.alloc, call.who.part)?,
                };
                self.mark_restart(column, &call.who.part, saying)
            }
        }
    }

    // Marks a restart of a partition, of which this is said.
    fn mark_restart(
        &mut self,
        column: usize,
        part: &PartId,
        saying: Saying,
    ) -> Result<(), AllocError> {
        let text = String::from_str(self.alloc, saying.text.as_str())?;
        let lane = self.lane(LaneKey::Partition(*part), "")?;
        lane.bars.end(column);
        lane.bars.say(column, saying)?;
        self.add_mark(LaneKey::Partition(*part), column, MarkKind::Restart, text)
    }

    pub(crate) fn add_mark(
        &mut self,
        key: LaneKey,
        column: usize,
        kind: MarkKind,
        text: String,
    ) -> Result<(), AllocError> {
        let lane = self.lane(key, "")?;
        lane.concerned.push(column)?;
        lane.marks.push(Mark { column, kind, text })?;
        Ok(())
    }

    // Adds an arrow to each process whose wait a record ends.
    pub(crate) fn add_wakes(&mut self, column: usize, ordered: &Ordered) -> Result<(), AllocError> {
        let woken = match &ordered.rec.body {
            Body::Call(call) => call.claim.woken.as_slice(),
            Body::Tick(woken) => woken.as_slice(),
            Body::Arrive(crossing) | Body::Depart(crossing) => crossing.woken.as_slice(),
            Body::Ret(_) | Body::Disp(_) | Body::Error(_) => &[],
        };
        let place = ordered.pos.number();
        for who in woken {
            self.lane(LaneKey::Process(*who), "")?
                .concerned
                .push(column)?;
            self.arrows.push(Arrow {
                kind: ArrowKind::Wake,
                from: ArrowEnd {
                    column: Some(column),
                    place,
                    lane: actor_of(ordered),
                },
                to: ArrowEnd {
                    column: Some(column),
                    place,
                    lane: LaneKey::Process(*who),
                },
            })?;
        }
        Ok(())
    }

    // Adds an arrow from the record that sent a message to the one that receives it.
    pub(crate) fn add_message(
        &mut self,
        column: usize,
        ordered: &Ordered,
        sent: &Sent,
    ) -> Result<(), AllocError> {
        if sent.place == ordered.pos {
            return Ok(());
        }
        let from = self
            .columns
            .iter()
            .position(|other| other.place == sent.place);
        self.arrows.push(Arrow {
            kind: ArrowKind::Message,
            from: ArrowEnd {
                column: from,
                place: sent.place.number(),
                lane: LaneKey::Process(sent.who),
            },
            to: ArrowEnd {
                column: Some(column),
                place: ordered.pos.number(),
                lane: actor_of(ordered),
            },
        })?;
        Ok(())
    }

    // Marks what would have been lawful.
    pub(crate) fn add_lawful(&mut self, column: usize, lawful: &Lawful) -> Result<(), AllocError> {
        let alloc = self.alloc;
        match lawful {
            Lawful::Runs(core, choice) => {
                if let Some(who) = choice {
                    let text = String::from_str(alloc, "should run")?;
                    self.add_mark(LaneKey::Process(*who), column, MarkKind::Lawful, text)?;
                }
                let text = format!(in alloc; "should run: {}", ShortOccupant(*choice))?;
                self.add_mark(LaneKey::Core(*core), column, MarkKind::Lawful, text)
            }
            Lawful::Wakes(who) => {
                let text = String::from_str(alloc, "its wait should end")?;
                self.add_mark(LaneKey::Process(*who), column, MarkKind::Lawful, text)
            }
            Lawful::Sleeps(who) => {
                let text = String::from_str(alloc, "named, still waits")?;
                self.add_mark(LaneKey::Process(*who), column, MarkKind::Unlawful, text)
            }
            Lawful::HasPriority(who, priority) => {
                let text = format!(in alloc; "has priority {priority}")?;
                self.add_mark(LaneKey::Process(*who), column, MarkKind::Lawful, text)
            }
            Lawful::Gets(who, out) => {
                let text = format!(in alloc; "should get {}", out_name(*out))?;
                self.add_mark(LaneKey::Process(*who), column, MarkKind::Lawful, text)
            }
            Lawful::Misses(who, deadline) => {
                let text = format!(in alloc; "missed deadline {deadline}")?;
                self.add_mark(LaneKey::Process(*who), column, MarkKind::Unlawful, text)
            }
        }
    }
}

// The lane of the process or the core that makes a record; of an arrival and a departure, that of their channel, and of an error, that of
// its process.
pub(crate) fn actor_of(ordered: &Ordered) -> LaneKey {
    match &ordered.rec.body {
        Body::Call(call) => LaneKey::Process(call.who),
        Body::Ret(ret) => LaneKey::Process(ret.who),
        Body::Error(report) => LaneKey::Process(report.who),
        Body::Arrive(crossing) | Body::Depart(crossing) => {
            LaneKey::Thing(ThingKey::Channel(crossing.chan))
        }
        Body::Disp(_) | Body::Tick(_) => LaneKey::Core(ordered.core),
    }
}

// The mode of this number in which SET_PARTITION_MODE restarts a partition.
fn restart_mode(number: i64) -> Mode {
    match number {
        0 => Mode::Idle,
        1 => Mode::ColdStart,
        _ => Mode::WarmStart,
    }
}
