// When the events of a record are.

ghost use Rattle.std.specs.Prelude.{◌≡◌, IfOk, max};

use crate::axis::Axis;
use crate::event::{Moment, Track};
use std::alloc::{AllocError, Global};
use std::collections::HashMap;

/// When the events of a record are: at its place, and at the time of its core.
///
/// The clocks of two cores may differ, and a record of one of them may change a track of the other. So an event is later than the time of its
/// core if that is before the last event of its track, or before what it follows from: a flow never leads back.
#[derive(Drop)]
pub struct Stamps {
    axis: Axis,
    place: u64,
    time: u64,
    latest: u64,
    // The time of the last event of each track. It is kept on the axis of times alone: on the other one, places never decrease.
    last: HashMap<Track, u64>,
}

impl Stamps {
    ghost use Rattle.view_trace.specs.Stamps.{last_on, time_on};

    /// No event yet. Takes no memory.
    pub fn new(alloc: Global, axis: Axis) -> Stamps {
        Stamps {
            axis,
            place: 0,
            time: 0,
            latest: 0,
            last: HashMap::new(alloc),
        }
    }

    /// The events that follow are those of a record at this place, after which its core has this time.
    pub fn go_to(&mut self, place: u64, time: u64)
        ensures place { self.new.place ≡ place }
        ensures time { self.new.time ≡ time }
    {
        self.place = place;
        self.time = time;
    }

    /// The events that follow are after all others.
    pub fn go_on(&mut self) {
        self.place = self.place.saturating_add(1);
        self.time = self.latest.saturating_add(1);
    }

    /// The events of the record that follow are not before this time.
    pub fn wait_for(&mut self, time: u64)
        ensures place { self.new.place ≡ self.old.place }
        ensures time { self.new.time ≡ max self.old.time time }
    {
        self.time = self.time.max(time);
    }

    /// When an event on this track is: at the place of the record, and not before the time of its core. On the axis of times it is not
    /// before the last event there either, and it is then the last one.
    ///
    /// `AllocError` if memory is refused.
    pub fn moment_on(&mut self, track: Track) -> Result<Moment, AllocError>
        ensures place { IfOk result (λ moment. moment.place ≡ self.old.place) }
        ensures time { IfOk result (λ moment. moment.time ≡ time_on self.old track) }
        ensures last { IfOk result (λ moment. self.old.axis ≡ Axis.Time → last_on self.new track ≡ moment.time) }
    {
        let time = self.time_for(track)?;
        self.latest = self.latest.max(time);
        Ok(Moment {
            place: self.place,
            time,
        })
    }

    // The time of an event on this track. On the axis of times it is then the last one there.
    fn time_for(&mut self, track: Track) -> Result<u64, AllocError>
        ensures time { IfOk result (λ time. time ≡ time_on self.old track) }
        ensures last { IfOk result (λ time. self.old.axis ≡ Axis.Time → last_on self.new track ≡ time) }
        ensures place { self.new.place ≡ self.old.place }
    {
        match self.axis {
            Axis::Place => Ok(self.time),
            Axis::Time => self.time_after_last(track),
        }
    }

    // The time of an event on this track, which is then the last one there.
    fn time_after_last(&mut self, track: Track) -> Result<u64, AllocError>
        ensures time { IfOk result (λ time. time ≡ max self.old.time (last_on self.old track)) }
        ensures last { IfOk result (λ time. last_on self.new track ≡ time) }
        ensures place { self.new.place ≡ self.old.place }
    {
        let last = self.last_time(track);
        let time = self.time.max(last);
        self.last.insert(track, time)?;
        Ok(time)
    }

    // The time of the last event on this track, or 0 before the first.
    fn last_time(&self, track: Track) -> u64
        ensures { result ≡ last_on self.now track }
    {
        match self.last.get(&track) {
            Some(last) => *last,
            None => 0,
        }
    }
}
