// The recordings of all cores.

ghost use Rattle.std.specs.Prelude.{◌≡◌, ◌≤◌, ◌<◌, ◌↔◌, [], All, Err, IfOk, None, Ok, false, true, length, map, option_map, slice_set};
ghost use Rattle.std.specs.Vec.{vec_len, vec_capacity};
ghost use Rattle.apex_types.specs.declared.limits.TheConstants.{GREATEST_DEPTH};
ghost use Rattle.record_read.specs.Row.{records_of};
ghost use Rattle.core_intake.specs.Answered.{Answer, IsHonest, IsNextAnswerOf, PutsIn, after, has_ended, answered, answered_at};

use crate::fault::IntakeFault;
use crate::lane::Lane;
use apex_types::{CoreId, Ordered, Place, Record};
use csv_rows::TextSource;
use record_read::RowFault;
use std::alloc::Global;
use std::marker::Model;
use std::sync::Wait;
use std::thread::Threads;

/// The recordings of all cores, each read by a thread of its own. A contract sees the answers for each core, in order.
///
/// It can be given up only by `close`, so every thread is joined, and what the threads answered is known in the end.
pub struct Intake<R: TextSource> {
    lanes: Vec<Lane<R>>,
}

impl<R: TextSource> Model for Intake<R> {
    ghost use Rattle.std.specs.Prelude.{List};
    ghost use Rattle.core_intake.specs.Answered.{Answered};

    ghost Value = { List Answered };

    ghost view = { λ intake. intake.lanes.items };
}

impl<R: TextSource + Drop + Send + 'static> Intake<R> {
    /// Starts a thread for each reader, in the order of the cores. At most `depth` records of a core wait in its channel, in batches
    /// of `depth` and at most 256 records. There is one more batch at each end of the channel.
    ///
    /// NoDepth if the depth is 0. Memory if memory or a thread was refused: the threads made so far are then stopped and joined, and
    /// the readers are given up.
    pub fn open<T: Threads + Wait + Copy + Send + 'static>(
        rt: T,
        alloc: Global,
        readers: Vec<R>,
        depth: usize,
    ) -> Result<Intake<R>, IntakeFault>
        requires most { depth ≤ GREATEST_DEPTH }
        ensures open { IfOk result (λ intake. intake ≡ map (λ reader. answered (option_map records_of (R.remaining reader)) []) readers.items) }
        ensures no_depth { result ≡ Err IntakeFault.NoDepth ↔ depth ≡ 0 }
    {
        if depth == 0 {
            return Err(IntakeFault::NoDepth);
        }
        let Ok(mut lanes) = Vec::with_capacity(alloc, readers.len()) else {
            return Err(IntakeFault::Memory);
        };
        for reader in readers {
            let Ok(lane) = Lane::open(rt, alloc, reader, depth) else {
                close_all(&rt, lanes);
                return Err(IntakeFault::Memory);
            };
            lanes.push_reserved(lane);
        }
        Ok(Intake { lanes })
    }
}

impl<R: TextSource> Intake<R> {
    /// The number of cores.
    pub fn count(&self) -> usize
        ensures { result ≡ length self.now }
    {
        self.lanes.len()
    }

    /// The next record of a core, or None after the last. Waits for the core's thread. After a fault, as after the end, every call
    /// returns None. Memory also if the thread was refused room for a batch.
    pub fn next_of<T: Wait>(&mut self, rt: &T, core: usize) -> Result<Option<Record>, RowFault>
        requires core { core < length self.old }
        ensures gives { has_ended (answered_at self.old core).given ≡ false → self.new ≡ slice_set self.old core (after (answered_at self.old core) result) }
        ensures ended { has_ended (answered_at self.old core).given ≡ true → result ≡ Ok None }
        ensures stays { has_ended (answered_at self.old core).given ≡ true → self.new ≡ self.old }
        ensures count { length self.new ≡ length self.old }
    {
        self.lanes[core].next(rt)
    }

    /// The next record of a core, as `next_of` gives it, but at the end of a list, which has room for it: as the record of this core at this
    /// place. Answers whether there was a record.
    pub fn next_into<T: Wait>(
        &mut self,
        rt: &T,
        core: CoreId,
        place: Place,
        records: &mut Vec<Ordered>,
    ) -> Result<bool, RowFault>
        requires core { core < length self.old }
        requires room { vec_len records.old < vec_capacity records.old }
        ensures puts { (answer : Answer) × PutsIn core place answer records.old.items result records.new.items × IsNextAnswerOf self.old core answer self.new }
        ensures count { length self.new ≡ length self.old }
    {
        self.lanes[core.number() as usize].next_into(rt, core, place, records)
    }

    /// Stops the threads and joins them. A thread ends once its present read returns.
    pub fn close<T: Threads + Wait>(self, rt: &T)
        ensures honest { All (IsHonest R.can_fail) self }
    {
        let Intake { lanes } = self;
        close_all(rt, lanes);
    }
}

// Stops the threads and joins them.
fn close_all<R: TextSource, T: Threads + Wait>(rt: &T, mut lanes: Vec<Lane<R>>)
    ensures { All (IsHonest R.can_fail) lanes.items }
{
    'lanes: while let Some(lane) = lanes.pop() {
        lane.close(rt);
    }
    lanes.destroy_empty();
}
