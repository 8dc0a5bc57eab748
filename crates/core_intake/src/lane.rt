// A recording that a thread of its own reads.

ghost use Rattle.std.specs.Prelude.{◌≡◌, ◌≢◌, ◌<◌, [], IfOk, List, true, false, option_map, None, Ok};
ghost use Rattle.std.specs.Vec.{vec_len, vec_capacity};
ghost use Rattle.crossbeam_channel.specs.Claims.{view, IsSeatAt};
ghost use Rattle.crossbeam_channel.specs.Ends.{sends_on, receives_on};
ghost use Rattle.record_read.specs.Row.{records_of};
ghost use Rattle.core_intake.specs.Answered.{Answer, answered, after, has_ended, is_last, IsHonest, IsNextAnswer, PutsIn, ends_after};
ghost use Rattle.core_intake.specs.Batches.{WasFed, all_answers, AreAtHand};
ghost use Rattle.core_intake.specs.Relay.{log};

use crate::channel::{Channel, channel_of};
use crate::feed::{Fed, FedBy, feed};
use crate::hand::Hand;
use crate::room::{Used, give_back};
use crate::rule::{Receiver, Receives, Roles, Side, Total};
use apex_types::{CoreId, Ordered, Place, Record};
use csv_rows::TextSource;
use record_read::RowFault;
use std::alloc::{AllocError, Global};
use std::marker::Model;
use std::snapshot::Snapshot;
use std::sync::atomic::{AtomicBool, Ordering};
use std::sync::{Arc, Wait};
use std::thread::{PromisedHandle, Threads};
use std::{mem, thread};

/// A reader in a thread of its own, the channel that brings its records, what is left of the last batch, and the channel that takes the
/// rooms of batches back. It can be given up only by `close`.
pub struct Lane<R: TextSource> {
    receiver: Receiver,
    side: Side,
    hand: Hand,
    used: Used,
    ended: bool,
    stop: Arc<AtomicBool>,
    reader: PromisedHandle<Fed, FedBy<R>>,
}

impl<R: TextSource> Model for Lane<R> {
    ghost use Rattle.std.specs.Prelude.{◌≡◌, ◌++◌, [], true, false, option_map};
    ghost use Rattle.crossbeam_channel.specs.Claims.{IsSeatAt};
    ghost use Rattle.crossbeam_channel.specs.Ends.{sends_on, receives_on};
    ghost use Rattle.record_read.specs.Row.{records_of};
    ghost use Rattle.core_intake.specs.Answered.{Answered, answered, has_ended};
    ghost use Rattle.core_intake.specs.Batches.{all_answers, before, log_of};
    ghost use Rattle.core_intake.specs.Relay.{log};

    ghost Value = { Answered };

    ghost view = { λ lane. answered (option_map records_of (R.remaining lane.reader.promise.reader.value)) (before lane.hand (all_answers (log_of lane.side).received)) };

    ghost invariant = { λ lane. (receives_on lane.receiver ≡ sends_on lane.reader.promise.sender.value)
        × IsSeatAt (receives_on lane.receiver) lane.side
        × (log_of lane.side ≡ log false true [] (log_of lane.side).received)
        × (before lane.hand (all_answers (log_of lane.side).received) ++ lane.hand ≡ all_answers (log_of lane.side).received)
        × (lane.ended ≡ has_ended (before lane.hand (all_answers (log_of lane.side).received))) };
}

impl<R: TextSource + Drop + Send + 'static> Lane<R> {
    /// Starts the reader's thread, which sends through a channel of this depth. Memory is the only error.
    pub fn open<T: Threads + Wait + Copy + Send + 'static>(
        rt: T,
        alloc: Global,
        reader: R,
        depth: usize,
    ) -> Result<Lane<R>, AllocError>
        requires { 0 < depth }
        ensures { IfOk result (λ lane. lane ≡ answered (option_map records_of (R.remaining reader)) []) }
    {
        let stop = Arc::new(alloc, AtomicBool::new(false))?;
        let theirs = Arc::try_clone(&stop)?;
        let Channel {
            sender,
            receiver,
            side: mut sending,
            cut,
        } = channel_of(alloc, depth)?;
        let length = cut.length;
        let side = sender.another::<Roles>(&mut sending);
        let (used, rooms) = crossbeam_channel::bounded(alloc, cut.slots)?;
        let promise = FedBy {
            sender: Snapshot::of(&sender),
            reader: Snapshot::of(&reader),
        };
        let reader = thread::spawn_with(
            &rt,
            promise,
            move || -> Fed
                requires { IsSeatAt (sends_on sender) sending × (view sending ≡ log true false [] []) }
                ensures { WasFed R.can_fail sender (option_map records_of (R.remaining reader)) result.sender result.side }
            { feed(&rt, alloc, reader, length, &theirs, &rooms, sender, sending) },
        )?;
        Ok(Lane {
            receiver,
            side,
            hand: Hand::empty(alloc),
            used,
            ended: false,
            stop,
            reader,
        })
    }
}

impl<R: TextSource> Lane<R> {
    /// The next answer. After an end or a fault it is the end.
    pub fn next<T: Wait>(&mut self, rt: &T) -> Result<Option<Record>, RowFault>
        ensures ended { has_ended self.old.given ≡ true → result ≡ Ok None }
        ensures stays { has_ended self.old.given ≡ true → self.new ≡ self.old }
        ensures gives { has_ended self.old.given ≡ false → self.new ≡ after self.old result }
    {
        if self.ended {
            return Ok(None);
        }
        receive(
            rt,
            &self.receiver,
            &mut self.side,
            &mut self.hand,
            &self.used,
        );
        let answer = self.hand.next();
        self.ended = ends(&answer);
        answer
    }

    /// The next answer, as `next` gives it, but a record goes to the end of a list, which has room for it: as the record of this core at this
    /// place. Whether there was a record is the result.
    pub fn next_into<T: Wait>(
        &mut self,
        rt: &T,
        core: CoreId,
        place: Place,
        records: &mut Vec<Ordered>,
    ) -> Result<bool, RowFault>
        requires room { vec_len records.old < vec_capacity records.old }
        ensures { (answer : Answer) × PutsIn core place answer records.old.items result records.new.items × IsNextAnswer self.old answer self.new }
    {
        if self.ended {
            return Ok(false);
        }
        receive(
            rt,
            &self.receiver,
            &mut self.side,
            &mut self.hand,
            &self.used,
        );
        let put = self.hand.next_into(core, place, records);
        self.ended = ends_with(&put);
        put
    }

    /// Stops the thread and joins it.
    pub fn close<T: Threads + Wait>(self, rt: &T)
        ensures honest { IsHonest R.can_fail self }
    {
        let Lane {
            receiver,
            side,
            hand: _,
            used: _,
            ended: _,
            stop,
            reader,
        } = self;
        stop.store(true, Ordering::SeqCst);
        // A thread that waits for room finds that nobody receives any more.
        drop(receiver);
        let Fed {
            sender,
            side: mut theirs,
        } = reader.join(rt);
        sender.absorb::<Roles>(&mut theirs, side);
        sender.learn_as::<Total>(&mut theirs);
    }
}

// Whether an answer is the last: the end, or a fault.
fn ends(answer: &Result<Option<Record>, RowFault>) -> bool
    ensures { result ≡ is_last answer.now }
{
    !matches!(answer, Ok(Some(_)))
}

// The same of an answer that was put into a list, by the result.
fn ends_with(put: &Result<bool, RowFault>) -> bool
    ensures { result ≡ ends_after put.now }
{
    !matches!(put, Ok(true))
}

// Receives batches until an answer is at hand. An empty channel says nothing of the recording. The room of each batch that has no answer
// left goes back.
fn receive<T: Wait>(rt: &T, receiver: &Receiver, side: &mut Side, hand: &mut Hand, used: &Used)
    requires seat { IsSeatAt (receives_on receiver.now) side.old }
    requires receives { (view side.old).receives ≡ true }
    ensures seat { IsSeatAt (receives_on receiver.now) side.new }
    ensures log { view side.new ≡ log (view side.old).sends (view side.old).receives (view side.old).sent (view side.new).received }
    ensures kept { AreAtHand (view side.old).received hand.old (view side.new).received hand.new }
    ensures some { hand.new ≢ [] }
{
    for _ in rt.forever() {
        if hand.has_next() {
            return;
        }
        if let Ok(batch) = receiver.recv_as::<Receives, T>(rt, side) {
            let last = mem::replace(hand, Hand::of(batch));
            give_back(rt, used, last.into_room());
        }
    }
}
