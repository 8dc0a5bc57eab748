// What a reader's thread does.

ghost use Rattle.std.specs.Prelude.{◌≡◌, true, false, [], ◌∷◌, ◌++◌, option_map};
ghost use Rattle.crossbeam_channel.specs.Claims.{view, IsSeatAt};
ghost use Rattle.crossbeam_channel.specs.Ends.{sends_on};
ghost use Rattle.record_read.specs.Row.{records_of};
ghost use Rattle.core_intake.specs.Relay.{log};
ghost use Rattle.core_intake.specs.Answered.{AreAnswers};
ghost use Rattle.core_intake.specs.Batches.{WasFed, all_answers};

use crate::batch::Batch;
use crate::room::Rooms;
use crate::rule::{Sender, Sends, Side};
use crate::stoppable::Stoppable;
use csv_rows::TextSource;
use record_read::RowSource;
use std::alloc::Global;
use std::snapshot::Snapshot;
use std::sync::Wait;
use std::sync::atomic::AtomicBool;
use std::thread::Promise;

/// What a reader's thread returns: its end of the channel, with what was sent.
#[derive(Drop)]
pub struct Fed {
    pub sender: Sender,
    pub side: Side,
}

/// A reader whose recording a thread sends, and the channel for it.
#[derive(Drop)]
pub struct FedBy<R: TextSource> {
    pub sender: Snapshot<Sender>,
    pub reader: Snapshot<R>,
}

impl<R: TextSource> Promise<Fed> for FedBy<R> {
    ghost use Rattle.std.specs.Prelude.{option_map};
    ghost use Rattle.record_read.specs.Row.{records_of};
    ghost use Rattle.core_intake.specs.Batches.{WasFed};

    ghost kept_by = { λ promise fed. WasFed R.can_fail promise.sender.value (option_map records_of (R.remaining promise.reader.value)) fed.sender fed.side };
}

/// Sends the recording batch by batch, until it has ended, the flag says to stop or nobody receives any more. Once the flag says to
/// stop, each read fails; that failure is not sent.
pub fn feed<R: TextSource + Drop, T: Wait>(
    rt: &T,
    alloc: Global,
    reader: R,
    length: usize,
    stop: &AtomicBool,
    rooms: &Rooms,
    sender: Sender,
    mut side: Side,
) -> Fed
    requires seat { IsSeatAt (sends_on sender) side }
    requires fresh { view side ≡ log true false [] [] }
    ensures { WasFed R.can_fail sender (option_map records_of (R.remaining reader)) result.sender result.side }
{
    let mut source = RowSource::new(alloc, Stoppable::new(reader, stop));
    send_all(
        rt,
        alloc,
        &mut source,
        length,
        stop,
        rooms,
        &sender,
        &mut side,
    );
    Fed { sender, side }
}

// Sends the rest of the source. If the flag says to stop, the thread ends and sends no more: only the `close` that consumes the lane
// sets the flag, so nobody waits for a batch any more.
fn send_all<R: TextSource, T: Wait>(
    rt: &T,
    alloc: Global,
    source: &mut RowSource<Stoppable<'_, R>>,
    length: usize,
    stop: &AtomicBool,
    rooms: &Rooms,
    sender: &Sender,
    side: &mut Side,
)
    requires going { source.old.stopped ≡ false }
    requires seat { IsSeatAt (sends_on sender.now) side.old }
    requires fresh { view side.old ≡ log true false [] [] }
    ensures seat { IsSeatAt (sends_on sender.now) side.new }
    ensures sender { view side.new ≡ log true false (view side.new).sent [] }
    ensures sent { AreAnswers R.can_fail source.old.left (all_answers (view side.new).sent) }
{
    for _ in rt.forever() {
        let Some(batch) = Batch::read(rt, alloc, source, length, stop, rooms) else {
            return;
        };
        let is_last = batch.end.is_some();
        if !send(rt, sender, side, batch) {
            return;
        }
        if is_last {
            return;
        }
    }
}

// Sends the batch once the channel has room, or finds that nobody receives any more.
fn send<T: Wait>(rt: &T, sender: &Sender, side: &mut Side, batch: Batch) -> bool
    requires seat { IsSeatAt (sends_on sender.now) side.old }
    requires sends { (view side.old).sends ≡ true }
    ensures seat { IsSeatAt (sends_on sender.now) side.new }
    ensures sent { result ≡ true → view side.new ≡ log (view side.old).sends (view side.old).receives ((view side.old).sent ++ batch ∷ []) (view side.old).received }
    ensures kept { result ≡ false → view side.new ≡ view side.old }
{
    sender.send_as::<Sends, T>(rt, side, batch).is_ok()
}
