// What one send passes on.

ghost use Rattle.std.specs.Prelude.{◌≡◌, ◌≤◌, IfSome, None, false, is_err};
ghost use Rattle.std.specs.VecDeque.{deque_len};
ghost use Rattle.csv_rows.specs.Source.{Gives};
ghost use Rattle.record_read.specs.Steps.{IsOutside};
ghost use Rattle.core_intake.specs.Batches.{IsRead};

use crate::room::{Rooms, room_for};
use crate::stoppable::Stoppable;
use apex_types::Record;
use csv_rows::TextSource;
use record_read::{RowFault, RowSource};
use std::alloc::Global;
use std::collections::VecDeque;
use std::sync::Wait;
use std::sync::atomic::{AtomicBool, Ordering};

/// Records of a recording in their order, and how the recording ends, if it ends after them.
#[derive(Drop)]
pub struct Batch {
    pub records: VecDeque<Record>,
    pub end: Option<Result<(), RowFault>>,
}

impl Batch {
    /// The next records of a recording: `length` of them, or fewer if it ends. If the room of a used batch came back, they are in it.
    /// None if the flag says to stop, between two rows or in a read that gave up because of it.
    pub fn read<R: TextSource, T: Wait>(
        rt: &T,
        alloc: Global,
        source: &mut RowSource<Stoppable<'_, R>>,
        length: usize,
        stop: &AtomicBool,
        rooms: &Rooms,
    ) -> Option<Batch>
        requires going { source.old.stopped ≡ false }
        ensures read { IfSome result (λ batch. IsRead R.can_fail source.old batch source.new) }
        ensures short { IfSome result (λ batch. deque_len batch.records ≤ length) }
        ensures full { IfSome result (λ batch. batch.end ≡ None → deque_len batch.records ≡ length) }
    {
        let Ok(mut records) = room_for(rt, alloc, rooms, length) else {
            return Some(Batch {
                records: VecDeque::new(alloc),
                end: Some(Err(RowFault::Memory)),
            });
        };
        for _ in 0..length {
            if stop.load(Ordering::SeqCst) {
                return None;
            }
            match next_answer(source)? {
                Ok(Some(record)) => records.push_back_reserved(record),
                Ok(None) => {
                    let end = Some(Ok(()));
                    return Some(Batch { records, end });
                }
                Err(fault) => {
                    let end = Some(Err(fault));
                    return Some(Batch { records, end });
                }
            }
        }
        Some(Batch { records, end: None })
    }
}

// The next answer of a recording. None if a read of it gave up: this is no failure of the reader, and it is not reported.
fn next_answer<R: TextSource>(
    source: &mut RowSource<Stoppable<'_, R>>,
) -> Option<Result<Option<Record>, RowFault>>
    requires going { source.old.stopped ≡ false }
    ensures stops { IfSome result (λ answer. source.new.stopped ≡ is_err answer) }
    ensures gives { IfSome result (λ answer. IfSome source.old.left (λ items. Gives (IsOutside R.can_fail) items answer source.new.left)) }
{
    let answer = source.next();
    if source.source().gave_up {
        None
    } else {
        Some(answer)
    }
}
