// The room of a batch, and its way back.

ghost use Rattle.std.specs.Prelude.{◌≡◌, ◌≤◌, [], IfOk};
ghost use Rattle.std.specs.VecDeque.{deque_capacity};

use apex_types::Record;
use std::alloc::{AllocError, Global};
use std::collections::VecDeque;
use std::sync::Wait;

/// The end of a channel at which rooms come back to a reader's thread.
pub type Rooms = crossbeam_channel::Receiver<VecDeque<Record>>;

/// The end of a channel from which rooms go back to a reader's thread.
pub type Used = crossbeam_channel::Sender<VecDeque<Record>>;

/// An empty room for this many records: one that came back, or a new one.
pub fn room_for<T: Wait>(
    rt: &T,
    alloc: Global,
    rooms: &Rooms,
    length: usize,
) -> Result<VecDeque<Record>, AllocError>
    ensures empty { IfOk result (λ room. room.items ≡ []) }
    ensures large { IfOk result (λ room. length ≤ deque_capacity room) }
{
    if let Ok(mut room) = rooms.try_recv(rt) {
        room.clear();
        if room.capacity() >= length {
            return Ok(room);
        }
    }
    VecDeque::with_capacity(alloc, length)
}

/// Gives a room back. If nobody takes it, it is given up.
pub fn give_back<T: Wait>(rt: &T, used: &Used, room: VecDeque<Record>) {
    let _ = used.try_send(rt, room);
}
