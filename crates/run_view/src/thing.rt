// What an object, a lock or a channel holds, and who waits there.

ghost use Rattle.std.specs.Prelude.{◌≡◌, ℕ, IfOk, option_map};
ghost use Rattle.std.specs.List.{find};
ghost use Rattle.std.specs.Option.{option_copied};
ghost use Rattle.piece_check.specs.Parts.{Holding};
ghost use Rattle.apex_machine.specs.State.{item_at};
ghost use Rattle.run_view.specs.Things.{Shows, ShowsBlackboard, ShowsBuffer, ShowsChannel, ShowsEvent, ShowsIn, ShowsLock, ShowsMutex, ShowsObject, ShowsQueued, ShowsSample, ShowsSemaphore, ShowsThing, holds};

use crate::waiter::{Waiter, waiters_of};
use apex_types::{ChanId, Message, ObjectKind, PartId, ProcId};
use channel::{Channel, Stamped};
use partition_objects::PreemptionLock;
use partition_state::PartitionState;
use piece_check::{Piece, Seen, Subject};
use std::alloc::{AllocError, Global};
use wait_set::{MessageQueue, Named};

/// What can hold messages or values, and where processes wait: an object or the lock of a partition, or a channel.
#[derive(Clone, Copy, Debug, PartialEq, Eq)]
pub enum ThingKey {
    Object {
        part: PartId,
        kind: ObjectKind,
        number: u32,
    },
    Lock(PartId),
    Channel(ChanId),
}

/// What an object, a lock or a channel holds. A message is seen as its bytes.
#[derive(Debug, Drop, PartialEq, Eq)]
pub enum Contents {
    /// A buffer or a queuing channel: its messages, how many it can hold, and the oldest of them.
    Queue {
        count: usize,
        capacity: usize,
        oldest: Option<Vec<u8>>,
    },
    /// A blackboard: the message that it shows, if it shows one.
    Board {
        shown: Option<Vec<u8>>,
    },
    Semaphore {
        value: u16,
        maximum: u16,
    },
    Event {
        is_up: bool,
    },
    /// A mutex: who owns it, how often its owner has acquired it, and the priority that it gives its owner.
    Mutex {
        owner: Option<ProcId>,
        count: u64,
        priority: u8,
    },
    /// The lock of a partition: who owns it, and its level.
    Lock {
        owner: Option<ProcId>,
        level: u8,
    },
    /// A sampling channel: the message that was last written, and when, in ticks of the writer's core.
    Sampled {
        written: Option<(Vec<u8>, u64)>,
    },
}

/// An object, a lock or a channel: its name, if it has one; what it holds; and who waits there, to send and for anything else.
#[derive(Debug, Drop, PartialEq, Eq)]
pub struct ThingView {
    pub name: Vec<u8>,
    pub contents: Contents,
    pub senders: Vec<Waiter>,
    pub waiters: Vec<Waiter>,
}

/// What a partition holds of an object. None if it has no such object, and for a port, which holds nothing.
///
/// `AllocError` if memory is refused.
pub fn thing_view(
    alloc: Global,
    state: &PartitionState,
    kind: ObjectKind,
    number: u32,
) -> Result<Option<ThingView>, AllocError>
    ensures { IfOk result (ShowsObject kind number state.now) }
{
    match kind {
        ObjectKind::Buffer => buffer_view(alloc, state, number),
        ObjectKind::Blackboard => board_view(alloc, state, number),
        ObjectKind::Semaphore => semaphore_view(alloc, state, number),
        ObjectKind::Event => event_view(alloc, state, number),
        ObjectKind::Mutex => mutex_view(alloc, state, number),
        ObjectKind::SamplingPort | ObjectKind::QueuingPort => Ok(None),
    }
}

/// What an object, a lock or a channel holds, which is one of these pieces or is in one of them. None if it is in none of them.
///
/// `AllocError` if memory is refused.
pub fn view_of(
    alloc: Global,
    pieces: &[Piece],
    key: &ThingKey,
) -> Result<Option<ThingView>, AllocError>
    ensures { IfOk result (ShowsThing key.now pieces.now) }
{
    match home_of(pieces, key) {
        Some(piece) => view_in(alloc, piece, key),
        None => Ok(None),
    }
}

// The piece that an object or a channel is, or is in.
fn home_of<'a>(pieces: &'a [Piece], key: &ThingKey) -> Option<&'a Piece>
    ensures { option_copied result ≡ find (λ (holding : Holding). holds holding.part key.now) pieces.now }
{
    pieces.iter().find(|piece| holds(piece, key))
}

// Whether an object or a channel is this piece or can be in it.
fn holds(piece: &Piece, key: &ThingKey) -> bool
    ensures { result ≡ holds piece.now.part key.now }
{
    match key {
        ThingKey::Object { part, .. } | ThingKey::Lock(part) => is_partition(piece, *part),
        ThingKey::Channel(channel) => is_channel(piece, *channel),
    }
}

// Whether a piece is this partition, in which its objects and its lock are.
fn is_partition(piece: &Piece, part: PartId) -> bool
    ensures objects { (kind : ObjectKind) (number : ℕ) → result ≡ holds piece.now.part (ThingKey.Object part kind number) }
    ensures lock { result ≡ holds piece.now.part (ThingKey.Lock part) }
{
    match piece.subject() {
        Subject::Partition(number) => number.number() == part.number(),
        Subject::Module | Subject::Channel(_) => false,
    }
}

// Whether a piece is this channel.
fn is_channel(piece: &Piece, channel: ChanId) -> bool
    ensures { result ≡ holds piece.now.part (ThingKey.Channel channel) }
{
    match piece.subject() {
        Subject::Channel(number) => number.number() == channel.number(),
        Subject::Module | Subject::Partition(_) => false,
    }
}

// What an object or a channel holds, which is this piece or is in it.
fn view_in(alloc: Global, piece: &Piece, key: &ThingKey) -> Result<Option<ThingView>, AllocError>
    ensures { IfOk result (ShowsIn piece.now.part key.now) }
{
    match key {
        ThingKey::Object { kind, number, .. } => object_view(alloc, piece, *kind, *number),
        ThingKey::Lock(_) => owned_view(alloc, piece),
        ThingKey::Channel(_) => whole_view(alloc, piece),
    }
}

// What an object holds that is in this piece.
fn object_view(
    alloc: Global,
    piece: &Piece,
    kind: ObjectKind,
    number: u32,
) -> Result<Option<ThingView>, AllocError>
    ensures { (part : ℕ) → IfOk result (ShowsIn piece.now.part (ThingKey.Object part kind number)) }
{
    match piece.seen() {
        Seen::Partition { state, .. } => thing_view(alloc, state, kind, number),
        Seen::Module { .. } | Seen::Channel { .. } => Ok(None),
    }
}

// What the lock of this piece holds.
fn owned_view(alloc: Global, piece: &Piece) -> Result<Option<ThingView>, AllocError>
    ensures { (part : ℕ) → IfOk result (ShowsIn piece.now.part (ThingKey.Lock part)) }
{
    match piece.seen() {
        Seen::Partition { state, .. } => Ok(Some(lock_view(alloc, state.lock())?)),
        Seen::Module { .. } | Seen::Channel { .. } => Ok(None),
    }
}

// What a channel holds that is this piece.
fn whole_view(alloc: Global, piece: &Piece) -> Result<Option<ThingView>, AllocError>
    ensures { (channel : ℕ) → IfOk result (ShowsIn piece.now.part (ThingKey.Channel channel)) }
{
    match piece.seen() {
        Seen::Channel { channel, .. } => Ok(Some(channel_view(alloc, channel)?)),
        Seen::Module { .. } | Seen::Partition { .. } => Ok(None),
    }
}

fn buffer_view(
    alloc: Global,
    state: &PartitionState,
    number: u32,
) -> Result<Option<ThingView>, AllocError>
    ensures { IfOk result (Shows ShowsBuffer (item_at state.now.buffers number)) }
{
    let Some(buffer) = state.buffers().at(number) else {
        return Ok(None);
    };
    Ok(Some(queue_view(alloc, buffer.name().as_bytes(), buffer.queue())?))
}

fn board_view(
    alloc: Global,
    state: &PartitionState,
    number: u32,
) -> Result<Option<ThingView>, AllocError>
    ensures { IfOk result (Shows ShowsBlackboard (item_at state.now.blackboards number)) }
{
    let Some(board) = state.blackboards().at(number) else {
        return Ok(None);
    };
    let shown = bytes_of(alloc, board.message())?;
    Ok(Some(ThingView {
        name: Vec::from_slice(alloc, board.name().as_bytes())?,
        contents: Contents::Board { shown },
        senders: Vec::new(alloc),
        waiters: waiters_of(alloc, board.readers())?,
    }))
}

fn semaphore_view(
    alloc: Global,
    state: &PartitionState,
    number: u32,
) -> Result<Option<ThingView>, AllocError>
    ensures { IfOk result (Shows ShowsSemaphore (item_at state.now.semaphores number)) }
{
    let Some(semaphore) = state.semaphores().at(number) else {
        return Ok(None);
    };
    Ok(Some(ThingView {
        name: Vec::from_slice(alloc, semaphore.name().as_bytes())?,
        contents: Contents::Semaphore {
            value: semaphore.value(),
            maximum: semaphore.maximum(),
        },
        senders: Vec::new(alloc),
        waiters: waiters_of(alloc, semaphore.waiters())?,
    }))
}

fn event_view(
    alloc: Global,
    state: &PartitionState,
    number: u32,
) -> Result<Option<ThingView>, AllocError>
    ensures { IfOk result (Shows ShowsEvent (item_at state.now.events number)) }
{
    let Some(event) = state.events().at(number) else {
        return Ok(None);
    };
    Ok(Some(ThingView {
        name: Vec::from_slice(alloc, event.name().as_bytes())?,
        contents: Contents::Event {
            is_up: event.is_up(),
        },
        senders: Vec::new(alloc),
        waiters: waiters_of(alloc, event.waiters())?,
    }))
}

fn mutex_view(
    alloc: Global,
    state: &PartitionState,
    number: u32,
) -> Result<Option<ThingView>, AllocError>
    ensures { IfOk result (Shows ShowsMutex (item_at state.now.mutexes number)) }
{
    let Some(mutex) = state.mutexes().at(number) else {
        return Ok(None);
    };
    Ok(Some(ThingView {
        name: Vec::from_slice(alloc, mutex.name().as_bytes())?,
        contents: Contents::Mutex {
            owner: mutex.owner(),
            count: mutex.count(),
            priority: mutex.priority(),
        },
        senders: Vec::new(alloc),
        waiters: waiters_of(alloc, mutex.waiters())?,
    }))
}

/// What the lock of a partition holds.
///
/// `AllocError` if memory is refused.
pub fn lock_view(alloc: Global, lock: &PreemptionLock) -> Result<ThingView, AllocError>
    ensures { IfOk result (ShowsLock lock.now) }
{
    Ok(ThingView {
        name: Vec::new(alloc),
        contents: Contents::Lock {
            owner: lock.owner(),
            level: lock.level(),
        },
        senders: Vec::new(alloc),
        waiters: waiters_of(alloc, lock.waiters())?,
    })
}

/// What a channel holds.
///
/// `AllocError` if memory is refused.
pub fn channel_view(alloc: Global, channel: &Channel) -> Result<ThingView, AllocError>
    ensures { IfOk result (ShowsChannel channel.now) }
{
    if let Some(queue) = channel.queue() {
        return queue_view(alloc, &[], queue);
    }
    Ok(ThingView {
        name: Vec::new(alloc),
        contents: sampled(alloc, channel.written())?,
        senders: Vec::new(alloc),
        waiters: Vec::new(alloc),
    })
}

// What a queue of this name holds.
fn queue_view(alloc: Global, name: &[u8], queue: &MessageQueue) -> Result<ThingView, AllocError>
    ensures { IfOk result (ShowsQueued name.now queue.now) }
{
    let oldest = bytes_of(alloc, queue.oldest())?;
    Ok(ThingView {
        name: Vec::from_slice(alloc, name)?,
        contents: Contents::Queue {
            count: queue.len(),
            capacity: queue.capacity(),
            oldest,
        },
        senders: waiters_of(alloc, queue.senders())?,
        waiters: waiters_of(alloc, queue.receivers())?,
    })
}

// The bytes of a message, if there is one.
fn bytes_of(alloc: Global, message: Option<&Message>) -> Result<Option<Vec<u8>>, AllocError>
    ensures { IfOk result (λ bytes. option_map (λ one. one.items) bytes ≡ option_copied message.entry) }
{
    match message {
        Some(message) => {
            let bytes = Vec::from_slice(alloc, message.as_bytes())?;
            Ok(Some(bytes))
        }
        None => Ok(None),
    }
}

// A sampling channel to which this was last written, if anything was.
fn sampled(alloc: Global, last: Option<&Stamped>) -> Result<Contents, AllocError>
    ensures { IfOk result (ShowsSample (option_copied last.entry)) }
{
    match last {
        Some(last) => {
            let bytes = Vec::from_slice(alloc, last.message().as_bytes())?;
            Ok(Contents::Sampled {
                written: Some((bytes, last.stamp())),
            })
        }
        None => Ok(Contents::Sampled { written: None }),
    }
}
