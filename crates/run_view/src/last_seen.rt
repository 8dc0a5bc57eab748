// What was last seen of the pieces, and what has changed since.

ghost use Rattle.std.specs.Prelude.{◌≡◌, ◌≢◌, ◌<◌, ◌≤◌, ℕ, OnOk, Some};
ghost use Rattle.std.specs.Option.{option_copied};
ghost use Rattle.run_view.specs.Adds.{Adds};
ghost use Rattle.run_view.specs.Changes.{AddsOnly, IsOfOne};
ghost use Rattle.run_view.specs.Seen.{IsFound, IsFoundAt, IsFoundInChannel, IsFoundInLock, IsFoundInMode, IsFoundInPart, IsFoundInPartition, Sees, SeesAfter, SeesAllAfter, SeesChannel, SeesLock, SeesPartition, ends_no_wait, is_module, looks_at, nothing_seen, option_plain, piece_seen, room_of, seen_of};

use crate::change::{Change, add};
use crate::cores::CoreView;
use crate::seen_core::look_at_cores;
use crate::seen_object::{SeenObject, look_at_kind};
use crate::seen_process::{SeenProcess, look_at_processes};
use crate::thing::{ThingKey, ThingView, channel_view, lock_view};
use apex_machine::Mode;
use apex_types::{Body, ObjectKind, Ordered, PartId};
use channel::Channel;
use module_config::Config;
use partition_state::PartitionState;
use piece_check::{Piece, Seen};
use std::alloc::{AllocError, Global};

/// What was last seen of all pieces: the processes and objects that each piece then had, and their contents. So it takes no more
/// memory than the pieces do, which the configuration bounds.
#[derive(Drop)]
pub struct LastSeen {
    alloc: Global,
    pieces: Vec<SeenPiece>,
}

// What was last seen of a piece: of the module its cores, of a partition its mode, its processes, its lock once a process has owned it, and
// its objects of each kind in the order of their creation, or a channel.
#[derive(Drop)]
struct SeenPiece {
    cores: Vec<CoreView>,
    mode: Option<Mode>,
    processes: Vec<SeenProcess>,
    lock: Option<ThingView>,
    buffers: Vec<SeenObject>,
    blackboards: Vec<SeenObject>,
    semaphores: Vec<SeenObject>,
    events: Vec<SeenObject>,
    mutexes: Vec<SeenObject>,
    channel: Option<ThingView>,
}

impl LastSeen {
    /// Nothing is seen yet.
    pub fn new(alloc: Global) -> LastSeen
        ensures { (number : ℕ) → seen_of result number ≡ nothing_seen }
    {
        LastSeen {
            alloc,
            pieces: Vec::new(alloc),
        }
    }

    /// Looks at all pieces, or at those that a record touches, and adds what has changed since the last look.
    ///
    /// Afterwards each piece that it looked at is seen as it is, and each other one as before. The changes that are added are the
    /// differences between what was seen before and what is seen now, all of them and no others; so each is true of the pieces as they are.
    ///
    /// `AllocError` if memory is refused; what was last seen is then of no use.
    pub fn look(
        &mut self,
        config: &Config,
        pieces: &[Piece],
        ordered: Option<&Ordered>,
        changes: &mut Vec<Change>,
    ) -> Result<(), AllocError>
        ensures seen { OnOk result (SeesAllAfter config.now pieces.now (option_copied ordered.entry) self.old self.new) }
        ensures changes { OnOk result (Adds (IsFound config.now pieces.now (option_copied ordered.entry) self.old self.new) changes.old.items changes.new.items) }
        ensures so { OnOk result (AddsOnly (IsOfOne config.now pieces.now) changes.old.items changes.new.items) }
    {
        self.make_room(pieces.len())?;
        for number in 0..pieces.len() {
            self.look_if_touched(config, number, &pieces[number], ordered, changes)?;
        }
        Ok(())
    }

    // Looks at the piece of this number, if the record touches it, and adds what it no longer holds as it was seen.
    fn look_if_touched(
        &mut self,
        config: &Config,
        number: usize,
        piece: &Piece,
        ordered: Option<&Ordered>,
        changes: &mut Vec<Change>,
    ) -> Result<(), AllocError>
        requires { number < room_of self.old }
        ensures seen { OnOk result (SeesAfter config.now piece.now.part (option_copied ordered.entry) (seen_of self.old number) (seen_of self.new number)) }
        ensures changes { OnOk result (Adds (IsFoundAt config.now piece.now.part (option_copied ordered.entry) (seen_of self.old number) (seen_of self.new number)) changes.old.items changes.new.items) }
        ensures room { room_of self.new ≡ room_of self.old }
        ensures others { OnOk result ((other : ℕ) → other ≢ number → seen_of self.new other ≡ seen_of self.old other) }
    {
        if !looks_at(config, piece, ordered) {
            return Ok(());
        }
        let seen = &mut self.pieces[number];
        seen.look_at(self.alloc, config, piece, changes)
    }

    // Makes room for what is seen of this many pieces.
    fn make_room(&mut self, count: usize) -> Result<(), AllocError>
        ensures room { OnOk result (count ≤ room_of self.new) }
        ensures seen { OnOk result ((number : ℕ) → seen_of self.new number ≡ seen_of self.old number) }
    {
        'room: for _piece in self.pieces.len()..count {
            self.pieces.push(SeenPiece::new(self.alloc))?;
        }
        Ok(())
    }
}

// Whether a look is at this piece: it may have changed by this record, or at all if there is no record.
fn looks_at(config: &Config, piece: &Piece, ordered: Option<&Ordered>) -> bool
    ensures { result ≡ looks_at config.now piece.now.part (option_copied ordered.entry) }
{
    match ordered {
        Some(ordered) => is_touched(config, piece, ordered),
        None => true,
    }
}

// Whether a piece may have changed by this record. A tick that ends no wait changes the time of its core, and nothing else.
fn is_touched(config: &Config, piece: &Piece, ordered: &Ordered) -> bool
    ensures { result ≡ looks_at config.now piece.now.part (Some ordered.now) }
{
    if ends_no_wait(ordered) {
        is_module(piece)
    } else {
        piece.subject().is_touched(config, ordered)
    }
}

fn is_module(piece: &Piece) -> bool
    ensures { result ≡ is_module piece.now.part }
{
    match piece.seen() {
        Seen::Module { .. } => true,
        Seen::Partition { .. } | Seen::Channel { .. } => false,
    }
}

// Whether a record is a tick that ends no wait.
fn ends_no_wait(ordered: &Ordered) -> bool
    ensures { result ≡ ends_no_wait ordered.now.rec.body }
{
    match &ordered.rec.body {
        Body::Tick(woken) => woken.as_slice().is_empty(),
        _ => false,
    }
}

impl SeenPiece {
    fn new(alloc: Global) -> SeenPiece
        ensures { piece_seen result ≡ nothing_seen }
    {
        SeenPiece {
            cores: Vec::new(alloc),
            mode: None,
            processes: Vec::new(alloc),
            lock: None,
            buffers: Vec::new(alloc),
            blackboards: Vec::new(alloc),
            semaphores: Vec::new(alloc),
            events: Vec::new(alloc),
            mutexes: Vec::new(alloc),
            channel: None,
        }
    }

    // Adds what a piece no longer holds as it was seen. It is then seen as it is.
    fn look_at(
        &mut self,
        alloc: Global,
        config: &Config,
        piece: &Piece,
        changes: &mut Vec<Change>,
    ) -> Result<(), AllocError>
        ensures seen { OnOk result (Sees config.now piece.now.part (piece_seen self.new)) }
        ensures changes { OnOk result (Adds (IsFoundInPart piece.now.part (piece_seen self.old) (piece_seen self.new)) changes.old.items changes.new.items) }
    {
        match piece.seen() {
            Seen::Module { clock } => look_at_cores(alloc, &mut self.cores, config, clock, changes),
            Seen::Partition { number, state, .. } => {
                self.look_at_partition(alloc, number, state, changes)
            }
            Seen::Channel { channel, .. } => {
                look_at_channel(alloc, &mut self.channel, channel, changes)
            }
        }
    }

    // Adds what a partition no longer holds as it was seen. It is then seen as it is.
    fn look_at_partition(
        &mut self,
        alloc: Global,
        part: PartId,
        state: &PartitionState,
        changes: &mut Vec<Change>,
    ) -> Result<(), AllocError>
        ensures seen { OnOk result (SeesPartition state.now (piece_seen self.new)) }
        ensures changes { OnOk result (Adds (IsFoundInPartition part (piece_seen self.old) (piece_seen self.new)) changes.old.items changes.new.items) }
    {
        look_at_mode(&mut self.mode, part, state, changes)?;
        look_at_processes(alloc, &mut self.processes, part, state, changes)?;
        look_at_lock(alloc, &mut self.lock, part, state, changes)?;
        let buffer = ObjectKind::Buffer;
        look_at_kind(alloc, &mut self.buffers, buffer, part, state, changes)?;
        let blackboard = ObjectKind::Blackboard;
        look_at_kind(
            alloc,
            &mut self.blackboards,
            blackboard,
            part,
            state,
            changes,
        )?;
        let semaphore = ObjectKind::Semaphore;
        look_at_kind(alloc, &mut self.semaphores, semaphore, part, state, changes)?;
        let event = ObjectKind::Event;
        look_at_kind(alloc, &mut self.events, event, part, state, changes)?;
        let mutex = ObjectKind::Mutex;
        look_at_kind(alloc, &mut self.mutexes, mutex, part, state, changes)
    }
}

// Adds the mode of a partition, if it is not the one that was seen. It is then seen as it is.
fn look_at_mode(
    seen: &mut Option<Mode>,
    part: PartId,
    state: &PartitionState,
    changes: &mut Vec<Change>,
) -> Result<(), AllocError>
    ensures seen { OnOk result (seen.new ≡ Some state.now.mode) }
    ensures changes { OnOk result (Adds (IsFoundInMode part seen.old seen.new) changes.old.items changes.new.items) }
{
    let mode = state.processes().mode();
    if *seen != Some(mode) {
        *seen = Some(mode);
        add(changes, Change::Mode(part, mode))
    } else {
        Ok(())
    }
}

// Adds the lock of a partition, if it is no longer as it was seen. It is then seen as it is. A free lock that was not seen stays unseen, so
// that a partition that never uses its lock has no lane for it.
fn look_at_lock(
    alloc: Global,
    seen: &mut Option<ThingView>,
    part: PartId,
    state: &PartitionState,
    changes: &mut Vec<Change>,
) -> Result<(), AllocError>
    ensures seen { OnOk result (SeesLock state.now.lock (option_plain seen.new)) }
    ensures changes { OnOk result (Adds (IsFoundInLock part (option_plain seen.old) (option_plain seen.new)) changes.old.items changes.new.items) }
{
    let lock = state.lock();
    if seen.is_none() && lock.owner().is_none() {
        return Ok(());
    }
    let view = Some(lock_view(alloc, lock)?);
    let is_new = *seen != view;
    *seen = view;
    if !is_new {
        return Ok(());
    }
    add(changes, Change::Thing(ThingKey::Lock(part)))
}

// Adds a channel, if it no longer holds what was seen. It is then seen as it is.
fn look_at_channel(
    alloc: Global,
    seen: &mut Option<ThingView>,
    channel: &Channel,
    changes: &mut Vec<Change>,
) -> Result<(), AllocError>
    ensures seen { OnOk result (SeesChannel channel.now.channel (option_plain seen.new)) }
    ensures changes { OnOk result (Adds (IsFoundInChannel channel.now.number (option_plain seen.old) (option_plain seen.new)) changes.old.items changes.new.items) }
{
    let view = Some(channel_view(alloc, channel)?);
    let is_new = *seen != view;
    *seen = view;
    if !is_new {
        return Ok(());
    }
    add(changes, Change::Thing(ThingKey::Channel(channel.number())))
}
