// What objects, locks and channels hold, in words.

use crate::processes::tell_since;
use apex_types::{Discipline, Name, ObjectKind};
use channel::Channel;
use module_config::ChannelKind;
use partition_objects::{Port, PreemptionLock};
use partition_state::PartitionState;
use wait_set::{MessageQueue, Named, WaitSet};
use wording::{Ascii, Bytes, Count, Numbered, Words, kind_name};

/// How many of the processes that wait in a set are shown.
const MOST_WAITERS: usize = 8;

/// Reports what an object or port of a kind holds, if it is created.
pub fn tell_object(words: &mut Words, state: &PartitionState, kind: ObjectKind, number: i64) {
    match kind {
        ObjectKind::Buffer => tell_buffer(words, state, number),
        ObjectKind::Blackboard => tell_blackboard(words, state, number),
        ObjectKind::Semaphore => tell_semaphore(words, state, number),
        ObjectKind::Event => tell_event(words, state, number),
        ObjectKind::Mutex => tell_mutex(words, state, number),
        ObjectKind::SamplingPort => {
            tell_port(words, kind, number, state.sampling_ports().given(number));
        }
        ObjectKind::QueuingPort => {
            tell_port(words, kind, number, state.queuing_ports().given(number));
        }
    }
}

// Reports a port, if it is created; for a sampling port also whether the last read at it gave a valid message.
fn tell_port(words: &mut Words, kind: ObjectKind, number: i64, port: Option<&Port>) {
    let Some(port) = port else {
        return;
    };
    begin(words, kind_name(kind), number, port.name());
    words.say(format_args!("belongs to channel {}", port.channel().number()));
    if kind == ObjectKind::SamplingPort {
        words.say(if port.status().val == 1 {
            "; its last read gave a valid message"
        } else {
            "; its last read, if any, gave no valid message"
        });
    }
}

// Begins the line of an object.
fn begin(words: &mut Words, kind: &str, number: i64, name: &Name) {
    words.next_line();
    words.say(format_args!("{kind} {number}, \"{}\", ", Ascii(name.as_bytes())));
}

fn tell_buffer(words: &mut Words, state: &PartitionState, number: i64) {
    if let Some(buffer) = state.buffers().given(number) {
        begin(words, "buffer", number, buffer.name());
        tell_queue(words, buffer.queue());
    }
}

fn tell_blackboard(words: &mut Words, state: &PartitionState, number: i64) {
    let Some(board) = state.blackboards().given(number) else {
        return;
    };
    begin(words, "blackboard", number, board.name());
    match board.message() {
        Some(message) => words.say(format_args!("shows {}", Bytes(message.as_bytes()))),
        None => words.say("is empty"),
    }
    tell_waiters(words, board.readers(), "to read");
}

fn tell_semaphore(words: &mut Words, state: &PartitionState, number: i64) {
    if let Some(semaphore) = state.semaphores().given(number) {
        begin(words, "semaphore", number, semaphore.name());
        let (value, maximum) = (semaphore.value(), semaphore.maximum());
        words.say(format_args!("has the value {value} (maximum {maximum})"));
        tell_waiters(words, semaphore.waiters(), "for it");
    }
}

fn tell_event(words: &mut Words, state: &PartitionState, number: i64) {
    if let Some(event) = state.events().given(number) {
        begin(words, "event", number, event.name());
        words.say(if event.is_up() { "is up" } else { "is down" });
        tell_waiters(words, event.waiters(), "for it");
    }
}

fn tell_mutex(words: &mut Words, state: &PartitionState, number: i64) {
    let Some(mutex) = state.mutexes().given(number) else {
        return;
    };
    begin(words, "mutex", number, mutex.name());
    words.say(format_args!("of priority {}, ", mutex.priority()));
    match mutex.owner() {
        Some(owner) => words.say(format_args!(
            "is owned by process {}, which has acquired it {}",
            owner.number(),
            Count(mutex.count() as usize, "time")
        )),
        None => words.say("is free"),
    }
    tell_waiters(words, mutex.waiters(), "for it");
}

/// Reports who owns the lock of a partition, with which level, and which processes wait for it.
pub fn tell_lock(words: &mut Words, lock: &PreemptionLock) {
    words.next_line();
    match lock.owner() {
        Some(owner) => words.say(format_args!(
            "process {} owns the lock, with level {}",
            owner.number(),
            lock.level()
        )),
        None => words.say("no process owns the lock"),
    }
    tell_waiters(words, lock.waiters(), "for it");
}

/// Reports what a channel holds.
pub fn tell_channel_held(words: &mut Words, channel: &Channel, now: u64, kind: &ChannelKind) {
    words.next_line();
    words.say(format_args!("channel {} ", channel.number().number()));
    if let Some(queue) = channel.queue() {
        tell_queue(words, queue);
        return;
    }
    match channel.written() {
        Some(last) => {
            let age = now.saturating_sub(last.stamp());
            words.say(format_args!("holds {}", Bytes(last.message().as_bytes())));
            words.say(format_args!(", written at time {}", last.stamp()));
            words.say(format_args!(": its age at time {now} is {age}"));
            if let ChannelKind::Sampling { refresh, .. } = kind {
                words.say(format_args!(", and the refresh period is {refresh}"));
            }
        }
        None => words.say("holds no message: none was written"),
    }
}

// Reports what a queue holds, and which processes wait at it.
fn tell_queue(words: &mut Words, queue: &MessageQueue) {
    let (count, capacity) = (queue.len(), queue.capacity());
    words.say(format_args!("holds {} (capacity {capacity})", Count(count, "message")));
    if let Some(message) = queue.oldest() {
        words.say(if count == 1 {
            ": "
        } else {
            ", the oldest of which is "
        });
        words.say(format_args!("{}", Bytes(message.as_bytes())));
    }
    tell_waiters(words, queue.senders(), "to send");
    tell_waiters(words, queue.receivers(), "to receive");
}

// Reports how many processes wait in a set, and which, the first of the set first.
fn tell_waiters(words: &mut Words, set: &WaitSet, what: &str) {
    let count = set.len();
    if count == 0 {
        words.say(format_args!("; nobody waits {what}"));
        return;
    }
    let verb = if count == 1 { "waits" } else { "wait" };
    words.say(format_args!("; {} {verb} {what}", Count(count, "process")));
    words.say(match set.discipline() {
        Discipline::Fifo => " in FIFO order",
        Discipline::Priority => " in PRIORITY order",
    });
    // Without memory for a copy, only their number is shown.
    let Ok(mut left) = set.clone() else {
        words.note_lack_of_memory();
        return;
    };
    for index in 0..MOST_WAITERS {
        let Some(entry) = left.take_first() else {
            return;
        };
        words.say(if index == 0 { ": " } else { ", then " });
        words.say(Numbered(entry.who));
        tell_since(words, entry.place.number());
        words.say(format_args!(" with priority {}", entry.priority));
    }
    if count > MOST_WAITERS {
        words.say(format_args!(", and {} more", count - MOST_WAITERS));
    }
}
