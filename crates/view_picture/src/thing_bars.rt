// What the bars of objects, locks and channels say.

use crate::labels::quoted;
use crate::look::Look;
use crate::process_bars::Short;
use crate::saying::Saying;
use run_view::{Contents, ThingKey, ThingView, Waiter};
use std::alloc::{AllocError, Global};
use std::fmt;
use wording::{Bytes, Count, Numbered, kind_name};

/// How many bytes of a message a bar shows.
const MOST_BYTES: usize = 4;

/// How many waiting processes are shown.
const MOST_WAITERS: usize = 6;

/// What is said of an object or a channel.
pub fn thing_saying(alloc: Global, key: &ThingKey, view: &ThingView) -> Result<Saying, AllocError> {
    let waits = !view.senders.is_empty() || !view.waiters.is_empty();
    let look = if waits { Look::Awaited } else { Look::Free };
    let text = format!(in alloc;
        "{}{}{}",
        Held(&view.contents),
        Queue("; sends:", &view.senders),
        Queue("; waits:", &view.waiters)
    )?;
    let name = quoted(alloc, view.name.as_slice())?;
    let title = format!(in alloc;
        "{}{name} {}{}{}",
        KeyName(*key),
        HeldInFull(&view.contents),
        QueueInFull("to send", &view.senders),
        QueueInFull("here", &view.waiters)
    )?;
    let brief = format!(in alloc; "{}", Brief(&view.contents))?;
    Ok(Saying {
        look,
        text,
        short: String::new(alloc),
        brief,
        title,
    })
}

/// The name of an object or a channel.
#[derive(Clone, Copy)]
pub struct KeyName(pub ThingKey);

impl fmt::Display for KeyName {
    fn fmt<W: fmt::Write>(&self, f: &mut fmt::Formatter<W>) -> fmt::Result {
        match self.0 {
            ThingKey::Object { kind, number, .. } => write!(f, "{} {number}", kind_name(kind)),
            ThingKey::Lock(_) => write!(f, "the lock"),
            ThingKey::Channel(channel) => write!(f, "channel {}", channel.number()),
        }
    }
}

// The first bytes of a message in hexadecimal digits.
#[derive(Clone, Copy)]
struct Digits<'a>(&'a [u8]);

impl fmt::Display for Digits<'_> {
    fn fmt<W: fmt::Write>(&self, f: &mut fmt::Formatter<W>) -> fmt::Result {
        for byte in self.0.iter().take(MOST_BYTES) {
            write!(f, "{byte:02x}")?;
        }
        if self.0.len() > MOST_BYTES {
            write!(f, "..")?;
        }
        Ok(())
    }
}

// What an object or a channel holds, in a few words.
#[derive(Clone, Copy)]
struct Held<'a>(&'a Contents);

impl fmt::Display for Held<'_> {
    fn fmt<W: fmt::Write>(&self, f: &mut fmt::Formatter<W>) -> fmt::Result {
        match self.0 {
            Contents::Queue {
                count,
                capacity,
                ..
            } => write!(f, "{count}/{capacity}"),
            Contents::Board { shown: None } => write!(f, "empty"),
            Contents::Board { shown: Some(bytes) } => write!(f, "{}", Digits(bytes.as_slice())),
            Contents::Semaphore { value, .. } => write!(f, "value {value}"),
            Contents::Event { is_up: true } => write!(f, "up"),
            Contents::Event { is_up: false } => write!(f, "down"),
            Contents::Mutex { owner: None, .. } => write!(f, "free"),
            Contents::Mutex {
                owner: Some(owner),
                count,
                ..
            } => {
                write!(f, "owner {}", owner.number())?;
                if *count > 1 {
                    write!(f, ", {count} times")?;
                }
                Ok(())
            }
            Contents::Lock { owner: None, .. } => write!(f, "free"),
            Contents::Lock {
                owner: Some(owner),
                level,
            } => write!(f, "owner {}, level {level}", owner.number()),
            Contents::Sampled { written: None } => write!(f, "empty"),
            Contents::Sampled {
                written: Some((bytes, time)),
            } => write!(f, "{} of time {time}", Digits(bytes.as_slice())),
        }
    }
}

// What an object or a channel holds, in a few characters.
#[derive(Clone, Copy)]
struct Brief<'a>(&'a Contents);

impl fmt::Display for Brief<'_> {
    fn fmt<W: fmt::Write>(&self, f: &mut fmt::Formatter<W>) -> fmt::Result {
        match self.0 {
            Contents::Queue {
                count,
                capacity,
                ..
            } => write!(f, "{count}/{capacity}"),
            Contents::Semaphore { value, .. } => write!(f, "{value}"),
            Contents::Event { is_up: true } => write!(f, "up"),
            Contents::Mutex {
                owner: Some(owner),
                ..
            }
            | Contents::Lock {
                owner: Some(owner),
                ..
            } => write!(f, "{}", owner.number()),
            Contents::Event { is_up: false }
            | Contents::Mutex { owner: None, .. }
            | Contents::Lock { owner: None, .. }
            | Contents::Board { .. }
            | Contents::Sampled { .. } => Ok(()),
        }
    }
}

// What an object or a channel holds, in full.
#[derive(Clone, Copy)]
struct HeldInFull<'a>(&'a Contents);

impl fmt::Display for HeldInFull<'_> {
    fn fmt<W: fmt::Write>(&self, f: &mut fmt::Formatter<W>) -> fmt::Result {
        match self.0 {
            Contents::Queue {
                count,
                capacity,
                oldest,
            } => {
                write!(f, "holds {} of {capacity}", Count(*count, "message"))?;
                match oldest {
                    Some(bytes) => write!(f, ", the oldest being {}", Bytes(bytes.as_slice())),
                    None => Ok(()),
                }
            }
            Contents::Board { shown: None } => write!(f, "is empty"),
            Contents::Board { shown: Some(bytes) } => {
                write!(f, "shows {}", Bytes(bytes.as_slice()))
            }
            Contents::Semaphore { value, maximum } => {
                write!(f, "has the value {value} (maximum {maximum})")
            }
            Contents::Event { is_up: true } => write!(f, "is up"),
            Contents::Event { is_up: false } => write!(f, "is down"),
            Contents::Mutex {
                owner,
                count,
                priority,
            } => {
                write!(f, "of priority {priority} ")?;
                match owner {
                    Some(owner) => write!(
                        f,
                        "is owned by process {}, which has acquired it {}",
                        owner.number(),
                        Count(usize::try_from(*count).unwrap_or(usize::MAX), "time")
                    ),
                    None => write!(f, "is free"),
                }
            }
            Contents::Lock { owner, level } => match owner {
                Some(owner) => write!(
                    f,
                    "is owned by process {} with level {level}",
                    owner.number()
                ),
                None => write!(f, "is free"),
            },
            Contents::Sampled { written: None } => write!(f, "holds nothing"),
            Contents::Sampled {
                written: Some((bytes, time)),
            } => {
                write!(
                    f,
                    "holds {}, written at time {time}",
                    Bytes(bytes.as_slice())
                )
            }
        }
    }
}

// The processes that wait, in their order, in a few words after this one; nothing if nobody waits.
#[derive(Clone, Copy)]
struct Queue<'a>(&'static str, &'a Vec<Waiter>);

impl fmt::Display for Queue<'_> {
    fn fmt<W: fmt::Write>(&self, f: &mut fmt::Formatter<W>) -> fmt::Result {
        if self.1.is_empty() {
            return Ok(());
        }
        write!(f, "{}", self.0)?;
        for waiter in self.1.iter().take(MOST_WAITERS) {
            write!(f, " {}", Short(waiter.who))?;
        }
        if self.1.len() > MOST_WAITERS {
            write!(f, " ..")?;
        }
        Ok(())
    }
}

// The processes that wait, in their order.
#[derive(Clone, Copy)]
struct QueueInFull<'a>(&'static str, &'a Vec<Waiter>);

impl fmt::Display for QueueInFull<'_> {
    fn fmt<W: fmt::Write>(&self, f: &mut fmt::Formatter<W>) -> fmt::Result {
        if self.1.is_empty() {
            return Ok(());
        }
        write!(f, "; waiting {}: ", self.0)?;
        for (index, waiter) in self.1.iter().enumerate() {
            write!(f, "{}", if index == 0 { "" } else { ", then " })?;
            write!(
                f,
                "{} since place {} with priority {}",
                Numbered(waiter.who),
                waiter.since.number(),
                waiter.priority
            )?;
        }
        Ok(())
    }
}
