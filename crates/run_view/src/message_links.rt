// Which record sent the message that another one receives.

ghost use Rattle.std.specs.Prelude.{◌≡◌, OnOk, length};

use crate::thing::{Contents, ThingKey, ThingView, view_of};
use crate::waiter::Waiter;
use apex_types::{
    BlackboardOperation, Body, BufferOperation, Call, Code, Crossing, ObjectKind, ObjectOperation,
    Ordered, Out, PartId, Place, QueuingOperation, Request, SamplingOperation, Who,
};
use partition_state::is_restart;
use piece_check::Piece;
use std::alloc::{AllocError, Global};
use std::collections::VecDeque;

/// Where a message was sent: at which place, and by whom.
#[derive(Clone, Copy, Debug, PartialEq, Eq)]
pub struct Sent {
    pub place: Place,
    pub who: Who,
}

/// What a record does with messages.
#[derive(Clone, Copy, Debug, PartialEq, Eq)]
pub struct Followed {
    /// It sends or shows a message.
    pub is_sent: bool,
    /// It receives a message, or has another process receive it.
    pub received: Option<Received>,
    /// It ends a message that was shown: another message replaces it, or none.
    pub ended: Option<Sent>,
}

/// A message that is received: where it was sent, by whom it is received, and whether others can receive it afterwards.
#[derive(Clone, Copy, Debug, PartialEq, Eq)]
pub struct Received {
    pub sent: Sent,
    pub by: Who,
    pub stays: bool,
}

/// Nothing is done with a message.
const NOTHING: Followed = Followed {
    is_sent: false,
    received: None,
    ended: None,
};

/// The messages that objects and channels hold, by the records that sent them. It follows what the pieces hold: if they hold more
/// messages than it knows, it does not know who sent the oldest ones.
///
/// It takes no more memory than the pieces do, which the configuration bounds. It knows only objects and channels that exist, since
/// a restart ends all objects of its partition. For each it knows as many messages as are held, and only the senders that wait.
///
/// No clause says which record sent a message: only this type knows that.
#[derive(Drop)]
pub struct MessageLinks {
    alloc: Global,
    things: Vec<LinkedThing>,
}

#[derive(Drop)]
struct LinkedThing {
    key: ThingKey,
    // Those in the queue, the oldest first; for a blackboard or a sampling channel, the last one.
    held: VecDeque<Option<Sent>>,
    // Those of senders that wait.
    waiting: Vec<Sent>,
}

// What a call does with a message.
#[derive(Clone, Copy, PartialEq, Eq)]
enum Use {
    Sends,
    Receives,
    Shows,
    Clears,
    Reads,
    Empties,
}

// Which way a message passes an end outside.
#[derive(Clone, Copy, PartialEq, Eq)]
enum Way {
    In,
    Out,
}

impl MessageLinks {
    /// No messages.
    pub fn new(alloc: Global) -> MessageLinks {
        MessageLinks {
            alloc,
            things: Vec::new(alloc),
        }
    }

    /// Follows a record that is accepted, after which the pieces are these.
    ///
    /// `AllocError` if memory is refused.
    pub fn follow(&mut self, pieces: &[Piece], ordered: &Ordered) -> Result<Followed, AllocError> {
        match &ordered.rec.body {
            Body::Call(call) => self.follow_call(pieces, ordered, call),
            Body::Arrive(crossing) => self.follow_crossing(pieces, crossing, Way::In),
            Body::Depart(crossing) => self.follow_crossing(pieces, crossing, Way::Out),
            Body::Error(report) => {
                if report.restarts {
                    self.forget(report.who.part);
                }
                Ok(NOTHING)
            }
            Body::Ret(_) | Body::Disp(_) | Body::Tick(_) => Ok(NOTHING),
        }
    }

    // Follows a message that passes an end outside: nobody here sent a message that arrives, and nobody here receives one that departs.
    fn follow_crossing(
        &mut self,
        pieces: &[Piece],
        crossing: &Crossing,
        way: Way,
    ) -> Result<Followed, AllocError> {
        let key = ThingKey::Channel(crossing.chan);
        let Some(view) = view_of(self.alloc, pieces, &key)? else {
            return Ok(NOTHING);
        };
        let Some(thing) = self.thing(&key)? else {
            return Ok(NOTHING);
        };
        let followed = match way {
            Way::In => thing.take_in(&view)?,
            Way::Out => {
                thing.take_oldest(crossing.woken.as_slice())?;
                NOTHING
            }
        };
        thing.agree_with(&view)?;
        Ok(followed)
    }

    // Follows a call that is accepted.
    fn follow_call(
        &mut self,
        pieces: &[Piece],
        ordered: &Ordered,
        call: &Call,
    ) -> Result<Followed, AllocError> {
        if is_restart(call) {
            self.forget(call.who.part);
            return Ok(NOTHING);
        }
        let Some((key, used)) = used_by(call) else {
            return Ok(NOTHING);
        };
        let Some(view) = view_of(self.alloc, pieces, &key)? else {
            return Ok(NOTHING);
        };
        let sent = Sent {
            place: ordered.pos,
            who: call.who,
        };
        self.use_thing(&key, used, sent, call, &view)
    }

    // Follows the use of an object or a channel, which then has this view.
    fn use_thing(
        &mut self,
        key: &ThingKey,
        used: Use,
        sent: Sent,
        call: &Call,
        view: &ThingView,
    ) -> Result<Followed, AllocError> {
        let Some(thing) = self.thing(key)? else {
            return Ok(NOTHING);
        };
        let followed = match (used, call.claim.out) {
            (Use::Sends, Out::Waits) => thing.wait_to_send(sent)?,
            (Use::Sends, Out::Answer(Code::NoError)) => thing.send(sent, call)?,
            (Use::Shows, Out::Answer(Code::NoError)) => thing.show(Some(sent))?,
            (Use::Clears, Out::Answer(Code::NoError)) => thing.show(None)?,
            (Use::Receives, Out::Answer(Code::NoError)) => thing.receive(call)?,
            (Use::Empties, Out::Answer(Code::NoError)) => {
                thing.empty(call.claim.woken.as_slice())?;
                NOTHING
            }
            (Use::Reads, Out::Answer(Code::NoError)) => thing.read(call),
            _ => NOTHING,
        };
        thing.agree_with(view)?;
        Ok(followed)
    }

    // Forgets the objects of a partition, which its restart ends.
    fn forget(&mut self, part: PartId) {
        self.things.retain(|thing| !is_object_of(&thing.key, part));
    }

    // What is known of an object or a channel; of a new one, nothing is known.
    fn thing(&mut self, key: &ThingKey) -> Result<Option<&mut LinkedThing>, AllocError> {
        if !self.things.iter().any(|thing| thing.key == *key) {
            self.things.push(LinkedThing {
                key: *key,
                held: VecDeque::new(self.alloc),
                waiting: Vec::new(self.alloc),
            })?;
        }
        Ok(self.things.iter_mut().find(|thing| thing.key == *key))
    }
}

impl LinkedThing {
    // A sender waits with its message.
    fn wait_to_send(&mut self, sent: Sent) -> Result<Followed, AllocError> {
        self.waiting.push(sent)?;
        Ok(Followed {
            is_sent: true,
            received: None,
            ended: None,
        })
    }

    // A message goes to a receiver whose wait ends, or comes after the others.
    fn send(&mut self, sent: Sent, call: &Call) -> Result<Followed, AllocError> {
        if let Some(who) = call.claim.woken.as_slice().first() {
            let received = Received {
                sent,
                by: *who,
                stays: false,
            };
            return Ok(Followed {
                is_sent: true,
                received: Some(received),
                ended: None,
            });
        }
        self.held.push_back(Some(sent))?;
        Ok(Followed {
            is_sent: true,
            received: None,
            ended: None,
        })
    }

    // Another message replaces the one that was shown, or none does.
    fn show(&mut self, sent: Option<Sent>) -> Result<Followed, AllocError> {
        let ended = known(self.held.pop_front());
        self.held.clear();
        if sent.is_some() {
            self.held.push_back(sent)?;
        }
        Ok(Followed {
            is_sent: sent.is_some(),
            received: None,
            ended,
        })
    }

    // The message that is shown is read.
    fn read(&self, call: &Call) -> Followed {
        let shown = match self.held.front() {
            Some(sent) => *sent,
            None => None,
        };
        Followed {
            is_sent: false,
            received: received_by(shown, call, true),
            ended: None,
        }
    }

    // Removes the oldest message. The message of a sender whose wait ends comes after the others.
    fn receive(&mut self, call: &Call) -> Result<Followed, AllocError> {
        let oldest = self.take_oldest(call.claim.woken.as_slice())?;
        Ok(Followed {
            is_sent: false,
            received: received_by(oldest, call, false),
            ended: None,
        })
    }

    // Takes out the oldest message. Those of senders whose waits end come after the others.
    fn take_oldest(&mut self, woken: &[Who]) -> Result<Option<Sent>, AllocError> {
        let oldest = known(self.held.pop_front());
        for who in woken {
            let sent = self.waiting.iter().find(|sent| sent.who == *who).copied();
            self.held.push_back(sent)?;
        }
        Ok(oldest)
    }

    // Takes out all messages. Those of senders whose waits end take their place; of several, it is not known which comes first.
    fn empty(&mut self, woken: &[Who]) -> Result<(), AllocError> {
        self.held.clear();
        if let [who] = woken {
            let sent = self.waiting.iter().find(|sent| sent.who == *who).copied();
            self.held.push_back(sent)?;
        }
        Ok(())
    }

    // A message comes from outside: it is the newest of a queue, unless a receiver got it or it was lost, or it replaces the last one.
    fn take_in(&mut self, view: &ThingView) -> Result<Followed, AllocError> {
        match &view.contents {
            Contents::Queue { count, .. } => {
                if self.held.len() < *count {
                    self.held.push_back(None)?;
                }
                Ok(NOTHING)
            }
            _ => self.show(None),
        }
    }

    // Follows what is shown of the object or channel: it keeps only senders that wait, and as many messages as are held.
    fn agree_with(&mut self, view: &ThingView) -> Result<(), AllocError> {
        let senders = view.senders.as_slice();
        self.waiting.retain(|sent| is_waiting(senders, sent));
        if let Contents::Queue { count, .. } = &view.contents {
            return self.keep_count(*count);
        }
        Ok(())
    }

    // Keeps as many messages as a queue holds; the oldest are those that are forgotten or unknown.
    fn keep_count(&mut self, count: usize) -> Result<(), AllocError>
        ensures { OnOk result (length self.new.held.items ≡ count) }
    {
        'unknown: while self.held.len() < count {
            self.held.push_front(None)?;
        }
        'ended: while count < self.held.len() {
            self.held.pop_front();
        }
        Ok(())
    }
}

// Whether a sender still waits with its message.
fn is_waiting(senders: &[Waiter], sent: &Sent) -> bool {
    senders.iter().any(|waiter| waiter.who == sent.who && waiter.since == sent.place)
}

// Whether this is an object of a partition.
fn is_object_of(key: &ThingKey, part: PartId) -> bool {
    match key {
        ThingKey::Object { part: other, .. } => *other == part,
        ThingKey::Lock(_) | ThingKey::Channel(_) => false,
    }
}

// Where a message was sent, if there is a message and its sender is known.
fn known(sent: Option<Option<Sent>>) -> Option<Sent> {
    match sent {
        Some(sent) => sent,
        None => None,
    }
}

// The message that the caller receives, if it is known where it was sent.
fn received_by(sent: Option<Sent>, call: &Call, stays: bool) -> Option<Received> {
    Some(Received {
        sent: sent?,
        by: call.who,
        stays,
    })
}

// What an operation on an object does with a message, if it does anything.
fn use_of_object(operation: &ObjectOperation) -> Option<Use> {
    match operation {
        ObjectOperation::Buffer(BufferOperation::Send { .. }) => Some(Use::Sends),
        ObjectOperation::Buffer(BufferOperation::Receive { .. }) => Some(Use::Receives),
        ObjectOperation::Blackboard(BlackboardOperation::Display { .. }) => Some(Use::Shows),
        ObjectOperation::Blackboard(BlackboardOperation::Read { .. }) => Some(Use::Reads),
        ObjectOperation::Blackboard(BlackboardOperation::Clear) => Some(Use::Clears),
        ObjectOperation::Semaphore(_) | ObjectOperation::Event(_) | ObjectOperation::Mutex(_) => {
            None
        }
    }
}

// What a call does with a message, and with which object or channel.
fn used_by(call: &Call) -> Option<(ThingKey, Use)> {
    let part = call.who.part;
    let object = |kind: ObjectKind, given: i64| match u32::try_from(given) {
        Ok(number) => Some(ThingKey::Object { part, kind, number }),
        Err(_) => None,
    };
    match &call.request {
        Request::Object(number, operation) => Some((
            object(operation.kind(), *number)?,
            use_of_object(operation)?,
        )),
        Request::SamplingPort(_, operation) => Some((
            ThingKey::Channel(call.claim.chan?),
            match operation {
                SamplingOperation::Write { .. } => Use::Shows,
                SamplingOperation::Read => Use::Reads,
            },
        )),
        Request::QueuingPort(_, operation) => Some((
            ThingKey::Channel(call.claim.chan?),
            match operation {
                QueuingOperation::Send { .. } => Use::Sends,
                QueuingOperation::Receive { .. } => Use::Receives,
                QueuingOperation::Clear => Use::Empties,
            },
        )),
        _ => None,
    }
}
