// The rule of a channel: what was sent is what was received, and then what it holds.

use crate::batch::Batch;
use crossbeam_channel::protocol::{Join, Lesson, Outcome, Protocol, Split};
use crossbeam_channel::{Pass, RuledReceiver, RuledSender};
use std::collections::LinkedList;

/// What a pass may do, what was sent by it and what was received. No value of this type is made.
pub struct Log {
    pub sends: bool,
    pub receives: bool,
    pub sent: LinkedList<Batch>,
    pub received: LinkedList<Batch>,
}

/// Batches come in the order in which they were sent, each once.
pub struct InOrder;

impl Protocol<Batch, Log> for InOrder {
    ghost use Rattle.std.specs.Prelude.{true, []};
    ghost use Rattle.core_intake.specs.Relay.{log, IsRelayed};

    ghost holds = { IsRelayed };

    ghost first = { log true true [] [] };
}

/// One pass sends, the other receives.
pub struct Roles;

impl Split<Log> for Roles {
    ghost use Rattle.std.specs.Prelude.{true, false, []};
    ghost use Rattle.core_intake.specs.Relay.{log};

    ghost left = { λ pass. log true false pass.sent [] };

    ghost right = { λ pass. log false true [] pass.received };
}

impl Join<Log> for Roles {
    ghost use Rattle.std.specs.Prelude.{true, false, []};
    ghost use Rattle.core_intake.specs.Relay.{log};

    ghost both = { λ sender receiver. log true true sender.sent receiver.received };

    ghost spent = { log false false [] [] };
}

/// A send adds its batch to what was sent.
pub struct Sends;

impl Outcome<Batch, Log> for Sends {
    ghost use Rattle.std.specs.Prelude.{◌≡◌, ◌++◌, ◌∷◌, []};
    ghost use Rattle.core_intake.specs.Relay.{log};

    ghost then = { λ old batch new. new ≡ log old.sends old.receives (old.sent ++ batch ∷ []) old.received };
}

impl Lesson<Batch, Log> for Sends {
    ghost use Rattle.std.specs.Prelude.{⊤};

    ghost fact = { λ pass batches. ⊤ };
}

/// A receive adds its batch to what was received.
pub struct Receives;

impl Outcome<Batch, Log> for Receives {
    ghost use Rattle.std.specs.Prelude.{◌≡◌, ◌++◌, ◌∷◌, []};
    ghost use Rattle.core_intake.specs.Relay.{log};

    ghost then = { λ old batch new. new ≡ log old.sends old.receives old.sent (old.received ++ batch ∷ []) };
}

impl Lesson<Batch, Log> for Receives {
    ghost use Rattle.std.specs.Prelude.{⊤};

    ghost fact = { λ pass batches. ⊤ };
}

/// Both sides together know what the channel holds.
pub struct Total;

impl Lesson<Batch, Log> for Total {
    ghost use Rattle.std.specs.Prelude.{◌≡◌, ◌++◌};

    ghost fact = { λ pass batches. pass.sent ≡ pass.received ++ batches };
}

/// The reader's end of a channel.
pub type Sender = RuledSender<Batch, Log, InOrder>;

/// The other end of it.
pub type Receiver = RuledReceiver<Batch, Log, InOrder>;

/// What an end knows.
pub type Side = Pass<Batch, Log>;
