// The kinds of rows.

ghost use Rattle.std.specs.Prelude.{◌≡◌};
ghost use Rattle.record_read.specs.Named.{kind_since};

use apex_types::Format;

/// What a row records.
#[derive(Clone, Copy, Debug, PartialEq, Eq)]
pub enum Kind {
    /// A call of a service.
    Call,
    /// The return of a service.
    Ret,
    /// A dispatch of a core.
    Disp,
    /// A tick of a core's time.
    Tick,
    /// A message that arrives from outside the module.
    Arrive,
    /// A message that departs to the outside.
    Depart,
    /// An error of a process.
    Error,
}

impl Kind {
    /// The first format of recordings that has such rows.
    pub fn since(self) -> Format
        ensures { result ≡ kind_since self }
    {
        match self {
            Kind::Call | Kind::Ret | Kind::Disp | Kind::Tick => Format::One,
            Kind::Arrive | Kind::Depart | Kind::Error => Format::Three,
        }
    }
}
