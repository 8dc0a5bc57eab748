// The formats of a recording.

ghost use Rattle.std.specs.Prelude.{◌≡◌};
ghost use Rattle.apex_types.specs.Format.{field_count, format_number};
ghost use Rattle.apex_types.specs.Services.{is_in};

use crate::service::Service;

/// The format of a recording, which its first row gives.
#[derive(Clone, Copy, Debug, PartialEq, Eq)]
pub enum Format {
    /// Each row has sixteen fields.
    One,
    /// Each row has eighteen fields: a second and a third value come after the others. Rows can name the services that report the number or
    /// the status of an object or a port too.
    Two,
    /// Each row has nineteen fields: an error comes after the others. Rows can name all services, and there are rows of messages that pass
    /// an end outside the module.
    Three,
}

impl Format {
    /// Its number, from 1 on.
    pub fn number(self) -> u8
        ensures { result ≡ format_number self }
    {
        match self {
            Format::One => 1,
            Format::Two => 2,
            Format::Three => 3,
        }
    }

    /// How many fields each row has.
    pub fn field_count(self) -> usize
        ensures { result ≡ field_count self }
    {
        match self {
            Format::One => 16,
            Format::Two => 18,
            Format::Three => 19,
        }
    }

    /// Whether its rows can name this service.
    pub fn names(self, service: Service) -> bool
        ensures { result ≡ is_in self service }
    {
        service.since().number() <= self.number()
    }
}
