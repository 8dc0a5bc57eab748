// Numbers of cores, partitions, processes, channels and places. A contract sees each as its number.

ghost use Rattle.std.specs.Prelude.{◌≡◌, ◌<◌, ℕ};
ghost use Rattle.apex_types.specs.declared.limits.TheConstants.{PLACE_COUNT};

use std::marker::Model;

/// A core of the module, numbered from 0.
#[derive(Clone, Copy, Debug, PartialEq, Eq, PartialOrd, Ord, Hash)]
pub struct CoreId(u8);

impl Model for CoreId {
    ghost use Rattle.std.specs.Prelude.{ℕ};

    ghost Value = { ℕ };

    ghost view = { λ core. core.0 };

    ghost inverse = { λ number. record { 0 = number } };
}

impl CoreId {
    /// The core of this number.
    pub fn new(number: u8) -> CoreId
        ensures { result ≡ number }
    {
        CoreId(number)
    }

    /// The number of the core.
    pub fn number(self) -> u8
        ensures { result ≡ self }
    {
        self.0
    }
}

/// A partition, by the number that the configuration gives it.
#[derive(Clone, Copy, Debug, PartialEq, Eq, PartialOrd, Ord, Hash)]
pub struct PartId(u8);

impl Model for PartId {
    ghost use Rattle.std.specs.Prelude.{ℕ};

    ghost Value = { ℕ };

    ghost view = { λ partition. partition.0 };

    ghost inverse = { λ number. record { 0 = number } };
}

impl PartId {
    /// The partition of this number.
    pub fn new(number: u8) -> PartId
        ensures { result ≡ number }
    {
        PartId(number)
    }

    /// The number of the partition.
    pub fn number(self) -> u8
        ensures { result ≡ self }
    {
        self.0
    }
}

/// A process, by its number in its partition. Number 0 is the initialising process.
#[derive(Clone, Copy, Debug, PartialEq, Eq, PartialOrd, Ord, Hash)]
pub struct ProcId(u32);

impl Model for ProcId {
    ghost use Rattle.std.specs.Prelude.{ℕ};

    ghost Value = { ℕ };

    ghost view = { λ process. process.0 };

    ghost inverse = { λ number. record { 0 = number } };
}

impl ProcId {
    /// The process of this number.
    pub fn new(number: u32) -> ProcId
        ensures { result ≡ number }
    {
        ProcId(number)
    }

    /// The number of the process.
    pub fn number(self) -> u32
        ensures { result ≡ self }
    {
        self.0
    }
}

/// A channel, by the number that the configuration gives it.
#[derive(Clone, Copy, Debug, PartialEq, Eq, PartialOrd, Ord, Hash)]
pub struct ChanId(u16);

impl Model for ChanId {
    ghost use Rattle.std.specs.Prelude.{ℕ};

    ghost Value = { ℕ };

    ghost view = { λ channel. channel.0 };

    ghost inverse = { λ number. record { 0 = number } };
}

impl ChanId {
    /// The channel of this number.
    pub fn new(number: u16) -> ChanId
        ensures { result ≡ number }
    {
        ChanId(number)
    }

    /// The number of the channel.
    pub fn number(self) -> u16
        ensures { result ≡ self }
    {
        self.0
    }
}

/// A place in the proposed order, from 0. It is below the number of records of the most cores with the most records each.
#[derive(Clone, Copy, Debug, PartialEq, Eq, PartialOrd, Ord, Hash)]
pub struct Place(u64);

impl Model for Place {
    ghost use Rattle.std.specs.Prelude.{ℕ, ◌<◌};
    ghost use Rattle.apex_types.specs.declared.limits.TheConstants.{PLACE_COUNT};

    ghost Value = { ℕ };

    ghost view = { λ place. place.0 };

    ghost invariant = { λ place. place.0 < PLACE_COUNT };

    ghost inverse = { λ number. record { 0 = number } };
}

impl Place {
    /// The place of this number.
    pub fn new(number: u64) -> Place
        requires { number < PLACE_COUNT }
        ensures { result ≡ number }
    {
        Place(number)
    }

    /// The number of the place.
    pub fn number(self) -> u64
        ensures number { result ≡ self }
        ensures bound { result < PLACE_COUNT }
    {
        self.0
    }
}
