// Where a configuration is refused: a key of one of its tables.

ghost use Rattle.std.specs.Prelude.{◌≡◌};
ghost use Rattle.module_config.specs.Places.{text_of};

/// A key of a configuration.
#[derive(Clone, Copy, Debug, PartialEq, Eq)]
pub enum ConfigKey {
    Cores,
    Frame,
    Skew,
    Partition,
    Window,
    Sampling,
    Queuing,
    Number,
    Period,
    Processes,
    Buffers,
    Blackboards,
    Semaphores,
    Events,
    Mutexes,
    OnError,
    Core,
    Start,
    Length,
    Channel,
    Size,
    Refresh,
    Capacity,
    Outside,
    Source,
    SourceDiscipline,
    Destination,
    DestinationDiscipline,
    Destinations,
    Port,
}

/// The keys with their texts, in the order of the enum.
pub const KEYS: [(ConfigKey, &'static str); 30] = [
    (ConfigKey::Cores, "cores"),
    (ConfigKey::Frame, "frame"),
    (ConfigKey::Skew, "skew"),
    (ConfigKey::Partition, "partition"),
    (ConfigKey::Window, "window"),
    (ConfigKey::Sampling, "sampling"),
    (ConfigKey::Queuing, "queuing"),
    (ConfigKey::Number, "number"),
    (ConfigKey::Period, "period"),
    (ConfigKey::Processes, "processes"),
    (ConfigKey::Buffers, "buffers"),
    (ConfigKey::Blackboards, "blackboards"),
    (ConfigKey::Semaphores, "semaphores"),
    (ConfigKey::Events, "events"),
    (ConfigKey::Mutexes, "mutexes"),
    (ConfigKey::OnError, "on_error"),
    (ConfigKey::Core, "core"),
    (ConfigKey::Start, "start"),
    (ConfigKey::Length, "length"),
    (ConfigKey::Channel, "channel"),
    (ConfigKey::Size, "size"),
    (ConfigKey::Refresh, "refresh"),
    (ConfigKey::Capacity, "capacity"),
    (ConfigKey::Outside, "outside"),
    (ConfigKey::Source, "source"),
    (ConfigKey::SourceDiscipline, "source_discipline"),
    (ConfigKey::Destination, "destination"),
    (ConfigKey::DestinationDiscipline, "destination_discipline"),
    (ConfigKey::Destinations, "destinations"),
    (ConfigKey::Port, "port"),
];

impl ConfigKey {
    /// The text of the key, as a configuration gives it.
    #[tactic(auto, unfolding(crate::specs::Places::text_of))]
    pub fn text(self) -> &'static str
        ensures { result.now ≡ text_of self }
    {
        let row = &KEYS[self as usize];
        row.1
    }
}

/// A table of a configuration, by the lists that lead to it. Each index counts from 0, in the order of the text.
#[derive(Clone, Copy, Debug, PartialEq, Eq)]
pub enum ConfigTable {
    /// The table of the module, which is the whole text.
    Module,
    /// A table of one of the module's lists, which are `partition`, `window`, `sampling` and `queuing`.
    Item {
        list: ConfigKey,
        index: usize,
    },
    /// An end of a channel, the table under its `source` or `destination`.
    End {
        list: ConfigKey,
        index: usize,
        end: ConfigKey,
    },
    /// One of the `destinations` of a sampling channel.
    Destination {
        channel: usize,
        index: usize,
    },
}

/// A key of one table of a configuration.
#[derive(Clone, Copy, Debug, PartialEq, Eq)]
pub struct ConfigPlace {
    pub table: ConfigTable,
    pub key: ConfigKey,
}
