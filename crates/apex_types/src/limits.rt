// The limits of the numbers in a recording, an order, a configuration, a check and a rules file. Each has one name, which contracts,
// definitions and code cite.

// Recordings and orders.

/// A module has at most this many cores.
pub const MOST_CORES: usize = 16;

/// A recording has at most this many records.
pub const MOST_RECORDS: u32 = 4_294_967_295;

/// The number of places of an order: those of the most cores, with the most records each.
pub const PLACE_COUNT: u64 = MOST_CORES as u64 * MOST_RECORDS as u64;

/// The greatest number of a process, an object or a port.
pub const GREATEST_NUMBER: u32 = 2_147_483_647;

/// The greatest priority of a process.
pub const GREATEST_PRIORITY: u8 = 239;

/// A name has at most this many bytes.
pub const LONGEST_NAME: usize = 32;

/// A message has at most this many bytes.
pub const LONGEST_MESSAGE: usize = 8_192;

/// A message to the maintenance has at most this many bytes.
pub const LONGEST_REPORT: usize = 128;

/// A buffer or a queuing channel holds at most this many messages.
pub const MOST_MESSAGES: usize = 1_024;

/// The greatest level of the lock of a partition (MAX_LOCK_LEVEL).
pub const GREATEST_LOCK_LEVEL: u8 = 16;

/// The greatest maximum of a semaphore.
pub const GREATEST_MAXIMUM: u32 = 32_767;

/// The latest deadline of a process: the greatest number that a status can report.
pub const LATEST_DEADLINE: u64 = 9_223_372_036_854_775_807;

// Configurations.

/// A configuration file has at most this many bytes.
pub const LONGEST_CONFIGURATION: usize = 1_048_576;

/// The greatest number of a partition.
pub const GREATEST_PARTITION: u8 = 31;

/// A module has at most this many partitions.
pub const MOST_PARTITIONS: usize = 32;

/// The greatest number of a channel.
pub const GREATEST_CHANNEL: u16 = 255;

/// A module has at most this many channels, of both kinds together.
pub const MOST_CHANNELS: usize = 256;

/// A sampling channel has at most this many destinations.
pub const MOST_DESTINATIONS: usize = 32;

/// A module has at most this many windows.
pub const MOST_WINDOWS: usize = 4_096;

/// A partition has at most this many created processes.
pub const MOST_PROCESSES: u32 = 128;

/// A partition has at most this many objects of each kind.
pub const MOST_OBJECTS: u32 = 64;

/// A partition has at most this many ports of each kind.
pub const MOST_PORTS: usize = 64;

/// A partition has at most this many errors that its handler has not taken yet.
pub const MOST_ERRORS: usize = 128;

/// The greatest period, major frame, skew or window length that may be configured, in ticks.
pub const GREATEST_SPAN: u32 = 4_294_967_295;

// Checks.

/// The greatest number that an option of the command line accepts.
pub const GREATEST_OPTION: u32 = 4_294_967_295;

/// At most this many workers judge.
pub const MOST_WORKERS: usize = 64;

/// A recording is read ahead by at most this many records.
pub const GREATEST_DEPTH: usize = 4_096;

/// A round has at most this many records.
pub const LARGEST_ROUND: usize = 4_096;

// Rules files.

/// A rules file has at most this many bytes.
pub const LONGEST_RULES_FILE: usize = 1_048_576;

/// A rules file has at most this many rules.
pub const MOST_RULES: usize = 1_024;

/// The name of a rule has at most this many bytes.
pub const LONGEST_RULE_NAME: usize = 64;

/// A relation has at most this many levels.
pub const MOST_LEVELS: usize = 16;

/// A list of a relation has at most this many relations.
pub const MOST_RELATIONS: usize = 64;
