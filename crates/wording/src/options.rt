// The options of the programs.

/// An option of a program.
#[derive(Clone, Copy, Debug)]
pub struct ProgramOption {
    /// Its name, with the hyphens.
    pub name: &'static str,
    /// What its value is.
    pub takes: Takes,
    /// Whether a command line may omit it, or have others beside it.
    pub need: Need,
}

/// Whether a command line may omit an option, or have others beside it.
#[derive(Clone, Copy, Debug, PartialEq, Eq)]
pub enum Need {
    /// It may be omitted.
    Optional,
    /// It may be omitted only where an option is alone.
    Required,
    /// It must be the only option.
    Alone,
}

/// What the value of an option is.
#[derive(Clone, Copy, Debug)]
pub enum Takes {
    /// It has none.
    Nothing,
    /// The name of a file.
    File,
    /// A number.
    Number(Bounds),
    /// The name of a service.
    Service,
    /// One of these words.
    OneOf(&'static [&'static str]),
}

/// The numbers that the value of an option may be.
#[derive(Clone, Copy, Debug)]
pub struct Bounds {
    /// What the number is, such as `number of ticks`.
    pub what: &'static str,
    /// The least.
    pub least: u64,
    /// The greatest.
    pub most: u64,
}

/// The option that requests the version. It must be the only argument.
pub const VERSION: &str = "--version";

/// The option that requests the help.
pub const HELP: &str = "--help";

/// The short name of that option.
pub const SHORT_HELP: &str = "-h";

// A row of a table: an option, and what its value is. One that is required, or that must be the only one, is marked.
macro_rules! row {
    ($name:literal, $takes:expr) => {
        ProgramOption {
            name: $name,
            takes: $takes,
            need: Need::Optional,
        }
    };
    (required $name:literal, $takes:expr) => {
        ProgramOption {
            name: $name,
            takes: $takes,
            need: Need::Required,
        }
    };
    (alone $name:literal, $takes:expr) => {
        ProgramOption {
            name: $name,
            takes: $takes,
            need: Need::Alone,
        }
    };
}

// A number of this kind within these bounds.
macro_rules! number {
    ($what:literal, $least:expr, $most:expr) => {
        Takes::Number(Bounds {
            what: $what,
            least: $least,
            most: $most,
        })
    };
}

/// The greatest number of 32 bits.
const MOST: u64 = 4_294_967_295;

/// The greatest place.
const LAST_PLACE: u64 = 4_611_686_018_427_387_903;

/// The options of `apexcheck`.
pub static CHECK_OPTIONS: [ProgramOption; 14] = [
    row!(required "--config", Takes::File),
    row!(required "--order", Takes::File),
    row!(required "--workers", number!("number", 1, 64)),
    row!("--depth", number!("number", 1, 4_096)),
    row!("--max-elapsed", number!("number of ticks", 0, MOST)),
    row!("--forbid", Takes::Service),
    row!("--rules", Takes::File),
    row!("--at-least", number!("number of records", 0, MOST)),
    row!("--sarif", Takes::File),
    row!("--source-root", Takes::File),
    row!("--json", Takes::File),
    row!("--last", Takes::Nothing),
    row!("--quiet", Takes::Nothing),
    row!(alone "--rows", Takes::Nothing),
];

/// The options of `apexorder`.
pub static ORDER_OPTIONS: [ProgramOption; 6] = [
    row!(required "--config", Takes::File),
    row!("--effort", number!("number", 0, MOST)),
    row!("--max-elapsed", number!("number of ticks", 0, MOST)),
    row!("--forbid", Takes::Service),
    row!("--rules", Takes::File),
    row!("--quiet", Takes::Nothing),
];

/// The options of `apexview`.
pub static VIEW_OPTIONS: [ProgramOption; 9] = [
    row!(required "--config", Takes::File),
    row!(required "--order", Takes::File),
    row!(
        "--format",
        Takes::OneOf(&["html", "svg", "trace", "summary", "json"])
    ),
    row!("--axis", Takes::OneOf(&["place", "time"])),
    row!("--at", number!("number", 0, LAST_PLACE)),
    row!("--span", number!("number", 1, 5_000)),
    row!("--max-elapsed", number!("number of ticks", 0, MOST)),
    row!("--forbid", Takes::Service),
    row!("--rules", Takes::File),
];

/// The options of `apexmake`.
pub static MAKE_OPTIONS: [ProgramOption; 7] = [
    row!(required "--config", Takes::File),
    row!(required "--seed", number!("number", 0, MOST)),
    row!(required "--records", number!("number of records", 1, MOST)),
    row!(required "--out", Takes::File),
    row!("--format", Takes::OneOf(&["1", "2", "3"])),
    row!(
        "--spoil",
        Takes::OneOf(&[
            "Names",
            "Skew",
            "Idle",
            "Window",
            "Deadline",
            "Choice",
            "Return",
            "OutsideProfile",
            "Prio",
            "Chan",
            "Out",
            "Val",
            "Data",
            "Woken"
        ])
    ),
    row!(alone "--module", number!("number", 0, MOST)),
];
