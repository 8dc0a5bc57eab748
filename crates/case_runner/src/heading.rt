// What a heading says.

use crate::fields::split_word;
use apex_types::limits::MOST_CORES;
use csv_rows::read_decimal;

/// The greatest number of a line, and of repetitions.
const LAST_LINE: u64 = 1_000_000;

/// The greatest number of a setting. A check refuses smaller ones too.
const LAST_SETTING: u64 = 1_000_000;

/// What the lines of a section are.
#[derive(Clone, Copy, Debug)]
pub enum Heading<'a> {
    /// `case NAME`: a comment; the sections after it, up to the next case, belong to the case.
    Case(&'a [u8]),
    /// `config.toml`, `core0.csv` and so on, `order.csv`: a text of the check, or a change in one.
    Text(TextName, Change),
    /// `rules`: the options of the program that request rules.
    Rules,
    /// `workers N`: how many workers judge, in all checks of the case.
    Workers(usize),
    /// `depth N`: the most records of a core that wait until they are judged, in all checks of the case.
    Depth(usize),
    /// `report`: the expected line.
    Report,
    /// `last`: the lines of the last records that are expected after it.
    Last,
    /// `status`: the exit status that belongs to it.
    Status,
    /// `said`, `said of NAME..`: the words that the built program must say about it, which another test checks.
    Said,
    /// `cuts of core0.csv`: the lines that are expected if the recording of that core is cut.
    Cuts,
}

/// A text of the check, by the name of its file.
#[derive(Clone, Copy, Debug, PartialEq, Eq)]
pub enum TextName {
    /// `config.toml`
    Config,
    /// `core0.csv` and so on, by the core.
    Core(usize),
    /// `order.csv`
    Order,
}

/// What a section does to its text. Lines are counted from 0, as the records of a recording are.
#[derive(Clone, Copy, Debug, PartialEq, Eq)]
pub enum Change {
    /// Its lines are the text.
    Whole,
    /// `line N`: they replace that line.
    Line(usize),
    /// `from line N`: they replace that line and all after it.
    FromLine(usize),
    /// `N times`: they are appended to the text this many times, and each `@` in them is the number of its line.
    Times(usize),
}

impl<'a> Heading<'a> {
    /// What a heading says. None if it is none of these.
    pub fn of(heading: &'a [u8]) -> Option<Heading<'a>> {
        if heading == b"rules".as_slice() {
            return Some(Heading::Rules);
        }
        if heading == b"report".as_slice() {
            return Some(Heading::Report);
        }
        if heading == b"last".as_slice() {
            return Some(Heading::Last);
        }
        if heading == b"status".as_slice() {
            return Some(Heading::Status);
        }
        if heading == b"cuts of core0.csv".as_slice() {
            return Some(Heading::Cuts);
        }
        let (first, rest) = split_word(heading);
        if first == b"case".as_slice() {
            return Some(Heading::Case(rest));
        }
        if first == b"said".as_slice() {
            return Some(Heading::Said);
        }
        if first == b"workers".as_slice() {
            return Some(Heading::Workers(read_decimal(rest, LAST_SETTING)? as usize));
        }
        if first == b"depth".as_slice() {
            return Some(Heading::Depth(read_decimal(rest, LAST_SETTING)? as usize));
        }
        Some(Heading::Text(TextName::of(first)?, Change::of(rest)?))
    }
}

impl TextName {
    // The text of a file's name.
    fn of(name: &[u8]) -> Option<TextName> {
        if name == b"config.toml".as_slice() {
            return Some(TextName::Config);
        }
        if name == b"order.csv".as_slice() {
            return Some(TextName::Order);
        }
        let core = name.strip_prefix(b"core")?.strip_suffix(b".csv")?;
        Some(TextName::Core(read_decimal(core, MOST_CORES as u64 - 1)? as usize))
    }
}

impl Change {
    // The change of the words after a file's name.
    fn of(words: &[u8]) -> Option<Change> {
        if words.is_empty() {
            return Some(Change::Whole);
        }
        if let Some(number) = words.strip_prefix(b"line ") {
            return Some(Change::Line(read_decimal(number, LAST_LINE)? as usize));
        }
        if let Some(number) = words.strip_prefix(b"from line ") {
            return Some(Change::FromLine(read_decimal(number, LAST_LINE)? as usize));
        }
        let count = words.strip_suffix(b" times")?;
        Some(Change::Times(read_decimal(count, LAST_LINE)? as usize))
    }
}
