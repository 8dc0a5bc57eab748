// What is written of an answer.

/// The answer of a check, with what explains it and what it is about.
#[derive(Clone, Copy)]
pub struct Answer<'a> {
    /// The version of the program.
    pub version: &'a str,
    /// The line of the answer, without its line feed.
    pub line: &'a str,
    /// The exit status of the program.
    pub status: u8,
    pub summary: Summary<'a>,
    /// Where the answer is, unless it is about the whole run.
    pub site: Option<&'a Site<'a>>,
    pub explanation: &'a [Sentence<'a>],
    /// The last records before the place of a No or of a broken rule, the earliest first.
    pub last: &'a [LastRecord<'a>],
    pub inputs: &'a [Input<'a>],
    pub options: Options<'a>,
}

/// What the line of an answer says.
#[derive(Clone, Copy, Debug)]
pub struct Summary<'a> {
    /// `YES`, `NO`, `REFUSED` or `MEMORY`.
    pub outcome: &'static str,
    /// What the answer rests on: the cause, the broken rule or the fault.
    pub id: Option<&'a str>,
    /// The name of the cause or of the fault.
    pub cause: Option<&'a str>,
    /// How many records were accepted, in the proposed order.
    pub records: Option<u64>,
    pub place: Option<u64>,
    pub piece: Option<u64>,
    /// The number of a broken or refused rule, counted from 0.
    pub rule: Option<u64>,
}

/// A place in a file: its line, counted from 1, and its row, if they are found.
#[derive(Drop)]
pub struct Site<'a> {
    pub file: &'a str,
    pub line: Option<u64>,
    pub row: Option<Row>,
}

/// A row of a recording or of the certificate: its number, counted from 0, and the texts of its fields.
#[derive(Drop)]
pub struct Row {
    pub number: u64,
    pub fields: Vec<String>,
}

/// A sentence, with the places that it names.
#[derive(Drop)]
pub struct Sentence<'a> {
    pub text: String,
    pub places: Vec<NamedPlace<'a>>,
}

/// A place of the proposed order, with the file and the line of its record.
#[derive(Clone, Copy, Debug)]
pub struct NamedPlace<'a> {
    pub place: u64,
    pub file: &'a str,
    pub line: Option<u64>,
}

/// A record before the place of an answer.
#[derive(Clone, Copy, Debug)]
pub struct LastRecord<'a> {
    pub place: u64,
    pub core: u32,
    pub seq: u32,
    pub kind: &'static str,
    pub file: &'a str,
    pub line: Option<u64>,
}

/// An input file, by its name on the command line, and what it holds if it can be read again.
#[derive(Drop)]
pub struct Input<'a> {
    /// `config`, `rules`, `order` or `core`.
    pub role: &'static str,
    pub name: &'a str,
    pub content: Option<Digest>,
}

/// How many bytes a text has, and their SHA-256 in hexadecimal digits.
#[derive(Drop)]
pub struct Digest {
    pub bytes: u64,
    pub sha256: String,
}

/// The options of the command line that the answer depends on.
#[derive(Clone, Copy)]
pub struct Options<'a> {
    /// Those that request rules, with their values.
    pub rules: &'a [String],
    /// How many records a Yes must have.
    pub at_least: Option<u64>,
}
