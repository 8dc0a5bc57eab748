// What a log says of a run and of the outcome of its check.

/// The run that a log is of.
#[derive(Clone, Copy, Debug)]
pub struct LoggedRun<'a> {
    /// The version of the program.
    pub version: &'a str,
    /// The exit status of the program.
    pub status: u8,
    /// The folder from which files are named, as an absolute name that ends with a slash, if it is known.
    pub root: Option<&'a str>,
    /// What distinguishes the results of this run from those of other runs.
    pub id: &'a str,
}

/// The rule of a result: its identifier, what it demands, and where the documents describe it.
#[derive(Clone, Copy, Debug)]
pub struct ResultRule<'a> {
    pub id: &'a str,
    pub help: &'a str,
    pub section: &'a str,
}

/// A place in a file: the line, counted from 1, if it is known. A name that is not absolute is from the folder of the run's `root`.
#[derive(Clone, Copy, Debug)]
pub struct Location<'a> {
    pub file: &'a str,
    pub line: Option<u64>,
}

/// The one result of a check whose answer is not Yes.
#[derive(Clone, Copy, Debug)]
pub struct Finding<'a> {
    pub rule: ResultRule<'a>,
    pub message: &'a str,
    pub location: Location<'a>,
    /// What stays the same of the result if other rows are added or left out.
    pub fingerprint: &'a str,
}

/// A record before the place of a No or of a broken rule.
#[derive(Clone, Copy, Debug)]
pub struct Earlier<'a> {
    pub place: u64,
    pub core: u32,
    pub seq: u32,
    pub kind: &'static str,
    pub location: Location<'a>,
}
