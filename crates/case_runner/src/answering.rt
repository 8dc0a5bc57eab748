// What a check answers for texts in memory.

ghost use Rattle.std.specs.Prelude.{◌≡◌, ◌↔◌, ◌++◌, ◌∷◌, [], IfOk, IfSome, IsTrue, Some, length, map, option_map};
ghost use Rattle.std.specs.Io.Cursor.{cursor_remaining};
ghost use Rattle.report.specs.Text.{report_of};
ghost use Rattle.case_runner.specs.Answers.{IsReportOf, IsWanted, texts_of, reported_by, wanted_by};

use crate::fields::LINE_FEED;
use crate::manner::Manner;
use asked_rules::{RuleOption, relations_of};
use report::{
    CheckFault, Inputs, Last, Nobody, Open, Options, Verdict, check_relations, status_of_outcome,
    write_last, write_report,
};
use sink::{FailureCount, Sink, SinkFault};
use std::alloc::{AllocError, Global};
use std::io::Cursor;
use std::sync::Wait;
use std::thread::Threads;

/// The texts of a check: the configuration, one recording for each core and the certificate; and the options that request its rules.
#[derive(Clone, Copy, Debug)]
pub struct Texts<'a> {
    pub config: &'a [u8],
    pub recordings: &'a [Vec<u8>],
    pub order: &'a [u8],
    pub options: &'a [RuleOption],
}

/// What a check reported.
#[derive(Debug, Drop)]
pub struct Answer {
    /// The line of the report, without its line feed.
    pub line: Vec<u8>,
    /// The lines of the last records, each with its line feed.
    pub last: Vec<u8>,
    /// The exit status that belongs to it.
    pub status: u64,
}

/// The expected line, without its line feed, the lines of the last records if a case names them, each with its line feed, and the exit
/// status that belongs to it.
#[derive(Clone, Copy, Debug)]
pub struct Expected<'a> {
    pub line: &'a [u8],
    pub last: Option<&'a [u8]>,
    pub status: u64,
}

impl Answer {
    /// Whether the answer is the expected one.
    pub fn is(&self, expected: Expected<'_>) -> bool
        ensures { IsTrue result ↔ IsWanted (reported_by self.now.line.items self.now.last.items self.now.status) (wanted_by expected.entry.line.now (option_map (λ lines. lines.now) expected.entry.last) expected.entry.status) }
    {
        self.line.as_slice() == expected.line
            && has_lines(&self.last, expected.last)
            && self.status == expected.status
    }
}

// Whether these are the expected lines, if lines are expected.
fn has_lines(lines: &[u8], expected: Option<&[u8]>) -> bool
    ensures { IsTrue result ↔ IfSome (option_map (λ wanted. wanted.now) expected.entry) (λ wanted. lines.now ≡ wanted) }
{
    match expected {
        Some(wanted) => lines == wanted,
        None => true,
    }
}

/// The answer of the check for these texts, run in this way.
pub fn answer_to<T>(
    rt: T,
    alloc: Global,
    texts: Texts<'_>,
    manner: Manner,
) -> Result<Answer, AllocError>
where
    T: Threads + Wait + Sync + Copy + Send + 'static,
    ensures { IfOk result (λ answer. IsReportOf manner.settings (texts_of texts.entry.config.now (map (λ recording. recording.items) texts.entry.recordings.now) texts.entry.order.now) texts.entry.options.now (reported_by answer.line.items answer.last.items answer.status)) }
{
    let readers = readers_of(alloc, texts.recordings)?;
    let relations = relations_of(alloc, texts.options)?;
    let Ok(mut last) = Last::new(alloc) else {
        return Err(AllocError);
    };
    let inputs = Inputs::new(texts.config, readers, texts.order);
    let options = Options::new(manner.settings, &Open).in_rounds(manner.rounds.size());
    let outcome = check_relations(
        rt,
        alloc,
        inputs,
        &[],
        relations,
        options,
        &mut last,
        &mut Nobody,
    );
    let mut lines = Kept::new(alloc);
    let Ok(()) = write_last(&mut lines, &last) else {
        return Err(AllocError);
    };
    Ok(Answer {
        line: line_of(alloc, &outcome)?,
        last: lines.taken,
        status: u64::from(status_of_outcome(&outcome)),
    })
}

/// The line that reports an outcome, without its line feed.
pub fn line_of(alloc: Global, outcome: &Result<Verdict, CheckFault>) -> Result<Vec<u8>, AllocError>
    ensures { IfOk result (λ line. line.items ++ 10 ∷ [] ≡ report_of outcome.now) }
{
    let mut report = Kept::new(alloc);
    let Ok(()) = write_report(&mut report, outcome) else {
        return Err(AllocError);
    };
    let mut line = report.taken;
    match line.pop() {
        Some(LINE_FEED) => Ok(line),
        // No report lacks its line feed.
        _ => Err(AllocError),
    }
}

/// A reader for each recording, which gives a copy of its bytes.
pub fn readers_of(alloc: Global, recordings: &[Vec<u8>]) -> Result<Vec<Cursor<Vec<u8>>>, AllocError>
    ensures count { IfOk result (λ readers. length readers.items ≡ length recordings.now) }
    ensures bytes { IfOk result (λ readers. map (λ reader. cursor_remaining (λ text. Some text.items) reader) readers.items ≡ map Some (map (λ recording. recording.items) recordings.now)) }
{
    let mut readers = Vec::new(alloc);
    for recording in recordings {
        readers.push(reader_of(alloc, recording)?)?;
    }
    Ok(readers)
}

// A reader that gives a copy of a recording's bytes.
fn reader_of(alloc: Global, recording: &[u8]) -> Result<Cursor<Vec<u8>>, AllocError>
    ensures { IfOk result (λ reader. cursor_remaining (λ text. Some text.items) reader ≡ Some recording.now) }
{
    Ok(Cursor::new(Vec::from_slice(alloc, recording)?))
}

// A sink that keeps what it takes.
#[derive(Drop)]
struct Kept {
    taken: Vec<u8>,
    failures: FailureCount,
}

impl Kept {
    fn new(alloc: Global) -> Kept
        ensures { result.taken.items ≡ [] }
    {
        Kept {
            taken: Vec::new(alloc),
            failures: FailureCount::new(),
        }
    }
}

impl Sink for Kept {
    ghost bytes = { λ s. Some s.taken.items };

    ghost failures = { λ s. s.failures.count };

    fn put(&mut self, piece: &[u8]) -> Result<usize, SinkFault> {
        if self.taken.extend_from_slice(piece).is_err() {
            self.failures = self.failures.raised();
            return Err(SinkFault);
        }
        Ok(piece.len())
    }
}
