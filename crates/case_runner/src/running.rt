// The run of the cases of some files.

ghost use Rattle.std.specs.Prelude.{◌≡◌, ◌++◌, IfOk, is_some, map, option_map};
ghost use Rattle.case_runner.specs.Answers.{IsCompared, texts_of, wanted_by};

use crate::answering::{Answer, Expected, Texts, answer_to};
use crate::archive::{Section, sections};
use crate::case::{Case, CaseFault, Cut};
use crate::heading::Heading;
use crate::manner::{Manner, Named, Rounds};
use crate::plain::answer_at_once;
use crate::rewriting::in_format_2;
use crate::tally::Tally;
use itoa::Buffer;
use sink::{Sink, WriteFault, put_all, put_parts};
use std::alloc::{AllocError, Global};
use std::fs;
use std::rt::Files;
use std::sync::Wait;
use std::thread::Threads;

/// Why a run ends before its last case.
#[derive(Clone, Copy, Debug, PartialEq, Eq)]
pub enum RunFault {
    /// A report could not be written.
    Unwritten,
    /// Memory was refused.
    Memory,
}

/// Runs the cases of these files. Reports each case that fails and why, and finally how many there were.
///
/// Whether there was a case, and all were answered as expected.
pub fn run_files<R, W>(rt: R, output: &mut W, names: &[String]) -> Result<bool, RunFault>
where
    R: Files + AllocGlobal + Threads + Wait + Sync + Copy + Send + 'static,
    W: Sink,
{
    let mut tally = Tally::new();
    for name in names {
        match fs::read(&rt, name) {
            Ok(archive) => run_archive(
                rt,
                rt.alloc(),
                output,
                name.as_bytes(),
                &archive,
                &mut tally,
            )?,
            Err(_) => {
                tally.count(false);
                put_parts(output, &[name.as_bytes(), b": cannot be read\n"])?;
            }
        }
    }
    let (mut cases, mut failed) = (Buffer::new(), Buffer::new());
    put_parts(
        output,
        &[
            cases.format(tally.cases).as_bytes(),
            b" cases, ",
            failed.format(tally.failed).as_bytes(),
            b" failed\n",
        ],
    )?;
    Ok(tally.is_good())
}

// Runs the cases of one archive.
fn run_archive<T, W>(
    rt: T,
    alloc: Global,
    output: &mut W,
    file: &[u8],
    archive: &[u8],
    tally: &mut Tally,
) -> Result<(), RunFault>
where
    T: Threads + Wait + Sync + Copy + Send + 'static,
    W: Sink,
{
    let sections = sections(alloc, archive)?;
    let (base, mut left) = up_to_case(&sections);
    if left.is_empty() {
        tally.count(false);
        put_parts(output, &[file, b": has no case\n"])?;
    }
    while let Some((first, after)) = left.split_first() {
        let (own, rest) = up_to_case(after);
        let outcome = run_case(rt, alloc, base, own);
        tally.count(matches!(outcome, Ok(None)));
        put_outcome(output, &[file, b": ", first.heading, b": "], outcome)?;
        left = rest;
    }
    Ok(())
}

// The sections before the first case, and those from there on.
fn up_to_case<'a, 'b>(sections: &'b [Section<'a>]) -> (&'b [Section<'a>], &'b [Section<'a>])
    ensures { sections.now ≡ result.0.now ++ result.1.now }
{
    match sections.iter().position(|section| is_case(section)) {
        Some(at) => sections.split_at(at),
        None => sections.split_at(sections.len()),
    }
}

// Whether a section begins a case.
fn is_case(section: &Section<'_>) -> bool {
    matches!(Heading::of(section.heading), Some(Heading::Case(_)))
}

// An answer that is not the expected one.
#[derive(Drop)]
struct Difference<'a> {
    // After how many bytes the recording was cut.
    cut: Option<usize>,
    // Whether the recordings were written in format 2.
    is_rewritten: bool,
    how: How,
    expected: Expected<'a>,
    found: Answer,
}

// The call that gave an answer.
#[derive(Clone, Copy)]
enum How {
    // The check, run in this manner.
    Checked(Manner),
    // The verdict over all records at once.
    AtOnce,
}

// Runs a case: the sections with which all cases of its file begin, and its own.
fn run_case<'a, T>(
    rt: T,
    alloc: Global,
    base: &[Section<'a>],
    own: &[Section<'a>],
) -> Result<Option<Difference<'a>>, CaseFault>
where
    T: Threads + Wait + Sync + Copy + Send + 'static,
{
    let mut case = Case::new(alloc);
    for section in base {
        case.take(*section)?;
    }
    for section in own {
        case.take(*section)?;
    }
    let order = case.order_text()?;
    let rules = case.rules()?;
    let trial = Trial {
        rt,
        alloc,
        texts: Texts {
            config: case.config(),
            recordings: case.recordings(),
            order: &order,
            options: &rules,
        },
        named: case.named(),
        cut: None,
        is_rewritten: false,
    };
    if let Some(expected) = case.expected()? {
        if let Some(difference) = trial.difference(expected)? {
            return Ok(Some(difference));
        }
    }
    run_cuts(trial, &case.cuts()?)
}

// Runs a case for each first part of the recording of core 0.
fn run_cuts<'a, T>(
    whole: Trial<'_, T>,
    cuts: &[Cut<'a>],
) -> Result<Option<Difference<'a>>, CaseFault>
where
    T: Threads + Wait + Sync + Copy + Send + 'static,
{
    let Some(last) = cuts.last() else {
        return Ok(None);
    };
    let recording = whole.texts.recordings.first().ok_or(CaseFault::NoCuts)?;
    if last.bytes > recording.len() {
        return Err(CaseFault::NoCuts);
    }
    // There are many of them, and threads take time.
    let named = whole.named.by_one_worker();
    for bytes in 0..recording.len() + 1 {
        let expected = cuts
            .iter()
            .filter(|cut| cut.bytes <= bytes)
            .last()
            .ok_or(CaseFault::NoCuts)?
            .expected;
        let alloc = whole.alloc;
        let cut = vec![in alloc; Vec::from_slice(alloc, &recording[..bytes])?]?;
        let trial = Trial {
            texts: Texts {
                recordings: &cut,
                ..whole.texts
            },
            named,
            cut: Some(bytes),
            ..whole
        };
        if let Some(difference) = trial.difference(expected)? {
            return Ok(Some(difference));
        }
    }
    Ok(None)
}

// A check of texts with the settings that the case names. The recording may be cut after a number of bytes.
#[derive(Clone, Copy)]
struct Trial<'b, T> {
    rt: T,
    alloc: Global,
    texts: Texts<'b>,
    named: Named,
    cut: Option<usize>,
    is_rewritten: bool,
}

impl<'b, T: Threads + Wait + Sync + Copy + Send + 'static> Trial<'b, T> {
    // The first answer that is not the expected one: with the recordings as written, in rounds of each size, and in format 2; and over all
    // records at once.
    fn difference<'a>(&self, expected: Expected<'a>) -> Result<Option<Difference<'a>>, AllocError> {
        for rounds in [Rounds::OfOne, Rounds::OfSeven, Rounds::OfMost] {
            if let Some(difference) = self.difference_in(rounds, expected)? {
                return Ok(Some(difference));
            }
        }
        let rewritten = in_format_2(self.alloc, self.texts.recordings)?;
        let trial = Trial {
            texts: Texts {
                recordings: &rewritten,
                ..self.texts
            },
            named: self.named.by_one_worker(),
            is_rewritten: true,
            ..*self
        };
        if let Some(difference) = trial.difference_in(Rounds::OfMost, expected)? {
            return Ok(Some(difference));
        }
        self.difference_at_once(expected)
    }

    // The answer in these rounds, if it is not the expected one.
    fn difference_in<'a>(
        &self,
        rounds: Rounds,
        expected: Expected<'a>,
    ) -> Result<Option<Difference<'a>>, AllocError>
        ensures { IfOk result (λ difference. IsCompared self.now.named (texts_of self.now.texts.config.now (map (λ recording. recording.items) self.now.texts.recordings.now) self.now.texts.order.now) self.now.texts.options.now (wanted_by expected.entry.line.now (option_map (λ lines. lines.now) expected.entry.last) expected.entry.status) (is_some difference)) }
    {
        let manner = self.named.in_rounds(rounds);
        let found = answer_to(self.rt, self.alloc, self.texts, manner)?;
        if found.is(expected) {
            return Ok(None);
        }
        Ok(Some(self.differing(How::Checked(manner), expected, found)))
    }

    // The verdict over all records at once, if it is not the expected one. If the input is expected to be refused, no verdict is asked for,
    // since it would say nothing about that. It leaves no last records.
    fn difference_at_once<'a>(
        &self,
        expected: Expected<'a>,
    ) -> Result<Option<Difference<'a>>, AllocError> {
        if expected.status > 1 {
            return Ok(None);
        }
        let found = answer_at_once(self.rt, self.alloc, self.texts)?;
        let wanted = Expected {
            last: None,
            ..expected
        };
        if found.is(wanted) {
            return Ok(None);
        }
        Ok(Some(self.differing(How::AtOnce, wanted, found)))
    }

    // Says that this answer was given where that one was expected.
    fn differing<'a>(&self, how: How, expected: Expected<'a>, found: Answer) -> Difference<'a> {
        Difference {
            cut: self.cut,
            is_rewritten: self.is_rewritten,
            how,
            expected,
            found,
        }
    }
}

// Writes what is wrong with a case, if something is.
fn put_outcome<W: Sink>(
    output: &mut W,
    place: &[&[u8]],
    outcome: Result<Option<Difference<'_>>, CaseFault>,
) -> Result<(), RunFault> {
    match outcome {
        Ok(None) => Ok(()),
        Ok(Some(difference)) => {
            put_parts(output, place)?;
            put_difference(output, &difference)
        }
        Err(CaseFault::Memory) => Err(RunFault::Memory),
        Err(fault) => {
            put_parts(output, place)?;
            put_parts(output, &[text_of(fault), b"\n"])?;
            Ok(())
        }
    }
}

fn put_difference<W: Sink>(output: &mut W, difference: &Difference<'_>) -> Result<(), RunFault> {
    if let Some(bytes) = difference.cut {
        put_parts(
            output,
            &[
                b"cut after ",
                Buffer::new().format(bytes).as_bytes(),
                b" bytes: ",
            ],
        )?;
    }
    if difference.is_rewritten {
        put_all(output, b"in format 2: ")?;
    }
    put_how(output, difference.how)?;
    put_all(output, b": expected ")?;
    put_answer(output, difference.expected.status, difference.expected.line)?;
    put_all(output, b", found ")?;
    put_answer(output, difference.found.status, &difference.found.line)?;
    put_all(output, b"\n")?;
    if let Some(lines) = difference.expected.last {
        put_all(output, b"expected after it:\n")?;
        put_all(output, lines)?;
        put_all(output, b"found after it:\n")?;
        put_all(output, &difference.found.last)?;
    }
    Ok(())
}

// Writes which call gave an answer.
fn put_how<W: Sink>(output: &mut W, how: How) -> Result<(), WriteFault> {
    match how {
        How::Checked(manner) => put_manner(output, manner),
        How::AtOnce => put_all(output, b"all records at once"),
    }
}

// Writes how a check was run.
fn put_manner<W: Sink>(output: &mut W, manner: Manner) -> Result<(), WriteFault> {
    put_parts(
        output,
        &[
            b"in rounds of ",
            Buffer::new().format(manner.rounds.size()).as_bytes(),
            b", workers ",
            Buffer::new().format(manner.settings.workers).as_bytes(),
            b", depth ",
            Buffer::new().format(manner.settings.depth).as_bytes(),
        ],
    )
}

// Writes a status and a line.
fn put_answer<W: Sink>(output: &mut W, status: u64, line: &[u8]) -> Result<(), WriteFault> {
    put_parts(
        output,
        &[
            b"status ",
            Buffer::new().format(status).as_bytes(),
            b" and ",
        ],
    )?;
    put_all(output, line)
}

// The name of a fault.
fn text_of(fault: CaseFault) -> &'static [u8] {
    match fault {
        CaseFault::UnknownHeading => b"a heading is unknown",
        CaseFault::NoSuchLine => b"a change is at a line that there is not",
        CaseFault::CoreBelowMissing => b"a recording is given before that of the core below",
        CaseFault::NoRules => b"the rules are not options with their values",
        CaseFault::NoReport => b"there is not one line of a report",
        CaseFault::NoStatus => b"there is no status",
        CaseFault::NoCuts => b"the cuts do not rise from 0 to the end of the recording",
        CaseFault::Memory => b"memory was refused",
    }
}

impl From<WriteFault> for RunFault {
    fn from(_: WriteFault) -> RunFault {
        RunFault::Unwritten
    }
}

impl From<AllocError> for RunFault {
    fn from(_: AllocError) -> RunFault {
        RunFault::Memory
    }
}
