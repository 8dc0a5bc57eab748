// A case: the texts of a check, and what is expected of them.

use crate::answering::Expected;
use crate::archive::Section;
use crate::editing::{EditFault, apply};
use crate::fields::{line_count, split_line, split_word};
use crate::heading::{Change, Heading, TextName};
use crate::manner::Named;
use asked_rules::{RuleOption, RuleOptions};
use csv_rows::read_decimal;
use std::alloc::{AllocError, AllocFailed, Global};

/// What is expected if a recording ends after this many bytes, up to the next cut.
#[derive(Clone, Copy, Debug)]
pub struct Cut<'a> {
    pub bytes: usize,
    pub expected: Expected<'a>,
}

/// Why a case cannot be run.
#[derive(Clone, Copy, Debug, PartialEq, Eq)]
pub enum CaseFault {
    /// A heading is not one of those that an archive may have.
    UnknownHeading,
    /// A change is at a line that the text does not have.
    NoSuchLine,
    /// A recording is given before that of the core below it.
    CoreBelowMissing,
    /// The rules are not options with their values, each at most once.
    NoRules,
    /// There is not exactly one expected line.
    NoReport,
    /// There is no number of a status.
    NoStatus,
    /// The cuts are not a rising list from 0 to at most the end of the recording.
    NoCuts,
    /// Memory was refused.
    Memory,
}

/// The texts of a check, and what is expected of them, as far as the sections so far say it.
#[derive(Drop)]
pub struct Case<'a> {
    alloc: Global,
    config: Vec<u8>,
    recordings: Vec<Vec<u8>>,
    order: Option<Vec<u8>>,
    rules: &'a [u8],
    named: Named,
    report: Option<&'a [u8]>,
    last: Option<&'a [u8]>,
    status: Option<&'a [u8]>,
    cuts: Option<&'a [u8]>,
}

impl<'a> Case<'a> {
    /// A case before any section: an empty configuration and no recording.
    pub fn new(alloc: Global) -> Case<'a> {
        Case {
            alloc,
            config: Vec::new(alloc),
            recordings: Vec::new(alloc),
            order: None,
            rules: &[],
            named: Named {
                workers: None,
                depth: None,
            },
            report: None,
            last: None,
            status: None,
            cuts: None,
        }
    }

    /// Takes what a section says.
    pub fn take(&mut self, section: Section<'a>) -> Result<(), CaseFault> {
        match Heading::of(section.heading).ok_or(CaseFault::UnknownHeading)? {
            Heading::Case(_) => return Err(CaseFault::UnknownHeading),
            Heading::Text(name, how) => self.take_text(name, how, section.body)?,
            Heading::Rules => self.rules = section.body,
            Heading::Workers(workers) => self.named.workers = Some(workers),
            Heading::Depth(depth) => self.named.depth = Some(depth),
            Heading::Report => self.report = Some(section.body),
            Heading::Last => self.last = Some(section.body),
            Heading::Status => self.status = Some(section.body),
            Heading::Cuts => self.cuts = Some(section.body),
            Heading::Said => {}
        }
        Ok(())
    }

    fn take_text(&mut self, name: TextName, how: Change, lines: &[u8]) -> Result<(), CaseFault> {
        match name {
            TextName::Config => apply(&mut self.config, how, lines)?,
            TextName::Core(core) => {
                if core == self.recordings.len() {
                    self.recordings.push(Vec::new(self.alloc))?;
                }
                let recording = self
                    .recordings
                    .get_mut(core)
                    .ok_or(CaseFault::CoreBelowMissing)?;
                apply(recording, how, lines)?;
            }
            TextName::Order => {
                let mut order = self.order_text()?;
                apply(&mut order, how, lines)?;
                self.order = Some(order);
            }
        }
        Ok(())
    }

    /// The configuration.
    pub fn config(&self) -> &[u8] {
        &self.config
    }

    /// The recordings, core 0 first.
    pub fn recordings(&self) -> &[Vec<u8>] {
        &self.recordings
    }

    /// The certificate. If none is given, it names the records of core 0 in their own order.
    pub fn order_text(&self) -> Result<Vec<u8>, CaseFault> {
        let mut order = Vec::new(self.alloc);
        match &self.order {
            Some(given) => order.extend_from_slice(given)?,
            None => {
                let rows = self
                    .recordings
                    .first()
                    .map_or(0, |recording| line_count(recording));
                apply(&mut order, Change::Times(rows), b"0,@\n")?;
            }
        }
        Ok(order)
    }

    /// The options that request rules, in the order in which their rules are numbered.
    #[tactic(auto, using(crate::proofs::Texts::after_is_shorter))]
    pub fn rules(&self) -> Result<Vec<RuleOption>, CaseFault> {
        let (mut max_elapsed, mut forbidden) = (None, None);
        let mut left = self.rules;
        while !left.is_empty() {
            let (line, after) = split_line(left);
            let (option, value) = split_word(line);
            let text = if option == b"max-elapsed".as_slice() {
                &mut max_elapsed
            } else if option == b"forbid".as_slice() {
                &mut forbidden
            } else {
                return Err(CaseFault::NoRules);
            };
            if text.replace(value).is_some() {
                return Err(CaseFault::NoRules);
            }
            left = after;
        }
        let given = RuleOptions::read(max_elapsed, forbidden).ok_or(CaseFault::NoRules)?;
        Ok(given.in_order(self.alloc)?)
    }

    /// The settings that the case names.
    pub fn named(&self) -> Named {
        self.named
    }

    /// What is expected of the whole texts. None if only cuts are given.
    pub fn expected(&self) -> Result<Option<Expected<'a>>, CaseFault> {
        match (self.report, self.cuts) {
            (Some(report), _) => {
                let (line, further) = split_line(report);
                if line.is_empty() || !further.is_empty() {
                    return Err(CaseFault::NoReport);
                }
                let (status, further) = split_line(self.status.ok_or(CaseFault::NoStatus)?);
                if !further.is_empty() {
                    return Err(CaseFault::NoStatus);
                }
                let status = status_of(status)?;
                Ok(Some(Expected {
                    line,
                    last: self.last,
                    status,
                }))
            }
            (None, Some(cuts)) if !cuts.is_empty() => Ok(None),
            (None, _) => Err(CaseFault::NoReport),
        }
    }

    /// What is expected if the recording of core 0 is cut.
    #[tactic(auto, using(crate::proofs::Texts::after_is_shorter))]
    pub fn cuts(&self) -> Result<Vec<Cut<'a>>, CaseFault> {
        let mut cuts: Vec<Cut<'a>> = Vec::new(self.alloc);
        let mut left = self.cuts.unwrap_or(&[]);
        while !left.is_empty() {
            let (line, after) = split_line(left);
            let cut = cut_of(line)?;
            if let Some(Cut { bytes, .. }) = cuts.last() {
                if *bytes >= cut.bytes {
                    return Err(CaseFault::NoCuts);
                }
            }
            cuts.push(cut)?;
            left = after;
        }
        Ok(cuts)
    }
}

// The cut of a line `BYTES STATUS LINE`.
fn cut_of(line: &[u8]) -> Result<Cut<'_>, CaseFault> {
    let (bytes, rest) = split_word(line);
    let (status, line) = split_word(rest);
    let bytes = read_decimal(bytes, 1_000_000).ok_or(CaseFault::NoCuts)? as usize;
    let status = status_of(status)?;
    Ok(Cut {
        bytes,
        expected: Expected {
            line,
            last: None,
            status,
        },
    })
}

// The exit status that a number is.
fn status_of(text: &[u8]) -> Result<u64, CaseFault> {
    read_decimal(text, 255).ok_or(CaseFault::NoStatus)
}

impl From<AllocError> for CaseFault {
    fn from(_: AllocError) -> CaseFault {
        CaseFault::Memory
    }
}

impl<T: Drop> From<AllocFailed<T>> for CaseFault {
    fn from(_: AllocFailed<T>) -> CaseFault {
        CaseFault::Memory
    }
}

impl From<EditFault> for CaseFault {
    fn from(fault: EditFault) -> CaseFault {
        match fault {
            EditFault::NoSuchLine => CaseFault::NoSuchLine,
            EditFault::Memory => CaseFault::Memory,
        }
    }
}
