// The search over files.

ghost use Rattle.std.specs.Prelude.{◌≡◌, ◌≢◌, Any, IfErr, IfOk, IsErrAnd, IsSomeAnd, map, option_map, string_bytes};
ghost use Rattle.std.specs.IoError.{error_kind};
ghost use Rattle.answer_words.specs.Folders.{AreRulesOf, ReadFiles};
ghost use Rattle.apexorder.specs.Files.{AreOpened, EndsAsAsked, IsOfFiles, RefusesOne, ending_of_files, file_of};

use crate::ending::OrderEnd;
use crate::names::OrderNames;
use crate::noted::Noted;
use crate::ruled::propose_ruled;
use crate::seen::Seen;
use crate::usage::OrderAsked;
use answer_words::{Folder, OpenFault};
use asked_rules::{NamedRule, RuleOption, read_rules};
use csv_rows::{TextSource, Watched};
use program_ends::{Ending, out_of_memory, refused_rules};
use report::CheckFault;
use sink::WriterSink;
use std::alloc::Global;
use std::io;
use std::io::{ErrorKind, Read, Write};
use std::rt::Clock;

/// Searches for an order of the recordings in the files of this folder that the command line names, and writes it to standard output. The
/// configuration is read first, then the rules file, if one is named; then the recordings are opened, core 0 first. The rules file is judged
/// after that.
pub fn propose_for<R, D, F>(
    rt: &R,
    folder: &D,
    alloc: Global,
    asked: &OrderAsked,
    seen: &mut Seen<'_, R>,
) -> Ending<OrderEnd>
where
    R: Clock + Print + Eprint,
    D: Folder<File = F>,
    F: Read + Drop,
    ensures { IsOfFiles (D.facts folder.now) ⟦<Watched<F> as TextSource>⟧.remaining asked.now result }
{
    match Opened::open(folder, alloc, &asked.names, &mut seen.noted) {
        Ok(opened) => {
            let mut output = WriterSink::new(io::writer(rt));
            opened.propose(alloc, asked, seen, &mut output)
        }
        Err(fault) => end_by(fault),
    }
}

// The end of a run if not all its files could be opened.
fn end_by(fault: OpenFault) -> Ending<OrderEnd>
    ensures { result ≡ ending_of_files fault }
{
    match fault {
        OpenFault::Unopened => Ending::Unopened,
        OpenFault::Memory => out_of_memory(),
    }
}

// What was opened: the text of the configuration, that of the rules file, if one is named, and the recordings.
#[derive(Drop)]
struct Opened<S> {
    text: Vec<u8>,
    rules: Option<Vec<u8>>,
    cores: Vec<S>,
}

impl<F: Read + Drop> Opened<Watched<F>> {
    // Opens each file in its role.
    fn open<D: Folder<File = F>>(
        folder: &D,
        alloc: Global,
        names: &OrderNames,
        noted: &mut Noted,
    ) -> Result<Opened<Watched<F>>, OpenFault>
        ensures opened { IfOk result (AreOpened (D.facts folder.now) names.now) }
        ensures refused { IfErr result (λ fault. fault ≡ OpenFault.Unopened → RefusesOne (D.facts folder.now) names.now) }
    {
        let text = reported(noted, &names.config, folder.open_text(alloc, &names.config))?;
        let rules = open_rules(folder, alloc, &names.rules, noted)?;
        let cores = open_cores(folder, alloc, &names.cores, noted)?;
        Ok(Opened { text, rules, cores })
    }
}

impl<S: TextSource + Drop> Opened<S> {
    // Judges the rules file, and then searches for an order of the recordings, on which the rules of the options and of the rules file are
    // tested. What the words need is noted.
    fn propose<R: Clock + Eprint, W: Write + Drop>(
        self,
        alloc: Global,
        asked: &OrderAsked,
        seen: &mut Seen<'_, R>,
        output: &mut WriterSink<W>,
    ) -> Ending<OrderEnd>
        ensures { EndsAsAsked S.remaining self asked.now output.old.bytes output.new.bytes result }
    {
        let Opened { text, rules, cores } = self;
        let Ok(options) = asked.options.in_order(alloc) else {
            return out_of_memory();
        };
        let rules_text = rules.as_deref();
        let file = match read_rules(alloc, rules_text) {
            Ok(file) => file,
            Err(refusal) => {
                seen.noted.note_rules(&asked.names, &refusal, rules_text);
                return refused_rules(refusal.fault);
            }
        };
        seen.noted.note_configuration(&text);
        let ending = propose_ruled(
            alloc,
            asked.effort,
            &text,
            &options,
            &file,
            cores,
            seen,
            output,
        );
        note_end(
            &mut seen.noted,
            asked,
            &text,
            &options,
            &file.rules,
            &ending,
        );
        ending
    }
}

// Notes which of these rules is broken, or how many recordings are named, if the end is for that.
fn note_end(
    noted: &mut Noted,
    asked: &OrderAsked,
    text: &[u8],
    options: &[RuleOption],
    rules: &[NamedRule],
    ending: &Ending<OrderEnd>,
) {
    match ending {
        Ending::Own(OrderEnd::Proposed(proposal)) => noted.note_proposal(proposal, options, rules),
        Ending::Own(OrderEnd::Refused(CheckFault::Arguments(_))) => {
            noted.note_recording_count(asked.names.cores.len(), text);
        }
        _ => {}
    }
}

// The text of the rules file of this name, if one is named.
fn open_rules<D: Folder>(
    folder: &D,
    alloc: Global,
    name: &Option<String>,
    noted: &mut Noted,
) -> Result<Option<Vec<u8>>, OpenFault>
    ensures rules { IfOk result (λ rules. AreRulesOf (D.facts folder.now) (option_map string_bytes name.now) (option_map (λ text. text.items) rules)) }
    ensures refused { IfErr result (λ fault. fault ≡ OpenFault.Unopened → IsSomeAnd (option_map string_bytes name.now) (D.facts folder.now).refuses) }
{
    let Some(name) = name else {
        return Ok(None);
    };
    let text = reported(noted, name, folder.open_text(alloc, name))?;
    Ok(Some(text))
}

// The recordings in the files of these names, in their order.
fn open_cores<D: Folder<File = F>, F: Read + Drop>(
    folder: &D,
    alloc: Global,
    names: &[String],
    noted: &mut Noted,
) -> Result<Vec<Watched<F>>, OpenFault>
    ensures cores { IfOk result (λ cores. ReadFiles (D.facts folder.now) file_of (map string_bytes names.now) cores.items) }
    ensures refused { IfErr result (λ fault. fault ≡ OpenFault.Unopened → Any (λ name. (D.facts folder.now).refuses (string_bytes name)) names.now) }
{
    let mut cores = Vec::new(alloc);
    for name in names {
        cores.push(Watched::new(reported(noted, name, folder.open(name))?))?;
    }
    Ok(cores)
}

// The answer of the folder for the file of this name. A refusal other than that of memory is noted for a person.
fn reported<T: Drop>(noted: &mut Noted, name: &str, answer: io::Result<T>) -> Result<T, OpenFault>
    ensures given { IfOk result (λ value. answer ≡ Ok value) }
    ensures refused { IfErr result (λ fault. fault ≡ OpenFault.Unopened → IsErrAnd answer (λ e. error_kind e ≢ ErrorKind.OutOfMemory)) }
{
    match answer {
        Ok(value) => Ok(value),
        Err(e) if e.kind() == ErrorKind::OutOfMemory => Err(OpenFault::Memory),
        Err(e) => {
            noted.note_unopened(name, e);
            Err(OpenFault::Unopened)
        }
    }
}
