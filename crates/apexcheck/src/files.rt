// The check of files.

ghost use Rattle.std.specs.Prelude.{◌≡◌, Any, IfErr, IfOk, map, string_bytes};
ghost use Rattle.answer_words.specs.Folders.{ReadFiles, RefusesOne};
ghost use Rattle.apexcheck.specs.Files.{AreOpened, EndsAsAsked, IsOfFiles, ending_of, file_of};
ghost use Rattle.apexcheck.specs.Ruled.{where_asked};

use crate::awaited::{Awaited, Observed, copy_of, end_watch, watch};
use crate::course::Course;
use crate::ruled::check_ruled;
use answer_words::{Explainer, Folder, OpenFault, note_broken, open_rules, reported};
use asked_rules::read_rules;
use check_request::FilesAsked;
use check_result::{CheckEnd, end_of_check};
use csv_rows::{TextSource, Watched};
use program_ends::{Ending, out_of_memory, refused_rules};
use report::{Inputs, Last};
use std::alloc::Global;
use std::fs::Files;
use std::io::Read;
use std::rt::Clock;
use std::sync::{Arc, Wait};
use std::thread::Threads;

/// Opens the files of a run in this folder and checks what they hold. The configuration is read first, then the rules file, if one is
/// named; then the order is opened, then the recordings, core 0 first. The rules file is judged after that.
///
/// The explainer receives what explains the end: which file cannot be opened or read and why, why the rules file is refused, which rule is
/// broken, the record at the place of a No, and the unknown keys of the configuration.
pub fn check_files<R, D, F>(
    rt: &R,
    folder: &D,
    asked: &FilesAsked,
    explainer: &mut Explainer,
) -> Ending<CheckEnd>
where
    R: Files + Clock + Eprint + AllocGlobal,
    R: Threads + Wait + Sync + Copy + Send + 'static,
    D: Folder<File = F>,
    F: Read + Drop + Send + 'static,
    ensures { IsOfFiles (D.facts folder.now) ⟦<Observed<Watched<F>> as TextSource>⟧.remaining ⟦<Observed<Watched<F>> as TextSource>⟧.can_fail asked.now result }
{
    let alloc = rt.alloc();
    match Opened::open(rt, folder, alloc, asked, explainer) {
        Ok(opened) => opened.check(rt, alloc, asked, explainer),
        Err(fault) => end_by(fault),
    }
}

/// The end of a run if not all its files could be opened.
pub fn end_by(fault: OpenFault) -> Ending<CheckEnd>
    ensures { result ≡ ending_of fault }
{
    match fault {
        OpenFault::Unopened => Ending::Unopened,
        OpenFault::Memory => out_of_memory(),
    }
}

// What is opened for a check. The order and the recordings are read during the check, in pieces of 8 KiB: the reader of rows has a buffer
// of that size.
#[derive(Drop)]
struct Opened<S> {
    config: Vec<u8>,
    rules: Option<Vec<u8>>,
    order: S,
    cores: Vec<S>,
    awaited: Option<Arc<Awaited>>,
}

impl<F: Read + Drop + Send + 'static> Opened<Observed<Watched<F>>> {
    // Opens each file in its role.
    fn open<R: Files, D: Folder<File = F>>(
        rt: &R,
        folder: &D,
        alloc: Global,
        asked: &FilesAsked,
        explainer: &mut Explainer,
    ) -> Result<Opened<Observed<Watched<F>>>, OpenFault>
        ensures opened { IfOk result (AreOpened (D.facts folder.now) asked.now.names) }
        ensures refused { IfErr result (λ fault. fault ≡ OpenFault.Unopened → RefusesOne (D.facts folder.now) asked.now.names) }
    {
        let names = &asked.names;
        let config = reported(
            explainer,
            &names.config,
            folder.open_text(alloc, &names.config),
        )?;
        let rules = open_rules(folder, alloc, &names.rules, explainer)?;
        let awaited = awaited_of(rt, alloc, asked);
        let order = reported(explainer, &names.order, folder.open(&names.order))?;
        let order = Observed::new(Watched::new(order), copy_of(&awaited), 0);
        let cores = open_cores(folder, alloc, &names.cores, &awaited, explainer)?;
        Ok(Opened {
            config,
            rules,
            order,
            cores,
            awaited,
        })
    }
}

impl<S: TextSource + Drop + Send + 'static> Opened<S> {
    // Judges the rules file, and then checks the other files under the rules of the options and of the rules file. A Yes for fewer records
    // than are required is refused. The end has the last records before the place of a No if they are requested. The explainer receives
    // what explains the end.
    fn check<R>(
        self,
        rt: &R,
        alloc: Global,
        asked: &FilesAsked,
        explainer: &mut Explainer,
    ) -> Ending<CheckEnd>
    where
        R: Clock + Eprint + Threads + Wait + Sync + Copy + Send + 'static,
        ensures { EndsAsAsked S.remaining S.can_fail self asked.now result }
    {
        let Opened {
            config,
            rules,
            order,
            cores,
            awaited,
        } = self;
        let Ok(options) = asked.options.in_order(alloc) else {
            return out_of_memory();
        };
        let rules_text = rules.as_deref();
        let file = match read_rules(alloc, rules_text) {
            Ok(file) => file,
            Err(refusal) => {
                explainer.note_rules(&asked.names, &refusal, rules_text);
                return refused_rules(refusal.fault);
            }
        };
        let Ok(mut last) = Last::new(alloc) else {
            return out_of_memory();
        };
        let inputs = Inputs::new(&config, cores, order);
        let settings = asked.settings;
        let watching = watch(rt, &awaited);
        let is_wanted = explainer.terminal().is_terminal && !asked.quiet;
        let course = Course::new(rt, is_wanted, copy_of(&awaited));
        let outcome = check_ruled(
            *rt, alloc, inputs, &options, &file, settings, &course, &mut last, explainer,
        );
        course.clear();
        end_watch(rt, &awaited, watching);
        note_broken(explainer, alloc, &options, &file, &outcome);
        explainer.note_configuration(&config);
        if asked.writes_file() {
            explainer.keep_last(&last);
        }
        end_of_check(asked.at_least, outcome, where_asked(asked.last, last))
    }
}

// The last records, if they are requested.
fn where_asked(asked: bool, last: Last) -> Option<Last>
    ensures { result ≡ where_asked asked last }
{
    if asked { Some(last) } else { None }
}

// The files that may hold up the check once its answer is known, if they are to be reported.
fn awaited_of<R: Files>(rt: &R, alloc: Global, asked: &FilesAsked) -> Option<Arc<Awaited>> {
    if asked.quiet {
        return None;
    }
    Awaited::new(rt, alloc, &asked.names)
}

/// The recordings in the files of these names, in their order. The explainer receives which file cannot be opened and why.
pub fn open_cores<D: Folder<File = F>, F: Read + Drop>(
    folder: &D,
    alloc: Global,
    names: &[String],
    awaited: &Option<Arc<Awaited>>,
    explainer: &mut Explainer,
) -> Result<Vec<Observed<Watched<F>>>, OpenFault>
    ensures cores { IfOk result (λ cores. ReadFiles (D.facts folder.now) file_of (map string_bytes names.now) cores.items) }
    ensures refused { IfErr result (λ fault. fault ≡ OpenFault.Unopened → Any (λ name. (D.facts folder.now).refuses (string_bytes name)) names.now) }
{
    let mut cores = Vec::new(alloc);
    for name in names {
        let core = Watched::new(reported(explainer, name, folder.open(name))?);
        // The order is the first of the files.
        let index = usize::saturating_add(cores.len(), 1);
        cores.push(Observed::new(core, copy_of(awaited), index))?;
    }
    Ok(cores)
}
