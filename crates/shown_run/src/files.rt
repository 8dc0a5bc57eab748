// The files of a run, opened and shown.

ghost use Rattle.std.specs.Prelude.{◌≡◌, Any, IfErr, IfOk, map, string_bytes};
ghost use Rattle.answer_words.specs.Folders.{ReadFiles, RefusesOne};
ghost use Rattle.shown_run.specs.Files.{AreOpened, EndsAsAsked, IsOfFiles, ending_of, file_of};

use crate::ending::ViewEnd;
use crate::shown::{Judged, Request, show_under};
use crate::viewer::Viewer;
use answer_words::{Explainer, Folder, InputNames, OpenFault, open_rules, reported};
use asked_rules::{RuleOptions, all_relations, read_rules};
use csv_rows::{TextSource, Watched};
use program_ends::{Ending, out_of_memory, refused_rules};
use sink::Sink;
use std::alloc::Global;
use std::fs::{File, Files};
use std::io::Read;
use std::sync::Wait;
use std::thread::Threads;

/// The files of a run that should be shown, and the rules that options request for it.
#[derive(Debug, Drop)]
pub struct FilesAsked {
    pub names: InputNames,
    pub options: RuleOptions,
}

/// Opens the files of a run in this folder, judges it, and shows it by this viewer. The configuration is read first, then the rules file, if
/// one is named; then the order is opened, then the recordings, core 0 first. The explainer receives what explains its end.
pub fn show_files<R, D, F, V: Viewer, W: Sink>(
    rt: &R,
    folder: &D,
    alloc: Global,
    asked: &FilesAsked,
    viewer: &V,
    explainer: &mut Explainer,
    output: &mut W,
) -> Ending<ViewEnd>
where
    R: Files<File = File> + Threads + Wait + Sync + Copy + Send + 'static,
    D: Folder<File = F>,
    F: Read + Drop + Send + 'static,
    ensures { IsOfFiles (D.facts folder.now) ⟦<Watched<F> as TextSource>⟧.remaining ⟦<Watched<F> as TextSource>⟧.can_fail asked.now result }
{
    match Opened::open(folder, alloc, &asked.names, explainer) {
        Ok(opened) => opened.show(rt, alloc, asked, viewer, explainer, output),
        Err(fault) => end_by(fault),
    }
}

// The end of a run if not all its files could be opened.
fn end_by(fault: OpenFault) -> Ending<ViewEnd>
    ensures { result ≡ ending_of fault }
{
    match fault {
        OpenFault::Unopened => Ending::Unopened,
        OpenFault::Memory => out_of_memory(),
    }
}

// What is opened for a view.
#[derive(Drop)]
struct Opened<S> {
    config: Vec<u8>,
    rules: Option<Vec<u8>>,
    order: S,
    cores: Vec<S>,
}

impl<F: Read + Drop> Opened<Watched<F>> {
    // Opens each file in its role.
    fn open<D: Folder<File = F>>(
        folder: &D,
        alloc: Global,
        names: &InputNames,
        explainer: &mut Explainer,
    ) -> Result<Opened<Watched<F>>, OpenFault>
        ensures opened { IfOk result (AreOpened (D.facts folder.now) names.now) }
        ensures refused { IfErr result (λ fault. fault ≡ OpenFault.Unopened → RefusesOne (D.facts folder.now) names.now) }
    {
        let config = reported(
            explainer,
            &names.config,
            folder.open_text(alloc, &names.config),
        )?;
        let rules = open_rules(folder, alloc, &names.rules, explainer)?;
        let order = Watched::new(reported(explainer, &names.order, folder.open(&names.order))?);
        let cores = open_cores(folder, alloc, &names.cores, explainer)?;
        Ok(Opened {
            config,
            rules,
            order,
            cores,
        })
    }
}

impl<S: TextSource + Drop + Send + 'static> Opened<S> {
    // Judges the rules file, and then shows the recordings under the rules of the options and of the rules file.
    fn show<R, V: Viewer, W: Sink>(
        self,
        rt: &R,
        alloc: Global,
        asked: &FilesAsked,
        viewer: &V,
        explainer: &mut Explainer,
        output: &mut W,
    ) -> Ending<ViewEnd>
    where
        R: Files<File = File> + Threads + Wait + Sync + Copy + Send + 'static,
        ensures { EndsAsAsked S.remaining S.can_fail self asked.now result }
    {
        let Opened {
            config,
            rules,
            order,
            cores,
        } = self;
        let rules_text = rules.as_deref();
        let file = match read_rules(alloc, rules_text) {
            Ok(file) => file,
            Err(refusal) => {
                explainer.note_rules(&asked.names, &refusal, rules_text);
                return refused_rules(refusal.fault);
            }
        };
        let Ok(options) = asked.options.in_order(alloc) else {
            return out_of_memory();
        };
        let Ok(relations) = all_relations(alloc, &options, &file.rules) else {
            return out_of_memory();
        };
        explainer.note_configuration(&config);
        let request = Request {
            names: &asked.names,
            options: &options,
            file: &file,
        };
        let judged = Judged {
            config: &config,
            recordings: cores,
            order,
        };
        show_under(
            rt, alloc, request, relations, judged, viewer, explainer, output,
        )
    }
}

// The recordings in the files of these names, in their order. The explainer receives which file cannot be opened and why.
fn open_cores<D: Folder<File = F>, F: Read + Drop>(
    folder: &D,
    alloc: Global,
    names: &[String],
    explainer: &mut Explainer,
) -> Result<Vec<Watched<F>>, OpenFault>
    ensures cores { IfOk result (λ cores. ReadFiles (D.facts folder.now) file_of (map string_bytes names.now) cores.items) }
    ensures refused { IfErr result (λ fault. fault ≡ OpenFault.Unopened → Any (λ name. (D.facts folder.now).refuses (string_bytes name)) names.now) }
{
    let mut cores = Vec::new(alloc);
    for name in names {
        cores.push(Watched::new(reported(explainer, name, folder.open(name))?))?;
    }
    Ok(cores)
}
