// Recordings are judged and shown.

ghost use Rattle.std.specs.Prelude.{◌≡◌, Err, None, map};
ghost use Rattle.report.specs.declared.settings.Settings.{Settings};
ghost use Rattle.report.specs.Answers.{given_by};
ghost use Rattle.report.specs.Outcome.{argument_fault_of, config_refusal_of};
ghost use Rattle.user_rules.specs.Remembered.{required_by};
ghost use Rattle.user_rules.specs.Rules.{required_of};
ghost use Rattle.program_ends.specs.declared.ending.Ending.TheVariants.{Own};
ghost use Rattle.shown_run.specs.declared.ending.ViewEnd.TheVariants.{Checked};
ghost use Rattle.shown_run.specs.Shown.{EndsAs};

use crate::ending::ViewEnd;
use crate::viewer::{Shown, Viewer};
use answer_words::{Explainer, InputNames};
use apex_types::View;
use asked_rules::{RuleOption, RulesFile};
use core_intake::Intake;
use csv_rows::TextSource;
use module_config::{Config, ConfigFault};
use order_cert::CertSource;
use placement::Placer;
use program_ends::{Ending, out_of_memory};
use report::{ArgumentFault, CheckFault};
use sink::Sink;
use std::alloc::Global;
use std::fs::{File, Files};
use std::sync::Wait;
use std::thread::Threads;
use user_rules::{Relation, Rule, RuleMemory, Test};

/// How many records of a core are read ahead.
const DEPTH: usize = 64;

/// What is requested: the files, as the command line names them, the rules of options, and what the rules file has.
#[derive(Clone, Copy)]
pub struct Request<'a> {
    pub names: &'a InputNames,
    pub options: &'a [RuleOption],
    pub file: &'a RulesFile,
}

/// What is judged: the text of the configuration, a reader of each recording, core 0 first, and a reader of the certificate.
#[derive(Drop)]
pub struct Judged<'a, R, C> {
    pub config: &'a [u8],
    pub recordings: Vec<R>,
    pub order: C,
}

/// Judges these recordings in this order under the memories of the rules file and these relations, and shows them by this viewer. The
/// explainer receives what explains the end.
///
/// The end is the answer of a check of the same texts and relations, whatever the settings of that check if they are not refused; or that
/// standard output could not be written.
#[tactic(auto, using(crate::proofs::Answering::memory_ends))]
pub fn show_under<T, R, C, V: Viewer, W: Sink>(
    rt: &T,
    alloc: Global,
    request: Request<'_>,
    relations: Vec<Relation>,
    judged: Judged<'_, R, C>,
    viewer: &V,
    explainer: &mut Explainer,
    output: &mut W,
) -> Ending<ViewEnd>
where
    T: Files<File = File> + Threads + Wait + Sync + Copy + Send + 'static,
    R: TextSource + Drop + Send + 'static,
    C: TextSource + Drop,
    ensures { (settings : Settings) → argument_fault_of settings ≡ None → EndsAs (given_by judged.entry.config.now (map R.remaining judged.entry.recordings.items) R.can_fail (C.remaining judged.entry.order) C.can_fail) (required_by request.entry.file.now.memories.items relations.items) settings result }
{
    let mut rules = Vec::new(alloc);
    for relation in relations {
        let Ok(tested) = relation.clone() else {
            return out_of_memory();
        };
        let Ok(test) = Box::new(
            alloc,
            move |view: &View, values: &[i64]| tested.holds(view, values),
        ) else {
            return out_of_memory();
        };
        let test: Test = test;
        if rules.push(Rule::new(relation, test)).is_err() {
            return out_of_memory();
        }
    }
    show_judged(
        rt,
        alloc,
        request,
        &request.file.memories,
        &rules,
        judged,
        viewer,
        explainer,
        output,
    )
}

// The same under the rules that test the relations.
fn show_judged<T, R, C, V: Viewer, W: Sink>(
    rt: &T,
    alloc: Global,
    request: Request<'_>,
    memories: &[RuleMemory],
    rules: &[Rule],
    judged: Judged<'_, R, C>,
    viewer: &V,
    explainer: &mut Explainer,
    output: &mut W,
) -> Ending<ViewEnd>
where
    T: Files<File = File> + Threads + Wait + Sync + Copy + Send + 'static,
    R: TextSource + Drop + Send + 'static,
    C: TextSource + Drop,
    ensures { (settings : Settings) → argument_fault_of settings ≡ None → EndsAs (given_by judged.entry.config.now (map R.remaining judged.entry.recordings.items) R.can_fail (C.remaining judged.entry.order) C.can_fail) (required_of memories.now rules.now) settings result }
{
    let config = match Config::read(alloc, judged.config) {
        Ok(config) => config,
        Err(fault) => return refused_configuration(fault),
    };
    if judged.recordings.len() != config.cores() as usize {
        return Ending::Own(ViewEnd::Checked(Err(CheckFault::Arguments(
            ArgumentFault::ReaderCount,
        ))));
    }
    config.keeps_limits();
    let Judged {
        config: _,
        recordings,
        order,
    } = judged;
    let Ok(intake) = Intake::open(*rt, alloc, recordings, DEPTH) else {
        return out_of_memory();
    };
    let mut placer = Placer::new(intake, CertSource::new(alloc, order));
    let shown = Shown {
        config: &config,
        names: request.names,
        options: request.options,
        file: request.file,
    };
    let ending = viewer.show(
        rt,
        alloc,
        &shown,
        memories,
        rules,
        &mut placer,
        explainer,
        output,
    );
    placer.close(rt);
    ending
}

// The end for a fault of the configuration. A lack of memory counts as the check's own.
fn refused_configuration(fault: ConfigFault) -> Ending<ViewEnd>
    ensures { result ≡ Own (Checked (Err (config_refusal_of fault))) }
{
    match fault {
        ConfigFault::Memory => out_of_memory(),
        _ => Ending::Own(ViewEnd::Checked(Err(CheckFault::Config(fault)))),
    }
}
