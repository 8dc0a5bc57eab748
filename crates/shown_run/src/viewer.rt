// What shows a run.

ghost use Rattle.std.specs.Prelude.{◌≡◌, false, length};
ghost use Rattle.order_cert.specs.Kept.{place_of};
ghost use Rattle.placement.specs.Lanes.{AreHonest};
ghost use Rattle.user_rules.specs.Rules.{required_of};
ghost use Rattle.shown_run.specs.Shown.{IsShown};

use crate::ending::ViewEnd;
use answer_words::{Explainer, InputNames};
use asked_rules::{RuleOption, RulesFile};
use csv_rows::TextSource;
use module_config::Config;
use placement::Placer;
use program_ends::Ending;
use sink::Sink;
use std::alloc::Global;
use std::fs::{File, Files};
use std::sync::Wait;
use user_rules::{Rule, RuleMemory};

/// A run that is shown: its configuration, its files as the command line names them, the rules of options, and what its rules file has.
#[derive(Clone, Copy)]
pub struct Shown<'a> {
    pub config: &'a Config,
    pub names: &'a InputNames,
    pub options: &'a [RuleOption],
    pub file: &'a RulesFile,
}

/// What shows a run: it judges all records that are ahead of a placer, and writes what it shows of them to an output.
pub trait Viewer {
    /// Judges the run that is ahead of this placer under rules that test its relations, and shows it. The explainer receives what explains
    /// the end.
    ///
    /// The end is the answer of a check of what is ahead, or that the output could not be written; it is known once the placer's threads
    /// are joined.
    fn show<R, S: TextSource, C: TextSource, W: Sink>(
        &self,
        rt: &R,
        alloc: Global,
        shown: &Shown<'_>,
        memories: &[RuleMemory],
        rules: &[Rule],
        placer: &mut Placer<S, C>,
        explainer: &mut Explainer,
        output: &mut W,
    ) -> Ending<ViewEnd>
    where
        R: Files<File = File> + Wait,
        requires going { placer.old.ended ≡ false }
        requires first { place_of placer.old.kept ≡ 0 }
        requires cores { length placer.old.lanes ≡ shown.now.config.now.cores }
        ensures { AreHonest S.can_fail placer.new.lanes → IsShown (record { recordings = S.can_fail; certificate = C.can_fail }) shown.now.config.now (required_of memories.now rules.now) placer.old result };
}
