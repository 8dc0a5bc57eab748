// How a run is shown.

ghost use Rattle.std.specs.Prelude.{◌≡◌, false, length};
ghost use Rattle.order_cert.specs.Kept.{place_of};
ghost use Rattle.placement.specs.Lanes.{AreHonest};
ghost use Rattle.user_rules.specs.Rules.{required_of};
ghost use Rattle.shown_run.specs.Shown.{IsShown};

use crate::counted::show_numbers;
use crate::page::show_picture;
use crate::traced::show_trace;
use answer_words::Explainer;
use csv_rows::TextSource;
use placement::Placer;
use program_ends::Ending;
use shown_run::{Shown, ViewEnd, Viewer};
use sink::Sink;
use std::alloc::Global;
use std::fs::{File, Files};
use std::sync::Wait;
use user_rules::{Rule, RuleMemory};
use view_trace::Axis;

/// What is written.
#[derive(Clone, Copy, Debug, PartialEq, Eq)]
pub enum Format {
    Html,
    Svg,
    Trace,
    /// The figures of the run as text.
    Summary,
    /// The figures of the run as JSON.
    Json,
}

/// How a run should be shown.
#[derive(Clone, Copy, Debug)]
pub struct ViewAsked {
    pub format: Format,
    pub axis: Axis,
    /// The last place that the picture may show with its states, and whose record a trace or the figures may include.
    pub at: Option<u64>,
    /// How many records before its end it shows.
    pub span: usize,
}

impl Viewer for ViewAsked {
    fn show<R, S: TextSource, C: TextSource, W: Sink>(
        &self,
        rt: &R,
        alloc: Global,
        shown: &Shown<'_>,
        memories: &[RuleMemory],
        rules: &[Rule],
        placer: &mut Placer<S, C>,
        explainer: &mut Explainer,
        output: &mut W,
    ) -> Ending<ViewEnd>
    where
        R: Files<File = File> + Wait,
    {
        match self.format {
            Format::Html | Format::Svg => show_picture(
                rt, alloc, *self, shown, memories, rules, placer, explainer, output,
            ),
            Format::Trace => show_trace(
                rt, alloc, *self, shown, memories, rules, placer, explainer, output,
            ),
            Format::Summary | Format::Json => show_numbers(
                rt, alloc, *self, shown, memories, rules, placer, explainer, output,
            ),
        }
    }
}
