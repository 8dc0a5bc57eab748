// A run as a picture.

ghost use Rattle.std.specs.Prelude.{◌≡◌, ◌⊎◌, ◌<◌, Err, IfOk, Ok, false, length};
ghost use Rattle.order_cert.specs.Kept.{place_of};
ghost use Rattle.placement.specs.Lanes.{AreHonest};
ghost use Rattle.user_rules.specs.Rules.{required_of};
ghost use Rattle.shown_run.specs.Stretches.{IsWhole, answer_of};
ghost use Rattle.program_ends.specs.declared.ending.Ending.TheVariants.{Own};
ghost use Rattle.program_ends.specs.Endings.{out_of_memory};
ghost use Rattle.shown_run.specs.declared.ending.ViewEnd.TheVariants.{Checked, Unwritten};
ghost use Rattle.shown_run.specs.Endings.{refusing};
ghost use Rattle.shown_run.specs.Shown.{IsShown};

use crate::picture_witness::PictureWitness;
use crate::viewing::{Format, ViewAsked};
use answer_words::{Explainer, InputNames, RunFiles, note_broken};
use csv_rows::TextSource;
use placement::Placer;
use program_ends::{Ending, Line, out_of_memory};
use report::{CheckFault, Verdict};
use run_view::Lawful;
use shown_run::{Asked, Shown, Stretch, ViewEnd, gather};
use sink::Sink;
use std::alloc::{AllocError, Global};
use std::fs::{File, Files};
use std::sync::Wait;
use stretch_drawing::{Drawn, draw_stretch};
use user_rules::{Rule, RuleMemory};
use view_page::{PageFault, PageTexts, Scale, Strip, strips_of, write_html, write_svg};
use view_picture::Picture;
use view_trace::Axis;
use wording::{Count, Look, Words};

/// Shows the requested stretch of a run. Nothing is written if an input is refused.
pub fn show_picture<R, S: TextSource, C: TextSource, W: Sink>(
    rt: &R,
    alloc: Global,
    asked: ViewAsked,
    shown: &Shown<'_>,
    memories: &[RuleMemory],
    rules: &[Rule],
    placer: &mut Placer<S, C>,
    explainer: &mut Explainer,
    output: &mut W,
) -> Ending<ViewEnd>
where
    R: Files<File = File> + Wait,
    requires going { placer.old.ended ≡ false }
    requires first { place_of placer.old.kept ≡ 0 }
    requires cores { length placer.old.lanes ≡ shown.now.config.now.cores }
    ensures shown { AreHonest S.can_fail placer.new.lanes → IsShown (record { recordings = S.can_fail; certificate = C.can_fail }) shown.now.config.now (required_of memories.now rules.now) placer.old result }
    ensures failed { result ≡ Own Unwritten → W.failures output.old < W.failures output.new }
{
    let stretch = Asked {
        at: asked.at,
        span: asked.span,
    };
    let mut witness = PictureWitness::new(alloc, explainer);
    let gathered = gather(
        rt,
        alloc,
        shown.config,
        memories,
        rules,
        stretch,
        placer,
        &mut witness,
    );
    let lawful = witness.into_lawful();
    end_picture(rt, alloc, asked, shown, gathered, lawful, explainer, output)
}

// Shows what was gathered of a run, and ends as it does.
fn end_picture<R, W: Sink>(
    rt: &R,
    alloc: Global,
    asked: ViewAsked,
    shown: &Shown<'_>,
    gathered: Result<(Verdict, Stretch), CheckFault>,
    lawful: Result<Vec<Lawful>, AllocError>,
    explainer: &mut Explainer,
    output: &mut W,
) -> Ending<ViewEnd>
where
    R: Files<File = File>,
    requires { IfOk gathered (λ found. IsWhole shown.now.config.now found.1) }
    ensures end { (result ≡ Own Unwritten) ⊎ (result ≡ out_of_memory refusing) ⊎ (result ≡ Own (Checked (answer_of gathered))) }
    ensures failed { result ≡ Own Unwritten → W.failures output.old < W.failures output.new }
{
    match gathered {
        Ok((verdict, stretch)) => match lawful {
            Ok(lawful) => {
                let gathered = Gathered {
                    verdict,
                    stretch,
                    lawful,
                };
                show_stretch(rt, alloc, asked, shown, gathered, explainer, output)
            }
            Err(_) => out_of_memory(),
        },
        Err(fault) => Ending::Own(ViewEnd::Checked(Err(fault))),
    }
}

// What a picture shows of a run: its verdict, the stretch before its end, and what would have been lawful there.
#[derive(Drop)]
struct Gathered {
    verdict: Verdict,
    stretch: Stretch,
    lawful: Vec<Lawful>,
}

// Shows the stretch that was gathered of a run.
fn show_stretch<R, W: Sink>(
    rt: &R,
    alloc: Global,
    asked: ViewAsked,
    shown: &Shown<'_>,
    gathered: Gathered,
    explainer: &mut Explainer,
    output: &mut W,
) -> Ending<ViewEnd>
where
    R: Files<File = File>,
    requires { IsWhole shown.now.config.now gathered.stretch }
    ensures end { (result ≡ Own Unwritten) ⊎ (result ≡ out_of_memory refusing) ⊎ (result ≡ Own (Checked (Ok gathered.verdict))) }
    ensures failed { result ≡ Own Unwritten → W.failures output.old < W.failures output.new }
{
    let outcome = Ok(gathered.verdict);
    note_broken(explainer, alloc, shown.options, shown.file, &outcome);
    match write_picture(rt, alloc, asked, shown, gathered, explainer, output) {
        Ok(()) => Ending::Own(ViewEnd::Checked(outcome)),
        Err(PageFault::Memory) => out_of_memory(),
        Err(PageFault::Unwritten) => Ending::Own(ViewEnd::Unwritten),
    }
}

// Writes the picture of the stretch that was gathered of a run.
fn write_picture<R, W: Sink>(
    rt: &R,
    alloc: Global,
    asked: ViewAsked,
    shown: &Shown<'_>,
    gathered: Gathered,
    explainer: &Explainer,
    output: &mut W,
) -> Result<(), PageFault>
where
    R: Files<File = File>,
    requires { IsWhole shown.now.config.now gathered.stretch }
    ensures failed { result ≡ Err PageFault.Unwritten → W.failures output.old < W.failures output.new }
{
    let words = words_of(rt, alloc, asked.at, shown, &gathered, explainer)?;
    let Gathered {
        verdict: _,
        stretch,
        lawful,
    } = gathered;
    let mut drawn = draw_stretch(rt, alloc, shown, stretch, lawful)?;
    drawn
        .picture
        .mark_named(explainer.explanation().words().places())?;
    write_drawn(alloc, asked, &words, &drawn, output)
}

// Writes what was drawn of a run, with these words.
fn write_drawn<W: Sink>(
    alloc: Global,
    asked: ViewAsked,
    words: &PageWords,
    drawn: &Drawn,
    output: &mut W,
) -> Result<(), PageFault>
    ensures failed { result ≡ Err PageFault.Unwritten → W.failures output.old < W.failures output.new }
{
    let scale = scale_of(asked.axis);
    let strips = strips_of(&drawn.picture, scale)?;
    let texts = PageTexts {
        heading: words.heading.as_str(),
        line: words.line.text(),
        explanation: words.explanation.as_str(),
        files: words.files.as_str(),
        figures: drawn.figures.as_str(),
    };
    write_in(
        alloc,
        asked.format,
        &drawn.picture,
        scale,
        strips.as_slice(),
        &texts,
        output,
    )
}

// Writes a picture in this format.
fn write_in<W: Sink>(
    alloc: Global,
    format: Format,
    picture: &Picture,
    scale: Scale,
    strips: &[Strip],
    texts: &PageTexts<'_>,
    output: &mut W,
) -> Result<(), PageFault>
    ensures failed { result ≡ Err PageFault.Unwritten → W.failures output.old < W.failures output.new }
{
    match format {
        Format::Svg => write_svg(alloc, picture, scale, strips, texts, output),
        Format::Html | Format::Trace | Format::Summary | Format::Json => {
            write_html(alloc, picture, scale, strips, texts, output)
        }
    }
}

// What the width of a picture counts.
fn scale_of(axis: Axis) -> Scale {
    match axis {
        Axis::Place => Scale::Places,
        Axis::Time => Scale::Ticks,
    }
}

// What a page says beside its picture.
#[derive(Drop)]
struct PageWords {
    heading: String,
    line: Line,
    explanation: String,
    files: String,
}

// What the page of what was gathered of a run says.
fn words_of<R: Files<File = File>>(
    rt: &R,
    alloc: Global,
    at: Option<u64>,
    shown: &Shown<'_>,
    gathered: &Gathered,
    explainer: &Explainer,
) -> Result<PageWords, AllocError> {
    let outcome = Ok(gathered.verdict);
    let names = shown.names;
    let run_files = RunFiles { rt, alloc, names };
    let explanation = explanation_of(alloc, &run_files, &outcome, explainer)?;
    let heading = heading_of(alloc, at, &gathered.verdict, &gathered.stretch)?;
    let files = files_in_words(alloc, names)?;
    Ok(PageWords {
        heading,
        line: Line::of(&Ending::Own(ViewEnd::Checked(outcome))),
        explanation,
        files,
    })
}

// What the picture shows, in one sentence.
fn heading_of(
    alloc: Global,
    at: Option<u64>,
    verdict: &Verdict,
    stretch: &Stretch,
) -> Result<String, AllocError> {
    let ends_before = stretch.rejected.is_none() && !stretch.is_broken;
    match (verdict, at) {
        (_, Some(at)) if ends_before => { format!(in alloc; "The records up to place {at}") }
        (Verdict::Yes { records }, _) => {
            let all = Count(usize::try_from(*records).unwrap_or(usize::MAX), "record");
            let shown = stretch.kept.len();
            if shown as u64 == *records {
                format!(in alloc; "A lawful recording of {all}")
            } else {
                format!(in alloc; "The last {shown} of a lawful recording of {all}")
            }
        }
        (Verdict::No { pos, .. }, _) => {
            format!(in alloc; "The record at place {} is rejected", pos.number())
        }
        (Verdict::Broken { pos, .. }, _) => {
            format!(in alloc; "The record at place {} breaks a rule", pos.number())
        }
    }
}

/// Why the answer is not Yes, as apexcheck explains it; empty if it is.
pub fn explanation_of<R: Files<File = File>>(
    alloc: Global,
    files: &RunFiles<'_, R>,
    outcome: &Result<Verdict, CheckFault>,
    explainer: &Explainer,
) -> Result<String, AllocError> {
    let mut words = Words::new(alloc);
    words.append(explainer.noted());
    if let Some(reason) = files.reason_of(outcome, explainer) {
        if !words.is_empty() {
            words.next_line();
        }
        words.append(&reason.words);
    }
    if words.lacks_memory() {
        return Err(AllocError);
    }
    format!(in alloc; "{}", words.shown(Look::plain()))
}

// The files, in words.
fn files_in_words(alloc: Global, names: &InputNames) -> Result<String, AllocError> {
    let mut text = format!(in alloc; "{}, {}", names.config, names.order)?;
    for name in names.cores.iter() {
        write!(text, ", {name}")?;
    }
    Ok(text)
}
