// Pictures and pages that go to a sink.

ghost use Rattle.std.specs.Prelude.{◌≡◌, ◌++◌, OnOk, false, true};
ghost use Rattle.sink.specs.Markup.{no_markup};
ghost use Rattle.sink.specs.Own.{is_own};
ghost use Rattle.sink.specs.Written.{IsWritten};
ghost use Rattle.view_page.specs.Sent.{Ends, IsBetween, page_begins, page_ends, svg_begins, svg_ends, taken_by};

use crate::fault::PageFault;
use crate::html::{
    PageTexts, frame_heading, page_foot, page_head, records_heading, strip_heading, tell_figures,
    tell_sizes,
};
use crate::key::tell_key;
use crate::layout::{Layout, Strip};
use crate::scale::Scale;
use crate::strip::{svg_foot, svg_head, tell_elsewhere, tell_frame, tell_near, tell_strip};
use crate::table::{table_foot, table_head, tell_rows};
use sink::{Markup, SendFault, Sink};
use std::alloc::{AllocError, Global};
use view_picture::Picture;

/// Writes a picture by itself: its strips, one below the other, and then the answer.
pub fn write_svg<W: Sink>(
    alloc: Global,
    picture: &Picture,
    scale: Scale,
    strips: &[Strip],
    texts: &PageTexts<'_>,
    output: &mut W,
) -> Result<(), PageFault>
    ensures ends { Ends result (taken_by W.bytes W.failures output.old) (taken_by W.bytes W.failures output.new) }
    ensures whole { OnOk result (IsBetween svg_begins svg_ends (W.bytes output.old) (W.bytes output.new)) }
{
    let mut out = Markup::new(alloc);
    put_with(&mut out, "<svg ", output)?;
    write_alone(&mut out, picture, scale, strips, texts, output)?;
    put_with(&mut out, "</svg>\n", output)
}

// Writes what a picture by itself has within its element, except for what is left in the markup.
fn write_alone<W: Sink>(
    out: &mut Markup,
    picture: &Picture,
    scale: Scale,
    strips: &[Strip],
    texts: &PageTexts<'_>,
    output: &mut W,
) -> Result<(), PageFault>
    ensures { Ends result (taken_by W.bytes W.failures output.old) (taken_by W.bytes W.failures output.new) }
{
    svg_head(out, picture, scale, strips, texts)?;
    put(out, output)?;
    let mut y = 0u64;
    for strip in strips {
        y = tell_strip(out, picture, scale, *strip, y)?;
        put(out, output)?;
    }
    svg_foot(out, picture, texts, y)?;
    Ok(())
}

/// Writes a page. If the recording is lawful, it has one major frame by time, the key, the figures, the strips and the table; otherwise, or if
/// all of it is one strip by time, the last strip, which has the fault, the key, the strips before it, the figures and the table.
pub fn write_html<W: Sink>(
    alloc: Global,
    picture: &Picture,
    scale: Scale,
    strips: &[Strip],
    texts: &PageTexts<'_>,
    output: &mut W,
) -> Result<(), PageFault>
    ensures ends { Ends result (taken_by W.bytes W.failures output.old) (taken_by W.bytes W.failures output.new) }
    ensures whole { OnOk result (IsBetween page_begins page_ends (W.bytes output.old) (W.bytes output.new)) }
{
    let mut out = Markup::new(alloc);
    put_with(&mut out, "<!DOCTYPE html>\n", output)?;
    write_page(&mut out, picture, scale, strips, texts, output)?;
    put_with(&mut out, "</html>\n", output)
}

// Writes what a page has between its document type and its end, except for what is left in the markup.
fn write_page<W: Sink>(
    out: &mut Markup,
    picture: &Picture,
    scale: Scale,
    strips: &[Strip],
    texts: &PageTexts<'_>,
    output: &mut W,
) -> Result<(), PageFault>
    ensures { Ends result (taken_by W.bytes W.failures output.old) (taken_by W.bytes W.failures output.new) }
{
    page_head(out, picture, texts);
    tell_sizes(out, picture);
    put(out, output)?;
    write_pictures(out, picture, scale, strips, texts, output)?;
    write_table(out, picture, strips, output)
}

// Writes the pictures of a page, the key and the figures.
fn write_pictures<W: Sink>(
    out: &mut Markup,
    picture: &Picture,
    scale: Scale,
    strips: &[Strip],
    texts: &PageTexts<'_>,
    output: &mut W,
) -> Result<(), PageFault>
    ensures { Ends result (taken_by W.bytes W.failures output.old) (taken_by W.bytes W.failures output.new) }
{
    if texts.explanation.is_empty() && !is_one_by_time(scale, strips) {
        write_lawful(out, picture, scale, strips, texts, output)
    } else {
        write_strips(out, picture, scale, strips, output)?;
        tell_figures(out, texts);
        Ok(())
    }
}

// Whether a picture is one strip by time, in which any major frame of it is.
fn is_one_by_time(scale: Scale, strips: &[Strip]) -> bool {
    scale == Scale::Ticks && strips.len() <= 1
}

// Writes one major frame, the key and the figures, and then all strips.
fn write_lawful<W: Sink>(
    out: &mut Markup,
    picture: &Picture,
    scale: Scale,
    strips: &[Strip],
    texts: &PageTexts<'_>,
    output: &mut W,
) -> Result<(), PageFault>
    ensures { Ends result (taken_by W.bytes W.failures output.old) (taken_by W.bytes W.failures output.new) }
{
    let frame = Layout::of_frame(picture)?;
    add_frame(out, picture, &frame);
    tell_key(out, picture, scale, strips, &frame)?;
    tell_figures(out, texts);
    put(out, output)?;
    records_heading(out, picture);
    write_all(out, picture, scale, strips, output)
}

// Adds a major frame, if the picture has a record at a time.
fn add_frame(out: &mut Markup, picture: &Picture, frame: &Option<Layout>) {
    let Some(layout) = frame else {
        return;
    };
    out.mark("<div class=\"piece\">\n");
    frame_heading(out, picture, layout);
    tell_frame(out, picture, layout);
    out.mark("</div>\n");
}

// Writes the last strip and the key, and then the strips before it.
fn write_strips<W: Sink>(
    out: &mut Markup,
    picture: &Picture,
    scale: Scale,
    strips: &[Strip],
    output: &mut W,
) -> Result<(), PageFault>
    ensures { Ends result (taken_by W.bytes W.failures output.old) (taken_by W.bytes W.failures output.new) }
{
    let Some((last, before)) = strips.split_last() else {
        return Ok(());
    };
    write_piece(out, picture, scale, *last, output)?;
    tell_key(out, picture, scale, strips, &None)?;
    if before.is_empty() {
        return Ok(());
    }
    out.mark("<h2>What came before</h2>\n");
    write_all(out, picture, scale, before, output)
}

// Writes strips, after the markup so far.
fn write_all<W: Sink>(
    out: &mut Markup,
    picture: &Picture,
    scale: Scale,
    strips: &[Strip],
    output: &mut W,
) -> Result<(), PageFault>
    ensures { Ends result (taken_by W.bytes W.failures output.old) (taken_by W.bytes W.failures output.new) }
{
    out.mark("<div class=\"strips\">\n");
    for strip in strips {
        write_piece(out, picture, scale, *strip, output)?;
    }
    out.mark("</div>\n");
    Ok(())
}

// Writes a strip with its heading, if it has records, after the markup so far.
fn write_piece<W: Sink>(
    out: &mut Markup,
    picture: &Picture,
    scale: Scale,
    strip: Strip,
    output: &mut W,
) -> Result<(), PageFault>
    ensures { Ends result (taken_by W.bytes W.failures output.old) (taken_by W.bytes W.failures output.new) }
{
    add_piece(out, picture, scale, strip)?;
    put(out, output)
}

// Adds a strip with its heading, if it has records.
fn add_piece(
    out: &mut Markup,
    picture: &Picture,
    scale: Scale,
    strip: Strip,
) -> Result<(), AllocError> {
    if strip.is_empty() {
        return Ok(());
    }
    let layout = Layout::near(picture, scale, strip)?;
    out.mark("<div class=\"piece\">\n");
    strip_heading(out, picture, &layout);
    tell_near(out, picture, &layout);
    tell_elsewhere(out, picture, scale, strip)?;
    out.mark("</div>\n");
    Ok(())
}

// Writes the table, after the markup so far, and adds the end of the page's body.
fn write_table<W: Sink>(
    out: &mut Markup,
    picture: &Picture,
    strips: &[Strip],
    output: &mut W,
) -> Result<(), PageFault>
    ensures { Ends result (taken_by W.bytes W.failures output.old) (taken_by W.bytes W.failures output.new) }
{
    table_head(out, picture);
    for strip in strips {
        tell_rows(out, picture, *strip);
        put(out, output)?;
    }
    table_foot(out, picture);
    page_foot(out);
    Ok(())
}

// Writes the markup so far and this after it, and forgets it.
fn put_with<W: Sink>(
    out: &mut Markup,
    markup: &'static str,
    output: &mut W,
) -> Result<(), PageFault>
    requires { is_own markup.now ≡ true }
    ensures ends { Ends result (taken_by W.bytes W.failures output.old) (taken_by W.bytes W.failures output.new) }
    ensures sent { OnOk result (IsWritten (W.bytes output.old) (out.old.text ++ markup.now) (W.bytes output.new)) }
    ensures emptied { OnOk result (out.new ≡ no_markup) }
{
    out.mark(markup);
    put(out, output)
}

// Writes the markup so far, and forgets it.
fn put<W: Sink>(out: &mut Markup, output: &mut W) -> Result<(), PageFault>
    ensures ends { Ends result (taken_by W.bytes W.failures output.old) (taken_by W.bytes W.failures output.new) }
    ensures sent { OnOk result (IsWritten (W.bytes output.old) out.old.text (W.bytes output.new)) }
    ensures complete { OnOk result (out.old.lacks_memory ≡ false) }
    ensures emptied { OnOk result (out.new ≡ no_markup) }
{
    match out.send(output) {
        Ok(()) => Ok(()),
        Err(SendFault::Memory) => Err(PageFault::Memory),
        Err(SendFault::Unwritten) => Err(PageFault::Unwritten),
    }
}
