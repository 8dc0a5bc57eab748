// A strip of a picture as SVG.

use crate::classes::{class_of_ground, class_of_status};
use crate::groups::count_elsewhere;
use crate::html::{PageTexts, tell_extent, tell_heading};
use crate::labels::{level, slanted};
use crate::layout::{BEFORE_LABEL, LABELS, Layout, NAMES, Sides, Strip};
use crate::names::{begin_lane, tell_names};
use crate::scale::Scale;
use crate::shapes::{Numbered, tell_rect, tell_size, tell_text};
use crate::strip_bars::{tell_bar_texts, tell_bars};
use crate::strip_marks::{tell_arrows, tell_boxes, tell_points};
use crate::style::{DEFINITIONS, STYLE};
use crate::target::tell_target;
use crate::times::{tell_again, tell_bounds, tell_record, tell_slots, tell_times};
use crate::wrapped::{longest, wrapped_lines};
use sink::Markup;
use std::alloc::AllocError;
use view_picture::{Column, Picture, Status};

/// The height of a line of text below a picture.
const TEXT_LINE: u64 = 17;

/// The width of a character of such a line.
const ANSWER_CHARACTER: u64 = 8;

/// The space before such a line.
const BEFORE_ANSWER: u64 = 8;

/// Begins a picture by itself, with these strips one below the other.
pub fn svg_head(
    out: &mut Markup,
    picture: &Picture,
    scale: Scale,
    strips: &[Strip],
    texts: &PageTexts<'_>,
) -> Result<(), AllocError> {
    let lines = wrapped_lines(picture.alloc(), texts)?;
    let mut width = width_of_lines(&lines);
    let mut height = TEXT_LINE.saturating_mul((lines.len() as u64).saturating_add(1));
    for strip in strips {
        if strip.is_empty() {
            continue;
        }
        let layout = Layout::whole(picture, scale, *strip)?;
        width = width.max(layout.width);
        height = height.saturating_add(layout.height);
    }
    out.mark("xmlns=\"http://www.w3.org/2000/svg\" class=\"alone\"");
    tell_size(out, 0, width, height);
    out.mark(">\n<title>");
    tell_heading(out, picture, texts);
    out.mark("</title>\n<style>");
    out.mark(STYLE);
    out.mark("</style>\n");
    out.mark(DEFINITIONS);
    out.mark("<rect class=\"paper\" width=\"100%\" height=\"100%\"/>\n");
    Ok(())
}

/// Ends a picture by itself, whose strips end at this height, with the line of the answer and why it is not Yes.
pub fn svg_foot(
    out: &mut Markup,
    picture: &Picture,
    texts: &PageTexts<'_>,
    y: u64,
) -> Result<(), AllocError> {
    let mut y = y;
    out.mark("<g class=\"answer\">\n");
    for line in wrapped_lines(picture.alloc(), texts)?.iter() {
        y = y.saturating_add(TEXT_LINE);
        tell_text(out, "line", BEFORE_ANSWER, y, line);
    }
    out.mark("</g>\n");
    Ok(())
}

// The width of the lines of an answer.
fn width_of_lines(lines: &[String]) -> u64 {
    let longest = (longest(lines) as u64).saturating_mul(ANSWER_CHARACTER);
    longest.saturating_add(2 * BEFORE_ANSWER)
}

/// Adds a strip to a picture by itself, at this height, if it has records. Returns the height at which it ends.
pub fn tell_strip(
    out: &mut Markup,
    picture: &Picture,
    scale: Scale,
    strip: Strip,
    y: u64,
) -> Result<u64, AllocError> {
    if strip.is_empty() {
        return Ok(y);
    }
    let layout = Layout::whole(picture, scale, strip)?;
    out.mark("<svg class=\"strip\" y=\"");
    out.say(y);
    out.mark("\"");
    tell_size(out, 0, layout.width, layout.height);
    out.mark(" role=\"img\">\n<title>");
    tell_extent(out, picture, &layout);
    out.mark("</title>\n");
    tell_names(out, picture, &layout);
    tell_near_parts(out, picture, &layout);
    out.mark("</svg>\n");
    Ok(y.saturating_add(layout.height))
}

/// Adds a strip to a page.
pub fn tell_near(out: &mut Markup, picture: &Picture, layout: &Layout) {
    begin_box(out, picture, layout);
    tell_near_parts(out, picture, layout);
    end_box(out);
}

// What is in a strip that has the labels of its records, except for the names of the lanes.
fn tell_near_parts(out: &mut Markup, picture: &Picture, layout: &Layout) {
    tell_grounds(out, picture, layout);
    tell_times(out, picture, layout);
    tell_columns(out, picture, layout);
    tell_lanes(out, picture, layout);
}

/// Adds a major frame to a page.
pub fn tell_frame(out: &mut Markup, picture: &Picture, layout: &Layout) {
    begin_box(out, picture, layout);
    tell_grounds(out, picture, layout);
    tell_times(out, picture, layout);
    tell_again(out, picture, layout);
    tell_lanes(out, picture, layout);
    end_box(out);
}

/// Adds the lanes of a strip that have nothing to do with a fault in it, folded, if there are any.
pub fn tell_elsewhere(
    out: &mut Markup,
    picture: &Picture,
    scale: Scale,
    strip: Strip,
) -> Result<(), AllocError> {
    let count = count_elsewhere(picture, strip);
    if count == 0 {
        return Ok(());
    }
    let layout = Layout::elsewhere(picture, scale, strip)?;
    out.mark("<details class=\"elsewhere\">\n<summary>");
    out.say(count);
    out.say(if count == 1 {
        " more lane"
    } else {
        " more lanes"
    });
    out.mark(", which the fault does not touch</summary>\n");
    begin_box(out, picture, &layout);
    tell_grounds(out, picture, &layout);
    tell_numbers(out, picture, &layout);
    tell_lanes(out, picture, &layout);
    end_box(out);
    out.mark("</details>\n");
    Ok(())
}

// Begins the box of a page in which a strip scrolls sideways: the names of its lanes, which stay, and the strip up to its title.
fn begin_box(out: &mut Markup, picture: &Picture, layout: &Layout) {
    out.mark("<div class=\"scrolled\" tabindex=\"0\"><div class=\"beside\">\n");
    tell_target(out, picture, layout);
    out.mark("<svg class=\"strip names\"");
    tell_size(out, 0, NAMES, layout.height);
    out.mark(">\n<rect class=\"paper\" width=\"100%\" height=\"100%\"/>\n");
    tell_names(out, picture, layout);
    out.mark("</svg>\n<svg class=\"strip\"");
    tell_size(
        out,
        NAMES,
        layout.width.saturating_sub(NAMES),
        layout.height,
    );
    out.mark(" role=\"img\">\n<title>");
    tell_extent(out, picture, layout);
    out.mark("; the table below says the same</title>\n");
}

// Ends that box.
fn end_box(out: &mut Markup) {
    out.mark("</svg>\n</div></div>\n");
}

// The labels and numbers of the records, and what each says when a person points at it. By ticks, the records at a time have neither.
fn tell_columns(out: &mut Markup, picture: &Picture, layout: &Layout) {
    let is_by_ticks = layout.edges.ticks().is_some();
    if is_by_ticks {
        tell_slots(out, picture, layout);
    }
    for column in layout.strip.from..layout.strip.to {
        if let Some(one) = picture.columns().get(column) {
            if !is_by_ticks || one.time.is_none() {
                tell_column(out, layout, column, one);
            }
        }
    }
}

// The numbers of the records alone, or the times and the records that are at one.
fn tell_numbers(out: &mut Markup, picture: &Picture, layout: &Layout) {
    if layout.edges.ticks().is_some() {
        tell_times(out, picture, layout);
        tell_slots(out, picture, layout);
        return;
    }
    for column in layout.strip.from..layout.strip.to {
        if let Some(one) = picture.columns().get(column) {
            tell_number(out, layout, column, one);
        }
    }
}

// The lanes of a strip. No line is over a text: first the bars, then the frames, the arrows and the marks without texts, and then all texts.
fn tell_lanes(out: &mut Markup, picture: &Picture, layout: &Layout) {
    for row in layout.rows.iter() {
        if let Some(lane) = picture.lanes().get(row.lane) {
            begin_lane(out, lane);
            tell_bars(out, picture, layout, *row, lane);
            out.mark("</g>\n");
        }
    }
    tell_bounds(out, picture, layout);
    tell_frames(out, picture, layout);
    tell_arrows(out, picture, layout);
    for row in layout.rows.iter() {
        if let Some(lane) = picture.lanes().get(row.lane) {
            begin_lane(out, lane);
            tell_points(out, picture, layout, *row, lane);
            out.mark("</g>\n");
        }
    }
    for row in layout.rows.iter() {
        if let Some(lane) = picture.lanes().get(row.lane) {
            begin_lane(out, lane);
            tell_bar_texts(out, layout, *row, lane);
            tell_boxes(out, picture, layout, *row, lane);
            out.mark("</g>\n");
        }
    }
}

// The grounds of the lanes, and of the records that are rejected, named by the explanation, or not judged.
fn tell_grounds(out: &mut Markup, picture: &Picture, layout: &Layout) {
    for row in layout.rows.iter() {
        tell_rect(
            out,
            "ground",
            LABELS,
            row.y,
            layout.edges.right(),
            row.height,
        );
    }
    let height = layout.bottom.saturating_sub(layout.top);
    for column in layout.strip.from..layout.strip.to {
        let Some(one) = picture.columns().get(column) else {
            continue;
        };
        let Some(class) = class_of_ground(one.status, picture.is_named(one.place)) else {
            continue;
        };
        let Sides { left, right } = layout.sides(one, column);
        tell_rect(out, class, left, layout.top, right, height);
    }
}

// The frame around a record that is rejected or whose view breaks a rule, and the text over the records that are not judged.
fn tell_frames(out: &mut Markup, picture: &Picture, layout: &Layout) {
    let height = layout.bottom.saturating_sub(layout.top);
    let mut is_said = false;
    for column in layout.strip.from..layout.strip.to {
        let Some(one) = picture.columns().get(column) else {
            continue;
        };
        let Sides { left, right } = layout.sides(one, column);
        match one.status {
            Status::Accepted => {}
            Status::Rejected | Status::Broken => {
                tell_rect(out, "frame", left, layout.top, right, height);
            }
            Status::After | Status::Beyond if !is_said => {
                is_said = true;
                let y = layout.foot_of_labels.saturating_add(11);
                let said = if one.status == Status::After {
                    "not judged"
                } else {
                    "not shown"
                };
                tell_text(out, "place", left.saturating_add(3), y, said);
            }
            Status::After | Status::Beyond => {}
        }
    }
}

// The label of a record, its place, and what it says when a person points at it.
fn tell_column(out: &mut Markup, layout: &Layout, index: usize, column: &Column) {
    let Sides { left, right } = layout.sides(column, index);
    out.mark("<g class=\"record ");
    out.mark(class_of_status(column.status));
    out.mark("\" data-place=\"");
    out.say(column.place.number());
    out.mark("\"><title>");
    tell_record(out, column);
    out.mark("</title>\n");
    let height = layout.bottom.saturating_sub(layout.foot_of_labels);
    tell_rect(out, "hit", left, layout.foot_of_labels, right, height);
    if column.status.is_judged() {
        tell_label_at(out, layout, left, column);
    }
    tell_number(out, layout, index, column);
    out.mark("</g>\n");
}

/// Adds the label of a record at this left edge: slanted, or by ticks, where it is the only one, above the major frames.
pub fn tell_label_at(out: &mut Markup, layout: &Layout, left: u64, column: &Column) {
    out.mark("<text class=\"label\" transform=\"translate(");
    let is_level = layout.edges.ticks().is_some();
    if is_level {
        out.say(layout.left_of_label(column, left));
        out.mark(",13)\">");
    } else {
        out.say(left.saturating_add(BEFORE_LABEL));
        out.mark(",");
        out.say(layout.foot_of_labels.saturating_sub(5));
        out.mark(") rotate(-62)\">");
    }
    if column.status.is_fault() {
        out.mark("✗ ");
    }
    out.say(if is_level {
        level(column)
    } else {
        slanted(column)
    });
    out.mark("</text>\n");
}

// The place of a record that is judged, if there is room for it.
fn tell_number(out: &mut Markup, layout: &Layout, index: usize, column: &Column) {
    if !column.status.is_judged() {
        return;
    }
    let place = column.place.number();
    let x = layout.sides(column, index).left.saturating_add(2);
    let y = layout.foot_of_labels.saturating_add(11);
    if layout.edges.ticks().is_some() {
        tell_text(out, "place", x, y, Numbered("place", place));
    } else if place < 10_000 || index % 3 == 0 {
        tell_text(out, "place", x, y, place);
    }
}
