// A strip whose width counts ticks: the scale of its times, and its records in the lanes of their cores.

ghost use Rattle.std.specs.Prelude.{◌≡◌, true};
ghost use Rattle.sink.specs.Own.{is_own};

use crate::classes::{class_of_again, class_of_slot};
use crate::layout::{LABELS, Layout};
use crate::rows::MARKS;
use crate::scale::Ticks;
use crate::shapes::{Numbered, tell_box, tell_line_of, tell_text};
use crate::strip::tell_label_at;
use sink::Markup;
use view_picture::{Column, LaneKey, Picture};

/// The height of the short line where a tick begins.
const SHORT: u64 = 4;

/// The least distance of the numbers of times and of major frames, and the width of a digit of a time.
const APART: u64 = 12;

const FRAMES_APART: u64 = 100;

const DIGIT: u64 = 6;

/// Adds the times: a short line where each tick begins, the numbers of as many of them as there is room for, and the numbers of the major
/// frames.
pub fn tell_times(out: &mut Markup, picture: &Picture, layout: &Layout) {
    let Some(ticks) = layout.edges.ticks() else {
        return;
    };
    tell_numbers(out, layout, ticks);
    let (top, bottom) = (layout.top.saturating_sub(SHORT), layout.top);
    for index in 0..ticks.len() {
        let x = ticks.left(ticks.from.saturating_add(index));
        tell_line_of(out, "short", x, top, bottom);
    }
    if layout.foot_of_labels > 0 {
        tell_frames(out, picture, layout, ticks);
    }
}

// The numbers of times: of the first one, and then of as many as there is room for.
fn tell_numbers(out: &mut Markup, layout: &Layout, ticks: Ticks) {
    let width = digits_of(ticks.to).saturating_mul(DIGIT);
    let room = width.saturating_add(APART);
    let every = every_of(ticks, room).max(1);
    let y = layout.foot_of_labels.saturating_add(11);
    let mut free = LABELS;
    for index in 0..ticks.len() {
        let time = ticks.from.saturating_add(index);
        let x = ticks.left(time).saturating_add(2);
        let is_free = x >= free && x.saturating_add(width) <= ticks.left(ticks.to);
        if index == 0 || time % every == 0 && is_free {
            tell_text(out, "place", x, y, time);
            free = x.saturating_add(room);
        }
    }
}

// Of how many ticks one has its number, if a number needs this room.
fn every_of(ticks: Ticks, room: u64) -> u64 {
    for every in [1, 2, 5, 10, 20, 50, 100, 200, 500] {
        if ticks.width.saturating_mul(every) >= room {
            return every;
        }
    }
    1000
}

// How many digits a number has.
fn digits_of(number: u64) -> u64 {
    let mut count = 1u64;
    let mut rest = number / 10;
    for _ in 0..20 {
        if rest == 0 {
            break;
        }
        rest = rest / 10;
        count = count.saturating_add(1);
    }
    count
}

// The numbers of the major frames, as far as there is room for them.
fn tell_frames(out: &mut Markup, picture: &Picture, layout: &Layout, ticks: Ticks) {
    let frame = picture.frame().max(1);
    let y = layout.foot_of_labels.saturating_sub(3);
    let mut free = LABELS;
    for index in 0..ticks.len() {
        let time = ticks.from.saturating_add(index);
        let x = ticks.left(time);
        if (index == 0 || time % frame == 0) && x >= free {
            let text = Numbered("major frame", time / frame);
            tell_text(out, "place", x.saturating_add(2), y, text);
            free = x.saturating_add(FRAMES_APART);
        }
    }
}

/// Adds a line through all lanes where each major frame begins.
pub fn tell_bounds(out: &mut Markup, picture: &Picture, layout: &Layout) {
    let Some(ticks) = layout.edges.ticks() else {
        return;
    };
    let frame = picture.frame().max(1);
    for index in 0..ticks.len() {
        let time = ticks.from.saturating_add(index);
        if time % frame == 0 {
            let x = ticks.left(time);
            tell_line_of(out, "bound", x, layout.foot_of_labels, layout.bottom);
        }
    }
}

/// Adds the records at a time, each in the lane of its core.
pub fn tell_slots(out: &mut Markup, picture: &Picture, layout: &Layout) {
    for index in layout.strip.from..layout.strip.to {
        if let Some(one) = picture.columns().get(index) {
            if one.time.is_some() {
                tell_slot(out, picture, layout, index, one, class_of_slot(one.status));
            }
        }
    }
}

/// Adds the records of a major frame, which a strip of the page shows too.
pub fn tell_again(out: &mut Markup, picture: &Picture, layout: &Layout) {
    for index in layout.strip.from..layout.strip.to {
        if let Some(one) = picture.columns().get(index) {
            if layout.has(picture, index) {
                tell_slot(out, picture, layout, index, one, class_of_again(one.status));
            }
        }
    }
}

// A record in the lane of its core below the bars, and what it says when a person points at it.
fn tell_slot(
    out: &mut Markup,
    picture: &Picture,
    layout: &Layout,
    index: usize,
    record: &Column,
    class: &'static str,
)
    requires { is_own class.now ≡ true }
{
    let Some((row, _lane)) = layout.row(picture, &LaneKey::Core(record.core)) else {
        return;
    };
    out.mark("<g class=\"");
    out.mark(class);
    out.mark("\" data-place=\"");
    out.say(record.place.number());
    out.mark("\"><title>");
    tell_record(out, record);
    out.mark("</title><rect class=\"hit slot\" ");
    let sides = layout.sides(record, index);
    tell_box(
        out,
        sides.left,
        row.foot().saturating_sub(MARKS),
        sides.right,
        MARKS,
    );
    out.mark("/>");
    if record.status.is_fault() {
        tell_label_at(out, layout, sides.left, record);
    }
    out.mark("</g>\n");
}

/// Adds what a record says when a person points at it.
pub fn tell_record(out: &mut Markup, record: &Column) {
    out.say(format_args!(
        "place {}, core {}: {}\n{}",
        record.place.number(),
        record.core.number(),
        record.words,
        record.source
    ))
}
