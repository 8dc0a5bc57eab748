// What a narrow screen shows first of a strip that has a record that is rejected or breaks a rule.

use crate::labels::{width_of_level, width_of_slanted};
use crate::layout::{BEFORE_LABEL, Layout, NAMES, Sides};
use sink::Markup;
use view_picture::{Column, Picture};

/// The width of what is shown of a strip beside the names of its lanes, and the least width of that on any screen.
const SHOWN: u64 = 212;

const LEAST_SHOWN: u64 = 156;

/// The least width of what is shown before the record, if there is room, and the width of what is shown after it.
const BEFORE_RECORD: u64 = 26;

const AFTER_RECORD: u64 = 8;

/// Adds what is shown first of a strip that has such a record: its box begins scrolled there.
pub(crate) fn tell_target(out: &mut Markup, picture: &Picture, layout: &Layout) {
    let Some(Sides { left, right }) = target_of(picture, layout) else {
        return;
    };
    out.mark("<div class=\"to-fault\"><svg width=\"");
    out.say(left);
    out.mark("\" height=\"1\"></svg><svg class=\"target\" width=\"");
    out.say(right.saturating_sub(left));
    out.mark("\" height=\"1\"></svg></div>\n");
}

// What is shown first of a strip that has such a record.
fn target_of(picture: &Picture, layout: &Layout) -> Option<Sides> {
    for index in layout.strip.from..layout.strip.to {
        if let Some(column) = picture.columns().get(index) {
            if column.status.is_fault() {
                return Some(target_at(layout, column, index));
            }
        }
    }
    None
}

// The record of this column, or its beginning if it is wide, with its label and what comes before it, and to their left the names of the
// lanes, which cover as much of the box.
fn target_at(layout: &Layout, record: &Column, index: usize) -> Sides {
    let Sides { left, right } = layout.sides(record, index);
    let label = sides_of_label(layout, record, left);
    let from = left.min(label.left);
    let to = right
        .saturating_add(AFTER_RECORD)
        .min(from.saturating_add(SHOWN - BEFORE_RECORD))
        .max(label.right);
    let free = SHOWN.saturating_sub(to.saturating_sub(from));
    let most = LEAST_SHOWN.saturating_sub(right.saturating_sub(from));
    let before = free.min(most.max(BEFORE_RECORD));
    Sides {
        left: from.saturating_sub(NAMES.saturating_add(before)),
        right: to.min(layout.width),
    }
}

// Where the label of a record begins and ends whose left edge is here.
fn sides_of_label(layout: &Layout, record: &Column, left: u64) -> Sides {
    if layout.edges.ticks().is_some() {
        let left = layout.left_of_label(record, left);
        let right = left.saturating_add(width_of_level(record));
        return Sides { left, right };
    }
    let width = width_of_slanted(record) / 2;
    Sides {
        left,
        right: left.saturating_add(BEFORE_LABEL).saturating_add(width),
    }
}
