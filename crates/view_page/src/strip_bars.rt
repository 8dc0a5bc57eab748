// The bars of a strip, and their texts.

ghost use Rattle.std.specs.Prelude.{◌≡◌, true};
ghost use Rattle.sink.specs.Own.{is_own};

use crate::classes::{classes_of_look, pattern_of};
use crate::layout::{Layout, Sides};
use crate::rows::{MARKS, Row};
use crate::shapes::{
    BAND, BEFORE_TEXT, CHARACTER, INSIDE, Shortened, count_within, tell_box, tell_text,
    width_of_text,
};
use sink::Markup;
use view_picture::{Bar, Lane, LaneKey, Picture, Saying};

/// The fewest characters of a text that are worth showing.
const LEAST_ROOM: u64 = 9 * CHARACTER;

/// The height of a bar whose text is in the middle. The text of a higher bar is at its top, with marks below it.
const TALL: u64 = 19;

// Where the bars of a lane are: those of the windows, which only a core has, and below them the others.
#[derive(Clone, Copy, Debug)]
struct Places {
    y: u64,
    height: u64,
}

// Where the bars of a lane are that are not of windows.
fn places_of(row: Row, lane: &Lane) -> Places {
    match &lane.key {
        LaneKey::Core(_) => Places {
            y: row.y.saturating_add(BAND + 1),
            height: row.height.saturating_sub(BAND + 1 + MARKS),
        },
        LaneKey::Partition(_) | LaneKey::Process(_) | LaneKey::Thing(_) => Places {
            y: row.y,
            height: row.height,
        },
    }
}

/// Adds the bars of a lane, without their texts.
pub fn tell_bars(out: &mut Markup, picture: &Picture, layout: &Layout, row: Row, lane: &Lane) {
    let windows = Places {
        y: row.y,
        height: BAND,
    };
    for bar in lane.windows.as_slice() {
        tell_bar(out, picture, layout, lane, bar, windows);
    }
    for bar in lane.bars.as_slice() {
        tell_bar(out, picture, layout, lane, bar, places_of(row, lane));
    }
}

/// Adds the texts of the bars of a lane.
pub fn tell_bar_texts(out: &mut Markup, layout: &Layout, row: Row, lane: &Lane) {
    let windows = Places {
        y: row.y,
        height: BAND,
    };
    for bar in lane.windows.as_slice() {
        tell_bar_text(out, layout, lane, bar, windows);
    }
    for bar in lane.bars.as_slice() {
        tell_bar_text(out, layout, lane, bar, places_of(row, lane));
    }
}

// Where a bar of a lane begins and ends in a strip. None if it is not in it, or takes no time.
fn ends_of(layout: &Layout, lane: &Lane, bar: &Bar) -> Option<Sides> {
    let from = bar.from.max(layout.strip.from);
    let to = bar.to.min(layout.strip.to);
    if from >= to {
        return None;
    }
    let (left, right) = (layout.left(lane, from), layout.end(lane, to));
    if left >= right {
        return None;
    }
    Some(Sides { left, right })
}

// A bar, as far as it is in the strip.
fn tell_bar(
    out: &mut Markup,
    picture: &Picture,
    layout: &Layout,
    lane: &Lane,
    bar: &Bar,
    places: Places,
) {
    let Some(Sides { left, right }) = ends_of(layout, lane, bar) else {
        return;
    };
    out.mark("<g class=\"");
    out.mark(classes_of_look(bar.saying.look));
    out.mark("\"><title>");
    out.say(bar.saying.title.as_str());
    tell_stretch(out, picture, bar);
    out.mark("</title><rect class=\"fill\" ");
    tell_box(out, left, places.y, right, places.height);
    out.mark("/>");
    if let Some(pattern) = pattern_of(bar.saying.look) {
        out.mark("<rect class=\"pattern\" fill=\"");
        out.mark(pattern);
        out.mark("\" ");
        tell_box(out, left, places.y, right, places.height);
        out.mark("/>");
    }
    out.mark("</g>\n");
}

// The text of a bar, as far as there is room for it, on a plate of the bar's colour.
fn tell_bar_text(out: &mut Markup, layout: &Layout, lane: &Lane, bar: &Bar, places: Places) {
    let Some(Sides { left, right }) = ends_of(layout, lane, bar) else {
        return;
    };
    let room = right.saturating_sub(left).saturating_sub(INSIDE);
    let Some(text) = text_that_fits(&bar.saying, room) else {
        return;
    };
    let x = left.saturating_add(BEFORE_TEXT);
    let y = places
        .y
        .saturating_add(places.height.min(TALL) / 2)
        .saturating_add(4);
    let end = x
        .saturating_add(width_of_text(text).min(room))
        .saturating_add(1);
    out.mark("<g class=\"");
    out.mark(classes_of_look(bar.saying.look));
    out.mark("\"><rect class=\"plate\" ");
    tell_box(out, x.saturating_sub(2), y.saturating_sub(9), end, 11);
    out.mark("/>");
    let shown = Shortened(text, count_within(text, room));
    tell_text(out, class_of_text(places.height), x, y, shown);
    out.mark("</g>\n");
}

// The class of the text of a bar of this height.
fn class_of_text(height: u64) -> &'static str
    ensures { is_own result.now ≡ true }
{
    if height <= BAND { "said small" } else { "said" }
}

// The text of a bar that has this much room: its text, a shorter one, or as much of its text as has room.
fn text_that_fits(saying: &Saying, room: u64) -> Option<&str> {
    let (text, short, brief) = (
        saying.text.as_str(),
        saying.short.as_str(),
        saying.brief.as_str(),
    );
    if width_of_text(text) <= room {
        Some(text)
    } else if has_room(short, room) {
        Some(short)
    } else if has_room(brief, room) {
        Some(brief)
    } else if room >= LEAST_ROOM {
        Some(text)
    } else {
        None
    }
}

// Whether there is a shorter text that has this much room.
fn has_room(text: &str, room: u64) -> bool {
    !text.is_empty() && width_of_text(text) <= room
}

// The first and the last place of a bar.
fn tell_stretch(out: &mut Markup, picture: &Picture, bar: &Bar) {
    out.mark("\n");
    match picture.columns().get(bar.from) {
        Some(column) if bar.from > 0 => {
            out.say(format_args!("from place {}", column.place.number()));
        }
        _ => out.mark("from before the picture or its first record"),
    }
    match picture.columns().get(bar.to) {
        Some(column) => out.say(format_args!(", up to place {}", column.place.number())),
        None => out.mark(", to the end of the picture"),
    }
}
