// The marks and the arrows of a strip.

use crate::classes::{
    class_of_point, classes_of_arrow, classes_of_box, sign_of_box, words_of_arrow,
};
use crate::layout::{LABELS, Layout};
use crate::rows::{ABOVE_FOOT, BESIDE_BOX, BoxLines, MARKS, Row, count_box_lines};
use crate::shapes::{tell_box, tell_line, tell_text};
use sink::Markup;
use std::fmt::Display;
use view_picture::{Arrow, ArrowEnd, ArrowKind, Lane, Mark, MarkKind, Picture};

/// How far the two lines of a mark with a text are from their middle.
const HALF_LINE: u64 = 7;

// The marks of a lane at the left edges of records.
pub(crate) fn tell_points(
    out: &mut Markup,
    picture: &Picture,
    layout: &Layout,
    row: Row,
    lane: &Lane,
) {
    for mark in lane.marks.iter() {
        if layout.has(picture, mark.column) && !mark.kind.is_box() {
            tell_point_mark(out, picture, layout, lane, mark, row);
        }
    }
}

// The marks of a lane that have their texts beside them, one below the other.
pub(crate) fn tell_boxes(
    out: &mut Markup,
    picture: &Picture,
    layout: &Layout,
    row: Row,
    lane: &Lane,
) {
    let line = row.height / count_box_lines(lane).max(1);
    let mut y = row.y;
    for mark in lane.marks.iter() {
        if layout.has(picture, mark.column) && mark.kind.is_box() {
            let height = line.saturating_mul(BoxLines::of(mark).count());
            tell_box_mark(out, layout, lane, mark, y, height);
            y = y.saturating_add(height);
        }
    }
}

// A mark with its text in the column of the record that is rejected.
fn tell_box_mark(out: &mut Markup, layout: &Layout, lane: &Lane, mark: &Mark, y: u64, height: u64) {
    let (left, right) = (
        layout.left(lane, mark.column).saturating_add(BESIDE_BOX),
        layout
            .left(lane, mark.column.saturating_add(1))
            .saturating_sub(BESIDE_BOX),
    );
    out.mark("<g class=\"");
    out.mark(classes_of_box(mark.kind));
    out.mark("\"><title>");
    out.say(mark.text.as_str());
    out.mark("</title><rect ");
    tell_box(
        out,
        left,
        y.saturating_add(1),
        right,
        height.saturating_sub(2),
    );
    out.mark("/>");
    let middle = y.saturating_add(height / 2).saturating_add(4);
    tell_box_lines(out, mark, left.saturating_add(4), middle);
    out.mark("</g>\n");
}

// The lines of a mark with its text, around the line at this height.
fn tell_box_lines(out: &mut Markup, mark: &Mark, x: u64, middle: u64) {
    let BoxLines { first, second } = BoxLines::of(mark);
    let signed = Signed(mark.kind, first);
    match second {
        None => tell_text(out, "said", x, middle, signed),
        Some(second) => {
            tell_text(out, "said", x, middle.saturating_sub(HALF_LINE), signed);
            tell_text(out, "said", x, middle.saturating_add(HALF_LINE), second);
        }
    }
}

// A text after the sign of its mark.
#[derive(Clone, Copy)]
struct Signed<'a>(MarkKind, &'a str);

impl Display for Signed<'_> {
    fn fmt<W: std::fmt::Write>(&self, f: &mut std::fmt::Formatter<W>) -> std::fmt::Result {
        write!(f, "{}{}", sign_of_box(self.0), self.1)
    }
}

// A mark at the left edge of a record.
fn tell_point_mark(
    out: &mut Markup,
    picture: &Picture,
    layout: &Layout,
    lane: &Lane,
    mark: &Mark,
    row: Row,
) {
    out.mark("<g class=\"mark ");
    out.mark(class_of_point(mark.kind));
    out.mark("\"><title>");
    out.say(mark.text.as_str());
    if let Some(column) = picture.columns().get(mark.column) {
        out.mark("\n");
        out.say(column.source.as_str());
    }
    out.mark("</title>");
    tell_point(out, picture, layout, lane, mark, row);
    out.mark("</g>\n");
}

// The sign of a mark at the left edge of a record.
fn tell_point(
    out: &mut Markup,
    picture: &Picture,
    layout: &Layout,
    lane: &Lane,
    mark: &Mark,
    row: Row,
) {
    let x = layout.left(lane, mark.column);
    match mark.kind {
        MarkKind::Tick => tell_line(out, x, row.foot().saturating_sub(MARKS), row.foot()),
        MarkKind::Restart => {
            let bottom = foot_of_partition(picture, layout, row);
            tell_line(out, x, row.y.saturating_sub(4), bottom);
        }
        MarkKind::Dispatch => {
            out.mark("<path d=\"M");
            out.say(format_args!("{x},{}", row.foot().saturating_sub(MARKS)));
            out.mark("l9,6l-9,6z\"/>");
        }
        MarkKind::Call
        | MarkKind::Return
        | MarkKind::Crossing
        | MarkKind::Error
        | MarkKind::Rejected
        | MarkKind::Lawful
        | MarkKind::Unlawful => {
            out.mark("<circle r=\"3.5\" cx=\"");
            out.say(x);
            out.mark("\" cy=\"");
            out.say(row.foot().saturating_sub(ABOVE_FOOT));
            out.mark("\"/>");
        }
    }
}

// Where the last lane of the partition of this lane ends.
fn foot_of_partition(picture: &Picture, layout: &Layout, row: Row) -> u64 {
    let part = match picture.lanes().get(row.lane) {
        Some(lane) => lane.key.partition(),
        None => None,
    };
    let mut foot = row.foot();
    for other in layout.rows.iter() {
        if let Some(lane) = picture.lanes().get(other.lane) {
            if lane.key.partition() == part {
                foot = foot.max(other.foot());
            }
        }
    }
    foot
}

// Arrows, as far as they are in the strip, over broader lines in the colour of the background. Those of all come first, so that none hides
// the head of another arrow.
pub(crate) fn tell_arrows(out: &mut Markup, picture: &Picture, layout: &Layout) {
    for arrow in picture.arrows().iter() {
        if let Some(way) = way_of(picture, layout, arrow) {
            tell_halo(out, arrow, way);
        }
    }
    for arrow in picture.arrows().iter() {
        if let Some(way) = way_of(picture, layout, arrow) {
            tell_arrow(out, arrow, way);
        }
    }
}

/// Whether a strip has an arrow of this kind.
pub(crate) fn has_arrow(picture: &Picture, layout: &Layout, kind: ArrowKind) -> bool {
    picture.arrows().iter().any(|arrow| arrow.kind == kind
        && way_of(picture, layout, arrow).is_some())
}

// The path of an arrow, if a part of it is in the strip.
fn way_of(picture: &Picture, layout: &Layout, arrow: &Arrow) -> Option<Way> {
    if !is_at(picture, layout, &arrow.from) && !is_at(picture, layout, &arrow.to) {
        return None;
    }
    Some(Way {
        kind: arrow.kind,
        from: point_of(picture, layout, &arrow.from)?,
        to: point_of(picture, layout, &arrow.to)?,
    })
}

// The line below an arrow along this path.
fn tell_halo(out: &mut Markup, arrow: &Arrow, way: Way) {
    out.mark("<g class=\"");
    out.mark(classes_of_arrow(arrow.kind));
    out.mark("\"><path class=\"halo\" d=\"");
    out.say(way);
    out.mark("\"/></g>\n");
}

// An arrow along this path.
fn tell_arrow(out: &mut Markup, arrow: &Arrow, way: Way) {
    out.mark("<g class=\"");
    out.mark(classes_of_arrow(arrow.kind));
    out.mark("\"><title>");
    out.mark(words_of_arrow(arrow.kind));
    out.say(format_args!(
        ": from place {} to place {}",
        arrow.from.place, arrow.to.place
    ));
    out.mark("</title><path class=\"way\" d=\"");
    out.say(way);
    out.mark("\"/></g>\n");
}

// The path of an arrow, from one point to another.
#[derive(Clone, Copy)]
struct Way {
    kind: ArrowKind,
    from: (u64, u64),
    to: (u64, u64),
}

impl Display for Way {
    fn fmt<W: std::fmt::Write>(&self, f: &mut std::fmt::Formatter<W>) -> std::fmt::Result {
        let ((left, top), (right, bottom)) = (self.from, self.to);
        match self.kind {
            ArrowKind::Wake => {
                let (left, right) = (left.saturating_add(3), right.saturating_add(3));
                write!(f, "M{left},{top}L{right},{bottom}")
            }
            ArrowKind::Message => {
                let middle = left.saturating_add(right) / 2;
                write!(
                    f,
                    "M{left},{top}C{middle},{top} {middle},{bottom} {right},{bottom}"
                )
            }
        }
    }
}

// Whether an end of an arrow is in the strip.
fn is_at(picture: &Picture, layout: &Layout, end: &ArrowEnd) -> bool {
    match end.column {
        Some(column) => layout.has(picture, column),
        None => false,
    }
}

// Where an end of an arrow is; at the nearer edge, if it is not in the strip. None if the strip does not show its lane.
fn point_of(picture: &Picture, layout: &Layout, end: &ArrowEnd) -> Option<(u64, u64)> {
    let (row, lane) = layout.row(picture, &end.lane)?;
    let x = match end.column {
        None => LABELS,
        Some(column) if column < layout.strip.from => LABELS,
        Some(column) if column >= layout.strip.to => layout.edges.right(),
        Some(column) => layout.left(lane, column),
    };
    Some((x, row.end_of_arrow(&end.lane)))
}
