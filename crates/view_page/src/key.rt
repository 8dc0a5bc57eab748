// The key of a page.

ghost use Rattle.std.specs.Prelude.{◌≡◌, true};
ghost use Rattle.sink.specs.Own.{is_own};

use crate::classes::{class_of_point, classes_of_arrow, classes_of_look, pattern_of};
use crate::groups::{count_elsewhere, is_shown};
use crate::layout::{Layout, Strip};
use crate::scale::Scale;
use crate::strip_marks::has_arrow;
use sink::Markup;
use std::alloc::AllocError;
use view_picture::{ArrowKind, Bar, Lane, Look, MarkKind, Picture, Status};

/// What the key says of each look. A core with an occupant looks like a process that runs.
const LOOKS: [(Look, &str); 15] = [
    (Look::Window, "a core in a window of a partition"),
    (Look::NoWindow, "a core in no window"),
    (Look::Running, "runs on a core"),
    (Look::Idle, "an idle core"),
    (Look::Raised, "runs with a priority above its own"),
    (Look::Ready, "ready"),
    (
        Look::Preempted,
        "ready, and preempted: another process took its core",
    ),
    (Look::Waiting, "waits"),
    (Look::Suspended, "suspended by another process"),
    (
        Look::Faulted,
        "faulted: the error handler has not dealt with its error",
    ),
    (Look::Dormant, "dormant"),
    (Look::Free, "object or channel"),
    (Look::Awaited, "object or channel at which processes wait"),
    (Look::Normal, "the mode NORMAL"),
    (Look::OtherMode, "a mode other than NORMAL"),
];

/// What the key says of each mark at a record.
const POINTS: [(MarkKind, &str); 7] = [
    (MarkKind::Call, "call"),
    (MarkKind::Return, "return"),
    (
        MarkKind::Crossing,
        "a message comes from outside, or goes there",
    ),
    (MarkKind::Error, "error"),
    (MarkKind::Dispatch, "dispatch"),
    (MarkKind::Tick, "tick of a core"),
    (MarkKind::Restart, "a restart of the partition"),
];

/// What the key says of each arrow.
const ARROWS: [(ArrowKind, &str); 2] = [
    (ArrowKind::Wake, "ends a wait"),
    (
        ArrowKind::Message,
        "a message, from its sender to its receiver",
    ),
];

/// Adds the key of the picture, if it has records: the looks of bars, the marks, the arrows and the grounds of records that a page with these
/// strips, and this major frame if it has one, uses.
pub fn tell_key(
    out: &mut Markup,
    picture: &Picture,
    scale: Scale,
    strips: &[Strip],
    frame: &Option<Layout>,
) -> Result<(), AllocError> {
    if picture.len() == 0 {
        return Ok(());
    }
    out.mark("<ul class=\"key\">\n");
    for (look, text) in LOOKS {
        if is_used(picture, look) {
            tell_look(out, look, text);
        }
    }
    for (kind, text) in POINTS {
        if has_mark(picture, kind) {
            tell_point(out, kind, text);
        }
    }
    for (kind, text) in ARROWS {
        if is_drawn(picture, scale, strips, frame, kind)? {
            tell_arrow(out, kind, text);
        }
    }
    tell_grounds(out, picture);
    out.mark(NUMBERS);
    out.mark("</ul>\n");
    Ok(())
}

// Whether a bar of a lane that the page shows has this look.
fn is_used(picture: &Picture, look: Look) -> bool {
    picture
        .lanes()
        .iter()
        .any(|lane| has_look(lane, look) && is_shown(picture, lane))
}

fn has_look(lane: &Lane, look: Look) -> bool {
    lane.windows.as_slice().iter().any(|bar| looks(bar, look))
        || lane.bars.as_slice().iter().any(|bar| looks(bar, look))
}

// Whether a bar that takes a record has this look.
fn looks(bar: &Bar, look: Look) -> bool {
    let shown = match bar.saying.look {
        Look::Occupied => Look::Running,
        other => other,
    };
    shown == look && bar.from < bar.to
}

fn tell_look(out: &mut Markup, look: Look, text: &'static str) {
    out.mark("<li><svg width=\"34\" height=\"18\" aria-hidden=\"true\"><g class=\"");
    out.mark(classes_of_look(look));
    out.mark("\"><rect class=\"fill\" x=\"2\" y=\"2\" width=\"30\" height=\"14\"/>");
    if let Some(pattern) = pattern_of(look) {
        out.mark("<rect class=\"pattern\" fill=\"");
        out.mark(pattern);
        out.mark("\" x=\"2\" y=\"2\" width=\"30\" height=\"14\"/>");
    }
    out.mark("</g></svg>");
    out.say(text);
    out.mark("</li>\n");
}

// Whether a lane has a mark of this kind. The lane of each mark is in the strip of its record.
fn has_mark(picture: &Picture, kind: MarkKind) -> bool {
    picture.lanes().iter().any(|lane| is_marked(lane, kind))
}

fn is_marked(lane: &Lane, kind: MarkKind) -> bool {
    lane.marks.iter().any(|mark| mark.kind == kind)
}

fn tell_point(out: &mut Markup, kind: MarkKind, text: &'static str) {
    out.mark(
        "<li><svg class=\"point\" width=\"18\" height=\"18\" aria-hidden=\"true\"><g class=\"mark ",
    );
    out.mark(class_of_point(kind));
    out.mark("\">");
    out.mark(shape_of_point(kind));
    out.mark("</g></svg>");
    out.say(text);
    out.mark("</li>\n");
}

// The shape of a mark in the key.
fn shape_of_point(kind: MarkKind) -> &'static str
    ensures { is_own result.now ≡ true }
{
    match kind {
        MarkKind::Dispatch => "<path d=\"m 5,3 l 9,6 l -9,6 z\"/>",
        MarkKind::Tick | MarkKind::Restart => "<line x1=\"9\" x2=\"9\" y1=\"2\" y2=\"16\"/>",
        MarkKind::Call
        | MarkKind::Return
        | MarkKind::Crossing
        | MarkKind::Error
        | MarkKind::Rejected
        | MarkKind::Lawful
        | MarkKind::Unlawful => "<circle cx=\"9\" cy=\"9\" r=\"4\"/>",
    }
}

// Whether the page has an arrow of this kind: in its major frame, in one of its strips, or in the part of one that is folded.
fn is_drawn(
    picture: &Picture,
    scale: Scale,
    strips: &[Strip],
    frame: &Option<Layout>,
    kind: ArrowKind,
) -> Result<bool, AllocError> {
    if !picture.arrows().iter().any(|arrow| arrow.kind == kind) {
        return Ok(false);
    }
    if let Some(layout) = frame {
        if has_arrow(picture, layout, kind) {
            return Ok(true);
        }
    }
    for strip in strips {
        if is_drawn_in(picture, scale, *strip, kind)? {
            return Ok(true);
        }
    }
    Ok(false)
}

// Whether a strip of the page has an arrow of this kind.
fn is_drawn_in(
    picture: &Picture,
    scale: Scale,
    strip: Strip,
    kind: ArrowKind,
) -> Result<bool, AllocError> {
    if has_arrow(picture, &Layout::near(picture, scale, strip)?, kind) {
        return Ok(true);
    }
    if count_elsewhere(picture, strip) == 0 {
        return Ok(false);
    }
    let folded = Layout::elsewhere(picture, scale, strip)?;
    Ok(has_arrow(picture, &folded, kind))
}

fn tell_arrow(out: &mut Markup, kind: ArrowKind, text: &'static str) {
    out.mark("<li><svg width=\"34\" height=\"18\" aria-hidden=\"true\"><g class=\"");
    out.mark(classes_of_arrow(kind));
    out.mark("\"><path class=\"way\" d=\"m 3,9 l 25,0\"/></g></svg>");
    out.say(text);
    out.mark("</li>\n");
}

// The grounds of records that the page uses.
fn tell_grounds(out: &mut Markup, picture: &Picture) {
    if has_named(picture) {
        out.mark(NAMED);
    }
    if has_status(picture, Status::Rejected) {
        out.mark(REJECTED);
    }
    if has_status(picture, Status::Broken) {
        out.mark(BROKEN);
    }
    if has_status(picture, Status::After) {
        out.mark(AFTER);
    }
    if has_status(picture, Status::Beyond) {
        out.mark(BEYOND);
    }
}

// Whether a record of the picture has this status.
fn has_status(picture: &Picture, status: Status) -> bool {
    picture
        .columns()
        .iter()
        .any(|column| column.status == status)
}

// Whether the explanation names the place of an accepted record of the picture.
fn has_named(picture: &Picture) -> bool {
    picture.columns().iter().any(|column| column.status == Status::Accepted
        && picture.is_named(column.place))
}

/// The key of the ground of a record that the explanation names.
const NAMED: &str =
    "<li><svg width=\"34\" height=\"18\" aria-hidden=\"true\"><rect class=\"ground-named\" x=\"2\" y=\"2\" width=\"30\" height=\"14\"/></svg>a record whose place the explanation names</li>
";

/// The key of the ground of a record that is rejected.
const REJECTED: &str =
    "<li><svg width=\"34\" height=\"18\" aria-hidden=\"true\"><rect class=\"ground-rejected\" x=\"2\" y=\"2\" width=\"30\" height=\"14\"/><rect class=\"frame\" x=\"2\" y=\"2\" width=\"30\" height=\"14\"/></svg>the record that is rejected</li>
";

/// The key of the ground of a record that breaks a rule.
const BROKEN: &str =
    "<li><svg width=\"34\" height=\"18\" aria-hidden=\"true\"><rect class=\"ground-rejected\" x=\"2\" y=\"2\" width=\"30\" height=\"14\"/><rect class=\"frame\" x=\"2\" y=\"2\" width=\"30\" height=\"14\"/></svg>the record that breaks a rule</li>
";

/// The key of the ground of a record after the last one that is judged.
const AFTER: &str =
    "<li><svg width=\"34\" height=\"18\" aria-hidden=\"true\"><rect class=\"ground-after\" x=\"2\" y=\"2\" width=\"30\" height=\"14\"/></svg>a record that is not judged</li>
";

/// The key of the ground of a record after the last one whose states are shown.
const BEYOND: &str =
    "<li><svg width=\"34\" height=\"18\" aria-hidden=\"true\"><rect class=\"ground-after\" x=\"2\" y=\"2\" width=\"30\" height=\"14\"/></svg>a record whose states are not shown</li>
";

/// The key of numbers with a colon.
const NUMBERS: &str = "<li><code>0:1</code> is process 1 of partition 0</li>
";
