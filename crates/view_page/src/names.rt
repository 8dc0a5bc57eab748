// The names of the lanes of a strip, and the headings of their groups.

use crate::classes::class_of_lane;
use crate::groups::Group;
use crate::layout::{LABELS, Layout};
use crate::rows::{Heading, Row};
use crate::shapes::{CHARACTER, Shortened, tell_text};
use run_view::ThingKey;
use sink::Markup;
use std::fmt::Display;
use view_picture::{Lane, LaneKey, Picture};

/// The free width to the right of a name.
const AFTER_NAME: u64 = 20;

/// Adds the names of the lanes, and the headings above them.
pub fn tell_names(out: &mut Markup, picture: &Picture, layout: &Layout) {
    for heading in layout.headings.iter() {
        tell_heading(out, heading);
    }
    for row in layout.rows.iter() {
        if let Some(lane) = picture.lanes().get(row.lane) {
            tell_name(out, *row, lane);
        }
    }
}

/// Begins a part of a lane, with its whole name for a person who points at it.
pub fn begin_lane(out: &mut Markup, lane: &Lane) {
    out.mark("<g class=\"lane ");
    out.mark(class_of_lane(&lane.key));
    out.mark("\"><title>");
    out.say(lane.label.as_str());
    out.mark("</title>\n");
}

fn tell_heading(out: &mut Markup, heading: &Heading) {
    let y = heading.foot.saturating_sub(4);
    match &heading.group {
        Group::OfPartition(LaneKey::Partition(part)) => {
            tell_text(out, "heading", 6, y, OthersOf(u32::from(part.number())));
        }
        Group::Touched => tell_text(out, "heading", 6, y, "what the fault touches"),
        Group::Elsewhere => tell_text(out, "heading", 6, y, "the rest"),
        Group::OfPartition(_) | Group::InPicture | Group::InStrip => {}
    }
}

// The heading of the lanes of the partition with this number that the fault does not touch.
#[derive(Clone, Copy)]
struct OthersOf(u32);

impl Display for OthersOf {
    fn fmt<W: std::fmt::Write>(&self, f: &mut std::fmt::Formatter<W>) -> std::fmt::Result {
        write!(f, "others of partition {}", self.0)
    }
}

// The name of a lane, cut in the middle if it is too long for one line.
fn tell_name(out: &mut Markup, row: Row, lane: &Lane) {
    begin_lane(out, lane);
    let x = match &lane.key {
        LaneKey::Process(_)
        | LaneKey::Thing(ThingKey::Object { .. })
        | LaneKey::Thing(ThingKey::Lock(_)) => 18,
        LaneKey::Core(_) | LaneKey::Partition(_) | LaneKey::Thing(ThingKey::Channel(_)) => 6,
    };
    let most = ((LABELS - AFTER_NAME) / CHARACTER) as usize;
    let y = row.middle().saturating_add(4);
    tell_text(out, "name", x, y, Shortened(lane.label.as_str(), most));
    out.mark("</g>\n");
}
