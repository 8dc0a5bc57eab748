// The lanes of a strip, in rows one below the other.

use crate::groups::{Group, count_in, is_in};
use crate::layout::{Strip, WIDE_STEP};
use crate::shapes::{CHARACTER, INSIDE};
use std::alloc::{AllocError, Global};
use view_picture::{Lane, LaneKey, Mark, Picture};

/// The height of the ticks and dispatches of a core, which are below its bars.
pub const MARKS: u64 = 12;

/// How far above the foot of its lane the mark of a call or a return is.
pub const ABOVE_FOOT: u64 = 5;

/// The free height below a lane, and the additional free height above the first lane of a partition.
const GAP: u64 = 3;

const PARTITION_GAP: u64 = 7;

/// The height of the heading of a group of lanes.
const HEADING: u64 = 17;

/// The height of a line of a mark with a text, the free width on both sides of such a mark, and how many characters a line has room for after
/// the sign of the mark.
const BOX_LINE: u64 = 19;

pub const BESIDE_BOX: u64 = 3;

const BOX_CHARACTERS: u64 = (WIDE_STEP - 2 * BESIDE_BOX - INSIDE) / CHARACTER - 2;

/// A lane of a strip: its index, and its position.
#[derive(Clone, Copy, Debug)]
pub struct Row {
    pub lane: usize,
    pub y: u64,
    pub height: u64,
}

impl Row {
    /// The middle of the lane.
    pub fn middle(self) -> u64 {
        self.y.saturating_add(self.height / 2)
    }

    /// Where arrows begin and end in the lane of this key: at the marks of a core or a process, and else in the middle.
    pub fn end_of_arrow(self, key: &LaneKey) -> u64 {
        match key {
            LaneKey::Core(_) => self.foot().saturating_sub(MARKS / 2),
            LaneKey::Process(_) => self.foot().saturating_sub(ABOVE_FOOT),
            LaneKey::Partition(_) | LaneKey::Thing(_) => self.middle(),
        }
    }

    /// Where the lane ends.
    pub fn foot(self) -> u64 {
        self.y.saturating_add(self.height)
    }
}

/// The heading of a group of lanes, and where it ends.
#[derive(Clone, Copy, Debug)]
pub(crate) struct Heading {
    pub group: Group,
    pub foot: u64,
}

/// Rows of lanes as they are added, one below the other.
#[derive(Drop)]
pub(crate) struct Rows {
    pub rows: Vec<Row>,
    pub headings: Vec<Heading>,
    /// Where the next one begins.
    pub y: u64,
}

impl Rows {
    /// No rows yet; the first begins at this height.
    pub fn from(alloc: Global, y: u64) -> Rows {
        Rows {
            rows: Vec::new(alloc),
            headings: Vec::new(alloc),
            y,
        }
    }

    /// Adds the lanes of a group, below its heading if it has one.
    pub fn add_group(
        &mut self,
        picture: &Picture,
        strip: Strip,
        group: &Group,
    ) -> Result<(), AllocError> {
        if has_heading(group) && count_in(picture, strip, group) > 0 {
            self.y = self.y.saturating_add(HEADING);
            let foot = self.y;
            self.headings.push(Heading {
                group: *group,
                foot,
            })?;
        }
        self.add_lanes(picture, strip, group)
    }

    /// Adds the lanes of a group.
    pub fn add_lanes(
        &mut self,
        picture: &Picture,
        strip: Strip,
        group: &Group,
    ) -> Result<(), AllocError> {
        for (index, lane) in picture.lanes().iter().enumerate() {
            if is_in(picture, strip, group, lane) {
                self.add_lane(index, lane)?;
            }
        }
        Ok(())
    }

    fn add_lane(&mut self, index: usize, lane: &Lane) -> Result<(), AllocError> {
        if let LaneKey::Partition(_) = lane.key {
            self.y = self.y.saturating_add(PARTITION_GAP);
        }
        let (y, height) = (self.y, height_of(lane));
        self.rows.push(Row {
            lane: index,
            y,
            height,
        })?;
        self.y = y.saturating_add(height).saturating_add(GAP);
        Ok(())
    }
}

// Whether there is a heading above the lanes of a group.
fn has_heading(group: &Group) -> bool {
    match group {
        Group::Touched | Group::OfPartition(_) | Group::Elsewhere => true,
        Group::InPicture | Group::InStrip => false,
    }
}

/// The lines of a mark with a text. If one line has no room for it, its last word is in a second one.
#[derive(Clone, Copy)]
pub(crate) struct BoxLines<'a> {
    pub first: &'a str,
    pub second: Option<&'a str>,
}

impl BoxLines<'_> {
    /// The lines of a mark.
    pub fn of(mark: &Mark) -> BoxLines<'_> {
        let text = mark.text.as_str();
        if text.chars().count() as u64 > BOX_CHARACTERS {
            if let Some((first, last)) = text.rsplit_once(' ') {
                return BoxLines {
                    first,
                    second: Some(last),
                };
            }
        }
        BoxLines {
            first: text,
            second: None,
        }
    }

    /// How many there are.
    pub fn count(self) -> u64 {
        match self.second {
            Some(_) => 2,
            None => 1,
        }
    }
}

/// How many lines the marks of a lane have that have texts.
pub(crate) fn count_box_lines(lane: &Lane) -> u64 {
    let mut count = 0u64;
    for mark in lane.marks.iter() {
        if mark.kind.is_box() {
            count = count.saturating_add(BoxLines::of(mark).count());
        }
    }
    count
}

// The height of a lane: that of its kind, or more if it has several marks with texts.
fn height_of(lane: &Lane) -> u64 {
    let height = match lane.key {
        LaneKey::Core(_) => 36 + MARKS,
        LaneKey::Partition(_) => 18,
        LaneKey::Process(_) => 26,
        LaneKey::Thing(_) => 20,
    };
    count_box_lines(lane).saturating_mul(BOX_LINE).max(height)
}
