// Where everything is in a picture: strips of records, one below the other, and lanes in each.

ghost use Rattle.std.specs.Prelude.{IfOk};
ghost use Rattle.view_page.specs.Strips.{Cover};
ghost use Rattle.view_picture.specs.Records.{record_count};

use crate::edges::Edges;
use crate::frames::ticks_of_frame;
use crate::groups::{Group, all_groups, has_fault, near_groups};
use crate::labels::{width_of_level, width_of_slanted};
use crate::rows::{Heading, Row, Rows};
use crate::scale::{Scale, Ticks};
use crate::shares::{Share, Times, most_of_a_tick, shares_of, times_in};
use std::alloc::AllocError;
use view_picture::{Column, Lane, LaneKey, Picture, Status};

/// Where the records of a strip begin, to the right of the names of lanes, in pixels like all lengths here.
pub const LABELS: u64 = 186;

/// The width of those names. The marks of the first record have the rest.
pub const NAMES: u64 = 178;

/// The greatest width of the columns of a strip, and the free width to their right.
pub const COLUMNS: u64 = 938;

pub const RIGHT: u64 = 96;

/// The width of a record in a picture of several strips. In a picture of one strip it is between the other two.
pub const STEP: u64 = 26;

const LEAST_STEP: u64 = 20;

pub const GREATEST_STEP: u64 = 62;

/// The least width of a tick in a picture of one strip by ticks.
const LEAST_TICK: u64 = 18;

/// The width of a record that is rejected, and of one whose states are not shown.
pub(crate) const WIDE_STEP: u64 = 168;

const NARROW_STEP: u64 = 11;

/// The height of the numbers of places below the labels of records, or of the times.
const PLACES: u64 = 16;

/// The height of the label of a record that is rejected or breaks a rule, and of the major frames, above the times.
const FAULT_LABEL: u64 = 20;

const FRAMES: u64 = 16;

/// How far the label of a record is to the right of its left edge.
pub(crate) const BEFORE_LABEL: u64 = 9;

/// The free height above and below the labels of records together.
const ABOVE_LABELS: u64 = 14;

/// The free height below the last lane.
const BELOW: u64 = 8;

/// The records of a strip: from one column to another, without the last.
#[derive(Clone, Copy, Debug, PartialEq, Eq)]
pub struct Strip {
    pub from: usize,
    pub to: usize,
}

impl Strip {
    /// Whether it has no records.
    pub(crate) fn is_empty(self) -> bool {
        self.from >= self.to
    }
}

/// The strips of a picture, which have all its records in their order. The last strip is full.
pub fn strips_of(picture: &Picture, scale: Scale) -> Result<Vec<Strip>, AllocError>
    ensures { IfOk result (λ strips. Cover strips.items 0 (record_count picture.now)) }
{
    let count = picture.len();
    let mut strips = Vec::new(picture.alloc());
    let widths = widths_of(picture, scale)?;
    let mut to = count;
    let mut width = 0u64;
    for index in 0..count {
        let from = count - index;
        let more = match widths.get(from - 1) {
            Some(more) => *more,
            None => 0,
        };
        if width.saturating_add(more) > COLUMNS {
            strips.push(Strip { from, to })?;
            to = from;
            width = 0;
        }
        width = width.saturating_add(more);
    }
    strips.push(Strip { from: 0, to })?;
    strips.reverse();
    Ok(strips)
}

// By how much each record of a picture makes its strip wider.
fn widths_of(picture: &Picture, scale: Scale) -> Result<Vec<u64>, AllocError> {
    match scale {
        Scale::Places => widths_by_places(picture),
        Scale::Ticks => widths_by_ticks(picture),
    }
}

fn widths_by_places(picture: &Picture) -> Result<Vec<u64>, AllocError> {
    let mut widths = Vec::new(picture.alloc());
    let step = step_of(picture);
    for column in picture.columns().iter() {
        widths.push(width_of(Some(column), step))?;
    }
    Ok(widths)
}

// A record makes its strip a tick wider if a tick begins with the next one on the first of the cores, so that a strip begins with a tick.
fn widths_by_ticks(picture: &Picture) -> Result<Vec<u64>, AllocError> {
    let mut widths = Vec::new(picture.alloc());
    let tick = width_of_tick(picture, shares_of(picture)?.as_slice());
    let mut last = None;
    for (index, column) in picture.columns().iter().enumerate() {
        if is_later(column.time, last) {
            last = column.time;
        }
        let next = match picture.columns().get(index.saturating_add(1)) {
            Some(next) => next.time,
            None => None,
        };
        let is_end = next.is_none() || is_later(next, last);
        widths.push(width_of(Some(column), if is_end { tick } else { 0 }))?;
    }
    Ok(widths)
}

// Whether a time is later than the last one, if there was one.
fn is_later(time: Option<u64>, last: Option<u64>) -> bool {
    match (time, last) {
        (Some(time), Some(last)) => time > last,
        (Some(_), None) => true,
        (None, _) => false,
    }
}

// The width of a tick, by the number of ticks and by the most records of a tick.
fn width_of_tick(picture: &Picture, shares: &[Share]) -> u64 {
    let strip = Strip {
        from: 0,
        to: picture.len(),
    };
    let times = times_in(picture, shares, strip);
    let rest = width_of_rest(picture);
    let tick = COLUMNS.saturating_sub(rest) / times.to.saturating_sub(times.from).max(1);
    if tick < LEAST_TICK {
        STEP
    } else {
        tick.min(greatest_tick(shares))
    }
}

/// The greatest width of a tick: that of its records by places.
pub(crate) fn greatest_tick(shares: &[Share]) -> u64 {
    STEP.saturating_mul(most_of_a_tick(shares))
        .max(GREATEST_STEP)
}

// The width of all records at no time.
fn width_of_rest(picture: &Picture) -> u64 {
    let mut width = 0u64;
    for column in picture.columns().iter() {
        width = width.saturating_add(width_of(Some(column), 0));
    }
    width
}

// The width of a record, by the number of records.
fn step_of(picture: &Picture) -> u64 {
    let (mut count, mut width) = (0u64, 0u64);
    for column in picture.columns().iter() {
        match column.status {
            Status::Accepted | Status::Broken => count = count.saturating_add(1),
            Status::Rejected => width = width.saturating_add(WIDE_STEP),
            Status::After | Status::Beyond => width = width.saturating_add(NARROW_STEP),
        }
    }
    let step = COLUMNS.saturating_sub(width) / count.max(1);
    if step < LEAST_STEP {
        STEP
    } else {
        step.min(GREATEST_STEP)
    }
}

/// The width of a column, if a record at a time has this width.
pub(crate) fn width_of(column: Option<&Column>, step: u64) -> u64 {
    match column {
        Some(column) => match column.status {
            Status::Accepted => step,
            Status::Broken => step,
            Status::Rejected => WIDE_STEP,
            Status::After | Status::Beyond => NARROW_STEP,
        },
        None => 0,
    }
}

/// The left edge and the right edge of a record.
#[derive(Clone, Copy, Debug)]
pub struct Sides {
    pub left: u64,
    pub right: u64,
}

/// Where everything is in a strip.
#[derive(Drop)]
pub struct Layout {
    pub strip: Strip,
    pub edges: Edges,
    pub rows: Vec<Row>,
    pub(crate) headings: Vec<Heading>,
    /// Where the labels of the records end, and where the first lane begins.
    pub foot_of_labels: u64,
    pub top: u64,
    pub bottom: u64,
    pub width: u64,
    pub height: u64,
}

impl Layout {
    /// Where everything is in a strip that has all its lanes.
    pub fn whole(picture: &Picture, scale: Scale, strip: Strip) -> Result<Layout, AllocError> {
        let groups = all_groups(picture, strip)?;
        Layout::of_groups(picture, scale, strip, groups.as_slice())
    }

    /// Where everything is in a strip without those lanes that have nothing to do with a fault in it.
    pub fn near(picture: &Picture, scale: Scale, strip: Strip) -> Result<Layout, AllocError> {
        let groups = near_groups(picture, strip)?;
        Layout::of_groups(picture, scale, strip, groups.as_slice())
    }

    // Where everything is in a strip that has the lanes of these groups.
    fn of_groups(
        picture: &Picture,
        scale: Scale,
        strip: Strip,
        groups: &[Group],
    ) -> Result<Layout, AllocError> {
        let foot_of_labels = match scale {
            Scale::Places => height_of_labels(picture, strip),
            Scale::Ticks if has_fault(picture, strip) => FAULT_LABEL + FRAMES,
            Scale::Ticks => FRAMES,
        };
        let top = foot_of_labels.saturating_add(PLACES);
        let mut rows = Rows::from(picture.alloc(), top);
        for group in groups {
            rows.add_group(picture, strip, group)?;
        }
        let edges = edges_of(picture, scale, strip)?;
        Ok(Layout::of_rows(strip, edges, foot_of_labels, rows))
    }

    /// Where everything is in a strip that has only those lanes, and no labels of records.
    pub fn elsewhere(picture: &Picture, scale: Scale, strip: Strip) -> Result<Layout, AllocError> {
        let mut rows = Rows::from(picture.alloc(), PLACES);
        rows.add_lanes(picture, strip, &Group::Elsewhere)?;
        let edges = edges_of(picture, scale, strip)?;
        Ok(Layout::of_rows(strip, edges, 0, rows))
    }

    /// Where everything is in one major frame: the lanes that change in it. None if the picture has no record at a time.
    pub fn of_frame(picture: &Picture) -> Result<Option<Layout>, AllocError> {
        let shares = shares_of(picture)?;
        let Some((strip, ticks)) = ticks_of_frame(picture, shares.as_slice()) else {
            return Ok(None);
        };
        let mut rows = Rows::from(picture.alloc(), FRAMES + PLACES);
        rows.add_group(picture, strip, &Group::InStrip)?;
        let edges = Edges::by_ticks(picture, strip, shares.as_slice(), ticks)?;
        Ok(Some(Layout::of_rows(strip, edges, FRAMES, rows)))
    }

    // Where everything is if the lanes are in these rows.
    fn of_rows(strip: Strip, edges: Edges, foot_of_labels: u64, rows: Rows) -> Layout {
        let top = foot_of_labels.saturating_add(PLACES);
        let Rows {
            rows,
            headings,
            y: _,
        } = rows;
        let bottom = match rows.last() {
            Some(row) => row.foot(),
            None => top,
        };
        let width = edges.right().saturating_add(RIGHT);
        Layout {
            strip,
            edges,
            rows,
            headings,
            foot_of_labels,
            top,
            bottom,
            width,
            height: bottom.saturating_add(BELOW),
        }
    }

    /// Where a column begins in a lane, or the nearest edge of the strip.
    pub fn left(&self, lane: &Lane, column: usize) -> u64 {
        self.edges.left(lane.core, column)
    }

    /// Whether a column is in the strip, at a time that it shows.
    pub fn has(&self, picture: &Picture, column: usize) -> bool {
        if column < self.strip.from || column >= self.strip.to {
            return false;
        }
        let (Some(ticks), Some(one)) = (self.edges.ticks(), picture.columns().get(column)) else {
            return true;
        };
        match one.time {
            Some(time) => ticks.has(time),
            None => true,
        }
    }

    /// Where what ends before a column ends in a lane, or the nearest edge of the strip.
    pub fn end(&self, lane: &Lane, column: usize) -> u64 {
        self.edges.end(lane.core, column)
    }

    /// Where the record of a column is.
    pub fn sides(&self, record: &Column, column: usize) -> Sides {
        Sides {
            left: self.edges.left(Some(record.core), column),
            right: self.edges.end(Some(record.core), column.saturating_add(1)),
        }
    }

    /// Where the label of a record begins whose left edge is here. By ticks it is level, and ends where the strip does at the latest.
    pub fn left_of_label(&self, record: &Column, left: u64) -> u64 {
        if self.edges.ticks().is_none() {
            return left;
        }
        let most = self.width.saturating_sub(width_of_level(record));
        left.min(most).max(LABELS)
    }

    /// The row of the lane of this key with the lane, if the strip shows it.
    pub fn row<'a>(&self, picture: &'a Picture, key: &LaneKey) -> Option<(Row, &'a Lane)> {
        for row in self.rows.iter() {
            if let Some(lane) = picture.lanes().get(row.lane) {
                if lane.key == *key {
                    return Some((*row, lane));
                }
            }
        }
        None
    }
}

// Where the columns of a strip are by this scale.
fn edges_of(picture: &Picture, scale: Scale, strip: Strip) -> Result<Edges, AllocError> {
    match scale {
        Scale::Places => Edges::by_places(picture, strip, step_of(picture)),
        Scale::Ticks => {
            let shares = shares_of(picture)?;
            let Times { from, to } = times_in(picture, shares.as_slice(), strip);
            let width = width_of_tick(picture, shares.as_slice());
            Edges::by_ticks(picture, strip, shares.as_slice(), Ticks { from, to, width })
        }
    }
}

// The height of the labels of the records, which are slanted.
fn height_of_labels(picture: &Picture, strip: Strip) -> u64 {
    let mut longest = 0u64;
    for column in strip.from..strip.to {
        if let Some(column) = picture.columns().get(column) {
            longest = longest.max(height_of_label(column));
        }
    }
    longest.saturating_add(ABOVE_LABELS)
}

// How high the label of a record reaches, at its angle.
fn height_of_label(column: &Column) -> u64 {
    if column.status.is_judged() {
        width_of_slanted(column).saturating_mul(8) / 9
    } else {
        0
    }
}
