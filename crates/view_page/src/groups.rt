// Which lanes a strip shows, and in which order.

use crate::layout::Strip;
use std::alloc::AllocError;
use view_picture::{Lane, LaneKey, Picture};

/// How many lanes a lawful picture may have before its last strip shows only those that change in it.
const MANY_LANES: usize = 60;

/// Lanes that are shown one below the other.
#[derive(Clone, Copy, Debug, PartialEq, Eq)]
pub(crate) enum Group {
    /// Those that change anywhere in the picture.
    InPicture,
    /// Those that change in the strip.
    InStrip,
    /// Those that the record touches which is rejected or breaks a rule, with their partitions.
    Touched,
    /// Of the partition of this key, of which that record touches something: the others that change anywhere in the picture.
    OfPartition(LaneKey),
    /// Those of no such partition that change in the strip, and that the record does not touch.
    Elsewhere,
}

/// Whether a strip has a record that is rejected or breaks a rule.
pub(crate) fn has_fault(picture: &Picture, strip: Strip) -> bool {
    for index in strip.from..strip.to {
        if let Some(column) = picture.columns().get(index) {
            if column.status.is_fault() {
                return true;
            }
        }
    }
    false
}

/// The groups of a strip that is shown in one piece.
pub(crate) fn all_groups(picture: &Picture, strip: Strip) -> Result<Vec<Group>, AllocError> {
    groups_of(picture, strip, true)
}

/// The groups of a strip without those lanes that have nothing to do with a fault in it.
pub(crate) fn near_groups(picture: &Picture, strip: Strip) -> Result<Vec<Group>, AllocError> {
    groups_of(picture, strip, false)
}

// The groups of a strip, with or without those lanes that have nothing to do with a fault in it.
fn groups_of(
    picture: &Picture,
    strip: Strip,
    with_elsewhere: bool,
) -> Result<Vec<Group>, AllocError> {
    let mut groups = Vec::new(picture.alloc());
    if !has_fault(picture, strip) {
        groups.push(if shows_all(picture, strip) {
            Group::InPicture
        } else {
            Group::InStrip
        })?;
        return Ok(groups);
    }
    groups.push(Group::Touched)?;
    for lane in picture.lanes().iter() {
        if is_partition(&lane.key) && is_near(picture, &lane.key) {
            groups.push(Group::OfPartition(lane.key))?;
        }
    }
    if with_elsewhere {
        groups.push(Group::Elsewhere)?;
    }
    Ok(groups)
}

/// How many lanes a strip has that have nothing to do with a fault in it.
pub(crate) fn count_elsewhere(picture: &Picture, strip: Strip) -> usize {
    if has_fault(picture, strip) {
        count_in(picture, strip, &Group::Elsewhere)
    } else {
        0
    }
}

/// Whether a lane is in this group of a strip.
pub(crate) fn is_in(picture: &Picture, strip: Strip, group: &Group, lane: &Lane) -> bool {
    match group {
        Group::InPicture => changes_in(picture, ALL, lane),
        Group::InStrip => changes_in(picture, strip, lane),
        Group::Touched => {
            lane.is_touched || is_partition(&lane.key) && is_near(picture, &lane.key)
        }
        Group::OfPartition(key) => {
            lane.key.partition() == key.partition()
                && !is_partition(&lane.key)
                && !lane.is_touched
                && changes_in(picture, ALL, lane)
        }
        Group::Elsewhere => {
            !lane.is_touched && !is_near(picture, &lane.key) && changes_in(picture, strip, lane)
        }
    }
}

/// Whether a page shows a lane: in one of its strips, or with what a fault touches.
pub(crate) fn is_shown(picture: &Picture, lane: &Lane) -> bool {
    is_in(picture, ALL, &Group::InPicture, lane) || is_in(picture, ALL, &Group::Touched, lane)
}

/// How many lanes are in this group of a strip.
pub(crate) fn count_in(picture: &Picture, strip: Strip, group: &Group) -> usize {
    picture
        .lanes()
        .iter()
        .filter(|lane| is_in(picture, strip, group, lane))
        .count()
}

// The columns of the whole picture.
const ALL: Strip = Strip {
    from: 0,
    to: usize::MAX,
};

// Whether a strip without a fault shows all lanes that change in the picture: it is the last one, and they are few.
fn shows_all(picture: &Picture, strip: Strip) -> bool {
    strip.to == picture.len() && count_in(picture, ALL, &Group::InStrip) <= MANY_LANES
}

// Whether a lane acts or is affected at one of these columns; for a partition, whether one of its lanes does or is.
fn changes_in(picture: &Picture, columns: Strip, lane: &Lane) -> bool {
    match lane.key {
        LaneKey::Core(_) | LaneKey::Process(_) | LaneKey::Thing(_) => {
            lane.is_concerned(columns.from, columns.to)
        }
        LaneKey::Partition(_) => picture.lanes().iter().any(|other| {
            other.key.partition() == lane.key.partition()
                && other.is_concerned(columns.from, columns.to)
        }),
    }
}

fn is_partition(key: &LaneKey) -> bool {
    match key {
        LaneKey::Partition(_) => true,
        LaneKey::Core(_) | LaneKey::Process(_) | LaneKey::Thing(_) => false,
    }
}

// Whether a lane is of a partition of which the record that is rejected or breaks a rule touches something.
fn is_near(picture: &Picture, key: &LaneKey) -> bool {
    key.partition().is_some()
        && picture.lanes().iter().any(|lane| lane.is_touched
            && lane.key.partition() == key.partition())
}
