// Where the records of a strip are, in the lanes of each clock.

use crate::layout::{LABELS, Strip, width_of};
use crate::scale::Ticks;
use crate::shares::Share;
use apex_types::CoreId;
use run_view::CoreView;
use std::alloc::AllocError;
use view_picture::Picture;

/// Where the records of a strip are. By places, all lanes have the same clock. By ticks each core has its own, and there is one for lanes of
/// no core: the furthest that any core has come.
#[derive(Drop)]
pub struct Edges {
    // The column of the first record, and that of the first record at no time, which is where all clocks have ended.
    first: usize,
    last: usize,
    // The ticks, if their width counts ticks.
    ticks: Option<Ticks>,
    common: Vec<u64>,
    cores: Vec<CoreEdges>,
    // Where the records at no time begin, and the right edge of the strip.
    rest: Vec<u64>,
}

// Where the records of a strip begin in the lanes of a core, and where the last one ends.
#[derive(Drop)]
struct CoreEdges {
    core: CoreId,
    edges: Vec<u64>,
}

impl Edges {
    /// Where they are by places, if a record has this width.
    pub fn by_places(picture: &Picture, strip: Strip, step: u64) -> Result<Edges, AllocError> {
        let mut common = Vec::new(picture.alloc());
        let mut x = LABELS;
        common.push(x)?;
        for column in strip.from..strip.to {
            x = x.saturating_add(width_of(picture.columns().get(column), step));
            common.push(x)?;
        }
        let mut rest = Vec::new(picture.alloc());
        rest.push(x)?;
        Ok(Edges {
            first: strip.from,
            last: strip.to,
            ticks: None,
            common,
            cores: Vec::new(picture.alloc()),
            rest,
        })
    }

    /// Where they are by these ticks, for records that have these shares of them.
    pub(crate) fn by_ticks(
        picture: &Picture,
        strip: Strip,
        shares: &[Share],
        ticks: Ticks,
    ) -> Result<Edges, AllocError> {
        let mut cores = Vec::new(picture.alloc());
        let mut right = LABELS;
        for view in picture.first_cores().iter() {
            let edges = edges_of_core(picture, strip, shares, ticks, view)?;
            right = right.max(last_of(edges.as_slice()));
            cores.push(CoreEdges {
                core: view.core,
                edges,
            })?;
        }
        let last = strip.to.min(shares.len()).max(strip.from);
        Ok(Edges {
            first: strip.from,
            last,
            ticks: Some(ticks),
            common: edges_of_all(picture, strip, shares, ticks, right)?,
            cores,
            rest: edges_of_rest(picture, last, strip.to, right)?,
        })
    }

    /// Where a record begins in the lanes of a core, or in those of none; at least at the left edge of the strip, and at most at its right
    /// edge.
    pub fn left(&self, core: Option<CoreId>, column: usize) -> u64 {
        if column < self.last {
            return self.at(core, column);
        }
        match self.rest.get(column - self.last) {
            Some(edge) => *edge,
            None => self.right(),
        }
    }

    /// Where what ends before a record ends in the lanes of a core, or in those of none.
    pub fn end(&self, core: Option<CoreId>, column: usize) -> u64 {
        if column <= self.last {
            self.at(core, column)
        } else {
            self.left(core, column)
        }
    }

    /// The ticks that the strip shows, if its width counts ticks.
    pub(crate) fn ticks(&self) -> Option<Ticks> {
        self.ticks
    }

    /// The right edge of the strip.
    pub fn right(&self) -> u64 {
        last_of(self.rest.as_slice())
    }

    // Where a record at a time begins, or where the last one ends.
    fn at(&self, core: Option<CoreId>, column: usize) -> u64 {
        let edges = self.edges_of(core);
        match edges.get(column.saturating_sub(self.first)) {
            Some(edge) => *edge,
            None => last_of(edges),
        }
    }

    // Where the records begin in the lanes of a core, or in those of none.
    fn edges_of(&self, core: Option<CoreId>) -> &[u64] {
        let Some(core) = core else {
            return self.common.as_slice();
        };
        match self.cores.iter().find(|edges| edges.core == core) {
            Some(edges) => edges.edges.as_slice(),
            None => self.common.as_slice(),
        }
    }
}

fn last_of(edges: &[u64]) -> u64 {
    match edges.last() {
        Some(edge) => *edge,
        None => LABELS,
    }
}

// Where the records of a strip begin by the time of a core, and where the last one ends. Records of other cores have no width.
fn edges_of_core(
    picture: &Picture,
    strip: Strip,
    shares: &[Share],
    ticks: Ticks,
    view: &CoreView,
) -> Result<Vec<u64>, AllocError> {
    let mut edges = Vec::new(picture.alloc());
    let mut x = ticks.left(view.time);
    for (index, share) in shares.iter().enumerate() {
        if index >= strip.to {
            break;
        }
        let is_own = share.core == view.core;
        if is_own {
            x = ticks.begin(share);
        }
        if index >= strip.from {
            edges.push(x)?;
        }
        if is_own {
            x = ticks.end(share);
        }
    }
    edges.push(x)?;
    Ok(edges)
}

// Where the records of a strip begin by the furthest that any core has come, and where all clocks have ended.
fn edges_of_all(
    picture: &Picture,
    strip: Strip,
    shares: &[Share],
    ticks: Ticks,
    right: u64,
) -> Result<Vec<u64>, AllocError> {
    let mut edges = Vec::new(picture.alloc());
    let mut x = LABELS;
    for (index, share) in shares.iter().enumerate() {
        if index >= strip.to {
            break;
        }
        x = x.max(ticks.begin(share));
        if index >= strip.from {
            edges.push(x)?;
        }
    }
    edges.push(x.max(right))?;
    Ok(edges)
}

// Where the records at no time begin, the first of them at this height of the clocks, and where the last one ends.
fn edges_of_rest(
    picture: &Picture,
    from: usize,
    to: usize,
    right: u64,
) -> Result<Vec<u64>, AllocError> {
    let mut edges = Vec::new(picture.alloc());
    let mut x = right;
    edges.push(x)?;
    for column in from..to {
        x = x.saturating_add(width_of(picture.columns().get(column), 0));
        edges.push(x)?;
    }
    Ok(edges)
}
