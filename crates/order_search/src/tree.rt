// Dead ends, and the swaps by which the search goes on from them.

use crate::placed::Placed;
use crate::swap::{Swap, Wait};
use std::alloc::{AllocError, Global};

/// The most dead ends that are remembered.
const MOST_NODES: usize = 16_384;

/// How many records a dead end must be further than another to be as promising, for each swap that led to it.
const COST_OF_A_SWAP: u64 = 5;

/// The same for each of its swaps that was tried.
const COST_OF_A_TRY: u64 = 20;

/// A level that is above all costs.
const HIGH: u64 = 1 << 40;

// A dead end: the swaps that led to it, each from an earlier one, and those that may lead on.
#[derive(Debug, Drop)]
struct Node {
    // The dead end whose swap led here; none for the first one.
    parent: Option<usize>,
    // The swap that led here.
    swap: Option<Swap>,
    // How many swaps led here.
    depth: u64,
    // The sum of the marks of these swaps, whatever their order.
    mark: u64,
    // At which level it is.
    level: u64,
    // The swaps that were not tried, the most promising one last.
    swaps: Vec<Swap>,
    // How many were tried.
    tries: u64,
}

impl Node {
    // How promising it is to go on from here.
    fn promise(&self) -> u64 {
        let swaps = self.depth.saturating_mul(COST_OF_A_SWAP);
        let tries = self.tries.saturating_mul(COST_OF_A_TRY);
        self.level
            .saturating_add(HIGH)
            .saturating_sub(swaps)
            .saturating_sub(tries)
    }
}

// A swap that is being tried, with the dead end that it is tried from.
#[derive(Clone, Copy, Debug)]
struct Trial {
    node: usize,
    swap: Swap,
    mark: u64,
}

/// The dead ends that were met, and the waits that are in force.
///
/// The search is at the last dead end, or on its way from a swap that is being tried. It goes on from the most promising dead end.
#[derive(Drop)]
pub struct Tree {
    alloc: Global,
    nodes: Vec<Node>,
    trial: Option<Trial>,
    waits: Vec<Wait>,
    // For each core, the number of the first record that no wait holds, nor one after it.
    ends: Vec<u64>,
    furthest: u64,
}

impl Tree {
    /// No dead end, of so many cores.
    pub fn new(alloc: Global, cores: usize) -> Result<Tree, AllocError> {
        Ok(Tree {
            alloc,
            nodes: Vec::new(alloc),
            trial: None,
            waits: Vec::new(alloc),
            ends: vec![in alloc; 0u64; cores]?,
            furthest: 0,
        })
    }

    /// Whether the next record of a core is to wait for one that is not placed.
    pub fn holds(&self, placed: &Placed, core: usize) -> bool {
        let number = placed.count(core);
        if number >= self.ends.get(core).copied().unwrap_or(0) {
            return false;
        }
        for wait in self.waits.iter() {
            if wait.held.core == core && wait.held.number == number && is_pending(placed, wait) {
                return true;
            }
        }
        false
    }

    /// The search is at a dead end of this level, with swaps that may lead on from it, the most promising one last.
    pub fn enter(
        &mut self,
        placed: &Placed,
        level: u64,
        swaps: Vec<Swap>,
    ) -> Result<(), AllocError> {
        if self.nodes.len() >= MOST_NODES {
            self.clear(placed);
        }
        let node = self.node(level, swaps);
        self.nodes.push(node)?;
        self.furthest = self.furthest.max(level);
        Ok(())
    }

    // The dead end to which the swap that is being tried has led.
    fn node(&self, level: u64, swaps: Vec<Swap>) -> Node {
        let depth = self.trial.map_or(0, |trial| self.depth(trial.node));
        Node {
            parent: self.trial.map(|trial| trial.node),
            swap: self.trial.map(|trial| trial.swap),
            depth: depth.saturating_add(1),
            mark: self.trial.map_or(0, |trial| trial.mark),
            level,
            swaps,
            tries: 0,
        }
    }

    fn depth(&self, node: usize) -> u64 {
        self.nodes.get(node).map_or(0, |node| node.depth)
    }

    fn mark(&self, node: usize) -> u64 {
        self.nodes.get(node).map_or(0, |node| node.mark)
    }

    /// Forgets all dead ends, if all are before this level.
    pub fn forget_before(&mut self, placed: &Placed, level: u64) {
        if self.furthest < level && !self.nodes.is_empty() {
            self.clear(placed);
        }
    }

    // Forgets all dead ends. The waits that are in force stay so, until the record that each is for is placed.
    fn clear(&mut self, placed: &Placed) {
        self.nodes.clear();
        self.trial = None;
        self.waits.retain(|wait| is_pending(placed, wait));
    }

    /// Puts in force the next swap of the most promising dead end, from this level on, and gives the level to go back to. The search
    /// is at the last dead end.
    pub fn next_swap(&mut self, first: u64) -> Result<Option<u64>, AllocError> {
        for _ in 0..u64::MAX {
            let Some(node) = self.most_promising() else {
                return Ok(None);
            };
            if let Some(swap) = self.take_swap(node) {
                if let Some(level) = self.try_swap(first, node, swap)? {
                    return Ok(Some(level));
                }
            }
        }
        Ok(None)
    }

    // The dead end from which to go on, if one has a swap left.
    fn most_promising(&self) -> Option<usize> {
        let mut best: Option<usize> = None;
        let mut promise = 0;
        for (index, node) in self.nodes.iter().enumerate() {
            if !node.swaps.is_empty() && (best.is_none() || node.promise() >= promise) {
                best = Some(index);
                promise = node.promise();
            }
        }
        best
    }

    // Takes the next swap of a dead end.
    fn take_swap(&mut self, node: usize) -> Option<Swap> {
        if node >= self.nodes.len() {
            return None;
        }
        let node = &mut self.nodes[node];
        node.tries = node.tries.saturating_add(1);
        node.swaps.pop()
    }

    // Puts a swap in force together with those that led to its dead end, if these leave it open and they were not all tried
    // together. Gives the level to go back to.
    fn try_swap(&mut self, first: u64, node: usize, swap: Swap) -> Result<Option<u64>, AllocError> {
        let path = self.path(node)?;
        let mark = self.mark(node).wrapping_add(swap.wait.mark());
        if self.is_ruled_out(&path, swap, mark) {
            return Ok(None);
        }
        let level = self.parting(&path)?.min(swap.level);
        if level < first {
            return Ok(None);
        }
        self.set_waits(&path, swap.wait)?;
        self.trial = Some(Trial { node, swap, mark });
        Ok(Some(level))
    }

    // The dead ends that lead to this one, from the second on, with this one last.
    fn path(&self, node: usize) -> Result<Vec<usize>, AllocError> {
        let mut path: Vec<usize> = Vec::new(self.alloc);
        let mut at = node;
        for _ in 0..self.nodes.len() {
            let Some(parent) = self.nodes.get(at).and_then(|node| node.parent) else {
                break;
            };
            path.push(at)?;
            at = parent;
        }
        path.reverse();
        Ok(path)
    }

    // Whether a swap repeats one of those that led to a dead end, or is the opposite of one, or was tried together with them.
    fn is_ruled_out(&self, path: &[usize], swap: Swap, mark: u64) -> bool {
        for node in path {
            if let Some(other) = self.swap(*node) {
                if other.wait.is_about_the_same(swap.wait) {
                    return true;
                }
            }
        }
        for node in self.nodes.iter() {
            if node.depth > 1 && node.mark == mark {
                return true;
            }
        }
        false
    }

    fn swap(&self, node: usize) -> Option<Swap> {
        self.nodes.get(node).and_then(|node| node.swap)
    }

    // The least level to which the swaps went back, of those that led to the last dead end or to the one at the end of this path,
    // but not to both.
    fn parting(&self, path: &[usize]) -> Result<u64, AllocError> {
        let here = self.path(self.nodes.len().saturating_sub(1))?;
        let pairs = here.iter().zip(path.iter());
        let same = pairs.take_while(|pair| *pair.0 == *pair.1).count();
        let mut least = u64::MAX;
        for node in here.iter().skip(same) {
            least = least.min(self.swap(*node).map_or(0, |swap| swap.level));
        }
        for node in path.iter().skip(same) {
            least = least.min(self.swap(*node).map_or(0, |swap| swap.level));
        }
        Ok(least)
    }

    // The waits in force are those of the swaps along a path, and one more.
    fn set_waits(&mut self, path: &[usize], last: Wait) -> Result<(), AllocError> {
        self.waits.clear();
        for end in self.ends.iter_mut() {
            *end = 0;
        }
        for node in path {
            if let Some(swap) = self.swap(*node) {
                self.add_wait(swap.wait)?;
            }
        }
        self.add_wait(last)
    }

    // Puts one more wait in force.
    fn add_wait(&mut self, wait: Wait) -> Result<(), AllocError> {
        let core = wait.held.core;
        if core < self.ends.len() {
            self.ends[core] = self.ends[core].max(wait.held.number.saturating_add(1));
        }
        self.waits.push(wait)?;
        Ok(())
    }
}

// Whether the record that another is to wait for is not placed.
fn is_pending(placed: &Placed, wait: &Wait) -> bool {
    placed.count(wait.until.core) <= wait.until.number
}
