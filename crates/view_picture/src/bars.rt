// The bars of a lane.

use crate::look::Look;
use crate::saying::Saying;
use std::alloc::{AllocError, Global};

/// A bar from one column to another, without that one.
#[derive(Debug, Drop)]
pub struct Bar {
    pub from: usize,
    pub to: usize,
    pub saying: Saying,
}

/// Bars one after another; the last may be open.
#[derive(Drop)]
pub struct Bars {
    bars: Vec<Bar>,
    is_open: bool,
}

impl Bars {
    /// No bars. Takes no memory.
    pub fn new(alloc: Global) -> Bars {
        Bars {
            bars: Vec::new(alloc),
            is_open: false,
        }
    }

    /// From this column on the bars say this, and the open bar ends. A bar that says the same stays open.
    pub fn say(&mut self, column: usize, saying: Saying) -> Result<(), AllocError> {
        if self.says(&saying) {
            return Ok(());
        }
        self.end(column);
        self.bars.push(Bar {
            from: column,
            to: usize::MAX,
            saying,
        })?;
        self.is_open = true;
        Ok(())
    }

    // Whether the open bar says this.
    fn says(&self, saying: &Saying) -> bool {
        match self.bars.last() {
            Some(last) => self.is_open && last.saying == *saying,
            None => false,
        }
    }

    /// The open bar ends before this column.
    pub fn end(&mut self, column: usize) {
        if self.is_open {
            if let Some(last) = self.bars.last_mut() {
                last.to = column;
            }
        }
        self.is_open = false;
    }

    /// The look of the open bar, if there is one.
    pub fn look(&self) -> Option<Look> {
        match self.bars.last() {
            Some(last) if self.is_open => Some(last.saying.look),
            _ => None,
        }
    }

    /// The bars.
    pub fn as_slice(&self) -> &[Bar] {
        self.bars.as_slice()
    }
}
