// A configuration as its text has it: the values of its keys, and the lines on which they are.

use crate::key_lines::{Items, Located};
use module_config::{ConfigKey, ConfigTable};
use std::fmt;
use toml::{Table, Value};

/// A table of a configuration: its keys, and where the text has it, if that is found.
#[derive(Clone, Copy)]
pub(crate) struct Written<'a> {
    pub keys: &'a Table,
    pub text: Option<Located<'a>>,
}

impl<'a> Written<'a> {
    /// The table of the module: the keys of a whole text.
    pub fn module(keys: &'a Table, text: &'a [u8]) -> Written<'a> {
        Written {
            keys,
            text: Some(Located::text(text)),
        }
    }

    /// A table of the configuration, if it is there. This is the table of the module.
    pub fn table(&self, table: ConfigTable) -> Option<Written<'a>> {
        match table {
            ConfigTable::Module => Some(*self),
            ConfigTable::Item { list, index } => self.item(list, index),
            ConfigTable::End { list, index, end } => self.item(list, index)?.under(end),
            ConfigTable::Destination { channel, index } => {
                let channel = self.item(ConfigKey::Sampling, channel)?;
                channel.item(ConfigKey::Destinations, index)
            }
        }
    }

    /// The table under a key, if there is one.
    pub fn under(&self, key: ConfigKey) -> Option<Written<'a>> {
        Some(Written {
            keys: self.value(key)?.as_table()?,
            text: text_under(self.text, key),
        })
    }

    /// The table at an index of a list, if there is one.
    pub fn item(&self, list: ConfigKey, index: usize) -> Option<Written<'a>> {
        Some(Written {
            keys: self.values(list).get(index)?.as_table()?,
            text: text_of_item(self.text, list, index),
        })
    }

    /// The tables of a list.
    pub fn items(&self, list: ConfigKey) -> WrittenItems<'a> {
        let lines = match self.text {
            Some(text) => Some(text.items(list.text())),
            None => None,
        };
        WrittenItems {
            values: self.values(list),
            index: 0,
            lines,
        }
    }

    /// The items of a list; none if there is no list.
    pub fn values(&self, list: ConfigKey) -> &'a [Value] {
        match self.value(list) {
            Some(value) => match value.as_array() {
                Some(items) => items.as_slice(),
                None => &[],
            },
            None => &[],
        }
    }

    /// The value under a key, if there is one.
    pub fn value(&self, key: ConfigKey) -> Option<&'a Value> {
        self.keys.get(key.text())
    }

    /// The number under a key, if there is one.
    pub fn number(&self, key: ConfigKey) -> Option<u64> {
        u64::try_from(self.value(key)?.as_integer()?).ok()
    }

    /// The line of a key of this table, if it is found.
    pub fn line_of(&self, key: &str) -> Option<u64> {
        self.text?.line_of(key)
    }

    /// The line on which this table begins, if it is found.
    pub fn line(&self) -> Option<u64> {
        Some(self.text?.line)
    }
}

// Where a table has the value under a key, if that is found.
fn text_under<'a>(table: Option<Located<'a>>, key: ConfigKey) -> Option<Located<'a>> {
    table?.under(key.text())
}

// Where a table has the item at an index of a list, if that is found.
fn text_of_item<'a>(
    table: Option<Located<'a>>,
    list: ConfigKey,
    index: usize,
) -> Option<Located<'a>> {
    table?.item(list.text(), index)
}

/// The tables of a list that have not been passed.
#[derive(Clone, Copy)]
pub(crate) struct WrittenItems<'a> {
    values: &'a [Value],
    index: usize,
    lines: Option<Items<'a>>,
}

impl<'a> WrittenItems<'a> {
    /// How many items have not been passed.
    pub fn len(&self) -> usize {
        self.values.len()
    }

    /// Passes the next table, and returns it with its index. An item that is no table is passed too.
    pub fn next(&mut self) -> Option<(usize, Written<'a>)> {
        for _ in 0..self.values.len() {
            let (value, rest) = self.values.split_first()?;
            let index = self.index;
            self.values = rest;
            self.index = index.saturating_add(1);
            let text = match &mut self.lines {
                Some(lines) => lines.next(),
                None => None,
            };
            if let Some(keys) = value.as_table() {
                return Some((index, Written { keys, text }));
            }
        }
        None
    }
}

/// A table of a list of the module, by its index there.
#[derive(Clone, Copy)]
pub(crate) struct At {
    pub list: ConfigKey,
    pub index: usize,
}

impl fmt::Display for At {
    fn fmt<W: fmt::Write>(&self, f: &mut fmt::Formatter<W>) -> fmt::Result {
        write!(f, "{} {}", self.list.text(), self.index)
    }
}
