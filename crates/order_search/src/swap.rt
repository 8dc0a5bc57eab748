// Two records that are to come in the other order.

/// A record: its core, and how many records of that core come before it.
#[derive(Clone, Copy, Debug, PartialEq, Eq)]
pub struct RecordName {
    pub core: usize,
    pub number: u64,
}

/// That one record is to wait for another.
#[derive(Clone, Copy, Debug, PartialEq, Eq)]
pub struct Wait {
    pub held: RecordName,
    pub until: RecordName,
}

impl Wait {
    /// Whether another wait is of the same two records: this one, or the opposite.
    pub fn is_about_the_same(self, other: Wait) -> bool {
        self == other || self.held == other.until && self.until == other.held
    }

    /// A number that differs, most likely, from that of another wait.
    pub fn mark(self) -> u64 {
        let mut mark = 0x9e37_79b9_7f4a_7c15;
        for part in [
            self.held.core as u64,
            self.held.number,
            self.until.core as u64,
            self.until.number,
        ] {
            mark = (mark ^ part).wrapping_mul(0xbf58_476d_1ce4_e5b9);
            mark ^= mark >> 29;
        }
        mark
    }
}

/// A way to go on from a dead end: back to a level, where the record that was placed there is to wait for another.
#[derive(Clone, Copy, Debug, PartialEq, Eq)]
pub struct Swap {
    pub level: u64,
    pub wait: Wait,
    /// Whether the machine named the two records.
    pub is_named: bool,
}
