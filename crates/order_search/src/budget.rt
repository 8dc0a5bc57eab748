// How many records may still be tried.

ghost use Rattle.std.specs.Prelude.{◌≡◌, ◌↔◌, ◌<◌, ◌≤◌, ◌+◌, ◌*◌, IsTrue};

/// How much a search has tried.
#[derive(Clone, Copy, Debug, PartialEq, Eq)]
pub struct Effort {
    /// How many records may be tried for each record placed.
    pub allowed: u64,
    /// How many were tried.
    pub tried: u64,
    /// The most records that were placed at one time.
    pub reached: u64,
}

/// How many records may still be tried: so many for each record placed, and once more at the start. Together with those that were tried they
/// are at most the greatest number of 64 bits.
#[derive(Clone, Copy, Debug)]
pub struct Budget {
    pub(crate) effort: Effort,
    pub(crate) left: u64,
    ghost within: { effort.tried + left ≤ effort.allowed * (effort.reached + 1) },
    ghost fits: { effort.tried + left ≤ 0xFFFFFFFFFFFFFFFF },
    ghost whole: { effort.tried + left < 0xFFFFFFFFFFFFFFFF → effort.tried + left ≡ effort.allowed * (effort.reached + 1) },
}

impl Budget {
    /// The budget of a search that has tried nothing and may try so many records for each record placed.
    pub fn new(allowed: u64) -> Budget {
        Budget {
            effort: Effort {
                allowed,
                tried: 0,
                reached: 0,
            },
            left: allowed,
        }
    }

    /// Whether nothing is left.
    pub fn is_used_up(&self) -> bool
        ensures { IsTrue result ↔ (self.now.left ≡ 0) }
    {
        self.left == 0
    }

    /// So many records are tried, as far as the budget goes.
    pub fn charge(&mut self, count: u64)
        ensures tried { count ≤ self.old.left → self.new.effort.tried ≡ self.old.effort.tried + count }
        ensures sum { self.new.effort.tried + self.new.left ≡ self.old.effort.tried + self.old.left }
        ensures left { self.new.left ≤ self.old.left }
    {
        let count = count.min(self.left);
        self.left -= count;
        self.effort.tried += count;
    }

    /// So many records are placed: at most one more than ever before.
    pub fn reach(&mut self, placed: u64)
        ensures { self.new.effort.tried ≡ self.old.effort.tried }
    {
        if placed > self.effort.reached {
            self.effort.reached += 1;
            let most = u64::MAX - self.effort.tried;
            self.left = self.left.saturating_add(self.effort.allowed).min(most);
        }
    }
}
