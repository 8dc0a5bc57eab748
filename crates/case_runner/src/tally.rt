// How many cases were run, and how many of them failed.

ghost use Rattle.std.specs.Prelude.{◌≡◌, ◌↔◌, ◌<◌, ◌≤◌, IsTrue, false};

/// A count of cases.
#[derive(Clone, Copy, Debug, PartialEq, Eq)]
pub struct Tally {
    pub cases: u64,
    pub failed: u64,
}

impl Tally {
    /// No case so far.
    pub fn new() -> Tally
        ensures { (result.cases ≡ 0) × (result.failed ≡ 0) }
    {
        Tally {
            cases: 0,
            failed: 0,
        }
    }

    /// Counts a case.
    pub fn count(&mut self, passed: bool)
        ensures more { self.old.cases ≤ self.new.cases }
        ensures kept { self.old.failed ≤ self.new.failed }
        ensures failed { passed ≡ false → 0 < self.new.failed }
    {
        self.cases = self.cases.saturating_add(1);
        if !passed {
            self.failed = self.failed.saturating_add(1);
        }
    }

    /// Whether there was a case, and none failed.
    pub fn is_good(&self) -> bool
        ensures { IsTrue result ↔ (0 < self.now.cases) × (self.now.failed ≡ 0) }
    {
        self.cases > 0 && self.failed == 0
    }
}
