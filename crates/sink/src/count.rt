// A count of failures that only contracts see.

ghost use Rattle.std.specs.Prelude.{◌≡◌, ◌+◌, ℕ};
ghost use Rattle.std.specs.Borrow.{ftrue};

use std::marker::Model;

/// How often a sink failed: a number that only contracts see, so that it has no greatest value and takes no memory.
///
/// A sink that a caller defines keeps one, reports it as its failures, and replaces it by `raised` at each failure.
#[derive(Drop)]
pub struct FailureCount {
    pub ghost count: { ℕ },
}

impl Model for FailureCount {
    ghost also_owns = { λ _. ftrue };
}

impl FailureCount {
    /// No failure so far.
    pub fn new() -> FailureCount
        ensures none { result.count ≡ 0 }
    {
        FailureCount {}
    }

    /// The count after one more failure.
    pub fn raised(&self) -> FailureCount
        ensures more { result.count ≡ self.now.count + 1 }
    {
        FailureCount {}
    }
}
