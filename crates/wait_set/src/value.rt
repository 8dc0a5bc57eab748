// The values that operations give.

ghost use Rattle.std.specs.Prelude.{◌≡◌, ◌↔◌, Some, IsTrue};
ghost use Rattle.wait_set.specs.GivenNumbers.{value_given};

/// A value that an operation gives its caller.
#[derive(Clone, Copy, Debug, PartialEq, Eq)]
pub enum GivenValue {
    /// A number that is not below 0.
    Natural(u64),
    /// A number below 0, which means that there is nothing to report.
    BelowZero(i64),
}

impl GivenValue {
    /// Whether a claimed value is this one.
    pub(crate) fn is_claimed(self, claimed: Option<i64>) -> bool
        ensures { IsTrue result ↔ (claimed ≡ Some (value_given self)) }
    {
        let Some(claimed) = claimed else {
            return false;
        };
        match self {
            GivenValue::Natural(number) => claimed >= 0 && claimed as u64 == number,
            GivenValue::BelowZero(number) => claimed == number,
        }
    }
}
