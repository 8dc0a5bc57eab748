// What is kept of the values of a figure.

ghost use Rattle.std.specs.Prelude.{◌≡◌, ◌∷◌, [], List};
ghost use Rattle.run_numbers.specs.Tallies.{capped, greater_of, less_of, tally_of};
ghost use Rattle.run_numbers.specs.declared.tally.Extreme.{Extreme as Point};

use apex_types::Place;

/// A value, and the place of the record that gave it.
#[derive(Clone, Copy, Debug, PartialEq, Eq)]
pub struct Extreme {
    pub value: u64,
    pub place: Place,
}

/// How many values there are, their sum, the greatest and the least. Of equal ones it is the first. A number or a sum above the greatest of
/// 64 bits is kept as that one.
#[derive(Clone, Copy, Debug, PartialEq, Eq)]
pub struct Tally {
    pub count: u64,
    pub total: u64,
    pub greatest: Option<Extreme>,
    pub least: Option<Extreme>,
}

impl Tally {
    /// No values.
    pub fn empty() -> Tally
        ensures { result ≡ tally_of [] }
    {
        Tally {
            count: 0,
            total: 0,
            greatest: None,
            least: None,
        }
    }

    /// One value more, later than the others.
    pub fn with(&self, later: &Extreme) -> Tally
        ensures { (points : List Point) → self.now ≡ tally_of points → result ≡ tally_of (later.now ∷ points) }
    {
        Tally {
            count: self.count.saturating_add(1),
            total: self.total.saturating_add(later.value),
            greatest: Some(greater(later, &self.greatest)),
            least: Some(less(later, &self.least)),
        }
    }
}

// The greater of a later value and the greatest before it, if there was one.
fn greater(later: &Extreme, earlier: &Option<Extreme>) -> Extreme
    ensures { result ≡ greater_of later.now earlier.now }
{
    match earlier {
        Some(earlier) => {
            if later.value <= earlier.value {
                *earlier
            } else {
                *later
            }
        }
        None => *later,
    }
}

// The less of a later value and the least before it, if there was one.
fn less(later: &Extreme, earlier: &Option<Extreme>) -> Extreme
    ensures { result ≡ less_of later.now earlier.now }
{
    match earlier {
        Some(earlier) => {
            if earlier.value <= later.value {
                *earlier
            } else {
                *later
            }
        }
        None => *later,
    }
}
