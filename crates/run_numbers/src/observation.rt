// What a record gives to figures.

ghost use Rattle.std.specs.Prelude.{◌≡◌, ◌++◌, ◌∷◌, [], OnOk};
ghost use Rattle.run_numbers.specs.Observed.{when};

use crate::figure::Figure;
use std::alloc::AllocError;

/// What a record gives to a figure.
#[derive(Clone, Copy, Debug, PartialEq, Eq)]
pub enum Observation {
    /// A value.
    Value(Figure, u64),
    /// The beginning of a time, at this time of a core.
    Begins(Figure, u64),
    /// The end of it, at this time of the core. What is between the two is a value.
    Ends(Figure, u64),
}

/// Adds an observation.
pub(crate) fn add(
    observed: &mut Vec<Observation>,
    observation: Observation,
) -> Result<(), AllocError>
    ensures { OnOk result (observed.new.items ≡ observed.old.items ++ observation ∷ []) }
{
    observed.extend_from_slice(&[observation])
}

/// Adds an observation, if this is so.
pub(crate) fn add_if(
    observed: &mut Vec<Observation>,
    is_so: bool,
    observation: Observation,
) -> Result<(), AllocError>
    ensures { OnOk result (observed.new.items ≡ observed.old.items ++ when is_so observation) }
{
    if is_so {
        return add(observed, observation);
    }
    Ok(())
}
