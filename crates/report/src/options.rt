// How a check is carried out.

ghost use Rattle.std.specs.Prelude.{◌≡◌, ◌≤◌};
ghost use Rattle.apex_types.specs.declared.limits.TheConstants.{LARGEST_ROUND};

use crate::settings::Settings;
use apex_types::limits::LARGEST_ROUND;

/// How a check is carried out: its settings, the gate that sees each claim and each post, and how many records a round
/// holds. No answer depends on the gate or the rounds.
#[derive(Drop)]
pub struct Options<'a, G> {
    /// The workers and the depth.
    pub settings: Settings,
    /// The gate, which sees claims and posts.
    pub gate: &'a G,
    /// The most records of a round, from 1 to the largest round.
    pub size: usize,
    ghost is_size: { (1 ≤ size) × (size ≤ LARGEST_ROUND) },
}

impl<'a, G> Options<'a, G> {
    /// These settings and this gate, with the largest rounds.
    pub fn new(settings: Settings, gate: &'a G) -> Options<'a, G>
        ensures settings { result.settings ≡ settings }
        ensures size { result.size ≡ LARGEST_ROUND }
    {
        Options {
            settings,
            gate,
            size: LARGEST_ROUND,
        }
    }

    /// The same with rounds of at most this many records, from 1 to the largest round.
    pub fn in_rounds(self, size: usize) -> Options<'a, G>
        requires least { 1 ≤ size }
        requires most { size ≤ LARGEST_ROUND }
        ensures settings { result.settings ≡ self.entry.settings }
        ensures gate { result.gate ≡ self.entry.gate }
        ensures size { result.size ≡ size }
    {
        Options {
            settings: self.settings,
            gate: self.gate,
            size,
        }
    }
}
