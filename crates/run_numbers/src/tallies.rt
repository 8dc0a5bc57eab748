// The tallies of all figures.

ghost use Rattle.std.specs.Prelude.{◌≡◌, ◌∷◌, [], ℕ, OnOk, List, slice_get};
ghost use Rattle.run_numbers.specs.declared.figure.Figure.{Figure as Measured};
ghost use Rattle.run_numbers.specs.declared.observation.Observation.TheVariants.{Begins, Ends};
ghost use Rattle.run_numbers.specs.declared.tally.Extreme.{Extreme as Point};
ghost use Rattle.run_numbers.specs.Tallies.{AreOf, Placed, begun_in, figures_in, points_with, tally_in, tally_of};
ghost use Rattle.std.specs.Option.{option_copied};

use crate::figure::Figure;
use crate::maps::{put, put_copy};
use crate::observation::Observation;
use crate::tally::{Extreme, Tally};
use apex_types::Place;
use indexmap::IndexMap;
use std::alloc::{AllocError, Global};

/// The tallies of the figures that have values, and when the times began that have not ended.
#[derive(Drop)]
pub struct Tallies {
    tallies: IndexMap<Figure, Tally>,
    begun: IndexMap<Figure, u64>,
}

impl Tallies {
    /// No figure has a value. Takes no memory.
    pub fn new(alloc: Global) -> Tallies
        ensures { AreOf [] result }
    {
        Tallies {
            tallies: IndexMap::new(alloc),
            begun: IndexMap::new(alloc),
        }
    }

    /// The tally of a figure.
    pub fn tally(&self, figure: &Figure) -> Tally
        ensures { result ≡ tally_in self.now figure.now }
    {
        match self.tallies.get(figure) {
            Some(tally) => *tally,
            None => Tally::empty(),
        }
    }

    /// The figure of this index among those that have values, in the order in which they got the first one, or None if there are no more.
    pub fn figure_at(&self, index: usize) -> Option<&Figure>
        ensures { option_copied result ≡ slice_get (figures_in self.now) index }
    {
        let (figure, _) = self.tallies.get_index(index)?;
        Some(figure)
    }

    /// Takes what the record at a place gives, which is not before the records so far.
    ///
    /// `AllocError` if memory is refused.
    pub fn take(&mut self, place: Place, observation: &Observation) -> Result<(), AllocError>
        ensures { OnOk result ((run : List Placed) → AreOf run self.old → AreOf (record { place = place; observation = observation.now } ∷ run) self.new) }
    {
        match observation {
            Observation::Value(figure, value) => {
                let value = *value;
                self.add(figure, &Extreme { value, place })
            }
            Observation::Begins(figure, time) => self.begin(figure, *time),
            Observation::Ends(figure, time) => self.end(figure, *time, place),
        }
    }

    // Adds a value of a figure.
    fn add(&mut self, figure: &Figure, later: &Extreme) -> Result<(), AllocError>
        ensures values { OnOk result ((points : Measured → List Point) → ((other : Measured) → tally_in self.old other ≡ tally_of (points other)) → (other : Measured) → tally_in self.new other ≡ tally_of (points_with figure.now later.now other (points other))) }
        ensures times { OnOk result ((other : Measured) → begun_in self.new other ≡ begun_in self.old other) }
    {
        let tally = self.tally(figure).with(later);
        put_copy(&mut self.tallies, figure, &tally)
    }

    // A time begins.
    fn begin(&mut self, figure: &Figure, time: u64) -> Result<(), AllocError>
        ensures { OnOk result ((run : List Placed) (place : ℕ) → AreOf run self.old → AreOf (record { place = place; observation = Begins figure.now time } ∷ run) self.new) }
    {
        put(&mut self.begun, figure, time)
    }

    // A time ends, if it had begun.
    fn end(&mut self, figure: &Figure, time: u64, place: Place) -> Result<(), AllocError>
        ensures { OnOk result ((run : List Placed) → AreOf run self.old → AreOf (record { place = place; observation = Ends figure.now time } ∷ run) self.new) }
    {
        let Some(begun) = self.begun.swap_remove(figure) else {
            return Ok(());
        };
        let value = time.saturating_sub(begun);
        self.add(figure, &Extreme { value, place })
    }
}
