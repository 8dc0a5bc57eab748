// The processes whose waits an operation ends.

ghost use Rattle.std.specs.Prelude.{◌≡◌, ◌↔◌, IsTrue};
ghost use Rattle.std.specs.Option.{option_to_list};
ghost use Rattle.apex_machine.specs.Answer.{NamesExactly};
ghost use Rattle.apex_machine.specs.State.{is_named};
ghost use Rattle.wait_set.specs.Givens.{listed};

use crate::named::names_only;
use crate::set::WaitSet;
use apex_types::{Who, Woken};

/// The processes whose waits an operation ends.
#[derive(Clone, Copy)]
pub enum Ended<'a> {
    /// No process.
    Nobody,
    /// This process.
    One(Who),
    /// All that wait in a set.
    All(&'a WaitSet),
    /// The first that wait in a set, as many as this number or all.
    First(&'a WaitSet, usize),
}

impl<'a> Ended<'a> {
    /// This process, if there is one.
    pub fn at_most_one(who: Option<Who>) -> Ended<'a>
        ensures { listed result ≡ option_to_list who }
    {
        match who {
            Some(who) => Ended::One(who),
            None => Ended::Nobody,
        }
    }

    /// Whether the wait of a process ends. Takes no memory.
    pub fn has(&self, who: Who) -> bool
        ensures { result ≡ is_named who (listed self.now) }
    {
        match self {
            Ended::Nobody => false,
            Ended::One(one) => *one == who,
            Ended::All(set) => set.has(who),
            Ended::First(set, count) => set.has_among_first(who, *count),
        }
    }

    /// Whether a list names exactly these processes, each once. Takes no memory.
    pub fn is_exactly(&self, woken: &Woken) -> bool
        ensures { IsTrue result ↔ NamesExactly (listed self.now) woken.now }
    {
        let named = woken.as_slice();
        match self {
            Ended::Nobody => names_only(None, named),
            Ended::One(one) => names_only(Some(*one), named),
            Ended::All(set) => set.is_exactly(named),
            Ended::First(set, count) => set.is_first(*count, named),
        }
    }
}
