// What a memory keeps of the views before a view.

ghost use Rattle.std.specs.Prelude.{◌≡◌, ◌≤◌, ◌^◌};
ghost use Rattle.apex_types.specs.declared.limits.TheConstants.{GREATEST_NUMBER, MOST_CORES, MOST_PARTITIONS};
ghost use Rattle.user_rules.specs.Meets.{meets, with_values};
ghost use Rattle.user_rules.specs.Memories.{mark_after, changes, counted_after, elapsed_since, holder_of, latest, meets_given, number_below, trigger_of, value_in};

use crate::relation::Relation;
use apex_types::limits::{GREATEST_NUMBER, MOST_CORES, MOST_PARTITIONS};
use apex_types::{Field, View};

/// There are at most this many memories.
pub const MOST_MEMORIES: usize = 64;

// The value of a memory if no view has met its relation.
const NEVER: i64 = -1;

/// Of what a memory keeps one value each: the view's own decides which value is read, and which one changes.
#[derive(Clone, Copy, Debug, PartialEq, Eq)]
pub enum Per {
    Module,
    Core,
    Partition,
    Process,
}

impl Per {
    /// The number of the view's module, core, partition or process; None if the view has none. Takes no memory.
    pub(crate) fn holder(self, view: &View) -> Option<usize>
        ensures { result ≡ holder_of self view.now }
    {
        match self {
            Per::Module => Some(0),
            Per::Core => number_below(view.core, MOST_CORES),
            Per::Partition => number_below(view.part, MOST_PARTITIONS),
            Per::Process => {
                let partition = number_below(view.part, MOST_PARTITIONS)?;
                let process = number_below(view.proc, GREATEST_NUMBER as usize + 1)?;
                Some(process * MOST_PARTITIONS + partition)
            }
        }
    }
}

// The number that a field is, if it is from 0 to below this bound.
fn number_below(field: i64, bound: usize) -> Option<usize>
    requires { bound ≤ 2 ^ 32 }
    ensures { result ≡ number_below bound field }
{
    if field < 0 || field >= bound as i64 {
        return None;
    }
    Some(field as usize)
}

/// What is counted: the views that meet one relation, less those that meet another, since the last that met a third.
#[derive(Debug, Drop)]
pub struct Counted {
    pub relation: Relation,
    /// A view that meets it counts one less, but never below 0.
    pub back: Option<Relation>,
    /// A view that meets it sets the count to 0.
    pub reset: Option<Relation>,
}

/// What a memory keeps of the views before a view.
#[derive(Debug, Drop)]
pub enum Keeps {
    /// The time since the last that met the relation; -1 if none did.
    Since(Relation),
    /// A count.
    Count(Counted),
    /// This field of the last that met the relation; -1 if none did.
    Last(Relation, Field),
}

/// A named memory of the views before a view. Relations compare its value at a view like a field.
#[derive(Debug, Drop)]
pub struct RuleMemory {
    pub name: String,
    pub keeps: Keeps,
    pub per: Per,
}

/// What a memory keeps of the views of one holder.
#[derive(Clone, Copy, Debug, PartialEq, Eq)]
pub struct Mark {
    /// The time or the field of the last view that met the relation, or the count.
    pub number: i64,
    /// Whether a view has met the relation.
    pub met: bool,
}

impl Mark {
    /// What is kept before the first view.
    pub(crate) const EMPTY: Mark = Mark {
        number: 0,
        met: false,
    };
}

/// What a memory keeps for one holder: a core, a partition, a process or the module.
#[derive(Clone, Copy, Debug, PartialEq, Eq)]
pub struct Cell {
    /// The number of the holder.
    pub holder: usize,
    pub mark: Mark,
}

impl Keeps {
    /// Whether a view meets the relation by whose views the memory is named, with these values of the memories. Takes no memory.
    pub(crate) fn is_met(&self, view: &View, values: &[i64]) -> bool
        ensures { result ≡ meets (trigger_of self.now) (with_values view.now values.now) }
    {
        match self {
            Keeps::Since(relation) => relation.holds(view, values),
            Keeps::Count(counted) => counted.relation.holds(view, values),
            Keeps::Last(relation, _) => relation.holds(view, values),
        }
    }

    /// The value at a view if this is kept. Takes no memory.
    pub(crate) fn value(&self, mark: Mark, view: &View) -> i64
        ensures { result ≡ value_in self.now mark view.now }
    {
        match self {
            Keeps::Since(_) => {
                if mark.met {
                    elapsed_since(mark.number, view.time)
                } else {
                    NEVER
                }
            }
            Keeps::Count(_) => mark.number,
            Keeps::Last(_, _) => { if mark.met { mark.number } else { NEVER } }
        }
    }

    /// Whether a view changes what is kept, which has met the relation or has not. Takes no memory.
    pub(crate) fn is_changed_by(&self, view: &View, values: &[i64], met: bool) -> bool
        requires { met ≡ meets (trigger_of self.now) (with_values view.now values.now) }
        ensures { result ≡ changes self.now (with_values view.now values.now) }
    {
        match self {
            Keeps::Count(counted) => {
                met || is_met(&counted.back, view, values) || is_met(&counted.reset, view, values)
            }
            Keeps::Since(_) | Keeps::Last(_, _) => met,
        }
    }

    /// What is kept after a view, which has met the relation or has not. Takes no memory.
    pub(crate) fn after(&self, mark: Mark, view: &View, values: &[i64], met: bool) -> Mark
        requires { met ≡ meets (trigger_of self.now) (with_values view.now values.now) }
        ensures { result ≡ mark_after self.now mark (with_values view.now values.now) }
    {
        match self {
            Keeps::Since(_) => latest(mark, view.time, met),
            Keeps::Count(counted) => Mark {
                number: counted.after(mark.number, view, values, met),
                met: mark.met || met,
            },
            Keeps::Last(_, field) => latest(mark, view.get(*field), met),
        }
    }
}

// What is kept after a view with this number, if it has met the relation.
fn latest(mark: Mark, number: i64, met: bool) -> Mark
    ensures { result ≡ latest mark number met }
{
    if met {
        Mark { number, met: true }
    } else {
        mark
    }
}

// The time from one to another, which is 0 if the other is earlier.
fn elapsed_since(earlier: i64, now: i64) -> i64
    ensures { result ≡ elapsed_since earlier now }
{
    now.saturating_sub(earlier).max(0)
}

impl Counted {
    // The count after a view, which has met the relation that is counted or has not.
    fn after(&self, count: i64, view: &View, values: &[i64], met: bool) -> i64
        requires { met ≡ meets self.now.relation (with_values view.now values.now) }
        ensures { result ≡ counted_after self.now count (with_values view.now values.now) }
    {
        if is_met(&self.reset, view, values) {
            return 0;
        }
        let raised = if met { count.saturating_add(1) } else { count };
        if is_met(&self.back, view, values) {
            raised.saturating_sub(1).max(0)
        } else {
            raised
        }
    }
}

// Whether a view meets a relation, if there is one.
fn is_met(relation: &Option<Relation>, view: &View, values: &[i64]) -> bool
    ensures { result ≡ meets_given relation.now (with_values view.now values.now) }
{
    match relation {
        Some(relation) => relation.holds(view, values),
        None => false,
    }
}
