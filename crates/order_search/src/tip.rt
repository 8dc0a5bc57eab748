// What the search asks of the machine at its tip.

ghost use Rattle.std.specs.Prelude.{◌≡◌, ◌≤◌, ◌+◌, ◌++◌, ◌∷◌, [], ℕ, true, false, List, Ok, Option, Some, OnOk, length, take, drop};

use std::alloc::AllocError;

/// What the machine says of a core's next record.
#[derive(Clone, Copy, Debug, PartialEq, Eq)]
pub enum Answer {
    /// The core has no further record.
    Ended,
    /// The machine rejects it here.
    Refused,
    /// The machine accepts it, and no record of another core sees whether it was taken.
    Free,
    /// The machine accepts it, and records of other cores see whether it was taken.
    Shared { is_tick: bool, time: u64 },
}

/// Two records that the machine names when it rejects another, each by how many records come before it: it would look further if
/// the first of them came after the second, or, if there is no second, after the rejected one.
#[derive(Clone, Copy, Debug, PartialEq, Eq)]
pub struct Rivals {
    pub first: u64,
    pub second: Option<u64>,
}

/// The machine at the tip of a search: what each core's next record is like here, and the way on and back.
///
/// The records that it has taken are undecided until they are decided, the oldest first. It never goes back before a decided one.
/// An Err of any call is a refusal of memory, or says that a recording could not be read on: nothing is said of the machine then.
pub trait Tip {
    /// A thing that records change or depend on.
    type Thing: Eq + Drop;

    // The cores of the undecided records, in the order in which they were taken.
    ghost undecided: { Self → List ℕ };

    // How many records are decided.
    ghost decided: { Self → ℕ };

    // The core of the record that was decided last.
    ghost last_decided: { Self → Option ℕ };

    // What the recordings are.
    ghost Input: { Type 0 };

    ghost input: { Self → Input };

    /// What the machine says of a core's next record. Nothing is taken.
    fn judge(&mut self, core: usize) -> Result<Answer, AllocError>
        ensures undecided { OnOk result (undecided self.new ≡ undecided self.old) }
        ensures decided { OnOk result (decided self.new ≡ decided self.old) }
        ensures input { OnOk result (input self.new ≡ input self.old) };

    /// Takes a core's next record. If it is rejected, nothing is taken and the answer is false.
    fn take(&mut self, core: usize) -> Result<bool, AllocError>
        ensures taken { result ≡ Ok true → undecided self.new ≡ undecided self.old ++ core ∷ [] }
        ensures rejected { result ≡ Ok false → undecided self.new ≡ undecided self.old }
        ensures decided { OnOk result (decided self.new ≡ decided self.old) }
        ensures input { OnOk result (input self.new ≡ input self.old) };

    /// Goes back to when only so many of the undecided records were taken, and returns how many it took again for that.
    fn back(&mut self, kept: usize) -> Result<u64, AllocError>
        requires { kept ≤ length (undecided self.old) }
        ensures undecided { OnOk result (undecided self.new ≡ take kept (undecided self.old)) }
        ensures decided { OnOk result (decided self.new ≡ decided self.old) }
        ensures input { OnOk result (input self.new ≡ input self.old) };

    /// The oldest undecided record, which is this core's, is decided.
    fn decide(&mut self, core: usize)
        requires { undecided self.old ≡ core ∷ drop 1 (undecided self.old) }
        ensures undecided { undecided self.new ≡ drop 1 (undecided self.old) }
        ensures decided { decided self.new ≡ decided self.old + 1 }
        ensures last { last_decided self.new ≡ Some core }
        ensures input { input self.new ≡ input self.old };

    /// Adds what a core's next record changes that records of other cores may see.
    fn touched(&mut self, core: usize, things: &mut Vec<Self::Thing>) -> Result<(), AllocError>
        ensures undecided { OnOk result (undecided self.new ≡ undecided self.old) }
        ensures decided { OnOk result (decided self.new ≡ decided self.old) }
        ensures input { OnOk result (input self.new ≡ input self.old) };

    /// Adds what the machine looks at when it rejects a core's next record.
    fn blamed(&mut self, core: usize, things: &mut Vec<Self::Thing>) -> Result<(), AllocError>
        ensures undecided { OnOk result (undecided self.new ≡ undecided self.old) }
        ensures decided { OnOk result (decided self.new ≡ decided self.old) }
        ensures input { OnOk result (input self.new ≡ input self.old) };

    /// Names two records because of whose order a core's next record is rejected, if the machine knows two.
    fn rivals(&mut self, core: usize) -> Result<Option<Rivals>, AllocError>
        ensures undecided { OnOk result (undecided self.new ≡ undecided self.old) }
        ensures decided { OnOk result (decided self.new ≡ decided self.old) }
        ensures input { OnOk result (input self.new ≡ input self.old) };
}
