// The laws on the first broken view and on the values of memories, each the contract of a function without code.

ghost use Rattle.user_rules.specs.FirstBroken.{FirstBrokenAfter, FirstBrokenStays, OneFirstBroken};
ghost use Rattle.user_rules.specs.Sentences.{OneValueIsMeant, ValuesAreMeant};

/// In a list of views, at most one breaks a rule first, and there is one rule that it breaks first.
pub fn one_first_broken()
    ensures { OneFirstBroken }
{}

/// Lists of views may be taken one after another: after views that meet every rule, the first broken view is that of the views after them,
/// with the earlier views counted in.
pub fn first_broken_after()
    ensures { FirstBrokenAfter }
{}

/// The first broken view stays the first, whatever views come after.
pub fn first_broken_stays()
    ensures { FirstBrokenStays }
{}

/// The value of a memory at a view is what its sentence says of the views before it, of the same module, core, partition or process.
pub fn values_are_meant()
    ensures { ValuesAreMeant }
{}

/// What a memory's sentence says of the same views is one value.
pub fn one_value_is_meant()
    ensures { OneValueIsMeant }
{}
