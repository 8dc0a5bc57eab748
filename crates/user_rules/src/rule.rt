// A relation with the test that agrees with it.

ghost use Rattle.std.specs.Prelude.{◌≡◌, Bool, List, ℤ};
ghost use Rattle.std.specs.Borrow.{Bor};
ghost use Rattle.apex_types.specs.declared.view.View.{View};
ghost use Rattle.user_rules.specs.Meets.{meets, with_values};

use crate::relation::Relation;
use apex_types::View;

/// The test of a rule: what it answers for a view with the values of the memories at it.
pub type Test = Box<dyn Fn(&View, &[i64]) -> bool + Send + Sync>;

/// A relation that must hold for each record's view, and the test that finds out.
#[derive(Drop)]
pub struct Rule {
    pub relation: Relation,
    test: Test,
    // The test may be called with any view and any values.
    ghost callable: { Test.IsAlwaysCallable test },
    // The test answers what the relation says.
    ghost agrees: { (view : Bor View) (values : Bor (List ℤ)) (answer : Bool) → Test.post test view values answer → answer ≡ meets relation (with_values view.now values.now) },
}

impl Rule {
    /// The rule of a relation and of a test that agrees with it: the test answers for a view whether the view meets the relation.
    pub fn new(relation: Relation, test: Test) -> Rule
        requires callable { Test.IsAlwaysCallable test }
        requires agrees { (view : Bor View) (values : Bor (List ℤ)) (answer : Bool) → Test.post test view values answer → answer ≡ meets relation (with_values view.now values.now) }
        ensures { result.relation ≡ relation }
    {
        Rule { relation, test }
    }

    /// Whether a view meets the rule, by its test, with these values of the memories at it.
    pub fn holds(&self, view: &View, values: &[i64]) -> bool
        ensures { result ≡ meets self.now.relation (with_values view.now values.now) }
    {
        (self.test)(view, values)
    }
}
