//! A user's rules over the views of records: relations that must hold for each view, the tests that find out, and memories of the views
//! before, which relations compare like fields.
//!
//! Promises: a relation holds for a view, with the values of the memories at it, exactly if the definitions say that the view meets it. A
//! rule's test agrees with its relation, so what the tests find is true of the relations. The values are those of one fold over the views,
//! and each is what its sentence says of the views before. For a view, the first rule that it breaks is found; in a list of views, the first
//! that breaks a rule, and the first rule that it breaks. Without memories the answer is the same with several threads as with one.
//!
//! A `Relation` compares quantities: numbers, fields of a view and values of memories. Relations can be combined; a definition by cases says
//! which views meet them. A `Rule` is a relation with a boxed test. It is made only if the two are proved to agree. No struct that holds
//! rules can have a model of its own, so rules are lent as slices, and memories beside them.
//!
//! A `RuleMemory` says what is kept and for whom. A `Recollection` holds what memories have kept, a cell for each holder, and reserves it at
//! the start. `read` gives the values at a view, and `take_in` lets the memories keep the view; `first_broken_remembered` goes over many
//! views so, and stops before a broken one. `first_broken` is for views without memories: it shares them among threads if the number of
//! rules times views is worth it, and takes no memory. `first_broken_in_turn` does that alone.
//!
//! A rule is made of any test that agrees with its relation. A caller without a test of its own takes the relation itself, over a clone,
//! and boxes it where the rule is made, since a function may not return a box that it made:
//!
//! ```text
//! // No call is more than 5 ticks ahead of its return.
//! let relation = Relation::Less(Quantity::Field(Field::Elapsed), Quantity::Number(6));
//! let tested = relation.clone()?;
//! let test: Test = Box::new(alloc, move |view: &View, values: &[i64]| tested.holds(view, values))?;
//! rules.push(Rule::new(relation, test))?;
//!
//! first_broken(rt, &rules, &views);            // None, or Some(Broken { view: 3, rule: 0 })
//! first_broken_in_turn(&rules, &views);        // the same, by this thread alone
//! first_rule_broken(&rules, &views[3], &[]);   // Some(0)
//! ```
//!
//! A list of views may be judged in parts: the first broken view stays the first whatever comes after (`first_broken_stays`), and after
//! views that meet every rule it is that of the views after them (`first_broken_after`), with what the memories have kept.
#![tactic(auto)]

mod broken;
mod laws;
mod memory;
mod quantity;
mod recollection;
mod relation;
mod remembering;
mod rule;
mod track;

pub use broken::{Broken, first_broken, first_broken_in_turn, first_rule_broken};
pub use laws::{
    first_broken_after, first_broken_stays, one_first_broken, one_value_is_meant, values_are_meant,
};
pub use memory::{Cell, Counted, Keeps, MOST_MEMORIES, Mark, Per, RuleMemory};
pub use quantity::Quantity;
pub use recollection::{Holders, Recollection};
pub use relation::Relation;
pub use remembering::first_broken_remembered;
pub use rule::{Rule, Test};
