// What a user's rule says of a view.

ghost use Rattle.std.specs.Prelude.{◌≡◌, ◌&&◌, ◌||◌, IfOk};
ghost use Rattle.user_rules.specs.Meets.{MeansTheSame, meets, with_values};

use crate::quantity::Quantity;
use apex_types::View;
use std::alloc::AllocError;

/// What a user's rule says of a view and of the values of the memories at it: two quantities are compared, and relations are combined.
///
/// A clone needs memory, and the same views meet it.
#[derive(Debug, Drop)]
pub enum Relation {
    /// The first is below the second.
    Less(Quantity, Quantity),
    /// The two are equal.
    Equal(Quantity, Quantity),
    /// The first is above the second.
    Greater(Quantity, Quantity),
    /// Both hold.
    And(Box<Relation>, Box<Relation>),
    /// One of the two holds, or both do.
    Or(Box<Relation>, Box<Relation>),
    /// It does not hold.
    Not(Box<Relation>),
}

impl Relation {
    /// Whether a view meets the relation, with these values of the memories at it. Takes no memory; each level of a relation takes a
    /// little of the stack.
    // A comparison is met more often than all others, and needs no call.
    #[inline(always)]
    #[cycle(holds)]
    pub fn holds(&self, view: &View, values: &[i64]) -> bool
        ensures { result ≡ meets self.now (with_values view.now values.now) }
    {
        match self {
            Relation::Less(left, right) => left.of(view, values) < right.of(view, values),
            Relation::Equal(left, right) => left.of(view, values) == right.of(view, values),
            Relation::Greater(left, right) => left.of(view, values) > right.of(view, values),
            Relation::And(left, right) => both_hold(left, right, view, values),
            Relation::Or(left, right) => one_holds(left, right, view, values),
            Relation::Not(negated) => !part_holds(negated, view, values),
        }
    }
}

#[cycle(holds)]
fn both_hold(left: &Relation, right: &Relation, view: &View, values: &[i64]) -> bool
    ensures { result ≡ (meets left.now (with_values view.now values.now) && meets right.now (with_values view.now values.now)) }
{
    left.holds(view, values) && right.holds(view, values)
}

#[cycle(holds)]
fn one_holds(left: &Relation, right: &Relation, view: &View, values: &[i64]) -> bool
    ensures { result ≡ (meets left.now (with_values view.now values.now) || meets right.now (with_values view.now values.now)) }
{
    left.holds(view, values) || right.holds(view, values)
}

#[cycle(holds)]
fn part_holds(relation: &Relation, view: &View, values: &[i64]) -> bool
    ensures { result ≡ meets relation.now (with_values view.now values.now) }
{
    relation.holds(view, values)
}

impl Clone for Relation {
    ghost is_clone = { λ relation copy. MeansTheSame relation copy };

    fn clone(&self) -> Result<Relation, AllocError> {
        copy(self)
    }
}

// A relation that the same views meet.
#[cycle(copy)]
fn copy(relation: &Relation) -> Result<Relation, AllocError>
    ensures { IfOk result (MeansTheSame relation.now) }
{
    match relation {
        Relation::Less(left, right) => Ok(Relation::Less(*left, *right)),
        Relation::Equal(left, right) => Ok(Relation::Equal(*left, *right)),
        Relation::Greater(left, right) => Ok(Relation::Greater(*left, *right)),
        Relation::And(left, right) => Ok(Relation::And(copy_boxed(left)?, copy_boxed(right)?)),
        Relation::Or(left, right) => Ok(Relation::Or(copy_boxed(left)?, copy_boxed(right)?)),
        Relation::Not(negated) => Ok(Relation::Not(copy_boxed(negated)?)),
    }
}

#[cycle(copy)]
fn copy_boxed(relation: &Box<Relation>) -> Result<Box<Relation>, AllocError>
    ensures { IfOk result (λ copied. MeansTheSame relation.now.value copied.value) }
{
    Ok(Box::new(*Box::allocator(relation), copy(relation)?)?)
}
