// Rules for tests that judge by them.

/// The rule of a relation, whose test is the relation itself, over a clone of it. A function may not return a box that it made of a
/// closure, so this is a macro.
#[macro_export]
macro_rules! rule {
    ($heap:expr, $relation:expr) => {{
        let relation: user_rules::Relation = $relation;
        let tested = relation.clone()?;
        let test: user_rules::Test =
            Box::new($heap, move |view: &apex_types::View, values: &[i64]| {
                tested.holds(view, values)
            })?;
        user_rules::Rule::new(relation, test)
    }};
}
