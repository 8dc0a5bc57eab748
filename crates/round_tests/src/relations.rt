// Which views meet a relation, and the first view that breaks a rule, found by several threads and by one.

use crate::rule;
use apex_types::{Field, View};
use std::alloc::Global;
use std::test::Fail;
use user_rules::{
    Broken, Quantity, Relation, first_broken, first_broken_in_turn, first_rule_broken,
};

fn view_of_kind(kind: i64) -> View {
    View {
        kind,
        core: 0,
        time: 7,
        part: -1,
        proc: -1,
        service: -1,
        prio: -1,
        out: -1,
        val: -1,
        elapsed: -1,
        woken: 2,
    }
}

// Of 5,000 views only the last breaks the rule: several threads find what one finds.
#[test]
fn finds_the_last_view(rt: HostRuntime) -> Result<(), Fail> {
    let heap: Global = rt.alloc();
    let mut rules = Vec::new(heap);
    let is_a_call = Relation::Equal(Quantity::Field(Field::Kind), Quantity::Number(0));
    rules.push(rule!(heap, Relation::Not(Box::new(heap, is_a_call)?)))?;
    let mut views = [view_of_kind(3); 5000];
    views[4999] = view_of_kind(0);
    let last = Some(Broken {
        view: 4999,
        rule: 0,
    });
    assert_eq!(rt; first_broken(&rt, &rules, &views), last);
    assert_eq!(rt; first_broken_in_turn(&rules, &views), last);
    assert_eq!(rt; first_broken(&rt, &rules, &views[..4999]), None);
    assert_eq!(rt; first_broken_in_turn(&rules, &views[..4999]), None);
    Ok(())
}

// Without views, or without rules, none is broken; of two rules that one view breaks, the first is reported.
#[test]
fn finds_the_first_rule(rt: HostRuntime) -> Result<(), Fail> {
    let heap: Global = rt.alloc();
    let mut rules = Vec::new(heap);
    rules.push(rule!(
        heap,
        Relation::Less(Quantity::Field(Field::Time), Quantity::Number(8))
    ))?;
    rules.push(rule!(
        heap,
        Relation::Greater(Quantity::Field(Field::Woken), Quantity::Number(2))
    ))?;
    rules.push(rule!(
        heap,
        Relation::Equal(Quantity::Field(Field::Kind), Quantity::Number(3))
    ))?;
    let views = [view_of_kind(0)];
    let second = Some(Broken { view: 0, rule: 1 });
    assert_eq!(rt; first_broken(&rt, &rules, &views), second);
    assert_eq!(rt; first_broken_in_turn(&rules, &views), second);
    assert_eq!(rt; first_rule_broken(&rules, &views[0], &[]), Some(1));
    assert_eq!(rt; first_rule_broken(&rules[..1], &views[0], &[]), None);
    assert_eq!(rt; first_broken(&rt, &rules, &[]), None);
    assert_eq!(rt; first_broken_in_turn(&rules, &[]), None);
    assert_eq!(rt; first_broken(&rt, &[], &views), None);
    assert_eq!(rt; first_broken_in_turn(&[], &views), None);
    Ok(())
}

// Each kind of relation, at a number below the field, at it and above it.
#[test]
fn tells_relations_apart(rt: HostRuntime) -> Result<(), Fail> {
    let heap: Global = rt.alloc();
    let view = view_of_kind(1);
    for (number, expected) in [
        (6, [false, false, true]),
        (7, [false, true, false]),
        (8, [true, false, false]),
    ] {
        let [less, equal, greater] = expected;
        assert_eq!(rt;
            Relation::Less(Quantity::Field(Field::Time), Quantity::Number(number)).holds(
                &view,
                &[]
            ),
            less
        );
        assert_eq!(rt;
            Relation::Equal(Quantity::Field(Field::Time), Quantity::Number(number)).holds(
                &view,
                &[]
            ),
            equal
        );
        assert_eq!(rt;
            Relation::Greater(Quantity::Field(Field::Time), Quantity::Number(number)).holds(
                &view,
                &[]
            ),
            greater
        );
    }
    Ok(())
}
