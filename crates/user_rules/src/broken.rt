// The first view that breaks a rule.

ghost use Rattle.std.specs.Prelude.{◌≡◌, map};
ghost use Rattle.user_rules.specs.FirstBroken.{IsFirstAmong};
ghost use Rattle.user_rules.specs.Meets.{alone, with_values};
ghost use Rattle.user_rules.specs.Search.{IsFirstRule, IsFirstView, breaks_one};
ghost use Rattle.user_rules.specs.Rules.{relations_of};

use crate::rule::Rule;
use apex_types::View;
use rayon::prelude::*;
use std::thread::Threads;

/// The first view that breaks a rule, and the first rule that it breaks, both counted from 0.
#[derive(Clone, Copy, Debug, PartialEq, Eq)]
pub struct Broken {
    pub view: usize,
    pub rule: usize,
}

// How many tests, each of one rule on one view, are worth a thread of their own.
const TESTS_OF_A_THREAD: usize = 16_384;

/// The first view that breaks a rule, and the first rule that it breaks, where there are no memories; None if each view meets every rule.
/// If there are enough views, several threads share the search, and each goes through its share to the end. Takes no memory.
pub fn first_broken<R: Threads + Sync>(rt: &R, rules: &[Rule], views: &[View]) -> Option<Broken>
    ensures { IsFirstAmong (relations_of rules.now) (map alone views.now) result }
{
    let view = first_view(rt, rules, views)?;
    let rule = first_rule_broken(rules, &views[view], &[])?;
    Some(Broken { view, rule })
}

/// What `first_broken` finds, on the caller's thread alone. Takes no memory.
pub fn first_broken_in_turn(rules: &[Rule], views: &[View]) -> Option<Broken>
    ensures { IsFirstAmong (relations_of rules.now) (map alone views.now) result }
{
    for view in 0..views.len() {
        if let Some(rule) = first_rule_broken(rules, &views[view], &[]) {
            return Some(Broken { view, rule });
        }
    }
    None
}

// The place of the first view that breaks a rule, found by several threads.
fn first_view<R: Threads + Sync>(rt: &R, rules: &[Rule], views: &[View]) -> Option<usize>
    ensures { IsFirstView (relations_of rules.now) (map alone views.now) result }
{
    let threads = views.len().saturating_mul(rules.len()) / TESTS_OF_A_THREAD;
    let least = views.len() / threads.max(1);
    views.par_iter().with_min_len(least).position_first(
        rt,
        |view: &View| -> bool
            ensures { result ≡ breaks_one (relations_of rules.entry.now) (alone view.now) }
        { breaks_one(rules, view) },
    )
}

// Whether a view breaks a rule, where there are no memories.
fn breaks_one(rules: &[Rule], view: &View) -> bool
    ensures { result ≡ breaks_one (relations_of rules.now) (alone view.now) }
{
    first_rule_broken(rules, view, &[]).is_some()
}

/// The first rule that a view breaks, with these values of the memories at it, counted from 0; None if the view meets every rule. Takes
/// no memory.
pub fn first_rule_broken(rules: &[Rule], view: &View, values: &[i64]) -> Option<usize>
    ensures { IsFirstRule (relations_of rules.now) (with_values view.now values.now) result }
{
    for rule in 0..rules.len() {
        if !rules[rule].holds(view, values) {
            return Some(rule);
        }
    }
    None
}
