// The first view that breaks a rule, with the values of memories.

ghost use Rattle.std.specs.Prelude.{◌≡◌, IfOk, take};
ghost use Rattle.user_rules.specs.FirstBroken.{IsFirstBroken};
ghost use Rattle.user_rules.specs.Passed.{passed};
ghost use Rattle.user_rules.specs.Remembered.{kept_after};
ghost use Rattle.user_rules.specs.Rules.{requirements_of};

use crate::broken::{Broken, first_rule_broken};
use crate::memory::RuleMemory;
use crate::recollection::Recollection;
use crate::rule::Rule;
use apex_types::View;
use std::alloc::AllocError;

/// The first of the next views that breaks a rule, and the first rule that it breaks, if the memories have kept what the recollection
/// has; None if each view meets every rule. The first view is at this place. The memories keep what they keep of the views before the
/// broken one, or of all views. The list of values is a buffer.
pub fn first_broken_remembered(
    memories: &[RuleMemory],
    rules: &[Rule],
    recollection: &mut Recollection,
    values: &mut Vec<i64>,
    first: u64,
    views: &[View],
) -> Result<Option<Broken>, AllocError>
    ensures broken { IfOk result (IsFirstBroken (requirements_of memories.now recollection.old rules.now) views.now) }
    ensures kept { IfOk result (λ broken. recollection.new ≡ kept_after memories.now recollection.old (passed broken views.now)) }
{
    for number in 0..views.len() {
        let view = &views[number];
        recollection.read(memories, view, values)?;
        if let Some(rule) = first_rule_broken(rules, view, values) {
            return Ok(Some(Broken { view: number, rule }));
        }
        let place = first.saturating_add(number as u64);
        recollection.take_in(memories, view, values, place)?;
    }
    Ok(None)
}
