// The rule that is broken, in words.

use crate::explainer::Explainer;
use asked_rules::{RuleOption, RulesFile};
use report::{CheckFault, Verdict};
use std::alloc::Global;

/// Notes which rule is broken, if one is: a rule of an option by its words, a rule of a file by its name; and the fields of the record's
/// view and the values of memories that it reads. If memory is refused for that, the note reports it.
pub fn note_broken(
    explainer: &mut Explainer,
    alloc: Global,
    options: &[RuleOption],
    file: &RulesFile,
    outcome: &Result<Verdict, CheckFault>,
) {
    let Ok(Verdict::Broken { pos, rule }) = outcome else {
        return;
    };
    let place = pos.number();
    if let Some(option) = options.get(*rule) {
        explainer.note_broken(place, *rule, format_args!("{option}"));
        match option.relation(alloc) {
            Ok(relation) => explainer.tell_fields(&file.memories, &relation),
            Err(_) => explainer.note_lack_of_memory(),
        }
    } else if let Some(named) = file.rules.get(*rule - options.len()) {
        explainer.note_broken(place, *rule, format_args!("{}", named.name));
        explainer.tell_fields(&file.memories, &named.relation);
    }
}
