// What explains the end of a run to a person. It is gathered during the run, and printed after the line.

use crate::names::InputNames;
use crate::terminal::Terminal;
use apex_types::{Cause, Ordered, View};
use asked_rules::{RulesFault, RulesRefusal};
use explanation::{Explanation, values_at};
use input_explanation::{Foreign, tell_foreign};
use module_config::Config;
use piece_check::Piece;
use report::{Asked, Last, LastItem, Witness};
use std::alloc::Global;
use std::fmt::Display;
use toml_explanation::{RefusedRules, tell_rules, tell_unknown_keys, tell_warnings};
use user_rules::{Relation, RuleMemory};
use wording::Words;

/// What explains the end of a run. As the witness of a check it explains the record at the place of a No or of a broken rule.
#[derive(Drop)]
pub struct Explainer {
    alloc: Global,
    terminal: Terminal,
    explanation: Explanation,
    note: Words,
    unknown_keys: Words,
    warnings: Words,
    foreign: Option<Foreign>,
    rules_line: Option<u64>,
    unopened: Option<String>,
    broken_rule: Words,
    last: Vec<LastItem>,
}

impl Explainer {
    /// One that has explained nothing yet, to a person at this terminal. Takes no memory.
    pub fn new(alloc: Global, terminal: Terminal) -> Explainer {
        Explainer {
            alloc,
            terminal,
            explanation: Explanation::new(alloc),
            note: Words::new(alloc),
            unknown_keys: Words::new(alloc),
            warnings: Words::new(alloc),
            foreign: None,
            rules_line: None,
            unopened: None,
            broken_rule: Words::new(alloc),
            last: Vec::new(alloc),
        }
    }

    /// Where it is shown.
    pub fn terminal(&self) -> Terminal {
        self.terminal
    }

    /// The record at the place of a No or of a broken rule, in words.
    pub fn explanation(&self) -> &Explanation {
        &self.explanation
    }

    /// What is printed before anything else, empty if there is nothing.
    pub fn noted(&self) -> &Words {
        &self.note
    }

    /// The unknown keys of the configuration; empty if every key is known.
    pub fn unknown_keys(&self) -> &Words {
        &self.unknown_keys
    }

    /// What may be a mistake in the configuration, although it is accepted; empty if there is nothing.
    pub fn warnings(&self) -> &Words {
        &self.warnings
    }

    /// The file that could not be opened or read, if there is one.
    pub fn unopened(&self) -> Option<&str> {
        self.unopened.as_deref()
    }

    /// The line of a refused rules file that has the fault, counted from 1, if it was found.
    pub fn rules_line(&self) -> Option<u64> {
        self.rules_line
    }

    /// The rule that is broken: a rule of an option by its words, any other by its name. Empty if none is broken.
    pub fn broken_rule(&self) -> &Words {
        &self.broken_rule
    }

    /// The last records before the place of a No or of a broken rule, as far as there was memory for them.
    pub fn last(&self) -> &[LastItem] {
        self.last.as_slice()
    }

    /// What the configuration is, if it is not plain text.
    pub fn foreign(&self) -> Option<Foreign> {
        self.foreign
    }

    /// Notes which file could not be opened or read, and why.
    pub fn note_unopened(&mut self, name: &str, why: impl Display + Drop) {
        self.note.say(format_args!("{name}: {why}"));
        match String::from_str(self.alloc, name) {
            Ok(name) => self.unopened = Some(name),
            Err(_) => self.note.note_lack_of_memory(),
        }
    }

    /// Notes that memory was refused to what explains the end.
    pub fn note_lack_of_memory(&mut self) {
        self.note.note_lack_of_memory();
    }

    /// Notes which rule is broken, by its number and its words or its name, and at which place.
    pub fn note_broken(&mut self, place: u64, rule: usize, name: impl Display + Drop) {
        self.broken_rule.say(name);
        self.note.say(format_args!("the record at place {place} breaks rule {rule}: "));
        self.note.append(&self.broken_rule);
    }

    /// Keeps the last records before the place of a No or of a broken rule.
    pub fn keep_last(&mut self, last: &Last) {
        for index in 0..last.len() {
            if let Some(item) = last.get(index) {
                // If memory is refused, there are fewer of them.
                let _ = self.last.push(*item);
            }
        }
    }

    /// Notes why the rules file with this text is refused. A refusal of memory is reported by the line alone.
    pub fn note_rules(&mut self, names: &InputNames, refusal: &RulesRefusal, text: Option<&[u8]>) {
        let Some(name) = &names.rules else {
            return;
        };
        if refusal.fault == RulesFault::Memory {
            return;
        }
        let foreign = foreign_of(text);
        let file = RefusedRules {
            name: name.as_str(),
            refusal: *refusal,
            text: if foreign.is_none() { text } else { None },
        };
        self.rules_line = tell_rules(&mut self.note, self.alloc, file);
        tell_foreign(&mut self.note, name, foreign);
    }

    /// Notes the keys of the configuration with this text that are not known, what else may be a mistake there, and what the text is, if
    /// it is not plain text.
    pub fn note_configuration(&mut self, config: &[u8]) {
        tell_unknown_keys(&mut self.unknown_keys, self.alloc, config);
        tell_warnings(&mut self.warnings, self.alloc, config);
        self.foreign = Foreign::of(config);
    }

    /// Explains the record that this piece rejects for this cause. The piece is as it was before the record.
    pub fn explain_rejected(
        &mut self,
        config: &Config,
        piece: &Piece,
        ordered: &Ordered,
        cause: Cause,
    ) {
        self.explanation.tell_refused(config, piece, ordered, cause);
    }

    /// Explains the record that breaks a rule, by its view and by what the memories have kept of the views before it.
    pub fn explain_broken(&mut self, asked: &Asked<'_>, ordered: &Ordered, view: &View) {
        match values_at(self.alloc, asked.memories, asked.recollection, view) {
            Ok(values) => self.explanation.tell_broken(ordered, view, values),
            Err(_) => {
                self.explanation
                    .tell_broken(ordered, view, Vec::new(self.alloc));
                self.note.note_lack_of_memory();
            }
        }
    }

    /// Adds the fields of the record's view and the values of these memories that this relation mentions, if the record breaks a rule.
    pub fn tell_fields(&mut self, memories: &[RuleMemory], relation: &Relation) {
        self.explanation.tell_fields(memories, relation);
    }
}

// What a text is, if there is one that is not plain text.
fn foreign_of(text: Option<&[u8]>) -> Option<Foreign> {
    Foreign::of(text?)
}

impl Witness for Explainer {
    fn refused(&mut self, config: &Config, piece: &Piece, ordered: &Ordered, cause: Cause) {
        self.explain_rejected(config, piece, ordered, cause);
    }

    fn broken(
        &mut self,
        _config: &Config,
        asked: &Asked<'_>,
        ordered: &Ordered,
        view: &View,
        _rule: usize,
    ) {
        self.explain_broken(asked, ordered, view);
    }
}
