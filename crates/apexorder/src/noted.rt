// What is noted of a search for its words, which follow when it has ended.

use crate::names::OrderNames;
use apex_types::{Cause, Ordered};
use asked_rules::{NamedRule, RuleOption, RulesFault, RulesRefusal};
use explanation::Explanation;
use input_explanation::{Foreign, tell_foreign};
use module_config::Config;
use order_run::{BrokenRule, Proposal};
use piece_check::Piece;
use std::alloc::Global;
use std::fmt::Display;
use toml_explanation::{
    RefusedRules, tell_recording_count, tell_rules, tell_unknown_keys, tell_warnings,
};
use wording::Words;

/// What is noted of a search: what stops each core, which file is not opened, why the rules file is refused, which rule is broken, and what
/// a person needs to know of the configuration.
#[derive(Drop)]
pub struct Noted {
    alloc: Global,
    stops: Vec<Explanation>,
    note: Words,
    pub(crate) unknown_keys: Words,
    pub(crate) warnings: Words,
    pub(crate) foreign: Option<Foreign>,
    pub(crate) recording_count: Words,
}

impl Noted {
    /// Nothing yet. Takes no memory.
    pub fn new(alloc: Global) -> Noted {
        Noted {
            alloc,
            stops: Vec::new(alloc),
            note: Words::new(alloc),
            unknown_keys: Words::new(alloc),
            warnings: Words::new(alloc),
            foreign: None,
            recording_count: Words::new(alloc),
        }
    }

    /// Notes which file could not be opened or read, and why.
    pub fn note_unopened(&mut self, name: &str, why: impl Display + Drop) {
        self.note.say(format_args!("{name}: {why}"));
    }

    /// Notes why the rules file with this text is refused. A refusal of memory is reported by the line alone.
    pub fn note_rules(&mut self, names: &OrderNames, refusal: &RulesRefusal, text: Option<&[u8]>) {
        let Some(name) = &names.rules else {
            return;
        };
        if refusal.fault == RulesFault::Memory {
            return;
        }
        let foreign = foreign_of(text);
        let file = RefusedRules {
            name: name.as_str(),
            refusal: *refusal,
            text: if foreign.is_none() { text } else { None },
        };
        let _line = tell_rules(&mut self.note, self.alloc, file);
        tell_foreign(&mut self.note, name, foreign);
    }

    /// Notes which of these rules is broken first in the order that is proposed, if one is: a rule of an option by its words, a rule of the
    /// rules file, which are numbered after those, by its name.
    pub fn note_proposal(
        &mut self,
        proposal: &Proposal,
        options: &[RuleOption],
        rules: &[NamedRule],
    ) {
        let broken = match proposal {
            Proposal::Found { broken, .. } | Proposal::NotFound { broken, .. } => *broken,
        };
        let Some(BrokenRule { pos, rule }) = broken else {
            return;
        };
        let place = pos.number();
        self.note.say(format_args!("the record at place {place} breaks rule {rule}: "));
        if let Some(option) = options.get(rule) {
            self.note.say(format_args!("{option}"));
        } else if let Some(named) = rules.get(rule.saturating_sub(options.len())) {
            self.note.say(format_args!("{}", named.name));
        }
    }

    /// Notes the unknown keys of the configuration with this text, what else may be a mistake there, and what the text is, if it is not
    /// plain text.
    pub fn note_configuration(&mut self, text: &[u8]) {
        tell_unknown_keys(&mut self.unknown_keys, self.alloc, text);
        tell_warnings(&mut self.warnings, self.alloc, text);
        self.foreign = Foreign::of(text);
    }

    /// Notes that so many recordings are named, and how many cores the configuration with this text has.
    pub fn note_recording_count(&mut self, recordings: usize, config: &[u8]) {
        tell_recording_count(
            &mut self.recording_count,
            self.alloc,
            recordings,
            Some(config),
        );
    }

    /// Notes that this piece rejects the next record of a core for this cause, where the search goes no further. The piece is as it is
    /// before the record.
    pub fn note_rejected(
        &mut self,
        config: &Config,
        piece: &Piece,
        ordered: &Ordered,
        cause: Cause,
    ) {
        let mut explanation = Explanation::new(self.alloc);
        explanation.tell_refused(config, piece, ordered, cause);
        // If memory is refused, there are fewer of them.
        let _ = self.stops.push(explanation);
    }

    /// What stops each core, as far as there was memory for it.
    pub fn stops(&self) -> &[Explanation] {
        self.stops.as_slice()
    }

    /// What is printed before anything else: which file could not be opened or read and why, why the rules file is refused, or which rule
    /// is broken; empty if there is nothing.
    pub fn note(&self) -> &Words {
        &self.note
    }
}

// What a text is, if there is one that is not plain text.
fn foreign_of(text: Option<&[u8]>) -> Option<Foreign> {
    Foreign::of(text?)
}
