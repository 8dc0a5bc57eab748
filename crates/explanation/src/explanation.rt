// What explains a No, from the witness of a check.

use crate::broken::{Seen, tell_view};
use crate::demand::tell_demand;
use crate::evidence::tell_evidence;
use crate::memories::MemoryValue;
use crate::other_core::tell_other_core;
use crate::refusal::Refusal;
use crate::through::tell_channel;
use apex_types::{Cause, CoreId, Ordered, View};
use module_config::Config;
use piece_check::{Evidence, Piece, Subject};
use std::alloc::Global;
use user_rules::{Relation, RuleMemory};
use wording::{Ascii, Numbered, Part, Words, tell_record};

/// A record by its core and its number there.
#[derive(Clone, Copy, Debug, PartialEq, Eq)]
pub struct RecordNumber {
    pub core: CoreId,
    pub seq: u32,
}

/// A No in words: the record at its place, and why a piece rejects it.
#[derive(Drop)]
pub struct Explanation {
    record: Option<RecordNumber>,
    view: Option<View>,
    values: Vec<MemoryValue>,
    words: Words,
}

impl Explanation {
    /// Nothing. Takes no memory.
    pub fn new(alloc: Global) -> Explanation {
        Explanation {
            record: None,
            view: None,
            values: Vec::new(alloc),
            words: Words::new(alloc),
        }
    }

    /// The record that is explained, if one is.
    pub fn record(&self) -> Option<RecordNumber> {
        self.record
    }

    /// Adds the fields of the record's view and the values of these memories that this relation mentions, if the record breaks a rule.
    pub fn tell_fields(&mut self, memories: &[RuleMemory], relation: &Relation) {
        if let Some(view) = &self.view {
            let seen = Seen {
                view,
                memories,
                values: &self.values,
            };
            tell_view(&mut self.words, &seen, relation);
        }
    }

    /// What is explained.
    pub fn words(&self) -> &Words {
        &self.words
    }

    /// Records that this piece rejects this record for this cause. The piece is as it was before the record.
    pub fn tell_refused(
        &mut self,
        config: &Config,
        piece: &Piece,
        ordered: &Ordered,
        cause: Cause,
    ) {
        self.begin(ordered);
        let refusal = Refusal {
            config,
            piece,
            ordered,
            cause,
        };
        tell_refusal(&mut self.words, &refusal);
    }

    /// Records that the view of this record, with these values of the memories at it, breaks a rule.
    pub fn tell_broken(&mut self, ordered: &Ordered, view: &View, values: Vec<MemoryValue>) {
        self.begin(ordered);
        self.view = Some(*view);
        self.values = values;
    }

    // Begins the explanation of a record.
    fn begin(&mut self, ordered: &Ordered) {
        self.record = Some(RecordNumber {
            core: ordered.core,
            seq: ordered.rec.seq,
        });
        self.words.begin_part(Part::Record);
        tell_record(&mut self.words, ordered);
        self.words.end_part();
    }
}

// Reports why a piece rejects a record.
fn tell_refusal(words: &mut Words, refusal: &Refusal<'_>) {
    words.next_line();
    tell_subject(words, refusal.piece.subject());
    tell_demand(
        words,
        refusal.piece.subject(),
        &refusal.ordered.rec.body,
        refusal.cause,
    );
    let evidence = refusal.evidence();
    if !shows_actor(&evidence) {
        tell_actor(words, refusal);
    }
    tell_channel(words, refusal);
    tell_evidence(words, refusal, &evidence);
    tell_other_core(words, refusal);
}

// Whether the process that calls or returns is reported with the evidence.
fn shows_actor(evidence: &Evidence<'_>) -> bool {
    matches!(
        evidence,
        Evidence::Choice { .. } | Evidence::Missed { .. } | Evidence::NothingPending
    )
}

// Reports which piece rejects a record.
fn tell_subject(words: &mut Words, subject: Subject) {
    match subject {
        Subject::Module => words.say("the module rejects it"),
        Subject::Partition(number) => {
            words.say(format_args!("partition {} rejects it", number.number()));
        }
        Subject::Channel(number) => {
            words.say(format_args!("channel {} rejects it", number.number()));
        }
    }
}

// Reports the name of the process that calls or returns, if the piece knows it.
fn tell_actor(words: &mut Words, refusal: &Refusal<'_>) {
    let (Some(refusing), Some(who)) = (refusal.partition(), refusal.actor()) else {
        return;
    };
    if who.part != refusing.number {
        return;
    }
    let Some(process) = refusing.state.processes().proc(who.proc) else {
        return;
    };
    let name = process.name.as_bytes();
    if !name.is_empty() {
        words.next_line();
        words.say(format_args!("{} is \"{}\"", Numbered(who), Ascii(name)));
    }
}
