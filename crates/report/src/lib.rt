//! The check of recordings against a configuration and a proposed order, and the report of its outcome.
//!
//! Promises: the outcome is that of the inputs' bytes, the memories and the rules. If it is Yes, the proposed order lists every record of
//! every core once and in that core's own order, and in that order the records are a run of the configured machine from the cold state in
//! which every rule holds. If it is No, they are such a run up to the place that is reported, and the machine has no step that takes the
//! record there. If a rule is broken, they are a run up to and with the record there, whose view is the first that breaks a rule. For every
//! number of workers the answer is that of one. A report that is answered as written went out whole.
//!
//! At most two rounds of records are held at a time, one of which is judged while the other is filled, and of each core what was read
//! ahead: the depth and two batches.
//!
//! `check_inputs` is the check; the other calls are the same one under other arguments. A caller that has relations and no tests of its
//! own calls `check_relations`. A witness receives what is at the place of a No, to show it to a person: the record, and the piece
//! that rejects it, as the piece was before it. At the place of a broken rule it receives the record and its view, what the memories have
//! kept of the views before, and which rule the view breaks. The answer is the same for every witness.
//!
//! `check_inputs` takes the texts as `Inputs` and the way of checking as `Options`, and one definition states all of its answer
//! (`Answers.antt`). A `CheckFault` says why there is no verdict: a fault of the arguments, of the configuration or of the input, as the
//! part that found it reports it. A refusal of memory is the check's own fault, whichever part requested the memory. `write_report` goes
//! from the outcome to the line. `check`, `check_in_rounds` (in rounds of a size that the caller gives), `check_with_last` and
//! `check_relations` are the same check.
//!
//! The settings say how many workers judge and how far the recordings are read ahead. A fault in them is reported before a configuration is
//! read; otherwise they change no outcome (`settings_change_no_outcome`). With several workers a thread beside them fills the next round; a
//! single worker fills it after the judging (`judge_and_fill`). Without rules no view is made. A ring of eight keeps the last records that
//! were judged, across rounds (`Last`). After a No or a broken rule, `check_with_last` leaves those before its place.
//!
//! `check_relations` takes relations instead of rules, and makes of each a rule with the relation itself, over a clone, as its test. A
//! function may not return a box that it made of a closure, so these rules are made where the check is called. Like `check_inputs`, it
//! takes a `Witness`, which receives a No at the end of the round that decides (`tell`): the piece and the record, or the record with the
//! view that breaks a rule. `Witness::refused` requires that the piece is as it was before the record, and rejects it for the cause.
//! `Witness::broken` requires that the view is the record's in a run over as many records as its place, and that the rule is the first
//! that it breaks. `tell` is proved to meet both. A witness answers nothing, so no clause speaks of what it makes of a No; the other calls
//! have one that does nothing (`Nobody`).
#![tactic(auto)]

mod checking;
mod fault;
mod inputs;
mod last;
mod last_text;
mod laws;
mod names;
mod options;
mod rounds;
mod settings;
mod text;
mod witness;

pub use checking::{check, check_in_rounds, check_inputs, check_relations, check_with_last};
pub use fault::{ArgumentFault, CheckFault};
pub use inputs::Inputs;
pub use last::{Last, LastItem};
pub use last_text::write_last;
pub use laws::{one_outcome, settings_change_no_outcome, whole_readings_tell_no_failure};
pub use names::name_of_row_fault;
pub use options::Options;
pub use settings::Settings;
pub use text::{status_of_outcome, write_report};
pub use verdict_merge::{Gate, Open, Verdict};
pub use witness::{Asked, Nobody, Witness};
