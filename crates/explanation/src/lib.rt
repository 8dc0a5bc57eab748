//! A No in words, for the person who reads it: the record at its place and why its piece rejects it; for a broken rule, the record and its
//! view.
//!
//! Promises only that its functions end and take no memory except for their texts: it decides nothing. What it says of a refusal is the
//! evidence that the piece gives.
//!
//! `Explanation` receives the record and the piece that rejects it, as the piece was before the record. It writes what the record says, the
//! evidence of the failed demand, and what the piece holds. It works out no condition and no rule: each variant of `Evidence` has a
//! function here (`evidence.rt`). At a broken rule it receives the record, its view and the values of memories at it.
//!
//! The files are by subject: the demands by their causes, the module, the choice, pending outcomes, priorities, who is named wrongly,
//! claims beside what the rules give, messages from and to the outside, error conditions, objects, locks and channels, uses outside the
//! profile, and recordings that may be named for the wrong cores.
//!
//! The crate does not depend on `report`, so the two are proved side by side; `apexcheck` passes it what the witness of a check receives
//! (`Explainer`). The check has its answer before a witness receives it, and no clause speaks of the words. The functions have no
//! contracts, and are proved only to end and to meet no fault.
#![tactic(auto)]

mod broken;
mod choice;
mod claim;
mod claimed;
mod conditions;
mod crossing;
mod deadline;
mod demand;
mod due;
mod ended;
mod errors;
mod evidence;
mod explanation;
mod held;
mod judged;
mod memories;
mod module;
mod other_core;
mod outside;
mod pending;
mod priority;
mod processes;
mod refusal;
mod through;

pub use explanation::{Explanation, RecordNumber};
pub use memories::{MemoryValue, values_at};
