//! A walk over the machine from its cold start, which writes what happens as recordings and a certificate, and may spoil one record.
//!
//! Promises: its functions end and meet no fault. No clause says that what is written is lawful, which records are chosen, or which one is
//! spoilt: `recording_maker` has each run judged by the check.
//!
//! The walk holds the pieces of the module, as a search for an order does (`Machine`). For each record it chooses a core, and proposes what
//! can happen there next: a message from or to the outside, the report of a missed deadline, the dispatch that is due, the report of
//! another error, a tick, the return that is due, or a call (`moves.rt`, `crossings.rt`, `errors.rt`). `seed_choices` chooses what is called. What the call can claim is
//! not guessed: the evidence of the pieces shows it (`claims.rt`). A record is taken only if each piece that it touches accepts it.
//!
//! A spoilt record is a lawful one that differs in what the wanted cause speaks of (`spoiling.rt`), and that the first piece that rejects
//! it rejects for this cause; one of those that are found is chosen. The lawful record is the one that the machine takes, so what follows
//! is as if nothing had been spoilt.
//!
//! # The rows
//!
//! The recordings and the certificate are texts that grow (`Texts`). A row gives the arguments of a request as its numbers, its name and
//! its message (`arguments.rt`). A list of processes is in rising order (`woken.rt`).
#![tactic(auto)]

mod arguments;
mod claims;
mod copies;
mod crossings;
mod errors;
mod machine;
mod moves;
mod row;
mod spoiling;
mod texts;
mod walk_fault;
mod walking;
mod woken;

pub use texts::RunTexts;
pub use walk_fault::WalkFault;
pub use walking::{WalkPlan, Walked, walk};
