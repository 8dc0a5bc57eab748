//! The machine at the tip of a search for an order, and the search as the guide of a run.
//!
//! Promises: what is proposed is what `order_run` says of a proposal, and so what a check answers to the certificate that is written. The
//! machine at the tip decides how often an order is found, and nothing else.
#![tactic(auto)]

mod exploration;
mod guided;
mod known_answers;
mod laws;
mod machine;
mod outlook;
mod proposing;
mod undecided;
mod watcher;

pub use laws::proposal_is_the_outcome;
pub use order_search::Limits;
pub use proposing::{MOST_UNDECIDED, propose};
pub use watcher::Watcher;
