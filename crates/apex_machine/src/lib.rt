//! The definitions of the configured APEX machine, by which a recording is judged.
//!
//! The folder `specs/` holds them, from the configuration to the run; `docs/SPECIFICATION.md` explains them in words. The code here is only
//! plain data: processes with their waits and outcomes, entries of waiting sets, modes, cores, errors and their handlers, what statuses
//! report of objects, and the error conditions of calls.
//!
//! Promises: the code of a condition is the one that the definitions give it.
//!
//! The definitions are those of all services: configuration, state, waiting sets, choice, error conditions, objects and channels,
//! processes, the state after a record, step and run, pieces and their demands, runs of pieces, and views. All crates above cite them. The
//! error conditions are values of one enum (`Condition`), each with its code and its text in one row of a table.
#![tactic(auto)]

mod condition;
mod state;

pub use condition::Condition;
pub use state::{
    CoreState, Direction, Entry, ErrorHandler, ErrorPolicy, ListedError, Mode, Outcome, Process,
    Restart, StartCondition, Status, Wait, WaitingSet,
};
