//! What a seed chooses: the configuration of a module, and what a process calls next. The same seed gives the same choices on every
//! machine.
//!
//! Promises: a number is from the range that is asked for, and a choice among items is one of them. A request is of a service that the
//! format has. A module that is made is the text of a configuration. How the choices are distributed is no promise.
//!
//! The words come from a PCG generator, whose stream is given by its seed alone (`choices.rt`).
//!
//! # Requests
//!
//! A service is chosen by weights, and its arguments are mostly sensible (`services.rt`, `requests.rt`). A partition is kept going by the
//! first process that it creates. That process never waits without end, and no process stops it, so that a recording of any length does not
//! run dry.
//!
//! # Modules
//!
//! A module has a few cores, partitions, windows and channels, of which some have an end outside the module. Each partition has a window on
//! each of its cores, as long as the others or not, and some time is left in no window. What is made is read as a configuration before it
//! is given out (`module.rt`).
#![tactic(auto)]

mod choices;
mod module;
mod module_plan;
mod plan_text;
mod port_names;
mod requests;
mod services;
mod situation;

pub use choices::Choices;
pub use module::{ModuleFault, module_text};
pub use port_names::PortNames;
pub use situation::Situation;
