//! The figures of a run: what its records measure of cores, windows, processes, services, objects and channels.
//!
//! Promises: each figure is the number, the sum, the greatest or the least of the values that the accepted records give it. What a record
//! gives is stated by the definitions, from what the pieces hold before it. No more memory is taken than for the figures that have a value,
//! however many records there are.
//!
//! A record gives values to figures (`Observation`), by the state that it meets: the module's piece says what it gives to the figures of
//! cores and windows, a partition's piece to those of its processes and objects, and a channel's piece to those of the channel. Two figures
//! are times between two records: the lateness of a release, and the hold of a mutex. They have a beginning and an end. `Numbers` keeps what
//! a record would give until the record is accepted. Nothing here judges.
#![tactic(auto)]

mod activity;
mod calls;
mod channels;
mod cores;
mod figure;
mod maps;
mod mutexes;
mod names;
mod numbers;
mod objects;
mod observation;
mod partitions;
mod releases;
mod tallies;
mod tally;
mod ticks;
mod waits;

pub use figure::{Activity, Figure, Thing, WindowKey};
pub use names::{Named, Names};
pub use numbers::Numbers;
pub use observation::Observation;
pub use tallies::Tallies;
pub use tally::{Extreme, Tally};
