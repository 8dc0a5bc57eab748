//! The configuration of a module, read from a TOML text.
//!
//! Promises: apart from a lack of memory, the configuration is exactly what its text says, or the first refusal of the text. A refusal has
//! the key and the table at which it is, or a misfit that shows it. Every number in a configuration is within its limits. The readers of
//! its fields take no memory. Each key is judged before memory is requested, so a refusal by the walk over the keys is reported however
//! little memory there is.
//!
//! The crate has the walk over the keys of the TOML table, the judgement over the whole, and the readers of the fields, including the one
//! for the window of a core at a time. The walk judges each key, and each item of a list, before it requests memory. It reports a refused
//! key with its table (`Config::read_explained`, `place.rt`), and a refusal over the whole with a misfit that shows it (`misfit.rt`);
//! `Config::read` reports the fault alone. How a value is read does not depend on its key (`keys.rt`), and the table adds the place to the
//! refusal (`placed.rt`). One function judges the items of each list of tables (`described.rt`).
//!
//! Partitions are then sorted by number, and windows by core and start; channels stay in the order of the text. So two windows overlap
//! exactly if two neighbours do, and the window at a time is the last one that has begun, if it has not ended. The caller of `window_near`
//! guesses how many windows have begun. If the guess is right, or one too small, two windows are looked at; otherwise a binary search finds
//! the number. No guess changes the answer.
//!
//! A channel contains its ends and their names, so reading it takes no memory (`sampling.rt`, `queuing.rt`, `ends.rt`). Functions over the
//! channels of a kind are generic (`configured.rt`, `number.rt`). A list has the numbers of the channels of both kinds in rising order
//! (`counts.rt`), and a binary search in it finds whether a number is configured. A pass over the channels of a kind finds what is
//! configured of a channel, who is at its ends and which port has a given name. Ends are counted in one way for two judgements: a
//! partition's ports of a kind, and a port that is given twice (`EndCount`, `Likeness`).
#![tactic(auto)]

mod channels;
mod config;
mod configured;
mod cores;
mod counts;
mod described;
mod ends;
mod fault;
mod keys;
mod laws;
mod layout;
mod misfit;
mod number;
mod partition;
mod place;
mod placed;
mod port;
mod queuing;
mod refusal;
mod sampling;
mod timetable;
mod whole;
mod window;

pub use config::Config;
pub use fault::ConfigFault;
pub use laws::window_at_is_the_sentence;
pub use misfit::Misfit;
pub use place::{ConfigKey, ConfigPlace, ConfigTable};
pub use port::{ChannelKind, QueuingPort, SamplingPort};
pub use refusal::{ConfigRefusal, ExplainedRefusal};
