// Whose waits a record ends: as expected, and as recorded.

use apex_types::Who;
use wait_set::Ended;
use wording::{Numbered, Part, Words, tell_processes};

/// The waits that an operation ends.
#[derive(Clone, Copy)]
pub enum EndedWaits {
    /// No wait.
    NoWait,
    /// The wait of this process.
    Of(Who),
    /// The waits of all that wait in a set, with their number.
    All(usize),
    /// The waits of the first that wait in a set, with their number.
    First(usize),
}

impl EndedWaits {
    /// Those that an operation ends.
    pub fn of(ended: &Ended<'_>) -> EndedWaits {
        match ended {
            Ended::Nobody => EndedWaits::NoWait,
            Ended::One(who) => EndedWaits::Of(*who),
            Ended::All(set) => EndedWaits::All(set.len()),
            Ended::First(set, count) => EndedWaits::First(set.len().min(*count)),
        }
    }
}

/// Reports whose waits end, as a part.
pub fn tell_expected_waits(words: &mut Words, ended: EndedWaits) {
    words.begin_part(Part::Expected);
    match ended {
        EndedWaits::NoWait => words.say("no wait"),
        EndedWaits::Of(who) => words.say(format_args!("the wait of {}", Numbered(who))),
        EndedWaits::All(count) => {
            words.say(format_args!("the waits of all that wait there ({count})"));
        }
        EndedWaits::First(1) => words.say("the wait of the first that waits there"),
        EndedWaits::First(count) => {
            words.say(format_args!("the waits of the first {count} that wait there"));
        }
    }
    words.end_part();
}

/// Reports which processes the record names.
pub fn tell_recorded_processes(words: &mut Words, named: &[Who]) {
    words.say(", but the record names ");
    words.begin_part(Part::Recorded);
    if named.is_empty() {
        words.say("no process");
    } else {
        tell_processes(words, named);
    }
    words.end_part();
}
