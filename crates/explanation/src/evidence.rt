// Why a piece rejects a record, by the evidence that it shows.

use crate::choice::tell_choice;
use crate::claim::{tell_answer, tell_new_number, tell_refused_outcome, tell_through};
use crate::crossing::{crossing_of, tell_crossing, tell_inside, tell_size};
use crate::deadline::{tell_absent, tell_deadline, tell_missed};
use crate::due::tell_named;
use crate::errors::tell_restart;
use crate::module::{tell_left_back, tell_unknown_channel, tell_unknown_partition, tell_window};
use crate::outside::{tell_initialising, tell_mutex_owner, tell_mutex_waiter};
use crate::pending::{tell_nothing_pending, tell_pending};
use crate::priority::{tell_mutexes, tell_priority};
use crate::refusal::Refusal;
use crate::through::{tell_neither_end, tell_other_kind, tell_waits};
use piece_check::Evidence;
use wording::Words;

/// Reports what shows that the demand fails.
pub fn tell_evidence(words: &mut Words, refusal: &Refusal<'_>, evidence: &Evidence<'_>) {
    match evidence {
        Evidence::Nothing => tell_absent(words, refusal),
        Evidence::UnknownPartition(number) => tell_unknown_partition(words, *number),
        Evidence::UnknownChannel(number) => tell_unknown_channel(words, *number),
        Evidence::LeftBack(core) => tell_left_back(words, refusal, *core),
        Evidence::Window { owner, occupant } => tell_window(words, refusal, *owner, *occupant),
        Evidence::Choice { choice, occupant } => tell_choice(words, refusal, choice, occupant),
        Evidence::Missed { who, deadline } => tell_missed(words, refusal, who, *deadline),
        Evidence::Deadline { affinity, deadline } => {
            tell_deadline(words, refusal, *affinity, *deadline);
        }
        Evidence::Waits => tell_waits(words),
        Evidence::Pending(outcome) => tell_pending(words, refusal, outcome),
        Evidence::NothingPending => tell_nothing_pending(words, refusal),
        Evidence::Restart(restarts) => tell_restart(words, refusal, *restarts),
        Evidence::Initialising => tell_initialising(words),
        Evidence::OwnsMutex => tell_mutex_owner(words, refusal),
        Evidence::WaitsForMutex => tell_mutex_waiter(words, refusal),
        Evidence::Priority {
            current,
            base,
            before,
            owned,
            elsewhere,
        } => {
            tell_priority(words, refusal, *current, *base);
            tell_mutexes(words, refusal, *before, *owned, *elsewhere);
        }
        Evidence::Conditions(conditions) => tell_refused_outcome(words, refusal, conditions),
        Evidence::Through(channel) => tell_through(words, refusal, *channel),
        Evidence::Answer(given) => match crossing_of(refusal) {
            Some(crossing) => tell_crossing(words, refusal, given, crossing),
            None => tell_answer(words, refusal, given),
        },
        Evidence::NewNumber => tell_new_number(words, refusal),
        Evidence::OtherKind => tell_other_kind(words),
        Evidence::AtNeitherEnd => tell_neither_end(words),
        Evidence::Named => tell_named(words, refusal),
        Evidence::Inside => tell_inside(words, refusal),
        Evidence::Size(size) => tell_size(words, refusal, *size),
    }
}
