//! The verdict over one order of records, judged in rounds, with the user's rules.
//!
//! Promises:
//!
//! - The first of a list of findings is one of them, and no other comes before it.
//! - A round in which no piece rejects a record is a run of each piece. Otherwise the least refusal is reported. Its piece runs up to
//!   that record and rejects it, and is left as it was before the record. The lower-numbered pieces run through the record, and all
//!   others run up to it.
//! - Without memories each view is tested where it is made, or by several threads if there are many rules. With memories the views of a
//!   round are tested in the order of their records. The round reports the first view that breaks a rule, with the first rule that it
//!   breaks.
//! - A Yes means that the records are a run of the machine from the cold state, in which each view meets every rule. A No means that
//!   the records before its place are such a run, after which the machine has no step for the record at the place. A broken rule
//!   means that the records up to its place are a run, and that the view there is the first that breaks a rule.
//!
//! Each piece of a round is lent the records, their index and, if they were looked up, the windows of their cores (`Lent`). It goes
//! over the records that touch it, up to its first refusal (`go_over`). It is left as it was before that record (`RefusesAmong`), so it
//! can be shown to a person afterwards. A `Judged` is a piece as it was left, with its result: `judge_piece` makes it from one piece by
//! itself, `judge_in_turn` from one piece after another. `gather_round` gathers the results by number, whoever judged the pieces. Its
//! contract holds for any pieces that have these results. The least refusal is the refusal of the round (`Refused`).
//!
//! If there are rules, a piece makes the view of each record that it judges and tests it at once. Of the views that break a rule it keeps
//! the first, with the first rule that it breaks (`Breach`). Of the breaches of all pieces, the one with the first record is the breach of
//! the round, if that record comes before the one that is refused (`Gathering`). No list of all views is made: only the proofs speak of
//! such a list, and say that this breach is its first (`IsTested`).
//!
//! `judge_piece_by_threads` does what `judge_piece` does. If there are many rules, the piece keeps its views with the indices of their
//! records (`Kept`), and several threads test them once the piece has gone over the round. If memory for the views is refused, they are
//! tested where they are made.
//!
//! With memories, each piece keeps its views and tests none (`Lent::keeps`). They are put to the indices of their records, and one thread
//! goes over those before the rejected record: it reads the values of the memories at a view, tests the rules, and lets the memories keep the
//! view (`Remembering`). Between rounds only what the memories have kept stays.
//!
//! `Verdict::against` says what decides: the rule of the breach, else the refusal. `check_plain` judges all records as one round, one piece
//! after another. A `Finding` is a refusal or a broken rule, and `merge` gives the first of a list of findings; the check keeps the least
//! refusal as it goes, and does not use `merge`.
//!
//! # Rounds by several threads
//!
//! The pieces of a module, judged round by round by several threads.
//!
//! Promises:
//!
//! - The answer of a round is what each piece makes of its records by itself, one result for each piece at its number, for every number
//!   of workers and in whatever order they claim and post.
//! - A round in which no piece rejects a record is a run of each piece. Otherwise the least refusal is reported, and its piece is left as
//!   it was before the rejected record.
//! - Whenever the lock of a board is free, its history is legal, and each posted result is that of its own piece over the board's round.
//!
//! Not promised: that every thread makes progress.
//!
//! `Judge` holds all pieces, the index of the round and the windows of its records. It sorts a round out by piece, looks up the window of
//! each record's core once for all pieces, lets the workers judge the pieces (`run_round`), gathers their results (`gather_round`), and
//! goes on with the pieces as they were left. `breach` gives the first view of the last round that breaks a rule.
//!
//! A worker claims a piece at the board, lets it go over the records and tests its views outside the lock, and posts its result, until no
//! piece is left. If there are several workers and many rules, further threads help to test the views of a piece (`judge_piece_by_threads`). The board
//! keeps the history of claims and posts and a place for each piece. Whenever its lock is free, a place is filled exactly if its piece is
//! posted. Claims and posts take no memory: the room is reserved when the board is made. `run_round` starts the workers, joins them and
//! takes the values out by number; with one worker it starts no thread.
//!
//! The types of a round's board, jobs and values name the round by what it is: the module, the place of its first record, the records, what
//! the rules say, and the parts of the pieces. The rules themselves are lent beside a job, and a job is run only under rules that say the
//! same as those of the round. So a value is, by its type, what its own piece makes of that round, and no value of another round can be
//! posted. A worker cannot drop a value either: it ends in a post, or with the fault of one.
//!
//! A `Gate` sees each claim and each post, outside the lock, so a test can hold workers back. The check also tells it when the answer is
//! known. Nor does a clause say that several threads run: that is tested.
#![tactic(auto)]

mod board;
mod breach;
mod by_threads;
mod done;
mod fault;
mod finding;
mod gathering;
mod job;
mod judge;
mod judged;
mod kept;
mod laws;
mod log;
mod outcome;
mod plain;
mod remembering;
mod round;
mod round_fault;
mod start;
mod survey;
mod verdict;
mod views;
mod workers;

pub use board::Board;
pub use breach::{Breach, Seen};
pub use by_threads::judge_piece_by_threads;
pub use done::Done;
pub use fault::Memory;
pub use finding::{Finding, Refused, merge};
pub use gathering::Gathering;
pub use job::Job;
pub use judge::Judge;
pub use judged::{Judged, judge_in_turn, judge_piece};
pub use kept::Kept;
pub use laws::{one_verdict, verdict_is_of_the_findings, verdict_is_of_the_machine};
pub use log::Event;
pub use outcome::{Lent, PieceOutcome, go_over};
pub use plain::check_plain;
pub use remembering::{Remembering, has_any, tested_at_once};
pub use round::{Naming, Round};
pub use round_fault::{PostFault, PostRefusal, RoundFault};
pub use start::start_pieces;
pub use survey::{Survey, gather_round};
pub use verdict::Verdict;
pub use workers::{Gate, Open, run_round};
