// One piece judges the records of a round.

ghost use Rattle.std.specs.Prelude.{◌≡◌, ◌<◌, All, false, IfOk, IfSome, OnErr, IsTrue, length};
ghost use Rattle.apex_machine.specs.Pieces.{pieces};
ghost use Rattle.apex_machine.specs.Runs.{ArePlaced, AreOfCores};
ghost use Rattle.apex_machine.specs.Views.{view_in};
ghost use Rattle.piece_check.specs.Parts.{HoldsBefore, IsOf, holder};
ghost use Rattle.piece_check.specs.Touching.{AreSortedOut, indices_of};
ghost use Rattle.piece_check.specs.Found.{IsWindowAt};
ghost use Rattle.user_rules.specs.Rules.{relations_of};
ghost use Rattle.verdict_merge.specs.Rounds.{HasJudged, IsGoing, IsJudgedOver, IsRefusal, MayStep};
ghost use Rattle.verdict_merge.specs.Views.{HasTested, IsFirstBreach, first_some, seen_of};

use crate::breach::{Breach, Seen};
use crate::fault::Memory;
use crate::finding::{Refused, refused_by};
use apex_types::Ordered;
use module_config::Config;
use piece_check::{Piece, PieceFault, Touched, WindowAt, subject_of};
use user_rules::{Rule, first_rule_broken};

/// What is lent to each piece of a round.
#[derive(Clone, Copy)]
pub struct Lent<'a> {
    pub config: &'a Config,
    /// The place of the first record.
    pub first: u64,
    /// The next records, each at its place.
    pub records: &'a [Ordered],
    /// Which of them touch each piece.
    pub touched: &'a Touched,
    /// Windows that were looked up, those of a record under its index. A piece looks up what is not there.
    pub windows: &'a [WindowAt],
    /// Whether each piece keeps the views of the records that it judges, for a test in the order of all records.
    pub keeps: bool,
    pub ghost sorted: { AreSortedOut config.now records.now (indices_of touched.now) },
    pub ghost found: { All (IsWindowAt config.now) windows.now },
}

impl<'a> Lent<'a> {
    /// Lends records that are sorted out. Takes no memory.
    pub fn new(
        config: &'a Config,
        first: u64,
        records: &'a [Ordered],
        touched: &'a Touched,
    ) -> Lent<'a>
        requires { AreSortedOut config.now records.now (indices_of touched.now) }
        ensures config { result.config.now ≡ config.now }
        ensures first { result.first ≡ first }
        ensures records { result.records.now ≡ records.now }
        ensures keeps { result.keeps ≡ false }
    {
        Lent::with_windows(config, first, records, touched, &[])
    }

    /// Lends records that are sorted out, with the windows that their cores are in. Takes no memory.
    pub fn with_windows(
        config: &'a Config,
        first: u64,
        records: &'a [Ordered],
        touched: &'a Touched,
        windows: &'a [WindowAt],
    ) -> Lent<'a>
        requires sorted { AreSortedOut config.now records.now (indices_of touched.now) }
        requires found { All (IsWindowAt config.now) windows.now }
        ensures config { result.config.now ≡ config.now }
        ensures first { result.first ≡ first }
        ensures records { result.records.now ≡ records.now }
        ensures keeps { result.keeps ≡ false }
    {
        Lent {
            config,
            first,
            records,
            touched,
            windows,
            keeps: false,
        }
    }

    /// What is lent, to pieces that keep their views or that do not.
    pub fn keeping(self, keeps: bool) -> Lent<'a>
        ensures config { result.config.now ≡ self.entry.config.now }
        ensures first { result.first ≡ self.entry.first }
        ensures records { result.records.now ≡ self.entry.records.now }
        ensures keeps { result.keeps ≡ keeps }
    {
        let Lent {
            config,
            first,
            records,
            touched,
            windows,
            keeps: _,
        } = self;
        Lent {
            config,
            first,
            records,
            touched,
            windows,
            keeps,
        }
    }
}

/// The seat of a piece in a round: what is lent to the piece, and its number.
#[derive(Clone, Copy)]
pub(crate) struct Seat<'a> {
    pub lent: Lent<'a>,
    pub number: usize,
}

/// The outcome of a piece that judged the records of a round.
#[derive(Clone, Copy, Debug)]
pub struct PieceOutcome {
    /// Its refusal, if it rejected a record.
    pub found: Option<Refused>,
    /// The first view that breaks a rule, among the records that it judged up to the rejected one.
    pub breach: Option<Breach>,
}

/// Lets the piece of this number judge the records that touch it, up to the first that it rejects, which leaves the piece as it was
/// before that record. The view of each record that it judges is tested by the rules. Without rules no view is made.
///
/// Memory if the piece was refused memory.
pub fn go_over(
    lent: &Lent,
    rules: &[Rule],
    number: usize,
    piece: &mut Piece,
) -> Result<PieceOutcome, Memory>
    requires piece { number < length (pieces lent.now.config.now) }
    requires going { IsGoing lent.now.config.now number lent.now.first piece.old }
    requires placed { ArePlaced lent.now.first lent.now.records.now }
    requires cores { AreOfCores lent.now.config.now.cores lent.now.records.now }
    ensures outcome { IfOk result (λ outcome. IsJudgedOver lent.now.config.now number lent.now.first lent.now.records.now (relations_of rules.now) piece.old outcome piece.new) }
    ensures memory { OnErr result (IsTrue piece.new.exhausted) }
{
    let seat = Seat {
        lent: *lent,
        number,
    };
    let subject = subject_of(lent.config, number);
    let records = lent.records;
    let mut breach = None;
    for index in lent.touched.of(&subject) {
        match judge_one(&seat, rules, piece, index, &records[index], &mut breach) {
            Ok(None) => {}
            Ok(Some(refused)) => {
                return Ok(PieceOutcome {
                    found: Some(refused),
                    breach,
                });
            }
            Err(memory) => return Err(memory),
        }
    }
    Ok(PieceOutcome {
        found: None,
        breach,
    })
}

// Lets the piece of a seat judge a record that touches it. Returns its refusal if it rejects the record. Else the breach so far
// is kept, or that of the record's view. Memory if the piece was refused memory.
#[tactic(auto, using(crate::proofs::Untested::untested, crate::proofs::Untested::unruled))]
fn judge_one(
    seat: &Seat,
    rules: &[Rule],
    piece: &mut Piece,
    index: usize,
    ordered: &Ordered,
    breach: &mut Option<Breach>,
) -> Result<Option<Refused>, Memory>
    requires { MayStep seat.now.lent.config.now piece.old ordered.now }
    ensures judged { IfOk result (λ refused. HasJudged seat.now.lent.config.now seat.now.number ordered.now piece.old refused piece.new) }
    ensures tested { IfOk result (λ refused. HasTested (relations_of rules.now) (view_in piece.old.part ordered.now) index refused breach.old breach.new) }
    ensures of_module { IfOk result (λ _. IsOf seat.now.lent.config.now piece.new) }
    ensures whose { holder piece.new.part ≡ holder piece.old.part }
    ensures memory { OnErr result (IsTrue piece.new.exhausted) }
{
    if piece.pass_by(ordered) {
        return Ok(None);
    }
    if rules.is_empty() {
        return step_over(seat, piece, index, ordered);
    }
    judge_and_test(seat, rules, piece, index, ordered, breach)
}

// The same for a record that is not passed by, with the test of its view. It is a function of its own, so that no room is made for a view
// if there are no rules.
fn judge_and_test(
    seat: &Seat,
    rules: &[Rule],
    piece: &mut Piece,
    index: usize,
    ordered: &Ordered,
    breach: &mut Option<Breach>,
) -> Result<Option<Refused>, Memory>
    requires { MayStep seat.now.lent.config.now piece.old ordered.now }
    ensures judged { IfOk result (λ refused. HasJudged seat.now.lent.config.now seat.now.number ordered.now piece.old refused piece.new) }
    ensures tested { IfOk result (λ refused. HasTested (relations_of rules.now) (view_in piece.old.part ordered.now) index refused breach.old breach.new) }
    ensures of_module { IfOk result (λ _. IsOf seat.now.lent.config.now piece.new) }
    ensures whose { holder piece.new.part ≡ holder piece.old.part }
    ensures memory { OnErr result (IsTrue piece.new.exhausted) }
{
    let next = breach_of(rules, piece, index, ordered);
    match step_over(seat, piece, index, ordered) {
        Ok(None) => {
            keep_first(breach, next);
            Ok(None)
        }
        Ok(Some(refused)) => Ok(Some(refused)),
        Err(memory) => Err(memory),
    }
}

// Lets the piece of a seat make its step over a record that touches it. Returns its refusal if it rejects the record. Memory if the
// piece was refused memory.
pub(crate) fn step_over(
    seat: &Seat,
    piece: &mut Piece,
    index: usize,
    ordered: &Ordered,
) -> Result<Option<Refused>, Memory>
    requires { MayStep seat.now.lent.config.now piece.old ordered.now }
    ensures judged { IfOk result (λ refused. HasJudged seat.now.lent.config.now seat.now.number ordered.now piece.old refused piece.new) }
    ensures of_module { IfOk result (λ _. IsOf seat.now.lent.config.now piece.new) }
    ensures whose { holder piece.new.part ≡ holder piece.old.part }
    ensures memory { OnErr result (IsTrue piece.new.exhausted) }
{
    let lent = &seat.lent;
    let window = window_found(lent.config, lent.windows, index);
    match piece.step_at(lent.config, ordered, window) {
        Ok(()) => Ok(None),
        Err(fault) => refused(fault, seat.number),
    }
}

// The window that was looked up for the record with this index, if there is one.
fn window_found(config: &Config, windows: &[WindowAt], index: usize) -> Option<WindowAt>
    requires { All (IsWindowAt config.now) windows.now }
    ensures { IfSome result (IsWindowAt config.now) }
{
    let window = windows.get(index)?;
    Some(*window)
}

// The refusal of the piece of this number; a lack of memory is no refusal.
fn refused(fault: PieceFault, number: usize) -> Result<Option<Refused>, Memory>
    ensures judged { IfOk result (IsRefusal fault number) }
    ensures memory { OnErr result (fault ≡ PieceFault.Memory) }
{
    match refused_by(fault, number) {
        Some(found) => Ok(Some(found)),
        None => Err(Memory),
    }
}

// The breach of the piece's view of the record with this index, if there is a view and it breaks a rule.
fn breach_of(rules: &[Rule], piece: &Piece, index: usize, ordered: &Ordered) -> Option<Breach>
    requires { HoldsBefore ordered.now.pos piece.now.part }
    ensures { IsFirstBreach (relations_of rules.now) (seen_of (view_in piece.now.part ordered.now) index) result }
{
    let view = piece.view(ordered)?;
    let rule = first_rule_broken(rules, &view, &[])?;
    Some(Breach {
        seen: Seen { index, view },
        rule,
    })
}

// Keeps the next breach if there is none so far. If there is no next one, nothing is copied, as at each record without rules.
fn keep_first(breach: &mut Option<Breach>, next: Option<Breach>)
    ensures { breach.new ≡ first_some breach.old next }
{
    if breach.is_none() && next.is_some() {
        *breach = next;
    }
}
