// The placing of the records in the order of the certificate.

ghost use Rattle.std.specs.Prelude.{◌≡◌, ◌≢◌, ◌<◌, ◌≤◌, ◌+◌, ℕ, [], suc, Result, Option, Ok, IfSome, length, false, true};
ghost use Rattle.std.specs.Vec.{vec_len, vec_capacity};
ghost use Rattle.apex_types.specs.declared.limits.TheConstants.{MOST_CORES};
ghost use Rattle.apex_types.specs.declared.record.Ordered.{Ordered};
ghost use Rattle.apex_machine.specs.Runs.{ArePlaced, AreOfCores};
ghost use Rattle.core_intake.specs.Answered.{Answer, PutsIn};
ghost use Rattle.csv_rows.specs.Source.{Gives};
ghost use Rattle.order_cert.specs.Kept.{none_taken, place_of, taken_of};
ghost use Rattle.record_read.specs.Steps.{IsOutside};
ghost use Rattle.placement.specs.declared.fault.PlacingFault.{PlacingFault};
ghost use Rattle.placement.specs.Lanes.{AreHonest, IsEnded, IsFilled, IsNext, IsPlacedAt, OnEnd, Puts, left_at};
ghost use Rattle.placement.specs.Scan as scan;

use crate::fault::{InputFault, PlacingFault};
use apex_types::{CoreId, Ordered, Place, Record};
use core_intake::Intake;
use csv_rows::TextSource;
use order_cert::{CertFault, CertSource, Keeper, OrderFault};
use record_read::RowFault;
use std::marker::Model;
use std::sync::Wait;
use std::thread::Threads;

/// How a round of records was filled.
#[derive(Clone, Copy, Debug, Drop, PartialEq, Eq)]
pub enum Filled {
    /// The round is full, and more may be ahead.
    Full,
    /// The input ended after the records of the round, without a fault or with this one.
    Ended(Result<(), InputFault>),
    /// Memory was refused.
    Memory,
}

/// The records of all cores, one by one in the order of the certificate.
///
/// It can be given up only by `close`, like the intake that gives it the records.
pub struct Placer<R: TextSource, C: TextSource> {
    intake: Intake<R>,
    pairs: CertSource<C>,
    keeper: Keeper,
    ended: bool,
}

impl<R: TextSource, C: TextSource> Model for Placer<R, C> {
    ghost use Rattle.std.specs.Prelude.{◌≡◌, ◌≤◌, length, false};
    ghost use Rattle.apex_types.specs.declared.limits.TheConstants.{MOST_CORES};
    ghost use Rattle.placement.specs.Lanes.{Placing};

    ghost Value = { Placing };

    ghost view = { λ placer. record {
      lanes = placer.intake;
      pairs = placer.pairs.left;
      kept = placer.keeper;
      ended = placer.ended;
    } };

    ghost invariant = { λ placer. (placer.keeper.cores ≡ length placer.intake) × (length placer.intake ≤ MOST_CORES) × (placer.ended ≡ false → placer.pairs.stopped ≡ false) };
}

impl<R: TextSource, C: TextSource> Placer<R, C> {
    /// A placer before the first pair of the certificate. Takes no memory.
    pub fn new(intake: Intake<R>, pairs: CertSource<C>) -> Placer<R, C>
        requires some { 1 ≤ length intake }
        requires few { length intake ≤ MOST_CORES }
        requires fresh { pairs.stopped ≡ false }
        ensures lanes { result.lanes ≡ intake }
        ensures pairs { result.pairs ≡ pairs.left }
        ensures taken { taken_of result.kept ≡ none_taken }
        ensures place { place_of result.kept ≡ 0 }
        ensures going { result.ended ≡ false }
    {
        let keeper = Keeper::new(intake.count() as u8);
        Placer {
            intake,
            pairs,
            keeper,
            ended: false,
        }
    }

    /// Puts the next record, at its place, at the end of a list that has room for it, and answers true; or answers false if the input ends
    /// without a fault. Waits for the core's thread. After false or a fault there is no further call.
    ///
    /// Memory if memory was refused, and else the fault that ends the input. Then, as at the end, the list stays as it is.
    pub fn next_into<T: Wait>(
        &mut self,
        rt: &T,
        records: &mut Vec<Ordered>,
    ) -> Result<bool, PlacingFault>
        requires going { self.old.ended ≡ false }
        requires room { vec_len records.old < vec_capacity records.old }
        ensures puts { (next : Result (Option Ordered) PlacingFault) × Puts next records.old.items result records.new.items × IsPlacedAt (place_of self.old.kept) (length self.old.lanes) next × (AreHonest R.can_fail self.new.lanes → IsNext (record { recordings = R.can_fail; certificate = C.can_fail }) self.old next self.new) }
        ensures stays { result ≢ Ok true → records.new.items ≡ records.old.items }
        ensures honest { AreHonest R.can_fail self.new.lanes → AreHonest R.can_fail self.old.lanes }
        ensures going { result ≡ Ok true → self.new.ended ≡ false }
        ensures place { result ≡ Ok true → place_of self.new.kept ≡ suc (place_of self.old.kept) }
        ensures lanes { length self.new.lanes ≡ length self.old.lanes }
    {
        self.ended = true;
        let place = self.keeper.place();
        let pair = match self.pairs.next() {
            Ok(Some(pair)) => pair,
            Ok(None) => {
                finish(rt, &mut self.intake, &self.keeper, place)?;
                return Ok(false);
            }
            Err(fault) => return Err(cert_fault(place, fault)),
        };
        let pos = match self.keeper.take(pair.core, pair.seq) {
            Ok(pos) => pos,
            Err(fault) => return Err(order_fault(place, pair.core, fault)),
        };
        let core = CoreId::new(pair.core as u8);
        match next_of_into(rt, &mut self.intake, core, pos, records) {
            Ok(true) => {
                self.ended = false;
                Ok(true)
            }
            Ok(false) => Err(order_fault(place, pair.core, OrderFault::Absent)),
            Err(fault) => Err(row_fault(pair.core, pair.seq, fault)),
        }
    }

    /// Fills a round with the next records, up to this many of them.
    pub fn fill<T: Wait>(&mut self, rt: &T, round: &mut Vec<Ordered>, size: usize) -> Filled
        requires going { self.old.ended ≡ false }
        requires empty { round.old.items ≡ [] }
        ensures filled { AreHonest R.can_fail self.new.lanes → IsFilled (record { recordings = R.can_fail; certificate = C.can_fail }) self.old round.new.items result self.new }
        ensures honest { AreHonest R.can_fail self.new.lanes → AreHonest R.can_fail self.old.lanes }
        ensures placed { ArePlaced (place_of self.old.kept) round.new.items }
        ensures cores { AreOfCores (length self.old.lanes) round.new.items }
        ensures few { length round.new.items ≤ size }
        ensures whole { result ≡ Filled.Full → length round.new.items ≡ size }
        ensures going { result ≡ Filled.Full → self.new.ended ≡ false }
        ensures place { result ≡ Filled.Full → place_of self.new.kept ≡ place_of self.old.kept + length round.new.items }
        ensures lanes { length self.new.lanes ≡ length self.old.lanes }
    {
        'records: while round.len() < size {
            if round.try_reserve(1).is_err() {
                return Filled::Memory;
            }
            match self.next_into(rt, round) {
                Ok(true) => {}
                Ok(false) => return Filled::Ended(Ok(())),
                Err(PlacingFault::Input(fault)) => return Filled::Ended(Err(fault)),
                Err(PlacingFault::Memory) => return Filled::Memory,
            }
        }
        Filled::Full
    }
}

impl<R: TextSource, C: TextSource + Drop> Placer<R, C> {
    /// Stops the threads that read the recordings, and joins them. A thread ends once its present read returns.
    pub fn close<T: Threads + Wait>(self, rt: &T)
        ensures honest { AreHonest R.can_fail self.lanes }
    {
        let Placer {
            intake,
            pairs: _,
            keeper: _,
            ended: _,
        } = self;
        intake.close(rt);
    }
}

// A fault of the certificate's row for a place, as the placer reports it.
fn cert_fault(place: u64, fault: CertFault) -> PlacingFault
    ensures { result ≡ scan.cert_fault place fault }
{
    match fault {
        CertFault::Memory => PlacingFault::Memory,
        _ => PlacingFault::Input(InputFault::Cert { place, fault }),
    }
}

// A fault of the order at a place, of this core, as the placer reports it.
fn order_fault(place: u64, core: u32, fault: OrderFault) -> PlacingFault
    ensures { result ≡ PlacingFault.Input (InputFault.Order place core fault) }
{
    PlacingFault::Input(InputFault::Order { place, core, fault })
}

// A fault of a core's recording after this many records, as the placer reports it.
fn row_fault(core: u32, seq: u64, fault: RowFault) -> PlacingFault
    ensures { result ≡ scan.row_fault core seq fault }
{
    match fault {
        RowFault::Memory => PlacingFault::Memory,
        _ => PlacingFault::Input(InputFault::Row { core, seq, fault }),
    }
}

// The next record of a core, by what is left of its recording before and after it.
fn next_of<R: TextSource, T: Wait>(
    rt: &T,
    intake: &mut Intake<R>,
    core: usize,
) -> Result<Option<Record>, RowFault>
    requires { core < length intake.old }
    ensures gives { AreHonest R.can_fail intake.new → IfSome (left_at intake.old core) (λ items. Gives (IsOutside R.can_fail) items result (left_at intake.new core)) }
    ensures honest { AreHonest R.can_fail intake.new → AreHonest R.can_fail intake.old }
    ensures others { (other : ℕ) → other ≢ core → left_at intake.new other ≡ left_at intake.old other }
    ensures count { length intake.new ≡ length intake.old }
{
    intake.next_of(rt, core)
}

// The same, but a record goes to the end of a list, which has room for it: as the record of this core at this place.
fn next_of_into<R: TextSource, T: Wait>(
    rt: &T,
    intake: &mut Intake<R>,
    core: CoreId,
    place: Place,
    records: &mut Vec<Ordered>,
) -> Result<bool, RowFault>
    requires core { core < length intake.old }
    requires room { vec_len records.old < vec_capacity records.old }
    ensures puts { (answer : Answer) × PutsIn core place answer records.old.items result records.new.items × (AreHonest R.can_fail intake.new → IfSome (left_at intake.old core) (λ items. Gives (IsOutside R.can_fail) items answer (left_at intake.new core))) }
    ensures honest { AreHonest R.can_fail intake.new → AreHonest R.can_fail intake.old }
    ensures others { (other : ℕ) → other ≢ core → left_at intake.new other ≡ left_at intake.old other }
    ensures count { length intake.new ≡ length intake.old }
{
    intake.next_into(rt, core, place, records)
}

// Whether each recording has ended after the last pair. The least core that has not ended decides.
fn finish<R: TextSource, T: Wait>(
    rt: &T,
    intake: &mut Intake<R>,
    keeper: &Keeper,
    place: u64,
) -> Result<(), PlacingFault>
    requires { length intake.old ≤ MOST_CORES }
    ensures ended { AreHonest R.can_fail intake.new → OnEnd (IsEnded R.can_fail intake.old place (taken_of keeper.now)) result }
    ensures honest { AreHonest R.can_fail intake.new → AreHonest R.can_fail intake.old }
    ensures count { length intake.new ≡ length intake.old }
{
    'cores: for core in 0..intake.count() {
        match next_of(rt, intake, core) {
            Ok(None) => {}
            Ok(Some(_)) => return Err(order_fault(place, core as u32, OrderFault::Missing)),
            Err(fault) => return Err(row_fault(core as u32, keeper.taken(core as u32), fault)),
        }
    }
    Ok(())
}
