// The figures of a run, record by record.

ghost use Rattle.std.specs.Prelude.{◌≡◌, ◌+◌, ◌++◌, [], List, OnOk};
ghost use Rattle.run_numbers.specs.Names.{name_in, name_noted};
ghost use Rattle.run_numbers.specs.Run.{ahead_of, is_return, left_by, may_use, names_of, observed_after, observed_before, observed_of, placed_after, records_of, tallies_of};
ghost use Rattle.run_numbers.specs.Tallies.{AreOf, Placed, capped};
ghost use Rattle.run_numbers.specs.declared.names.Named.{Named as Key};

use crate::channels::{observe_channel, observe_queue};
use crate::cores::observe_cores;
use crate::names::Names;
use crate::objects::observe_object;
use crate::observation::Observation;
use crate::partitions::observe_partition;
use crate::tallies::Tallies;
use apex_types::{Body, Ordered, Place};
use module_config::Config;
use piece_check::{Piece, Seen};
use std::alloc::{AllocError, Global};

/// The figures of the records of a run that were accepted.
#[derive(Drop)]
pub struct Numbers {
    records: u64,
    tallies: Tallies,
    names: Names,
    // What the next record gives, once it is accepted.
    ahead: Vec<Observation>,
}

impl Numbers {
    /// The figures before the first record. Takes no memory.
    pub fn new(alloc: Global) -> Numbers
        ensures tallies { AreOf [] (tallies_of result) }
        ensures records { records_of result ≡ 0 }
    {
        Numbers {
            records: 0,
            tallies: Tallies::new(alloc),
            names: Names::new(alloc),
            ahead: Vec::new(alloc),
        }
    }

    /// How many records were accepted.
    pub fn records(&self) -> u64
        ensures { result ≡ records_of self.now }
    {
        self.records
    }

    /// The tallies of all figures.
    pub fn tallies(&self) -> &Tallies
        ensures { result.now ≡ tallies_of self.now }
    {
        &self.tallies
    }

    /// The names of processes and objects.
    pub fn names(&self) -> &Names
        ensures { result.now ≡ names_of self.now }
    {
        &self.names
    }

    /// Looks at the pieces before the next record: what it gives, if it is accepted.
    ///
    /// `AllocError` if memory is refused.
    pub fn meet(
        &mut self,
        config: &Config,
        pieces: &[Piece],
        ordered: &Ordered,
    ) -> Result<(), AllocError>
        ensures ahead { OnOk result (ahead_of self.new ≡ observed_before config.now pieces.now ordered.now) }
        ensures tallies { tallies_of self.new ≡ tallies_of self.old }
        ensures names { names_of self.new ≡ names_of self.old }
        ensures records { records_of self.new ≡ records_of self.old }
    {
        self.ahead.clear();
        observe_met(&mut self.ahead, config, pieces, ordered)
    }

    /// Takes the record that was met, which is accepted; the pieces have taken it.
    ///
    /// `AllocError` if memory is refused.
    pub fn accept(&mut self, pieces: &[Piece], ordered: &Ordered) -> Result<(), AllocError>
        ensures records { OnOk result (records_of self.new ≡ capped (records_of self.old + 1)) }
        ensures names { OnOk result ((named : Key) → name_in (names_of self.new) named ≡ name_noted ordered.now.rec.body named (name_in (names_of self.old) named)) }
        ensures tallies { OnOk result ((run : List Placed) → AreOf run (tallies_of self.old) → AreOf (placed_after ordered.now.pos (ahead_of self.old ++ observed_after pieces.now ordered.now) run) (tallies_of self.new)) }
    {
        observe_left(&mut self.ahead, pieces, ordered)?;
        note_name(&mut self.names, &ordered.rec.body)?;
        take_all(&mut self.tallies, ordered.pos, &self.ahead)?;
        self.ahead.clear();
        self.records = self.records.saturating_add(1);
        Ok(())
    }
}

// Notes the name that an accepted record gives, if it gives one.
fn note_name(names: &mut Names, body: &Body) -> Result<(), AllocError>
    ensures { OnOk result ((named : Key) → name_in names.new named ≡ name_noted body.now named (name_in names.old named)) }
{
    match body {
        Body::Call(call) => names.note(call),
        _ => Ok(()),
    }
}

// Takes what the record at a place gives.
fn take_all(tallies: &mut Tallies, place: Place, observed: &[Observation]) -> Result<(), AllocError>
    ensures { OnOk result ((run : List Placed) → AreOf run tallies.old → AreOf (placed_after place observed.now run) tallies.new) }
{
    for observation in observed {
        tallies.take(place, observation)?;
    }
    Ok(())
}

// Adds what a record gives, by what the pieces hold before it.
fn observe_met(
    observed: &mut Vec<Observation>,
    config: &Config,
    pieces: &[Piece],
    ordered: &Ordered,
) -> Result<(), AllocError>
    ensures { OnOk result (observed.new.items ≡ observed.old.items ++ observed_before config.now pieces.now ordered.now) }
{
    if is_return(&ordered.rec.body) {
        return Ok(());
    }
    for piece in pieces {
        observe_before(observed, config, piece, ordered)?;
    }
    Ok(())
}

// Adds what a record gives, by what the pieces hold after it.
fn observe_left(
    observed: &mut Vec<Observation>,
    pieces: &[Piece],
    ordered: &Ordered,
) -> Result<(), AllocError>
    ensures { OnOk result (observed.new.items ≡ observed.old.items ++ observed_after pieces.now ordered.now) }
{
    // With many pieces, most of the time would go to those that most records do not use.
    if !may_use(&ordered.rec.body) {
        return Ok(());
    }
    for piece in pieces {
        observe_after(observed, piece, ordered)?;
    }
    Ok(())
}

// Whether a record is a return, which gives nothing by what is held before it.
fn is_return(body: &Body) -> bool
    ensures { result ≡ is_return body.now }
{
    matches!(body, Body::Ret(_))
}

// Whether a record may use an object or a channel.
fn may_use(body: &Body) -> bool
    ensures { result ≡ may_use body.now }
{
    match body {
        Body::Call(_) | Body::Arrive(_) | Body::Depart(_) => true,
        Body::Ret(_) | Body::Disp(_) | Body::Tick(_) | Body::Error(_) => false,
    }
}

// Adds what a record gives, by what a piece holds before it.
fn observe_before(
    observed: &mut Vec<Observation>,
    config: &Config,
    piece: &Piece,
    ordered: &Ordered,
) -> Result<(), AllocError>
    ensures { OnOk result (observed.new.items ≡ observed.old.items ++ observed_of config.now piece.now.part ordered.now) }
{
    match piece.seen() {
        Seen::Module { clock } => observe_cores(observed, config, clock, ordered),
        Seen::Partition {
            number,
            clock,
            state,
        } => observe_partition(observed, number, clock, state, ordered),
        Seen::Channel { times, channel } => observe_channel(observed, times, channel, ordered),
    }
}

// Adds what a record gives, by what a piece holds after it.
fn observe_after(
    observed: &mut Vec<Observation>,
    piece: &Piece,
    ordered: &Ordered,
) -> Result<(), AllocError>
    ensures { OnOk result (observed.new.items ≡ observed.old.items ++ left_by piece.now.part ordered.now) }
{
    match piece.seen() {
        Seen::Module { .. } => Ok(()),
        Seen::Partition { number, state, .. } => match &ordered.rec.body {
            Body::Call(call) => observe_object(observed, number, state, call),
            _ => Ok(()),
        },
        Seen::Channel { channel, .. } => observe_queue(observed, channel, ordered),
    }
}
