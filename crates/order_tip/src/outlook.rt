// What each core's next record is like, at the tip of a search.

ghost use Rattle.std.specs.Prelude.{◌≡◌, ◌<◌, IfOk, OnOk, length};
ghost use Rattle.order_run.specs.Left.{IsTaken};

use crate::known_answers::KnownAnswers;
use crate::undecided::Undecided;
use apex_types::limits::PLACE_COUNT;
use apex_types::{Body, Cause, Ordered, Place, Record};
use csv_rows::TextSource;
use module_config::Config;
use order_run::Lanes;
use order_search::{
    Answer, Checkpoint, Checkpoints, Pieces, Reach, Rejection, Rivals, Thing, TipState, blame,
    is_free, is_tick, reaches, rivals_of, touched,
};
use placement::PlacingFault;
use std::alloc::{AllocError, Global};

/// The recordings, the pieces at the tip, and what is known of each core's next record.
#[derive(Drop)]
pub struct Outlook<'a, R: TextSource> {
    alloc: Global,
    pub(crate) lanes: Lanes<R>,
    // How many records of each core were handed out.
    handed_out: Vec<u64>,
    state: TipState<'a>,
    known: KnownAnswers,
    reaches: Vec<Reach>,
    checkpoints: Checkpoints<'a>,
    // Why a recording could not be read on, if that was so.
    fault: Option<PlacingFault>,
}

impl<'a, R: TextSource + Drop> Outlook<'a, R> {
    /// The outlook before the first record.
    pub fn start(
        alloc: Global,
        config: &'a Config,
        lanes: Lanes<R>,
    ) -> Result<Outlook<'a, R>, AllocError>
        ensures { IfOk result (λ outlook. outlook.lanes ≡ lanes) }
    {
        let cores = lanes.count();
        Ok(Outlook {
            alloc,
            lanes,
            handed_out: vec![in alloc; 0u64; cores]?,
            state: TipState::start(alloc, config, cores)?,
            known: KnownAnswers::none(alloc, cores)?,
            reaches: reaches(alloc, config)?,
            checkpoints: Checkpoints::new(alloc),
            fault: None,
        })
    }

    /// How many cores there are.
    pub fn cores(&self) -> usize
        ensures { result ≡ length self.now.lanes }
    {
        self.lanes.count()
    }

    /// Why a call answered AllocError.
    pub fn fault(&self) -> PlacingFault {
        self.fault.unwrap_or(PlacingFault::Memory)
    }

    /// Hands out the next record of a core, or None if its recording has ended.
    pub fn hand_out(&mut self, core: usize) -> Result<Option<Record>, PlacingFault>
        requires { core < length self.old.lanes }
        ensures { IfOk result (λ made. IsTaken core self.old.lanes made self.new.lanes) }
    {
        let made = self.lanes.take(core)?;
        raise(&mut self.handed_out, core);
        Ok(made)
    }

    /// The pieces.
    pub fn pieces(&self) -> &Pieces<'a> {
        self.state.pieces()
    }

    /// A core's next record with the piece that rejects it, if one does.
    pub fn rejected(&self, core: usize) -> Option<(&Ordered, Rejection)> {
        let ordered = self.next_record(core)?;
        let rejection = self.pieces().rejection(ordered)?;
        Some((ordered, rejection))
    }

    // Which of a core's records that are ahead is its next one.
    fn index(&self, core: usize) -> usize {
        let taken = self.state.taken(core);
        let handed_out = self.handed_out.get(core).copied().unwrap_or(0);
        taken.saturating_sub(handed_out) as usize
    }

    // A core's next record, if it is read.
    fn next_record(&self, core: usize) -> Option<&Ordered> {
        self.lanes.get(core, self.index(core))
    }

    /// Reads a core's next record, and gives it this place. The answer is false if the recording has ended.
    pub fn look(&mut self, core: usize, place: u64) -> Result<bool, AllocError>
        ensures { OnOk result (self.new.lanes ≡ self.old.lanes) }
    {
        if core >= self.lanes.count() {
            return Ok(false);
        }
        let index = self.index(core);
        match self.lanes.reach(core, index) {
            Ok(is_ahead) => {
                self.set_place(core, place);
                Ok(is_ahead)
            }
            Err(fault) => {
                self.fault = Some(fault);
                Err(AllocError)
            }
        }
    }

    // Gives a core's next record this place, if there is such a place.
    fn set_place(&mut self, core: usize, place: u64)
        ensures { self.new.lanes ≡ self.old.lanes }
    {
        if core < self.lanes.count() && place < PLACE_COUNT {
            let index = self.index(core);
            self.lanes.set_place(core, index, Place::new(place));
        }
    }

    /// What the pieces say of a core's next record, at this place.
    pub fn judge(&mut self, core: usize, place: u64) -> Result<Answer, AllocError>
        ensures { OnOk result (self.new.lanes ≡ self.old.lanes) }
    {
        if let Some(answer) = self.known.get(core) {
            return Ok(answer);
        }
        let is_ahead = self.look(core, place)?;
        let answer = self.note(core, is_ahead);
        Ok(answer)
    }

    // Notes what the pieces say of a core's next record, which was read if there is one.
    fn note(&mut self, core: usize, is_ahead: bool) -> Answer
        ensures { self.new.lanes ≡ self.old.lanes }
    {
        let (answer, is_skewed) = self.answer(core, is_ahead);
        self.known.note(core, answer, is_skewed);
        answer
    }

    // What the pieces say of a core's next record, and whether one rejects it because of the skew.
    fn answer(&self, core: usize, is_ahead: bool) -> (Answer, bool) {
        if !is_ahead {
            return (Answer::Ended, false);
        }
        let Some(ordered) = self.next_record(core) else {
            return (Answer::Ended, false);
        };
        match self.pieces().rejection(ordered) {
            Some(rejection) => (Answer::Refused, rejection.cause == Cause::Skew),
            None => (self.accepted(core, &ordered.rec.body), false),
        }
    }

    // The answer for a record that the pieces accept.
    fn accepted(&self, core: usize, body: &Body) -> Answer {
        if is_free(&self.reaches, body) {
            return Answer::Free;
        }
        Answer::Shared {
            is_tick: is_tick(body),
            time: self.state.time(core),
        }
    }

    /// Takes a core's next record after those that are taken. The answer is false if a piece rejects it.
    pub fn take(&mut self, core: usize, undecided: &Undecided) -> Result<bool, AllocError>
        ensures { OnOk result (self.new.lanes ≡ self.old.lanes) }
    {
        let level = undecided.level();
        if !self.look(core, level)? {
            return Ok(false);
        }
        if !self.take_next(core)? {
            // Some pieces have taken it.
            self.back(undecided, level)?;
            return Ok(false);
        }
        Ok(true)
    }

    // Takes a core's next record. The answer is false if a piece rejects it: some pieces may have taken it then.
    fn take_next(&mut self, core: usize) -> Result<bool, AllocError>
        ensures { self.new.lanes ≡ self.old.lanes }
    {
        let index = self.index(core);
        let Some(ordered) = self.lanes.get(core, index) else {
            return Ok(false);
        };
        let is_tick = is_tick(&ordered.rec.body);
        let is_free = is_free(&self.reaches, &ordered.rec.body);
        if !self.state.take(core, ordered)? {
            return Ok(false);
        }
        self.known.forget(core, is_tick, is_free);
        Ok(true)
    }

    /// Keeps a checkpoint of this level, unless there is a recent one.
    pub fn keep_some(&mut self, level: u64, decided: u64) -> Result<(), AllocError>
        ensures { self.new.lanes ≡ self.old.lanes }
    {
        if self.checkpoints.is_due() {
            return self.keep(level, decided);
        }
        Ok(())
    }

    /// Keeps a checkpoint of this level.
    pub fn keep(&mut self, level: u64, decided: u64) -> Result<(), AllocError>
        ensures { self.new.lanes ≡ self.old.lanes }
    {
        let state = self.state.copy(self.alloc)?;
        self.checkpoints.keep(Checkpoint { level, state }, decided)
    }

    /// Goes back to this level by way of a checkpoint, and returns how many records were taken again.
    pub fn back(&mut self, undecided: &Undecided, level: u64) -> Result<u64, AllocError>
        ensures { OnOk result (self.new.lanes ≡ self.old.lanes) }
    {
        let from = self.restore(level)?;
        self.take_again(undecided, from, level)?;
        self.known.forget_all();
        Ok(level.saturating_sub(from))
    }

    // Takes the undecided records between two levels again.
    fn take_again(&mut self, undecided: &Undecided, from: u64, level: u64) -> Result<(), AllocError>
        ensures { OnOk result (self.new.lanes ≡ self.old.lanes) }
    {
        let first = from.saturating_sub(undecided.decided) as usize;
        let end = level.saturating_sub(undecided.decided) as usize;
        for index in first..end {
            let Some(core) = undecided.cores.get(index).copied() else {
                return Ok(());
            };
            self.set_place(core, undecided.decided.saturating_add(index as u64));
            let _ = self.take_next(core)?;
        }
        Ok(())
    }

    // Goes back to the last checkpoint of at most this level, and returns its level.
    fn restore(&mut self, level: u64) -> Result<u64, AllocError>
        ensures { self.new.lanes ≡ self.old.lanes }
    {
        self.checkpoints.forget_after(level);
        let Some(checkpoint) = self.checkpoints.last() else {
            return Err(AllocError);
        };
        let from = checkpoint.level;
        let state = checkpoint.state.copy(self.alloc)?;
        self.state = state;
        Ok(from)
    }

    /// Adds what a core's next record changes that records of other cores may see.
    pub fn touched(
        &mut self,
        core: usize,
        place: u64,
        things: &mut Vec<Thing>,
    ) -> Result<(), AllocError>
        ensures { OnOk result (self.new.lanes ≡ self.old.lanes) }
    {
        if !self.look(core, place)? {
            return Ok(());
        }
        match self.next_record(core) {
            Some(ordered) => touched(&ordered.rec.body, things),
            None => Ok(()),
        }
    }

    /// Adds what the pieces look at if one rejects a core's next record.
    pub fn blamed(
        &mut self,
        core: usize,
        place: u64,
        things: &mut Vec<Thing>,
    ) -> Result<(), AllocError>
        ensures { OnOk result (self.new.lanes ≡ self.old.lanes) }
    {
        if !self.look(core, place)? {
            return Ok(());
        }
        self.blame_next(core, things)
    }

    // Adds what the pieces look at if one rejects a core's next record, which is read.
    fn blame_next(&self, core: usize, things: &mut Vec<Thing>) -> Result<(), AllocError> {
        let Some(ordered) = self.next_record(core) else {
            return Ok(());
        };
        let Some(rejection) = self.pieces().rejection(ordered) else {
            return Ok(());
        };
        blame(
            self.pieces(),
            ordered,
            self.state.time(core),
            rejection,
            things,
        )
    }

    /// Names two records because of whose order a core's next record is rejected, if the pieces can tell.
    pub fn rivals(&mut self, core: usize, place: u64) -> Result<Option<Rivals>, AllocError>
        ensures { OnOk result (self.new.lanes ≡ self.old.lanes) }
    {
        if !self.look(core, place)? {
            return Ok(None);
        }
        let rivals = self.rivals_next(core);
        Ok(rivals)
    }

    // Names two records because of whose order a core's next record, which is read, is rejected, if the pieces can tell.
    fn rivals_next(&self, core: usize) -> Option<Rivals> {
        let ordered = self.next_record(core)?;
        let rejection = self.pieces().rejection(ordered)?;
        rivals_of(self.pieces(), ordered, rejection)
    }
}

// Adds one to the number of a core.
fn raise(numbers: &mut Vec<u64>, core: usize) {
    if core < numbers.len() {
        numbers[core] = numbers[core].saturating_add(1);
    }
}
