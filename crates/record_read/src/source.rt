// The records of a recording, one after another.

ghost use Rattle.std.specs.Prelude.{◌≡◌, ◌≢◌, ◌⊎◌, false, true, is_err, IfOk, IfErr, IfSome, Ok, Err, Some, None, is_none, option_map};
ghost use Rattle.csv_rows.specs.Source.{Gives};
ghost use Rattle.record_read.specs.Memory.{NextNeedsMemory};
ghost use Rattle.record_read.specs.Quiet.{quiet_tick};
ghost use Rattle.record_read.specs.Row.{records_of};
ghost use Rattle.record_read.specs.Steps.{IsOutside};

use crate::fault::RowFault;
use crate::format::format_by;
use crate::quiet::quiet_line;
use crate::row::read_record_explained;
use apex_types::limits::MOST_RECORDS;
use apex_types::{Body, Format, Record, Woken};
use csv_rows::{CsvRows, RowFields, StreamFault, TextSource};
use std::alloc::Global;
use std::marker::Model;

/// The records that the rows of a recording give, one for each call of `next`. The first row gives the recording's format.
#[derive(Drop)]
pub struct RowSource<R: TextSource> {
    rows: CsvRows<R>,
    fields: RowFields,
    // The format of the recording, once its first row has been read.
    format: Option<Format>,
    count: u32,
    stopped: bool,
    alloc: Global,
}

impl<R: TextSource> Model for RowSource<R> {
    ghost use Rattle.std.specs.Prelude.{◌≡◌, ◌&&◌, not, option_map, false};
    ghost use Rattle.csv_rows.specs.Source.{Source};
    ghost use Rattle.record_read.specs.Row.{Item, records_left};

    ghost Value = { Source Item };

    ghost view = { λ source. record {
      stopped = source.stopped;
      ended = source.rows.ended;
      failed = source.rows.failed;
      starved = source.rows.stopped && not source.rows.failed;
      left = option_map (records_left source.format source.count) source.rows.left;
    } };

    ghost invariant = { λ source. source.stopped ≡ false → source.rows.stopped ≡ false };
}

impl<R: TextSource> RowSource<R> {
    /// The recording whose text this source gives. Takes no memory.
    pub fn new(alloc: Global, source: R) -> RowSource<R>
        ensures stopped { result.stopped ≡ false }
        ensures ended { result.ended ≡ false }
        ensures failed { result.failed ≡ R.failed source }
        ensures starved { result.starved ≡ false }
        ensures left { result.left ≡ option_map records_of (R.remaining source) }
    {
        RowSource {
            rows: CsvRows::new(alloc, source),
            fields: RowFields::new(alloc),
            format: None,
            count: 0,
            stopped: false,
            alloc,
        }
    }

    /// Where the recording comes from.
    pub fn source(&self) -> &R
        ensures failed { R.failed result.now ≡ self.now.failed }
    {
        self.rows.source()
    }

    /// The next record, or None once the last has been given. After a fault every call answers Ended.
    ///
    /// Read if the source failed, and else the row's first fault. Memory if its rows stopped without a failed read, or for a sound row with
    /// a name, a message or a list of processes.
    pub fn next(&mut self) -> Result<Option<Record>, RowFault>
        ensures ended { self.old.stopped ≡ true → result ≡ Err RowFault.Ended }
        ensures fresh { self.old.stopped ≡ false → result ≢ Err RowFault.Ended }
        ensures stops { self.new.stopped ≡ is_err result }
        ensures ends { IfOk result (λ made. self.new.ended ≡ is_none made) }
        ensures stays { self.old.stopped ≡ false → self.old.ended ≡ true → result ≡ Ok None }
        ensures failed { self.old.stopped ≡ false → result ≡ Err RowFault.Read → self.new.failed ≡ true }
        ensures reported { self.old.stopped ≡ false → self.new.failed ≡ true → result ≡ Err RowFault.Read }
        ensures starved { self.old.stopped ≡ false → self.new.starved ≡ true → result ≡ Err RowFault.Memory }
        ensures memory { self.old.stopped ≡ false → result ≡ Err RowFault.Memory → (self.new.starved ≡ true) ⊎ IfSome self.old.left NextNeedsMemory }
        ensures gives { self.old.stopped ≡ false → IfSome self.old.left (λ items. Gives (IsOutside R.can_fail) items result self.new.left) }
    {
        if self.stopped {
            return Err(RowFault::Ended);
        }
        if let Some(seq) = self.take_tick() {
            let body = Body::Tick(Woken::none(self.alloc));
            return Ok(Some(Record { seq, body }));
        }
        self.stopped = true;
        match self.rows.read(&mut self.fields) {
            Ok(true) => {}
            Ok(false) => {
                self.stopped = false;
                return Ok(None);
            }
            Err(StreamFault::Read) => return Err(RowFault::Read),
            Err(StreamFault::Memory) => return Err(RowFault::Memory),
        }
        let format = format_by(self.format, &self.fields);
        self.format = Some(format);
        let made = match read_record_explained(self.alloc, format, self.count, &self.fields) {
            Ok(made) => made,
            Err(misread) => return Err(misread.fault),
        };
        self.count += 1;
        self.stopped = false;
        Ok(Some(made))
    }

    // The number of the next row, which is taken, if it is a tick that ends no wait and is taken straight from the bytes. None changes
    // nothing.
    fn take_tick(&mut self) -> Option<u32>
        requires going { self.old.stopped ≡ false }
        ensures gives { IfSome result (λ number. IfSome self.old.left (λ items. Gives (IsOutside R.can_fail) items (Ok (Some (quiet_tick number))) self.new.left)) }
        ensures other { result ≡ None → self.new ≡ self.old }
        ensures going { self.new.stopped ≡ false }
        ensures ended { self.new.ended ≡ self.old.ended }
        ensures failed { self.new.failed ≡ self.old.failed }
        ensures starved { self.new.starved ≡ false }
        ensures sound { self.old.failed ≡ true → result ≡ None }
        ensures stays { self.old.ended ≡ true → result ≡ None }
    {
        let format = self.format?;
        let number = self.count;
        if number >= MOST_RECORDS {
            return None;
        }
        if !self.rows.take_numbered(number, quiet_line(format)) {
            return None;
        }
        self.count += 1;
        Some(number)
    }
}
