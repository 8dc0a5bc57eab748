// The pairs of a certificate, one after another.

ghost use Rattle.std.specs.Prelude.{◌≡◌, ◌≢◌, ◌↔◌, false, true, is_err, IfOk, IfErr, IfSome, Ok, Err, Some, None, is_none, option_map};
ghost use Rattle.csv_rows.specs.Source.{Gives};
ghost use Rattle.order_cert.specs.Row.{IsOutside, pairs_of};

use crate::fault::CertFault;
use crate::pair::{pair_read, read_item};
use apex_types::Pair;
use apex_types::limits::PLACE_COUNT;
use csv_rows::{CsvRows, RowFields, StreamFault, TextSource};
use std::alloc::Global;
use std::marker::Model;

/// The pairs that the rows of a certificate give, one for each call of `next`.
#[derive(Drop)]
pub struct CertSource<R: TextSource> {
    rows: CsvRows<R>,
    fields: RowFields,
    count: u64,
    stopped: bool,
}

impl<R: TextSource> Model for CertSource<R> {
    ghost use Rattle.std.specs.Prelude.{◌≡◌, ◌&&◌, not, option_map, false};
    ghost use Rattle.csv_rows.specs.Source.{Source, items_from};
    ghost use Rattle.order_cert.specs.Row.{Item, item_of};

    ghost Value = { Source Item };

    ghost view = { λ source. record {
      stopped = source.stopped;
      ended = source.rows.ended;
      failed = source.rows.failed;
      starved = source.rows.stopped && not source.rows.failed;
      left = option_map (items_from item_of source.count) source.rows.left;
    } };

    ghost invariant = { λ source. source.stopped ≡ false → source.rows.stopped ≡ false };
}

impl<R: TextSource> CertSource<R> {
    /// The certificate whose text this source gives. Takes no memory.
    pub fn new(alloc: Global, source: R) -> CertSource<R>
        ensures stopped { result.stopped ≡ false }
        ensures ended { result.ended ≡ false }
        ensures failed { result.failed ≡ R.failed source }
        ensures starved { result.starved ≡ false }
        ensures left { result.left ≡ option_map pairs_of (R.remaining source) }
    {
        CertSource {
            rows: CsvRows::new(alloc, source),
            fields: RowFields::new(alloc),
            count: 0,
            stopped: false,
        }
    }

    /// The next pair, or None once the last has been given. After a fault every call answers Ended.
    ///
    /// Read if the source failed, Memory if its rows stopped without a failed read; else the row's own fault.
    pub fn next(&mut self) -> Result<Option<Pair>, CertFault>
        ensures ended { self.old.stopped ≡ true → result ≡ Err CertFault.Ended }
        ensures fresh { self.old.stopped ≡ false → result ≢ Err CertFault.Ended }
        ensures stops { self.new.stopped ≡ is_err result }
        ensures ends { IfOk result (λ pair. self.new.ended ≡ is_none pair) }
        ensures stays { self.old.stopped ≡ false → self.old.ended ≡ true → result ≡ Ok None }
        ensures failed { self.old.stopped ≡ false → result ≡ Err CertFault.Read → self.new.failed ≡ true }
        ensures reported { self.old.stopped ≡ false → self.new.failed ≡ true → result ≡ Err CertFault.Read }
        ensures starved { self.old.stopped ≡ false → (result ≡ Err CertFault.Memory) ↔ (self.new.starved ≡ true) }
        ensures gives { self.old.stopped ≡ false → IfSome self.old.left (λ items. Gives (IsOutside R.can_fail) items result self.new.left) }
    {
        if self.stopped {
            return Err(CertFault::Ended);
        }
        if let Some(pair) = self.take_pair() {
            return Ok(Some(pair));
        }
        self.stopped = true;
        match self.rows.read(&mut self.fields) {
            Ok(true) => {}
            Ok(false) => {
                self.stopped = false;
                return Ok(None);
            }
            Err(StreamFault::Read) => return Err(CertFault::Read),
            Err(StreamFault::Memory) => return Err(CertFault::Memory),
        }
        let pair = read_item(self.count, &self.fields)?;
        self.count += 1;
        self.stopped = false;
        Ok(Some(pair))
    }

    // The next pair, which is taken, if its row is one of those that are taken straight from the bytes. None changes nothing.
    fn take_pair(&mut self) -> Option<Pair>
        requires going { self.old.stopped ≡ false }
        ensures gives { IfSome result (λ pair. IfSome self.old.left (λ items. Gives (IsOutside R.can_fail) items (Ok (Some pair)) self.new.left)) }
        ensures other { result ≡ None → self.new ≡ self.old }
        ensures going { self.new.stopped ≡ false }
        ensures ended { self.new.ended ≡ self.old.ended }
        ensures failed { self.new.failed ≡ self.old.failed }
        ensures starved { self.new.starved ≡ false }
        ensures sound { self.old.failed ≡ true → result ≡ None }
        ensures stays { self.old.ended ≡ true → result ≡ None }
    {
        if self.count >= PLACE_COUNT {
            return None;
        }
        let (core, seq) = self.rows.take_pair()?;
        self.count += 1;
        Some(pair_read(core, seq))
    }
}
