// The rows of a text, as raw fields.

ghost use Rattle.std.specs.Prelude.{◌≡◌, All, None, false, true, not, is_err, IfOk, IfSome, Ok, Err, option_map};
ghost use Rattle.csv_rows.specs.Line.{IsPlain};
ghost use Rattle.csv_rows.specs.Numbered.{IsNumbered, IsPair, TakesKnown};
ghost use Rattle.csv_rows.specs.Stream.{Takes, rows_of};

use crate::ahead::Ahead;
use crate::fields::RowFields;
use crate::text::{Text, place_in, source_in, take_row};
use crate::text_source::TextSource;
use std::alloc::Global;
use std::marker::Model;

/// Why no row was given, for reasons outside the text.
#[derive(Clone, Copy, Debug, PartialEq, Eq)]
pub enum StreamFault {
    /// The source of the text has failed.
    Read,
    /// Memory was refused.
    Memory,
}

/// The rows of a text, one for each call of `read`. Fields are separated by commas and may be in double quotes. A row may have any number
/// of fields, there is no header, and nothing is trimmed.
#[derive(Drop)]
pub struct CsvRows<R: TextSource> {
    alloc: Global,
    text: Text<R>,
    // Whether a row has been requested. A source that failed before that stops these rows at the first call, which reports it.
    begun: bool,
    ended: bool,
    // Whether memory was refused.
    starved: bool,
}

impl<R: TextSource> Model for CsvRows<R> {
    ghost use Rattle.std.specs.Prelude.{◌≡◌, ◌&&◌, ◌||◌, if◌then◌else◌, Some, [], false, true};
    ghost use Rattle.csv_rows.specs.Stream.{Stream};
    ghost use Rattle.csv_rows.specs.Text.{IsReady, failed_in, left_in};

    ghost Value = { Stream };

    ghost view = { λ rows. record {
      stopped = rows.starved || rows.begun && failed_in R.failed rows.text;
      ended = rows.ended;
      failed = failed_in R.failed rows.text;
      left = if rows.ended then Some [] else left_in R.remaining rows.text;
    } };

    ghost invariant = { λ rows. (rows.starved || rows.begun && failed_in R.failed rows.text) ≡ false → (rows.ended ≡ false → IsReady rows.text) × (rows.ended ≡ true → failed_in R.failed rows.text ≡ false) };
}

impl<R: TextSource> CsvRows<R> {
    /// The rows of the text of this source. Takes no memory.
    #[tactic(auto, using(crate::proofs::Texts::new_rows))]
    pub fn new(alloc: Global, source: R) -> CsvRows<R>
        ensures stopped { result.stopped ≡ false }
        ensures ended { result.ended ≡ false }
        ensures failed { result.failed ≡ R.failed source }
        ensures left { result.left ≡ option_map rows_of (R.remaining source) }
    {
        CsvRows {
            alloc,
            text: Text::Lines(Ahead {
                source,
                bytes: Vec::new(alloc),
                at: 0,
                forgotten: 0,
                is_begun: false,
            }),
            begun: false,
            ended: false,
            starved: false,
        }
    }

    /// Where the text comes from.
    pub fn source(&self) -> &R
        ensures failed { R.failed result.now ≡ self.now.failed }
    {
        source_in(&self.text)
    }

    /// How many bytes of the text the rows so far have taken: the last row ends there, and the next one begins after the line ends that
    /// follow. No clause says so, since `csv` promises nothing about the count that it keeps; tests show it.
    pub fn place(&self) -> u64 {
        place_in(&self.text)
    }

    /// Puts the next row into `fields`, and answers whether there was one. Once the end has been reported, it is reported again.
    ///
    /// Read if the source failed, in this call or before the first one; else Memory if memory was refused. Either stops these rows for
    /// good.
    pub fn read(&mut self, fields: &mut RowFields) -> Result<bool, StreamFault>
        requires going { self.old.stopped ≡ false }
        ensures stops { self.new.stopped ≡ is_err result }
        ensures ends { IfOk result (λ found. self.new.ended ≡ not found) }
        ensures stays { self.old.ended ≡ true → result ≡ Ok false }
        ensures sound { self.old.failed ≡ true → result ≡ Err StreamFault.Read }
        ensures failed { result ≡ Err StreamFault.Read → self.new.failed ≡ true }
        ensures reported { self.new.failed ≡ true → result ≡ Err StreamFault.Read }
        ensures can_fail { result ≡ Err StreamFault.Read → R.can_fail ≡ true }
        ensures gives { IfOk result (λ found. IfSome self.old.left (λ rows. Takes found rows fields.new self.new.left)) }
    {
        if self.ended {
            return Ok(false);
        }
        self.begun = true;
        if self.source().has_failed() {
            return Err(StreamFault::Read);
        }
        match take_row(self.alloc, &mut self.text, fields) {
            Ok(found) => {
                self.ended = !found;
                Ok(found)
            }
            Err(fault) => {
                self.starved = fault == StreamFault::Memory;
                Err(fault)
            }
        }
    }

    /// The two numbers of the next row, which is taken, if it is such a row and its whole line has been read ahead.
    ///
    /// None says nothing of the row, takes nothing and changes nothing: `read` gives the row. So it is for the first row, for a line that has
    /// not been read ahead up to its line feed, for numbers of more than nine digits, and once `csv` reads the text.
    pub fn take_pair(&mut self) -> Option<(u32, u32)>
        requires going { self.old.stopped ≡ false }
        ensures takes { IfSome result (λ pair. TakesKnown (IsPair pair) self.old.left self.new.left) }
        ensures other { result ≡ None → self.new ≡ self.old }
        ensures going { self.new.stopped ≡ false }
        ensures ended { self.new.ended ≡ self.old.ended }
        ensures failed { self.new.failed ≡ self.old.failed }
        ensures sound { self.old.failed ≡ true → result ≡ None }
        ensures stays { self.old.ended ≡ true → result ≡ None }
    {
        if !self.begun || self.ended {
            return None;
        }
        match &mut self.text {
            Text::Lines(ahead) => ahead.take_pair(),
            Text::Records(_) => None,
        }
    }

    /// Takes the next row if it is this number and, after a comma, this line, and its whole line has been read ahead. Answers whether it was
    /// taken.
    ///
    /// False says nothing of the row, takes nothing and changes nothing, as for `take_pair`.
    pub fn take_numbered(&mut self, number: u32, line: &[u8]) -> bool
        requires going { self.old.stopped ≡ false }
        requires plain { All IsPlain line.now }
        ensures takes { result ≡ true → TakesKnown (IsNumbered number line.now) self.old.left self.new.left }
        ensures other { result ≡ false → self.new ≡ self.old }
        ensures going { self.new.stopped ≡ false }
        ensures ended { self.new.ended ≡ self.old.ended }
        ensures failed { self.new.failed ≡ self.old.failed }
        ensures sound { self.old.failed ≡ true → result ≡ false }
        ensures stays { self.old.ended ≡ true → result ≡ false }
    {
        if !self.begun || self.ended {
            return false;
        }
        match &mut self.text {
            Text::Lines(ahead) => ahead.take_numbered(number, line),
            Text::Records(_) => false,
        }
    }
}
