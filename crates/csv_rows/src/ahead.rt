// A text some bytes of which are read ahead, and the plain lines at its front.

ghost use Rattle.std.specs.Prelude.{◌≡◌, ◌<◌, ◌≤◌, All, IfOk, IfSome, None, OnOk, false, true, drop, length, take};
ghost use Rattle.std.specs.Io.KnownBytes.{IsAtEnd, Keeps};
ghost use Rattle.csv_rows.specs.Front.{HasFields, IsLine};
ghost use Rattle.csv_rows.specs.Line.{IsPlain, split};
ghost use Rattle.csv_rows.specs.Numbered.{IsNumbered, IsPair, TakesKnown};
ghost use Rattle.csv_rows.specs.Text.{IsFrontOf, ReportsFailure, TakesLine, mark_length as mark_length_of, rows_left, text_of, unread_of};

use crate::fields::RowFields;
use crate::front::{Front, Line};
use crate::numbered::{numbered_at, pair_at};
use crate::stream::StreamFault;
use crate::text_source::TextSource;

// How many bytes are read at once.
const PIECE: usize = 8192;

// A line with this many bytes is left to `csv`.
const LONGEST: usize = 65536;

/// A text, some bytes of which have been read ahead.
#[derive(Drop)]
pub struct Ahead<R> {
    pub source: R,
    /// The bytes that were read ahead, and how many of them were taken.
    pub bytes: Vec<u8>,
    pub at: usize,
    /// How many bytes were taken before those, and forgotten.
    pub forgotten: u64,
    /// Whether a byte order mark was looked for.
    pub is_begun: bool,
}

/// What was taken of a text.
#[derive(Clone, Copy)]
pub enum Taken {
    /// A row.
    Row,
    /// Nothing: no row is left.
    End,
    /// Nothing: the next line that is not empty is not plain.
    Other,
}

impl<R: TextSource> Ahead<R> {
    /// How many bytes of the text were taken.
    pub fn place(&self) -> u64 {
        self.forgotten.saturating_add(self.at as u64)
    }

    // The bytes that were read ahead and not taken.
    fn unread(&self) -> &[u8]
        ensures { result.now ≡ drop self.now.at self.now.bytes.items }
    {
        &self.bytes[self.at.min(self.bytes.len())..]
    }

    // Forgets the bytes that have been taken.
    fn forget_taken(&mut self)
        ensures at { self.new.at ≡ 0 }
        ensures bytes { self.new.bytes.items ≡ drop self.old.at self.old.bytes.items }
        ensures source { self.new.source ≡ self.old.source }
        ensures begun { self.new.is_begun ≡ self.old.is_begun }
    {
        let len = self.bytes.len();
        let at = self.at.min(len);
        self.bytes.copy_within(at..len, 0);
        self.bytes.truncate(len - at);
        self.forgotten = self.forgotten.saturating_add(at as u64);
        self.at = 0;
    }

    // Reads on, and answers whether there were more bytes: there are none only at the end of the text.
    fn fill(&mut self) -> Result<bool, StreamFault>
        ensures keeps { OnOk result (Keeps (unread_of R.remaining self.old) (unread_of R.remaining self.new)) }
        ensures same { IfOk result (λ more. more ≡ false → drop self.new.at self.new.bytes.items ≡ drop self.old.at self.old.bytes.items) }
        ensures at_end { IfOk result (λ more. more ≡ false → IsAtEnd (R.remaining self.new.source)) }
        ensures begun { self.new.is_begun ≡ self.old.is_begun }
        ensures reports { ReportsFailure (R.failed self.old.source) (R.failed self.new.source) result }
    {
        self.forget_taken();
        let mut piece = [0; PIECE];
        let Ok(count) = self.source.read_some(&mut piece) else {
            return Err(StreamFault::Read);
        };
        match self.bytes.extend_from_slice(&piece[..count]) {
            Ok(()) => Ok(count > 0),
            Err(_) => Err(StreamFault::Memory),
        }
    }

    // What the front of the text is, with its fields if it is a plain line. The text is read on as far as this needs.
    #[tactic(auto, using(crate::proofs::Bytes::keeps_same, crate::proofs::Bytes::keeps_through))]
    fn front(&mut self, fields: &mut RowFields) -> Result<Front, StreamFault>
        ensures keeps { OnOk result (Keeps (unread_of R.remaining self.old) (unread_of R.remaining self.new)) }
        ensures front { IfOk result (λ front. IsFrontOf R.remaining self.new front) }
        ensures fields { IfOk result (λ front. HasFields (drop self.new.at self.new.bytes.items) front fields.new) }
        ensures begun { self.new.is_begun ≡ self.old.is_begun }
        ensures reports { ReportsFailure (R.failed self.old.source) (R.failed self.new.source) result }
    {
        for _ in 0..u64::MAX {
            let Ok(front) = fields.take_front(self.unread()) else {
                return Err(StreamFault::Memory);
            };
            if let Front::Line(_) | Front::Other = front {
                return Ok(front);
            }
            if self.unread().len() >= LONGEST {
                return Ok(Front::Other);
            }
            if !self.fill()? {
                return Ok(front);
            }
        }
        Err(StreamFault::Memory)
    }

    /// Takes the next row into `fields`, if it is a plain line.
    pub fn take_line(&mut self, fields: &mut RowFields) -> Result<Taken, StreamFault>
        ensures takes { IfOk result (λ taken. TakesLine (rows_left (text_of R.remaining self.old)) taken fields.new (rows_left (text_of R.remaining self.new))) }
        ensures begun { OnOk result (self.new.is_begun ≡ true) }
        ensures reports { ReportsFailure (R.failed self.old.source) (R.failed self.new.source) result }
    {
        self.begin(fields)?;
        self.take_next(fields)
    }

    // Takes a byte order mark off the front of a text that has not been begun.
    #[tactic(auto, using(crate::proofs::Texts::strip_stays))]
    fn begin(&mut self, fields: &mut RowFields) -> Result<(), StreamFault>
        ensures keeps { OnOk result (Keeps (text_of R.remaining self.old) (unread_of R.remaining self.new)) }
        ensures begun { OnOk result (self.new.is_begun ≡ true) }
        ensures reports { ReportsFailure (R.failed self.old.source) (R.failed self.new.source) result }
    {
        if self.is_begun {
            return Ok(());
        }
        self.front(fields)?;
        self.at += mark_length(self.unread());
        self.is_begun = true;
        Ok(())
    }

    // The same for a text that has been begun.
    #[tactic(auto, using(crate::proofs::Texts::keeps_rows_same, crate::proofs::Texts::keeps_rows_through, crate::proofs::Texts::rows_stay, crate::proofs::Texts::takes_after))]
    fn take_next(&mut self, fields: &mut RowFields) -> Result<Taken, StreamFault>
        ensures takes { IfOk result (λ taken. TakesLine (rows_left (unread_of R.remaining self.old)) taken fields.new (rows_left (unread_of R.remaining self.new))) }
        ensures begun { self.new.is_begun ≡ self.old.is_begun }
        ensures reports { ReportsFailure (R.failed self.old.source) (R.failed self.new.source) result }
    {
        for _ in 0..u64::MAX {
            match self.front(fields)? {
                Front::Line(line) => {
                    if line.length > 0 {
                        return Ok(self.take_first(line, fields));
                    }
                    self.at += line.taken;
                }
                Front::Open => return Ok(self.take_last(fields)),
                Front::Return | Front::Other => return Ok(Taken::Other),
            }
        }
        Err(StreamFault::Memory)
    }

    // Takes the plain line at the front of the text, whose fields these are.
    #[tactic(auto, using(crate::proofs::Texts::line_takes))]
    fn take_first(&mut self, line: Line, fields: &RowFields) -> Taken
        requires line { IsLine (drop self.old.at self.old.bytes.items) line.length line.taken }
        requires filled { 0 < line.length }
        requires fields { fields.now ≡ split (take line.length (drop self.old.at self.old.bytes.items)) }
        ensures takes { TakesLine (rows_left (unread_of R.remaining self.old)) result fields.now (rows_left (unread_of R.remaining self.new)) }
        ensures begun { self.new.is_begun ≡ self.old.is_begun }
        ensures source { self.new.source ≡ self.old.source }
    {
        self.at += line.taken;
        Taken::Row
    }

    // Takes the last line, which has no end and may be empty. These are its fields.
    #[tactic(auto, using(crate::proofs::Texts::last_takes, crate::proofs::Texts::none_takes))]
    fn take_last(&mut self, fields: &RowFields) -> Taken
        requires last { IsFrontOf R.remaining self.old Front.Open }
        requires fields { fields.now ≡ split (drop self.old.at self.old.bytes.items) }
        ensures takes { TakesLine (rows_left (unread_of R.remaining self.old)) result fields.now (rows_left (unread_of R.remaining self.new)) }
        ensures begun { self.new.is_begun ≡ self.old.is_begun }
        ensures source { self.new.source ≡ self.old.source }
    {
        if self.unread().is_empty() {
            return Taken::End;
        }
        self.at = self.bytes.len();
        Taken::Row
    }

    /// The two numbers of the next row, which is taken, if it is such a row and has been read ahead.
    #[inline(always)]
    pub fn take_pair(&mut self) -> Option<(u32, u32)>
        ensures takes { IfSome result (λ pair. TakesKnown (IsPair pair) (rows_left (text_of R.remaining self.old)) (rows_left (text_of R.remaining self.new))) }
        ensures other { result ≡ None → self.new ≡ self.old }
        ensures source { self.new.source ≡ self.old.source }
    {
        if !self.is_begun {
            return None;
        }
        let found = pair_at(self.unread())?;
        self.at += found.taken;
        Some((found.first, found.second))
    }

    /// Takes the next row if it is this number and, after a comma, this line, and has been read ahead. Answers whether it was taken.
    #[inline(always)]
    pub fn take_numbered(&mut self, number: u32, line: &[u8]) -> bool
        requires plain { All IsPlain line.now }
        ensures takes { result ≡ true → TakesKnown (IsNumbered number line.now) (rows_left (text_of R.remaining self.old)) (rows_left (text_of R.remaining self.new)) }
        ensures other { result ≡ false → self.new ≡ self.old }
        ensures source { self.new.source ≡ self.old.source }
    {
        if !self.is_begun {
            return false;
        }
        let Some(taken) = numbered_at(self.unread(), number, line) else {
            return false;
        };
        self.at += taken;
        true
    }
}

// How many bytes the byte order mark takes at the beginning of a text.
fn mark_length(text: &[u8]) -> usize
    ensures length { result ≡ mark_length_of text.now }
    ensures bound { result ≤ length text.now }
{
    match text {
        [0xEF, 0xBB, 0xBF, ..] => 3,
        _ => 0,
    }
}
