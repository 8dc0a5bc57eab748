// The text that is left, and what reads it: this crate reads plain lines, and `csv` reads everything from the first other line on.

ghost use Rattle.std.specs.Prelude.{◌≡◌, ◌||◌, IfOk, OnOk, Err, false, is_err};
ghost use Rattle.std.specs.Io.Chain.{chain_second};
ghost use Rattle.csv.specs.Reading.{has_failed, reader_source};
ghost use Rattle.csv_rows.specs.Stream.{IsSet, left_of};
ghost use Rattle.csv_rows.specs.Text.{IsBegun, IsReady, ReportsFailure, TakesRow, failed_in, left_in, hand_overs_left, rest_of, rows_left, unread_of};

use crate::ahead::{Ahead, Taken};
use crate::fields::RowFields;
use crate::source_reader::SourceReader;
use crate::stream::StreamFault;
use crate::text_source::TextSource;
use core::mem::replace_with;
use csv::{Reader, ReaderBuilder};
use std::alloc::Global;
use std::io::{Chain, Cursor, Read};

/// What is left of a text when `csv` takes it over: a line feed, so that `csv` looks for no second byte order mark; the bytes that were
/// read ahead; and the source.
pub type Rest<R> = Chain<Chain<Cursor<[u8; 1]>, Cursor<Vec<u8>>>, SourceReader<R>>;

/// The text that is left.
#[derive(Drop)]
pub enum Text<R> {
    /// All lines so far were plain.
    Lines(Ahead<R>),
    /// `csv` reads the rest.
    Records(Reader<Rest<R>>),
}

/// Takes the next row into `fields`, and answers whether there was one.
#[tactic(auto, using(crate::proofs::Texts::takes_after))]
pub fn take_row<R: TextSource>(
    alloc: Global,
    text: &mut Text<R>,
    fields: &mut RowFields,
) -> Result<bool, StreamFault>
    requires ready { IsReady text.old }
    requires going { failed_in R.failed text.old ≡ false }
    ensures takes { IfOk result (λ found. TakesRow (left_in R.remaining text.old) found fields.new (left_in R.remaining text.new)) }
    ensures ready { OnOk result (IsReady text.new) }
    ensures reports { ReportsFailure (failed_in R.failed text.old) (failed_in R.failed text.new) result }
{
    match text {
        Text::Lines(ahead) => match ahead.take_line(fields)? {
            Taken::Row => Ok(true),
            Taken::End => Ok(false),
            Taken::Other => {
                hand_over(alloc, text);
                take_row(alloc, text, fields)
            }
        },
        Text::Records(reader) => read_record(reader, fields),
    }
}

// Lets `csv` read the rest of a text.
fn hand_over<R: TextSource>(alloc: Global, text: &mut Text<R>)
    requires { IsBegun text.old }
    ensures left { left_in R.remaining text.new ≡ left_in R.remaining text.old }
    ensures ready { IsReady text.new }
    ensures once { hand_overs_left text.new ≡ 0 }
    ensures failed { failed_in R.failed text.new ≡ failed_in R.failed text.old }
{
    replace_with(text, alloc, handed_over)
}

// The same text, the rest of which `csv` reads.
fn handed_over<R: TextSource>(text: Text<R>, alloc: Global) -> (Text<R>, ())
    requires { IsBegun text }
    ensures left { left_in R.remaining result.0 ≡ left_in R.remaining text }
    ensures ready { IsReady result.0 }
    ensures once { hand_overs_left result.0 ≡ 0 }
    ensures failed { failed_in R.failed result.0 ≡ failed_in R.failed text }
{
    match text {
        Text::Lines(ahead) => (Text::Records(reader_of(alloc, ahead)), ()),
        Text::Records(reader) => (Text::Records(reader), ()),
    }
}

// The reader of what is left of a text.
fn reader_of<R: TextSource>(alloc: Global, ahead: Ahead<R>) -> Reader<Rest<R>>
    ensures left { left_of (rest_of R.remaining) result ≡ rows_left (unread_of R.remaining ahead) }
    ensures set { IsSet result }
    ensures source { (chain_second (reader_source result)).source ≡ ahead.source }
{
    let before = ahead.place();
    let Ahead {
        source,
        bytes,
        at,
        forgotten: _,
        is_begun: _,
    } = ahead;
    let mut unread = Cursor::new(bytes);
    unread.set_position(at as u64);
    ReaderBuilder::new()
        .has_headers(false)
        .flexible(true)
        .from_reader(
            alloc,
            Cursor::new([b'\n'])
                .chain(unread)
                .chain(SourceReader { source, before }),
        )
}

// The next row of a reader that is set up and whose `csv` has not given up, and whether there was one.
fn read_record<R: TextSource>(
    reader: &mut Reader<Rest<R>>,
    fields: &mut RowFields,
) -> Result<bool, StreamFault>
    requires set { IsSet reader.old }
    requires going { R.failed (chain_second (reader_source reader.old)).source ≡ false }
    ensures takes { IfOk result (λ found. TakesRow (left_of (rest_of R.remaining) reader.old) found fields.new (left_of (rest_of R.remaining) reader.new)) }
    ensures set { OnOk result (IsSet reader.new) }
    ensures reports { ReportsFailure (R.failed (chain_second (reader_source reader.old)).source) (R.failed (chain_second (reader_source reader.new)).source) result }
{
    fields.is_other = true;
    let found = reader.read_byte_record(&mut fields.other).ok();
    if source_of(reader).has_failed() {
        return Err(StreamFault::Read);
    }
    match found {
        Some(found) => Ok(found),
        None => Err(StreamFault::Memory),
    }
}

/// Where the text comes from.
pub fn source_in<R: TextSource>(text: &Text<R>) -> &R
    ensures { R.failed result.now ≡ failed_in R.failed text.now }
{
    match text {
        Text::Lines(ahead) => &ahead.source,
        Text::Records(reader) => source_of(reader),
    }
}

/// How many bytes of a text have been taken, as far as rows were read. The first byte that `csv` was given is a line feed that belongs to
/// no text.
pub fn place_in<R: TextSource>(text: &Text<R>) -> u64 {
    match text {
        Text::Lines(ahead) => ahead.place(),
        Text::Records(reader) => {
            let taken = reader.position().byte().saturating_sub(1);
            reader.get_ref().get_ref().1.before.saturating_add(taken)
        }
    }
}

// The source under a reader.
fn source_of<R: TextSource>(reader: &Reader<Rest<R>>) -> &R
    ensures { result.now ≡ (chain_second (reader_source reader.now)).source }
{
    &reader.get_ref().get_ref().1.source
}
