// The parts of an answer as values of JSON.

ghost use Rattle.std.specs.Prelude.{◌≡◌, IfOk, codes, map};
ghost use Rattle.serde_json.specs.View.{items_of, members_view, view};
ghost use Rattle.serde_json.specs.Data.{array, null, number, object, put, string, unsigned};
ghost use Rattle.json_report.specs.Answer.{input_data, number_or_null, place_data, record_data, row_data, row_or_null, sentence_data, site_data, site_or_null, text_data, text_or_null};

use crate::answer::{Digest, Input, LastRecord, NamedPlace, Row, Sentence, Site};
use crate::object::Object;
use serde_json::Value;
use std::alloc::{AllocError, Global};

/// A number, or null.
pub fn number_or_null(number: Option<u64>) -> Value
    ensures { view result ≡ number_or_null number }
{
    match number {
        Some(number) => Value::from(number),
        None => Value::Null,
    }
}

/// A text, or null.
pub fn text_or_null(alloc: Global, text: Option<&str>) -> Result<Value, AllocError>
    ensures { IfOk result (λ value. view value ≡ text_or_null text.entry) }
{
    match text {
        Some(text) => text_value(alloc, text),
        None => Ok(Value::Null),
    }
}

/// A text.
pub fn text_value(alloc: Global, text: &str) -> Result<Value, AllocError>
    ensures { IfOk result (λ value. view value ≡ string text.now) }
{
    Value::try_from_str(alloc, text)
}

/// Texts in their order.
pub fn texts_value(alloc: Global, texts: &[String]) -> Result<Value, AllocError>
    ensures { IfOk result (λ value. view value ≡ array (items_of (map text_data texts.now))) }
{
    let mut values = Vec::new(alloc);
    for text in texts {
        values.push(text_value(alloc, text.as_str())?)?;
    }
    Ok(Value::Array(values))
}

/// A place in a file, or null.
pub fn site_or_null(alloc: Global, site: Option<&Site<'_>>) -> Result<Value, AllocError>
    ensures { IfOk result (λ value. view value ≡ site_or_null site.entry) }
{
    match site {
        Some(site) => site_value(alloc, site),
        None => Ok(Value::Null),
    }
}

fn site_value(alloc: Global, site: &Site<'_>) -> Result<Value, AllocError>
    ensures { IfOk result (λ value. view value ≡ site_data site.now) }
{
    let row = row_or_null(alloc, &site.row)?;
    let object = Object::new(alloc)
        .with("row", row)?
        .with_text("file", site.file)?
        .with_number_or_null("line", site.line)?;
    Ok(object.value())
}

// A row, or null.
fn row_or_null(alloc: Global, row: &Option<Row>) -> Result<Value, AllocError>
    ensures { IfOk result (λ value. view value ≡ row_or_null row.now) }
{
    match row {
        Some(row) => row_value(alloc, row),
        None => Ok(Value::Null),
    }
}

fn row_value(alloc: Global, row: &Row) -> Result<Value, AllocError>
    ensures { IfOk result (λ value. view value ≡ row_data row.now) }
{
    let fields = texts_value(alloc, row.fields.as_slice())?;
    let object = Object::new(alloc)
        .with("fields", fields)?
        .with_number("number", row.number)?;
    Ok(object.value())
}

/// Sentences in their order.
pub fn sentences_value(alloc: Global, sentences: &[Sentence<'_>]) -> Result<Value, AllocError>
    ensures { IfOk result (λ value. view value ≡ array (items_of (map sentence_data sentences.now))) }
{
    let mut values = Vec::new(alloc);
    for sentence in sentences {
        values.push(sentence_value(alloc, sentence)?)?;
    }
    Ok(Value::Array(values))
}

fn sentence_value(alloc: Global, sentence: &Sentence<'_>) -> Result<Value, AllocError>
    ensures { IfOk result (λ value. view value ≡ sentence_data sentence.now) }
{
    let places = places_value(alloc, sentence.places.as_slice())?;
    let object = Object::new(alloc)
        .with("places", places)?
        .with_text("text", sentence.text.as_str())?;
    Ok(object.value())
}

// Places in their order.
fn places_value(alloc: Global, places: &[NamedPlace<'_>]) -> Result<Value, AllocError>
    ensures { IfOk result (λ value. view value ≡ array (items_of (map place_data places.now))) }
{
    let mut values = Vec::new(alloc);
    for place in places {
        values.push(place_value(alloc, place)?)?;
    }
    Ok(Value::Array(values))
}

fn place_value(alloc: Global, place: &NamedPlace<'_>) -> Result<Value, AllocError>
    ensures { IfOk result (λ value. view value ≡ place_data place.now) }
{
    let object = Object::new(alloc)
        .with_number("place", place.place)?
        .with_text("file", place.file)?
        .with_number_or_null("line", place.line)?;
    Ok(object.value())
}

/// The last records, the earliest first.
pub fn last_value(alloc: Global, records: &[LastRecord<'_>]) -> Result<Value, AllocError>
    ensures { IfOk result (λ value. view value ≡ array (items_of (map record_data records.now))) }
{
    let mut values = Vec::new(alloc);
    for before in records {
        values.push(record_value(alloc, before)?)?;
    }
    Ok(Value::Array(values))
}

fn record_value(alloc: Global, before: &LastRecord<'_>) -> Result<Value, AllocError>
    ensures { IfOk result (λ value. view value ≡ record_data before.now) }
{
    let object = Object::new(alloc)
        .with_number("place", before.place)?
        .with_number("core", u64::from(before.core))?
        .with_number("seq", u64::from(before.seq))?
        .with_text("kind", before.kind)?
        .with_text("file", before.file)?
        .with_number_or_null("line", before.line)?;
    Ok(object.value())
}

/// The inputs in the order of their roles.
pub fn inputs_value(alloc: Global, inputs: &[Input<'_>]) -> Result<Value, AllocError>
    ensures { IfOk result (λ value. view value ≡ array (items_of (map input_data inputs.now))) }
{
    let mut values = Vec::new(alloc);
    for input in inputs {
        values.push(input_value(alloc, input)?)?;
    }
    Ok(Value::Array(values))
}

fn input_value(alloc: Global, input: &Input<'_>) -> Result<Value, AllocError>
    ensures { IfOk result (λ value. view value ≡ input_data input.now) }
{
    let named = Object::new(alloc)
        .with_text("role", input.role)?
        .with_text("name", input.name)?;
    match &input.content {
        Some(content) => read_value(named, content),
        None => unread_value(named),
    }
}

// An input that was read, with its name and what it holds.
fn read_value(named: Object, content: &Digest) -> Result<Value, AllocError>
    ensures { IfOk result (λ value. view value ≡ object (put (codes "sha256") (text_data content.now.sha256) (put (codes "bytes") (number (unsigned content.now.bytes)) (members_view named.members.entries)))) }
{
    let read = named
        .with_number("bytes", content.bytes)?
        .with_text("sha256", content.sha256.as_str())?;
    Ok(read.value())
}

// An input that was not read again, with its name.
fn unread_value(named: Object) -> Result<Value, AllocError>
    ensures { IfOk result (λ value. view value ≡ object (put (codes "sha256") null (put (codes "bytes") null (members_view named.members.entries)))) }
{
    let unread = named
        .with("bytes", Value::Null)?
        .with("sha256", Value::Null)?;
    Ok(unread.value())
}
