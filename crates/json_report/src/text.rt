// The text of an answer. docs/FORMATS.md describes its members.

ghost use Rattle.std.specs.Prelude.{◌≡◌, ◌++◌, IfOk, codes, map, string_bytes};
ghost use Rattle.serde_json.specs.Data.{array, no_members, number, put, unsigned};
ghost use Rattle.serde_json.specs.View.{items_of, members_view, view};
ghost use Rattle.json_report.specs.Answer.{answer_data, input_data, options_data, program_data, record_data, said_data, said_members, sentence_data, sha256_digits, site_or_null, text_or_null};
ghost use Rattle.json_report.specs.Text.{IsAnswer};
ghost use Rattle.json_report.specs.declared.text.TheConstants.{FORM};

use crate::answer::{Answer, Options};
use crate::digest::sha256_of;
use crate::object::Object;
use crate::values::{inputs_value, last_value, sentences_value, site_or_null, texts_value};
use serde_json::Value;
use std::alloc::{AllocError, Global};

/// The number of this form of answers. It changes if a member is left out or means something else.
const FORM: u64 = 1;

/// The text of an answer: each part of it as JSON, and a line feed.
///
/// # Errors
///
/// `AllocError` if memory is refused.
pub fn answer_text(alloc: Global, answer: &Answer<'_>) -> Result<String, AllocError>
    ensures { IfOk result (λ text. IsAnswer (string_bytes text) (answer_data answer.now)) }
{
    let value = answer_value(alloc, answer)?;
    let mut text = value.to_string_pretty(alloc)?;
    text.push_str("\n")?;
    Ok(text)
}

// The answer as a value.
fn answer_value(alloc: Global, answer: &Answer<'_>) -> Result<Value, AllocError>
    ensures { IfOk result (λ value. view value ≡ answer_data answer.now) }
{
    let head = head_of(alloc, answer.version)?;
    let told = with_told(head, answer)?;
    let whole = with_basis(told, answer)?;
    Ok(whole.value())
}

// The form of an answer, and the program of this version.
fn head_of(alloc: Global, version: &str) -> Result<Object, AllocError>
    ensures { IfOk result (λ head. members_view head.members.entries ≡ put (codes "form") (number (unsigned FORM)) (put (codes "program") (program_data version.now) no_members)) }
{
    let program = Object::new(alloc)
        .with_text("name", "apexcheck")?
        .with_text("version", version)?;
    Object::new(alloc)
        .with("program", program.value())?
        .with_number("form", FORM)
}

// Adds what an answer says.
fn with_told(head: Object, answer: &Answer<'_>) -> Result<Object, AllocError>
    ensures { IfOk result (λ told. members_view told.members.entries ≡ put (codes "explanation") (array (items_of (map sentence_data answer.now.explanation.now))) (put (codes "location") (site_or_null answer.now.site) (put (codes "answer") (said_data answer.now) (members_view head.members.entries)))) }
{
    let alloc = head.alloc;
    let said = said_value(alloc, answer)?;
    let told = head.with("answer", said)?;
    let location = site_or_null(alloc, answer.site)?;
    let told = told.with("location", location)?;
    let explanation = sentences_value(alloc, answer.explanation)?;
    told.with("explanation", explanation)
}

// Adds what an answer rests on.
fn with_basis(told: Object, answer: &Answer<'_>) -> Result<Object, AllocError>
    ensures { IfOk result (λ whole. members_view whole.members.entries ≡ put (codes "inputs") (array (items_of (map input_data answer.now.inputs.now))) (put (codes "options") (options_data answer.now.options) (put (codes "last") (array (items_of (map record_data answer.now.last.now))) (members_view told.members.entries)))) }
{
    let alloc = told.alloc;
    let last = last_value(alloc, answer.last)?;
    let whole = told.with("last", last)?;
    let options = options_value(alloc, &answer.options)?;
    let whole = whole.with("options", options)?;
    let inputs = inputs_value(alloc, answer.inputs)?;
    whole.with("inputs", inputs)
}

// The line, its digest with its line feed, the exit status, and what the line says.
fn said_value(alloc: Global, answer: &Answer<'_>) -> Result<Value, AllocError>
    ensures { IfOk result (λ value. view value ≡ said_data answer.now) }
{
    let digest = sha256_of_line(alloc, answer.line)?;
    said_with(alloc, answer, digest.as_str())
}

// The SHA-256 of a line with its line feed.
fn sha256_of_line(alloc: Global, line: &str) -> Result<String, AllocError>
    ensures { IfOk result (λ digest. string_bytes digest ≡ sha256_digits (line.now ++ codes "\n")) }
{
    let written = format!(in alloc; "{line}\n")?;
    sha256_of(alloc, written.as_bytes())
}

// What the line says, with its digest.
fn said_with(alloc: Global, answer: &Answer<'_>, digest: &str) -> Result<Value, AllocError>
    ensures { IfOk result (λ value. view value ≡ said_members answer.now digest.now (text_or_null answer.now.summary.id) (text_or_null answer.now.summary.cause)) }
{
    let summary = &answer.summary;
    let said = Object::new(alloc)
        .with_text("line", answer.line)?
        .with_text("sha256", digest)?
        .with_number("status", u64::from(answer.status))?
        .with_text("outcome", summary.outcome)?
        .with_text_or_null("id", summary.id)?
        .with_text_or_null("cause", summary.cause)?
        .with_number_or_null("records", summary.records)?
        .with_number_or_null("place", summary.place)?
        .with_number_or_null("piece", summary.piece)?
        .with_number_or_null("rule", summary.rule)?;
    Ok(said.value())
}

// The options.
fn options_value(alloc: Global, options: &Options<'_>) -> Result<Value, AllocError>
    ensures { IfOk result (λ value. view value ≡ options_data options.now) }
{
    let rules = texts_value(alloc, options.rules)?;
    let object = Object::new(alloc)
        .with("rules", rules)?
        .with_number_or_null("at_least", options.at_least)?;
    Ok(object.value())
}
