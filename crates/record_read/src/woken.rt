// Lists of processes, `part:proc` joined by `;`.

ghost use Rattle.std.specs.Prelude.{◌≡◌, ◌≢◌, ◌<◌, ◌∷◌, [], IfOk, IfErr, IfNone, IfSome, IsSome, OnOk, OnErr, Ok, Err, None, Some, is_none, is_some, length, option_map};
ghost use Rattle.apex_types.specs.Rising.{IsRising};
ghost use Rattle.record_read.specs.Field.{read_at, text_at};
ghost use Rattle.record_read.specs.Steps.{IsOfRow};
ghost use Rattle.record_read.specs.Woken.{IsList, front_of, left_of, length_left, named_at_stop, named_by, next_process, pieces_of, processes_after, processes_in, is_after as is_after_of, rest_of, woken_of};

use crate::column::Column;
use crate::fault::RowFault;
use crate::field::text;
use crate::misread::Misread;
use apex_types::limits::{GREATEST_NUMBER, GREATEST_PARTITION};
use apex_types::{PartId, ProcId, Who, Woken};
use csv_rows::{RowFields, read_decimal};
use std::alloc::{AllocError, Global};

// A text before its first separator, and the text after it, if there is a separator.
#[derive(Clone, Copy)]
struct Split<'a> {
    front: &'a [u8],
    rest: Option<&'a [u8]>,
}

// The processes that the pieces of a text name, one after another.
#[derive(Drop)]
struct Processes<'a> {
    last: Option<Who>,
    // The pieces that are left, if any is.
    left: Option<&'a [u8]>,
}

/// The text of the list of processes of a call or a tick: empty, or each process after the one before it.
#[tactic(auto, unfolding(crate::specs::Woken::woken_of))]
pub fn read_list(fields: &RowFields) -> Result<&[u8], Misread>
    ensures text { IfOk result (λ list. list.now ≡ text_at fields.now Column.Woken) }
    ensures list { OnOk result (IsList (text_at fields.now Column.Woken)) }
    ensures refused { IfErr result (λ misread. read_at woken_of fields.now Column.Woken ≡ Err misread) }
    ensures own { IfErr result (λ misread. IsOfRow misread.fault) }
{
    let text = text(fields, Column::Woken);
    if !text.is_empty() && !are_processes(text) {
        return Err(Misread::at(Column::Woken, RowFault::BadWoken));
    }
    Ok(text)
}

// Whether the pieces of a text name processes, each after the one before it.
#[tactic(auto, using(crate::proofs::Pieces::judged_more, crate::proofs::Pieces::judged_at_stop))]
fn are_processes(text: &[u8]) -> bool
    ensures { result ≡ is_some (processes_after None (pieces_of 59 text.now)) }
{
    let mut processes = Processes::of(text);
    'processes: while processes.next().is_some() {}
    processes.is_at_end()
}

/// The processes of a list, in its order. Memory can be refused only if there are any.
#[tactic(auto, using(crate::proofs::Pieces::list_filled), unfolding(crate::specs::Woken::woken_of))]
pub fn copy_woken(alloc: Global, text: &[u8]) -> Result<Woken, AllocError>
    requires { IsList text.now }
    ensures value { IfOk result (λ woken. woken ≡ processes_in text.now) }
    ensures memory { OnErr result (processes_in text.now ≢ []) }
{
    match text {
        [] => Ok(Woken::none(alloc)),
        _ => Ok(Woken::new(copy_processes(alloc, text)?)),
    }
}

// The processes that the pieces of a text name.
#[tactic(auto, using(crate::proofs::Pieces::named_more, crate::proofs::Pieces::named_all))]
fn copy_processes(alloc: Global, text: &[u8]) -> Result<Vec<Who>, AllocError>
    requires { IsSome (processes_after None (pieces_of 59 text.now)) }
    ensures value { IfOk result (λ named. processes_after None (pieces_of 59 text.now) ≡ Some named.items) }
    ensures rising { IfOk result (λ named. IsRising named.items) }
{
    let mut processes = Processes::of(text);
    let mut named = Vec::new(alloc);
    'processes: while let Some(who) = processes.next() {
        named.push(who)?;
    }
    Ok(named)
}

impl<'a> Processes<'a> {
    // Those of all pieces of a text.
    fn of(text: &'a [u8]) -> Processes<'a>
        ensures { named_by result ≡ processes_after None (pieces_of 59 text.now) }
    {
        Processes {
            last: None,
            left: Some(text),
        }
    }

    // The next one. None at the end of the text, or if the next piece names no process that comes after the last one.
    #[tactic(auto, using(crate::proofs::Pieces::next_named, crate::proofs::Pieces::none_named, crate::proofs::Pieces::end_named))]
    fn next(&mut self) -> Option<Who>
        ensures named { IfSome result (λ who. named_by self.old ≡ option_map (λ more. who ∷ more) (named_by self.new)) }
        ensures shorter { IfSome result (λ who. length_left self.new < length_left self.old) }
        ensures none { IfNone result (named_by self.new ≡ named_by self.old) }
        ensures stops { IfNone result (named_by self.new ≡ named_at_stop (left_of self.new)) }
    {
        let split = split_once(self.left?, b';');
        let who = read_next(self.last, split.front)?;
        self.last = Some(who);
        self.left = split.rest;
        Some(who)
    }

    // Whether each piece has named a process.
    fn is_at_end(&self) -> bool
        ensures { result ≡ is_none (left_of self.now) }
    {
        self.left.is_none()
    }
}

// The process that a text names, if it comes after the last one.
#[tactic(auto, unfolding(crate::specs::Woken::next_process, crate::specs::Woken::process_of))]
fn read_next(last: Option<Who>, text: &[u8]) -> Option<Who>
    ensures { result ≡ next_process last text.now }
{
    let split = split_once(text, b':');
    let rest = split.rest?;
    let part = read_decimal(split.front, GREATEST_PARTITION as u64)? as u8;
    let proc = read_decimal(rest, GREATEST_NUMBER as u64)? as u32;
    if proc == 0 || !is_after(last, part, proc) {
        return None;
    }
    Some(Who {
        part: PartId::new(part),
        proc: ProcId::new(proc),
    })
}

// Whether the process of this partition and number comes after the last one.
fn is_after(last: Option<Who>, part: u8, proc: u32) -> bool
    ensures { result ≡ is_after_of last (record { part = part; proc = proc }) }
{
    match last {
        Some(last) => {
            let before = last.part.number();
            before < part || (before == part && last.proc.number() < proc)
        }
        None => true,
    }
}

// The text cut at its first separator.
fn split_once(text: &[u8], separator: u8) -> Split<'_>
    ensures front { result.front.now ≡ front_of separator text.now }
    ensures rest { option_map (λ rest. rest.now) result.rest ≡ rest_of separator text.now }
    ensures shorter { IfSome result.rest (λ rest. length rest.now < length text.now) }
{
    for (place, byte) in text.iter().enumerate() {
        if *byte == separator {
            return Split {
                front: &text[..place],
                rest: Some(&text[place + 1..]),
            };
        }
    }
    Split {
        front: text,
        rest: None,
    }
}
