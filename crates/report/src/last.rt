// The last records before the place of a No.

ghost use Rattle.std.specs.Prelude.{◌≡◌, ◌≤◌, ◌-◌, ◌++◌, [], IfOk, length, map, option_copied, slice_get, take};
ghost use Rattle.circular_buffer.specs.Buffer.{keep_last};
ghost use Rattle.report.specs.Last.{item_of, kept_after_answer, kind_in, most_last, settled};

use crate::fault::CheckFault;
use apex_types::{Body, CoreId, Ordered, Place};
use circular_buffer::HeapCircularBuffer;
use record_read::Kind;
use std::alloc::Global;
use std::marker::Model;
use verdict_merge::{Memory, Verdict};

// The most records that are reported.
const MOST_LAST: usize = 8;

/// A record, reported by its place in the proposed order, its core, its number there and its kind.
#[derive(Clone, Copy, Debug, PartialEq, Eq)]
pub struct LastItem {
    pub place: Place,
    pub core: CoreId,
    pub seq: u32,
    pub kind: Kind,
}

/// The last records before the place of a No or of a broken rule, the earliest first; none after any other answer.
#[derive(Drop)]
pub struct Last {
    items: HeapCircularBuffer<LastItem>,
}

impl Model for Last {
    ghost use Rattle.std.specs.Prelude.{◌≡◌, ◌≤◌, List, length};
    ghost use Rattle.report.specs.declared.last.LastItem.{LastItem};
    ghost use Rattle.report.specs.Last.{most_last};

    ghost Value = { List LastItem };

    ghost view = { λ last. last.items.items };

    ghost invariant = { λ last. (last.items.capacity ≡ most_last) × (length last.items.items ≤ most_last) };
}

impl Last {
    /// No records, with room for the most that can be kept.
    ///
    /// Memory if it is refused for them.
    pub fn new(alloc: Global) -> Result<Last, Memory>
        ensures { IfOk result (λ last. last ≡ []) }
    {
        match HeapCircularBuffer::with_capacity(alloc, MOST_LAST) {
            Ok(items) => Ok(Last { items }),
            Err(_) => Err(Memory),
        }
    }

    /// The number of records, at most eight.
    pub fn len(&self) -> usize
        ensures count { result ≡ length self.now }
        ensures most { result ≤ most_last }
    {
        self.items.len()
    }

    /// The record of this index, counted from the earliest.
    pub fn get(&self, index: usize) -> Option<&LastItem>
        ensures { option_copied result ≡ slice_get self.now index }
    {
        self.items.get(index)
    }

    // Adds the records that come next, and keeps the last. Takes no memory.
    pub(crate) fn keep(&mut self, records: &[Ordered])
        ensures { self.new ≡ keep_last most_last (self.old ++ map item_of records.now) }
    {
        let late = &records[records.len().saturating_sub(MOST_LAST)..];
        'late: for ordered in late {
            self.items.push_back(item_of(ordered));
        }
    }

    // Keeps what is reported after an answer over these records, the first of which is at this place. Takes no memory.
    pub(crate) fn keep_after_answer(
        &mut self,
        answer: &Result<Verdict, CheckFault>,
        first: u64,
        records: &[Ordered],
    )
        ensures { self.new ≡ kept_after_answer answer.now first self.old records.now }
    {
        match answer {
            Ok(Verdict::No { pos, .. }) => self.keep(before(*pos, first, records)),
            Ok(Verdict::Broken { pos, .. }) => self.keep(before(*pos, first, records)),
            _ => self.clear(),
        }
    }

    // Keeps none after a refusal or a lack of memory.
    pub(crate) fn settle(&mut self, answer: &Result<Verdict, CheckFault>)
        ensures { self.new ≡ settled answer.now self.old }
    {
        if answer.is_err() {
            self.clear();
        }
    }

    // Keeps none.
    pub(crate) fn clear(&mut self)
        ensures { self.new ≡ [] }
    {
        self.items.clear();
    }
}

// Of these records, the first of which is at this place, those before another place.
fn before(pos: Place, first: u64, records: &[Ordered]) -> &[Ordered]
    ensures { result.now ≡ take (pos - first) records.now }
{
    let count = pos.number().saturating_sub(first).min(records.len() as u64);
    &records[..count as usize]
}

// A record as it is reported.
fn item_of(ordered: &Ordered) -> LastItem
    ensures { result ≡ item_of ordered.now }
{
    LastItem {
        place: ordered.pos,
        core: ordered.core,
        seq: ordered.rec.seq,
        kind: kind_of(&ordered.rec.body),
    }
}

// The kind of a record.
fn kind_of(body: &Body) -> Kind
    ensures { result ≡ kind_in body.now }
{
    match body {
        Body::Call(_) => Kind::Call,
        Body::Ret(_) => Kind::Ret,
        Body::Disp(_) => Kind::Disp,
        Body::Tick(_) => Kind::Tick,
        Body::Arrive(_) => Kind::Arrive,
        Body::Depart(_) => Kind::Depart,
        Body::Error(_) => Kind::Error,
    }
}
