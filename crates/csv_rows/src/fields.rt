// The fields of a row.

ghost use Rattle.std.specs.Prelude.{◌≡◌, ◌<◌, [], IfOk, OnOk, length, option_map};
ghost use Rattle.csv.specs.Records.{field_at};
ghost use Rattle.csv_rows.specs.Front.{HasFields, IsFront};
ghost use Rattle.csv_rows.specs.Pieces.{AreEnds, pieces_from, start_at};

use crate::cut::cut_front;
use crate::front::{Front, front_at};
use csv::ByteRecord;
use std::alloc::{AllocError, Global};
use std::marker::Model;

/// The fields of a row. Each row that is read replaces the one before it, and mostly needs no further memory.
#[derive(Drop)]
pub struct RowFields {
    // A plain line, and the places where its fields end.
    line: Vec<u8>,
    ends: Vec<usize>,
    // Any other row, as `csv` has read it.
    pub(crate) other: ByteRecord,
    pub(crate) is_other: bool,
}

impl Model for RowFields {
    ghost use Rattle.std.specs.Prelude.{List, ℕ, length, if◌then◌else◌};
    ghost use Rattle.csv.specs.Records.{fields_of};
    ghost use Rattle.csv_rows.specs.Pieces.{AreEnds, pieces_from};

    ghost Value = { List (List ℕ) };

    ghost view = { λ fields. if fields.is_other then fields_of fields.other else pieces_from 0 fields.ends.items fields.line.items };

    ghost invariant = { λ fields. AreEnds 0 fields.ends.items (length fields.line.items) };
}

impl RowFields {
    /// No fields. Takes no memory.
    #[tactic(auto, unfolding(crate::specs::Pieces::pieces_from, crate::specs::Pieces::AreEnds))]
    pub fn new(alloc: Global) -> RowFields
        ensures { result ≡ [] }
    {
        RowFields {
            line: Vec::new(alloc),
            ends: Vec::new(alloc),
            other: ByteRecord::new(alloc),
            is_other: false,
        }
    }

    /// How many fields there are.
    #[tactic(auto, using(crate::proofs::Pieces::pieces_count))]
    pub fn len(&self) -> usize
        ensures { result ≡ length self.now }
    {
        if self.is_other {
            self.other.len()
        } else {
            self.ends.len()
        }
    }

    /// The field at this place, counted from 0.
    pub fn get(&self, place: usize) -> Option<&[u8]>
        ensures { option_map (λ field. field.now) result ≡ field_at self.now place }
    {
        if self.is_other {
            return self.other.get(place);
        }
        if place >= self.ends.len() {
            return None;
        }
        let line = self.line.as_slice();
        let start = start_of(line, &self.ends, place);
        Some(&line[start..self.ends[place]])
    }

    // Looks at the front of a text. If that is a plain line, or plain up to the end of the text, its fields are taken.
    #[tactic(auto, unfolding(crate::specs::Pieces::AreEnds))]
    pub(crate) fn take_front(&mut self, text: &[u8]) -> Result<Front, AllocError>
        ensures front { IfOk result (λ front. IsFront text.now front) }
        ensures fields { IfOk result (λ front. HasFields text.now front self.new) }
    {
        self.is_other = false;
        self.ends.clear();
        self.line.clear();
        match take_plain(text, &mut self.line, &mut self.ends) {
            Ok(front) => Ok(front),
            Err(_) => {
                self.ends.clear();
                Err(AllocError)
            }
        }
    }
}

// Takes the plain front of a text and the places where its fields end.
fn take_plain(text: &[u8], line: &mut Vec<u8>, ends: &mut Vec<usize>) -> Result<Front, AllocError>
    requires empty { (line.old.items ≡ []) × (ends.old.items ≡ []) }
    ensures front { IfOk result (λ front. IsFront text.now front) }
    ensures fields { IfOk result (λ front. HasFields text.now front (pieces_from 0 ends.new.items line.new.items)) }
    ensures ends { OnOk result (AreEnds 0 ends.new.items (length line.new.items)) }
{
    let stop = cut_front(text, ends)?;
    line.extend_from_slice(&text[..stop])?;
    Ok(front_at(text, stop))
}

// Where the field at this place begins: one byte after the end of the field before it.
fn start_of(line: &[u8], ends: &Vec<usize>, place: usize) -> usize
    requires place { place < length ends.now.items }
    requires ends { AreEnds 0 ends.now.items (length line.now) }
    ensures { result ≡ start_at 0 ends.now.items place }
{
    if place == 0 { 0 } else { ends[place - 1] + 1 }
}
