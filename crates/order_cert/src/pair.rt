// The pair that the fields of a row are.

ghost use Rattle.std.specs.Prelude.{◌≡◌, ◌<◌, ◌≤◌, IfOk, OnOk, IfErr, Ok, Err};
ghost use Rattle.apex_types.specs.declared.limits.TheConstants.{PLACE_COUNT};
ghost use Rattle.order_cert.specs.Order.{pair_of as pair_by};
ghost use Rattle.order_cert.specs.Row.{IsOfRow, item_of, number_at};

use crate::fault::CertFault;
use apex_types::Pair;
use apex_types::limits::PLACE_COUNT;
use csv_rows::{RowFields, read_decimal};

/// The pair that the row of this number, counted from 0, gives, or the first fault from left to right. Takes no memory.
#[tactic(auto, unfolding(crate::specs::Row::pair_of))]
pub fn read_item(number: u64, fields: &RowFields) -> Result<Pair, CertFault>
    ensures value { result ≡ item_of number fields.now }
    ensures refused { IfErr result (λ fault. IsOfRow fault) }
    ensures bound { OnOk result (number < PLACE_COUNT) }
{
    if number >= PLACE_COUNT {
        return Err(CertFault::TooMany);
    }
    if fields.len() != 2 {
        return Err(CertFault::FieldCount);
    }
    let core = read_number(fields, 0)?;
    let seq = read_number(fields, 1)?;
    Ok(Pair {
        core: core as u32,
        seq,
    })
}

/// The pair of a core and a number that were read.
#[inline(always)]
pub fn pair_read(core: u32, seq: u32) -> Pair
    ensures pair { result ≡ pair_by core seq }
    ensures bound { (core ≤ 0xFFFFFFFF) × (seq ≤ 0xFFFFFFFF) }
{
    Pair {
        core,
        seq: seq as u64,
    }
}

// The number in the field at this place.
#[tactic(auto, unfolding(crate::specs::Row::number_at))]
fn read_number(fields: &RowFields, place: usize) -> Result<u64, CertFault>
    ensures value { result ≡ number_at fields.now place }
    ensures refused { IfErr result (λ fault. fault ≡ CertFault.BadNumber) }
    ensures bound { IfOk result (λ number. number ≤ 0xFFFFFFFF) }
{
    let text = fields.get(place).ok_or(CertFault::BadNumber)?;
    read_decimal(text, 0xFFFF_FFFF).ok_or(CertFault::BadNumber)
}
