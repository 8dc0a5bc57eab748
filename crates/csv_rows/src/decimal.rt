// Numbers written in canonical decimal.

ghost use Rattle.std.specs.Prelude.{◌≡◌, ◌≤◌, IfSome};
ghost use Rattle.csv_rows.specs.Decimal.{decimal, digits_from, signed_decimal, negated as negated_of};

/// The number that a text writes in canonical decimal, if it is at most `max`.
///
/// Canonical decimal is `0`, or digits the first of which is 1 to 9. Takes no memory.
#[tactic(auto, unfolding(crate::specs::Decimal::digits_from, crate::specs::Decimal::decimal))]
pub fn read_decimal(text: &[u8], max: u64) -> Option<u64>
    ensures value { result ≡ decimal max text.now }
    ensures bound { IfSome result (λ number. number ≤ max) }
{
    match text {
        [] => None,
        [b'0', _, ..] => None,
        _ => read_digits(text, max),
    }
}

// The number that these digits write, if it is at most `max`.
#[tactic(auto, using(std::proofs::lemmas::Grind::common_steps), unfolding(crate::specs::Decimal::digits_from))]
fn read_digits(text: &[u8], max: u64) -> Option<u64>
    ensures value { result ≡ digits_from max 0 text.now }
    ensures bound { IfSome result (λ number. number ≤ max) }
{
    let mut value: u64 = 0;
    for byte in text {
        if !byte.is_ascii_digit() {
            return None;
        }
        let next = value.checked_mul(10)?.checked_add((*byte - b'0') as u64)?;
        if next > max {
            return None;
        }
        value = next;
    }
    Some(value)
}

/// The number that a text writes in canonical decimal, if it is a signed number of 64 bits.
///
/// A negative number is `-` and the canonical decimal of a number that is not 0. Takes no memory.
#[tactic(auto, unfolding(crate::specs::Decimal::signed_decimal))]
pub fn read_signed(text: &[u8]) -> Option<i64>
    ensures { result ≡ signed_decimal text.now }
{
    match text {
        [] => None,
        [b'-', digits @ ..] => negated(read_decimal(digits, 0x8000_0000_0000_0000)?),
        _ => Some(read_decimal(text, 0x7FFF_FFFF_FFFF_FFFF)? as i64),
    }
}

// The number below zero of this size, if the size is not 0.
fn negated(size: u64) -> Option<i64>
    requires { size ≤ 0x8000000000000000 }
    ensures { result ≡ negated_of size }
{
    if size == 0 {
        return None;
    }
    Some(-((size - 1) as i64) - 1)
}
