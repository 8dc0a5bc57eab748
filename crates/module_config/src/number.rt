// What has a number: partitions, channels, and numbers themselves.

ghost use Rattle.std.specs.Prelude.{◌≡◌, ◌≤◌, ◌<◌, ℕ, IfSome, count_by, is_some, length, nat_eq, nat_lt, option_map};
ghost use Rattle.std.specs.List.{list_any, position_or_len};
ghost use Rattle.apex_machine.specs.Configuration.{numbered};
ghost use Rattle.module_config.specs.Whole.{has_number_twice};

/// What has a number.
pub(crate) trait Numbered {
    // Its number.
    ghost number_of: { Self → ℕ };

    /// Its number.
    fn number(&self) -> u16
        ensures { result ≡ number_of self.now };
}

impl Numbered for u16 {
    ghost number_of = { λ number. number };

    fn number(&self) -> u16 {
        *self
    }
}

/// The first item with this number, if there is one.
pub(crate) fn find<Item: Numbered>(items: &[Item], number: u16) -> Option<&Item>
    ensures { option_map (λ found. found.now) result ≡ numbered Item.number_of number items.now }
{
    items.iter().find(|item| item.number() == number)
}

/// The index of the first item whose number is above this one, or the index of the end.
pub(crate) fn place_among<Item: Numbered>(items: &[Item], number: u16) -> usize
    ensures value { result ≡ position_or_len (λ item. nat_lt number (Item.number_of item)) items.now }
    ensures within { result ≤ length items.now }
{
    for (index, item) in items.iter().enumerate() {
        if number < item.number() {
            return index;
        }
    }
    items.len()
}

/// The first item whose number another item after it has, if there is one.
pub(crate) fn find_twice<Item: Numbered>(items: &[Item]) -> Option<&Item>
    ensures found { is_some result ≡ has_number_twice Item.number_of items.now }
    ensures twice { IfSome result (λ item. 1 < count_by (λ other. nat_eq (Item.number_of other) (Item.number_of item.now)) items.now) }
{
    for (index, item) in items.iter().enumerate() {
        if has_number(&items[index + 1..], item.number()) {
            return Some(item);
        }
    }
    None
}

// Whether an item has this number.
fn has_number<Item: Numbered>(items: &[Item], number: u16) -> bool
    ensures { result ≡ list_any (λ item. nat_eq (Item.number_of item) number) items.now }
{
    items.iter().any(|other| other.number() == number)
}
