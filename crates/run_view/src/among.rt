// Whether something is among what was seen.

ghost use Rattle.std.specs.Prelude.{◌≡◌};
ghost use Rattle.std.specs.List.{list_any};

// Whether an item is equal to one of these, mostly to the one at this index.
pub(crate) fn is_among<Item: PartialEq>(items: &[Item], index: usize, item: &Item) -> bool
    ensures { result ≡ list_any (λ other. Item.eq other item.now) items.now }
{
    if index < items.len() && items[index] == *item {
        return true;
    }
    items.contains(item)
}
