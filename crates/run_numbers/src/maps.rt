// Maps from figures and from what has a name.

ghost use Rattle.std.specs.Prelude.{OnOk, Some};
ghost use Rattle.indexmap.specs.IndexMap.{Updates};

use indexmap::IndexMap;
use std::alloc::AllocError;
use std::hash::Hash;

/// Sets the value of a key.
///
/// `AllocError` if memory is refused.
pub(crate) fn put<K: Copy + Drop + Eq + Hash, V: Drop>(
    map: &mut IndexMap<K, V>,
    key: &K,
    value: V,
) -> Result<(), AllocError>
    ensures { OnOk result (Updates K.eq map.old map.new key.now (Some value)) }
{
    map.insert(*key, value)?;
    Ok(())
}

/// Sets the value of a key to a copy of this one.
///
/// `AllocError` if memory is refused.
pub(crate) fn put_copy<K: Copy + Drop + Eq + Hash, V: Copy + Drop>(
    map: &mut IndexMap<K, V>,
    key: &K,
    value: &V,
) -> Result<(), AllocError>
    ensures { OnOk result (Updates K.eq map.old map.new key.now (Some value.now)) }
{
    put(map, key, *value)
}
