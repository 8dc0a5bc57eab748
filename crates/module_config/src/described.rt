// What the tables of a list describe: partitions, windows or channels.

ghost use Rattle.std.specs.Prelude.{◌≡◌, ℕ, All, IfErr, IfOk, IsOk, Result};
ghost use Rattle.std.specs.Result.{result_err};
ghost use Rattle.toml.specs.Data.{Data};
ghost use Rattle.toml.specs.View.{view, table_view, items_view};
ghost use Rattle.module_config.specs.declared.described.ModuleSize.{ModuleSize as Size};
ghost use Rattle.module_config.specs.declared.refusal.ConfigRefusal.{ConfigRefusal as Refusal};
ghost use Rattle.module_config.specs.Keys.{GivesPlaced, each_item, tables_at};
ghost use Rattle.module_config.specs.Limits.{IsSize};
ghost use Rattle.module_config.specs.Places.{at, each_under};

use crate::place::ConfigKey;
use crate::placed::PlacedKeys;
use crate::refusal::ConfigRefusal;
use std::alloc::Global;
use toml::Value;

/// How many cores a module has, and how many ticks its major frame has.
#[derive(Clone, Copy)]
pub(crate) struct ModuleSize {
    pub(crate) cores: u8,
    pub(crate) frame: u64,
}

/// What a table describes, in a module of this size.
pub(crate) trait Described: Drop {
    // What the value at an index of the list describes, or why and where it describes nothing.
    ghost described: { Size → ℕ → Data → Result Self Refusal };

    // What is known of it.
    ghost keeps: { Size → Self → Type 0 };

    /// Reads what the value at an index of the list describes.
    fn read(value: &Value, index: usize, size: ModuleSize) -> Result<Self, ConfigRefusal>
        requires { IsSize size }
        ensures value { result ≡ described size index (view value.now) }
        ensures limits { IfOk result (keeps size) };
}

/// The items of the list of tables under a key, each of which is well described. There are none if the key is missing.
pub(crate) fn items_under<'a, Item: Described>(
    keys: &PlacedKeys<'a>,
    key: ConfigKey,
    size: ModuleSize,
) -> Result<&'a [Value], ConfigRefusal>
    requires { IsSize size }
    ensures listed { IfOk result (λ items. at keys.now.table (table_view keys.now.keys.now) key tables_at ≡ Ok (items_view items.now)) }
    ensures judged { IfOk result (λ items. IsOk (each_item (Item.described size) (items_view items.now))) }
    ensures refused { IfErr result (λ refusal. each_under keys.now.table (table_view keys.now.keys.now) key (Item.described size) ≡ Err refusal) }
{
    let items = keys.tables(key)?;
    judge::<Item>(items, size)?;
    Ok(items)
}

/// Refuses the first item that is not well described.
pub(crate) fn judge<Item: Described>(items: &[Value], size: ModuleSize) -> Result<(), ConfigRefusal>
    requires { IsSize size }
    ensures { result_err result ≡ result_err (each_item (Item.described size) (items_view items.now)) }
{
    for (index, item) in items.iter().enumerate() {
        Item::read(item, index, size)?;
    }
    Ok(())
}

/// What the items of a list describe, in the order of the text.
pub(crate) fn read_each<Item: Described>(
    alloc: Global,
    items: &[Value],
    size: ModuleSize,
) -> Result<Vec<Item>, ConfigRefusal>
    requires { IsSize size }
    ensures value { GivesPlaced (λ found. found.items) result (each_item (Item.described size) (items_view items.now)) }
    ensures limits { IfOk result (λ found. All (Item.keeps size) found.items) }
{
    let mut found = Vec::new(alloc);
    for (index, item) in items.iter().enumerate() {
        let described = Item::read(item, index, size)?;
        found.push(described)?;
    }
    Ok(found)
}
