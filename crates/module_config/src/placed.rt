// The keys of a table with the table's place, so that a refusal names its key.

ghost use Rattle.std.specs.Prelude.{◌≡◌, ◌≤◌, IfOk, length};
ghost use Rattle.toml.specs.View.{view, table_view, items_view};
ghost use Rattle.apex_types.specs.declared.limits.TheConstants.{GREATEST_SPAN};
ghost use Rattle.module_config.specs.Keys.{Reads, discipline_at, error_policy_at, integer_at, name_at, natural_at, outside_at, some_at, table_at, tables_at, ticks_at};
ghost use Rattle.module_config.specs.Places.{at, item_in, placed};
ghost use Rattle.module_config.specs.Walk.{objects_at};

use crate::fault::ConfigFault;
use crate::keys::{
    ItemType, discipline, error_policy, integer, name, natural, objects, outside, some_items,
    table, table_under, tables_under, ticks,
};
use crate::place::{ConfigKey, ConfigPlace, ConfigTable};
use crate::refusal::ConfigRefusal;
use apex_machine::{Direction, ErrorPolicy};
use apex_types::Discipline;
use apex_types::limits::LONGEST_NAME;
use arrayvec::ArrayVec;
use toml::{Table, Value};

/// The keys of a table, and which table it is.
#[derive(Clone, Copy)]
pub(crate) struct PlacedKeys<'a> {
    pub(crate) keys: &'a Table,
    pub(crate) table: ConfigTable,
}

/// A reading of the value under a key of a table, with the place of its refusal.
pub(crate) fn placed<T: Drop>(
    table: ConfigTable,
    key: ConfigKey,
    reading: Result<T, ConfigFault>,
) -> Result<T, ConfigRefusal>
    ensures { result ≡ placed table key reading }
{
    match reading {
        Ok(value) => Ok(value),
        Err(fault) => Err(ConfigRefusal {
            fault,
            place: Some(ConfigPlace { table, key }),
        }),
    }
}

/// The table that an item of one of the module's lists must be.
pub(crate) fn item<'a>(list: ConfigKey, value: &'a Value) -> Result<&'a Table, ConfigRefusal>
    ensures { Reads (λ keys. table_view keys.now) result (item_in list (view value.now)) }
{
    placed(ConfigTable::Module, list, table(value))
}

impl<'a> PlacedKeys<'a> {
    /// The number under a required key, which must not be negative.
    pub(crate) fn natural(&self, key: ConfigKey) -> Result<u64, ConfigRefusal>
        ensures { result ≡ at self.now.table (table_view self.now.keys.now) key natural_at }
    {
        placed(self.table, key, natural(self.keys, key.text()))
    }

    /// The number under a required key, which must be from `least` to `most`.
    pub(crate) fn integer(
        &self,
        key: ConfigKey,
        least: u64,
        most: u64,
    ) -> Result<u64, ConfigRefusal>
        ensures value { result ≡ at self.now.table (table_view self.now.keys.now) key (integer_at least most) }
        ensures least { IfOk result (λ number. least ≤ number) }
        ensures most { IfOk result (λ number. number ≤ most) }
    {
        placed(self.table, key, integer(self.keys, key.text(), least, most))
    }

    /// The number of ticks under a required key, which must be from 1 to 4,294,967,295.
    pub(crate) fn ticks(&self, key: ConfigKey) -> Result<u64, ConfigRefusal>
        ensures value { result ≡ at self.now.table (table_view self.now.keys.now) key ticks_at }
        ensures least { IfOk result (λ number. 1 ≤ number) }
        ensures most { IfOk result (λ number. number ≤ GREATEST_SPAN) }
    {
        placed(self.table, key, ticks(self.keys, key.text()))
    }

    /// How many objects of a kind a partition may create, by the number under a key.
    pub(crate) fn objects(&self, key: ConfigKey) -> Result<u32, ConfigRefusal>
        ensures { result ≡ at self.now.table (table_view self.now.keys.now) key objects_at }
    {
        placed(self.table, key, objects(self.keys, key.text()))
    }

    /// The name under a required key, which must have 1 to 32 bytes, all printable ASCII.
    pub(crate) fn name(&self, key: ConfigKey) -> Result<ArrayVec<u8, LONGEST_NAME>, ConfigRefusal>
        ensures { Reads (λ name. name.items) result (at self.now.table (table_view self.now.keys.now) key name_at) }
    {
        placed(self.table, key, name(self.keys, key.text()))
    }

    /// The discipline under a required key, which must be "FIFO" or "PRIORITY".
    pub(crate) fn discipline(&self, key: ConfigKey) -> Result<Discipline, ConfigRefusal>
        ensures { result ≡ at self.now.table (table_view self.now.keys.now) key discipline_at }
    {
        placed(self.table, key, discipline(self.keys, key.text()))
    }

    /// The end of a channel that is outside the module: "SOURCE" or "DESTINATION" under a key; none if the key is missing.
    pub(crate) fn outside(&self, key: ConfigKey) -> Result<Option<Direction>, ConfigRefusal>
        ensures { result ≡ at self.now.table (table_view self.now.keys.now) key outside_at }
    {
        placed(self.table, key, outside(self.keys, key.text()))
    }

    /// What is done about an error that no handler takes, by the value under a key: "IGNORE", which also holds if the key is missing,
    /// "IDLE", "COLD_START" or "WARM_START".
    pub(crate) fn error_policy(&self, key: ConfigKey) -> Result<ErrorPolicy, ConfigRefusal>
        ensures { result ≡ at self.now.table (table_view self.now.keys.now) key error_policy_at }
    {
        placed(self.table, key, error_policy(self.keys, key.text()))
    }

    /// The table under a required key.
    pub(crate) fn table(&self, key: ConfigKey) -> Result<&'a Table, ConfigRefusal>
        ensures { Reads (λ keys. table_view keys.now) result (at self.now.table (table_view self.now.keys.now) key table_at) }
    {
        placed(self.table, key, table_under(self.keys, key.text()))
    }

    /// The items of the list under a required key: at least one, each of this type.
    pub(crate) fn some_items(
        &self,
        key: ConfigKey,
        item_type: ItemType,
    ) -> Result<&'a [Value], ConfigRefusal>
        ensures value { Reads (λ items. items_view items.now) result (at self.now.table (table_view self.now.keys.now) key (some_at item_type)) }
        ensures some { IfOk result (λ items. 1 ≤ length items.now) }
    {
        placed(
            self.table,
            key,
            some_items(self.keys, key.text(), item_type),
        )
    }

    /// The items of the list of tables under a key; there are none if the key is missing.
    pub(crate) fn tables(&self, key: ConfigKey) -> Result<&'a [Value], ConfigRefusal>
        ensures { Reads (λ items. items_view items.now) result (at self.now.table (table_view self.now.keys.now) key tables_at) }
    {
        placed(self.table, key, tables_under(self.keys, key.text()))
    }
}
