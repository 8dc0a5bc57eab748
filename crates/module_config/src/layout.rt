// What a table configures, each key judged by itself.

ghost use Rattle.std.specs.Prelude.{◌≡◌, ◌≤◌, IfOk, IfErr, IsOk, All, AllPairs, length};
ghost use Rattle.toml.specs.View.{table_view, items_view};
ghost use Rattle.module_config.specs.Keys.{GivesPlaced, each_item};
ghost use Rattle.module_config.specs.Order.{comes_before};
ghost use Rattle.module_config.specs.Walk.{partition_in, partitions_under, put_by, walk};
ghost use Rattle.module_config.specs.declared.place.ConfigTable.TheVariants.{Module};
ghost use Rattle.module_config.specs.Limits.{AreCoresOf, BeginsNoLater, HasTick, IsWithinLimits, IsOrdered, IsSize};
ghost use Rattle.module_config.specs.Laid.{laid_out};

use crate::described::{Described, ModuleSize, items_under, judge, read_each};
use crate::keys::ItemType;
use crate::number::{Numbered, place_among};
use crate::partition::Partition;
use crate::place::{ConfigKey, ConfigTable};
use crate::placed::PlacedKeys;
use crate::queuing::QueuedChannel;
use crate::refusal::ConfigRefusal;
use crate::sampling::SampledChannel;
use crate::timetable::ordered_windows;
use crate::window::TimeWindow;
use apex_types::limits::MOST_CORES;
use std::alloc::Global;
use toml::{Table, Value};

/// What a table configures, before it is judged as a whole.
#[derive(Debug, Drop)]
pub(crate) struct Layout {
    pub(crate) cores: u8,
    pub(crate) frame: u64,
    pub(crate) skew: u64,
    pub(crate) partitions: Vec<Partition>,
    pub(crate) windows: Vec<TimeWindow>,
    pub(crate) sampling: Vec<SampledChannel>,
    pub(crate) queuing: Vec<QueuedChannel>,
}

/// Reads what a table configures. Each key is judged, in turn, before memory is requested.
pub(crate) fn read_layout(alloc: Global, keys: &Table) -> Result<Layout, ConfigRefusal>
    ensures value { GivesPlaced laid_out result (walk (table_view keys.now)) }
    ensures refused { IfErr (walk (table_view keys.now)) (λ refusal. result ≡ Err refusal) }
    ensures limits { IfOk result (λ layout. IsWithinLimits (laid_out layout)) }
    ensures ordered { IfOk result (λ layout. IsOrdered layout.partitions.items) }
    ensures by_start { IfOk result (λ layout. AllPairs BeginsNoLater layout.windows.items) }
    ensures some_tick { IfOk result (λ layout. All HasTick layout.windows.items) }
{
    let keys = PlacedKeys {
        keys,
        table: ConfigTable::Module,
    };
    let cores = keys.integer(ConfigKey::Cores, 1, MOST_CORES as u64)? as u8;
    let frame = keys.ticks(ConfigKey::Frame)?;
    let skew = keys.ticks(ConfigKey::Skew)?;
    let size = ModuleSize { cores, frame };
    let partition_items = partition_items(&keys, size)?;
    let window_items = items_under::<TimeWindow>(&keys, ConfigKey::Window, size)?;
    let sampling_items = items_under::<SampledChannel>(&keys, ConfigKey::Sampling, size)?;
    let queuing_items = items_under::<QueuedChannel>(&keys, ConfigKey::Queuing, size)?;
    let partitions = ordered_partitions(alloc, partition_items, size)?;
    let windows = ordered_windows(alloc, window_items, size)?;
    let sampling = read_each(alloc, sampling_items, size)?;
    let queuing = read_each(alloc, queuing_items, size)?;
    Ok(Layout {
        cores,
        frame,
        skew,
        partitions,
        windows,
        sampling,
        queuing,
    })
}

// The items of the list of partitions. There is at least one, and each describes a partition.
fn partition_items<'a>(
    keys: &PlacedKeys<'a>,
    size: ModuleSize,
) -> Result<&'a [Value], ConfigRefusal>
    requires size { IsSize size }
    requires module { keys.now.table ≡ Module }
    ensures listed { IfOk result (λ items. partitions_under size.cores (table_view keys.now.keys.now) ≡ put_by comes_before (each_item (partition_in size.cores) (items_view items.now))) }
    ensures some { IfOk result (λ items. 1 ≤ length items.now) }
    ensures judged { IfOk result (λ items. IsOk (each_item (partition_in size.cores) (items_view items.now))) }
    ensures refused { IfErr result (λ refusal. partitions_under size.cores (table_view keys.now.keys.now) ≡ Err refusal) }
{
    let items = keys.some_items(ConfigKey::Partition, ItemType::Table)?;
    judge::<Partition>(items, size)?;
    Ok(items)
}

// The partitions that the items of a list describe, put in the order of their numbers.
fn ordered_partitions(
    alloc: Global,
    items: &[Value],
    size: ModuleSize,
) -> Result<Vec<Partition>, ConfigRefusal>
    requires { IsSize size }
    ensures value { GivesPlaced (λ found. found.items) result (put_by comes_before (each_item (partition_in size.cores) (items_view items.now))) }
    ensures as_many { IfOk result (λ found. length found.items ≡ length items.now) }
    ensures own_cores { IfOk result (λ found. All (AreCoresOf size.cores) found.items) }
    ensures ordered { IfOk result (λ found. IsOrdered found.items) }
{
    let mut found = Vec::new(alloc);
    for (index, item) in items.iter().enumerate() {
        let partition = Partition::read(item, index, size)?;
        let place = place_among(&found, partition.number());
        found.insert(place, partition)?;
    }
    Ok(found)
}
