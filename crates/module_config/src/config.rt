// The configuration of a module, and the readers of its fields.

ghost use Rattle.std.specs.Prelude.{◌≡◌, ◌≤◌, ◌<◌, ◌%◌, ◌↔◌, All, AllPairs, IfOk, IfErr, IfSome, Bool, true, length, option_map, slice_index};
ghost use Rattle.toml.specs.Errors.{IsMemory};
ghost use Rattle.toml.specs.View.{table_view};
ghost use Rattle.apex_types.specs.declared.limits.TheConstants.{GREATEST_PARTITION, GREATEST_SPAN, LONGEST_CONFIGURATION, MOST_CORES, MOST_PARTITIONS, MOST_PROCESSES};
ghost use Rattle.apex_machine.specs.Channels.{EndsAreApart};
ghost use Rattle.apex_machine.specs.Configuration.{PartitionLimits, window_at, has_partition, WindowsAreConfigured, first_core, object_limit, process_limit, period_of, is_core, limits_of};
ghost use Rattle.apex_machine.specs.Errors.{policy_of};
ghost use Rattle.module_config.specs.declared.fault.ConfigFault.TheVariants.{Memory, NotToml, TooMany};
ghost use Rattle.module_config.specs.Keys.{Gives, GivesPlaced};
ghost use Rattle.module_config.specs.Places.{nowhere};
ghost use Rattle.module_config.specs.Reading.{configuration_of, judged, placed_configuration_of, unless_refused, walk_of};
ghost use Rattle.module_config.specs.Walk.{walk};
ghost use Rattle.module_config.specs.Limits.{partition_numbers, BeginsNoLater, CoresAreOfModule, HasTick, IsConsistent, IsOrdered, IsWithinLimits};
ghost use Rattle.module_config.specs.Laid.{laid_out};
ghost use Rattle.module_config.specs.Misfits.{IsExplained, IsShownBy, unexplained, without_misfit};
ghost use Rattle.module_config.specs.Order.{windows_begun};
ghost use Rattle.module_config.specs.Whole.{whole_fault};

use crate::counts::channel_numbers;
use crate::fault::ConfigFault;
use crate::layout::{Layout, read_layout};
use crate::partition::Partition;
use crate::refusal::{ConfigRefusal, ExplainedRefusal};
use crate::timetable::{begun_near, window_among};
use crate::whole::{find_misfit, find_partition};
use apex_machine::ErrorPolicy;
use apex_types::limits::{LONGEST_CONFIGURATION, MOST_CHANNELS};
use apex_types::{CoreId, PartId};
use arrayvec::ArrayVec;
use std::alloc::Global;
use std::marker::Model;
use toml::Table;
use toml::de::Error;

/// The configuration of a module: its cores, major frame and skew, its partitions and windows, and its channels and their numbers in rising
/// order.
#[derive(Debug, Drop)]
pub struct Config {
    pub(crate) layout: Layout,
    pub(crate) numbers: ArrayVec<u16, MOST_CHANNELS>,
}

impl Model for Config {
    ghost use Rattle.apex_machine.specs.Configuration.{Configuration};

    ghost Value = { Configuration };

    ghost use Rattle.std.specs.Prelude.{◌≡◌};
    ghost use Rattle.apex_machine.specs.Channels.{channel_numbers};
    ghost use Rattle.module_config.specs.Limits.{IsConsistent, IsWithinLimits};
    ghost use Rattle.module_config.specs.Laid.{laid_out};

    ghost view = { λ config. laid_out config.layout };

    ghost invariant = { λ config. IsWithinLimits (laid_out config.layout) × IsConsistent (laid_out config.layout) × (config.numbers.items ≡ channel_numbers (laid_out config.layout)) };
}

impl Config {
    /// Reads the configuration that a TOML text gives.
    ///
    /// Every fault but `Memory` is the first in the text: `TooMany` for a text above 1,048,576 bytes, then `NotToml`, then the keys in
    /// their order, then what is judged over the whole configuration. Keys of other names are ignored.
    pub fn read(alloc: Global, text: &[u8]) -> Result<Config, ConfigFault>
        ensures value { Gives (λ config. config) result (configuration_of text.now) }
        ensures too_long { LONGEST_CONFIGURATION < length text.now → result ≡ Err TooMany }
        ensures windows { IfOk result WindowsAreConfigured }
    {
        match Config::read_explained(alloc, text) {
            Ok(config) => Ok(config),
            Err(explained) => Err(explained.refusal.fault),
        }
    }

    /// Reads the configuration that a text gives, as `read` does. A refusal says where it is, and what shows it.
    ///
    /// The refusal is that of `read`. For `Missing`, `WrongType` and `OutOfRange` it has a key: the first that is refused, in the order in
    /// which docs/FORMATS.md lists the keys. For a fault that is judged over the whole configuration it has a misfit.
    pub fn read_explained(alloc: Global, text: &[u8]) -> Result<Config, ExplainedRefusal>
        ensures value { GivesPlaced (λ config. config) (without_misfit result) (placed_configuration_of text.now) }
        ensures too_long { LONGEST_CONFIGURATION < length text.now → result ≡ Err (unexplained (nowhere TooMany)) }
        ensures explained { IfErr result (IsExplained (walk_of text.now)) }
        ensures windows { IfOk result WindowsAreConfigured }
    {
        if text.len() > LONGEST_CONFIGURATION {
            return Err(ExplainedRefusal::from(ConfigRefusal::nowhere(ConfigFault::TooMany)));
        }
        match toml::table_from_slice(alloc, text) {
            Ok(keys) => Config::from_table(alloc, &keys),
            Err(fault) => Err(ExplainedRefusal::from(ConfigRefusal::nowhere(text_fault(&fault)))),
        }
    }

    // The configuration that a table gives.
    fn from_table(alloc: Global, keys: &Table) -> Result<Config, ExplainedRefusal>
        ensures value { GivesPlaced (λ config. config) (without_misfit result) (judged (walk (table_view keys.now))) }
        ensures refused { IfErr (walk (table_view keys.now)) (λ refusal. result ≡ Err (unexplained refusal)) }
        ensures explained { IfErr result (IsExplained (walk (table_view keys.now))) }
        ensures windows { IfOk result WindowsAreConfigured }
    {
        let layout = read_layout(alloc, keys)?;
        Config::from_layout(layout)
    }

    // The configuration that a layout gives, if its parts are consistent.
    fn from_layout(layout: Layout) -> Result<Config, ExplainedRefusal>
        requires limits { IsWithinLimits (laid_out layout) }
        requires ordered { IsOrdered layout.partitions.items }
        requires by_start { AllPairs BeginsNoLater layout.windows.items }
        requires some_tick { All HasTick layout.windows.items }
        ensures value { without_misfit result ≡ unless_refused (whole_fault (laid_out layout)) (laid_out layout) }
        ensures shown { IfErr result (λ explained. IsShownBy (laid_out layout) explained.refusal.fault explained.misfit) }
        ensures windows { IfOk result WindowsAreConfigured }
    {
        if let Some(misfit) = find_misfit(&layout) {
            return Err(ExplainedRefusal {
                refusal: ConfigRefusal::nowhere(misfit.fault()),
                misfit: Some(misfit),
            });
        }
        let numbers = channel_numbers(&layout);
        Ok(Config { layout, numbers })
    }

    /// States what every configuration satisfies: its limits; partitions in rising order; windows of configured partitions that share no
    /// tick, so that each window is of a configured partition; each core of a partition is one of the module's; no partition is at both
    /// ends of a queuing channel. Does nothing.
    pub fn keeps_limits(&self)
        ensures limits { IsWithinLimits self.now }
        ensures consistent { IsConsistent self.now }
        ensures windows { WindowsAreConfigured self.now }
        ensures cores { CoresAreOfModule self.now }
        ensures ends { EndsAreApart self.now }
    {
        let _ = &self.layout.cores;
    }

    /// How many cores the module has.
    pub fn cores(&self) -> u8
        ensures value { result ≡ self.now.cores }
        ensures least { 1 ≤ result }
        ensures most { result ≤ MOST_CORES }
    {
        self.layout.cores
    }

    /// How many ticks the major frame has.
    pub fn frame(&self) -> u64
        ensures value { result ≡ self.now.frame }
        ensures least { 1 ≤ result }
        ensures most { result ≤ GREATEST_SPAN }
    {
        self.layout.frame
    }

    /// How many ticks a core may be ahead of another.
    pub fn skew(&self) -> u64
        ensures value { result ≡ self.now.skew }
        ensures least { 1 ≤ result }
        ensures most { result ≤ GREATEST_SPAN }
    {
        self.layout.skew
    }

    /// The partition whose window of a core holds a time, if there is one.
    pub fn window_at(&self, core: CoreId, time: u64) -> Option<PartId>
        ensures value { result ≡ window_at self.now core time }
        ensures configured { IfSome result (λ part. has_partition self.now part ≡ true) }
    {
        self.window_near(0, core, time)
    }

    /// The partition whose window of a core holds a time, if there is one, as `window_at` answers.
    ///
    /// The guess is how many windows have begun by then, as `windows_begun` counts them. No guess changes the answer. A guess that is
    /// right, or one too small, saves the search.
    pub fn window_near(&self, guess: usize, core: CoreId, time: u64) -> Option<PartId>
        ensures value { result ≡ window_at self.now core time }
        ensures configured { IfSome result (λ part. has_partition self.now part ≡ true) }
    {
        window_among(&self.layout.windows, guess, core, self.offset(time))
    }

    /// How many windows are of earlier cores, or have begun on this core by a time of the major frame.
    ///
    /// No guess changes the answer. A guess that is right, or one too small, saves the search.
    pub fn windows_begun(&self, guess: usize, core: CoreId, time: u64) -> usize
        ensures { result ≡ windows_begun self.now core time }
    {
        begun_near(&self.layout.windows, guess, core, self.offset(time))
    }

    // The time within the major frame.
    fn offset(&self, time: u64) -> u64
        ensures { result ≡ time % self.now.frame }
    {
        time % self.layout.frame
    }

    /// How many partitions are configured.
    pub fn partition_count(&self) -> usize
        ensures value { result ≡ length self.now.partitions }
        ensures least { 1 ≤ result }
        ensures most { result ≤ MOST_PARTITIONS }
    {
        self.layout.partitions.len()
    }

    /// The number of the partition at an index.
    pub fn partition_number(&self, index: usize) -> PartId
        requires { index < length self.now.partitions }
        ensures value { result ≡ slice_index (partition_numbers self.now) index }
        ensures most { result ≤ GREATEST_PARTITION }
        ensures configured { has_partition self.now result ≡ true }
    {
        self.layout.partitions[index].number
    }

    // The partition of this number, if it is configured.
    fn partition(&self, part: PartId) -> Option<&Partition>
        ensures { option_map (λ partition. partition.now) result ≡ limits_of self.now part }
    {
        find_partition(&self.layout.partitions, part)
    }

    /// Whether a partition of this number is configured.
    pub fn has_partition(&self, part: PartId) -> bool
        ensures { result ≡ has_partition self.now part }
    {
        self.partition(part).is_some()
    }

    /// The first core of a partition, or core 0 if no partition of this number is configured.
    pub fn first_core(&self, part: PartId) -> CoreId
        ensures value { result ≡ first_core self.now part }
        ensures below { result < self.now.cores }
    {
        match find_partition(&self.layout.partitions, part) {
            Some(partition) => partition.cores.first(),
            None => CoreId::new(0),
        }
    }

    /// Whether a number that a caller gives is one of a partition's cores; false if no partition of this number is configured.
    pub fn has_core(&self, part: PartId, given: i64) -> bool
        ensures { result ≡ is_core self.now part given }
    {
        self.partition(part)
            .is_some_and(|limits| given >= 0 && limits.cores.contains(given as u64))
    }

    /// How many processes a partition may create, or 0 if none of this number is configured.
    pub fn process_limit(&self, part: PartId) -> u32
        ensures value { result ≡ process_limit self.now part }
        ensures most { result ≤ MOST_PROCESSES }
    {
        self.partition(part).map_or(0, |limits| limits.processes)
    }

    /// How many buffers a partition may create, or 0 if none of this number is configured.
    pub fn buffer_limit(&self, part: PartId) -> u32
        ensures { result ≡ object_limit self.now (λ (limits : PartitionLimits). limits.buffers) part }
    {
        self.partition(part).map_or(0, |limits| limits.buffers)
    }

    /// How many blackboards a partition may create, or 0 if none of this number is configured.
    pub fn blackboard_limit(&self, part: PartId) -> u32
        ensures { result ≡ object_limit self.now (λ (limits : PartitionLimits). limits.blackboards) part }
    {
        self.partition(part).map_or(0, |limits| limits.blackboards)
    }

    /// How many semaphores a partition may create, or 0 if none of this number is configured.
    pub fn semaphore_limit(&self, part: PartId) -> u32
        ensures { result ≡ object_limit self.now (λ (limits : PartitionLimits). limits.semaphores) part }
    {
        self.partition(part).map_or(0, |limits| limits.semaphores)
    }

    /// How many events a partition may create, or 0 if none of this number is configured.
    pub fn event_limit(&self, part: PartId) -> u32
        ensures { result ≡ object_limit self.now (λ (limits : PartitionLimits). limits.events) part }
    {
        self.partition(part).map_or(0, |limits| limits.events)
    }

    /// How many mutexes a partition may create, or 0 if none of this number is configured.
    pub fn mutex_limit(&self, part: PartId) -> u32
        ensures { result ≡ object_limit self.now (λ (limits : PartitionLimits). limits.mutexes) part }
    {
        self.partition(part).map_or(0, |limits| limits.mutexes)
    }

    /// What is done about an error of a partition that no handler takes; nothing if none of this number is configured.
    pub fn error_policy(&self, part: PartId) -> ErrorPolicy
        ensures { result ≡ policy_of self.now part }
    {
        self.partition(part)
            .map_or(ErrorPolicy::Ignore, |limits| limits.on_error)
    }

    /// The period of a partition in ticks, or 1 if none of this number is configured.
    pub fn period(&self, part: PartId) -> u64
        ensures value { result ≡ period_of self.now part }
        ensures least { 1 ≤ result }
        ensures most { result ≤ GREATEST_SPAN }
    {
        self.partition(part).map_or(1, |limits| limits.period)
    }
}

// Why a text is not a table.
fn text_fault(fault: &Error) -> ConfigFault
    ensures memory { (result ≡ Memory) ↔ IsMemory fault.now }
    ensures not_toml { (result ≡ NotToml) ↔ (¬ IsMemory fault.now) }
{
    if fault.is_memory() {
        ConfigFault::Memory
    } else {
        ConfigFault::NotToml
    }
}
