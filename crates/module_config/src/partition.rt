// What is configured of a partition.

use crate::cores::CoreList;
use crate::described::{Described, ModuleSize};
use crate::number::Numbered;
use crate::place::{ConfigKey, ConfigTable};
use crate::placed::{PlacedKeys, item};
use crate::refusal::ConfigRefusal;
use apex_machine::ErrorPolicy;
use apex_types::PartId;
use apex_types::limits::{GREATEST_PARTITION, MOST_PROCESSES};
use std::marker::Model;
use toml::Value;

/// A partition: its number, period and cores, how many processes and objects of each kind it may create, and what is done about an error
/// that no handler takes.
#[derive(Debug, Drop)]
pub(crate) struct Partition {
    pub(crate) number: PartId,
    pub(crate) period: u64,
    pub(crate) cores: CoreList,
    pub(crate) processes: u32,
    pub(crate) buffers: u32,
    pub(crate) blackboards: u32,
    pub(crate) semaphores: u32,
    pub(crate) events: u32,
    pub(crate) mutexes: u32,
    pub(crate) on_error: ErrorPolicy,
}

impl Model for Partition {
    ghost use Rattle.std.specs.Prelude.{ℕ, ◌≤◌};
    ghost use Rattle.apex_machine.specs.Configuration.{PartitionLimits};
    ghost use Rattle.module_config.specs.Limits.{AreLimits};

    ghost Value = { PartitionLimits };

    ghost view = { λ own. record {
      number = own.number;
      period = own.period;
      cores = own.cores;
      processes = own.processes;
      buffers = own.buffers;
      blackboards = own.blackboards;
      semaphores = own.semaphores;
      events = own.events;
      mutexes = own.mutexes;
      on_error = own.on_error;
    } };

    ghost invariant = { λ own. AreLimits own.number own.period own.processes };
}

impl Numbered for Partition {
    ghost number_of = { λ limits. limits.number };

    fn number(&self) -> u16 {
        u16::from(self.number.number())
    }
}

impl Described for Partition {
    ghost use Rattle.module_config.specs.Limits.{AreCoresOf};
    ghost use Rattle.module_config.specs.Walk.{partition_in};

    ghost described = { λ size. partition_in size.cores };

    ghost keeps = { λ size. AreCoresOf size.cores };

    fn read(value: &Value, index: usize, size: ModuleSize) -> Result<Partition, ConfigRefusal> {
        let list = ConfigKey::Partition;
        let keys = PlacedKeys {
            keys: item(list, value)?,
            table: ConfigTable::Item { list, index },
        };
        let number = keys.integer(ConfigKey::Number, 0, GREATEST_PARTITION as u64)?;
        let period = keys.ticks(ConfigKey::Period)?;
        let cores = CoreList::read(&keys, size.cores)?;
        let processes = keys.integer(ConfigKey::Processes, 1, MOST_PROCESSES as u64)?;
        let buffers = keys.objects(ConfigKey::Buffers)?;
        let blackboards = keys.objects(ConfigKey::Blackboards)?;
        let semaphores = keys.objects(ConfigKey::Semaphores)?;
        let events = keys.objects(ConfigKey::Events)?;
        let mutexes = keys.objects(ConfigKey::Mutexes)?;
        let on_error = keys.error_policy(ConfigKey::OnError)?;
        Ok(Partition {
            number: PartId::new(number as u8),
            period,
            cores,
            processes: processes as u32,
            buffers,
            blackboards,
            semaphores,
            events,
            mutexes,
            on_error,
        })
    }
}
