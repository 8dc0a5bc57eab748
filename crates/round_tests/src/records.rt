// What a run's texts say: its configuration, and its records at their places.

ghost use Rattle.std.specs.Prelude.{◌≡◌, ◌≤◌, IfOk, IfSome, length};
ghost use Rattle.apex_types.specs.declared.limits.TheConstants.{MOST_CORES};
ghost use Rattle.apex_machine.specs.Runs.{ArePlaced, AreOfCores};

use apex_types::Ordered;
use core_intake::Intake;
use module_config::Config;
use order_cert::CertSource;
use placement::{Filled, Placer};
use std::alloc::{AllocError, Global};
use std::sync::Wait;
use std::thread::Threads;

/// The configuration of a text that gives one with this many cores.
pub fn config_of(alloc: Global, text: &[u8], cores: u8) -> Option<Config>
    ensures { IfSome result (λ config. config.cores ≡ cores) }
{
    let config = Config::read(alloc, text).ok()?;
    if config.cores() == cores {
        Some(config)
    } else {
        None
    }
}

/// The records of these recordings, one for each core, all of which this certificate places.
pub fn records_of<T: Threads + Wait + Copy + Send + 'static>(
    rt: T,
    alloc: Global,
    recordings: Vec<&'static [u8]>,
    order: &[u8],
) -> Result<Vec<Ordered>, AllocError>
    requires some { 1 ≤ length recordings.items }
    requires few { length recordings.items ≤ MOST_CORES }
    ensures placed { IfOk result (λ records. ArePlaced 0 records.items) }
    ensures cores { IfOk result (λ records. AreOfCores (length recordings.entry.items) records.items) }
{
    let Ok(intake) = Intake::open(rt, alloc, recordings, 4) else {
        return Err(AllocError);
    };
    let mut placer = Placer::new(intake, CertSource::new(alloc, order));
    let mut records = Vec::new(alloc);
    let filled = placer.fill(&rt, &mut records, 64);
    placer.close(&rt);
    match filled {
        Filled::Ended(Ok(())) => Ok(records),
        Filled::Full | Filled::Ended(Err(_)) | Filled::Memory => Err(AllocError),
    }
}
