// The verdict for texts in memory over all their records at once.

ghost use Rattle.std.specs.Prelude.{◌≤◌, IfOk, length};
ghost use Rattle.apex_types.specs.declared.limits.TheConstants.{MOST_CORES};
ghost use Rattle.apex_machine.specs.Runs.{ArePlaced, AreOfCores};

use crate::answering::{Answer, Texts, line_of, readers_of};
use apex_types::{Ordered, View};
use asked_rules::{RuleOption, relations_of};
use core_intake::Intake;
use module_config::Config;
use order_cert::CertSource;
use placement::{Filled, Placer};
use report::{Verdict, status_of_outcome};
use std::alloc::{AllocError, Global};
use std::io::Cursor;
use std::sync::Wait;
use std::thread::Threads;
use user_rules::{Rule, Test};
use verdict_merge::check_plain;

// How far ahead the recordings are read.
const DEPTH: usize = 64;

/// What `check_plain` answers for these texts over the records that they place, whatever the rest is refused for, and under the rules that
/// their options request. There are no last records.
///
/// For a configuration that is refused, or that has another number of cores, the answer is an empty line with status 2.
pub fn answer_at_once<T>(rt: T, alloc: Global, texts: Texts<'_>) -> Result<Answer, AllocError>
where
    T: Threads + Wait + Sync + Copy + Send + 'static,
{
    let found = match Config::read(alloc, texts.config) {
        Ok(config) => {
            let found = verdict_under(rt, alloc, &config, texts);
            // Its parts are dropped in one place.
            drop(config);
            found?
        }
        Err(_) => None,
    };
    let Some(verdict) = found else {
        return Ok(Answer {
            line: Vec::new(alloc),
            last: Vec::new(alloc),
            status: 2,
        });
    };
    let outcome = Ok(verdict);
    Ok(Answer {
        line: line_of(alloc, &outcome)?,
        last: Vec::new(alloc),
        status: u64::from(status_of_outcome(&outcome)),
    })
}

// The verdict under this configuration, or None if it has another number of cores.
fn verdict_under<T>(
    rt: T,
    alloc: Global,
    config: &Config,
    texts: Texts<'_>,
) -> Result<Option<Verdict>, AllocError>
where
    T: Threads + Wait + Sync + Copy + Send + 'static,
{
    if config.cores() as usize != texts.recordings.len() {
        return Ok(None);
    }
    let readers = readers_of(alloc, texts.recordings)?;
    let Ok(intake) = Intake::open(rt, alloc, readers, DEPTH) else {
        return Err(AllocError);
    };
    let records = records_of(rt, alloc, intake, texts.order)?;
    Ok(Some(verdict_over(alloc, texts.options, config, &records)?))
}

// All records that this certificate places, whatever the rest is refused for.
fn records_of<T: Threads + Wait + Copy + Send + 'static>(
    rt: T,
    alloc: Global,
    intake: Intake<Cursor<Vec<u8>>>,
    order: &[u8],
) -> Result<Vec<Ordered>, AllocError>
    requires some { 1 ≤ length intake }
    requires few { length intake ≤ MOST_CORES }
    ensures placed { IfOk result (λ records. ArePlaced 0 records.items) }
    ensures cores { IfOk result (λ records. AreOfCores (length intake) records.items) }
{
    let mut placer = Placer::new(intake, CertSource::new(alloc, order));
    let mut records: Vec<Ordered> = Vec::new(alloc);
    let filled = placer.fill(&rt, &mut records, usize::MAX);
    placer.close(&rt);
    match filled {
        Filled::Full | Filled::Memory => Err(AllocError),
        Filled::Ended(_) => Ok(records),
    }
}

// The verdict over these records under the rules that the options request, each of which is its own test.
fn verdict_over(
    alloc: Global,
    options: &[RuleOption],
    config: &Config,
    records: &[Ordered],
) -> Result<Verdict, AllocError>
    requires placed { ArePlaced 0 records.now }
    requires cores { AreOfCores config.now.cores records.now }
{
    let mut rules = Vec::new(alloc);
    for relation in relations_of(alloc, options)? {
        let tested = relation.clone()?;
        let test: Test = Box::new(
            alloc,
            move |view: &View, values: &[i64]| tested.holds(view, values),
        )?;
        rules.push(Rule::new(relation, test))?;
    }
    match check_plain(alloc, config, records, &rules) {
        Ok(verdict) => Ok(verdict),
        Err(_) => Err(AllocError),
    }
}
